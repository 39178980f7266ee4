// Post, pay, mark undelivered and withdraw: one walk to the order, one change of its state.
ghost use Rattle.std.specs.Prelude.{◌≡◌};
ghost use Rattle.model.specs.Calls.{fits, becomes, on_order};
ghost use Rattle.acts.specs.Inner.Handled.{handling_of};
ghost use Rattle.acts.specs.Inner.Place.{ActAt};
ghost use Rattle.memory.specs.Read.{Sits};

use crate::refusal::Refusal;
use memory::place::Place;
use memory::row::store_state;
use memory::shipment::LentShipment;
use model::{Deed, State};
use money::{Amount, Fee};

// The order that was handled: its fee and its amount.
#[derive(Clone, Copy, PartialEq, Eq, Debug)]
pub struct Handled {
    pub fee: Fee,
    pub amount: Amount,
}

// Does a deed with an order of the shipment at a place.
#[tactic(auto, using(crate::proofs::Orders::handles))]
pub fn handle_at(
    memory: &mut [u8],
    place: Place,
    deed: Deed,
    number: u64,
) -> Result<Handled, Refusal>
    requires { Sits memory.old place.head place.row }
    ensures { ActAt memory.old place.head place.row (on_order deed number) (handling_of deed result) memory.new }
{
    let shipment = LentShipment::at(memory, place);
    if !shipment.is_paired() {
        return Err(Refusal::NotPaired);
    }
    if !(1..=shipment.rows().len() as u64).contains(&number) {
        return Err(Refusal::NoSuchOrder);
    }
    let past = (number - 1) as usize;
    let order = shipment.rows().row(past);
    if !does_fit(deed, order.state()) {
        return Err(Refusal::State);
    }
    let fee = order.fee();
    let amount = order.amount();
    store_state(memory, place.row + past, state_after(deed));
    Ok(Handled { fee, amount })
}

// Does the state fit the deed?
fn does_fit(deed: Deed, state: State) -> bool
    ensures { result ≡ fits deed state }
{
    // Kept: 7b: document 01 says of each deed which state fits it, and a match has them side by side.
    match deed {
        Deed::Post | Deed::Withdraw => state == State::Open,
        Deed::Pay | Deed::MarkUndelivered => state == State::Posted,
    }
}

// The state after the deed.
fn state_after(deed: Deed) -> State
    ensures { result ≡ becomes deed }
{
    // Kept: 7b: document 01 says of each deed what the state becomes, and a match has them side by side.
    match deed {
        Deed::Post => State::Posted,
        Deed::Pay => State::Paid,
        Deed::MarkUndelivered => State::Undelivered(true),
        Deed::Withdraw => State::Withdrawn(true, true),
    }
}
