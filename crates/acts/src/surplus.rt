// ZWR: the free money of a shipment goes back.
ghost use Rattle.std.specs.Prelude.{◌≡◌, IfOk};
ghost use Rattle.money.specs.Money.{sum_of, money_of_sum};
ghost use Rattle.model.specs.Shipment.{need_once_paired, free};
ghost use Rattle.model.specs.Calls.{surplus_returned};
ghost use Rattle.memory.specs.Read.{Sits};
ghost use Rattle.acts.specs.Answers.{returning_of};
ghost use Rattle.acts.specs.Inner.Place.{ActAt};

use crate::answer::Returned;
use crate::refusal::Refusal;
use memory::head::store_returned;
use memory::place::Place;
use memory::shipment::LentShipment;
use money::{Money, Sum};

// Returns the free money of the shipment at a place.
pub fn surplus_at(memory: &mut [u8], place: Place, money: Money) -> Result<Returned, Refusal>
    requires { Sits memory.old place.head place.row }
    ensures acts { ActAt memory.old place.head place.row (surplus_returned money) (returning_of money result) memory.new }
    ensures of_money { IfOk result (λ returned. money_of_sum returned.sum ≡ money) }
{
    let shipment = LentShipment::at(memory, place);
    if shipment.is_waiting() {
        return Err(Refusal::StillWaiting);
    }
    let before = shipment.returned(money);
    let sum = free_in(&shipment, money);
    let grosze = sum.grosze();
    if grosze == 0 {
        return Err(Refusal::NothingToReturn);
    }
    store_returned(memory, place.head, Sum::of(money, before.grosze() + grosze));
    Ok(Returned { sum, count: 0 })
}

// The free money of a shipment.
fn free_in(shipment: &LentShipment, money: Money) -> Sum
    ensures { result ≡ sum_of money (free money shipment.now) }
{
    let accepted = shipment.accepted(money);
    let need = need_in(shipment, money);
    let returned = shipment.returned(money);
    Sum::of(money, accepted.grosze() - need.grosze() - returned.grosze())
}

// What a shipment needs of a money, once Paired.
#[tactic(auto, using(crate::proofs::SurplusActs::none_needed, crate::proofs::SurplusActs::needed_amounts, crate::proofs::SurplusActs::needed_fees))]
fn need_in(shipment: &LentShipment, money: Money) -> Sum
    ensures { result ≡ sum_of money (need_once_paired money shipment.now) }
{
    if !shipment.is_paired() {
        return Sum::of(money, 0);
    }
    // Kept: 7a: amounts and fees are two columns of two types, and here one is chosen by the money.
    match money {
        Money::K => Sum::Amounts(shipment.rows().amounts()),
        Money::O => Sum::Fees(shipment.rows().fees()),
    }
}
