// What a call does to a shipment as a whole: a transfer, a go-ahead, pairing, closing.
ghost use Rattle.std.specs.Prelude.{◌≡◌, not, ◌||◌, ltb};
ghost use Rattle.money.specs.Money.{WithinSum, grosze_in, money_of_sum};
ghost use Rattle.model.specs.Shipment.{any_faulty};
ghost use Rattle.model.specs.Calls.{transferred, gone_ahead, paired, closed};
ghost use Rattle.memory.specs.Read.{Sits};
ghost use Rattle.acts.specs.Answers.{completion_of, pairing_of};
ghost use Rattle.acts.specs.Inner.Place.{ActAt};
ghost use Rattle.acts.specs.Inner.Waiting.{SoundInWaiting};

use crate::answer::Pairing;
use crate::refusal::Refusal;
use crate::rows::has_faulty_in;
use memory::head::{store_accepted, store_go_ahead, store_stage};
use memory::place::Place;
use memory::shipment::LentShipment;
use model::Stage;
use money::{Amount, Fee, Grosze, Sum};

// Takes a transfer to the shipment at a place.
pub fn transfer_at(memory: &mut [u8], place: Place, sum: Sum) -> Result<(), Refusal>
    requires { Sits memory.old place.head place.row × WithinSum (grosze_in sum) }
    ensures { ActAt memory.old place.head place.row (transferred (money_of_sum sum) (grosze_in sum)) (completion_of result) memory.new }
{
    let money = sum.money();
    let before = LentShipment::at(memory, place).accepted(money);
    let total = before.grosze() + sum.grosze();
    if !Amount::is_sum(total) {
        return Err(Refusal::TotalAccepted);
    }
    store_accepted(memory, place.head, Sum::of(money, total));
    Ok(())
}

// Takes a go-ahead (OBS) for the shipment at a place.
#[tactic(auto, using(crate::proofs::PairingActs::goes_ahead))]
pub fn go_ahead_at(memory: &mut [u8], place: Place) -> Result<(), Refusal>
    requires { Sits memory.old place.head place.row }
    ensures { ActAt memory.old place.head place.row gone_ahead (completion_of result) memory.new }
{
    let shipment = LentShipment::at(memory, place);
    if !shipment.is_waiting() {
        return Err(Refusal::NotWaiting);
    }
    if !has_faulty_in(shipment.rows()) {
        return Err(Refusal::NoFaults);
    }
    if shipment.has_go_ahead() {
        return Err(Refusal::SecondGoAhead);
    }
    store_go_ahead(memory, place.head);
    Ok(())
}

// Pairs the shipment at a place.
#[tactic(auto, using(crate::proofs::PairingActs::pairs))]
pub fn pair_at(memory: &mut [u8], place: Place) -> Pairing
    requires { Sits memory.old place.head place.row }
    ensures { ActAt memory.old place.head place.row paired (pairing_of result) memory.new }
{
    let shipment = LentShipment::at(memory, place);
    if !shipment.is_waiting() {
        return Pairing::from(Refusal::NotWaiting);
    }
    if !may_pair(&shipment) {
        return Pairing::from(Refusal::Faults);
    }
    let rows = shipment.rows();
    let amount = rows.amounts().less(shipment.amounts_accepted());
    let fee = rows.fees().less(shipment.fees_accepted());
    if is_short(amount, fee) {
        return Pairing::Short(amount, fee);
    }
    store_stage(memory, place.head, Stage::Paired);
    Pairing::Paired
}

// Closes the shipment at a place.
#[tactic(auto, using(crate::proofs::ShipmentActs::closes))]
pub fn close_at(memory: &mut [u8], place: Place) -> Result<(), Refusal>
    requires { Sits memory.old place.head place.row }
    ensures { ActAt memory.old place.head place.row closed (completion_of result) memory.new }
{
    if !LentShipment::at(memory, place).is_waiting() {
        return Err(Refusal::NotWaiting);
    }
    store_stage(memory, place.head, Stage::Closed);
    Ok(())
}

// Has the shipment a go-ahead, or no faults?
#[tactic(auto, using(text::proofs::Branches::branches))]
fn may_pair(shipment: &LentShipment) -> bool
    requires { SoundInWaiting shipment.now.rows }
    ensures { result ≡ (shipment.now.go_ahead || not (any_faulty shipment.now.rows)) }
{
    shipment.has_go_ahead() || !has_faulty_in(shipment.rows())
}

// Is anything missing?
#[tactic(auto, using(text::proofs::Branches::branches))]
fn is_short(amount: Amount, fee: Fee) -> bool
    ensures { result ≡ (ltb 0 amount.0 || ltb 0 fee.0) }
{
    0 < amount.0 || 0 < fee.0
}
