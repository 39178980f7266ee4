// The settlement book in lent memory: every call of document 01 but the sheet.
#![tactic(auto)]

mod enter;
pub mod numbers;
pub mod refusal;
pub mod reply;
pub mod told;

ghost use Rattle.std.specs.Prelude.{◌≡◌, true, IfOk};
ghost use Rattle.money.specs.Money.{WithinSum, grosze_in, money_of_sum};
ghost use Rattle.model.specs.Calls.{Intake, GoAhead, Pair, Close, OnOrder, Return, Transfer, On, transferred};
ghost use Rattle.model.specs.declared.Deed.TheVariants.{Post, Pay, MarkUndelivered, Withdraw};
ghost use Rattle.acts.specs.Refusal.{number_of};
ghost use Rattle.acts.specs.Answers.{completion_of, pairing_of, posting_of, payment_of, returning_of};
ghost use Rattle.acts.specs.Inner.Handled.{handling_of};
ghost use Rattle.memory.specs.Read.{sound_in, read_book};
ghost use Rattle.acts.specs.Inner.Place.{named_in};
ghost use Rattle.book.specs.Acceptance.{acceptance_of};
ghost use Rattle.book.specs.Does.{Does, MakesEmpty};
ghost use Rattle.book.specs.NoReturn.{no_return};
ghost use Rattle.book.specs.Inner.Sought.{DoesSought};

use crate::enter::take_file;
use crate::refusal::IntakeRefusal;
use acts::answer::{Pairing, Returned};
use acts::order::{Handled, handle_at};
use acts::place::{place_called, place_named};
use acts::refusal::Refusal;
use acts::route::return_by_at;
use acts::shipment::{close_at, go_ahead_at, pair_at, transfer_at};
use contents::judge::Accepted;
use epe::ident::Ident;
use epe::name::{Name, read_title};
use epe::profile::{Profile, judge_profile};
use memory::shipment::LentShipment;
use memory::{SIZE, store_shipments};
use model::{Deed, Route};
use money::{Amount, Fee, Money, Sum};
use sound::is_sound;

// Makes an empty book in memory that is long enough, whatever it holds.
#[tactic(auto, using(crate::proofs::Making::none_made, crate::proofs::Making::made))]
pub fn make_empty(memory: &mut [u8]) -> Result<(), Refusal>
    ensures { MakesEmpty memory.old (completion_of result) memory.new }
{
    if memory.len() < SIZE {
        return Err(Refusal::Unsound);
    }
    store_shipments(memory, 0);
    Ok(())
}

// Takes in an order file: it is judged before the first byte of the book is written.
#[tactic(auto, using(crate::proofs::IntakeActs::intakes))]
pub fn intake(
    memory: &mut [u8],
    profile: Profile,
    name: &[u8],
    file: &[u8],
) -> Result<Accepted, IntakeRefusal>
    ensures { Does memory.old (Intake profile name.now file.now) (acceptance_of result) memory.new }
{
    judge_profile(profile)?;
    if !is_sound(memory) {
        return Err(IntakeRefusal::Unreadable);
    }
    take_file(memory, profile, name, file)
}

// A transfer of K or O, for the shipment that its title names.
pub fn transfer(memory: &mut [u8], title: &[u8], amount: u64) -> Result<(), Refusal>
    ensures { Does memory.old (Transfer title.now amount) (completion_of result) memory.new }
{
    if !is_sound(memory) {
        return Err(Refusal::Unsound);
    }
    let title = read_title(title).or(Err(Refusal::Title))?;
    let sum = Sum::of_transfer(title.money, amount).ok_or(Refusal::TransferAmount)?;
    transfer_to(memory, title.name, sum)
}

// Go-ahead (OBS): a Waiting shipment with faults may be paired.
pub fn go_ahead(memory: &mut [u8], ident: Ident) -> Result<(), Refusal>
    ensures { Does memory.old (On ident GoAhead) (completion_of result) memory.new }
{
    let place = place_called(memory, ident)?;
    go_ahead_at(memory, place)
}

// Pair: a Waiting shipment is Paired when both needs are covered.
// Kept: 2a, 2c: document 01 has it as a call of its own, and so has the C interface.
pub fn pair(memory: &mut [u8], ident: Ident) -> Pairing
    ensures { Does memory.old (On ident Pair) (pairing_of result) memory.new }
{
    // Kept: 7a: a pairing is document 01's own form and no Result, so that `?` passes no refusal on.
    match place_called(memory, ident) {
        Ok(place) => pair_at(memory, place),
        Err(refusal) => Pairing::from(refusal),
    }
}

// Close (WYC or ODR): a Waiting shipment is Closed.
// Kept: 2a, 2c: document 01 has it as a call of its own, and so has the C interface.
pub fn close(memory: &mut [u8], ident: Ident) -> Result<(), Refusal>
    ensures { Does memory.old (On ident Close) (completion_of result) memory.new }
{
    let place = place_called(memory, ident)?;
    close_at(memory, place)
}

// Post: an Open order is Posted, and its fee earned.
pub fn post(memory: &mut [u8], ident: Ident, number: u64) -> Result<Fee, Refusal>
    ensures { Does memory.old (On ident (OnOrder Post number)) (posting_of result) memory.new }
{
    let handled = handle(memory, ident, Deed::Post, number)?;
    Ok(handled.fee)
}

// Pay: a Posted order is Paid, and its amount has left.
// Kept: 2a, 2c: document 01 has it as a call of its own, and so has the C interface.
pub fn pay(memory: &mut [u8], ident: Ident, number: u64) -> Result<Amount, Refusal>
    ensures { Does memory.old (On ident (OnOrder Pay number)) (payment_of result) memory.new }
{
    let handled = handle(memory, ident, Deed::Pay, number)?;
    Ok(handled.amount)
}

// Undelivered: a Posted order's amount waits.
// Kept: 2a, 2c: document 01 has it as a call of its own, and so has the C interface.
pub fn mark_undelivered(memory: &mut [u8], ident: Ident, number: u64) -> Result<(), Refusal>
    ensures { Does memory.old (On ident (OnOrder MarkUndelivered number)) (completion_of result) memory.new }
{
    handle(memory, ident, Deed::MarkUndelivered, number)?;
    Ok(())
}

// Withdraw: an Open order's amount and fee wait.
// Kept: 2a, 2c: document 01 has it as a call of its own, and so has the C interface.
pub fn withdraw(memory: &mut [u8], ident: Ident, number: u64) -> Result<(), Refusal>
    ensures { Does memory.old (On ident (OnOrder Withdraw number)) (completion_of result) memory.new }
{
    handle(memory, ident, Deed::Withdraw, number)?;
    Ok(())
}

// Return: what is free (ZWR), or waits in Faulty (OPR), Undelivered (ZPR) or Withdrawn (ZZR) orders, goes back.
// Kept: 2a, 2c: document 01 has it as a call of its own, and so has the C interface.
pub fn return_money(
    memory: &mut [u8],
    ident: Ident,
    route: Route,
    money: Money,
) -> Result<Returned, Refusal>
    ensures does { Does memory.old (On ident (Return route money)) (returning_of money result) memory.new }
    ensures of_money { IfOk result (λ returned. money_of_sum returned.sum ≡ money) }
{
    let place = place_called(memory, ident)?;
    return_by_at(memory, place, route, money)
}

// The refusal of a return by a route, or of a money, that there is not: its last question is that of ZPR with O.
#[tactic(auto, using(crate::proofs::NoReturns::refuses))]
pub fn refuse_return(memory: &[u8], ident: Ident) -> Refusal
    ensures { number_of result ≡ no_return ident (read_book memory.now) }
{
    match place_called(memory, ident) {
        Ok(place) => {
            if LentShipment::at(memory, place).is_paired() {
                Refusal::UndeliveredFee
            } else {
                Refusal::NotPaired
            }
        }
        Err(refusal) => refusal,
    }
}

// A transfer to the shipment of a name, in a sound book.
// Kept: 2c: it looks for a name, and not for an identifier.
fn transfer_to(memory: &mut [u8], name: Name, sum: Sum) -> Result<(), Refusal>
    requires { (sound_in memory.old ≡ true) × WithinSum (grosze_in sum) }
    ensures { DoesSought (named_in name) (transferred (money_of_sum sum) (grosze_in sum)) memory.old (completion_of result) memory.new }
{
    let place = place_named(memory, name)?;
    transfer_at(memory, place, sum)
}

// Does a deed with an order.
// Kept: 2a: the four deeds are calls of this one; a return is another call of document 01.
fn handle(memory: &mut [u8], ident: Ident, deed: Deed, number: u64) -> Result<Handled, Refusal>
    ensures { Does memory.old (On ident (OnOrder deed number)) (handling_of deed result) memory.new }
{
    let place = place_called(memory, ident)?;
    handle_at(memory, place, deed, number)
}
