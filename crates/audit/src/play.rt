// One call of a journal, made in lent memory.
ghost use Rattle.std.specs.Prelude.{◌≡◌, ◌≤◌};
ghost use Rattle.epe.specs.Ident.{ident_of};
ghost use Rattle.model.specs.Calls.{Intake, Transfer, On};
ghost use Rattle.book.specs.Reply.{Plays};
ghost use Rattle.audit.specs.Journal.{call_byte, entry_number, entry_text, profile_in, act_in, call_in};

use crate::journal::Entry;
use book::numbers::{money_of, route_of};
use book::reply::{Reply, refused};
use book::told;
use epe::profile::are_fees;
use epe::refusal::Refusal;

// Makes the call of an entry.
#[tactic(auto, using(crate::proofs::CallOfEntry::calls))]
pub fn play(memory: &mut [u8], entry: &Entry) -> Reply
    ensures { Plays memory.old (call_in entry.now.head.bytes.now) result memory.new }
{
    // Kept: 7a: each call of a journal is another call of the book.
    match entry.head.call() {
        0 => play_intake(memory, entry),
        1 => play_transfer(memory, entry),
        _ => play_act(memory, entry),
    }
}

// Makes an entry's intake.
#[tactic(auto, using(book::proofs::IntakeActs::profile_refused, book::proofs::Telling::plays, book::proofs::Telling::plays_same, crate::proofs::CallOfEntry::unfit))]
fn play_intake(memory: &mut [u8], entry: &Entry) -> Reply
    ensures { Plays memory.old (Intake (profile_in entry.now.head.bytes.now) (entry_text entry.now.head.bytes.now 0) (entry_text entry.now.head.bytes.now 1)) result memory.new }
{
    if !are_fees(entry.head.fees()) {
        return refused(u64::from(Refusal::Profile));
    }
    told::intake(memory, entry.head.profile(), entry.text(0), entry.text(1))
}

// Makes an entry's transfer.
#[tactic(auto, using(book::proofs::Telling::plays_same))]
fn play_transfer(memory: &mut [u8], entry: &Entry) -> Reply
    ensures { Plays memory.old (Transfer (entry_text entry.now.head.bytes.now 0) (entry_number entry.now.head.bytes.now 0)) result memory.new }
{
    told::transfer(memory, entry.text(0), entry.head.number(0))
}

// Does what an entry says with a shipment.
#[tactic(auto, using(crate::proofs::CallOfEntry::acts))]
fn play_act(memory: &mut [u8], entry: &Entry) -> Reply
    requires { 2 ≤ call_byte entry.now.head.bytes.now }
    ensures { Plays memory.old (On (ident_of (entry_text entry.now.head.bytes.now 0)) (act_in entry.now.head.bytes.now)) result memory.new }
{
    let id = entry.text(0);
    // Kept: 7a: each call of a journal is another call of the book.
    match entry.head.call() {
        2 => told::go_ahead(memory, id),
        3 => told::pair(memory, id),
        4 => told::close(memory, id),
        9 => {
            let route = route_of(entry.head.number(0));
            let money = money_of(entry.head.number(1));
            told::return_money(memory, id, route, money)
        }
        _ => play_on_order(memory, entry, id),
    }
}

// Does what an entry says with an order.
#[tactic(auto, using(crate::proofs::CallOfEntry::on_orders))]
fn play_on_order(memory: &mut [u8], entry: &Entry, id: &[u8]) -> Reply
    requires { (id.now ≡ entry_text entry.now.head.bytes.now 0) × (5 ≤ call_byte entry.now.head.bytes.now) × (call_byte entry.now.head.bytes.now ≤ 8) }
    ensures { Plays memory.old (On (ident_of (entry_text entry.now.head.bytes.now 0)) (act_in entry.now.head.bytes.now)) result memory.new }
{
    let number = entry.head.number(0);
    // Kept: 7a: each call of a journal is another call of the book.
    match entry.head.call() {
        5 => told::post(memory, id, number),
        6 => told::pay(memory, id, number),
        7 => told::mark_undelivered(memory, id, number),
        _ => told::withdraw(memory, id, number),
    }
}
