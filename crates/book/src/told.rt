// The calls, each answered in three numbers.
ghost use Rattle.epe.specs.Ident.{ident_of};
ghost use Rattle.model.specs.Calls.{GoAhead, Pair, Close, OnOrder, Return, Intake, Transfer, On};
ghost use Rattle.model.specs.declared.Deed.TheVariants.{Post, Pay, MarkUndelivered, Withdraw};
ghost use Rattle.book.specs.Reply.{Plays};

use crate::reply::{Reply, Told, tell};
use epe::ident::ident_of;
use epe::profile::Profile;
use model::Route;
use money::Money;

// Takes in an order file.
pub fn intake(memory: &mut [u8], profile: Profile, name: &[u8], file: &[u8]) -> Reply
    ensures { Plays memory.old (Intake profile name.now file.now) result memory.new }
{
    tell(crate::intake(memory, profile, name, file))
}

// Takes a transfer.
pub fn transfer(memory: &mut [u8], title: &[u8], amount: u64) -> Reply
    ensures { Plays memory.old (Transfer title.now amount) result memory.new }
{
    tell(crate::transfer(memory, title, amount))
}

// Takes a go-ahead.
pub fn go_ahead(memory: &mut [u8], id: &[u8]) -> Reply
    ensures { Plays memory.old (On (ident_of id.now) GoAhead) result memory.new }
{
    tell(crate::go_ahead(memory, ident_of(id)))
}

// Pairs a shipment.
// Kept: 2a, 2c: the exports and a replay make each call of document 01 by its name.
pub fn pair(memory: &mut [u8], id: &[u8]) -> Reply
    ensures { Plays memory.old (On (ident_of id.now) Pair) result memory.new }
{
    crate::pair(memory, ident_of(id)).told()
}

// Closes a shipment.
// Kept: 2a, 2c: the exports and a replay make each call of document 01 by its name.
pub fn close(memory: &mut [u8], id: &[u8]) -> Reply
    ensures { Plays memory.old (On (ident_of id.now) Close) result memory.new }
{
    tell(crate::close(memory, ident_of(id)))
}

// Posts an order.
pub fn post(memory: &mut [u8], id: &[u8], order: u64) -> Reply
    ensures { Plays memory.old (On (ident_of id.now) (OnOrder Post order)) result memory.new }
{
    tell(crate::post(memory, ident_of(id), order))
}

// Pays an order.
// Kept: 2a, 2c: the exports and a replay make each call of document 01 by its name.
pub fn pay(memory: &mut [u8], id: &[u8], order: u64) -> Reply
    ensures { Plays memory.old (On (ident_of id.now) (OnOrder Pay order)) result memory.new }
{
    tell(crate::pay(memory, ident_of(id), order))
}

// Marks an order undelivered.
// Kept: 2a, 2c: the exports and a replay make each call of document 01 by its name.
pub fn mark_undelivered(memory: &mut [u8], id: &[u8], order: u64) -> Reply
    ensures { Plays memory.old (On (ident_of id.now) (OnOrder MarkUndelivered order)) result memory.new }
{
    tell(crate::mark_undelivered(memory, ident_of(id), order))
}

// Withdraws an order.
// Kept: 2a, 2c: the exports and a replay make each call of document 01 by its name.
pub fn withdraw(memory: &mut [u8], id: &[u8], order: u64) -> Reply
    ensures { Plays memory.old (On (ident_of id.now) (OnOrder Withdraw order)) result memory.new }
{
    tell(crate::withdraw(memory, ident_of(id), order))
}

// Returns money by a route.
pub fn return_money(memory: &mut [u8], id: &[u8], route: Route, money: Money) -> Reply
    ensures { Plays memory.old (On (ident_of id.now) (Return route money)) result memory.new }
{
    tell(crate::return_money(memory, ident_of(id), route, money))
}
