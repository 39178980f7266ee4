// The balance sheet: a row to a shipment in a lent table, and totals.
#![tactic(auto)]

mod division;
pub mod refusal;
mod row;
mod total;

ghost use Rattle.std.specs.Prelude.{◌≡◌, ◌≤◌, ◌++◌, length, drop, map};
ghost use Rattle.epe.specs.Numbered.{numbered};
ghost use Rattle.memory.specs.Read.{read_book};
ghost use Rattle.sheet.specs.Refusal.{number_of};
ghost use Rattle.sheet.specs.Sheet.{row_for, sheet_of};

use crate::refusal::Refusal;
use crate::row::row_for;
use crate::total::add;
use epe::ident::Ident;
use money::{Amount, Fee};
use sound::book::Book;

// What was accepted, is held, is free and has left, in K.
// Kept: 2b: the C interface has two structs, of two moneys that are never added to each other.
#[repr(C)]
#[derive(Clone, Copy)]
pub struct Amounts {
    pub accepted: Amount,
    pub held: Amount,
    pub free: Amount,
    pub left: Amount,
}

// The same, in O.
// Kept: 2b: the C interface has two structs, of two moneys that are never added to each other.
#[repr(C)]
#[derive(Clone, Copy)]
pub struct Fees {
    pub accepted: Fee,
    pub held: Fee,
    pub free: Fee,
    pub left: Fee,
}

// A row of the sheet: a shipment's identifier, and its sums.
#[repr(C)]
#[derive(Clone, Copy)]
pub struct SheetRow {
    pub ident: Ident,
    pub amounts: Amounts,
    pub fees: Fees,
}

// The sums over rows.
#[repr(C)]
#[derive(Clone, Copy)]
pub struct Totals {
    pub amounts: Amounts,
    pub fees: Fees,
}

// The balance sheet of a book: a row of the table is filled for each shipment, in order of intake, and the rows are added to the totals.
#[tactic(auto, using(crate::proofs::Filled::sheets))]
pub fn sheet(book: &[u8], table: &mut [SheetRow], totals: &mut Totals) -> Result<u64, Refusal>
    ensures { record { answer = numbered number_of result; table = table.new; totals = totals.new } ≡ sheet_of (read_book book.now) table.old totals.old }
{
    let book = Book::of(book).ok_or(Refusal::Unsound)?;
    let n = book.len();
    if table.len() < n {
        return Err(Refusal::NoRoom);
    }
    let sums = add(&book, *totals).ok_or(Refusal::AboveCap)?;
    *totals = sums;
    fill(table, &book);
    Ok(n as u64)
}

// Fills the first rows of a table with those of a book.
#[tactic(auto, using(crate::proofs::Filled::filling))]
fn fill(table: &mut [SheetRow], book: &Book)
    requires { length book.now ≤ length table.old }
    ensures { table.new ≡ map row_for book.now ++ drop (length book.now) table.old }
{
    for (i, shipment) in book.into_iter().enumerate() {
        table[i] = row_for(&shipment);
    }
}
