// The rows of a shipment, taken together for its soundness: column by column, and no loop leaves before its end, so that many rows are taken at a time.
ghost use Rattle.std.specs.Prelude.{◌≡◌, IfSome};
ghost use Rattle.fee.specs.Fee.{TermsFit};
ghost use Rattle.sound.specs.Inner.Tally.{joined, faulty_in, tally_of, SmallTally};

use crate::charges::{Charges, charges_in};
use fee::Terms;
use memory::rows::Rows;

// The classes from here on are of states that only a Paired shipment may have.
pub const ONLY_PAIRED: u8 = 2;

// The classes from here on are of faults out of range, and of bytes that say no state.
pub const OUT_OF_RANGE: u8 = 4;

// What the rows of a shipment come to: the classes of their states joined, and their charges.
// Kept: 1d: the bits of many rows are joined by one `|`, and three bools would be joined by three.
#[derive(Clone, Copy)]
pub struct Tally {
    pub classes: u8,
    pub charges: Charges,
}

// The tally of rows, on the terms of their fees, where each is charged its own.
pub fn tally_by(rows: &Rows, terms: Terms) -> Option<Tally>
    requires { TermsFit terms }
    ensures { (result ≡ tally_of terms rows.now) × IfSome result SmallTally }
{
    let charges = charges_in(rows, terms)?;
    let classes = classes_in(rows);
    Some(Tally { classes, charges })
}

// Is any of the rows Faulty?
pub fn has_faulty(tally: Tally) -> bool
    ensures { result ≡ faulty_in tally }
{
    tally.classes % 2 == 1
}

// The classes of their states, joined.
// Kept: 1d: the bits of many rows are joined by one `|`, and three bools would be joined by three.
#[tactic(auto, unfolding(crate::specs::Inner::Tally::joined))]
fn classes_in(rows: &Rows) -> u8
    ensures { result ≡ joined 0 rows.now }
{
    let mut classes = 0;
    for row in rows {
        classes |= row.class();
    }
    classes
}
