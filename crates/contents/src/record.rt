// Record lines, an order each: whether a line has the shape of a record, its amount, and its first fault.
ghost use Rattle.std.specs.Prelude.{◌≡◌, ◌&&◌, not, eqb, leb, length, is_some};
ghost use Rattle.std.specs.Option.{unwrap_or};
ghost use Rattle.text.specs.Number.{number};
ghost use Rattle.text.specs.Bytes.{same};
ghost use Rattle.text.specs.Quoted.{bytes};
ghost use Rattle.money.specs.Money.{WithinOrder};
ghost use Rattle.epe.specs.File.{field};
ghost use Rattle.contents.specs.Faults.{fault_of};
ghost use Rattle.contents.specs.Contents.{shaped, amount_in, order_of};
ghost use Rattle.contents.specs.Inner.Tally.{record_read, order_said};

use crate::faults::{Record, number_of};
use epe::line::Line;
use money::{Amount, Grosze};
use text::lines::has_stray;
use text::number;

// An order: its amount, and the number of its first fault, 0 for none.
// Kept: 1c, 1d: an order is kept as one number and put into lent memory as bytes, where its fault is this number.
#[derive(Clone, Copy, PartialEq, Eq, Debug)]
pub struct Order {
    pub amount: Amount,
    pub fault: u64,
}

// What a line says that is not in shape: an order all the same.
#[derive(Clone, Copy, PartialEq, Eq, Debug)]
pub struct Misshaped {
    pub order: Order,
}

// The order of a line that is to be record n, in so many fields, also where it has not that shape.
#[tactic(auto, using(text::proofs::Branches::branches), unfolding(crate::specs::Inner::Tally::record_read))]
pub fn read_record(line: &[u8], fields: u64, n: u64) -> Result<Order, Misshaped>
    ensures value { result ≡ record_read fields n line.now }
    ensures within { WithinOrder (order_said result).amount.0 }
{
    let line = Line::of(line);
    let order = order_of(&line);
    if !is_shaped(&line, fields, n) {
        return Err(Misshaped { order });
    }
    Ok(order)
}

// Has a line the shape of record n, in so many fields? Never in more than 32.
#[tactic(auto, using(text::proofs::Branches::branches), unfolding(crate::specs::Contents::shaped))]
fn is_shaped(line: &Line<'_>, fields: u64, n: u64) -> bool
    ensures { result ≡ (leb fields 32 && shaped fields n line.now.text.now) }
{
    fields <= 32
        && ((line.has(fields as usize) && !has_stray(line.text()))
            && (is_marked(line) && is_numbered(line, n)))
}

// Is field 1 a record's mark?
fn is_marked(line: &Line<'_>) -> bool
    ensures { result ≡ same (field 1 line.now.text.now) (bytes "2") }
{
    line.nth(1) == b"2".as_slice()
}

// Is field 2 one to six digits that write n?
#[tactic(auto, using(text::proofs::Branches::branches))]
fn is_numbered(line: &Line<'_>, n: u64) -> bool
    ensures { result ≡ (is_some (number 1 6 (field 2 line.now.text.now)) && eqb (unwrap_or (number 1 6 (field 2 line.now.text.now)) 0) n) }
{
    number::read(line.nth(2), 1, 6).is_some_and(|value| value == n)
}

// The order of a line.
#[tactic(auto, using(money::proofs::Reading::amount_or_none, money::proofs::Reading::order_text_bound), unfolding(crate::specs::Contents::order_of))]
fn order_of(line: &Line<'_>) -> Order
    ensures value { result ≡ order_of line.now.text.now }
    ensures within { WithinOrder result.amount.0 }
{
    Order {
        amount: Amount::read_order(line.nth(3)).unwrap_or(Amount::order(0)),
        fault: number_of(Record::of(line).first_fault()),
    }
}
