// The walk over the record lines: what they come to together, and their orders kept on the way.
ghost use Rattle.std.specs.Prelude.{◌≡◌, cond, ◌+◌, ◌≤◌, ltb, length, set};
ghost use Rattle.fee.specs.Fee.{TermsFit};
ghost use Rattle.epe.specs.Inner.Walk.{lines_from};
ghost use Rattle.contents.specs.Kept.{Keepable, kept_code};
ghost use Rattle.contents.specs.Inner.Tally.{added, SmallTally, Tallied};

use crate::kept::STEP;
use crate::record::{Order, read_record};
use fee::{Terms, charge_on};
use text::bytes::slice;
use text::lines::line_end;

// What the record lines so far come to: whether all are priced and charged a fee, how many they are, their sum, and how many orders are faulty.
// Their sum is a plain number: 999,999 amounts can pass the cap of a sum, and only one that equals the header's is taken.
// Kept: 1c: whether all are priced and charged is asked only where all lines are in shape, with other questions between, so that the walk carries it on.
#[derive(Clone, Copy, PartialEq, Eq, Debug)]
pub struct Tally {
    pub priced: bool,
    pub charged: bool,
    pub count: u64,
    pub sum: u64,
    pub faulty: u64,
}

// The tally of the record lines from a place on, if all are shaped; their orders are kept as they are read, up to the first that is not.
// Kept: 5a: terms are also what the C interface lends, in a profile or in memory, before it is judged: any numbers, so that their type can't have the caps.
// Kept: 6d: one number to an order, since a table of orders as they are takes all the caller's stack (`order_in`).
pub fn tally_records(
    s: &[u8],
    from: usize,
    fields: u64,
    terms: Terms,
    kept: &mut [u64],
) -> Option<Tally>
    requires { (fields ≤ 32) × TermsFit terms }
    ensures { Tallied fields terms (lines_from from s.now) result kept.old kept.new }
{
    let mut tally = Tally {
        priced: true,
        charged: true,
        count: 0,
        sum: 0,
        faulty: 0,
    };
    let mut at = from;
    // Kept: 3b: a line starts where the one before it was found to end, and no iterator of the library parts a text at CR LF.
    while at <= s.len() {
        let end = line_end(s, at);
        let order = read_record(slice(s, at, end), fields, tally.count + 1).ok()?;
        keep(kept, tally.count, order);
        tally = with_order(terms, tally, order);
        at = after_line(s, end);
    }
    Some(tally)
}

// Keeps an order in entry j, where the table has that entry.
// Kept: 6d: one number to an order, since a table of orders as they are takes all the caller's stack (`order_in`).
#[tactic(auto, using(crate::proofs::KeptInOrder::kept_beyond))]
fn keep(kept: &mut [u64], j: u64, order: Order)
    requires { Keepable order }
    ensures { kept.new ≡ set kept.old j (kept_code order) }
{
    if j < kept.len() as u64 {
        kept[j as usize] = order.amount.0 * STEP + order.fault;
    }
}

// The tally with one order more, on the terms of its fee.
// Kept: 5a: terms are also what the C interface lends, in a profile or in memory, before it is judged: any numbers, so that their type can't have the caps.
#[tactic(auto, using(crate::proofs::TallyWalk::charge_within), unfolding(crate::specs::Inner::Tally::added))]
fn with_order(terms: Terms, tally: Tally, order: Order) -> Tally
    requires { SmallTally tally order × TermsFit terms }
    ensures { result ≡ added terms tally order }
{
    Tally {
        priced: tally.priced & (0 < order.amount.0),
        charged: tally.charged & charge_on(terms, order.amount).is_some(),
        count: tally.count + 1,
        sum: tally.sum + order.amount.0,
        faulty: tally.faulty + u64::from(order.fault != 0),
    }
}

// Where the line after one that ends at a place starts: behind its CR LF, or past the end.
#[tactic(auto, using(text::proofs::Branches::branches))]
pub fn after_line(s: &[u8], end: usize) -> usize
    ensures { result ≡ cond (ltb end (length s.now)) (end + 2) (length s.now + 1) }
{
    if end < s.len() { end + 2 } else { s.len() + 1 }
}
