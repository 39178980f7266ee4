// Rows taken together: how many shipments have, and whether any of one is Faulty.
ghost use Rattle.std.specs.Prelude.{◌≡◌, ◌*◌, ◌≤◌};
ghost use Rattle.model.specs.Shipment.{most_shipments, any_faulty};
ghost use Rattle.model.specs.Book.{rows_in};
ghost use Rattle.memory.specs.Read.{shipments_from};
ghost use Rattle.acts.specs.Inner.Waiting.{SoundInWaiting};

use memory::Memory;
use memory::rows::Rows;

// How many rows n shipments have.
pub fn rows_of(memory: &Memory, n: usize) -> usize
    requires { n ≤ most_shipments }
    ensures value { result ≡ rows_in (shipments_from memory.now 0 0 n) }
    ensures at_most { result ≤ n * 65_536 }
{
    let mut k = 0;
    // Kept: 3c: where heads lie is written in crate memory alone, so there is no slice of heads to walk.
    for i in 0..n {
        k += memory.head(i).orders() as usize;
    }
    k
}

// Is any of some rows Faulty? Their shipment is Waiting, so that all others are Open, and Open has no bit in its byte. No row is asked a question, so that
// many are taken at a time.
// Kept: 2c: it joins the bytes of state themselves, and soundness the class of each: one function for both is no plainer, with a closure for the byte.
#[tactic(auto, using(crate::proofs::RowWalks::looking_begun, crate::proofs::RowWalks::looking_on, crate::proofs::RowWalks::looking_done))]
pub fn has_faulty_in(rows: &Rows) -> bool
    requires { SoundInWaiting rows.now }
    ensures { result ≡ any_faulty rows.now }
{
    let mut bits = 0;
    for row in rows {
        bits |= row.code().0;
    }
    0 < bits
}
