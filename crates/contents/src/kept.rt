// Orders kept in a table of numbers, one to an entry, so that an accepted file is not read again for them.
ghost use Rattle.std.specs.Prelude.{◌≡◌};
ghost use Rattle.contents.specs.Kept.{order_from, order_in};

use crate::record::Order;
use money::{Amount, Grosze};

// What an amount is multiplied by, so that its order's fault, at most 10, fits below it.
pub const STEP: u64 = 16;

// The order that entry j keeps; past the end, as of an entry of 0.
// Kept: 1f, 6d: a table of 2,048 orders as they are takes 32 KiB of the caller's stack, which is all that there is; one number to an order takes 16.
pub fn order_in(kept: &[u64], j: usize) -> Order
    ensures { result ≡ order_in kept.now j }
{
    order_from(kept.get(j).copied().unwrap_or(0))
}

// The order that a number says. Grosze that are no order's amount are 0.
// Kept: 1d, 4c: an order in one number, as `order_in` says why: there is no enum in it but its fault, which is a number as in memory.
#[tactic(auto, using(text::proofs::Branches::branches), unfolding(crate::specs::Kept::order_from))]
fn order_from(code: u64) -> Order
    ensures { result ≡ order_from code }
{
    let grosze = code / STEP;
    Order {
        amount: Amount::order(if Amount::is_order(grosze) { grosze } else { 0 }),
        fault: code % STEP,
    }
}
