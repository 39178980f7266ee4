// Whether all identifiers differ.
ghost use Rattle.std.specs.Prelude.{◌≡◌, ◌+◌, ◌≤◌, ◌<◌};
ghost use Rattle.model.specs.Shipment.{most_shipments};
ghost use Rattle.memory.specs.Layout.{head_bytes};
ghost use Rattle.sound.specs.Inner.Walk.{others_from, apart_from};

use memory::Memory;

// Are the identifiers of n heads all different?
#[tactic(auto, using(text::proofs::Branches::branches, crate::proofs::HeadByHead::apart_more, crate::proofs::HeadByHead::apart_all))]
pub fn are_apart(memory: &Memory, n: usize) -> bool
    requires { n ≤ most_shipments }
    ensures { result ≡ apart_from memory.now 0 n }
{
    // Kept: 3c, 6c: tried as `all` over the numbers, and what that says of each number did not prove: `search` gave up at one of its limits.
    for i in 0..n {
        if !are_others(memory, i, i + 1, n - (i + 1)) {
            return false;
        }
    }
    true
}

// Have n heads from the j-th on another identifier than head i?
#[tactic(auto, using(text::proofs::Branches::branches, crate::proofs::HeadByHead::others_more, crate::proofs::HeadByHead::others_all))]
fn are_others(memory: &Memory, i: usize, from: usize, n: usize) -> bool
    requires { (i < most_shipments) × (from + n ≤ most_shipments) }
    ensures { result ≡ others_from (head_bytes memory.now i) memory.now from n }
{
    let head = memory.head(i);
    // Kept: 3c, 6c: tried as `all` over the numbers, and what that says of each number did not prove: `grind` stopped at its own limit of instances of lemmas.
    for j in from..from + n {
        if head.is_namesake(&memory.head(j)) {
            return false;
        }
    }
    true
}
