// Whether lent memory is a sound book, judged in one pass over its heads and rows.
#![tactic(auto)]

mod apart;
pub mod book;
mod charges;
mod shipment;
mod tally;

ghost use Rattle.std.specs.Prelude.{◌≡◌};
ghost use Rattle.memory.specs.Read.{sound_in};

use crate::apart::are_apart;
use crate::shipment::are_sound;
use memory::{MOST_SHIPMENTS, Memory};

// Is the memory a sound book?
#[tactic(auto, using(text::proofs::Branches::branches, crate::proofs::WalkIsSound::as_walked), unfolding(memory::specs::Read::sound_in))]
pub fn is_sound(memory: &[u8]) -> bool
    ensures { result ≡ sound_in memory.now }
{
    let Some(memory) = Memory::of(memory) else {
        return false;
    };
    let n = memory.shipments();
    n <= MOST_SHIPMENTS && (are_sound(&memory, n) && are_apart(&memory, n))
}
