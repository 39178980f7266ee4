// What is said of an extra field, in the bits of a number: 1 empty, 2 fails, 4 spaced.
ghost use Rattle.std.specs.Prelude.{◌≡◌};
ghost use Rattle.buntingraft.specs.Exports.{bits_of, said_in};

use contents::extra::ExtraSaid;

// The bits that say so much.
// Kept: 1d, 4c: across the C interface what is said is a number.
#[tactic(auto, unfolding(crate::specs::Exports::bits_of))]
pub fn bits_of(said: ExtraSaid) -> u64
    ensures { result ≡ bits_of said }
{
    u64::from(said.empty) + (2 * u64::from(said.fails) + 4 * u64::from(said.spaced))
}

// What the bits of a number say. Those above 4 say nothing.
// Kept: 1d, 4c: across the C interface what is said is a number.
#[tactic(auto, unfolding(crate::specs::Exports::said_in))]
pub fn said_in(bits: u64) -> ExtraSaid
    ensures { result ≡ said_in bits }
{
    ExtraSaid {
        empty: bits % 2 == 1,
        fails: bits / 2 % 2 == 1,
        spaced: bits / 4 % 2 == 1,
    }
}
