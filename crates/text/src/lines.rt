// Lines of a text at CR LF, walked from one to the next.
ghost use Rattle.std.specs.Prelude.{◌≡◌, ◌+◌, drop};
ghost use Rattle.text.specs.Lines.{without_last_end, line_stop, stray};

use crate::bytes::{byte_at, rest};
use memchr::memchr_iter;

const CR: u8 = 0x0D;

const LF: u8 = 0x0A;

// The text without one CR LF at its very end.
#[tactic(auto, using(crate::proofs::LineEnds::end_stripped))]
pub fn without_last_end(s: &[u8]) -> &[u8]
    ensures { result.now ≡ without_last_end s.now }
{
    s.strip_suffix(&[CR, LF]).unwrap_or(s)
}

// Where the line ends that starts at a place: at the next CR LF, or with the text.
pub fn line_end(s: &[u8], from: usize) -> usize
    ensures { result ≡ from + line_stop (drop from s.now) }
{
    let behind = rest(s, from);
    from + memchr_iter(CR, behind)
        .find(|i| byte_at(rest(behind, *i), 1) == LF)
        .unwrap_or(behind.len())
}

// Has a line a CR or LF of its own?
#[tactic(auto, unfolding(crate::specs::Lines::stray))]
pub fn has_stray(line: &[u8]) -> bool
    ensures { result ≡ stray line.now }
{
    line.contains(&CR) || line.contains(&LF)
}
