// What is asked of one field's text.
ghost use Rattle.std.specs.Prelude.{◌≡◌, ◌&&◌, leb, length, take, is_some};
ghost use Rattle.text.specs.Number.{number};
ghost use Rattle.text.specs.Utf8.{code_points};
ghost use Rattle.contents.specs.Faults.{sized, postcode, spaced};

use text::bytes::{byte_at, first, rest};
use text::number::read;
use text::utf8::count_code_points;

// A space is U+0020 only.
const SPACE: u8 = b' ';

// Is a text from low to high code points long? Most are, by their bytes, and are not counted.
#[tactic(auto, using(crate::proofs::FaultLaws::sized_by_bytes), unfolding(crate::specs::Faults::sized))]
pub fn is_sized(s: &[u8], low: usize, high: usize) -> bool
    ensures { result ≡ sized low high s.now }
{
    is_sized_by_bytes(s, low, high) || (low..=high).contains(&count_code_points(s))
}

// Is the first byte's count of code points no less than low, and the number of bytes no more than high? Then so is the count of all.
fn is_sized_by_bytes(s: &[u8], low: usize, high: usize) -> bool
    ensures { result ≡ (leb low (code_points (take 1 s.now)) && leb (length s.now) high) }
{
    low <= count_code_points(first(s, 1)) && s.len() <= high
}

// Is a text dd-ddd?
#[tactic(auto, using(text::proofs::Branches::branches), unfolding(crate::specs::Faults::postcode))]
pub fn is_postcode(s: &[u8]) -> bool
    ensures { result ≡ postcode s.now }
{
    is_digits(first(s, 2), 2, 2) && (byte_at(s, 2) == b'-' && is_digits(rest(s, 3), 3, 3))
}

// Is a text so many digits?
pub fn is_digits(s: &[u8], least: usize, most: usize) -> bool
    ensures { result ≡ is_some (number least most s.now) }
{
    read(s, least, most).is_some()
}

// Does a text start or end with a space?
#[tactic(auto, unfolding(crate::specs::Faults::spaced))]
pub fn is_spaced(s: &[u8]) -> bool
    ensures { result ≡ spaced s.now }
{
    s.first() == Some(&SPACE) || s.last() == Some(&SPACE)
}
