// The extra address field by itself: what four of an order's questions ask of it.
ghost use Rattle.std.specs.Prelude.{◌≡◌, ◌||◌};
ghost use Rattle.text.specs.Bytes.{same};
ghost use Rattle.text.specs.Quoted.{bytes};
ghost use Rattle.contents.specs.Faults.{empty, extra, said_of};

use crate::field::{is_digits, is_spaced};
use text::bytes::{first, rest};

// "whether it is empty, whether it fails question 7 and whether it starts or ends with a space"
#[derive(Clone, Copy, PartialEq, Eq, Debug)]
pub struct ExtraSaid {
    pub empty: bool,
    pub fails: bool,
    pub spaced: bool,
}

// What is to be said of an extra field, whatever its bytes.
#[tactic(auto, unfolding(crate::specs::Faults::said_of))]
pub fn judge_extra(more: &[u8]) -> ExtraSaid
    ensures { result ≡ said_of more.now }
{
    ExtraSaid {
        empty: more.is_empty(),
        fails: !may_be_extra(more),
        spaced: is_spaced(more),
    }
}

// Is a text empty or an extra?
#[tactic(auto, using(text::proofs::Branches::branches))]
fn may_be_extra(s: &[u8]) -> bool
    ensures { result ≡ (empty s.now || extra s.now) }
{
    s.is_empty() || is_extra(s)
}

// Is a text `PR`, or `SP_` or `PP_` with 1 to 5 digits?
#[tactic(auto, using(text::proofs::Branches::branches), unfolding(crate::specs::Faults::extra))]
fn is_extra(s: &[u8]) -> bool
    ensures { result ≡ extra s.now }
{
    s == b"PR".as_slice() || (is_extra_mark(first(s, 3)) && is_digits(rest(s, 3), 1, 5))
}

// Is a text `SP_` or `PP_`?
fn is_extra_mark(s: &[u8]) -> bool
    ensures { result ≡ (same s.now (bytes "SP_") || same s.now (bytes "PP_")) }
{
    s == b"SP_".as_slice() || s == b"PP_".as_slice()
}
