// Shipment identifiers: which texts are one, and how one is held and compared.
ghost use Rattle.std.specs.Prelude.{◌≡◌, ◌++◌, take, replicate};
ghost use Rattle.epe.specs.Ident.{identifier, ident_of};

use text::bytes::{are_letters_or_digits, byte_at, rest};

// An identifier: 17 bytes with its length, zeros behind it.
// Kept: 6a: "An identifier is held as 17 bytes with its length", compared and passed by value, and across the C interface.
#[repr(C)]
#[derive(Clone, Copy, PartialEq, Eq, Debug)]
pub struct Ident {
    pub bytes: [u8; 17],
    pub len: usize,
}

// Is the text an identifier?
#[tactic(auto, using(text::proofs::Branches::branches), unfolding(crate::specs::Ident::identifier, text::specs::Bytes::letter))]
pub fn is_identifier(s: &[u8]) -> bool
    ensures { result ≡ identifier s.now }
{
    (3..=17).contains(&s.len())
        && byte_at(s, 0).is_ascii_alphabetic()
        && byte_at(s, 1).is_ascii_alphabetic()
        && are_letters_or_digits(rest(s, 2))
}

// The text as an identifier is held; no bytes where it is none.
// Kept: 1f: the C interface lends any bytes for an identifier, and those that are none are held as no bytes, which no shipment has.
#[tactic(auto, using(text::proofs::Branches::branches), unfolding(crate::specs::Ident::ident_of))]
pub fn ident_of(s: &[u8]) -> Ident
    ensures { result ≡ ident_of s.now }
{
    if !is_identifier(s) {
        return Ident {
            bytes: [0; 17],
            len: 0,
        };
    }
    Ident {
        bytes: padded(s),
        len: s.len(),
    }
}

// The first 17 bytes of a text, with zeros where it has fewer.
// Kept: 4b: copy_from_slice calls memcpy where a length is not known, and the archive of the replay asks no more of the C library than memset.
fn padded(s: &[u8]) -> [u8; 17]
    ensures { result ≡ take 17 (s.now ++ replicate 17 0) }
{
    let mut bytes = [0; 17];
    // Kept: 3c: of `array::from_fn` only single calls are known, and not the text that all of them read.
    for i in 0..17 {
        bytes[i] = byte_at(s, i);
    }
    bytes
}
