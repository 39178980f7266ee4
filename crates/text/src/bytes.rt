// Bytes: letters and digits, and parts of a text.
ghost use Rattle.std.specs.Prelude.{◌≡◌, get_or, take, drop};
ghost use Rattle.text.specs.Bytes.{letters_or_digits, part};

// Are all bytes letters or digits?
// Kept: 4a: it is the library's `all` of its own tests already, under the name that its two callers ask by.
#[tactic(auto, unfolding(crate::specs::Bytes::letter_or_digit, crate::specs::Bytes::digit, crate::specs::Bytes::letter))]
pub fn are_letters_or_digits(s: &[u8]) -> bool
    ensures { result ≡ letters_or_digits s.now }
{
    s.iter()
        .all(|b| b.is_ascii_alphabetic() || b.is_ascii_digit())
}

// The byte at a place, 0 past the end.
// Kept: 1f: the definitions read a byte so (`get_or .. 0`): 0 is none of those that callers look for, and an Option would be asked twice by each.
pub fn byte_at(s: &[u8], i: usize) -> u8
    ensures { result ≡ get_or s.now i 0 }
{
    s.get(i).copied().unwrap_or(0)
}

// The bytes from a up to e, as far as there are any.
pub fn slice(s: &[u8], a: usize, e: usize) -> &[u8]
    ensures { result.now ≡ part a e s.now }
{
    let end = e.min(s.len());
    &s[a.min(end)..end]
}

// The first n bytes, or all where there are fewer.
pub fn first(s: &[u8], n: usize) -> &[u8]
    ensures { result.now ≡ take n s.now }
{
    &s[..n.min(s.len())]
}

// The bytes behind the first n.
pub fn rest(s: &[u8], n: usize) -> &[u8]
    ensures { result.now ≡ drop n s.now }
{
    &s[n.min(s.len())..]
}
