// UTF-8 as RFC 3629 has it. Octets are judged and code points built by masks and shifts, ranges are judged on the code point that was built.
ghost use Rattle.std.specs.Prelude.{◌≡◌, true, ◌+◌, ◌*◌, ◌%◌, ◌<◌, eqb, length, slice_index, EachIndex, MatchOption};
ghost use Rattle.text.specs.Utf8.{ascii, tail_octet, lead2, lead3, lead4, point2, point3, point4, surrogate, range2, range3, range4};
ghost use Rattle.text.specs.Utf8.{row2, row3, row4, width_at, well_formed, code_points};
ghost use Rattle.text.specs.Inner.Utf8Steps.{Past, IsWidth};

// How many octets are taken at once where all are ASCII. Few, since a Polish record has a character that is not in every two dozen octets or so.
const BLOCK: usize = 16;

// Is the text well formed?
pub fn is_well_formed(s: &[u8]) -> bool
    ensures { result ≡ well_formed s.now }
{
    let mut left = s;
    // Kept: 3b: how far a turn goes depends on what it finds there, and no iterator of the library cuts a text so.
    while let Some(behind) = behind_block(left) {
        left = behind;
    }
    left.is_empty()
}

// How many code points the text has: the octets that are no tail.
pub fn count_code_points(s: &[u8]) -> usize
    ensures { result ≡ code_points s.now }
{
    s.iter().filter(|b| !is_tail(**b)).count()
}

// What stands behind a block of ASCII or behind the first character that is not; none of an empty text, or where that one is not well formed.
fn behind_block(s: &[u8]) -> Option<&[u8]>
    ensures { MatchOption result (well_formed s.now ≡ eqb (length s.now) 0) (λ t. Past s.now t.now) }
{
    let Some((block, behind)) = s.split_first_chunk::<BLOCK>() else {
        return behind_character(s);
    };
    if all_ascii(block) {
        return Some(behind);
    }
    behind_character(s)
}

// Are all octets ASCII? Their bits are joined and tested once, so that the loop has no exit but its end.
#[tactic(auto, using(crate::proofs::Utf8Laws::joined_ascii), unfolding(crate::specs::Utf8::ascii))]
fn all_ascii(s: &[u8]) -> bool
    ensures { result ≡ true → EachIndex s.now (λ k. ascii (slice_index s.now k) ≡ true) }
{
    let mut bits = 0;
    for b in s {
        bits |= *b;
    }
    is_ascii(bits)
}

// What stands behind the first character that is not ASCII, nothing where there is none; none of an empty text, or where that one is not well formed.
#[tactic(auto, using(crate::proofs::Utf8Places::past_all, crate::proofs::Utf8Places::past_none, crate::proofs::Utf8Places::none_past))]
fn behind_character(s: &[u8]) -> Option<&[u8]>
    ensures { MatchOption result (well_formed s.now ≡ eqb (length s.now) 0) (λ t. Past s.now t.now) }
{
    let Some(i) = s.iter().position(|b| !is_ascii(*b)) else {
        return if s.is_empty() { None } else { Some(&[]) };
    };
    let from = &s[i..];
    Some(&from[first_width(from)?..])
}

// Is the octet 10xxxxxx?
#[tactic(auto, unfolding(crate::specs::Utf8::tail_octet))]
fn is_tail(b: u8) -> bool
    ensures { result ≡ tail_octet b }
{
    b & 0xC0 == 0x80
}

// Is the octet 0xxxxxxx?
// Kept: 2c: an octet that stands alone and one that is a tail have each its own bits, as their definitions have.
#[tactic(auto, unfolding(crate::specs::Utf8::ascii))]
fn is_ascii(b: u8) -> bool
    ensures { result ≡ ascii b }
{
    b & 0x80 == 0
}

// How many octets the character takes that starts the text, if one does.
#[tactic(auto, using(crate::proofs::Utf8Places::width_one, crate::proofs::Utf8Places::width_two, crate::proofs::Utf8Places::width_three, crate::proofs::Utf8Places::width_four, crate::proofs::Utf8Places::width_none))]
fn first_width(s: &[u8]) -> Option<usize>
    ensures { MatchOption result (0 < length s.now → width_at s.now 0 ≡ 0) (λ w. IsWidth s.now w) }
{
    match s {
        [a, ..] if is_ascii(*a) => Some(1),
        [a, b, ..] if is_row2(*a, *b) => Some(2),
        [a, b, c, ..] if is_row3(*a, *b, *c) => Some(3),
        [a, b, c, d, ..] if is_row4(*a, *b, *c, *d) => Some(4),
        _ => None,
    }
}

// Are the two octets a character?
// Kept: 5b: a row of RFC 3629's table to a function, as its definition has it.
#[tactic(auto, unfolding(crate::specs::Utf8::row2, crate::specs::Utf8::lead2, crate::specs::Utf8::point2, crate::specs::Utf8::range2))]
fn is_row2(a: u8, b: u8) -> bool
    ensures { result ≡ row2 a b }
{
    a & 0xE0 == 0xC0 && is_tail(b) && (0x80..=0x7FF).contains(&with_tail(u32::from(a & 0x1F), b))
}

// Are the three octets a character?
// Kept: 2c, 5b: a row of RFC 3629's table to a function, as its definition has it: the bits of its first octet, its tails, and the range of its code point.
#[tactic(auto, unfolding(crate::specs::Utf8::row3, crate::specs::Utf8::lead3, crate::specs::Utf8::point3))]
fn is_row3(a: u8, b: u8, c: u8) -> bool
    ensures { result ≡ row3 a b c }
{
    a & 0xF0 == 0xE0
        && is_tail(b)
        && is_tail(c)
        && in_range3(with_tail(with_tail(u32::from(a & 0x0F), b), c))
}

// Are the four octets a character?
// Kept: 2c, 5b: a row of RFC 3629's table to a function, as its definition has it: the bits of its first octet, its tails, and the range of its code point.
#[tactic(auto, unfolding(crate::specs::Utf8::row4, crate::specs::Utf8::lead4, crate::specs::Utf8::point4, crate::specs::Utf8::range4))]
fn is_row4(a: u8, b: u8, c: u8, d: u8) -> bool
    ensures { result ≡ row4 a b c d }
{
    a & 0xF8 == 0xF0
        && is_tail(b)
        && is_tail(c)
        && is_tail(d)
        && (0x10000..=0x10FFFF).contains(&with_tail(
            with_tail(with_tail(u32::from(a & 0x07), b), c),
            d,
        ))
}

// Is the code point one that three octets write, and no surrogate?
#[tactic(auto, unfolding(crate::specs::Utf8::range3, crate::specs::Utf8::surrogate))]
fn in_range3(p: u32) -> bool
    ensures { result ≡ range3 p }
{
    (0x800..=0xFFFF).contains(&p) && !(0xD800..=0xDFFF).contains(&p)
}

// The bits read so far, with the six bits of one more octet behind them.
fn with_tail(bits: u32, b: u8) -> u32
    requires { bits < 0x400_0000 }
    ensures { result ≡ bits * 64 + b % 64 }
{
    bits << 6 | u32::from(b & 0x3F)
}
