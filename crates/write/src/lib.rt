// Writing into lent outputs: bytes, texts and numbers, each at its place.
#![tactic(auto)]

pub mod grosze;
pub mod too_short;

ghost use Rattle.std.specs.Prelude.{◌≡◌, [], ◌∷◌, ◌++◌, ◌≤◌, length};
ghost use Rattle.write.specs.Spelled.{digits, places_of, spelled};

// An output that is written from its start on, and where the next text goes.
#[derive(Drop)]
pub struct Writer<'a> {
    output: &'a mut [u8],
    at: usize,
}

impl<'a> Writer<'a> {
    ghost use Rattle.write.specs.Writer.{HasRoom, Writes};

    // A writer at the start of an output.
    pub fn new(output: &'a mut [u8]) -> Writer<'a>
        ensures same_output { result.output.ghost_name ≡ output.entry.ghost_name }
        ensures output_after { result.output.now ≡ output.old }
        ensures place { result.at ≡ 0 }
    {
        Writer { output, at: 0 }
    }

    // Puts a text.
    // Kept: 4b: it is `copy_from_slice`, and the place moves on.
    pub fn put_text(&mut self, text: &[u8])
        requires { HasRoom text.now self.old }
        ensures { Writes text.now self.old self.new }
    {
        let end = self.at + text.len();
        self.output[self.at..end].copy_from_slice(text);
        self.at = end;
    }

    // Puts a field and the bar behind it.
    #[tactic(auto, using(crate::proofs::Pieces::pieces))]
    pub fn put_field(&mut self, field: &[u8])
        requires { HasRoom (field.now ++ (0x7C ∷ [])) self.old }
        ensures { Writes (field.now ++ (0x7C ∷ [])) self.old self.new }
    {
        self.put_bytes(field);
        self.put_byte(b'|');
    }

    // Puts the last digits of a number, so many of them.
    #[tactic(auto, using(crate::proofs::Spelling::digits_long))]
    pub fn put_digits(&mut self, places: usize, n: u64)
        requires { HasRoom (digits places n) self.old }
        ensures { Writes (digits places n) self.old self.new }
    {
        let end = self.at + places;
        fill_digits(&mut self.output[self.at..end], n);
        self.at = end;
    }

    // Puts a number without leading zeros.
    pub fn put_number(&mut self, n: u64)
        requires { HasRoom (spelled n) self.old }
        ensures { Writes (spelled n) self.old self.new }
    {
        self.put_digits(places_of(n), n);
    }

    // Puts a number and the bar behind it.
    #[tactic(auto, using(crate::proofs::Pieces::pieces))]
    pub fn put_number_field(&mut self, n: u64)
        requires { HasRoom (spelled n ++ (0x7C ∷ [])) self.old }
        ensures { Writes (spelled n ++ (0x7C ∷ [])) self.old self.new }
    {
        self.put_number(n);
        self.put_byte(b'|');
    }

    // Puts a text of any length. That of put_text is mostly known where it is put.
    fn put_bytes(&mut self, text: &[u8])
        requires { HasRoom text.now self.old }
        ensures { Writes text.now self.old self.new }
    {
        let end = self.at + text.len();
        copy(&mut self.output[self.at..end], text);
        self.at = end;
    }

    // Puts a byte.
    fn put_byte(&mut self, byte: u8)
        requires { HasRoom (byte ∷ []) self.old }
        ensures { Writes (byte ∷ []) self.old self.new }
    {
        self.output[self.at] = byte;
        self.at += 1;
    }
}

// How many digits a number has.
#[tactic(auto, using(crate::proofs::Spelling::some_places, crate::proofs::Spelling::one_place))]
pub fn places_of(n: u64) -> usize
    ensures value { result ≡ places_of n }
    ensures at_most { result ≤ 20 }
{
    n.checked_ilog10().map_or(1, |k| k as usize + 1)
}

// Copies a text into a slice of its length.
// Kept: 4b: copy_from_slice calls memmove where a length is not known, and the archive asks no more of the C library than memcpy and memset.
fn copy(place: &mut [u8], text: &[u8])
    requires { length place.old ≡ length text.now }
    ensures { place.new ≡ text.now }
{
    for (i, byte) in text.iter().enumerate() {
        place[i] = *byte;
    }
}

// Fills a slice with the last digits of a number.
#[tactic(auto, using(crate::proofs::Pieces::digit_before), unfolding(crate::specs::Spelled::digits))]
fn fill_digits(places: &mut [u8], n: u64)
    ensures { places.new ≡ digits (length places.old) n }
{
    let mut rest = n;
    // Kept: 3c: tried, and the proof did not close: after iter_mut().rev() nothing is known of what the places hold.
    for i in (0..places.len()).rev() {
        places[i] = b'0' + (rest % 10) as u8;
        rest /= 10;
    }
}
