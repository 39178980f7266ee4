// Why a sheet is not filled, from document 01.
ghost use Rattle.std.specs.Prelude.{◌≡◌};
ghost use Rattle.sheet.specs.Refusal.{number_of};

// The question that is answered no, with its number.
// Kept: 2b: as many questions as another call has, and none of them the same.
#[derive(Clone, Copy, PartialEq, Eq, Debug)]
pub enum Refusal {
    // Book sound?
    Unsound = 10,

    // Table has a row for each shipment?
    NoRoom = 25,

    // After adding, no total above 999,999,999,999,999?
    AboveCap = 26,
}

impl From<Refusal> for u64 {
    ghost from_gives = { λ refusal number. number ≡ number_of refusal };

    // Kept: 4d: the number of a variant is read by a cast, and no derive writes `From`.
    fn from(refusal: Refusal) -> u64 {
        refusal as u64
    }
}
