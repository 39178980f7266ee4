// Why a book is not stored or loaded, from document 02.
ghost use Rattle.std.specs.Prelude.{◌≡◌};
ghost use Rattle.store.specs.Refusal.{number_of};

// The question that is answered no, with its number.
// Kept: 2b: as many questions as another call has, and none of them the same.
#[derive(Clone, Copy, PartialEq, Eq, Debug)]
pub enum Refusal {
    // Book sound?
    Unsound = 10,

    // Are the bytes a stored sound book?
    NotStored = 32,

    // Is what is lent long enough: to storing an output, to loading the book's memory?
    TooShort = 30,
}

impl From<Refusal> for u64 {
    ghost from_gives = { λ refusal number. number ≡ number_of refusal };

    // Kept: 4d: the number of a variant is read by a cast, and no derive writes `From`.
    fn from(refusal: Refusal) -> u64 {
        refusal as u64
    }
}
