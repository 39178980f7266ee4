// Why no call of a journal is made.
ghost use Rattle.std.specs.Prelude.{◌≡◌};
ghost use Rattle.audit.specs.Refusal.{number_of};

// The question that is answered no, with its number: of the journal, of the table, of the memory.
#[derive(Clone, Copy, PartialEq, Eq, Debug)]
pub enum NotReplayed {
    // Is the journal as many whole entries as it says, and nothing else?
    NotEncoded = 1,

    // Has the table a place for each answer?
    TooFewAnswers = 2,

    // Does the memory hold a book without shipments?
    NotEmpty = 3,
}

impl From<NotReplayed> for u64 {
    ghost from_gives = { λ refusal number. number ≡ number_of refusal };

    // Kept: 4d: the number of a variant is read by a cast, and no derive writes `From`.
    fn from(refusal: NotReplayed) -> u64 {
        refusal as u64
    }
}
