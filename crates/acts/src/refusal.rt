// Why a call on the book is refused.
ghost use Rattle.std.specs.Prelude.{◌≡◌};
ghost use Rattle.acts.specs.Refusal.{number_of};

// The question that is answered no, with its number, in document 01's order.
#[derive(Clone, Copy, PartialEq, Eq, Debug)]
pub enum Refusal {
    // Is the memory long enough, and a sound book?
    Unsound = 10,

    // Title is a shipment name in the form above, then `-K` or `-O`?
    Title = 11,

    // Amount 1 to 9,999,999,999,999?
    TransferAmount = 12,

    // Name, or identifier, in the book?
    Unknown = 13,

    // Total accepted for that money still at most 9,999,999,999,999?
    TotalAccepted = 14,

    // Waiting?
    NotWaiting = 15,

    // Any faulty order?
    NoFaults = 16,

    // None came before?
    SecondGoAhead = 17,

    // No faults, or go-ahead given?
    Faults = 18,

    // Paired?
    NotPaired = 19,

    // Order number from 1 to the count?
    NoSuchOrder = 20,

    // State fits?
    State = 21,

    // Not ZPR with O?
    UndeliveredFee = 22,

    // Anything above zero to return?
    NothingToReturn = 23,

    // Not Waiting?
    StillWaiting = 24,
}

impl From<Refusal> for u64 {
    ghost from_gives = { λ refusal number. number ≡ number_of refusal };

    // Kept: 4d: the number of such an enum is had by `as` alone, and this is the one place that has it.
    fn from(refusal: Refusal) -> u64 {
        refusal as u64
    }
}
