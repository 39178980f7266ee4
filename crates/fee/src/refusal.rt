// Why a fee's terms are refused, from document 02.
ghost use Rattle.std.specs.Prelude.{◌≡◌};
ghost use Rattle.fee.specs.Refusal.{number_of};

// The question that is answered no, with its number.
#[derive(Clone, Copy, PartialEq, Eq, Debug)]
pub enum Refusal {
    // Is the flat part at most 999,999,999?
    FlatPart = 905,

    // Is the rate at most 10,000?
    Rate = 907,
}

impl From<Refusal> for u64 {
    ghost from_gives = { λ refusal number. number ≡ number_of refusal };

    // Kept: 4d: what is cast is an enum, whose number nothing else gives.
    fn from(refusal: Refusal) -> u64 {
        refusal as u64
    }
}
