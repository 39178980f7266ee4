// Why nothing is written.
ghost use Rattle.std.specs.Prelude.{◌≡◌};
ghost use Rattle.write.specs.TooShort.{number_of};

// The lent output is too short.
#[derive(Clone, Copy, PartialEq, Eq, Debug)]
pub struct TooShort;

impl From<TooShort> for u64 {
    ghost from_gives = { λ refusal number. number ≡ number_of refusal };

    fn from(_refusal: TooShort) -> u64 {
        30
    }
}
