// What the calls answer, in document 01's forms. Two moneys are never in one number.
ghost use Rattle.std.specs.Prelude.{◌≡◌};
ghost use Rattle.acts.specs.Refusal.{number_of};
ghost use Rattle.acts.specs.declared.answer.Pairing.TheVariants.{Refused};

use crate::refusal::Refusal;
use money::{Amount, Fee, Sum};

// Paired, or what is missing of either money.
// Kept: 1a: "Pairing answers Paired, or Short with the two missing amounts, or a refusal": document 01 names this form.
#[derive(Clone, Copy, PartialEq, Eq, Debug)]
pub enum Pairing {
    Paired,
    Short(Amount, Fee),
    Refused(u64),
}

impl From<Refusal> for Pairing {
    ghost from_gives = { λ refusal pairing. pairing ≡ Refused (number_of refusal) };

    fn from(refusal: Refusal) -> Pairing {
        Pairing::Refused(u64::from(refusal))
    }
}

// What goes back: a sum of one money, and from how many orders.
#[derive(Clone, Copy, PartialEq, Eq, Debug)]
pub struct Returned {
    pub sum: Sum,
    pub count: u64,
}
