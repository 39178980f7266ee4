// An order's fee: a flat part, and a rate in ten-thousandths of its amount; and which amount makes a total. It knows nothing of a book.
#![tactic(auto)]

pub mod refusal;
pub mod total;

ghost use Rattle.std.specs.Prelude.{◌≡◌, ◌<◌, ◌^◌};
ghost use Rattle.money.specs.Money.{WithinOrder};
ghost use Rattle.fee.specs.Fee.{is_rate, TermsFit, charged_by};
ghost use Rattle.fee.specs.Inner.Difference.{difference_in};

use money::{Amount, Fee, Grosze};

// A rate, in ten-thousandths.
#[repr(C)]
#[derive(Clone, Copy, PartialEq, Eq, Debug)]
pub struct Rate(pub u64);

// What fees are agreed on: a flat part, and a rate.
#[derive(Clone, Copy, PartialEq, Eq, Debug)]
pub struct Terms {
    pub flat: Fee,
    pub rate: Rate,
}

// What an order is charged: its fee, and beside it what the division leaves.
#[derive(Clone, Copy, PartialEq, Eq, Debug)]
pub struct Charge {
    pub fee: Fee,
    pub remainder: u64,
}

impl Rate {
    // The most that a rate is: the whole amount.
    pub const CAP: u64 = 10_000;

    // Is the number a rate?
    pub fn is_rate(n: u64) -> bool
        ensures { result ≡ is_rate n }
    {
        n <= Self::CAP
    }
}

// What an order of an amount is charged on some terms; a fee above its cap is none.
// Kept: 5a: terms are also what the C interface lends, in a profile or in memory, before it is judged: any numbers, so that their type can't have the caps.
#[tactic(auto, using(text::proofs::Branches::branches), unfolding(crate::specs::Fee::charged_by))]
pub fn charge_on(terms: Terms, amount: Amount) -> Option<Charge>
    requires { TermsFit terms × WithinOrder amount.0 }
    ensures { result ≡ charged_by terms amount.0 }
{
    let product = amount.0 * terms.rate.0;
    let grosze = terms.flat.0 + product / Rate::CAP;
    if !Fee::is_order(grosze) {
        return None;
    }
    Some(Charge {
        fee: Fee::order(grosze),
        remainder: product % Rate::CAP,
    })
}

// In which bits the two sides of an order's division differ: 10,000 times the fee with the remainder, and the amount times the rate with 10,000 times the
// flat part. Nothing is asked and nothing subtracted, so that a loop takes many orders at a time.
// Kept: 5a: terms are also what the C interface lends, in a profile or in memory, before it is judged: any numbers, so that their type can't have the caps.
#[tactic(auto, using(crate::proofs::Division::small_product), unfolding(crate::specs::Inner::Difference::difference_in))]
pub fn difference(terms: Terms, amount: u64, fee: u64, remainder: u64) -> u64
    requires { TermsFit terms × (amount < 2 ^ 32) × (fee < 2 ^ 32) × (remainder < 2 ^ 16) }
    ensures { result ≡ difference_in terms amount fee remainder }
{
    let charged = Rate::CAP * fee + remainder;
    let agreed = amount * terms.rate.0 + Rate::CAP * terms.flat.0;
    charged ^ agreed
}
