// The four sums of one money, in grosze: both moneys are divided, added and held against their cap alike.
ghost use Rattle.std.specs.Prelude.{◌≡◌};
ghost use Rattle.sheet.specs.Inner.Parts.{divided, amounts_from, fees_from, amounts_in, fees_in};
ghost use Rattle.sheet.specs.Inner.Filling.{plus_division, division_within, DivisionWithin};

use crate::{Amounts, Fees};
use money::{Amount, Fee, Grosze};

// What was accepted of a money is divided: what is held, what is free, and the rest has left.
// Kept: 6d: four sums, each under its name, in grosze of either money.
// Kept: 2b: the C interface has Amounts and Fees, two structs of two types of money that are not added to each other.
#[derive(Clone, Copy)]
pub struct Division {
    pub accepted: u64,
    pub held: u64,
    pub free: u64,
    pub left: u64,
}

impl Division {
    // Divides what was accepted, by what was returned of it, is needed and is held.
    pub fn of(accepted: u64, returned: u64, need: u64, held: u64) -> Division
        ensures { result ≡ divided accepted returned need held }
    {
        let free = accepted.saturating_sub(need).saturating_sub(returned);
        let left = accepted.saturating_sub(held).saturating_sub(free);
        Division {
            accepted,
            held,
            free,
            left,
        }
    }

    // Another is added, each sum to its own.
    pub fn plus(self, other: Division) -> Division
        requires { DivisionWithin self × DivisionWithin other }
        ensures { result ≡ plus_division self other }
    {
        Division {
            accepted: self.accepted + other.accepted,
            held: self.held + other.held,
            free: self.free + other.free,
            left: self.left + other.left,
        }
    }

    // Is each within the cap of a total?
    #[tactic(auto, using(text::proofs::Branches::branches))]
    pub fn is_within(self) -> bool
        ensures { result ≡ division_within self }
    {
        Amount::is_total(self.accepted)
            && (Amount::is_total(self.held)
                && (Amount::is_total(self.free) && Amount::is_total(self.left)))
    }
}

impl Amounts {
    // The sums as amounts.
    pub fn of(sums: Division) -> Amounts
        requires { DivisionWithin sums }
        ensures { result ≡ amounts_from sums }
    {
        Amounts {
            accepted: Amount::total(sums.accepted),
            held: Amount::total(sums.held),
            free: Amount::total(sums.free),
            left: Amount::total(sums.left),
        }
    }

    // Its sums.
    pub fn sums(self) -> Division
        ensures { result ≡ amounts_in self }
    {
        Division {
            accepted: self.accepted.0,
            held: self.held.0,
            free: self.free.0,
            left: self.left.0,
        }
    }
}

impl Fees {
    // The sums as fees.
    // Kept: 2a: the C interface has two structs, and these two functions are where each meets the four sums.
    pub fn of(sums: Division) -> Fees
        requires { DivisionWithin sums }
        ensures { result ≡ fees_from sums }
    {
        Fees {
            accepted: Fee::total(sums.accepted),
            held: Fee::total(sums.held),
            free: Fee::total(sums.free),
            left: Fee::total(sums.left),
        }
    }

    // Its sums.
    // Kept: 2a: the C interface has two structs, and these two functions are where each gives its four sums.
    pub fn sums(self) -> Division
        ensures { result ≡ fees_in self }
    {
        Division {
            accepted: self.accepted.0,
            held: self.held.0,
            free: self.free.0,
            left: self.left.0,
        }
    }
}
