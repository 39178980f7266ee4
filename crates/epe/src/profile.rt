// The profile of an intake.
ghost use Rattle.std.specs.Prelude.{◌≡◌, true};
ghost use Rattle.fee.specs.Fee.{is_rate};
ghost use Rattle.epe.specs.Questions.{first_no, verdict_of};
ghost use Rattle.epe.specs.Profile.{each, as_fees, fees_fit, profile_fits, profile_questions, terms_for};

use crate::refusal::Refusal;
use calendar::date::{Date, is_real};
use fee::{Rate, Terms};
use money::{Fee, Grosze};

// How many kinds of benefit there are: 0 to 4.
// Kept: 1d: a kind is a digit of a file, and this is how many there are.
pub const KINDS: u64 = 5;

// Today, the flat parts of the fees by benefit kind 0 to 4, the number of fields in a record line, and the rates by kind.
// Kept: 6b: across the C interface it is these four fields in this order.
#[repr(C)]
#[derive(Clone, Copy, PartialEq, Eq, Debug)]
pub struct Profile {
    pub today: Date,
    pub flat: [Fee; 5],
    pub fields: u64,
    pub rates: [Rate; 5],
}

// The questions of the profile.
#[tactic(auto, using(crate::proofs::Asking::asking, crate::proofs::ProfileLaws::five), unfolding(crate::specs::Profile::profile_questions, crate::specs::Profile::rates_fit))]
pub fn judge_profile(profile: Profile) -> Result<(), Refusal>
    ensures { verdict_of result ≡ first_no (profile_questions profile) }
{
    if !profile_fits(profile) {
        return Err(Refusal::Profile);
    }
    if !rates_fit(profile.rates) {
        return Err(Refusal::Rates);
    }
    Ok(())
}

// Is the profile within its ranges, but for the rates?
#[tactic(auto, using(text::proofs::Branches::branches, crate::proofs::ProfileLaws::five), unfolding(crate::specs::Profile::profile_fits))]
fn profile_fits(profile: Profile) -> bool
    ensures { result ≡ profile_fits profile }
{
    is_real(profile.today) && (fees_fit(profile.flat) && (19..=32).contains(&profile.fields))
}

// Is each of five rates within its cap?
fn rates_fit(rates: [Rate; 5]) -> bool
    ensures { result ≡ each (λ rate. is_rate rate.0) rates }
{
    rates.iter().all(|rate| Rate::is_rate(rate.0))
}

// What the profile sets for a kind; nothing for what is no kind.
// Kept: 1d, 1f: a kind is a digit of a file, and what is none has no flat part and no rate, as its definition has it.
#[tactic(auto, using(text::proofs::Branches::branches), unfolding(crate::specs::Profile::terms_for))]
pub fn terms_of(profile: Profile, kind: u64) -> Terms
    ensures { result ≡ terms_for profile kind }
{
    let kind = kind as usize;
    Terms {
        flat: profile.flat.get(kind).copied().unwrap_or(Fee::order(0)),
        rate: profile.rates.get(kind).copied().unwrap_or(Rate(0)),
    }
}

// Are five numbers fees?
// Kept: 2c, 6d: a journal, which the C interface lends, has five fees as plain numbers, and they are asked as fees are.
pub fn are_fees(numbers: [u64; 5]) -> bool
    ensures { result ≡ fees_fit (as_fees numbers) }
{
    numbers.iter().all(|grosze| Fee::is_order(*grosze))
}

// Five numbers as fees.
// Kept: 6d: a journal, which the C interface lends, has five fees as plain numbers.
#[tactic(auto, using(crate::proofs::ProfileLaws::fees_in_turn))]
pub fn fees_of(numbers: [u64; 5]) -> [Fee; 5]
    requires { fees_fit (as_fees numbers) ≡ true }
    ensures { result ≡ as_fees numbers }
{
    numbers.map(Fee::order)
}

// Is each of five fees within its cap?
// Kept: 2a, 2c: fees and rates are each asked their own test by the library's `all`, which one function of both would be lent as a closure.
fn fees_fit(fees: [Fee; 5]) -> bool
    ensures { result ≡ fees_fit fees }
{
    fees.iter().all(|fee| Fee::is_order(fee.0))
}
