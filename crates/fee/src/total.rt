// Which amount makes a total: the other way round than a fee. Here alone K and O are added, to grosze of neither money.
ghost use Rattle.std.specs.Prelude.{◌≡◌, ◌&&◌, ◌+◌, ◌≤◌, ◌<◌, ◌^◌, leb, ltb};
ghost use Rattle.money.specs.Money.{WithinOrder};
ghost use Rattle.fee.specs.Fee.{TermsFit};
ghost use Rattle.fee.specs.Total.{makes, candidate, found_for, amount_for};

use crate::refusal::Refusal;
use crate::{Rate, Terms, charge_on};
use money::{Amount, Fee, Grosze};

// An order's amount and its fee are each below 2^31: from here on no total is made of them, and up to here the products below fit.
const OUT_OF_REACH: u64 = 1 << 32;

// The amount that with its fee, of a flat part and a rate, makes a total.
#[tactic(auto, using(text::proofs::Branches::branches), unfolding(crate::specs::Total::amount_for))]
pub fn amount_for(flat: u64, rate: u64, total: u64) -> Result<Option<Amount>, Refusal>
    ensures { result ≡ amount_for flat rate total }
{
    if !Rate::is_rate(rate) {
        return Err(Refusal::Rate);
    }
    if !Fee::is_order(flat) {
        return Err(Refusal::FlatPart);
    }
    let flat = Fee::order(flat);
    let rate = Rate(rate);
    Ok(find(Terms { flat, rate }, total))
}

// The amount that makes a total on some terms, if there is one. Only one could: the total without the flat part, times 10,000, over 10,000 and the rate,
// rounded up.
// Kept: 5a: terms are also what the C interface lends, in a profile or in memory, before it is judged: any numbers, so that their type can't have the caps.
#[tactic(auto, using(text::proofs::Branches::branches, crate::proofs::Totals::out_of_reach, crate::proofs::Totals::makes_within), unfolding(crate::specs::Total::found_for))]
fn find(terms: Terms, total: u64) -> Option<Amount>
    requires { TermsFit terms }
    ensures { result ≡ found_for terms total }
{
    if !(terms.flat.0..OUT_OF_REACH).contains(&total) {
        return None;
    }
    let whole = Rate::CAP + terms.rate.0;
    let grosze = (Rate::CAP * (total - terms.flat.0) + (whole - 1)) / whole;
    if !does_make(terms, total, grosze) {
        return None;
    }
    Some(Amount::order(grosze))
}

// Does an amount make a total, with a fee that an order can hold?
// Kept: 5a: terms are also what the C interface lends, in a profile or in memory, before it is judged: any numbers, so that their type can't have the caps.
#[tactic(auto, using(text::proofs::Branches::branches), unfolding(crate::specs::Total::makes, crate::specs::Fee::charged_by))]
fn does_make(terms: Terms, total: u64, grosze: u64) -> bool
    requires { TermsFit terms }
    ensures { result ≡ makes terms total grosze }
{
    if !Amount::is_order(grosze) {
        return false;
    }
    let amount = Amount::order(grosze);
    charge_on(terms, amount).is_some_and(|charge| total_of(amount, charge.fee) == total)
}

// An order's amount and its fee together, in grosze of neither money. Nothing else adds the two.
fn total_of(amount: Amount, fee: Fee) -> u64
    requires { WithinOrder amount.0 × WithinOrder fee.0 }
    ensures { result ≡ amount.0 + fee.0 }
{
    amount.0 + fee.0
}
