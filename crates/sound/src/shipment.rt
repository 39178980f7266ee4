// Whether a shipment is sound, by its head and the tally of its rows; and all shipments, one after the other.
ghost use Rattle.std.specs.Prelude.{◌≡◌, ◌≤◌, ◌<◌};
ghost use Rattle.money.specs.Money.{WithinSum, sum_of, grosze_in, money_of_sum};
ghost use Rattle.fee.specs.Fee.{terms_fit};
ghost use Rattle.model.specs.Shipment.{most_shipments, most_rows, only_if};
ghost use Rattle.sound.specs.Inner.Tally.{paired_in, rows_fit, go_ahead_fits, is_covered, money_fits, moneys_fit, judged, SmallTally};
ghost use Rattle.sound.specs.Inner.Walk.{sound_at, sound_from};

use crate::tally::{ONLY_PAIRED, OUT_OF_RANGE, Tally, has_faulty, tally_by};
use fee::{Rate, Terms};
use memory::head::Head;
use memory::{MOST_ROWS, Memory};
use money::{Fee, Grosze, Sum};

// Are n shipments sound, each by itself?
#[tactic(auto, using(text::proofs::Branches::branches, crate::proofs::HeadByHead::sound_more, crate::proofs::HeadByHead::sound_all, crate::proofs::HeadByHead::sound_room))]
pub fn are_sound(memory: &Memory, n: usize) -> bool
    requires { (n ≤ most_shipments) }
    ensures { result ≡ sound_from memory.now 0 0 n }
{
    let mut k = 0;
    // Kept: 3c, 6c: the rows of a shipment begin where those before it end, and `all` does not carry a place along.
    for i in 0..n {
        if !is_sound_at(memory, i, k) {
            return false;
        }
        k += memory.head(i).orders() as usize;
    }
    true
}

// Is the shipment of head i sound, its rows from the k-th on?
#[tactic(auto, using(text::proofs::Branches::told, fee::proofs::Charged::terms_within, crate::proofs::JudgedIsSound::flags_wrong, crate::proofs::JudgedIsSound::no_room, crate::proofs::JudgedIsSound::name_wrong, crate::proofs::JudgedIsSound::terms_wrong, crate::proofs::JudgedIsSound::not_charged, crate::proofs::JudgedIsSound::sound_as_judged))]
fn is_sound_at(memory: &Memory, i: usize, k: usize) -> bool
    requires { (i < most_shipments) × (k ≤ most_rows) }
    ensures { result ≡ sound_at memory.now i k }
{
    let head = memory.head(i);
    if !head.has_flags_in_form() {
        return false;
    }
    let n = head.orders();
    if MOST_ROWS < k + n as usize {
        return false;
    }
    if !head.has_name_in_form() {
        return false;
    }
    let terms = head.terms();
    if !do_terms_fit(terms) {
        return false;
    }
    let Some(tally) = tally_by(&memory.rows(k, n as usize), terms) else {
        return false;
    };
    judge(&head, n, tally)
}

// Are the flat part and the rate in range?
fn do_terms_fit(terms: Terms) -> bool
    ensures { result ≡ terms_fit terms }
{
    Fee::is_order(terms.flat.0) && Rate::is_rate(terms.rate.0)
}

// Is a shipment of n orders sound, but for its name and its terms?
#[tactic(auto, using(text::proofs::Branches::branches), unfolding(crate::specs::Inner::Tally::judged))]
fn judge(head: &Head, n: u64, tally: Tally) -> bool
    requires { SmallTally tally }
    ensures { result ≡ judged head.now n tally }
{
    1 <= n
        && (do_rows_fit(head, tally)
            && (does_go_ahead_fit(head, tally) && do_moneys_fit(head, tally)))
}

// May the shipment, Paired or not, have such rows?
#[tactic(auto, using(text::proofs::Branches::branches), unfolding(crate::specs::Inner::Tally::rows_fit))]
fn do_rows_fit(head: &Head, tally: Tally) -> bool
    ensures { result ≡ rows_fit head.now tally }
{
    if head.is_paired() {
        return tally.classes < OUT_OF_RANGE;
    }
    tally.classes < ONLY_PAIRED
}

// Does the go-ahead, or none, fit the faults?
#[tactic(auto, using(text::proofs::Branches::branches), unfolding(crate::specs::Inner::Tally::go_ahead_fits))]
fn does_go_ahead_fit(head: &Head, tally: Tally) -> bool
    ensures { result ≡ go_ahead_fits head.now tally }
{
    let faulty = has_faulty(tally);
    if head.has_go_ahead() {
        return faulty;
    }
    if head.is_paired() {
        return !faulty;
    }
    true
}

// Do the sums of both moneys fit?
#[tactic(auto, using(text::proofs::Branches::branches), unfolding(money::specs::Money::grosze_in, crate::specs::Inner::Tally::moneys_fit, money::specs::Money::money_of_sum))]
fn do_moneys_fit(head: &Head, tally: Tally) -> bool
    requires { SmallTally tally }
    ensures { result ≡ moneys_fit head.now tally }
{
    let amounts = tally.charges.amounts;
    let fees = tally.charges.fees;
    does_money_fit(head, Sum::Amounts(amounts)) && does_money_fit(head, Sum::Fees(fees))
}

// Do the sums of a money fit, for what is needed of it?
#[tactic(auto, using(money::proofs::Sums::grosze_is, crate::proofs::JudgedIsSound::money_wrong, crate::proofs::JudgedIsSound::money_right, crate::proofs::JudgedIsSound::sums_are, crate::proofs::JudgedIsSound::only_if_within))]
fn does_money_fit(head: &Head, need: Sum) -> bool
    requires { WithinSum (grosze_in need) }
    ensures { result ≡ money_fits head.now (money_of_sum need) (grosze_in need) }
{
    let money = need.money();
    if !head.has_sums_in_range(money) {
        return false;
    }
    is_covered(
        head.accepted(money),
        head.returned(money),
        need_once_paired(head, need),
        head.is_waiting(),
    )
}

// What is needed once the shipment is Paired, and nothing before.
#[tactic(auto, using(text::proofs::Branches::told, money::proofs::Sums::whole_sum))]
fn need_once_paired(head: &Head, need: Sum) -> Sum
    ensures { result ≡ sum_of (money_of_sum need) (only_if (paired_in head.now) (grosze_in need)) }
{
    if head.is_paired() {
        return need;
    }
    Sum::of(need.money(), 0)
}

// Is what was accepted at least what was returned and is needed, and nothing returned while Waiting?
#[tactic(auto, using(text::proofs::Branches::branches), unfolding(crate::specs::Inner::Tally::is_covered))]
fn is_covered(accepted: Sum, returned: Sum, need: Sum, waiting: bool) -> bool
    requires { WithinSum (grosze_in returned) × WithinSum (grosze_in need) }
    ensures { result ≡ is_covered (grosze_in accepted) (grosze_in returned) (grosze_in need) waiting }
{
    let back = returned.grosze();
    let needed = need.grosze();
    back + needed <= accepted.grosze() && (!waiting || back == 0)
}
