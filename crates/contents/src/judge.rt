// The records of a file judged beside what its header states.
ghost use Rattle.std.specs.Prelude.{◌≡◌, length};
ghost use Rattle.fee.specs.Fee.{TermsFit};
ghost use Rattle.contents.specs.Contents.{judged_as};
ghost use Rattle.contents.specs.Steps.{none_kept, kept_where, records_of};
ghost use Rattle.contents.specs.Inner.Tally.{tally_judged};

use crate::stated::Stated;
use crate::tally::{Tally, after_line, tally_records};
use epe::file::body_of;
use epe::refusal::Refusal;
use text::lines::line_end;

// Of an accepted file: the number of its orders, and of the faulty ones.
#[derive(Clone, Copy, PartialEq, Eq, Debug)]
pub struct Accepted {
    pub orders: u64,
    pub faulty: u64,
}

// The questions 901, 902, 129, 132 and 906 of records of so many fields, beside what the header states. The orders are kept in a table that keeps none
// yet, as far as it goes; a refusal leaves it so.
// Kept: 6d: one number to an order, since a table of orders as they are takes all the caller's stack (`order_in`).
pub fn judge_records(
    fields: u64,
    stated: Stated,
    file: &[u8],
    kept: &mut [u64],
) -> Result<Accepted, Refusal>
    requires { (kept.old ≡ none_kept) × TermsFit stated.terms }
    ensures { record { judged = judged_as result; kept = kept.new } ≡ records_of fields stated.count stated.sum stated.terms file.now }
{
    if 32 < fields {
        return Err(Refusal::RecordShape);
    }
    let s = body_of(file);
    let tally = tally_records(s, after_line(s, line_end(s, 0)), fields, stated.terms, kept);
    let judged = judge_tally(tally, stated.count, stated.sum);
    keep_accepted(judged, kept);
    judged
}

// What a tally comes to beside what the header states; none is of lines that are not all shaped.
#[tactic(auto, using(epe::proofs::Asking::asking, text::proofs::Branches::branches), unfolding(crate::specs::Inner::Tally::tally_questions))]
fn judge_tally(tally: Option<Tally>, count: u64, sum: u64) -> Result<Accepted, Refusal>
    ensures { judged_as result ≡ tally_judged tally count sum }
{
    let tally = tally.ok_or(Refusal::RecordShape)?;
    if !tally.priced {
        return Err(Refusal::RecordAmount);
    }
    if tally.count != count {
        return Err(Refusal::RecordCount);
    }
    if tally.sum != sum {
        return Err(Refusal::RecordSum);
    }
    if !tally.charged {
        return Err(Refusal::RecordFee);
    }
    Ok(Accepted {
        orders: tally.count,
        faulty: tally.faulty,
    })
}

// Clears the table that kept the orders of a refused file.
// Kept: 6d: one number to an order, since a table of orders as they are takes all the caller's stack (`order_in`).
#[tactic(auto, using(crate::proofs::TallyJudges::left, crate::proofs::TallyJudges::cleared_whole))]
fn keep_accepted(judged: Result<Accepted, Refusal>, kept: &mut [u64])
    requires { length kept.old ≡ 2_048 }
    ensures { kept.new ≡ kept_where (judged_as judged) kept.old }
{
    if judged.is_err() {
        kept.fill(0);
    }
}
