// The fault of a record whose extra field was judged before: the bytes before and after the field, and never the field itself.
ghost use Rattle.std.specs.Prelude.{◌≡◌};
ghost use Rattle.contents.specs.Around.{around_of, are_ended, are_begun, clean, around, fault_around};

use crate::extra::ExtraSaid;
use crate::faults::{Fault, Record};
use epe::line::Line;
use epe::refusal::Refusal;
use text::lines::has_stray;
use text::utf8::is_well_formed;

// How many fields stand before the extra field.
const BEFORE: usize = 11;

// The fewest and the most that stand after it.
const FEWEST_AFTER: usize = 7;

const MOST_AFTER: usize = 20;

// The fault of the record that has such bytes before and after an extra field of which so much is said.
#[tactic(auto, using(epe::proofs::Asking::asking), unfolding(crate::specs::Around::fault_around))]
pub fn judge_around(said: ExtraSaid, before: &[u8], after: &[u8]) -> Result<Option<Fault>, Refusal>
    ensures { around_of result ≡ fault_around said before.now after.now }
{
    let before = Line::of(before);
    let after = Line::of(after);
    if !are_around(&before, &after) {
        return Err(Refusal::RecordShape);
    }
    Ok(Record::around(said, &before, &after).first_fault())
}

// Are two texts what stands before and after an extra field?
#[tactic(auto, using(text::proofs::Branches::branches), unfolding(crate::specs::Around::around))]
fn are_around(before: &Line<'_>, after: &Line<'_>) -> bool
    ensures { result ≡ around before.now.text.now after.now.text.now }
{
    are_ended(before) && (are_begun(after) && (is_clean(before.text()) && is_clean(after.text())))
}

// Is a text eleven fields, each ended by a bar?
#[tactic(auto, using(text::proofs::Branches::branches), unfolding(crate::specs::Around::are_ended))]
fn are_ended(line: &Line<'_>) -> bool
    ensures { result ≡ are_ended 11 line.now.text.now }
{
    line.has(BEFORE + 1) && line.nth(BEFORE + 1).is_empty()
}

// Is a text 7 to 20 fields, each begun by a bar?
#[tactic(auto, using(text::proofs::Branches::branches, crate::proofs::FaultLaws::bars_of), unfolding(crate::specs::Around::are_begun))]
fn are_begun(line: &Line<'_>) -> bool
    ensures { result ≡ are_begun 7 20 line.now.text.now }
{
    (FEWEST_AFTER..=MOST_AFTER).contains(&line.cuts()) && line.nth(1).is_empty()
}

// Is a text well-formed UTF-8 without CR or LF?
#[tactic(auto, using(text::proofs::Branches::branches), unfolding(crate::specs::Around::clean))]
fn is_clean(s: &[u8]) -> bool
    ensures { result ≡ clean s.now }
{
    is_well_formed(s) && !has_stray(s)
}
