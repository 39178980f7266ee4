// The header's questions of the opening: those that it answers by itself, and those in which it repeats the name.
ghost use Rattle.std.specs.Prelude.{◌≡◌, not, ◌&&◌, ◌++◌, ◌≤◌, eqb, length};
ghost use Rattle.text.specs.Bytes.{same};
ghost use Rattle.text.specs.Quoted.{bytes};
ghost use Rattle.text.specs.Fields.{fields};
ghost use Rattle.text.specs.Lines.{stray};
ghost use Rattle.epe.specs.Questions.{first_no, verdict_of};
ghost use Rattle.epe.specs.Name.{name_part, name_ident};
ghost use Rattle.epe.specs.File.{field};
ghost use Rattle.epe.specs.Opening.{fixed_questions, repeated_questions};

use crate::line::Line;
use crate::name::{Parts, identifier_in};
use crate::refusal::Refusal;
use text::lines::has_stray;

// The header's questions 004 to 023.
#[tactic(auto, using(crate::proofs::Asking::join_no, crate::proofs::Asking::join_yes))]
pub fn judge_header(name: &Parts<'_>, line: &[u8]) -> Result<(), Refusal>
    ensures { verdict_of result ≡ first_no (fixed_questions line.now ++ repeated_questions name.now.text.now line.now) }
{
    let line = Line::of(line);
    judge_fixed(&line)?;
    judge_repeated(name, &line)
}

// The questions 004 to 099.
#[tactic(auto, using(crate::proofs::Asking::asking), unfolding(crate::specs::Opening::fixed_questions))]
fn judge_fixed(line: &Line<'_>) -> Result<(), Refusal>
    ensures { verdict_of result ≡ first_no (fixed_questions line.now.text.now) }
{
    if !is_header(line) {
        return Err(Refusal::HeaderShape);
    }
    if line.nth(1) != b"1".as_slice() {
        return Err(Refusal::HeaderMark);
    }
    if line.nth(2) != b"ZUS".as_slice() {
        return Err(Refusal::HeaderSender);
    }
    if line.nth(3) != b"EPE".as_slice() {
        return Err(Refusal::HeaderFileCode);
    }
    if line.nth(4) != b"1.0".as_slice() {
        return Err(Refusal::HeaderEdition);
    }
    Ok(())
}

// Has the line 12 fields, and no stray CR or LF?
#[tactic(auto, using(text::proofs::Branches::branches))]
fn is_header(line: &Line<'_>) -> bool
    ensures { result ≡ (eqb (length (fields 0x7C line.now.text.now)) 12 && not (stray line.now.text.now)) }
{
    line.has(12) && !has_stray(line.text())
}

// The questions 014 to 023.
#[tactic(auto, using(crate::proofs::Asking::asking), unfolding(crate::specs::Opening::repeated_questions))]
fn judge_repeated(name: &Parts<'_>, line: &Line<'_>) -> Result<(), Refusal>
    ensures { verdict_of result ≡ first_no (repeated_questions name.now.text.now line.now.text.now) }
{
    if line.nth(5) != identifier_in(name) {
        return Err(Refusal::HeaderIdentifier);
    }
    if !is_dated(line.nth(8), name.nth(2)) {
        return Err(Refusal::HeaderDate);
    }
    if line.nth(9) != name.nth(3) {
        return Err(Refusal::HeaderPayment);
    }
    if line.nth(10) != name.nth(4) {
        return Err(Refusal::HeaderKind);
    }
    Ok(())
}

// Is a text `20` and then the name's date?
// Kept: 4a: it is the library's `strip_prefix` and `==` already, under the name of its question.
#[tactic(auto, using(text::proofs::Branches::branches, text::proofs::Same::same_joined))]
fn is_dated(s: &[u8], date: &[u8]) -> bool
    ensures { result ≡ same s.now (bytes "20" ++ date.now) }
{
    s.strip_prefix(b"20") == Some(date)
}
