// The opening of an order file: the file itself, its name, and the header's fields that the name repeats.
ghost use Rattle.std.specs.Prelude.{◌≡◌, ◌&&◌};
ghost use Rattle.text.specs.Utf8.{well_formed};
ghost use Rattle.epe.specs.Questions.{first_no, verdict_of, verdict_beside, read_of};
ghost use Rattle.epe.specs.Name.{name_of};
ghost use Rattle.epe.specs.File.{marked, text, header};
ghost use Rattle.epe.specs.Opening.{file_questions, opening};
ghost use Rattle.epe.specs.Inner.Walk.{body};

use crate::header::judge_header;
use crate::name::{Name, Parts, judge_name, name_of};
use crate::refusal::{Refusal, RefusedWith, read_beside};
use text::bytes::{first, rest};
use text::lines::{line_end, without_last_end};

// The questions 001 to 023 of a file, and its name's parts, which are in form where none is answered no.
// Kept: 5b: a name and a file are two texts of an intake, as the C interface lends them.
pub fn open(name: &[u8], file: &[u8]) -> Result<Name, RefusedWith<Name>>
    ensures verdict { verdict_beside result ≡ opening name.now file.now }
    ensures parts { read_of result ≡ name_of name.now }
{
    let parts = Parts::of(name);
    let judged = judge_opening(&parts, file);
    read_beside(name_of(&parts), judged)
}

// The first of the questions 001 to 023 that is answered no.
#[tactic(auto, using(crate::proofs::Asking::join_no, crate::proofs::Asking::join_yes), unfolding(crate::specs::Opening::opening, crate::specs::Opening::opening_questions))]
fn judge_opening(name: &Parts<'_>, file: &[u8]) -> Result<(), Refusal>
    ensures { verdict_of result ≡ opening name.now.text.now file.now }
{
    judge_file(file)?;
    judge_name(name)?;
    judge_header(name, header_of(file))
}

// The file's text without the byte mark and without one CR LF at its very end.
pub fn body_of(file: &[u8]) -> &[u8]
    ensures { result.now ≡ body file.now }
{
    without_last_end(rest(file, 3))
}

// The header, which is the first line.
#[tactic(auto, using(crate::proofs::LineWalk::header_line))]
pub fn header_of(file: &[u8]) -> &[u8]
    ensures { result.now ≡ header file.now }
{
    let s = body_of(file);
    first(s, line_end(s, 0))
}

// The questions 001 and 034.
#[tactic(auto, using(crate::proofs::Asking::asking), unfolding(crate::specs::Opening::file_questions))]
fn judge_file(file: &[u8]) -> Result<(), Refusal>
    ensures { verdict_of result ≡ first_no (file_questions file.now) }
{
    if file.is_empty() {
        return Err(Refusal::FileEmpty);
    }
    if !is_marked_text(file) {
        return Err(Refusal::FileText);
    }
    Ok(())
}

// Is the byte mark there, and the rest well-formed UTF-8?
#[tactic(auto, using(text::proofs::Branches::branches))]
fn is_marked_text(file: &[u8]) -> bool
    ensures { result ≡ (marked file.now && well_formed (text file.now)) }
{
    is_marked(file) && text::utf8::is_well_formed(rest(file, 3))
}

// Is the byte mark there?
#[tactic(auto, unfolding(crate::specs::File::marked))]
fn is_marked(file: &[u8]) -> bool
    ensures { result ≡ marked file.now }
{
    first(file, 3) == [0xEF, 0xBB, 0xBF].as_slice()
}
