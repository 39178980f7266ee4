// RKF, the report on an order file.
ghost use Rattle.std.specs.Prelude.{◌≡◌, ◌||◌, ◌≤◌, eqb, length};
ghost use Rattle.text.specs.Bytes.{between};
ghost use Rattle.write.specs.Writer.{HasRoom, Writes};
ghost use Rattle.epe.specs.Numbered.{numbered};
ghost use Rattle.report.specs.Refusal.{number_of};
ghost use Rattle.report.specs.Rkf.{rkf, fits_rkf, rkf_written};

use crate::lines::{Header, OPENING, is_moment, put_opening, put_record};
use crate::refusal::Refusal;
use epe::ident::is_identifier;
use write::Writer;

// What stands before the report's own identifier.
const RKF_START: [u8; 16] = *b"\xEF\xBB\xBF1|PP|RKF|1.0|";

// Writes the report on an order file: what the report is called, when it was created, the identifier of the file that it reports on, and the number with
// which that was refused, 0 where it was accepted.
// Kept: 1d, 1f: the C interface has a refusal as a number, and 0 for none.
// Kept: 2c: what writers share is `written_after` and one test; before that each asks its own questions.
#[tactic(auto, using(write::proofs::Answers::answers, crate::proofs::Texts::rkf_identifiers), unfolding(crate::specs::Rkf::rkf_written))]
pub fn write_rkf(
    own: &[u8],
    created: u64,
    source: &[u8],
    refusal: u64,
    output: &mut [u8],
) -> Result<u64, Refusal>
    ensures { record { answer = numbered number_of result; output = output.new } ≡ rkf_written own.now created source.now refusal output.old }
{
    let header = &Header {
        own,
        created,
        source,
    };
    if !fits_rkf(header, refusal) {
        return Err(Refusal::Unfit);
    }
    let length = rkf_length(header, refusal);
    if output.len() < length {
        return Err(Refusal::OutputTooShort);
    }
    put_rkf(&mut Writer::new(output), header, refusal);
    Ok(length as u64)
}

// Can each value stand in its field?
// Kept: 1d: the refusal is a number as `write_rkf` has it.
#[tactic(auto, using(text::proofs::Branches::branches), unfolding(crate::specs::Rkf::fits_rkf))]
fn fits_rkf(header: &Header<'_>, refusal: u64) -> bool
    ensures { result ≡ fits_rkf header.now.own.now header.now.created header.now.source.now refusal }
{
    is_identifier(header.own)
        && (is_identifier(header.source) && (is_moment(header.created) && is_code(refusal)))
}

// Is it no refusal, or one that has a code in the report?
// Kept: 1d: the refusal is a number as `write_rkf` has it.
#[tactic(auto, using(text::proofs::Branches::branches))]
fn is_code(refusal: u64) -> bool
    ensures { result ≡ (eqb refusal 0 || between 100 307 refusal) }
{
    refusal == 0 || (100..=307).contains(&refusal)
}

// How long the report is.
// Kept: 1d: the refusal is a number as `write_rkf` has it.
#[tactic(auto, using(crate::proofs::Texts::accepted_long, crate::proofs::Texts::refused_long))]
fn rkf_length(header: &Header<'_>, refusal: u64) -> usize
    requires { (length header.now.own.now ≤ 17) × (length header.now.source.now ≤ 17) }
    ensures { result ≡ length (rkf header.now.own.now header.now.created header.now.source.now refusal) }
{
    let first_line = OPENING + header.own.len() + header.source.len() + 1;
    if refusal == 0 {
        first_line
    } else {
        first_line + 11
    }
}

// Puts the report.
// Kept: 1d: the refusal is a number as `write_rkf` has it.
fn put_rkf(output: &mut Writer, header: &Header<'_>, refusal: u64)
    requires { HasRoom (rkf header.now.own.now header.now.created header.now.source.now refusal) output.old }
    ensures { Writes (rkf header.now.own.now header.now.created header.now.source.now refusal) output.old output.new }
{
    put_opening(output, &RKF_START, header);
    if refusal == 0 {
        output.put_text(b"1");
        return;
    }
    output.put_text(b"0");
    put_record(output, 1, 0, refusal);
}
