// The lines of a report: its header, the same in both files but for its code and its last field, and its records.
ghost use Rattle.std.specs.Prelude.{◌≡◌};
ghost use Rattle.write.specs.Writer.{HasRoom, Writes};
ghost use Rattle.report.specs.Lines.{is_moment};
ghost use Rattle.report.specs.Inner.Pieces.{moment_text, opening_text, record_text};

use calendar::date::{Date, is_real};
use calendar::time::is_clock_time;
use write::Writer;

// What a report's header says: what the report is called, when it was created, and the identifier of what it reports on.
// Kept: 6b: two fields of a header, and no columns of a table.
#[derive(Clone, Copy, Drop)]
pub struct Header<'a> {
    pub own: &'a [u8],
    pub created: u64,
    pub source: &'a [u8],
}

// How long a file is up to its header's last field, besides the two identifiers.
pub const OPENING: usize = 37;

// Is it a real date and time, as the number yyyymmddhhmmss?
#[tactic(auto, using(text::proofs::Branches::branches), unfolding(crate::specs::Lines::is_moment))]
pub fn is_moment(n: u64) -> bool
    ensures { result ≡ is_moment n }
{
    is_real(Date(n / 1_000_000)) && is_clock_time(n % 1_000_000)
}

// Puts the byte mark and the header up to its last field. `start` is what comes before the file's own identifier.
#[tactic(auto, using(write::proofs::Pieces::pieces), unfolding(crate::specs::Inner::Pieces::opening_text))]
pub fn put_opening(output: &mut Writer, start: &[u8], header: &Header<'_>)
    requires { HasRoom (opening_text start.now header.now.own.now header.now.created header.now.source.now) output.old }
    ensures { Writes (opening_text start.now header.now.own.now header.now.created header.now.source.now) output.old output.new }
{
    output.put_text(start);
    output.put_field(header.own);
    put_moment(output, header.created);
    output.put_field(header.source);
}

// Puts when a file was created and what it reports on.
#[tactic(auto, using(write::proofs::Pieces::pieces), unfolding(crate::specs::Inner::Pieces::moment_text))]
fn put_moment(output: &mut Writer, created: u64)
    requires { HasRoom (moment_text created) output.old }
    ensures { Writes (moment_text created) output.old output.new }
{
    output.put_digits(14, created);
    output.put_text(b"|EPE|");
}

// Puts a record and the CR LF before it.
// Kept: 1d: the code is a number of three digits, whichever the caller has for it.
#[tactic(auto, using(write::proofs::Pieces::pieces), unfolding(crate::specs::Inner::Pieces::record_text))]
pub fn put_record(output: &mut Writer, running: u64, order: u64, code: u64)
    requires { HasRoom (record_text running order code) output.old }
    ensures { Writes (record_text running order code) output.old output.new }
{
    output.put_text(b"\r\n2|");
    output.put_number_field(running);
    output.put_number_field(order);
    output.put_digits(3, code);
}
