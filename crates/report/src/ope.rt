// OPE, the report on the faulty orders of a shipment.
ghost use Rattle.std.specs.Prelude.{◌≡◌, ◌&&◌, [], ◌+◌, ◌≤◌, ◌<◌, ◌^◌, length, IfSome};
ghost use Rattle.std.proofs.Math.Option.{some};
ghost use Rattle.text.specs.Bytes.{between};
ghost use Rattle.epe.specs.Ident.{identifier, ident_of};
ghost use Rattle.epe.specs.Numbered.{numbered};
ghost use Rattle.model.specs.Shipment.{most_rows};
ghost use Rattle.memory.specs.Read.{read_book};
ghost use Rattle.write.specs.Spelled.{places_of};
ghost use Rattle.write.specs.Writer.{HasRoom, Writes};
ghost use Rattle.report.specs.Refusal.{number_of};
ghost use Rattle.report.specs.Lines.{is_moment};
ghost use Rattle.report.specs.Ope.{before_faulty, faulty_from, code_for, ope_on, ope_of, ope_written};
ghost use Rattle.report.specs.Inner.Faults.{record_in, records_in, ope_text};
ghost use Rattle.report.specs.Inner.Faults.{found_fault, found_order, found_in};

use crate::lines::{Header, OPENING, is_moment, put_opening, put_record};
use crate::refusal::Refusal;
use acts::place::place_called;
use epe::ident::{ident_of, is_identifier};
use memory::rows::Rows;
use memory::shipment::LentShipment;
use model::State;
use text::bytes::first;
use write::{Writer, places_of};

// What stands before the report's own identifier.
const OPE_START: [u8; 16] = *b"\xEF\xBB\xBF1|PP|OPE|1.0|";

// The lent codes of the ten faults.
#[derive(Clone, Copy, Drop)]
pub struct Codes<'a> {
    table: &'a [u64],
}

impl Codes<'_> {
    // The code of a fault, 0 where the table has none: faults are counted from 1.
    // Kept: 1d, 1f: the C interface lends the codes as numbers, of which 0 is none that a report takes.
    fn of_fault(&self, fault: u64) -> u64
        ensures { result ≡ code_for self.now.table.now fault }
    {
        let entry = fault.saturating_sub(1) as usize;
        self.table.get(entry).copied().unwrap_or(0)
    }

    // Has a fault a code that a report takes?
    // Kept: 1d: an order's state has its fault as a number.
    fn has(&self, fault: u64) -> bool
        ensures { result ≡ between 308 336 (code_for self.now.table.now fault) }
    {
        (308..=336).contains(&self.of_fault(fault))
    }
}

// What faulty orders come to: how many they are, and how long their records are.
#[derive(Clone, Copy)]
pub struct Found {
    pub count: u64,
    pub length: usize,
}

// Writes the report on the faulty orders of a shipment: what the report is called, when it was created, and the codes of the ten faults.
// Kept: 6d: the C interface lends the codes as numbers.
#[tactic(auto, using(acts::proofs::PlaceInBook::sits, crate::proofs::OpeAnswers::on_places))]
pub fn write_ope(
    book: &[u8],
    id: &[u8],
    own: &[u8],
    created: u64,
    codes: &[u64],
    output: &mut [u8],
) -> Result<u64, Refusal>
    ensures { record { answer = numbered number_of result; output = output.new } ≡ ope_written (read_book book.now) (ident_of id.now) own.now created codes.now output.old }
{
    let codes = &Codes { table: codes };
    let place = place_called(book, ident_of(id))?;
    write_on(&LentShipment::at(book, place), own, created, codes, output)
}

// Writes the report on a shipment.
// Kept: 2c: what writers share is `written_after` and one test; before that each asks its own questions.
#[tactic(auto, using(crate::proofs::OpeAnswers::ope_source, crate::proofs::OpeAnswers::ope_there))]
fn write_on(
    shipment: &LentShipment,
    own: &[u8],
    created: u64,
    codes: &Codes<'_>,
    output: &mut [u8],
) -> Result<u64, Refusal>
    ensures { record { answer = numbered number_of result; output = output.new } ≡ ope_of own.now created codes.now.table.now output.old (some shipment.now) }
{
    let ident = shipment.ident();
    let bytes = ident.bytes;
    let source = first(&bytes, ident.len);
    let header = &Header {
        own,
        created,
        source,
    };
    write_of(header, codes, shipment.rows(), output)
}

// Writes the report on the orders of some rows.
// Kept: 2c: what writers share is `written_after` and one test; before that each asks its own questions.
#[tactic(auto, using(write::proofs::Answers::answers, crate::proofs::OpeAnswers::on_rows), unfolding(crate::specs::Ope::ope_on))]
fn write_of(
    header: &Header<'_>,
    codes: &Codes<'_>,
    rows: &Rows,
    output: &mut [u8],
) -> Result<u64, Refusal>
    requires { length header.now.source.now ≤ 17 }
    ensures { record { answer = numbered number_of result; output = output.new } ≡ ope_on header.now.own.now header.now.created codes.now.table.now output.old header.now.source.now (faulty_from 1 rows.now) }
{
    if !is_header(header) {
        return Err(Refusal::Unfit);
    }
    let found = faults_in(rows, codes).ok_or(Refusal::Unfit)?;
    let length = ope_length(header, found);
    if output.len() < length {
        return Err(Refusal::OutputTooShort);
    }
    let writer = &mut Writer::new(output);
    put_ope(writer, header, found.count, rows, codes);
    Ok(length as u64)
}

// How long the report is.
fn ope_length(header: &Header<'_>, found: Found) -> usize
    requires { (length header.now.own.now ≤ 17) × (length header.now.source.now ≤ 17) × (found.length ≤ 2 ^ 32) }
    ensures { result ≡ 37 + length header.now.own.now + length header.now.source.now + places_of found.count + found.length }
{
    OPENING + header.own.len() + header.source.len() + places_of(found.count) + found.length
}

// Puts the report.
#[tactic(auto, using(write::proofs::Pieces::pieces), unfolding(crate::specs::Inner::Faults::ope_text, crate::specs::Inner::Pieces::start_text))]
fn put_ope(output: &mut Writer, header: &Header<'_>, count: u64, rows: &Rows, codes: &Codes<'_>)
    requires { HasRoom (ope_text header.now.own.now header.now.created header.now.source.now count (records_in codes.now.table.now rows.now)) output.old }
    ensures { Writes (ope_text header.now.own.now header.now.created header.now.source.now count (records_in codes.now.table.now rows.now)) output.old output.new }
{
    put_opening(output, &OPE_START, header);
    output.put_number(count);
    put_records(output, rows, codes);
}

// Can what the report is called, and when it was created, stand in their fields?
#[tactic(auto, using(text::proofs::Branches::branches))]
fn is_header(header: &Header<'_>) -> bool
    ensures { result ≡ (identifier header.now.own.now && is_moment header.now.created) }
{
    is_identifier(header.own) && is_moment(header.created)
}

// What the faulty ones of some orders come to, if each has a code.
#[tactic(auto, using(crate::proofs::FaultWalk::finding))]
fn faults_in(rows: &Rows, codes: &Codes<'_>) -> Option<Found>
    ensures value { result ≡ found_in codes.now.table.now (record { count = 0; length = 0 }) 1 rows.now }
    ensures short { IfSome result (λ found. found.length ≤ 2 ^ 32) }
{
    let mut found = Found {
        count: 0,
        length: 0,
    };
    let mut number = 1;
    for row in rows {
        found = found_order(found, number, row.state(), codes)?;
        number += 1;
    }
    Some(found)
}

// One order more: a faulty one has a record with the next running number.
fn found_order(found: Found, number: u64, state: State, codes: &Codes<'_>) -> Option<Found>
    requires { (found.count ≤ most_rows) × (found.length ≤ 2 ^ 32) }
    ensures { result ≡ found_order codes.now.table.now found number state }
{
    let State::Faulty(fault, _, _) = state else {
        return Some(found);
    };
    found_fault(found, number, fault, codes)
}

// One faulty order more, if it has a code.
// Kept: 1d: an order's state has its fault as a number.
fn found_fault(found: Found, number: u64, fault: u64, codes: &Codes<'_>) -> Option<Found>
    requires { (found.count ≤ most_rows) × (found.length ≤ 2 ^ 32) }
    ensures { result ≡ found_fault codes.now.table.now found number fault }
{
    if !codes.has(fault) {
        return None;
    }
    let count = found.count + 1;
    let length = found.length + places_of(count) + places_of(number) + 9;
    Some(Found { count, length })
}

// Puts the records of the faulty ones of some orders, behind a header.
#[tactic(auto, using(crate::proofs::OrderPut::recording))]
fn put_records(output: &mut Writer, rows: &Rows, codes: &Codes<'_>)
    requires { HasRoom (records_in codes.now.table.now rows.now) output.old }
    ensures { Writes (records_in codes.now.table.now rows.now) output.old output.new }
{
    let mut running = 1;
    let mut number = 1;
    for row in rows {
        running = put_order(output, running, number, row.state(), codes);
        number += 1;
    }
}

// Puts the record of an order, if it is a faulty one, and answers the next running number.
#[tactic(auto, using(crate::proofs::OrderPut::none_put, crate::proofs::OrderPut::one_record))]
fn put_order(output: &mut Writer, running: u64, number: u64, state: State, codes: &Codes<'_>) -> u64
    requires room { HasRoom (record_in codes.now.table.now running number state) output.old }
    requires few { running < 2 ^ 32 }
    ensures output_after { Writes (record_in codes.now.table.now running number state) output.old output.new }
    ensures next { result ≡ running + length (before_faulty number state []) }
{
    let State::Faulty(fault, _, _) = state else {
        return running;
    };
    put_record(output, running, number, codes.of_fault(fault));
    running + 1
}
