// A book as bytes that travel, and back.
#![tactic(auto)]

pub mod load;
pub mod refusal;

ghost use Rattle.std.specs.Prelude.{◌≡◌, true, ◌++◌, ◌+◌, ◌*◌, ◌≤◌, ◌<◌};
ghost use Rattle.epe.specs.Numbered.{numbered};
ghost use Rattle.model.specs.Shipment.{most_shipments, most_rows};
ghost use Rattle.model.specs.Book.{rows_in};
ghost use Rattle.memory.specs.Layout.{head_size, row_size, head_bytes};
ghost use Rattle.memory.specs.Read.{orders_at, shipments_from, shipments_in, sound_in, read_book};
ghost use Rattle.memory.specs.Inner.Enter.{bytes_of};
ghost use Rattle.write.specs.Writer.{HasRoom, Writes};
ghost use Rattle.store.specs.Refusal.{number_of};
ghost use Rattle.store.specs.Stored.{stored_into};
ghost use Rattle.store.specs.Inner.Raw.{raw_orders, raw_bodies, raw_length, raw_contents, raw_stored};

use crate::refusal::Refusal;
use acts::rows::rows_of;
use memory::{HEAD_SIZE, MOST_ROWS, MOST_SHIPMENTS, Memory, ROW_SIZE};
use sound::is_sound;
use write::Writer;

// The form that is stored, and the only one that is loaded.
const FORM: u8 = 2;

// The bytes of an entry of the contents table. A head and an order take as many as in memory.
const ENTRY: usize = 8;

// The most bytes that a stored book takes.
pub const MOST_STORED: usize = 2 + (ENTRY + HEAD_SIZE) * MOST_SHIPMENTS + ROW_SIZE * MOST_ROWS;

// Stores the book in lent memory in an output.
// Kept: 2c: what writers share is `written_after` and one test; before that each asks its own questions.
#[tactic(auto, using(crate::proofs::StoreAnswers::storing))]
pub fn store(book: &[u8], output: &mut [u8]) -> Result<u64, Refusal>
    ensures { record { answer = numbered number_of result; output = output.new } ≡ stored_into (read_book book.now) output.old }
{
    if !is_sound(book) {
        return Err(Refusal::Unsound);
    }
    let memory = Memory::lent(book);
    let n = memory.shipments();
    let length = stored_length(&memory, n);
    if output.len() < length {
        return Err(Refusal::TooShort);
    }
    put_book(&mut Writer::new(output), &memory, n);
    Ok(length as u64)
}

// How many bytes n shipments take when they are stored.
fn stored_length(memory: &Memory, n: usize) -> usize
    requires { n ≤ most_shipments }
    ensures { result ≡ 2 + (8 + head_size) * n + row_size * rows_in (shipments_from memory.now 0 0 n) }
{
    2 + (ENTRY + HEAD_SIZE) * n + ROW_SIZE * rows_of(memory, n)
}

// Puts the bytes of a sound book of n shipments.
#[tactic(auto, using(write::proofs::Pieces::pieces, crate::proofs::Storing::whole_book))]
fn put_book(output: &mut Writer, memory: &Memory, n: usize)
    requires { (sound_in memory.now ≡ true) × (n ≡ shipments_in memory.now) × HasRoom (raw_stored memory.now) output.old }
    ensures { Writes (raw_stored memory.now) output.old output.new }
{
    output.put_text(&[FORM, n as u8]);
    put_contents(output, memory, n);
    put_bodies(output, memory, n);
}

// Puts the contents table of n shipments.
#[tactic(auto, using(crate::proofs::Storing::contents))]
fn put_contents(output: &mut Writer, memory: &Memory, n: usize)
    requires { (n ≤ most_shipments) × HasRoom (raw_contents memory.now 0 (2 + 8 * n) n) output.old }
    ensures { Writes (raw_contents memory.now 0 (2 + 8 * n) n) output.old output.new }
{
    let mut start = (2 + ENTRY * n) as u32;
    for i in 0..n {
        let length = body_length(memory, i);
        put_entry(output, start, length);
        start += length;
    }
}

// How long the body of shipment i is.
fn body_length(memory: &Memory, i: usize) -> u32
    requires { i < most_shipments }
    ensures { (result ≡ raw_length memory.now i) × (result < 800_000) }
{
    let n = memory.head(i).orders();
    HEAD_SIZE as u32 + ROW_SIZE as u32 * n as u32
}

// Puts an entry of the contents table: two numbers of four bytes, least byte first.
#[tactic(auto, using(write::proofs::Pieces::pieces, crate::proofs::Storing::four_bytes))]
fn put_entry(output: &mut Writer, start: u32, long: u32)
    requires { HasRoom (bytes_of 4 start ++ bytes_of 4 long) output.old }
    ensures { Writes (bytes_of 4 start ++ bytes_of 4 long) output.old output.new }
{
    output.put_text(&start.to_le_bytes());
    output.put_text(&long.to_le_bytes());
}

// Puts the bodies of n shipments.
#[tactic(auto, using(crate::proofs::Storing::bodies))]
fn put_bodies(output: &mut Writer, memory: &Memory, n: usize)
    requires { (n ≤ most_shipments) × (rows_in (shipments_from memory.now 0 0 n) ≤ most_rows) × HasRoom (raw_bodies memory.now 0 0 n) output.old }
    ensures { Writes (raw_bodies memory.now 0 0 n) output.old output.new }
{
    let mut k = 0;
    for i in 0..n {
        k = put_body(output, memory, i, k);
    }
}

// Puts the body of shipment i, its rows from the k-th on, and answers the first row behind them.
#[tactic(auto, using(write::proofs::Pieces::pieces))]
fn put_body(output: &mut Writer, memory: &Memory, i: usize, k: usize) -> usize
    requires { (i < most_shipments) × (k + orders_at memory.now i ≤ most_rows) × HasRoom (head_bytes memory.now i ++ raw_orders memory.now k (orders_at memory.now i)) output.old }
    ensures next { result ≡ k + orders_at memory.now i }
    ensures output_after { Writes (head_bytes memory.now i ++ raw_orders memory.now k (orders_at memory.now i)) output.old output.new }
{
    let head = memory.head(i);
    let n = head.orders() as usize;
    output.put_text(head.bytes());
    put_orders(output, memory, k, n);
    k + n
}

// Puts n orders from row k on.
#[tactic(auto, using(crate::proofs::Storing::orders))]
fn put_orders(output: &mut Writer, memory: &Memory, k: usize, n: usize)
    requires { (k + n ≤ most_rows) × HasRoom (raw_orders memory.now k n) output.old }
    ensures { Writes (raw_orders memory.now k n) output.old output.new }
{
    for row in k..k + n {
        output.put_text(&memory.row_bytes(row));
    }
}
