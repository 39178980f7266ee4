// A stored book loaded into lent memory.
ghost use Rattle.std.specs.Prelude.{◌≡◌, ◌&&◌, ◌+◌, ◌*◌, ◌≤◌, ◌<◌, length, is_some};
ghost use Rattle.epe.specs.Numbered.{numbered};
ghost use Rattle.model.specs.Shipment.{most_shipments, most_rows};
ghost use Rattle.memory.specs.Layout.{head_size, row_size, IsMemory};
ghost use Rattle.acts.specs.Inner.Place.{RowsStored};
ghost use Rattle.store.specs.Refusal.{number_of};
ghost use Rattle.store.specs.Unstored.{Loads};
ghost use Rattle.store.specs.Inner.Walk.{count_from, body_from, is_entry};
ghost use Rattle.store.specs.Inner.Unpack.{is_body, IsBody, has_contents, given_row, BodyUnpacked, BodiesUnpacked, Unpacked};

use crate::refusal::Refusal;
use crate::{ENTRY, FORM};
use memory::head::{Head, store_head};
use memory::number::read;
use memory::row::store_row;
use memory::{HEAD_SIZE, MOST_ROWS, ROW_SIZE, SIZE, store_shipments};
use sound::is_sound;
use text::bytes::byte_at;

// Loads a stored book into lent memory, whatever that held.
#[tactic(auto, using(crate::proofs::LoadAnswers::loading))]
pub fn load(book: &mut [u8], stored: &[u8]) -> Result<(), Refusal>
    ensures { Loads book.old stored.now (numbered number_of result) book.new }
{
    let mut unpacked = [0u8; SIZE];
    unpack(&mut unpacked, stored).ok_or(Refusal::NotStored)?;
    if !is_sound(&unpacked) {
        return Err(Refusal::NotStored);
    }
    if book.len() < SIZE {
        return Err(Refusal::TooShort);
    }
    book[..SIZE].copy_from_slice(&unpacked);
    Ok(())
}

// Unpacks stored bytes into memory, if they are whole.
#[tactic(auto, using(crate::proofs::LoadAnswers::by_contents))]
fn unpack(memory: &mut [u8], stored: &[u8]) -> Option<()>
    requires { IsMemory memory.old }
    ensures { Unpacked stored.now (is_some result) memory.old memory.new }
{
    if !has_contents(stored) {
        return None;
    }
    unpack_bodies(memory, stored, byte_at(stored, 1) as usize)
}

// Are the form and the number of shipments right, and is there room for the contents table?
#[tactic(auto, using(text::proofs::Branches::branches))]
fn has_contents(stored: &[u8]) -> bool
    ensures { result ≡ has_contents stored.now }
{
    let n = byte_at(stored, 1) as usize;
    2 <= stored.len() && (byte_at(stored, 0) == FORM && (n <= 32 && 2 + ENTRY * n <= stored.len()))
}

// Unpacks n bodies, if they stand as the contents table says, without gaps and up to the end.
#[tactic(auto, using(crate::proofs::Unpacking::unpacking))]
fn unpack_bodies(memory: &mut [u8], stored: &[u8], n: usize) -> Option<()>
    requires { (n ≤ most_shipments) × IsMemory memory.old × (2 + 8 * n ≤ length stored.now) }
    ensures { BodiesUnpacked stored.now n (is_some result) memory.old memory.new }
{
    let mut at = 2 + ENTRY * n;
    let mut k = 0;
    // Kept: 3c: where heads lie only memory knows: above it a head is reached by its number.
    for i in 0..n {
        let count = orders_of_body(stored, i, at, k)?;
        unpack_body(memory, stored, i, at, k);
        at += HEAD_SIZE + ROW_SIZE * count;
        k += count;
    }
    if at != stored.len() {
        return None;
    }
    store_shipments(memory, n);
    Some(())
}

// How many orders the body at a place has, if it stands whole there, as entry i says, and they fit behind k others.
#[tactic(auto, using(crate::proofs::Unpacking::body_room))]
fn orders_of_body(stored: &[u8], i: usize, at: usize, k: usize) -> Option<usize>
    requires { (at ≤ length stored.now) × (k ≤ most_rows) × (2 + 8 * (i + 1) ≤ length stored.now) }
    ensures { IsBody stored.now i k at result }
{
    if !is_body(stored, i, at, k) {
        return None;
    }
    Some(count_at(stored, at))
}

// How many orders the head of a body at a place says.
#[tactic(auto, using(memory::proofs::Parts::part_there))]
fn count_at(stored: &[u8], at: usize) -> usize
    requires { at + head_size ≤ length stored.now }
    ensures { (result ≡ count_from stored.now at) × (result < 65_536) }
{
    let end = at + HEAD_SIZE;
    Head::of(&stored[at..end]).orders() as usize
}

// Does a body stand whole at a place, as entry i says, and do its orders fit behind k others?
#[tactic(auto, using(text::proofs::Branches::branches, crate::proofs::Unpacking::no_head, crate::proofs::Unpacking::body_told))]
fn is_body(stored: &[u8], i: usize, at: usize, k: usize) -> bool
    requires { (at ≤ length stored.now) × (k ≤ most_rows) × (2 + 8 * (i + 1) ≤ length stored.now) }
    ensures { result ≡ is_body stored.now i k at }
{
    let left = stored.len() - at;
    if left < HEAD_SIZE {
        return false;
    }
    let n = count_at(stored, at);
    let long = HEAD_SIZE + ROW_SIZE * n;
    k + n <= MOST_ROWS && (long <= left && is_entry(stored, i, at as u64, long as u64))
}

// Does entry i of the contents table say this start and this length?
#[tactic(auto, using(text::proofs::Branches::branches))]
fn is_entry(stored: &[u8], i: usize, start: u64, long: u64) -> bool
    requires { 2 + 8 * (i + 1) ≤ length stored.now }
    ensures { result ≡ is_entry stored.now i start long }
{
    let at = 2 + ENTRY * i;
    read::<4>(stored, at) == start && read::<4>(stored, at + 4) == long
}

// Unpacks the body at a place as shipment i, its rows from the k-th on.
#[tactic(auto, using(memory::proofs::Parts::part_there))]
fn unpack_body(memory: &mut [u8], stored: &[u8], i: usize, at: usize, k: usize)
    requires { (i < most_shipments) × IsMemory memory.old × (at + body_from stored.now at ≤ length stored.now) × (k + count_from stored.now at ≤ most_rows) }
    ensures { BodyUnpacked stored.now i k at memory.old memory.new }
{
    let end = at + HEAD_SIZE;
    let head = &stored[at..end];
    let n = Head::of(head).orders() as usize;
    store_head(memory, i, head);
    unpack_orders(memory, k, n, stored, end);
}

// Unpacks n orders from a place on as the rows from the k-th on.
#[tactic(auto, using(memory::proofs::Parts::part_there, acts::proofs::RowsInTurn::none_stored, crate::proofs::Unpacking::one_more_unpacked))]
fn unpack_orders(memory: &mut [u8], k: usize, n: usize, stored: &[u8], at: usize)
    requires { (k + n ≤ most_rows) × IsMemory memory.old × (at + row_size * n ≤ length stored.now) }
    ensures { RowsStored (given_row stored.now at k) k n memory.old memory.new }
{
    for done in 0..n {
        let from = at + ROW_SIZE * done;
        let end = from + ROW_SIZE;
        store_row(memory, k + done, &stored[from..end]);
    }
}
