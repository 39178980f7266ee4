// The lent memory of a book: where its fields lie, read and stored in place. docs/LAYOUT.md has the table.
#![tactic(auto)]

pub mod class;
pub mod enter;
pub mod head;
pub mod holding;
pub mod name;
pub mod number;
pub mod place;
pub mod row;
pub mod rows;
pub mod shipment;
pub mod state;
pub mod wait;

ghost use Rattle.std.specs.Prelude.{◌≡◌, List, ℕ, ◌+◌, ◌≤◌, ◌<◌, ◌^◌, length, set};
ghost use Rattle.model.specs.Shipment.{most_shipments, most_rows};
ghost use Rattle.memory.specs.Layout.{IsMemory, memory_of, head_bytes, row_bytes};
ghost use Rattle.memory.specs.Rows.{row_of};
ghost use Rattle.memory.specs.Read.{rows_from, shipments_in};

use crate::head::Head;
use crate::row::LentRow;
use crate::rows::Rows;
use std::marker::Model;

// How many shipments a book has room for.
pub const MOST_SHIPMENTS: usize = 32;

// How many orders it has room for, in all its shipments.
pub const MOST_ROWS: usize = 2_048;

// Where the heads begin.
pub const HEADS: usize = 64;

// The bytes of a head, and of a row.
pub const HEAD_SIZE: usize = 66;

pub const ROW_SIZE: usize = 11;

// Where the columns of the rows begin: amounts, fees, remainders and states.
// Kept: 6b: rows side by side were measured in plain Rust, and slower: soundness of 2,048 took 3.2 to 3.4 µs against 2.2 to 2.7 (docs/DECISIONS.md).
pub const AMOUNTS: usize = HEADS + HEAD_SIZE * MOST_SHIPMENTS;

// Kept: 6b: rows side by side were measured in plain Rust, and slower: soundness of 2,048 took 3.2 to 3.4 µs against 2.2 to 2.7 (docs/DECISIONS.md).
pub const FEES: usize = AMOUNTS + 4 * MOST_ROWS;

// Kept: 6b: rows side by side were measured in plain Rust, and slower: soundness of 2,048 took 3.2 to 3.4 µs against 2.2 to 2.7 (docs/DECISIONS.md).
pub const REMAINDERS: usize = FEES + 4 * MOST_ROWS;

// Kept: 6b: rows side by side were measured in plain Rust, and slower: soundness of 2,048 took 3.2 to 3.4 µs against 2.2 to 2.7 (docs/DECISIONS.md).
pub const STATES: usize = REMAINDERS + 2 * MOST_ROWS;

// The bytes of a book.
pub const SIZE: usize = STATES + MOST_ROWS;

// Memory that is long enough for a book, to be read.
#[derive(Drop)]
pub struct Memory<'a> {
    bytes: &'a [u8],
}

impl<'a> Model for Memory<'a> {
    ghost Value = { List ℕ };

    ghost view = { λ memory. memory.bytes.now };

    ghost invariant = { λ memory. IsMemory memory.bytes.now };
}

impl<'a> Memory<'a> {
    // Lent memory, if it is long enough.
    pub fn of(bytes: &'a [u8]) -> Option<Memory<'a>>
        ensures { result ≡ memory_of bytes.now }
    {
        if bytes.len() < SIZE {
            return None;
        }
        Some(Memory { bytes })
    }

    // Lent memory that is known to be long enough.
    pub fn lent(bytes: &'a [u8]) -> Memory<'a>
        requires { IsMemory bytes.now }
        ensures { result ≡ bytes.now }
    {
        Memory { bytes }
    }

    // How many shipments the memory says that it has.
    pub fn shipments(&self) -> usize
        ensures { (result ≡ shipments_in self.now) × (result < 256) }
    {
        usize::from(self.bytes[0])
    }

    // Head i.
    #[tactic(auto, using(crate::proofs::Parts::part_there), unfolding(crate::specs::Layout::head_bytes))]
    pub fn head(&self, i: usize) -> Head<'a>
        requires { i < most_shipments }
        ensures { result ≡ head_bytes self.now i }
    {
        let at = HEADS + HEAD_SIZE * i;
        let end = at + HEAD_SIZE;
        Head {
            bytes: &self.bytes[at..end],
        }
    }

    // Row k.
    pub fn row(&self, k: usize) -> LentRow<'a>
        requires { k < most_rows }
        ensures { result ≡ row_of (row_bytes self.now k) }
    {
        LentRow {
            memory: self.bytes,
            k,
        }
    }

    // The n rows from the k-th on.
    pub fn rows(&self, k: usize, n: usize) -> Rows<'a>
        requires { k + n ≤ most_rows }
        ensures { result ≡ rows_from self.now k n }
    {
        Rows {
            memory: self.bytes,
            first: k,
            count: n,
        }
    }
}

// Stores the number of shipments.
pub fn store_shipments(memory: &mut [u8], n: usize)
    requires { (n ≤ most_shipments) × IsMemory memory.old }
    ensures { memory.new ≡ set memory.old 0 n }
{
    memory[0] = n as u8;
}
