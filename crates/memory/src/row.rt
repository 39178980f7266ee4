// An order's row: read from the columns of the rows, and stored in them.
ghost use Rattle.std.specs.Prelude.{◌≡◌, ◌≤◌, ◌<◌, ◌^◌, length};
ghost use Rattle.model.specs.Shipment.{most_rows, worth};
ghost use Rattle.model.specs.declared.Row.{Row};
ghost use Rattle.memory.specs.Layout.{IsMemory, IsRow, row_bytes};
ghost use Rattle.memory.specs.States.{state_of};
ghost use Rattle.memory.specs.Rows.{code_in, row_of};
ghost use Rattle.memory.specs.Inner.Stored.{code_of, with_code_at, RowStored};

use crate::number::{read, store};
use crate::state::Code;
use crate::{AMOUNTS, FEES, Memory, REMAINDERS, ROW_SIZE, STATES};
use model::State;
use money::{Amount, Fee, Grosze, Money};
use std::marker::Model;

// A row of a book, to be read in place.
#[derive(Drop)]
pub struct LentRow<'a> {
    pub(crate) memory: &'a [u8],
    pub(crate) k: usize,
}

impl<'a> Model for LentRow<'a> {
    ghost Value = { Row };

    ghost view = { λ row. row_of (row_bytes row.memory.now row.k) };

    ghost invariant = { λ row. IsMemory row.memory.now × (row.k < most_rows) };
}

impl<'a> LentRow<'a> {
    // Its amount. What four bytes say is never above the cap of a sum.
    // Kept: 6b: a column of the rows, which are faster in columns (docs/DECISIONS.md).
    #[tactic(auto, using(crate::proofs::RowLaws::amount_in_lem), unfolding(crate::specs::Rows::row_of))]
    pub fn amount(&self) -> Amount
        ensures { (result ≡ self.now.amount) × (result.0 < 2 ^ 32) }
    {
        Amount::sum(read::<4>(self.memory, AMOUNTS + 4 * self.k))
    }

    // Its fee, likewise.
    // Kept: 2a: amounts and fees are two types, which document 01 names, and each a line.
    // Kept: 6b: a column of the rows, which are faster in columns (docs/DECISIONS.md).
    #[tactic(auto, using(crate::proofs::RowLaws::fee_in), unfolding(crate::specs::Rows::row_of))]
    pub fn fee(&self) -> Fee
        ensures { (result ≡ self.now.fee) × (result.0 < 2 ^ 32) }
    {
        Fee::sum(read::<4>(self.memory, FEES + 4 * self.k))
    }

    // What it is worth in a money, in grosze: its amount in K, its fee in O.
    pub fn worth(&self, money: Money) -> u64
        ensures { (result ≡ worth money self.now) × (result < 2 ^ 32) }
    {
        // Kept: 7a: amounts and fees are two columns of two types, and here one is chosen by the money.
        match money {
            Money::K => self.amount().0,
            Money::O => self.fee().0,
        }
    }

    // Its remainder.
    // Kept: 6b: a column of the rows, which are faster in columns (docs/DECISIONS.md).
    #[tactic(auto, using(crate::proofs::RowLaws::remainder_in), unfolding(crate::specs::Rows::row_of))]
    pub fn remainder(&self) -> u64
        ensures { (result ≡ self.now.remainder) × (result < 2 ^ 16) }
    {
        read::<2>(self.memory, REMAINDERS + 2 * self.k)
    }

    // Its byte of state.
    pub fn code(&self) -> Code
        ensures { (state_of result.0 ≡ self.now.state) × (result.0 < 256) }
    {
        Memory::lent(self.memory).code(self.k)
    }

    // Its state.
    pub fn state(&self) -> State
        ensures { result ≡ self.now.state }
    {
        State::from(self.code())
    }
}

impl Memory<'_> {
    // The byte of state of row k.
    // Kept: 6b: a column of the rows, which are faster in columns (docs/DECISIONS.md).
    #[tactic(auto, using(crate::proofs::RowLaws::code_in_lem), unfolding(crate::specs::Rows::row_of))]
    pub fn code(&self, k: usize) -> Code
        requires { k < most_rows }
        ensures { (result.0 ≡ code_in (row_bytes self.now k)) × (state_of result.0 ≡ (row_of (row_bytes self.now k)).state) × (result.0 < 256) }
    {
        let code = self.bytes[STATES + k];
        Code(code)
    }

    // The bytes of row k, gathered from the columns: its amount, its state, its fee and its remainder.
    // Kept: 3d, 4b: tried, and slower: 2,048 orders took 8.6 µs with the four parts put one by one, and take 4.5 µs.
    // Kept: 6b: a column of the rows, which are faster in columns (docs/DECISIONS.md).
    #[tactic(auto, using(crate::proofs::RowBytes::gathered))]
    pub fn row_bytes(&self, k: usize) -> [u8; ROW_SIZE]
        requires { k < most_rows }
        ensures { result ≡ row_bytes self.now k }
    {
        let amount = AMOUNTS + 4 * k;
        let fee = FEES + 4 * k;
        let remainder = REMAINDERS + 2 * k;
        [
            self.bytes[amount],
            self.bytes[amount + 1],
            self.bytes[amount + 2],
            self.bytes[amount + 3],
            self.bytes[STATES + k],
            self.bytes[fee],
            self.bytes[fee + 1],
            self.bytes[fee + 2],
            self.bytes[fee + 3],
            self.bytes[remainder],
            self.bytes[remainder + 1],
        ]
    }
}

// Stores the bytes of a row in the columns of row k.
// Kept: 6b: a column of the rows, which are faster in columns (docs/DECISIONS.md).
pub fn store_row(memory: &mut [u8], k: usize, row: &[u8])
    requires { (k < most_rows) × IsMemory memory.old × IsRow row.now }
    ensures { RowStored row.now k memory.old memory.new }
{
    store::<4>(memory, AMOUNTS + 4 * k, read::<4>(row, 0));
    store::<4>(memory, FEES + 4 * k, read::<4>(row, 5));
    store::<2>(memory, REMAINDERS + 2 * k, read::<2>(row, 9));
    store_code(memory, k, Code(row[4]));
}

// Stores a byte of state in row k.
// Kept: 6b: a column of the rows, which are faster in columns (docs/DECISIONS.md).
#[tactic(auto, unfolding(crate::specs::Inner::Stored::with_code_at))]
pub fn store_code(memory: &mut [u8], k: usize, code: Code)
    requires { (k < most_rows) × IsMemory memory.old }
    ensures { memory.new ≡ with_code_at memory.old k code.0 }
{
    memory[STATES + k] = code.0;
}

// Stores a state in row k.
pub fn store_state(memory: &mut [u8], k: usize, state: State)
    requires { (k < most_rows) × IsMemory memory.old }
    ensures { memory.new ≡ with_code_at memory.old k (code_of state) }
{
    store_code(memory, k, Code::from(state));
}
