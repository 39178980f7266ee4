// Rows that follow one another, one to an order: walked in place, and a column of them taken together.
ghost use Rattle.std.specs.Prelude.{◌≡◌, List, ℕ, ◌+◌, ◌≤◌, ◌<◌, ◌^◌, length, get_or};
ghost use Rattle.std.specs.Iterator.{YieldsFirst, item_count};
ghost use Rattle.money.specs.Money.{amount, fee, WithinSum};
ghost use Rattle.money.specs.declared.Money.{Money};
ghost use Rattle.money.specs.declared.Money.TheVariants.{K, O};
ghost use Rattle.model.specs.Shipment.{most_rows, sum_over, worth};
ghost use Rattle.model.specs.declared.Row.{Row};
ghost use Rattle.memory.specs.Layout.{IsMemory};
ghost use Rattle.memory.specs.Read.{rows_from};
ghost use Rattle.memory.specs.Inner.Worth.{IsWorth};

use crate::row::LentRow;
use money::{Amount, Fee, Grosze};
use std::marker::Model;

// Rows of a book that follow one another, to be read in place. Walked, they are taken off from the first on.
#[derive(Drop)]
pub struct Rows<'a> {
    pub(crate) memory: &'a [u8],
    pub(crate) first: usize,
    pub(crate) count: usize,
}

impl<'a> Model for Rows<'a> {
    ghost Value = { List Row };

    ghost view = { λ rows. rows_from rows.memory.now rows.first rows.count };

    ghost invariant = { λ rows. IsMemory rows.memory.now × (rows.first + rows.count ≤ most_rows) };
}

impl<'a> Rows<'a> {
    // How many they are.
    #[tactic(auto, using(crate::proofs::Columns::rows_many))]
    pub fn len(&self) -> usize
        ensures { (result ≡ length self.now) × (result ≤ most_rows) }
    {
        self.count
    }

    // Row i of them, counted from 0.
    #[tactic(auto, using(crate::proofs::Columns::row_among, crate::proofs::Columns::row_room))]
    pub fn row(&self, i: usize) -> LentRow<'a>
        requires { i < length self.now }
        ensures { (none : Row) → result ≡ get_or self.now i none }
    {
        LentRow {
            memory: self.memory,
            k: self.first + i,
        }
    }

    // The sum of their amounts.
    pub fn amounts(&self) -> Amount
        ensures { (result ≡ amount (sum_over (worth K) self.now)) × WithinSum result.0 }
    {
        Amount::sum(self.sum(|row| row.amount().0))
    }

    // The sum of their fees.
    // Kept: 2a: amounts and fees are two types, which document 01 names, and each a line; the walk is one.
    pub fn fees(&self) -> Fee
        ensures { (result ≡ fee (sum_over (worth O) self.now)) × WithinSum result.0 }
    {
        Fee::sum(self.sum(|row| row.fee().0))
    }

    // The sum of what each of them is worth, in grosze: a number of four bytes.
    fn sum<F: Fn(LentRow) -> u64>(&self, grosze: F) -> u64
        requires callable { (row : Row) → F.pre grosze row }
        requires small { (row : Row) (n : ℕ) → F.post grosze row n → n < 2 ^ 32 }
        ensures sums { (money : Money) → IsWorth (F.post grosze) money → result ≡ sum_over (worth money) self.now }
        ensures within { WithinSum result }
    {
        let mut sum = 0;
        for row in self {
            sum += grosze(row);
        }
        sum
    }
}

impl<'a> Iterator for Rows<'a> {
    type Item = LentRow<'a>;

    ghost next_gives = { YieldsFirst (λ left. left) };

    ghost remaining = { item_count (λ left. left) };

    #[tactic(auto, using(crate::proofs::Columns::rows_on, crate::proofs::Columns::rows_done))]
    fn next(&mut self) -> Option<LentRow<'a>> {
        if self.count == 0 {
            return None;
        }
        let row = LentRow {
            memory: self.memory,
            k: self.first,
        };
        self.first += 1;
        self.count -= 1;
        Some(row)
    }
}

impl<'r, 'a> IntoIterator for &'r Rows<'a> {
    type Item = LentRow<'a>;

    type IntoIter = Rows<'a>;

    ghost into_iter_gives = { λ rows left. (left ≡ rows.now) × (length rows.now ≤ most_rows) };

    #[tactic(auto, using(crate::proofs::Columns::rows_many))]
    fn into_iter(self) -> Rows<'a> {
        Rows {
            memory: self.memory,
            first: self.first,
            count: self.count,
        }
    }
}
