// Which moneys an order of a Paired shipment holds, by a table of the bytes of state.
ghost use Rattle.std.specs.Prelude.{◌≡◌};
ghost use Rattle.memory.specs.States.{state_of};
ghost use Rattle.memory.specs.Inner.Holdings.{holding_of, holding_table};

use crate::row::LentRow;
use crate::state::Code;

// The first byte that says no state, and so do all behind it: one entry tells of them all.
const NO_STATE: usize = Code::LAST as usize + 1;

// The entries of the table.
const ENTRIES: usize = NO_STATE + 1;

// Which moneys are held by the bytes of state up to the last (see `holding`), and then by any byte behind it.
// Kept: 6d: what is held is multiplied by, so that two bools would be made a number again for each row.
const HOLDINGS: [u64; ENTRIES] = [
    3, 1, 0, 0, 0, 1, 0, 0, 0, 1, 2, 3, 0, 1, 2, 3, 0, 1, 2, 3, 0, 1, 2, 3, 0, 1, 2, 3, 0, 1, 2, 3,
    0, 1, 2, 3, 0, 1, 2, 3, 0, 1, 2, 3, 0, 1, 2, 3, 0, 1, 2, 3, 0,
];

// The table of what each byte of state holds. It is made once for many rows, and lent.
#[derive(Clone, Copy)]
pub struct Holdings {
    table: [u64; ENTRIES],
    ghost told: { table ≡ holding_table },
}

impl Holdings {
    // The table.
    #[tactic(auto, unfolding(crate::specs::States::state_of, crate::specs::Inner::Holdings::holding_table))]
    pub fn new() -> Holdings {
        Holdings { table: HOLDINGS }
    }

    // Which moneys an order in the state that a byte says holds.
    // Kept: 1d: 1 for K and 2 more for O, by which its amount and its fee are multiplied.
    #[tactic(auto, using(crate::proofs::HoldingLaws::holdings_long, crate::proofs::HoldingLaws::holding_there))]
    fn holding(&self, code: Code) -> u64
        ensures { result ≡ holding_of (state_of code.0) }
    {
        self.table[usize::from(code.0).min(NO_STATE)]
    }
}

impl LentRow<'_> {
    // Which moneys the order holds, in a Paired shipment: 1 for K, and 2 more for O.
    // Kept: 1d: by that its amount and its fee are multiplied.
    pub fn holding(&self, holdings: &Holdings) -> u64
        ensures { result ≡ holding_of self.now.state }
    {
        holdings.holding(self.code())
    }
}
