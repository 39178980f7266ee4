// A return in rows: what the wait of a money adds to a byte of state, by a table of all bytes, and a wait taken out of a row.
ghost use Rattle.std.specs.Prelude.{◌≡◌, ◌≤◌, ◌<◌};
ghost use Rattle.money.specs.declared.Money.{Money};
ghost use Rattle.model.specs.Shipment.{most_rows, by_money};
ghost use Rattle.model.specs.declared.Route.{Route};
ghost use Rattle.memory.specs.Layout.{IsMemory};
ghost use Rattle.memory.specs.States.{k_waits, o_waits};
ghost use Rattle.memory.specs.Inner.Returns.{route_has, code_waits, wait_in, WaitTable, IsWaitTable, RowReturned};

use crate::STATES;
use crate::row::store_code;
use crate::state::Code;
use model::Route;
use money::Money;

// What the wait of a money adds to a byte of state.
// Kept: 1d, 4c: it is taken off the byte.
pub fn wait_of(money: Money) -> u8
    ensures { (result ≡ by_money money 1 2) × (1 ≤ result) × (result ≤ 2) }
{
    // Kept: 7b: a match has both moneys side by side.
    match money {
        Money::K => 1,
        Money::O => 2,
    }
}

// What the wait of a money on a route adds to each byte of state. The table is made once for many rows, and lent.
pub fn wait_table(route: Route, money: Money) -> [u8; 256]
    ensures { WaitTable route money result }
{
    let mut table = [0u8; 256];
    for (code, taken) in table.iter_mut().enumerate() {
        *taken = Code(code as u8).wait(route, money);
    }
    table
}

// Takes out of row k the wait that a table of waits says of it, and answers what it took from the byte of state.
// Kept: 6b: a column of the rows, which are faster in columns (docs/DECISIONS.md).
pub fn store_return(memory: &mut [u8], k: usize, table: &[u8]) -> u64
    requires { (k < most_rows) × IsMemory memory.old × IsWaitTable table.now }
    ensures { ((route : Route) (money : Money) → WaitTable route money table.now → RowReturned route money k memory.old memory.new result) × (result ≤ 2) }
{
    let code = memory[STATES + k];
    let taken = table[usize::from(code)];
    store_code(memory, k, Code(code - taken));
    u64::from(taken)
}

impl Code {
    // What the wait of a money on a route adds to the byte, and nothing where it does not wait.
    // Kept: 1d: it is an entry of a table of bytes, each of which is taken off a byte of state.
    fn wait(self, route: Route, money: Money) -> u8
        ensures { result ≡ wait_in route money self.0 }
    {
        if self.has_wait(route, money) {
            return wait_of(money);
        }
        0
    }

    // Does a money wait on a route, by the byte?
    fn has_wait(self, route: Route, money: Money) -> bool
        ensures { result ≡ code_waits route money self.0 }
    {
        self.is_on(route) && self.waits(money)
    }

    // Does the byte say a state of the orders that a route returns?
    fn is_on(self, route: Route) -> bool
        ensures { result ≡ route_has route self.0 }
    {
        // Kept: 7b: document 01 says of each route whose orders it returns, and a match has them side by side.
        match route {
            Route::Zwr => false,
            Route::Opr => self.says_faulty(),
            Route::Zpr => self.says_undelivered(),
            Route::Zzr => self.says_withdrawn(),
        }
    }

    // Does the byte say that a money waits?
    fn waits(self, money: Money) -> bool
        ensures { result ≡ by_money money (k_waits self.0) (o_waits self.0) }
    {
        // Kept: 7a: each money has a bit of its own, asked by its name.
        match money {
            Money::K => self.k_waits(),
            Money::O => self.o_waits(),
        }
    }
}
