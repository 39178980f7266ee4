// A return by its route. OPR, ZPR and ZZR: what waits in a shipment's orders waits no more, and is added up on the way.
ghost use Rattle.std.specs.Prelude.{◌≡◌, ◌+◌, ◌*◌, ◌≤◌, ◌<◌, ◌^◌, IfOk};
ghost use Rattle.money.specs.Money.{WithinSum, money_of_sum};
ghost use Rattle.money.specs.declared.Money.TheVariants.{O};
ghost use Rattle.model.specs.Shipment.{most_rows};
ghost use Rattle.model.specs.Calls.{Return, waiting, is_zpr_with_o, returned_by, acted};
ghost use Rattle.model.specs.declared.Route.{Route};
ghost use Rattle.memory.specs.Layout.{IsMemory};
ghost use Rattle.memory.specs.Read.{shipment_at, Sits};
ghost use Rattle.memory.specs.Inner.Returns.{WaitTable, IsWaitTable};
ghost use Rattle.acts.specs.Answers.{returning_of};
ghost use Rattle.acts.specs.Inner.Place.{ActAt};
ghost use Rattle.acts.specs.Inner.Waits.{worth_waiting, fees_wait_in_vain, waits_in_vain, RowCleared, Cleared};

use crate::answer::Returned;
use crate::refusal::Refusal;
use crate::surplus::surplus_at;
use memory::Memory;
use memory::place::Place;
use memory::rows::Rows;
use memory::shipment::LentShipment;
use memory::wait::{store_return, wait_of, wait_table};
use model::Route;
use money::{Money, Sum};

// What is taken out of rows on the way: each order's worth in grosze, and each order, as often as its wait adds to the byte of state.
#[derive(Clone, Copy)]
pub struct Taken {
    pub worth: u64,
    pub count: u64,
}

// Returns by a route, from the shipment at a place.
#[tactic(auto, unfolding(model::specs::Calls::acted))]
pub fn return_by_at(
    memory: &mut [u8],
    place: Place,
    route: Route,
    money: Money,
) -> Result<Returned, Refusal>
    requires { Sits memory.old place.head place.row }
    ensures acts { ActAt memory.old place.head place.row (acted (Return route money)) (returning_of money result) memory.new }
    ensures of_money { IfOk result (λ returned. money_of_sum returned.sum ≡ money) }
{
    // Kept: 7a: document 01 asks one list of questions for ZWR, and another for the rest.
    match route {
        Route::Zwr => surplus_at(memory, place, money),
        Route::Opr | Route::Zpr | Route::Zzr => return_at(memory, place, route, money),
    }
}

// Returns what waits of a money on a route, in the shipment at a place.
fn return_at(
    memory: &mut [u8],
    place: Place,
    route: Route,
    money: Money,
) -> Result<Returned, Refusal>
    requires { Sits memory.old place.head place.row }
    ensures acts { ActAt memory.old place.head place.row (returned_by route money) (returning_of money result) memory.new }
    ensures of_money { IfOk result (λ returned. money_of_sum returned.sum ≡ money) }
{
    let shipment = LentShipment::at(memory, place);
    if !shipment.is_paired() {
        return Err(Refusal::NotPaired);
    }
    if is_zpr_with_o(route, money) {
        return Err(Refusal::UndeliveredFee);
    }
    if waits_in_vain(&shipment, route, money) {
        return Err(Refusal::NothingToReturn);
    }
    let waits = clear(memory, place, route, money);
    if waits.sum.grosze() == 0 {
        return Err(Refusal::NothingToReturn);
    }
    Ok(waits)
}

// Is it a return of fees of undelivered orders?
fn is_zpr_with_o(route: Route, money: Money) -> bool
    ensures { result ≡ is_zpr_with_o route money }
{
    route == Route::Zpr && money == Money::O
}

// Is what waits of a money on a route 0, though orders may wait? Never in K, since no amount is 0.
fn waits_in_vain(shipment: &LentShipment, route: Route, money: Money) -> bool
    ensures { result ≡ waits_in_vain route money shipment.now }
{
    money == Money::O && fees_wait_in_vain(shipment, route)
}

// Is it so in O? No fee is below the flat part, so that what waits is added up beforehand only where that is 0.
#[tactic(auto, using(crate::proofs::Returns::none_in_vain, crate::proofs::Returns::sum_in_vain))]
fn fees_wait_in_vain(shipment: &LentShipment, route: Route) -> bool
    ensures { result ≡ fees_wait_in_vain route shipment.now }
{
    shipment.terms().flat.0 == 0 && fees_waiting(shipment.rows(), route) == 0
}

// The fees that wait on a route in some rows, each as often as its wait adds to the byte of state.
fn fees_waiting(rows: &Rows, route: Route) -> u64
    ensures { result ≡ worth_waiting route O rows.now * 2 }
{
    let table = wait_table(route, Money::O);
    let mut sum = 0;
    for row in rows {
        let code = row.code().0;
        sum += row.fee().0 * table[code as usize] as u64;
    }
    sum
}

// Ends every wait of a money on a route in the shipment at a place, and answers what waited.
// A row asks no question: it counts a wait by what that adds to the byte of state, and the sums are divided by it at the end.
fn clear(memory: &mut [u8], place: Place, route: Route, money: Money) -> Returned
    requires { Sits memory.old place.head place.row × WithinSum (waiting route money (shipment_at memory.old place.head place.row)) }
    ensures { Cleared route money place.head place.row memory.old memory.new result }
{
    let n = LentShipment::at(memory, place).rows().len();
    let table = wait_table(route, money);
    let mut taken = Taken { worth: 0, count: 0 };
    // Kept: 3c: rows are changed on the way, and lie in columns, so there is no slice of rows to walk.
    for done in 0..n {
        taken = clear_row(memory, place.row + done, taken, money, &table);
    }
    let wait = wait_of(money) as u64;
    let sum = Sum::of(money, taken.worth / wait);
    let count = taken.count / wait;
    Returned { sum, count }
}

// Takes out of row k the wait that a table of waits of a money says of it. What it took is counted, and as often the order's worth is added.
fn clear_row(memory: &mut [u8], k: usize, taken: Taken, money: Money, table: &[u8]) -> Taken
    requires { (k < most_rows) × IsMemory memory.old × IsWaitTable table.now × (taken.worth < 2 ^ 60) × (taken.count < 2 ^ 60) }
    ensures { ((route : Route) → WaitTable route money table.now → RowCleared route money k taken memory.old memory.new result) × (result.worth < taken.worth + 2 ^ 34) × (result.count ≤ taken.count + 2) }
{
    let worth = Memory::lent(memory).row(k).worth(money);
    let took = store_return(memory, k, table);
    let sum = taken.worth + worth * took;
    let count = taken.count + took;
    Taken { worth: sum, count }
}
