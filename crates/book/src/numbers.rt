// Routes and moneys as numbers.
ghost use Rattle.std.specs.Prelude.{◌≡◌};
ghost use Rattle.book.specs.Numbers.{are_known, route_of, money_of};

use model::Route;
use money::Money;

// Are the numbers those of a route and of a money?
// Kept: 1d, 4c: the C interface and a journal have routes and moneys as numbers, and a journal's definition reads each number as one (`act_in`).
#[tactic(auto, using(text::proofs::Branches::branches), unfolding(crate::specs::Numbers::are_known))]
pub fn are_known(route: u64, money: u64) -> bool
    ensures { result ≡ are_known route money }
{
    route <= 3 && money <= 1
}

// The route of a number.
// Kept: 1d, 4c: the C interface and a journal have routes and moneys as numbers, and a journal's definition reads each number as one (`act_in`).
#[tactic(auto, using(text::proofs::Branches::branches), unfolding(crate::specs::Numbers::route_of))]
pub fn route_of(n: u64) -> Route
    ensures { result ≡ route_of n }
{
    match n {
        0 => Route::Zwr,
        1 => Route::Opr,
        2 => Route::Zpr,
        _ => Route::Zzr,
    }
}

// The money of a number.
// Kept: 1d, 4c: the C interface and a journal have routes and moneys as numbers, and a journal's definition reads each number as one (`act_in`).
#[tactic(auto, using(text::proofs::Branches::branches), unfolding(crate::specs::Numbers::money_of))]
pub fn money_of(n: u64) -> Money
    ensures { result ≡ money_of n }
{
    if n == 0 { Money::K } else { Money::O }
}
