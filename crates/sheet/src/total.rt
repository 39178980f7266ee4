// The totals: a row is added where no total passes the cap by it. Sums only grow, so that one past the cap is past it after all rows too.
ghost use Rattle.std.specs.Prelude.{◌≡◌, map};
ghost use Rattle.sheet.specs.Sheet.{row_for, plus, plus_all, within_cap};
ghost use Rattle.sheet.specs.Inner.Filling.{TotalsWithin, RowWithin, if_within};

use crate::row::row_for;
use crate::{Amounts, Fees, SheetRow, Totals};
use sound::book::Book;

// The totals with the rows of a book added, if none of them is then above the cap.
#[tactic(auto, using(crate::proofs::Totalling::summing))]
pub fn add(book: &Book, totals: Totals) -> Option<Totals>
    ensures { result ≡ if_within (plus_all totals (map row_for book.now)) }
{
    if !is_within(totals) {
        return None;
    }
    let mut sums = totals;
    for shipment in book {
        sums = plus(sums, row_for(&shipment))?;
    }
    Some(sums)
}

// Are all totals within the cap?
#[tactic(auto, using(text::proofs::Branches::branches), unfolding(crate::specs::Sheet::within_cap))]
fn is_within(totals: Totals) -> bool
    ensures { result ≡ within_cap totals }
{
    totals.amounts.sums().is_within() && totals.fees.sums().is_within()
}

// The totals with one row added, if none of them is then above the cap.
#[tactic(auto, using(crate::proofs::Totalling::cap_within), unfolding(crate::specs::Sheet::within_cap, crate::specs::Inner::Filling::if_within))]
fn plus(totals: Totals, row: SheetRow) -> Option<Totals>
    requires { TotalsWithin totals × RowWithin row }
    ensures { result ≡ if_within (plus totals row) }
{
    let amounts = totals.amounts.sums().plus(row.amounts.sums());
    let fees = totals.fees.sums().plus(row.fees.sums());
    if !(amounts.is_within() && fees.is_within()) {
        return None;
    }
    Some(Totals {
        amounts: Amounts::of(amounts),
        fees: Fees::of(fees),
    })
}
