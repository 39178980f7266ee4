// A row of the sheet. A shipment's orders are passed once; what has left is what was accepted, less what is held and what is free.
ghost use Rattle.std.specs.Prelude.{◌≡◌, ◌+◌, ◌<◌, ◌^◌};
ghost use Rattle.model.specs.Shipment.{need_once_paired, held};
ghost use Rattle.sheet.specs.Sheet.{row_for};
ghost use Rattle.sheet.specs.Inner.Parts.{no_parts, with_order, parts_of, parts_once_paired, SmallParts, division_of};
ghost use Rattle.sheet.specs.Inner.Filling.{DivisionWithin, RowWithin};

use crate::division::Division;
use crate::{Amounts, Fees, SheetRow};
use memory::holding::Holdings;
use memory::row::LentRow;
use memory::rows::Rows;
use memory::shipment::LentShipment;
use money::{Amount, Fee, Grosze, Money};

// Of orders: all their amounts, the amounts held, all their fees, and the fees held.
#[derive(Clone, Copy)]
pub struct Parts {
    pub amounts: Amount,
    pub held: Amount,
    pub fees: Fee,
    pub fees_held: Fee,
}

// The row of a shipment.
pub fn row_for(shipment: &LentShipment) -> SheetRow
    ensures value { result ≡ row_for shipment.now }
    ensures within { RowWithin result }
{
    let parts = parts_for(shipment);
    let ident = shipment.ident();
    let amounts = division_for(shipment, Money::K, parts.amounts.0, parts.held.0);
    let fees = division_for(shipment, Money::O, parts.fees.0, parts.fees_held.0);
    SheetRow {
        ident,
        amounts: Amounts::of(amounts),
        fees: Fees::of(fees),
    }
}

// The parts of a shipment; none unless it is Paired.
#[tactic(auto, using(crate::proofs::Adding::by_stage))]
fn parts_for(shipment: &LentShipment) -> Parts
    ensures { result ≡ parts_once_paired shipment.now }
{
    if !shipment.is_paired() {
        return no_parts();
    }
    parts_of(shipment.rows())
}

// What was accepted of a money in a shipment, divided by what its orders need and hold: each order needs its own worth, and holds it or not.
#[tactic(auto, using(crate::proofs::Dividing::dividing))]
fn division_for(shipment: &LentShipment, money: Money, needs: u64, holds: u64) -> Division
    requires { (needs ≡ need_once_paired money shipment.now) × (holds ≡ held money shipment.now) }
    ensures value { result ≡ division_of money shipment.now }
    ensures within { DivisionWithin result }
{
    let accepted = shipment.accepted(money).grosze();
    let returned = shipment.returned(money).grosze();
    Division::of(accepted, returned, needs, holds)
}

// No parts.
fn no_parts() -> Parts
    ensures { result ≡ no_parts }
{
    let nothing = Amount::sum(0);
    let no_fee = Fee::sum(0);
    Parts {
        amounts: nothing,
        held: nothing,
        fees: no_fee,
        fees_held: no_fee,
    }
}

// The parts of some rows.
#[tactic(auto, using(crate::proofs::Adding::going))]
fn parts_of(rows: &Rows) -> Parts
    ensures { result ≡ parts_of rows.now }
{
    let holdings = Holdings::new();
    let mut parts = no_parts();
    for row in rows {
        parts = with_order(parts, &row, &holdings);
    }
    parts
}

// The parts with the order of a row.
#[tactic(auto, using(crate::proofs::Adding::order_sums))]
fn with_order(parts: Parts, row: &LentRow, holdings: &Holdings) -> Parts
    requires { SmallParts parts }
    ensures { (result ≡ with_order parts row.now) × (result.amounts.0 < parts.amounts.0 + 2 ^ 32) × (result.fees.0 < parts.fees.0 + 2 ^ 32) }
{
    let amount = row.amount();
    let fee = row.fee();
    let holding = row.holding(holdings);
    let amount_held = amount.0 * (holding % 2);
    let fee_held = fee.0 * (holding / 2);
    let amounts = Amount::sum(parts.amounts.0 + amount.0);
    let held = Amount::sum(parts.held.0 + amount_held);
    let fees = Fee::sum(parts.fees.0 + fee.0);
    let fees_held = Fee::sum(parts.fees_held.0 + fee_held);
    Parts {
        amounts,
        held,
        fees,
        fees_held,
    }
}
