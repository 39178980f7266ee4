// A shipment entered: its rows, and its head.
ghost use Rattle.std.specs.Prelude.{◌≡◌, true, ◌++◌, ◌≤◌, ◌<◌, ◌^◌, replicate};
ghost use Rattle.fee.specs.Fee.{TermsFit};
ghost use Rattle.epe.specs.Name.{name_in_form};
ghost use Rattle.model.specs.Shipment.{most_shipments, most_rows};
ghost use Rattle.model.specs.Book.{entered_state};
ghost use Rattle.memory.specs.Layout.{IsMemory};
ghost use Rattle.memory.specs.Inner.Enter.{Enterable, OrderEntered, HeadEntered, fields_of};

use crate::head::{DATE, FLAT, KIND, LENGTH, ORDERS, PAYMENT, RATE, store_head};
use crate::number::store;
use crate::row::store_state;
use crate::{AMOUNTS, FEES, HEAD_SIZE, REMAINDERS};
use contents::record::Order;
use epe::name::Name;
use fee::{Terms, charge_on};
use model::State;

// Enters an order in row k, on the terms of its fee.
// Kept: 6b: a column of the rows, which are faster in columns (docs/DECISIONS.md).
#[tactic(auto, using(fee::proofs::Charged::never_above))]
pub fn enter_order(memory: &mut [u8], k: usize, terms: Terms, order: Order)
    requires { (k < most_rows) × IsMemory memory.old × Enterable terms order }
    ensures { OrderEntered terms order k memory.old memory.new }
{
    let Some(charge) = charge_on(terms, order.amount) else {
        return;
    };
    store::<4>(memory, AMOUNTS + 4 * k, order.amount.0);
    store::<4>(memory, FEES + 4 * k, charge.fee.0);
    store::<2>(memory, REMAINDERS + 2 * k, charge.remainder);
    let state = entered_state(order);
    store_state(memory, k, state);
}

// Enters a shipment of n orders in head i.
#[tactic(auto, using(crate::proofs::EnterLaws::name_fits))]
pub fn enter_head(memory: &mut [u8], i: usize, name: Name, terms: Terms, n: u64)
    requires { (i < most_shipments) × IsMemory memory.old × (name_in_form name ≡ true) × TermsFit terms × (n < 2 ^ 16) }
    ensures { HeadEntered name terms n i memory.old memory.new }
{
    let head = head_of(name, terms, n);
    store_head(memory, i, &head);
}

// The state of an order as it is entered.
fn entered_state(order: Order) -> State
    ensures { result ≡ entered_state order }
{
    if order.fault == 0 {
        return State::Open;
    }
    State::Faulty(order.fault, true, true)
}

// The head of a shipment of n orders as it is entered.
// Kept: 2c, 4b: `copy_from_slice`, of an identifier before the other fields.
fn head_of(name: Name, terms: Terms, n: u64) -> [u8; HEAD_SIZE]
    requires { (name.ident.len ≤ 17) × (name.kind ≤ 4) }
    ensures { result ≡ name.ident.bytes ++ fields_of name terms n }
{
    let mut head = fields(name, terms, n);
    head[..LENGTH].copy_from_slice(&name.ident.bytes);
    head
}

// The head of a shipment as it is entered, but for the identifier.
// Kept: 3d: a field to a place of its own, in the order of docs/LAYOUT.md.
#[tactic(auto, unfolding(crate::specs::Number::with_number, crate::specs::Inner::Enter::fields_of))]
fn fields(name: Name, terms: Terms, n: u64) -> [u8; HEAD_SIZE]
    requires { (name.ident.len ≤ 17) × (name.kind ≤ 4) }
    ensures { result ≡ replicate 17 0 ++ fields_of name terms n }
{
    let mut head = [0u8; HEAD_SIZE];
    head[LENGTH] = name.ident.len as u8;
    store::<4>(&mut head, DATE, name.date.0);
    head[PAYMENT] = name.payment;
    head[KIND] = name.kind as u8;
    store::<4>(&mut head, FLAT, terms.flat.0);
    store::<2>(&mut head, ORDERS, n);
    store::<2>(&mut head, RATE, terms.rate.0);
    head
}
