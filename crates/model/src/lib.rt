// The book as plain values: the types that its definitions share with the code above.
#![tactic(auto)]

use money::{Amount, Fee};

// Where a shipment stands.
#[derive(Clone, Copy, PartialEq, Eq, Debug)]
pub enum Stage {
    Waiting,
    Paired,
    Closed,
}

// The routes by which money goes back: surplus (ZWR), faulty (OPR), undelivered (ZPR) and withdrawn orders (ZZR).
#[derive(Clone, Copy, PartialEq, Eq, Debug)]
pub enum Route {
    Zwr,
    Opr,
    Zpr,
    Zzr,
}

// Where an order stands: Faulty with its fault and whether K and O wait, Undelivered with whether K waits, Withdrawn with whether K and O wait.
// Kept: 1d: "a state enum whose Faulty case carries the fault": a row of lent memory that is not judged yet has any byte for it, and is told of as it is.
#[derive(Clone, Copy, PartialEq, Eq, Debug)]
pub enum State {
    Open,
    Posted,
    Paid,
    Faulty(u64, bool, bool),
    Undelivered(bool),
    Withdrawn(bool, bool),
}

// An order's row: its amount, its fee with what the division left beside it, and where it stands.
#[derive(Clone, Copy, PartialEq, Eq, Debug)]
pub struct Row {
    pub amount: Amount,
    pub fee: Fee,
    pub remainder: u64,
    pub state: State,
}

// What is done with one order.
#[derive(Clone, Copy, PartialEq, Eq, Debug)]
pub enum Deed {
    Post,
    Pay,
    MarkUndelivered,
    Withdraw,
}
