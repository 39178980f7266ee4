// The contents of an order file (EPE): document 01's questions 102 to 132 on what the header states and on the records, an order's amount and
// faults, and the orders kept. It knows nothing of a book.
#![tactic(auto)]

pub mod around;
pub mod extra;
pub mod faults;
mod field;
pub mod judge;
pub mod kept;
pub mod record;
pub mod stated;
mod tally;
