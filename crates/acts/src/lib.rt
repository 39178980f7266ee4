// Where a call finds its shipment in lent memory, what it does to the shipment there, and what it answers.
#![tactic(auto)]

pub mod answer;
pub mod order;
pub mod place;
pub mod refusal;
pub mod route;
pub mod rows;
pub mod shipment;
mod surplus;
