// The report files that the insurer takes: RKF, on an order file, and OPE, on the faulty orders of a shipment.
#![tactic(auto)]

mod lines;
pub mod ope;
pub mod refusal;
pub mod rkf;
