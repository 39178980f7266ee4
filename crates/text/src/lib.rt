// Texts as lists of bytes: UTF-8, digits and numbers, fields at a separator, lines at CR LF.
#![tactic(auto)]

pub mod bytes;
pub mod fields;
pub mod lines;
pub mod number;
pub mod utf8;
