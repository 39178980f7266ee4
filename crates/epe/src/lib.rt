// What the name of an order file (EPE) says, and its opening: identifiers, names and titles, the profile, and document 01's questions 001 to 023.
// It knows nothing of a book.
#![tactic(auto)]

pub mod file;
mod header;
pub mod ident;
pub mod line;
pub mod name;
pub mod profile;
pub mod refusal;
