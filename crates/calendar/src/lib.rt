// Gregorian dates of the years 2000 to 2099: which are real, and how many days apart they are. Times of day.
#![tactic(auto)]

pub mod date;
pub mod time;
