//! The result tables of a reading: a row for each segment and a row for each loop.
#![tactic(auto)]

mod close;
pub mod fill;
mod number;
pub mod rows;
mod write;
