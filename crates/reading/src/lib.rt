//! Reading: an interchange is judged whole, and the result tables are filled.
#![tactic(auto)]

pub mod faults;
mod judging;
pub mod laws;
pub mod read;
mod turns;
