//! Totals: counts, sums and control numbers of an interchange, and what must not occur twice.
#![tactic(auto)]

mod amount;
pub mod controls;
pub mod counts;
pub mod faults;
pub mod open_line;
mod quantity;
pub mod tally;
pub mod used_rows;
