//! Placing: every segment gets its row and its loop, or the first that no derivation takes is refused.
#![tactic(auto)]

pub mod faults;
pub mod marks;
pub mod phase;
pub mod place;
pub mod placer;
pub mod rows;
mod search;
pub mod sets;
mod steps;
pub mod structure;
mod turn;
