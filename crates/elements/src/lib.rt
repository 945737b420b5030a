//! Elements: each is held to the rule of its row, of the envelope or of the guide.
#![tactic(auto)]

pub mod checks;
mod envelope;
pub mod faults;
pub mod limits;
mod subject;
