// The verdict on an interchange, and the line that tells it.
#![tactic(auto)]

pub mod line;
pub mod telling;
pub mod verdicts;
