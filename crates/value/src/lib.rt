// Checks of element types on byte strings, each proved to decide its definition.
#![tactic(auto)]

pub mod dates;
pub mod decimals;
pub mod digits;
pub mod forms;
pub mod laws;
pub mod texts;
pub mod types;
