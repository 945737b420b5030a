//! The interface of a guide: what it means, the law that it keeps, and the questions that a judge asks it.
#![tactic(auto)]

pub mod guide;
pub mod laws;
pub mod rules;
