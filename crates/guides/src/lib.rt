//! Guide B and guide M, and an odd guide for tests: what each answers, and that the answers are those of its meaning.
#![tactic(auto)]

pub mod guide_b;
pub mod guide_m;
pub mod guide_odd;
mod tables;
pub mod unlawful;
