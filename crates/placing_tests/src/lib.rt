//! Tests of structure under guide B, guide M and the odd guide, on examples whose answers follow from the rule book.
#![tactic(auto)]

#[cfg(test)]
mod cases;
