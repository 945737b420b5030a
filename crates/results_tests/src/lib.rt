//! Tests of the result tables, on the worked interchanges of the rule book.
#![tactic(auto)]

#[cfg(test)]
mod cases;
