// Tests of the types of elements on examples, in a crate of their own so that the types themselves are proved only once.
#![tactic(auto)]

#[cfg(test)]
mod cases;
