// Tests of the byte layer on examples, in a crate of their own so that the layer itself is proved only once.
#![tactic(auto)]

#[cfg(test)]
mod cases;
