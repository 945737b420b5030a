// What came before: the control numbers of the sets of a group, and the line numbers of a set.
#![tactic(auto)]

mod buckets;
pub mod control_numbers;
pub mod line_numbers;
