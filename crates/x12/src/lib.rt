// The byte layer of an X12 interchange: classes, delimiters, segments, elements and byte faults.
#![tactic(auto)]

pub mod checks;
pub mod classes;
pub mod elements;
pub mod faults;
pub mod find;
pub mod header;
pub mod laws;
pub mod parts;
pub mod scans;
pub mod segments;
