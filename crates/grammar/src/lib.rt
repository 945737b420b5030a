//! The theory of a guide's rows: trees of rows, the derivations by them, and what marks determine of a derivation.
//!
//! No other code is here: the definitions stand in specs/, and the two functions below have the theorems as their contracts.
#![tactic(auto)]

ghost use Rattle.grammar.specs.Theorems.{OneDerivationOrFirstMisfit, SameMarksSameSpots};

// For every lawful set, every list of marks has exactly one derivation, or a first mark that does not fit,
// where the marks before it begin a derivation and with it begin none, or only begins a derivation.
pub fn every_list_of_marks_is_judged()
    ensures { OneDerivationOrFirstMisfit }
{}

// For every lawful set, any two derivations that begin with the same marks give these segments the same rows and loops.
pub fn same_marks_give_the_same_spots()
    ensures { SameMarksSameSpots }
{}
