use crate::phase::Phase;
use crate::sets::SetState;

// A segment in its place: its row, its innermost loop and the loop that its row stands in, each named by the segment that opens it. 0 is none and no
// Option, as in the spots of a derivation: so a place is such a spot as it stands, and the two are compared by numbers.
#[derive(Clone, Copy, Debug, PartialEq, Eq)]
pub struct Placed {
    pub row: u8,
    pub around: usize,
    pub outer: usize,
}

// The state of placing: the phase, how many groups were begun and how many sets of the group, and where the set stands.
#[derive(Clone, Copy, Debug, PartialEq, Eq)]
pub struct Placer {
    pub phase: Phase,
    pub groups: u32,
    pub sets: u32,
    pub set: SetState,
}

// A segment's place, and the state behind it.
#[derive(Clone, Copy, Debug, PartialEq, Eq)]
pub struct Step {
    pub placed: Placed,
    pub placer: Placer,
}
