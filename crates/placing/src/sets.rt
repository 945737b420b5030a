ghost use Rattle.std.specs.Prelude.{◌≡◌, ◌≤◌, length};

// A row in use: how often it was used, and the innermost loop of its last segment, by the segment that opens it (0: none, as in a place).
#[derive(Clone, Copy, Debug, PartialEq, Eq)]
pub struct UsedRow {
    pub row: u8,
    pub count: u32,
    pub around: usize,
}

// Where a set stands: behind the row that was taken last, with the rows in use, outermost first. The rows are an array with a depth and no vector of
// the library: a state is copied for each step that may fail, and such a vector is not Copy.
#[derive(Clone, Copy, Debug, PartialEq, Eq)]
pub struct SetState {
    pub place: u8,
    pub used: [UsedRow; 5],
    pub depth: usize,
    ghost few: { depth ≤ 5 },
    ghost whole: { length used ≡ 5 },
}

// The row that takes a segment: in how many rows it stands, how often it is used with this segment, and whether it opens a loop,
// which is named by the segment and so needs no value here.
#[derive(Clone, Copy, Debug, PartialEq, Eq)]
pub struct Choice {
    pub row: u8,
    pub depth: usize,
    pub count: u32,
    pub opens: bool,
    ghost shallow: { depth ≤ 4 },
}
