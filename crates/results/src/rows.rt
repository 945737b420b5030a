// The two tables are lent side by side and not as one value: they are the caller's, each of its own length.
//
// In both tables 0 stands for none and no Option, since these are the numbers that a reading hands out: it tells rows and loops from 1 on.

// A segment in the result table: the place of its first byte, the number of its bytes without the terminator, the number of its guide row
// (0 for ISA, GS, GE and IEA), and the number of its innermost loop (0: none).
#[derive(Clone, Copy, Debug, PartialEq, Eq)]
pub struct SegmentRow {
    pub place: usize,
    pub length: usize,
    pub row: u8,
    pub around: usize,
}

// A loop in the result table: the numbers of the segment that opens it and of its last segment, the number of the loop that it stands in (0: none),
// and the guide row that opens it.
#[derive(Clone, Copy, Debug, PartialEq, Eq)]
pub struct LoopRow {
    pub opening: usize,
    pub last: usize,
    pub outer: usize,
    pub row: u8,
}
