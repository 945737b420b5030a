ghost use Rattle.std.specs.Prelude.{◌≡◌, ◌≤◌, List, length};
ghost use Rattle.x12.specs.Views.{plain};
ghost use Rattle.placing.specs.Stages.{spot_for};
ghost use Rattle.placing.specs.Placed.{PlacedSegment};
ghost use Rattle.results.specs.Rows.{row_shown, Fitting};
ghost use Rattle.results.specs.Steps.{row_with_name, OpensNext, Begun};

use crate::rows::{LoopRow, SegmentRow};
use guide::guide::Guide;
use placing::marks::mark_of;
use placing::placer::{Placed, Placer};
use placing::rows;
use x12::parts::{Interchange, Segment};

// How many rows of each table are written.
#[derive(Clone, Copy, Debug, PartialEq, Eq)]
pub(crate) struct Counts {
    pub(crate) segments: usize,
    pub(crate) loops: usize,
}

// The guide row that is shown: 0 for the rows of the envelope, which come behind all rows of a guide.
fn shown_row(row: u8) -> u8
    ensures { result ≡ row_shown row }
{
    if row < rows::ISA { row } else { 0 }
}

// The row of a segment in its place; the loop that its guide row stands in still goes by its opening segment.
fn named_row(segment: &Segment<'_>, placed: Placed) -> SegmentRow
    ensures { result ≡ row_with_name (plain segment.now, spot_for placed) }
{
    SegmentRow {
        place: segment.place,
        length: segment.bytes.len(),
        row: shown_row(placed.row),
        around: placed.outer,
    }
}

// Writes the row of the loop that segment `number` opens, if it opens one and there is room. How many loops are written then.
fn open_loop(loops: &mut [LoopRow], opened: usize, number: usize, placed: Placed) -> usize
    ensures { OpensNext loops.old opened number placed loops.new result }
{
    if placed.around != number || opened >= loops.len() {
        return opened;
    }
    loops[opened] = LoopRow {
        opening: number,
        last: number,
        outer: placed.outer,
        row: placed.row,
    };
    opened + 1
}

// Writes a row for each segment and for each loop that is opened; loops go by their opening segments, and are not closed.
pub(crate) fn write_rows<G: Guide>(
    guide: &G,
    interchange: &Interchange<'_>,
    segments: &mut [SegmentRow],
    loops: &mut [LoopRow],
) -> Counts
    ensures within { (result.segments ≤ length segments.old) × (result.loops ≤ length loops.old) }
    ensures begun { (z : List PlacedSegment)
        → Fitting (G.meaning guide.now) interchange.now.bytes.now interchange.now.delimiters.terminator interchange.now.delimiters.separator (length segments.old) (length loops.old) z
        → Begun z segments.old loops.old segments.new loops.new result }
{
    let mut placer = Placer::start();
    let mut counts = Counts {
        segments: 0,
        loops: 0,
    };
    // Two iterators side by side: the check does not cover a zip of segments, which have a ghost field, with rows that are lent to be written.
    let mut ahead = interchange.segments();
    for row in segments.iter_mut() {
        let Some(segment) = ahead.next() else {
            break;
        };
        let Some(placed) = placer.place(guide, segment.number, mark_of(&segment)) else {
            break;
        };
        *row = named_row(&segment, placed);
        counts = Counts {
            segments: segment.number,
            loops: open_loop(loops, counts.loops, segment.number, placed),
        };
    }
    counts
}
