ghost use Rattle.std.specs.Prelude.{List, length};
ghost use Rattle.placing.specs.Placed.{PlacedSegment};
ghost use Rattle.results.specs.Rows.{Fitting, Filled};

use crate::close::close_loops;
use crate::number::number_loops;
use crate::rows::{LoopRow, SegmentRow};
use crate::write::write_rows;
use guide::guide::Guide;
use x12::parts::Interchange;

// Fills the result tables of an interchange that has a derivation, with the rows of its segments and loops; the rows behind stay as they were.
pub fn fill<G: Guide>(
    guide: &G,
    interchange: &Interchange<'_>,
    segments: &mut [SegmentRow],
    loops: &mut [LoopRow],
)
    ensures { (z : List PlacedSegment)
        → Fitting (G.meaning guide.now) interchange.now.bytes.now interchange.now.delimiters.terminator interchange.now.delimiters.separator (length segments.old) (length loops.old) z
        → Filled z segments.old loops.old segments.new loops.new }
{
    let counts = write_rows(guide, interchange, segments, loops);
    let segment_rows = &mut segments[..counts.segments];
    let loop_rows = &mut loops[..counts.loops];
    close_loops(segment_rows, loop_rows);
    number_loops(segment_rows, loop_rows);
}
