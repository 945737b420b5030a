ghost use Rattle.std.specs.Prelude.{◌≡◌, map, drop, nat_le};
ghost use Rattle.std.specs.List.{prefix_len};
ghost use Rattle.results.specs.Steps.{last_by, close_by};

use crate::rows::{LoopRow, SegmentRow};

// How many rows from the first on stand in a loop that was opened at segment `opening` or later, one after the other.
fn rows_passed(rows: &[SegmentRow], opening: usize) -> usize
    ensures { result ≡ prefix_len (λ s. nat_le opening s.around) rows.now }
{
    rows.iter().take_while(|row| row.around >= opening).count()
}

// How many rows behind segment `opening` stand in a loop that was opened there or later, one after the other: by a part of the rows, since
// `skip` walks over all that it leaves out.
fn rows_within(segments: &[SegmentRow], opening: usize) -> usize
    ensures { result ≡ prefix_len (λ s. nat_le opening s.around) (drop opening segments.now) }
{
    match segments.split_at_checked(opening) {
        Some((_, behind)) => rows_passed(behind, opening),
        None => 0,
    }
}

// The last segment of the loop that segment `opening` opens: it goes on as long as rows stand in a loop that was opened there or later.
fn last_segment(segments: &[SegmentRow], opening: usize) -> usize
    ensures { result ≡ last_by opening opening (drop opening segments.now) }
{
    opening + rows_within(segments, opening)
}

// Writes the last segment of each loop.
pub(crate) fn close_loops(segments: &[SegmentRow], loops: &mut [LoopRow])
    ensures { loops.new ≡ map (close_by segments.now) loops.old }
{
    for row in loops.iter_mut() {
        row.last = last_segment(segments, row.opening);
    }
}
