ghost use Rattle.std.specs.Prelude.{◌≡◌, suc, List, ◌∷◌, ◌++◌, length, MatchBool};
ghost use Rattle.placing.specs.Placed.{PlacedSegment, spots_in};
ghost use Rattle.results.specs.declared.rows.SegmentRow.{SegmentRow as Row};
ghost use Rattle.results.specs.Rows.{rows_of_segments, rows_of_loops};
ghost use Rattle.results.specs.Steps.{named_rows, closed_rows, OpenedAt, Named};

use crate::rows::{LoopRow, SegmentRow};

// The number of the loop that segment `opening` opened, where its row has its loop by number. 0 for no segment.
fn loop_at(segments: &[SegmentRow], opening: usize) -> usize
    ensures none { opening ≡ 0 → result ≡ 0 }
    ensures some { (front : List Row) (s : Row) (behind : List Row) → segments.now ≡ front ++ (s ∷ behind) → opening ≡ suc (length front) → result ≡ s.around }
{
    if opening == 0 || opening > segments.len() {
        return 0;
    }
    segments[opening - 1].around
}

// Whether the next loop of the table is the one that segment `number` opens.
fn opens(loops: &[LoopRow], next: usize, number: usize) -> bool
    ensures { MatchBool result (OpenedAt loops.now next number) (OpenedAt loops.now next number → ⊥) }
{
    loops.get(next).is_some_and(|row| row.opening == number)
}

// Gives every loop its number in place of its opening segment. It counts by index, since each turn writes one row and reads an earlier one, which no
// iterator over the rows lends at once.
pub(crate) fn number_loops(segments: &mut [SegmentRow], loops: &mut [LoopRow])
    ensures { (z : List PlacedSegment) → Named (spots_in z) → segments.old ≡ named_rows z → loops.old ≡ closed_rows z
        → (segments.new ≡ rows_of_segments z) × (loops.new ≡ rows_of_loops z) }
{
    let mut opened = 0;
    for i in 0..segments.len() {
        let outer = loop_at(segments, segments[i].around);
        if !opens(loops, opened, i + 1) {
            segments[i].around = outer;
            continue;
        }
        loops[opened].outer = outer;
        opened += 1;
        segments[i].around = opened;
    }
}
