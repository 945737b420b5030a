ghost use Rattle.std.specs.Prelude.{◌≡◌, ◌+◌, drop, MatchOption};
ghost use Rattle.grammar.proofs.States.{State};
ghost use Rattle.grammar.proofs.Search.{NoRowOfDepth};
ghost use Rattle.grammar.proofs.Determined.{Refuses};
ghost use Rattle.placing.specs.Model.{table_of, least_of, greatest_of, opens_of, RowBehind, Fits, Stands, Chosen};

use crate::sets::{Choice, SetState};
use guide::guide::Guide;
use guide::rules::{Mark, Row};

// The row behind a place, if it stands in so many loops.
fn row_behind<G: Guide>(guide: &G, place: u8, depth: usize) -> Option<Row>
    ensures { MatchOption result
        (NoRowOfDepth depth (drop place (table_of (G.meaning guide.now))))
        (λ row. RowBehind (G.meaning guide.now) place depth row) }
{
    if place >= 64 {
        return None;
    }
    let row = guide.row(place + 1)?;
    if usize::from(row.depth) != depth {
        return None;
    }
    Some(row)
}

// How often a row must and may be used, and whether it opens a loop (a flag, since nothing more is asked of that). A row that the guide does not have
// is never used; a Row for it would have to make up the rest.
#[derive(Clone, Copy, Debug, PartialEq, Eq)]
struct Uses {
    least: u32,
    greatest: u32,
    opens: bool,
}

// The uses of a row; a row that the guide does not have is never used.
fn uses_of<G: Guide>(guide: &G, row: u8) -> Uses
    ensures { (result.least ≡ least_of (G.meaning guide.now) row) × (result.greatest ≡ greatest_of (G.meaning guide.now) row) × (result.opens ≡ opens_of (G.meaning guide.now) row) }
{
    match guide.row(row) {
        Some(found) => Uses {
            least: found.least,
            greatest: found.greatest,
            opens: found.inner > 0,
        },
        None => Uses {
            least: 0,
            greatest: 0,
            opens: false,
        },
    }
}

impl SetState {
    // The row that takes a segment with this mark, from where the set stands. The rows behind the place are tried first, in order; a row that must
    // still be used stops the search. Then comes the row in use around them, once more, and what lies behind it. A place and a depth change by turns,
    // so it stays a loop and is no chain over one list.
    pub(crate) fn find<G: Guide>(&self, guide: &G, mark: Mark<'_>) -> Option<Choice>
        ensures { (S : State) → Stands (G.meaning guide.now) self.now.place self.now.used self.now.depth S
            → MatchOption result (Refuses (Fits (G.meaning guide.now)) S (mark.entry.name.now, mark.entry.first.now))
            (λ choice. Chosen (G.meaning guide.now) self.now.used self.now.depth (mark.entry.name.now, mark.entry.first.now) S choice) }
    {
        let mut depth = self.depth;
        let mut place = self.place;
        loop {
            if let Some(row) = row_behind(guide, place, depth) {
                let next = place + 1;
                if guide.fits(next, mark) {
                    return Some(Choice {
                        row: next,
                        depth,
                        count: 1,
                        opens: row.inner > 0,
                    });
                }
                if row.least > 0 {
                    return None;
                }
                place = next + row.inner;
            } else {
                if depth == 0 {
                    return None;
                }
                depth -= 1;
                let used = self.used[depth];
                let uses = uses_of(guide, used.row);
                if used.count < uses.greatest && guide.fits(used.row, mark) {
                    return Some(Choice {
                        row: used.row,
                        depth,
                        count: used.count + 1,
                        opens: uses.opens,
                    });
                }
                if used.count < uses.least {
                    return None;
                }
            }
        }
    }
}
