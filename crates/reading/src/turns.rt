//! One segment: its bytes, its place, its elements and its totals.
ghost use Rattle.std.specs.Prelude.{◌≡◌, ℕ, suc, ◌+◌, ◌^◌, ◌<◌, ◌≤◌, List, length, Ok, Option};
ghost use Rattle.x12.specs.Lists.{and_then};
ghost use Rattle.x12.specs.Views.{plain};
ghost use Rattle.placing.specs.declared.placer.Placed.{Placed as PlacedAt};
ghost use Rattle.placing.specs.Stages.{spot_for};
ghost use Rattle.placing.specs.Placing.{PlacesNext};
ghost use Rattle.placing.specs.Structure.{mark_in, cause_of_segment};
ghost use Rattle.placing.specs.Placed.{PlacedSegment};
ghost use Rattle.elements.specs.Tests.{is_row_lacking};
ghost use Rattle.elements.specs.Checks.{elements_check};
ghost use Rattle.elements.specs.Fails.{cause_of_element};
ghost use Rattle.totals.specs.Tally.{TallyIs};
ghost use Rattle.reading.specs.Turns.{AnswersWith, place_check, Stands, TurnIs};

use elements::checks::check_elements;
use elements::faults::ElementFault;
use guide::guide::Guide;
use placing::faults::SegmentFault;
use placing::marks::mark_of;
use placing::placer::{Placed, Placer};
use totals::faults::TotalsFault;
use totals::tally::Tally;
use x12::parts::Segment;

// Guide, placer and tally stay three parameters: they are lent for one turn, two of them to be changed, and each is asked by itself where the segments
// end.

// The bytes of the segment, and its place.
fn place_segment<G: Guide>(
    guide: &G,
    placer: &mut Placer,
    segment: &Segment<'_>,
) -> Result<Placed, SegmentFault>
    ensures { (o : Option PlacedAt)
        × PlacesNext (G.meaning guide.now) placer.old placer.new segment.now.number (mark_in segment.now.separator (plain segment.now)) o
        × AnswersWith cause_of_segment result (place_check segment.now.separator segment.now.component segment.now.number (plain segment.now) o) }
{
    let placed = placer.place(guide, segment.number, mark_of(segment));
    segment.check()?;
    placed.ok_or(SegmentFault::Misplaced {
        segment: segment.number,
        place: segment.place,
    })
}

// The bytes of the segment, its place and its elements.
fn judge_elements<G: Guide>(
    guide: &G,
    placer: &mut Placer,
    tally: &Tally<'_>,
    segment: &Segment<'_>,
) -> Result<Placed, ElementFault>
    ensures { (o : Option PlacedAt)
        × PlacesNext (G.meaning guide.now) placer.old placer.new segment.now.number (mark_in segment.now.separator (plain segment.now)) o
        × ((z : List PlacedSegment) → TallyIs (G.meaning guide.now) segment.now.separator z tally.now
        → AnswersWith cause_of_element result (and_then (place_check segment.now.separator segment.now.component segment.now.number (plain segment.now) o)
        (λ placed. and_then (elements_check (G.meaning guide.now) segment.now.separator segment.now.number (is_row_lacking (G.meaning guide.now) segment.now.separator z (plain segment.now, spot_for placed)) placed.row (plain segment.now))
        (λ u. Ok placed)))) }
{
    let placed = place_segment(guide, placer, segment)?;
    let lacking = tally.lacks_row(placed.row, segment.bytes_of(0));
    check_elements(guide, lacking, placed.row, segment)?;
    Ok(placed)
}

// The turn of a segment: its bytes, its place, its elements and its totals. Where it passes, placing and the tally go on by it.
pub(crate) fn judge_segment<'a, G: Guide>(
    guide: &G,
    placer: &mut Placer,
    tally: &mut Tally<'a>,
    segment: &Segment<'a>,
) -> Result<Placed, TotalsFault>
    requires { (z : List PlacedSegment) × Stands (G.meaning guide.now) segment.now.separator segment.now.number z placer.old tally.old }
    ensures { (z : List PlacedSegment) → Stands (G.meaning guide.now) segment.now.separator segment.now.number z placer.old tally.old
        → TurnIs (G.meaning guide.now) segment.now.separator segment.now.component segment.now.number z (plain segment.now) placer.new tally.new result }
{
    let placed = judge_elements(guide, placer, tally, segment)?;
    tally.check(guide, placed, segment)?;
    tally.add(guide, placed, segment);
    Ok(placed)
}
