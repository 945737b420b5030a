ghost use Rattle.std.specs.Prelude.{◌≡◌, length, MatchResult};
ghost use Rattle.x12.specs.Header.{separator_of, terminator_of};
ghost use Rattle.x12.specs.Segments.{segments_of};
ghost use Rattle.x12.specs.Rank.{First, NoneOf};
ghost use Rattle.placing.specs.Structure.{StructureMet, SegmentMet, cause_of_segment};

use crate::faults::SegmentFault;
use crate::marks::mark_of;
use crate::placer::Placer;
use guide::guide::Guide;
use x12::faults::Fault;
use x12::parts::Interchange;
use x12::scans::scan;

// The segments of an interchange, placed one after the other: how many they are, or the fault of structure that is met.
fn place_segments<G: Guide>(guide: &G, interchange: &Interchange<'_>) -> Result<usize, SegmentFault>
    ensures { interchange.now.delimiters.terminator ≡ terminator_of interchange.now.bytes.now → interchange.now.delimiters.separator ≡ separator_of interchange.now.bytes.now
        → MatchResult result
        (λ n. NoneOf (StructureMet (G.meaning guide.now) interchange.now.bytes.now) × (n ≡ length (segments_of interchange.now.bytes.now)))
        (λ f. First (StructureMet (G.meaning guide.now) interchange.now.bytes.now) (cause_of_segment f)) }
{
    let mut placer = Placer::start();
    let mut count = 0;
    for segment in interchange.segments() {
        count = segment.number;
        placer
            .place(guide, count, mark_of(&segment))
            .ok_or(SegmentFault::Misplaced {
                segment: count,
                place: segment.place,
            })?;
    }
    if !placer.is_whole() {
        return Err(SegmentFault::Incomplete {
            segment: count + 1,
            place: interchange.bytes.len(),
        });
    }
    Ok(count)
}

// How many segments an interchange has that meets no fault of bytes or of structure under the guide; else the first of these faults that it meets.
pub fn check_structure<G: Guide>(guide: &G, interchange: &[u8]) -> Result<usize, SegmentFault>
    ensures { MatchResult result
        (λ n. NoneOf (SegmentMet (G.meaning guide.now) interchange.now) × (n ≡ length (segments_of interchange.now)))
        (λ f. First (SegmentMet (G.meaning guide.now) interchange.now) (cause_of_segment f)) }
{
    let read = Interchange::read(interchange)?;
    let placed = place_segments(guide, &read);
    let Err(bytes) = scan(interchange) else {
        return placed;
    };
    if let Err(misfit) = placed {
        if Fault::from(misfit).segment < Fault::from(bytes).segment {
            return Err(misfit);
        }
    }
    Err(SegmentFault::Bytes(bytes))
}
