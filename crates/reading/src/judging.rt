//! The judgment of an interchange, segment by segment.
ghost use Rattle.std.specs.Prelude.{◌≡◌, List, Ok, MatchResult};
ghost use Rattle.x12.specs.Header.{separator_of, component_of, terminator_of};
ghost use Rattle.x12.specs.Checks.{header_check};
ghost use Rattle.x12.specs.Rank.{First};
ghost use Rattle.totals.specs.Fails.{cause_of_totals};
ghost use Rattle.reading.specs.Met.{Met};
ghost use Rattle.reading.specs.Judgment.{JudgedSo};

use crate::turns::judge_segment;
use guide::guide::Guide;
use placing::faults::SegmentFault;
use placing::placer::Placer;
use totals::faults::TotalsFault;
use totals::tally::Tally;
use verdict::verdicts::Totals;
use x12::parts::Interchange;

// What a sound interchange amounts to: its totals, and how many loops it has.
#[derive(Clone, Copy, Debug, PartialEq, Eq)]
pub(crate) struct Judgment {
    pub totals: Totals,
    pub loops: usize,
}

// The first fault of the layers 1 to 4 that the interchange meets, or what it amounts to.
pub(crate) fn judge<G: Guide>(
    guide: &G,
    interchange: &Interchange<'_>,
) -> Result<Judgment, TotalsFault>
    requires sound { header_check interchange.now.bytes.now ≡ Ok tt }
    requires delimited { (interchange.now.delimiters.separator ≡ separator_of interchange.now.bytes.now) × ((interchange.now.delimiters.component ≡ component_of interchange.now.bytes.now) × (interchange.now.delimiters.terminator ≡ terminator_of interchange.now.bytes.now)) }
    ensures { MatchResult result
        (λ j. JudgedSo (G.meaning guide.now) interchange.now.bytes.now j)
        (λ f. First (Met (G.meaning guide.now) interchange.now.bytes.now) (cause_of_totals f)) }
{
    let mut placer = Placer::start();
    let mut tally = Tally::new();
    let mut count = 0;
    let mut loops = 0;
    for segment in interchange.segments() {
        let placed = judge_segment(guide, &mut placer, &mut tally, &segment)?;
        count = segment.number;
        if placed.around == count {
            loops += 1;
        }
    }
    if !placer.is_whole() {
        return Err(TotalsFault::from(SegmentFault::Incomplete {
            segment: count + 1,
            place: interchange.bytes.len(),
        }));
    }
    let totals = Totals {
        segments: count,
        sets: tally.counts.sets,
        lines: tally.counts.lines,
        sum: tally.counts.sum,
    };
    Ok(Judgment { totals, loops })
}
