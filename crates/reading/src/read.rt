//! Reading an interchange under a guide.
ghost use Rattle.reading.specs.Promise.{ReadingIs};

use crate::faults::ReadingFault;
use crate::judging::judge;
use guide::guide::Guide;
use results::fill::fill;
use results::rows::{LoopRow, SegmentRow};
use verdict::verdicts::Totals;
use x12::parts::Interchange;

// Judges the interchange under the guide. Where it is accepted, the two tables hold its derivation; where it is refused, they stay as they were.
pub fn read<G: Guide>(
    guide: &G,
    interchange: &[u8],
    segments: &mut [SegmentRow],
    loops: &mut [LoopRow],
) -> Result<Totals, ReadingFault>
    ensures { ReadingIs (G.meaning guide.now) interchange.now segments.old segments.new loops.old loops.new result }
{
    let read = Interchange::read(interchange)?;
    let judgment = judge(guide, &read)?;
    if judgment.totals.segments > segments.len() || judgment.loops > loops.len() {
        return Err(ReadingFault::FewRows);
    }
    fill(guide, &read, segments, loops);
    Ok(judgment.totals)
}
