// Judges an interchange from standard input under guide B and prints its verdict line.
#![tactic(auto)]

use guides::guide_b::GuideB;
use reading::read::read;
use results::rows::{LoopRow, SegmentRow};
use std::alloc::Global;
use std::io::{Read, Write};
use verdict::line::Line;
use verdict::telling::verdict_line;
use verdict::verdicts::Verdict;
use x12::faults::Fault;

// One byte more than an interchange may have is enough to tell that it is too long.
const MOST: u64 = 65_537;

// How many rows each result table has.
const ROWS: usize = 4096;

const NO_SEGMENT: SegmentRow = SegmentRow {
    place: 0,
    length: 0,
    row: 0,
    around: 0,
};

const NO_LOOP: LoopRow = LoopRow {
    opening: 0,
    last: 0,
    outer: 0,
    row: 0,
};

// The line of the verdict on an interchange under guide B.
fn judged(heap: Global, interchange: &[u8]) -> anyhow::Result<Line> {
    let mut segments = vec![in heap; NO_SEGMENT; ROWS]?;
    let mut loops = vec![in heap; NO_LOOP; ROWS]?;
    let answer = read(&GuideB, interchange, &mut segments, &mut loops);
    let verdict = Verdict::from(answer.map_err(Fault::from));
    Ok(verdict_line(verdict))
}

fn main(rt: HostRuntime) -> anyhow::Result<()> {
    let mut interchange = Vec::new(rt.alloc());
    let mut input = rt.stdin().take(MOST);
    input.read_to_end(&mut interchange)?;
    let line = judged(rt.alloc(), &interchange)?;
    rt.stdout().write_all(line.as_bytes())?;
    Ok(())
}
