ghost use Rattle.std.specs.Prelude.{◌≡◌, ℕ, suc, ◌<◌, ◌≤◌, ◌&&◌, List, [], ◌∷◌, ◌++◌, length, IfSome, if◌then◌else◌, codes, ◌==◌, nat_eq};
ghost use Rattle.std.specs.Str.{bytes_eq};
ghost use Rattle.x12.specs.Lists.{filled};
ghost use Rattle.x12.specs.Views.{plain};
ghost use Rattle.guide.specs.Meaning.{Meaning};
ghost use Rattle.placing.specs.Stages.{spot_for};
ghost use Rattle.placing.specs.Placed.{PlacedSegment};
ghost use Rattle.elements.specs.Rules.{value};
ghost use Rattle.elements.specs.Tests.{is_row_lacking};
ghost use Rattle.elements.specs.Checks.{Answers};
ghost use Rattle.seen.specs.Came.{came_before};
ghost use Rattle.seen.specs.ControlNumbers.{numbers_of as control_numbers_of};
ghost use Rattle.seen.specs.LineNumbers.{numbers_of as line_numbers_of};
ghost use Rattle.totals.specs.Tests.{totals_check};
ghost use Rattle.totals.specs.Fails.{cause_of_totals};
ghost use Rattle.totals.specs.Steps.{counted_by, sum_by_name, differs, is_unlike_close};
ghost use Rattle.totals.specs.Amounts.{is_ordered};
ghost use Rattle.totals.specs.Keeps.{repeated_by, unlike_control, totals_by};
ghost use Rattle.totals.specs.Roomy.{SmallCounts};
ghost use Rattle.totals.specs.Tally.{TallyIs};

use crate::amount::{Amount, amount_of};
use crate::controls::Controls;
use crate::counts::{Counts, is_wrong_total};
use crate::faults::TotalsFault;
use crate::open_line::{OpenLine, closes_unlike, line_behind};
use crate::used_rows::UsedRows;
use elements::limits::is_filled;
use guide::guide::Guide;
use placing::placer::Placed;
use placing::rows;
use seen::control_numbers::ControlNumbers;
use seen::line_numbers::LineNumbers;
use x12::parts::{Element, Segment};

// The totals of the segments so far.
#[derive(Drop)]
pub struct Tally<'a> {
    pub counts: Counts,
    pub controls: Controls<'a>,
    pub set_numbers: ControlNumbers<'a>,
    pub line_numbers: LineNumbers<'a>,
    pub rows: UsedRows,
    pub line: Option<OpenLine>,
}

// Whether a segment with this name is a line.
fn is_line(name: &[u8]) -> bool
    ensures { result ≡ bytes_eq name.now (codes "PO1") }
{
    matches!(name, b"PO1")
}

impl<'a> Tally<'a> {
    // Before the first segment.
    pub fn new() -> Tally<'a>
        ensures { (m : Meaning) (separator : ℕ) → TallyIs m separator [] result }
    {
        Tally {
            counts: Counts::default(),
            controls: Controls::default(),
            set_numbers: ControlNumbers::new(),
            line_numbers: LineNumbers::new(),
            rows: UsedRows::new(),
            line: None,
        }
    }

    // Whether the segment of this row and this name ends a set that lacks a row.
    pub fn lacks_row(&self, row: u8, name: &[u8]) -> bool
        ensures { (m : Meaning) (separator : ℕ) (z : List PlacedSegment) (p : PlacedSegment) → TallyIs m separator z self.now → p.1.row ≡ row → value separator p 0 ≡ name.now
            → result ≡ is_row_lacking m separator z p }
    {
        self.rows.lacks(row, name)
    }

    // The first fault of the totals at a segment that is placed so, with this name and these first two elements. A row and a name stay two values
    // here and below: placing gives the one and the segment has the other, and a type of both would be made only to be taken apart.
    fn judge<G: Guide>(
        &self,
        guide: &G,
        placed: Placed,
        segment: &Segment<'_>,
        name: &[u8],
        first: &Element<'_>,
        second: &Element<'_>,
    ) -> Result<(), TotalsFault>
        requires { SmallCounts self.now.counts }
        ensures { Answers cause_of_totals result (totals_by segment.now.number segment.now.place ((G.meaning guide.now).held && is_unlike_close self.now.line placed.outer)
            first.now.place (differs (counted_by self.now.counts placed.row name.now) first.now.bytes.now)
            (bytes_eq name.now (codes "PO1") && came_before first.now.bytes.now (line_numbers_of self.now.line_numbers))
            second.now.place (unlike_control (repeated_by self.now.controls.isa13.now self.now.controls.gs06.now self.now.controls.st02.now placed.row name.now) second.now.bytes.now)
            (filled second.now.bytes.now && differs (sum_by_name self.now.counts name.now) second.now.bytes.now)
            (placed.row == 1 && came_before second.now.bytes.now (control_numbers_of self.now.set_numbers))) }
    {
        if guide.held() && closes_unlike(self.line, placed.outer) {
            return Err(TotalsFault::UnlikeSum {
                segment: segment.number,
                place: segment.place,
            });
        }
        if is_wrong_total(self.counts.counted(placed.row, name), first.bytes) {
            return Err(TotalsFault::WrongTotal(segment.site(1, first.place)));
        }
        if is_line(name) && self.line_numbers.has(first.bytes) {
            return Err(TotalsFault::Repeated(segment.site(1, first.place)));
        }
        if self.controls.is_wrong(placed.row, name, second.bytes) {
            return Err(TotalsFault::WrongControl {
                segment: segment.number,
                place: second.place,
            });
        }
        if is_filled(second.bytes) && is_wrong_total(self.counts.summed(name), second.bytes) {
            return Err(TotalsFault::WrongTotal(segment.site(2, second.place)));
        }
        if placed.row == rows::ST && self.set_numbers.has(second.bytes) {
            return Err(TotalsFault::Repeated(segment.site(2, second.place)));
        }
        Ok(())
    }

    // Remembers the control number of a set, or the number of a line. GS begins a group, and ST a set.
    fn remember(&mut self, row: u8, amount: Amount, first: &'a [u8], second: &'a [u8])
        requires few_sets { row ≡ 1 → length (control_numbers_of self.old.set_numbers) < 256 }
        requires few_lines { length (line_numbers_of self.old.line_numbers) < 16384 }
        ensures sets { control_numbers_of self.new.set_numbers ≡ (if nat_eq row 66 then [] else control_numbers_of self.old.set_numbers) ++ (if nat_eq row 1 then second.now ∷ [] else []) }
        ensures lines { line_numbers_of self.new.line_numbers ≡ (if nat_eq row 1 then [] else line_numbers_of self.old.line_numbers) ++ (if is_ordered amount then first.now ∷ [] else []) }
        ensures others { (self.new.counts ≡ self.old.counts) × (self.new.controls ≡ self.old.controls) × (self.new.rows ≡ self.old.rows) × (self.new.line ≡ self.old.line) }
    {
        if row == rows::GS {
            self.set_numbers.clear();
        }
        if row == rows::ST {
            self.set_numbers.add(second);
            self.line_numbers.clear();
        }
        if matches!(amount, Amount::Ordered(_)) {
            self.line_numbers.add(first);
        }
    }

    // The first fault of the totals at the segment, which is placed so.
    pub fn check<G: Guide>(
        &self,
        guide: &G,
        placed: Placed,
        segment: &Segment<'_>,
    ) -> Result<(), TotalsFault>
        requires { SmallCounts self.now.counts }
        ensures { (z : List PlacedSegment) → TallyIs (G.meaning guide.now) segment.now.separator z self.now
            → Answers cause_of_totals result (totals_check (G.meaning guide.now) segment.now.separator segment.now.number z (plain segment.now, spot_for placed)) }
    {
        let name = segment.bytes_of(0);
        let first = segment.part(1);
        let second = segment.part(2);
        self.judge(guide, placed, segment, name, &first, &second)
    }

    // One segment more, which is placed so.
    pub fn add<G: Guide>(&mut self, guide: &G, placed: Placed, segment: &Segment<'a>)
        requires small_counts { SmallCounts self.old.counts }
        requires small_given { IfSome self.old.line (λ l. l.given ≤ 655370000000000) }
        requires few_sets { placed.row ≡ 1 → length (control_numbers_of self.old.set_numbers) < 256 }
        requires few_lines { length (line_numbers_of self.old.line_numbers) < 16384 }
        ensures { (z : List PlacedSegment) → segment.now.number ≡ suc (length z) → TallyIs (G.meaning guide.now) segment.now.separator z self.old
            → TallyIs (G.meaning guide.now) segment.now.separator (z ++ ((plain segment.now, spot_for placed) ∷ [])) self.new }
    {
        let first = segment.bytes_of(1);
        let second = segment.bytes_of(2);
        let amount = amount_of(segment.bytes_of(0), second);
        self.remember(placed.row, amount, first, second);
        self.counts = self.counts.behind(placed.row, amount);
        self.controls = self.controls.behind(placed.row, segment);
        self.rows.mark(guide, placed.row, second);
        self.line = line_behind(self.line, segment.number, placed.outer, amount);
    }
}
