ghost use Rattle.std.specs.Prelude.{◌≡◌, suc, ◌≤◌, true, false, set as write, if◌then◌else◌, Some, MatchOption};
ghost use Rattle.guide.specs.Asked.{fits_row};
ghost use Rattle.placing.specs.Model.{loop_with, around_of};
ghost use Rattle.placing.specs.declared.phase.Phase.TheVariants.{Closed, Set};
ghost use Rattle.placing.specs.Turns.{is2};
ghost use Rattle.placing.specs.Stages.{Steps, SetBegins, marked};

use crate::phase::Phase;
use crate::placer::{Placed, Placer, Step};
use crate::rows;
use crate::sets::{Choice, SetState, UsedRow};
use crate::turn::{Turn, turn_of};
use guide::guide::Guide;
use guide::rules::Mark;

impl SetState {
    // The loop that a row at this depth stands in.
    fn loop_at(&self, depth: usize) -> usize
        requires { depth ≤ 4 }
        ensures { result ≡ loop_with self.now.used depth }
    {
        if depth == 0 {
            0
        } else {
            self.used[depth - 1].around
        }
    }

    // The place of a segment that takes the chosen row.
    fn place_in(&self, choice: Choice, segment: usize) -> Placed
        ensures { result ≡ record { row = choice.row; around = around_of self.now.used choice segment; outer = loop_with self.now.used choice.depth } }
    {
        let outer = self.loop_at(choice.depth);
        let around = if choice.opens { segment } else { outer };
        Placed {
            row: choice.row,
            around,
            outer,
        }
    }

    // The set once a segment took the chosen row, with the innermost loop of that segment.
    fn take_row(&self, choice: Choice, around: usize) -> SetState
        ensures { (result.place ≡ choice.row) × (result.used ≡ write self.now.used choice.depth (record { row = choice.row; count = choice.count; around = around })) × (result.depth ≡ suc choice.depth) }
    {
        let mut used = self.used;
        used[choice.depth] = UsedRow {
            row: choice.row,
            count: choice.count,
            around,
        };
        SetState {
            place: choice.row,
            used,
            depth: choice.depth + 1,
        }
    }
}

// SE closes a set.
fn phase_behind(name: &[u8]) -> Phase
    ensures { result ≡ (if is2 name.now 83 69 then Closed else Set) }
{
    match name {
        b"SE" => Phase::Closed,
        _ => Phase::Set,
    }
}

// The place of a segment of the envelope.
fn outside(row: u8) -> Placed
    ensures { result ≡ record { row = row; around = 0; outer = 0 } }
{
    Placed {
        row,
        around: 0,
        outer: 0,
    }
}

impl Placer {
    // A segment inside a set: its row is searched, and SE closes the set.
    fn inside<G: Guide>(&self, guide: &G, segment: usize, mark: Mark<'_>) -> Option<Step>
        ensures { self.now.phase ≡ Set → Steps (G.meaning guide.now) self.now segment (marked mark.entry) result }
    {
        let choice = self.set.find(guide, mark)?;
        let placed = self.set.place_in(choice, segment);
        let set = self.set.take_row(choice, placed.around);
        let phase = phase_behind(mark.name);
        Some(Step {
            placed,
            placer: Placer {
                phase,
                set,
                ..*self
            },
        })
    }

    // ST begins a set, if the guide takes it.
    fn begin_set<G: Guide>(&self, guide: &G, sets: u32, mark: Mark<'_>) -> Option<Step>
        ensures { MatchOption result (fits_row (G.meaning guide.now) 1 mark.entry.name.now mark.entry.first.now ≡ false)
            (λ step. (fits_row (G.meaning guide.now) 1 mark.entry.name.now mark.entry.first.now ≡ true) × SetBegins self.now.groups sets step) }
    {
        if !guide.fits(rows::ST, mark) {
            return None;
        }
        let set = SetState {
            place: rows::ST,
            used: self.set.used,
            depth: 0,
        };
        Some(Step {
            placed: outside(rows::ST),
            placer: Placer {
                phase: Phase::Set,
                sets,
                set,
                ..*self
            },
        })
    }

    // A segment of the envelope has its place, and the interchange stands in another phase.
    fn pass(&self, row: u8, phase: Phase, groups: u32) -> Step
        ensures { result ≡ record { placed = record { row = row; around = 0; outer = 0 }; placer = record { phase = phase; groups = groups; sets = self.now.sets; set = self.now.set } } }
    {
        Step {
            placed: outside(row),
            placer: Placer {
                phase,
                groups,
                ..*self
            },
        }
    }

    // The place of the segment with this number, by its mark, and the state behind it; none where no row takes it. The turn is told
    // apart first, by a definition of its own: a match on phase and name at once would leave its last arm to say again what is left for each phase.
    pub(crate) fn next_step<G: Guide>(
        &self,
        guide: &G,
        segment: usize,
        mark: Mark<'_>,
    ) -> Option<Step>
        ensures { Steps (G.meaning guide.now) self.now segment (marked mark.entry) result }
    {
        match turn_of(self.phase, mark.name) {
            Turn::Isa => Some(self.pass(rows::ISA, Phase::Header, 0)),
            Turn::FirstGs => Some(self.pass(rows::GS, Phase::Group, 1)),
            Turn::NextGs => {
                if self.groups >= 99 {
                    return None;
                }
                Some(self.pass(rows::GS, Phase::Group, self.groups + 1))
            }
            Turn::FirstSt => self.begin_set(guide, 1, mark),
            Turn::NextSt => {
                if self.sets >= 256 {
                    return None;
                }
                self.begin_set(guide, self.sets + 1, mark)
            }
            Turn::Ge => Some(self.pass(rows::GE, Phase::Trailer, self.groups)),
            Turn::Iea => Some(self.pass(rows::IEA, Phase::End, self.groups)),
            Turn::Inside => self.inside(guide, segment, mark),
            Turn::Nowhere => None,
        }
    }
}
