ghost use Rattle.std.specs.Prelude.{[]};
ghost use Rattle.guide.specs.Meaning.{Meaning};
ghost use Rattle.placing.specs.Stages.{marked};
ghost use Rattle.placing.specs.Placing.{HasPlaced, PlacesNext, TellsWhole};

use crate::phase::Phase;
use crate::placer::{Placed, Placer};
use crate::sets::{SetState, UsedRow};
use guide::guide::Guide;
use guide::rules::Mark;

impl Placer {
    // Before the first segment of an interchange.
    pub fn start() -> Placer
        ensures { (m : Meaning) → HasPlaced m result [] }
    {
        let none = UsedRow {
            row: 0,
            count: 0,
            around: 0,
        };
        let set = SetState {
            place: 0,
            used: [none; 5],
            depth: 0,
        };
        Placer {
            phase: Phase::Start,
            groups: 0,
            sets: 0,
            set,
        }
    }

    // The place of the next segment, which has this number and this mark. None: no derivation goes on so, and the placer stays.
    pub fn place<G: Guide>(&mut self, guide: &G, segment: usize, mark: Mark<'_>) -> Option<Placed>
        ensures { PlacesNext (G.meaning guide.now) self.old self.new segment (marked mark.entry) result }
    {
        let step = self.next_step(guide, segment, mark)?;
        *self = step.placer;
        Some(step.placed)
    }

    // Whether the segments so far are a whole interchange.
    pub fn is_whole(&self) -> bool
        ensures { TellsWhole self.now result }
    {
        matches!(self.phase, Phase::End)
    }
}
