ghost use Rattle.std.specs.Prelude.{◌≡◌, MatchResult};
ghost use Rattle.verdict.specs.declared.verdicts.Verdict.TheVariants.{Accepted, Refused};

use x12::faults::Fault;

// What an accepted interchange amounts to: its segments, its sets, its PO1 lines, and the sum of PO102.
#[derive(Clone, Copy, Debug, PartialEq, Eq)]
pub struct Totals {
    pub segments: usize,
    pub sets: usize,
    pub lines: usize,
    pub sum: u64,
}

// The verdict on an interchange: accepted with its totals, or refused for a fault.
// Not a Result, whose shape it has: it is the public answer, with a name and a Display of its own, and a refusal is no failure.
#[derive(Clone, Copy, Debug, PartialEq, Eq)]
pub enum Verdict {
    Accepted(Totals),
    Refused(Fault),
}

// Totals are accepted, and a fault is refused.
impl From<Result<Totals, Fault>> for Verdict {
    ghost from_gives = { λ r v. MatchResult r (λ t. v ≡ Accepted t) (λ f. v ≡ Refused f) };

    fn from(answer: Result<Totals, Fault>) -> Verdict {
        match answer {
            Ok(totals) => Verdict::Accepted(totals),
            Err(fault) => Verdict::Refused(fault),
        }
    }
}
