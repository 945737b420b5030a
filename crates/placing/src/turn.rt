ghost use Rattle.std.specs.Prelude.{◌≡◌};
ghost use Rattle.placing.specs.Turns.{turn_of};

use crate::phase::Phase;

// What a segment does to an interchange, by its name: which segment of the envelope it is, or that it stands inside a set, or that it has no place.
#[derive(Clone, Copy, Debug, PartialEq, Eq)]
pub enum Turn {
    Isa,
    FirstGs,
    NextGs,
    FirstSt,
    NextSt,
    Ge,
    Iea,
    Inside,
    Nowhere,
}

// What the segment with this name does, from this phase on. See Placer::next_step for why it is told apart here.
pub(crate) fn turn_of(phase: Phase, name: &[u8]) -> Turn
    ensures { result ≡ turn_of phase name.now }
{
    match (phase, name) {
        (Phase::Start, b"ISA") => Turn::Isa,
        (Phase::Header, b"GS") => Turn::FirstGs,
        (Phase::Group, b"ST") => Turn::FirstSt,
        (Phase::Set, _) => Turn::Inside,
        (Phase::Closed, b"ST") => Turn::NextSt,
        (Phase::Closed, b"GE") => Turn::Ge,
        (Phase::Trailer, b"GS") => Turn::NextGs,
        (Phase::Trailer, b"IEA") => Turn::Iea,
        _ => Turn::Nowhere,
    }
}
