ghost use Rattle.std.specs.Prelude.{◌≡◌};
ghost use Rattle.elements.specs.declared.faults.ElementFault.TheVariants.{Segment};
ghost use Rattle.elements.specs.Fails.{cause_of_element};

use placing::faults::SegmentFault;
use x12::faults::{Fault, Site};

// The faults of bytes, structure and elements. One that stands at the same element of every segment has no Site, since its kind says the element.
#[derive(Clone, Copy, Debug, PartialEq, Eq)]
pub enum ElementFault {
    Segment(SegmentFault),
    // A must element is empty.
    EmptyMust(Site),
    // An unused element is filled.
    FilledUnused(Site),
    // A length that the rule does not allow.
    WrongLength(Site),
    // Not of the type.
    WrongType(Site),
    // None of the codes, or a wrong pair of the first two elements of BAK.
    WrongCode(Site),
    // Empty, where a pair rule asks that it is filled.
    BrokenPair(Site),
    // SE of a set that lacks a row.
    MissingRow { segment: usize, place: usize },
}

// The number, layer, segment, element and place of the fault.
impl From<ElementFault> for Fault {
    ghost from_gives = { λ f r. r ≡ cause_of_element f };

    fn from(fault: ElementFault) -> Fault {
        match fault {
            ElementFault::Segment(lower) => Fault::from(lower),
            ElementFault::EmptyMust(at) => Fault::new(8, at),
            ElementFault::FilledUnused(at) => Fault::new(9, at),
            ElementFault::WrongLength(at) => Fault::new(10, at),
            ElementFault::WrongType(at) => Fault::new(11, at),
            ElementFault::WrongCode(at) => Fault::new(12, at),
            ElementFault::BrokenPair(at) => Fault::new(13, at),
            ElementFault::MissingRow { segment, place } => {
                Fault::new(13, Site::of_name(segment, place))
            }
        }
    }
}

impl From<SegmentFault> for ElementFault {
    ghost from_gives = { λ f r. r ≡ Segment f };

    fn from(fault: SegmentFault) -> ElementFault {
        ElementFault::Segment(fault)
    }
}
