ghost use Rattle.std.specs.Prelude.{◌≡◌};
ghost use Rattle.placing.specs.declared.faults.SegmentFault.TheVariants.{Bytes};
ghost use Rattle.elements.specs.declared.faults.ElementFault.TheVariants.{Segment};
ghost use Rattle.totals.specs.declared.faults.TotalsFault.TheVariants.{Element};
ghost use Rattle.totals.specs.Fails.{cause_of_totals};

use elements::faults::ElementFault;
use placing::faults::SegmentFault;
use x12::faults::{ByteFault, Fault, Site};

// The faults of the layers 1 to 4. One that stands at the same element of every segment has no Site, since its kind says the element.
#[derive(Clone, Copy, Debug, PartialEq, Eq)]
pub enum TotalsFault {
    Element(ElementFault),
    // A trailer does not repeat its header's control number.
    WrongControl { segment: usize, place: usize },
    // A count or a sum is wrong.
    WrongTotal(Site),
    // The sum of ACK02 of a line is not its PO102.
    UnlikeSum { segment: usize, place: usize },
    // ST02 occurs again in its group, or PO101 in its set.
    Repeated(Site),
}

// The number, layer, segment, element and place of the fault.
impl From<TotalsFault> for Fault {
    ghost from_gives = { λ f r. r ≡ cause_of_totals f };

    fn from(fault: TotalsFault) -> Fault {
        match fault {
            TotalsFault::Element(lower) => Fault::from(lower),
            TotalsFault::WrongControl { segment, place } => Fault::new(
                14,
                Site {
                    segment,
                    element: 2,
                    place,
                },
            ),
            TotalsFault::WrongTotal(at) => Fault::new(15, at),
            TotalsFault::UnlikeSum { segment, place } => {
                Fault::new(16, Site::of_name(segment, place))
            }
            TotalsFault::Repeated(at) => Fault::new(17, at),
        }
    }
}

impl From<ElementFault> for TotalsFault {
    ghost from_gives = { λ f r. r ≡ Element f };

    fn from(fault: ElementFault) -> TotalsFault {
        TotalsFault::Element(fault)
    }
}

impl From<SegmentFault> for TotalsFault {
    ghost from_gives = { λ f r. r ≡ Element (Segment f) };

    fn from(fault: SegmentFault) -> TotalsFault {
        TotalsFault::from(ElementFault::from(fault))
    }
}

impl From<ByteFault> for TotalsFault {
    ghost from_gives = { λ f r. r ≡ Element (Segment (Bytes f)) };

    fn from(fault: ByteFault) -> TotalsFault {
        TotalsFault::from(SegmentFault::from(fault))
    }
}
