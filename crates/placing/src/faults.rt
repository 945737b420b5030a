ghost use Rattle.std.specs.Prelude.{◌≡◌};
ghost use Rattle.placing.specs.declared.faults.SegmentFault.TheVariants.{Bytes};
ghost use Rattle.placing.specs.Structure.{cause_of_segment};

use x12::faults::{ByteFault, Fault, Site};

// The faults of bytes and of structure. One that stands at the same element of every segment has no Site, since its kind says the element.
#[derive(Clone, Copy, Debug, PartialEq, Eq)]
pub enum SegmentFault {
    Bytes(ByteFault),
    // No row takes the segment.
    Misplaced { segment: usize, place: usize },
    // The input ends before IEA.
    Incomplete { segment: usize, place: usize },
}

// The number, layer, segment, element and place of the fault; one of structure stands at element 0.
impl From<SegmentFault> for Fault {
    ghost from_gives = { λ f r. r ≡ cause_of_segment f };

    fn from(fault: SegmentFault) -> Fault {
        match fault {
            SegmentFault::Bytes(bytes) => Fault::from(bytes),
            SegmentFault::Misplaced { segment, place } => Fault::new(
                6,
                Site::of_name(segment, place),
            ),
            SegmentFault::Incomplete { segment, place } => Fault::new(
                7,
                Site::of_name(segment, place),
            ),
        }
    }
}

impl From<ByteFault> for SegmentFault {
    ghost from_gives = { λ f r. r ≡ Bytes f };

    fn from(fault: ByteFault) -> SegmentFault {
        SegmentFault::Bytes(fault)
    }
}
