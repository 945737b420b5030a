ghost use Rattle.std.specs.Prelude.{◌≡◌};
ghost use Rattle.placing.specs.declared.faults.SegmentFault.TheVariants.{Bytes};
ghost use Rattle.elements.specs.declared.faults.ElementFault.TheVariants.{Segment};
ghost use Rattle.totals.specs.declared.faults.TotalsFault.TheVariants.{Element};
ghost use Rattle.reading.specs.declared.faults.ReadingFault.TheVariants.{Judged};
ghost use Rattle.reading.specs.Promise.{cause_of_reading};

use totals::faults::TotalsFault;
use x12::faults::{ByteFault, Fault, Site};

// Why a reading is refused.
#[derive(Clone, Copy, Debug, PartialEq, Eq)]
pub enum ReadingFault {
    // A fault of the layers 1 to 4.
    Judged(TotalsFault),
    // More segments or loops than rows for them.
    FewRows,
}

// The number, layer, segment, element and place of the fault.
impl From<ReadingFault> for Fault {
    ghost from_gives = { λ f r. r ≡ cause_of_reading f };

    fn from(fault: ReadingFault) -> Fault {
        match fault {
            ReadingFault::Judged(lower) => Fault::from(lower),
            ReadingFault::FewRows => Fault::new(23, Site::of_name(0, 0)),
        }
    }
}

impl From<TotalsFault> for ReadingFault {
    ghost from_gives = { λ f r. r ≡ Judged f };

    fn from(fault: TotalsFault) -> ReadingFault {
        ReadingFault::Judged(fault)
    }
}

impl From<ByteFault> for ReadingFault {
    ghost from_gives = { λ f r. r ≡ Judged (Element (Segment (Bytes f))) };

    fn from(fault: ByteFault) -> ReadingFault {
        ReadingFault::from(TotalsFault::from(fault))
    }
}
