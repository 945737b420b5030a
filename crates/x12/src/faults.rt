ghost use Rattle.std.specs.Prelude.{◌≡◌, Some};
ghost use Rattle.x12.specs.Causes.{layer_of, fault, cause_of};
ghost use Rattle.x12.specs.Told.{numbers_of};

use std::fmt;

// What a refusal says: its number, its layer, the segment and the element that it stands at, and the byte place. The verdict line tells these
// five numbers, and they are compared as numbers; what is refused is said by the enums of faults.
#[derive(Clone, Copy, Debug, PartialEq, Eq)]
pub struct Fault {
    pub number: u8,
    pub layer: u8,
    pub segment: usize,
    pub element: usize,
    pub place: usize,
}

// The layer that has the refusal with this number.
fn layer(number: u8) -> u8
    ensures { result ≡ layer_of number }
{
    match number {
        0..=5 => 1,
        6..=7 => 2,
        8..=13 => 3,
        14..=17 => 4,
        18..=22 => 5,
        _ => 6,
    }
}

// Where a fault stands: at an element of a segment, both by number, and at a byte.
#[derive(Clone, Copy, Debug, PartialEq, Eq)]
pub struct Site {
    pub segment: usize,
    pub element: usize,
    pub place: usize,
}

impl Site {
    // A segment's name, which is its element 0.
    pub fn of_name(segment: usize, place: usize) -> Site
        ensures { result ≡ record { segment = segment; element = 0; place = place } }
    {
        Site {
            segment,
            element: 0,
            place,
        }
    }
}

impl Fault {
    // The refusal with this number, which stands there.
    pub fn new(number: u8, at: Site) -> Fault
        ensures { result ≡ fault number at.segment at.element at.place }
    {
        Fault {
            number,
            layer: layer(number),
            segment: at.segment,
            element: at.element,
            place: at.place,
        }
    }
}

// The five numbers in decimal, with one space between two.
impl fmt::Display for Fault {
    ghost output = { λ f. Some (numbers_of f) };

    fn fmt<W: fmt::Write>(&self, f: &mut fmt::Formatter<W>) -> fmt::Result {
        let Fault {
            number,
            layer,
            segment,
            element,
            place,
        } = *self;
        write!(f, "{number} {layer} {segment} {element} {place}")
    }
}

// The faults of the byte layer. One that stands at the same element of every segment has no Site, since its kind says the element.
#[derive(Clone, Copy, Debug, PartialEq, Eq)]
pub enum ByteFault {
    // The length lies outside 106 to 65,536.
    WrongLength,
    // No ISA, separators misplaced, or a terminator before byte 105.
    WrongHeader,
    // A delimiter that is not of class 5.
    WrongDelimiter,
    // A byte of class 0 or a component separator, outside ISA16.
    WrongByte(Site),
    // No terminator, or a bad name.
    WrongSegment { segment: usize, place: usize },
}

// The number, layer, segment, element and place of the fault.
impl From<ByteFault> for Fault {
    ghost from_gives = { λ f r. r ≡ cause_of f };

    fn from(fault: ByteFault) -> Fault {
        match fault {
            ByteFault::WrongLength => Fault::new(1, Site::of_name(0, 0)),
            ByteFault::WrongHeader => Fault::new(2, Site::of_name(1, 0)),
            ByteFault::WrongDelimiter => Fault::new(3, Site::of_name(1, 0)),
            ByteFault::WrongByte(at) => Fault::new(4, at),
            ByteFault::WrongSegment { segment, place } => Fault::new(
                5,
                Site::of_name(segment, place),
            ),
        }
    }
}
