ghost use Rattle.std.specs.Prelude.{◌≡◌, if◌then◌else◌, nat_eq};
ghost use Rattle.x12.specs.Views.{plain};
ghost use Rattle.x12.specs.Elements.{element_of_segment};
ghost use Rattle.guide.specs.Asked.{over};
ghost use Rattle.totals.specs.Keeps.{repeated_by, unlike_control};

use placing::rows;
use x12::parts::Segment;

// The control numbers of the interchange, of its last group and of its last set.
#[derive(Clone, Copy, Debug, Default, PartialEq, Eq)]
pub struct Controls<'a> {
    pub isa13: &'a [u8],
    pub gs06: &'a [u8],
    pub st02: &'a [u8],
}

impl<'a> Controls<'a> {
    // The control numbers behind a segment of this row.
    pub(crate) fn behind(self, row: u8, segment: &Segment<'a>) -> Controls<'a>
        ensures isa { result.isa13.now ≡ (if nat_eq row 65 then (element_of_segment segment.now.separator (plain segment.now) 13).1 else self.entry.isa13.now) }
        ensures gs { result.gs06.now ≡ (if nat_eq row 66 then (element_of_segment segment.now.separator (plain segment.now) 6).1 else self.entry.gs06.now) }
        ensures st { result.st02.now ≡ (if nat_eq row 1 then (element_of_segment segment.now.separator (plain segment.now) 2).1 else self.entry.st02.now) }
    {
        match row {
            rows::ISA => Controls {
                isa13: segment.bytes_of(13),
                ..self
            },
            rows::GS => Controls {
                gs06: segment.bytes_of(6),
                ..self
            },
            rows::ST => Controls {
                st02: segment.bytes_of(2),
                ..self
            },
            _ => self,
        }
    }

    // The control number that element 2 of a segment with this row and this name has to repeat, if there is one.
    fn repeated(self, row: u8, name: &[u8]) -> Option<&'a [u8]>
        ensures { over (λ w. w.now) result ≡ repeated_by self.entry.isa13.now self.entry.gs06.now self.entry.st02.now row name.now }
    {
        match (name, row) {
            (b"SE", _) => Some(self.st02),
            (_, rows::GE) => Some(self.gs06),
            (_, rows::IEA) => Some(self.isa13),
            _ => None,
        }
    }

    // Whether element 2 of a segment with this row and this name is not the control number that it has to repeat, if there is one.
    pub(crate) fn is_wrong(self, row: u8, name: &[u8], v: &[u8]) -> bool
        ensures { result ≡ unlike_control (repeated_by self.entry.isa13.now self.entry.gs06.now self.entry.st02.now row name.now) v.now }
    {
        self.repeated(row, name).is_some_and(|wanted| v != wanted)
    }
}
