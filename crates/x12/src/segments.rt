ghost use Rattle.std.specs.Prelude.{◌≡◌, ◌+◌, ◌-◌, ◌≤◌, length};
ghost use Rattle.std.specs.Iterator.{at_most};

use crate::find::{find_from, skip_breaks};
use crate::parts::{Interchange, Segment};

// The segments of an interchange from byte `at` on, after `count` others.
#[derive(Clone, Copy, Debug, PartialEq, Eq)]
pub struct Segments<'a> {
    pub interchange: Interchange<'a>,
    pub at: usize,
    pub count: usize,
    ghost counted: { count ≤ at },
}

impl<'a> Interchange<'a> {
    // All segments of the interchange.
    pub fn segments(&self) -> Segments<'a>
        ensures { (result.interchange ≡ self.now) × (result.at ≡ 0) × (result.count ≡ 0) }
    {
        Segments {
            interchange: *self,
            at: 0,
            count: 0,
        }
    }
}

impl<'a> Iterator for Segments<'a> {
    type Item = Segment<'a>;

    ghost use Rattle.x12.specs.Comes.{SegmentComes};

    ghost next_gives = { SegmentComes };

    ghost remaining = { λ s. at_most (length s.interchange.bytes.now + 1 - s.at) };

    // The next segment: line breaks are skipped, and the segment runs to the next terminator, or to the end.
    // None where only line breaks are left.
    fn next(&mut self) -> Option<Segment<'a>> {
        let Interchange { bytes, delimiters } = self.interchange;
        if self.at >= bytes.len() {
            return None;
        }
        let place = skip_breaks(bytes, self.at);
        if place == bytes.len() {
            return None;
        }
        let end = find_from(bytes, place, delimiters.terminator);
        self.at = end + 1;
        self.count += 1;
        Some(Segment {
            number: self.count,
            place,
            bytes: &bytes[place..end],
            closed: end < bytes.len(),
            separator: delimiters.separator,
            component: delimiters.component,
        })
    }
}
