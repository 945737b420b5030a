ghost use Rattle.std.specs.Prelude.{◌≡◌, ◌≤◌, ◌≢◌, [], length, IfSome, MatchOption};
ghost use Rattle.std.specs.Iterator.{at_most};
ghost use Rattle.std.proofs.Props.{props};
ghost use Rattle.x12.specs.Header.{Sound};
ghost use Rattle.x12.specs.Views.{plain};
ghost use Rattle.x12.specs.Elements.{element_of_segment, element_of, PartOf, HandedOut};

use crate::faults::Site;
use crate::find::find_from;
use crate::parts::{Element, Interchange, Segment};

// The elements of a segment that are still to come: where the next begins, if there is one, and its number.
#[derive(Clone, Copy, Debug, PartialEq, Eq)]
pub struct Elements<'a> {
    pub segment: Segment<'a>,
    pub at: Option<usize>,
    pub number: usize,
    ghost counted: { IfSome at (λ a. (number ≤ a) × (a ≤ length segment.bytes.now)) } by { Prim.hlevel props },
}

impl<'a> Iterator for Elements<'a> {
    type Item = Element<'a>;

    ghost use Rattle.x12.specs.Comes.{ElementComes, element_room};

    ghost next_gives = { ElementComes };

    ghost remaining = { λ s. at_most (element_room s) };

    // The next element: it runs to the next separator, or to the end of the segment.
    fn next(&mut self) -> Option<Element<'a>> {
        let at = self.at?;
        let segment = self.segment;
        let end = find_from(segment.bytes, at, segment.separator);
        let element = Element {
            number: self.number,
            place: segment.place + at,
            bytes: &segment.bytes[at..end],
        };
        if end == segment.bytes.len() {
            self.at = None;
            return Some(element);
        }
        self.at = Some(end + 1);
        self.number += 1;
        Some(element)
    }
}

impl<'a> Segment<'a> {
    // The elements of the segment, its name first.
    pub fn elements(&self) -> Elements<'a>
        ensures { (result.segment ≡ self.now) × (result.at ≡ Some 0) × (result.number ≡ 0) }
    {
        Elements {
            segment: *self,
            at: Some(0),
            number: 0,
        }
    }

    // Element `number` with its place. One that is absent has no bytes and stands at the segment's end.
    pub fn part(&self, number: usize) -> Element<'a>
        ensures { (element_of_segment self.now.separator (plain self.now) number ≡ (result.place, result.bytes.now))
            × PartOf self.now.bytes.now self.now.place result.place result.bytes.now × (result.number ≡ number) }
    {
        let end = self.bytes.len();
        self.elements().nth(number).unwrap_or(Element {
            number,
            place: self.place + end,
            bytes: &self.bytes[end..],
        })
    }

    // An element of the segment, by its number and its place.
    pub fn site(&self, element: usize, place: usize) -> Site
        ensures { result ≡ record { segment = self.now.number; element = element; place = place } }
    {
        Site {
            segment: self.number,
            element,
            place,
        }
    }

    // The bytes of element `number`; an absent element has none.
    pub fn bytes_of(&self, number: usize) -> &'a [u8]
        ensures { result.now ≡ (element_of_segment self.now.separator (plain self.now) number).1 }
    {
        self.part(number).bytes
    }

    // Element `number`; none where it is absent or empty.
    pub fn element(&self, number: usize) -> Option<Element<'a>>
        ensures { MatchOption result
            ((element_of_segment self.now.separator (plain self.now) number).1 ≡ [])
            (λ e. (e.bytes.now ≢ [])
            × (element_of_segment self.now.separator (plain self.now) number ≡ (e.place, e.bytes.now))
            × PartOf self.now.bytes.now self.now.place e.place e.bytes.now) }
    {
        let element = self.part(number);
        if element.bytes.is_empty() {
            return None;
        }
        Some(element)
    }
}

// Element `number` of segment `segment`, counted from 1; number 0 is the segment's name.
// None where it is absent or empty, or where the header is refused.
pub fn element<'a>(interchange: &'a [u8], segment: usize, number: usize) -> Option<Element<'a>>
    ensures { MatchOption result
        (Sound interchange.now → element_of interchange.now segment number ≡ [])
        (λ e. HandedOut interchange.now segment number e.place e.bytes.now) }
{
    let read = Interchange::read(interchange).ok()?;
    let found = read.segments().nth(segment.checked_sub(1)?)?;
    found.element(number)
}
