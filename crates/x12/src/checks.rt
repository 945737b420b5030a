ghost use Rattle.std.specs.Prelude.{◌≡◌, false, Ok, Err, MatchResult};
ghost use Rattle.x12.specs.Views.{plain};
ghost use Rattle.std.specs.List.{list_all, list_any};
ghost use Rattle.x12.specs.Causes.{cause_of};
ghost use Rattle.x12.specs.Checks.{bad_byte, name_byte, good_name, part_judged, part_check, segment_check};

use crate::classes::Class;
use crate::faults::ByteFault;
use crate::parts::{Element, Segment};

// Whether no element but ISA16 may hold the byte.
fn is_bad(component: u8, b: u8) -> bool
    ensures { result ≡ bad_byte component b }
{
    Class::of(b) == Class::Outside || b == component
}

// Whether some byte is one that no element but ISA16 may hold.
fn has_bad(component: u8, v: &[u8]) -> bool
    ensures { result ≡ list_any (bad_byte component) v.now }
{
    v.iter().any(|b| is_bad(component, *b))
}

// Whether the byte may stand in a name.
fn is_name_byte(b: u8) -> bool
    ensures { result ≡ name_byte b }
{
    matches!(Class::of(b), Class::Capital | Class::Digit)
}

// Whether each byte may stand in a name.
fn has_name_bytes(v: &[u8]) -> bool
    ensures { result ≡ list_all name_byte v.now }
{
    v.iter().all(|b| is_name_byte(*b))
}

// Whether the bytes are a name: two or three of class 1 or 2.
fn is_name(v: &[u8]) -> bool
    ensures { result ≡ good_name v.now }
{
    matches!(v.len(), 2..=3) && has_name_bytes(v)
}

// What the name of the segment is refused for, where no byte of it is bad: it is no name, or no terminator ends the segment.
fn check_name(segment: &Segment<'_>, name: &Element<'_>) -> Result<(), ByteFault>
    ensures { MatchResult result
        (λ u. part_judged false segment.now.number segment.now.closed 0 (name.now.place, name.now.bytes.now) ≡ Ok u)
        (λ f. part_judged false segment.now.number segment.now.closed 0 (name.now.place, name.now.bytes.now) ≡ Err (cause_of f)) }
{
    if !segment.closed || !is_name(name.bytes) {
        return Err(ByteFault::WrongSegment {
            segment: segment.number,
            place: name.place,
        });
    }
    Ok(())
}

// What an element of the segment is refused for: a bad byte, else a bad name or one in a segment with no terminator.
fn check_part(segment: &Segment<'_>, element: &Element<'_>) -> Result<(), ByteFault>
    ensures { MatchResult result
        (λ u. part_check segment.now.component segment.now.number segment.now.closed element.now.number (element.now.place, element.now.bytes.now) ≡ Ok u)
        (λ f. part_check segment.now.component segment.now.number segment.now.closed element.now.number (element.now.place, element.now.bytes.now) ≡ Err (cause_of f)) }
{
    let is_isa16 = segment.number == 1 && element.number == 16;
    if !is_isa16 && has_bad(segment.component, element.bytes) {
        return Err(ByteFault::WrongByte(segment.site(element.number, element.place)));
    }
    if element.number == 0 {
        return check_name(segment, element);
    }
    Ok(())
}

impl Segment<'_> {
    // The first byte fault of the segment, by element and number. Where none of its bytes is bad, nothing but its name can be refused, so its bytes are
    // gone over once. In segment 1, where ISA16 holds the component separator itself, the elements are checked in turn.
    pub fn check(&self) -> Result<(), ByteFault>
        ensures { MatchResult result
            (λ u. segment_check self.now.separator self.now.component self.now.number (plain self.now) ≡ Ok u)
            (λ f. segment_check self.now.separator self.now.component self.now.number (plain self.now) ≡ Err (cause_of f)) }
    {
        if self.number == 1 || has_bad(self.component, self.bytes) {
            return self.check_in_turn();
        }
        check_name(self, &self.part(0))
    }

    // The same, by its elements in order.
    fn check_in_turn(&self) -> Result<(), ByteFault>
        ensures { MatchResult result
            (λ u. segment_check self.now.separator self.now.component self.now.number (plain self.now) ≡ Ok u)
            (λ f. segment_check self.now.separator self.now.component self.now.number (plain self.now) ≡ Err (cause_of f)) }
    {
        for element in self.elements() {
            check_part(self, &element)?;
        }
        Ok(())
    }
}
