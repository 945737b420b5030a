//! The check of a segment's elements.
ghost use Rattle.std.specs.Prelude.{◌≡◌, suc, ◌+◌, ◌-◌, ◌&&◌, [], length, replicate, Ok, Err, MatchResult};
ghost use Rattle.x12.specs.Lists.{filled, each};
ghost use Rattle.x12.specs.Elements.{element_of_segment};
ghost use Rattle.guide.specs.Asked.{pairs_in};
ghost use Rattle.x12.specs.Views.{plain};
ghost use Rattle.elements.specs.Rules.{asks_for};
ghost use Rattle.elements.specs.Tests.{is_unlike_pair, is_in_wrong_pair};
ghost use Rattle.elements.specs.Checks.{Answers, first_of, present, element_check, elements_check};
ghost use Rattle.elements.specs.Limits.{admits_at, wrong_code_by, tests_with};
ghost use Rattle.elements.specs.Fails.{cause_of_element};

use crate::faults::ElementFault;
use crate::limits::{
    has_wrong_length, has_wrong_type, is_excess, is_filled, is_judged, is_lacking,
};
use crate::subject::Subject;
use guide::guide::Guide;
use guide::rules::{Kind, Rule};
use placing::rows;
use x12::faults::Site;
use x12::parts::{Element, Segment};

// Whether the first two elements of BAK are filled and a wrong pair.
fn is_wrong_pair<G: Guide>(guide: &G, first: &[u8], second: &[u8]) -> bool
    ensures { result ≡ is_unlike_pair (G.meaning guide.now) first.now second.now }
{
    is_filled(first) && is_filled(second) && guide.kind(first, second) == Kind::Wrong
}

impl<'a, G: Guide> Subject<'a, G> {
    // Whether the element is none of its codes.
    fn has_wrong_code(&self, element: u8, rule: Option<Rule>, value: &[u8]) -> bool
        ensures { result ≡ wrong_code_by rule (admits_at (G.meaning self.now.guide.now) self.now.row element value.now) value.now }
    {
        // The proof of is_some_and does not close over a closure that holds the subject.
        match rule {
            Some(rule) => is_judged(rule, value) && !self.is_code(element, value),
            None => false,
        }
    }

    // Whether the element is the second of BAK and ends a wrong pair.
    fn has_wrong_pair(&self, element: u8, part: &[u8]) -> bool
        ensures { result ≡ is_in_wrong_pair (G.meaning self.now.guide.now) self.now.segment.separator self.now.row (plain self.now.segment) element part.now }
    {
        element == 2
            && self.row == rows::BAK
            && is_wrong_pair(self.guide, self.segment.bytes_of(1), part)
    }

    // Whether a pair rule asks that the element is filled where `other` is, and that is filled.
    fn is_asked_by(&self, other: u8, element: u8) -> bool
        ensures { result ≡ (pairs_in (G.meaning self.now.guide.now) self.now.row other element && filled (element_of_segment self.now.segment.separator (plain self.now.segment) other).1) }
    {
        self.guide.pairs(self.row, other, element)
            && is_filled(self.segment.bytes_of(usize::from(other)))
    }

    // Whether a pair rule asks that the element is filled: one whose other element is filled. Inlined, since for most elements the first question answers.
    #[inline(always)]
    fn is_asked(&self, element: u8) -> bool
        ensures { result ≡ asks_for (G.meaning self.now.guide.now) self.now.segment.separator self.now.row (plain self.now.segment) element }
    {
        if !self.guide.paired(self.row, element) {
            return false;
        }
        // A loop and no `any`: the library has no list of what 0..=limit yields, and limit + 1 need not fit.
        for other in 0..=self.limit {
            if self.is_asked_by(other, element) {
                return true;
            }
        }
        false
    }

    // The fault of an element that a rule may name, which stands there. Inlined, as its caller is: a call would write its answer to memory for each element.
    #[inline(always)]
    fn check_named(&self, element: u8, at: Site, part: &[u8]) -> Result<(), ElementFault>
        ensures { Answers cause_of_element result (first_of at.segment at.element at.place (tests_with (G.meaning self.now.guide.now) self.now.segment.separator self.now.row (plain self.now.segment) element part.now)) }
    {
        let rule = self.rule(element);
        if is_lacking(rule, part) {
            return Err(ElementFault::EmptyMust(at));
        }
        if is_excess(rule, part) {
            return Err(ElementFault::FilledUnused(at));
        }
        if has_wrong_length(rule, part) {
            return Err(ElementFault::WrongLength(at));
        }
        if has_wrong_type(rule, part) {
            return Err(ElementFault::WrongType(at));
        }
        if self.has_wrong_code(element, rule, part) || self.has_wrong_pair(element, part) {
            return Err(ElementFault::WrongCode(at));
        }
        if !is_filled(part) && self.is_asked(element) {
            return Err(ElementFault::BrokenPair(at));
        }
        Ok(())
    }

    // The fault of an element of the segment. Past the limit no rule names it.
    #[inline(always)]
    fn check_element(&self, element: Element<'_>) -> Result<(), ElementFault>
        ensures { Answers cause_of_element result (element_check (G.meaning self.now.guide.now) self.now.segment.separator self.now.segment.number self.now.row (plain self.now.segment) element.entry.number (element.entry.place, element.entry.bytes.now)) }
    {
        let at = self.segment.site(element.number, element.place);
        if element.number <= usize::from(self.limit) {
            return self.check_named(element.number as u8, at, element.bytes);
        }
        if is_filled(element.bytes) {
            return Err(ElementFault::FilledUnused(at));
        }
        Ok(())
    }

    // The elements that the segment has, behind its name, one after the other: the number of the last.
    fn check_present(&self) -> Result<usize, ElementFault>
        ensures { MatchResult result
            (λ n. (each (element_check (G.meaning self.now.guide.now) self.now.segment.separator self.now.segment.number self.now.row (plain self.now.segment)) 1 (present self.now.segment.separator (plain self.now.segment)) ≡ Ok tt)
            × (n ≡ length (present self.now.segment.separator (plain self.now.segment))))
            (λ f. each (element_check (G.meaning self.now.guide.now) self.now.segment.separator self.now.segment.number self.now.row (plain self.now.segment)) 1 (present self.now.segment.separator (plain self.now.segment)) ≡ Err (cause_of_element f)) }
    {
        let mut elements = self.segment.elements();
        let _name = elements.next();
        let mut last = 0;
        for element in elements {
            self.check_element(element)?;
            last = element.number;
        }
        Ok(last)
    }

    // The elements behind number `last` that the segment does not have, up to the limit; they stand at its end.
    fn check_absent(&self, last: usize) -> Result<(), ElementFault>
        ensures { Answers cause_of_element result (each (element_check (G.meaning self.now.guide.now) self.now.segment.separator self.now.segment.number self.now.row (plain self.now.segment)) (suc last) (replicate (self.now.limit - last) (self.now.segment.place + length self.now.segment.bytes.now, []))) }
    {
        let limit = usize::from(self.limit);
        if last >= limit {
            return Ok(());
        }
        let place = self.segment.place + self.segment.bytes.len();
        for number in last + 1..limit + 1 {
            self.check_element(Element {
                number,
                place,
                bytes: &[],
            })?;
        }
        Ok(())
    }
}

// The first fault of the elements of a segment, which has this row. `lacking` says that it ends a set that lacks a row; it
// is the answer of the totals and has no value beside it.
pub fn check_elements<G: Guide>(
    guide: &G,
    lacking: bool,
    row: u8,
    segment: &Segment<'_>,
) -> Result<(), ElementFault>
    ensures { Answers cause_of_element result (elements_check (G.meaning guide.now) segment.now.separator segment.now.number lacking row (plain segment.now)) }
{
    if lacking {
        return Err(ElementFault::MissingRow {
            segment: segment.number,
            place: segment.place,
        });
    }
    let subject = Subject::new(guide, row, *segment);
    let last = subject.check_present()?;
    subject.check_absent(last)
}
