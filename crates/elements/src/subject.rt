//! A segment whose elements are judged, and the rules that hold for them.
ghost use Rattle.std.specs.Prelude.{◌≡◌};
ghost use Rattle.elements.specs.Rules.{limit_at};
ghost use Rattle.elements.specs.Limits.{limits_at, admits_at};

use crate::envelope::{ge_rule, gs_code, gs_rule, iea_rule, isa_code, isa_rule};
use guide::guide::Guide;
use guide::rules::Rule;
use placing::rows;
use x12::parts::Segment;

// A segment whose elements are judged under a guide, its row, and the greatest number of an element that a rule of the row may name.
#[derive(Drop)]
pub(crate) struct Subject<'a, G: Guide> {
    pub(crate) guide: &'a G,
    pub(crate) segment: Segment<'a>,
    pub(crate) row: u8,
    pub(crate) limit: u8,
    ghost limited: { limit ≡ limit_at (G.meaning guide.now) row },
}

// The greatest number of an element that a rule of the row may name.
fn limit_of<G: Guide>(guide: &G, row: u8) -> u8
    ensures { result ≡ limit_at (G.meaning guide.now) row }
{
    let told = guide.row(row).map_or(0, |found| found.elements);
    if row >= rows::ISA { told.max(16) } else { told }
}

impl<'a, G: Guide> Subject<'a, G> {
    // A segment that has this row.
    pub(crate) fn new(guide: &'a G, row: u8, segment: Segment<'a>) -> Self
        ensures { (result.guide.now ≡ guide.now) × (result.segment ≡ segment.entry) × (result.row ≡ row) }
    {
        Subject {
            guide,
            segment,
            row,
            limit: limit_of(guide, row),
        }
    }

    // The rule of an element, of the envelope or of the guide. A match here and below, and no table of functions: the arms ask the guide for different
    // values. Inlined, since a call would write the rule to memory for each element.
    #[inline(always)]
    pub(crate) fn rule(&self, element: u8) -> Option<Rule>
        ensures { result ≡ limits_at (G.meaning self.now.guide.now) self.now.row element }
    {
        match self.row {
            rows::ISA => isa_rule(element, self.guide.isa12()),
            rows::GS => gs_rule(element, self.guide.gs08()),
            rows::GE => ge_rule(element),
            rows::IEA..=255 => iea_rule(element),
            _ => self.guide.rule(self.row, element),
        }
    }

    // Whether the value is a code of the element, or the element has a rule without codes.
    pub(crate) fn is_code(&self, element: u8, value: &[u8]) -> bool
        ensures { result ≡ admits_at (G.meaning self.now.guide.now) self.now.row element value.now }
    {
        match self.row {
            rows::ISA => isa_code(element, value, self.guide.isa12()),
            rows::GS => gs_code(element, value, self.guide.gs08()),
            rows::GE..=255 => matches!(element, 1 | 2),
            _ => self.guide.is_code(self.row, element, value),
        }
    }
}
