ghost use Rattle.std.specs.Prelude.{◌≡◌, IfSome};
ghost use Rattle.guide.specs.Meaning.{Meaning};
ghost use Rattle.guide.specs.Asked.{row_of, fits_row, rule_of, Short, is_code, pairs_in, paired_to};
ghost use Rattle.guide.specs.Law.{Lawful};

use crate::rules::{Kind, Mark, Row, Rule};

// A guide: a value with a meaning that keeps the law. Asked for an item of its meaning it answers that, or none where there is none.
// Rows are numbered from 1 in order, and so are elements.
pub trait Guide {
    ghost meaning: { Self → Meaning };

    ghost lawful: { (x : Self) → Lawful (meaning x) };

    // The row with this number.
    fn row(&self, n: u8) -> Option<Row>
        ensures { result ≡ row_of (meaning self.now) n };

    // Whether the row takes a segment with this mark.
    fn fits(&self, n: u8, mark: Mark<'_>) -> bool
        ensures { result ≡ fits_row (meaning self.now) n mark.entry.name.now mark.entry.first.now };

    // The rule of an element of the row; an element that has none is unused. Its lengths are 32-bit numbers.
    fn rule(&self, n: u8, element: u8) -> Option<Rule>
        ensures is { result ≡ rule_of (meaning self.now) n element }
        ensures short { IfSome result Short };

    // Whether the value is a code of the element, or the element has a rule without codes.
    fn is_code(&self, n: u8, element: u8, value: &[u8]) -> bool
        ensures { result ≡ is_code (meaning self.now) n element value.now };

    // Whether the row has the pair rule: if `a` is filled, so is `b`.
    fn pairs(&self, n: u8, a: u8, b: u8) -> bool
        ensures { result ≡ pairs_in (meaning self.now) n a b };

    // Whether some pair rule of the row asks that `b` is filled.
    fn paired(&self, n: u8, b: u8) -> bool
        ensures { result ≡ paired_to (meaning self.now) n b };

    // What the first two elements of BAK make of a set. They stay two values: nothing else asks for this pair.
    fn kind(&self, first: &[u8], second: &[u8]) -> Kind
        ensures { result ≡ (meaning self.now).kind first.now second.now };

    // The row that a set with this second element of BAK has to hold.
    fn needed(&self, second: &[u8]) -> Option<u8>
        ensures { result ≡ (meaning self.now).needed second.now };

    // Whether the sums of ACK02 are held to PO102.
    fn held(&self) -> bool
        ensures { result ≡ (meaning self.now).held };

    // The value of ISA12.
    fn isa12(&self) -> &[u8]
        ensures { result.now ≡ (meaning self.now).isa12 };

    // The value of GS08.
    fn gs08(&self) -> &[u8]
        ensures { result.now ≡ (meaning self.now).gs08 };
}

// What is lent of a guide is that guide.
impl<'g, G: Guide> Guide for &'g G {
    ghost meaning = { λ p. G.Guide.meaning p.now };

    ghost lawful = { λ p. G.Guide.lawful p.now };

    fn row(&self, n: u8) -> Option<Row> {
        G::row(*self, n)
    }

    fn fits(&self, n: u8, mark: Mark<'_>) -> bool {
        G::fits(*self, n, mark)
    }

    fn rule(&self, n: u8, element: u8) -> Option<Rule> {
        G::rule(*self, n, element)
    }

    fn is_code(&self, n: u8, element: u8, value: &[u8]) -> bool {
        G::is_code(*self, n, element, value)
    }

    fn pairs(&self, n: u8, a: u8, b: u8) -> bool {
        G::pairs(*self, n, a, b)
    }

    fn paired(&self, n: u8, b: u8) -> bool {
        G::paired(*self, n, b)
    }

    fn kind(&self, first: &[u8], second: &[u8]) -> Kind {
        G::kind(*self, first, second)
    }

    fn needed(&self, second: &[u8]) -> Option<u8> {
        G::needed(*self, second)
    }

    fn held(&self) -> bool {
        G::held(*self)
    }

    fn isa12(&self) -> &[u8] {
        G::isa12(*self)
    }

    fn gs08(&self) -> &[u8] {
        G::gs08(*self)
    }
}
