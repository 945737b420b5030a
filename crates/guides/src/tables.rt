//! Guides as tables of rows, and how a table answers what a judge asks of a guide.
ghost use Rattle.std.specs.Prelude.{◌≡◌, true, ◌==◌, ◌&&◌, ◌||◌, ℕ, nat_eq, length, option_copied, IfSome};
ghost use Rattle.std.specs.List.{list_any, find, slice_get};
ghost use Rattle.std.specs.Str.{bytes_eq};
ghost use Rattle.x12.specs.Lists.{nth};
ghost use Rattle.guide.specs.Meaning.{Meaning};
ghost use Rattle.guide.specs.Asked.{admits, element_at, fits_row, is_code, matches, over, paired_to, pairs_in, row_at, row_of, rule_of, Short};
ghost use Rattle.guides.specs.Rows.{texts, element_meant, row_meant, standing_meant, Means};
ghost use Rattle.guides.specs.Bits.{place_of, has_bit, are_placed, are_marked, is_kept};

use guide::rules::{Mark, Row, Rule};

// An element of a row: its number, its rule, and the codes that it is held to (none: any value does).
pub(crate) struct Element {
    pub(crate) number: u8,
    pub(crate) rule: Rule,
    pub(crate) codes: &'static [&'static [u8]],
}

// The elements of a row that have a rule, in the order of their numbers, and a bit for each number. How many bits lie below a number tells where its
// element stands, so that no look-up goes through the list. 32 bits do, since the law has no number past 30.
pub(crate) struct Elements {
    pub(crate) named: u32,
    pub(crate) list: &'static [Element],
}

// The pair rules of a row, and a bit for each number that stands first or second in one. Few elements have a pair rule, and a bit tells most others.
pub(crate) struct PairRules {
    pub(crate) firsts: u32,
    pub(crate) seconds: u32,
    pub(crate) list: &'static [(u8, u8)],
}

// A row: as it is told, the name of its segments, the codes that place a segment here (none: any first element does), its elements that have a
// rule, and its pair rules.
pub(crate) struct TableRow {
    pub(crate) told: Row,
    pub(crate) name: &'static [u8],
    pub(crate) placing: &'static [&'static [u8]],
    pub(crate) elements: Elements,
    pub(crate) pairs: PairRules,
}

// A row that stands in no loop, opens none, is used once and has rules for two elements.
pub(crate) const ONCE: Row = Row {
    depth: 0,
    inner: 0,
    least: 1,
    greatest: 1,
    elements: 2,
    paired: false,
};

// An element in a table, by its number, type, least and greatest length, and its codes if there are any. Macros, since the value of a constant
// calls no function; they hold no ghost item.
macro_rules! element {
    ($need:ident, $number:expr, $form:ident, $least:expr, $greatest:expr, $codes:expr) => {
        Element {
            number: $number,
            rule: Rule {
                need: Need::$need,
                form: Form::$form,
                least: $least,
                greatest: $greatest,
            },
            codes: $codes,
        }
    };
}

// One that has to be filled.
macro_rules! must {
    ($number:expr, $form:ident, $least:expr, $greatest:expr) => {
        element!(Must, $number, $form, $least, $greatest, &[])
    };
    ($number:expr, $form:ident, $least:expr, $greatest:expr, $codes:expr) => {
        element!(Must, $number, $form, $least, $greatest, $codes)
    };
}

// One that may be filled.
macro_rules! may {
    ($number:expr, $form:ident, $least:expr, $greatest:expr) => {
        element!(May, $number, $form, $least, $greatest, &[])
    };
    ($number:expr, $form:ident, $least:expr, $greatest:expr, $codes:expr) => {
        element!(May, $number, $form, $least, $greatest, $codes)
    };
}

// The elements of a row, and its pair rules, with the bits of their numbers.
macro_rules! element_list {
    ($($need:ident!($number:expr, $($rule:tt)*)),* $(,)?) => {
        Elements {
            named: 0 $(| 1 << $number)*,
            list: &[$($need!($number, $($rule)*)),*],
        }
    };
}

macro_rules! pair_list {
    ($(($a:expr, $b:expr)),* $(,)?) => {
        PairRules {
            firsts: 0 $(| 1 << $a)*,
            seconds: 0 $(| 1 << $b)*,
            list: &[$(($a, $b)),*],
        }
    };
}

pub(crate) use element;
pub(crate) use element_list;
pub(crate) use may;
pub(crate) use must;
pub(crate) use pair_list;

// A guide whose rows stand in a table. Its meaning stands here too: the impl of Guide is written by the functions below, so they cannot ask for it.
pub(crate) trait Tabled {
    ghost meaning: { Self → Meaning };

    // The lengths of its rules are 32-bit numbers.
    ghost short: { (x : Self) (n e : ℕ) → IfSome (rule_of (meaning x) n e) Short };

    // The rows in order.
    fn rows(&self) -> &'static [TableRow]
        ensures { Means result.now (meaning self.now) };
}

// Whether the value is one of the codes.
fn is_among(codes: &[&[u8]], value: &[u8]) -> bool
    ensures { result ≡ list_any (λ c. bytes_eq value.now c.now) codes.now }
{
    codes.iter().any(|code| *code == value)
}

// Whether the value is one of the codes, or there are none.
#[tactic(auto, using(crate::proofs::Rows::admits_lem))]
fn is_admitted(codes: &[&[u8]], value: &[u8]) -> bool
    ensures { result ≡ admits (texts codes.now) value.now }
{
    codes.is_empty() || is_among(codes, value)
}

impl TableRow {
    // Whether the row takes a segment with this mark: by its name, and by its first element where the row has values for that.
    fn fits(&self, mark: Mark<'_>) -> bool
        ensures { result ≡ matches (row_meant self.now) mark.entry.name.now mark.entry.first.now }
    {
        mark.name == self.name && is_admitted(self.placing, mark.first)
    }
}

impl Elements {
    // Where an element with this number has to stand: as many bits lie below it.
    #[tactic(auto, using(crate::proofs::Bits::place_is))]
    fn place(&self, number: u8) -> usize
        ensures { result ≡ place_of self.now.named number }
    {
        self.named
            .wrapping_shl(32 - u32::from(number) % 32)
            .count_ones() as usize
    }

    // The element that stands there.
    #[tactic(auto, using(std::proofs::lemmas::Option::gets))]
    fn at_place(&self, number: u8) -> Option<&'static Element>
        ensures { option_copied result ≡ slice_get self.now.list.now (place_of self.now.named number) }
    {
        self.list.get(self.place(number))
    }

    // The element with this number, if it has a rule.
    #[tactic(auto, using(crate::proofs::Bits::there, crate::proofs::Bits::another_there, crate::proofs::Bits::none_there))]
    fn find(&self, number: u8) -> Option<&'static Element>
        requires { are_placed self.now.named 0 self.now.list.now ≡ true }
        ensures { option_copied result ≡ find (λ e. number == e.number) self.now.list.now }
    {
        match self.at_place(number) {
            Some(element) if element.number == number => Some(element),
            _ => None,
        }
    }
}

// Whether the bit of the number is set.
fn has_bit(bits: u32, number: u8) -> bool
    ensures { result ≡ has_bit bits number }
{
    (bits >> (number % 32)) % 2 == 1
}

impl PairRules {
    // Whether a pair rule asks for b where a is filled.
    #[tactic(auto, using(crate::proofs::Bits::no_first))]
    fn has(&self, a: u8, b: u8) -> bool
        requires { are_marked self.now.firsts self.now.seconds self.now.list.now ≡ true }
        ensures { result ≡ list_any (λ p. (a == p.0) && b == p.1) self.now.list.now }
    {
        has_bit(self.firsts, a) && self.list.iter().any(|pair| pair.0 == a && pair.1 == b)
    }

    // Whether any pair rule asks for b.
    #[tactic(auto, using(crate::proofs::Bits::no_second))]
    fn ask_for(&self, b: u8) -> bool
        requires { are_marked self.now.firsts self.now.seconds self.now.list.now ≡ true }
        ensures { result ≡ list_any (λ p. nat_eq b p.1) self.now.list.now }
    {
        has_bit(self.seconds, b) && self.list.iter().any(|pair| pair.1 == b)
    }
}

// The row of the table with this number, counted from 1.
#[tactic(auto, using(std::proofs::lemmas::Option::gets, crate::proofs::Rows::nth_zero, crate::proofs::Rows::nth_before))]
fn row_in(rows: &'static [TableRow], n: u8) -> Option<&'static TableRow>
    ensures { option_copied result ≡ nth rows.now n }
{
    rows.get(usize::from(n).checked_sub(1)?)
}

// The row of the guide's table with this number.
#[tactic(auto, using(crate::proofs::Rows::told_lem, crate::proofs::Rows::stands_lem, crate::proofs::Rows::kept_lem))]
fn row_at<T: Tabled>(guide: &T, n: u8) -> Option<&'static TableRow>
    ensures told { over (λ r. r.now.told) result ≡ row_of (T.meaning guide.now) n }
    ensures stands { over (λ r. standing_meant r.now) result ≡ row_at (T.meaning guide.now) n }
    ensures kept { IfSome result (λ r. is_kept r.now ≡ true) }
{
    row_in(guide.rows(), n)
}

// What a table answers, as the guide's meaning does. Each guide calls these: one impl of Guide for all that is Tabled would overlap with that
// for what is lent.
pub(crate) fn row<T: Tabled>(guide: &T, n: u8) -> Option<Row>
    ensures { result ≡ row_of (T.meaning guide.now) n }
{
    row_at(guide, n).map(|row| row.told)
}

// Inlined, since a row is searched for each segment and most rows do not fit.
#[inline(always)]
pub(crate) fn fits<T: Tabled>(guide: &T, n: u8, mark: Mark<'_>) -> bool
    ensures { result ≡ fits_row (T.meaning guide.now) n mark.entry.name.now mark.entry.first.now }
{
    // The proof of is_some_and does not close over a closure that holds a mark.
    match row_at(guide, n) {
        Some(row) => row.fits(mark),
        None => false,
    }
}

// The element of the row that has a rule.
#[tactic(auto, using(crate::proofs::Rows::element_lem, crate::proofs::Rows::parts_of))]
fn element_at<T: Tabled>(guide: &T, n: u8, number: u8) -> Option<&'static Element>
    ensures { over (λ e. element_meant e.now) result ≡ element_at (T.meaning guide.now) n number }
{
    row_at(guide, n)?.elements.find(number)
}

pub(crate) fn rule<T: Tabled>(guide: &T, n: u8, number: u8) -> Option<Rule>
    ensures is { result ≡ rule_of (T.meaning guide.now) n number }
    ensures short { IfSome result Short }
{
    element_at(guide, n, number).map(|element| element.rule)
}

pub(crate) fn is_code<T: Tabled>(guide: &T, n: u8, number: u8, value: &[u8]) -> bool
    ensures { result ≡ is_code (T.meaning guide.now) n number value.now }
{
    element_at(guide, n, number).is_some_and(|element| is_admitted(element.codes, value))
}

#[tactic(auto, using(crate::proofs::Rows::parts_of))]
pub(crate) fn pairs<T: Tabled>(guide: &T, n: u8, a: u8, b: u8) -> bool
    ensures { result ≡ pairs_in (T.meaning guide.now) n a b }
{
    match row_at(guide, n) {
        Some(row) => row.pairs.has(a, b),
        None => false,
    }
}

#[tactic(auto, using(crate::proofs::Rows::parts_of))]
pub(crate) fn paired<T: Tabled>(guide: &T, n: u8, b: u8) -> bool
    ensures { result ≡ paired_to (T.meaning guide.now) n b }
{
    match row_at(guide, n) {
        Some(row) => row.pairs.ask_for(b),
        None => false,
    }
}
