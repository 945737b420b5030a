//! An odd guide, for tests only: lawful, and as unlike guide B as the law allows, so that nothing that is tested with it knows guide B by heart.
//! PO1 stands in a loop and need not be used, ACK stands in four loops, two REF follow one another that no code tells apart, a loop has to be used
//! twice, there is no CTT, and PO106 and PO107 are unused.
ghost use Rattle.std.specs.Prelude.{◌≡◌};
ghost use Rattle.guides.specs.GuideOdd.{guide_odd_meaning};
ghost use Rattle.guides.specs.Kept.{guide_odd_lawful, guide_odd_short};

use crate::tables::{
    self, Element, Elements, ONCE, PairRules, TableRow, Tabled, element, element_list, may, must,
    pair_list,
};
use guide::guide::Guide;
use guide::rules::{Kind, Mark, Need, Row, Rule};
use value::forms::Form;

// The odd guide, for tests only.
#[derive(Clone, Copy, Debug, PartialEq, Eq)]
pub struct GuideOdd;

// An element that may not be filled.
macro_rules! unused {
    ($number:expr, $form:ident, $least:expr, $greatest:expr) => {
        element!(Unused, $number, $form, $least, $greatest, &[])
    };
}

// The rows in order.
const ROWS: &[TableRow] = &[
    // Row 1, ST: once.
    TableRow {
        told: ONCE,
        name: b"ST",
        placing: &[],
        elements: element_list![must!(1, Id, 3, 3, &[b"855"]), must!(2, An, 2, 6)],
        pairs: pair_list![],
    },
    // Row 2, BAK: once.
    TableRow {
        told: Row {
            elements: 3,
            ..ONCE
        },
        name: b"BAK",
        placing: &[],
        elements: element_list![must!(1, Id, 2, 2), must!(2, Id, 2, 2), must!(3, An, 1, 10)],
        pairs: pair_list![],
    },
    // Row 3, REF: once. Row 4, another REF that no code tells apart from the first: once.
    TableRow {
        told: ONCE,
        name: b"REF",
        placing: &[],
        elements: element_list![must!(1, Id, 2, 3), must!(2, An, 1, 30)],
        pairs: pair_list![],
    },
    TableRow {
        told: Row {
            elements: 3,
            ..ONCE
        },
        name: b"REF",
        placing: &[],
        elements: element_list![must!(1, Id, 2, 2, &[b"ZZ"]), may!(3, An, 1, 80)],
        pairs: pair_list![],
    },
    // Row 5, HL placed by 1 or by 22: 1 to 20 times. It opens the loop that PO1 stands in.
    TableRow {
        told: Row {
            inner: 4,
            greatest: 20,
            ..ONCE
        },
        name: b"HL",
        placing: &[b"1", b"22"],
        elements: element_list![must!(1, Id, 1, 2, &[b"1", b"22"]), may!(2, An, 1, 12)],
        pairs: pair_list![],
    },
    // Row 6, PO1, a line of the order, in the HL loop: at most 50 times. It opens a loop. PO106 has a rule by which it is unused, PO107 has none.
    TableRow {
        told: Row {
            depth: 1,
            inner: 3,
            least: 0,
            greatest: 50,
            elements: 6,
            ..ONCE
        },
        name: b"PO1",
        placing: &[],
        elements: element_list![
            must!(1, An, 1, 6),
            must!(2, Q, 1, 5),
            must!(3, Id, 1, 2),
            unused!(6, R, 3, 4),
        ],
        pairs: pair_list![],
    },
    // Row 7, LIN, in the PO1 loop: at most 10 times. It opens a loop. If element 2 is filled, so is element 3, and not the other way round.
    TableRow {
        told: Row {
            depth: 2,
            inner: 2,
            least: 0,
            greatest: 10,
            elements: 3,
            paired: true,
            ..ONCE
        },
        name: b"LIN",
        placing: &[],
        elements: element_list![may!(2, Id, 2, 2, &[b"EN", b"UP"]), may!(3, An, 1, 48)],
        pairs: pair_list![(2, 3)],
    },
    // Row 8, SLN, in the LIN loop: 2 to 5 times. It opens a loop. If element 1 is filled, so is element 4, which has no rule: each is at fault.
    TableRow {
        told: Row {
            depth: 3,
            inner: 1,
            least: 2,
            greatest: 5,
            elements: 4,
            paired: true,
            ..ONCE
        },
        name: b"SLN",
        placing: &[],
        elements: element_list![may!(1, An, 1, 20), may!(3, R, 1, 4)],
        pairs: pair_list![(1, 4)],
    },
    // Row 9, ACK, in the SLN loop: at most 3 times. So it stands in four loops, and two of them lie between it and the PO1 loop.
    TableRow {
        told: Row {
            depth: 4,
            least: 0,
            greatest: 3,
            ..ONCE
        },
        name: b"ACK",
        placing: &[],
        elements: element_list![may!(1, Id, 1, 2), must!(2, Q, 1, 9)],
        pairs: pair_list![],
    },
    // Row 10, SE: once.
    TableRow {
        told: ONCE,
        name: b"SE",
        placing: &[],
        elements: element_list![must!(1, N0, 1, 10), must!(2, An, 2, 6)],
        pairs: pair_list![],
    },
];

impl Tabled for GuideOdd {
    ghost meaning = { λ _. guide_odd_meaning };

    ghost short = { λ _. guide_odd_short };

    fn rows(&self) -> &'static [TableRow] {
        ROWS
    }
}

impl Guide for GuideOdd {
    ghost meaning = { λ _. guide_odd_meaning };

    ghost lawful = { λ _. guide_odd_lawful };

    fn row(&self, n: u8) -> Option<Row> {
        tables::row(self, n)
    }

    #[inline(always)]
    fn fits(&self, n: u8, mark: Mark<'_>) -> bool {
        tables::fits(self, n, mark)
    }

    fn rule(&self, n: u8, element: u8) -> Option<Rule> {
        tables::rule(self, n, element)
    }

    fn is_code(&self, n: u8, element: u8, value: &[u8]) -> bool {
        tables::is_code(self, n, element, value)
    }

    fn pairs(&self, n: u8, a: u8, b: u8) -> bool {
        tables::pairs(self, n, a, b)
    }

    fn paired(&self, n: u8, b: u8) -> bool {
        tables::paired(self, n, b)
    }

    fn kind(&self, first: &[u8], second: &[u8]) -> Kind {
        match first {
            b"07" => Kind::FollowUp,
            _ => Kind::Original,
        }
    }

    fn needed(&self, second: &[u8]) -> Option<u8> {
        match second {
            b"AK" => Some(9),
            b"RJ" => Some(40),
            _ => None,
        }
    }

    fn held(&self) -> bool {
        true
    }

    fn isa12(&self) -> &[u8] {
        b"00501"
    }

    fn gs08(&self) -> &[u8] {
        b"005010X1"
    }
}
