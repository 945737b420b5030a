//! Guide B: the table of its rows, and what is its own.
ghost use Rattle.std.specs.Prelude.{◌≡◌};
ghost use Rattle.guides.specs.GuideB.{guide_b_meaning};
ghost use Rattle.guides.specs.Kept.{guide_b_lawful, guide_b_short};

use crate::tables::{
    self, Element, Elements, ONCE, PairRules, TableRow, Tabled, element, element_list, may, must,
    pair_list,
};
use guide::guide::Guide;
use guide::rules::{Kind, Mark, Need, Row, Rule};
use value::forms::Form;

// Guide B.
#[derive(Clone, Copy, Debug, PartialEq, Eq)]
pub struct GuideB;

// What kind of number a party is known by.
const PARTY_QUALIFIERS: &[&[u8]] = &[b"15", b"1", b"12", b"14", b"ZZ"];

// What kind of number a product is known by, and what kind of second number.
const PRODUCT_QUALIFIERS: &[&[u8]] = &[b"IB", b"EN", b"UK", b"UP"];

const SECOND_QUALIFIERS: &[&[u8]] = &[b"IB", b"EN", b"UK", b"UP", b"VN", b"MG", b"PO"];

// The units that a quantity is counted in.
const UNITS: &[&[u8]] = &[b"UN", b"EA"];

// What a day is the day of.
const DAY_QUALIFIERS: &[&[u8]] = &[b"067", b"068"];

// The rows in order.
const ROWS: &[TableRow] = &[
    // Row 1, ST: once.
    TableRow {
        told: ONCE,
        name: b"ST",
        placing: &[],
        elements: element_list![must!(1, Id, 3, 3, &[b"855"]), must!(2, An, 1, 9)],
        pairs: pair_list![],
    },
    // Row 2, BAK: once.
    TableRow {
        told: Row {
            elements: 9,
            ..ONCE
        },
        name: b"BAK",
        placing: &[],
        elements: element_list![
            must!(1, Id, 2, 2),
            must!(2, Id, 2, 2),
            must!(3, An, 1, 22),
            must!(4, D8, 8, 8),
            must!(9, D8, 8, 8),
        ],
        pairs: pair_list![],
    },
    // Row 3, CUR: once.
    TableRow {
        told: ONCE,
        name: b"CUR",
        placing: &[],
        elements: element_list![
            must!(1, Id, 2, 2, &[b"BY", b"SE"]),
            must!(2, Id, 3, 3, &[b"CAD", b"USD"]),
        ],
        pairs: pair_list![],
    },
    // Row 4, N1 placed by BT: once.
    TableRow {
        told: Row {
            elements: 4,
            ..ONCE
        },
        name: b"N1",
        placing: &[b"BT"],
        elements: element_list![
            must!(1, Id, 2, 2, &[b"BT"]),
            may!(2, An, 1, 35),
            must!(3, Id, 1, 2, PARTY_QUALIFIERS),
            must!(4, An, 2, 20),
        ],
        pairs: pair_list![],
    },
    // Row 5, N1 placed by ST: once.
    TableRow {
        told: Row {
            elements: 4,
            ..ONCE
        },
        name: b"N1",
        placing: &[b"ST"],
        elements: element_list![
            must!(1, Id, 2, 2, &[b"ST"]),
            must!(3, Id, 1, 2, PARTY_QUALIFIERS),
            must!(4, An, 2, 20),
        ],
        pairs: pair_list![],
    },
    // Row 6, N1 placed by VN: once.
    TableRow {
        told: Row {
            elements: 4,
            ..ONCE
        },
        name: b"N1",
        placing: &[b"VN"],
        elements: element_list![
            must!(1, Id, 2, 2, &[b"VN"]),
            may!(2, An, 1, 35),
            must!(3, Id, 1, 2, PARTY_QUALIFIERS),
            must!(4, An, 2, 20),
        ],
        pairs: pair_list![],
    },
    // Row 7, PO1, a line of the order: 1 to 100,000 times. It opens a loop.
    TableRow {
        told: Row {
            inner: 4,
            greatest: 100_000,
            elements: 9,
            paired: true,
            ..ONCE
        },
        name: b"PO1",
        placing: &[],
        elements: element_list![
            must!(1, An, 1, 20),
            must!(2, Q, 1, 9),
            must!(3, Id, 2, 2, UNITS),
            may!(4, R, 1, 17),
            must!(6, Id, 2, 2, PRODUCT_QUALIFIERS),
            must!(7, An, 1, 40),
            may!(8, Id, 2, 2, SECOND_QUALIFIERS),
            may!(9, An, 1, 40),
        ],
        pairs: pair_list![(8, 9), (9, 8)],
    },
    // Row 8, CTP, in the PO1 loop: at most once.
    TableRow {
        told: Row {
            depth: 1,
            least: 0,
            elements: 7,
            paired: true,
            ..ONCE
        },
        name: b"CTP",
        placing: &[],
        elements: element_list![
            may!(2, Id, 3, 3, &[b"SLP"]),
            may!(3, R, 1, 17),
            may!(6, Id, 3, 3, &[b"DIS"]),
            may!(7, R, 1, 10),
        ],
        pairs: pair_list![(2, 3), (3, 2), (6, 7), (7, 6)],
    },
    // Row 9, PID, in the PO1 loop: at most once.
    TableRow {
        told: Row {
            depth: 1,
            least: 0,
            elements: 5,
            ..ONCE
        },
        name: b"PID",
        placing: &[],
        elements: element_list![must!(1, Id, 1, 1, &[b"F"]), must!(5, An, 1, 80)],
        pairs: pair_list![],
    },
    // Row 10, ACK, in the PO1 loop: 1 to 104 times. It opens a loop.
    TableRow {
        told: Row {
            depth: 1,
            inner: 1,
            greatest: 104,
            elements: 29,
            paired: true,
            ..ONCE
        },
        name: b"ACK",
        placing: &[],
        elements: element_list![
            must!(1, Id, 2, 2, &[b"IA", b"IR"]),
            must!(2, Q, 1, 9),
            must!(3, Id, 2, 2, UNITS),
            may!(4, Id, 3, 3, DAY_QUALIFIERS),
            may!(5, D8, 8, 8),
            must!(27, Id, 2, 2, &[b"BI"]),
            must!(28, Id, 3, 3, &[b"ACK"]),
            must!(29, An, 1, 30),
        ],
        pairs: pair_list![(4, 5), (5, 4)],
    },
    // Row 11, SCH, in the ACK loop: at most 200 times.
    TableRow {
        told: Row {
            depth: 2,
            least: 0,
            greatest: 200,
            elements: 6,
            ..ONCE
        },
        name: b"SCH",
        placing: &[],
        elements: element_list![
            must!(1, Q, 1, 9),
            must!(2, Id, 2, 2, UNITS),
            must!(5, Id, 3, 3, DAY_QUALIFIERS),
            must!(6, D8, 8, 8),
        ],
        pairs: pair_list![],
    },
    // Row 12, CTT: once.
    TableRow {
        told: ONCE,
        name: b"CTT",
        placing: &[],
        elements: element_list![must!(1, N0, 1, 6), must!(2, N0, 1, 10)],
        pairs: pair_list![],
    },
    // Row 13, SE: once.
    TableRow {
        told: ONCE,
        name: b"SE",
        placing: &[],
        elements: element_list![must!(1, N0, 1, 10), must!(2, An, 1, 9)],
        pairs: pair_list![],
    },
];

impl Tabled for GuideB {
    ghost meaning = { λ _. guide_b_meaning };

    ghost short = { λ _. guide_b_short };

    fn rows(&self) -> &'static [TableRow] {
        ROWS
    }
}

impl Guide for GuideB {
    ghost meaning = { λ _. guide_b_meaning };

    ghost lawful = { λ _. guide_b_lawful };

    fn row(&self, n: u8) -> Option<Row> {
        tables::row(self, n)
    }

    #[inline(always)]
    fn fits(&self, n: u8, mark: Mark<'_>) -> bool {
        tables::fits(self, n, mark)
    }

    fn rule(&self, n: u8, element: u8) -> Option<Rule> {
        tables::rule(self, n, element)
    }

    fn is_code(&self, n: u8, element: u8, value: &[u8]) -> bool {
        tables::is_code(self, n, element, value)
    }

    fn pairs(&self, n: u8, a: u8, b: u8) -> bool {
        tables::pairs(self, n, a, b)
    }

    fn paired(&self, n: u8, b: u8) -> bool {
        tables::paired(self, n, b)
    }

    fn kind(&self, first: &[u8], second: &[u8]) -> Kind {
        match (first, second) {
            (b"00", b"AC") => Kind::Original,
            (b"04", b"AE") => Kind::FollowUp,
            _ => Kind::Wrong,
        }
    }

    fn needed(&self, second: &[u8]) -> Option<u8> {
        None
    }

    fn held(&self) -> bool {
        true
    }

    fn isa12(&self) -> &[u8] {
        b"00401"
    }

    fn gs08(&self) -> &[u8] {
        b"004010"
    }
}
