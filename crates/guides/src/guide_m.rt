//! Guide M: the table of its rows, and what is its own.
ghost use Rattle.std.specs.Prelude.{◌≡◌};
ghost use Rattle.guides.specs.GuideM.{guide_m_meaning};
ghost use Rattle.guides.specs.Kept.{guide_m_lawful, guide_m_short};

use crate::tables::{
    self, Element, Elements, ONCE, PairRules, TableRow, Tabled, element, element_list, may, must,
    pair_list,
};
use guide::guide::Guide;
use guide::rules::{Kind, Mark, Need, Row, Rule};
use value::forms::Form;

// Guide M.
#[derive(Clone, Copy, Debug, PartialEq, Eq)]
pub struct GuideM;

// The rows in order.
const ROWS: &[TableRow] = &[
    // Row 1, ST: once.
    TableRow {
        told: ONCE,
        name: b"ST",
        placing: &[],
        elements: element_list![must!(1, Id, 3, 3, &[b"855"]), must!(2, An, 4, 9)],
        pairs: pair_list![],
    },
    // Row 2, BAK: once.
    TableRow {
        told: Row {
            elements: 9,
            ..ONCE
        },
        name: b"BAK",
        placing: &[],
        elements: element_list![
            must!(1, Id, 2, 2, &[b"00"]),
            must!(2, Id, 2, 2, &[b"AC", b"AD", b"AK", b"RD", b"RJ"]),
            must!(3, An, 1, 22),
            must!(4, D8, 8, 8),
            may!(5, An, 1, 30),
            must!(9, D8, 8, 8),
        ],
        pairs: pair_list![],
    },
    // Row 3, CUR: at most once.
    TableRow {
        told: Row { least: 0, ..ONCE },
        name: b"CUR",
        placing: &[],
        elements: element_list![must!(1, Id, 2, 2, &[b"BY"]), must!(2, Id, 3, 3)],
        pairs: pair_list![],
    },
    // Row 4, REF placed by IA: once.
    TableRow {
        told: ONCE,
        name: b"REF",
        placing: &[b"IA"],
        elements: element_list![must!(1, Id, 2, 2, &[b"IA"]), must!(2, An, 1, 30)],
        pairs: pair_list![],
    },
    // Row 5, N9 placed by L1: at most 1,000 times. It opens a loop.
    TableRow {
        told: Row {
            inner: 1,
            least: 0,
            greatest: 1000,
            ..ONCE
        },
        name: b"N9",
        placing: &[b"L1"],
        elements: element_list![must!(1, Id, 2, 2, &[b"L1"]), must!(2, An, 1, 30)],
        pairs: pair_list![],
    },
    // Row 6, MSG, in the N9 loop: 1 to 1,000 times.
    TableRow {
        told: Row {
            depth: 1,
            greatest: 1000,
            elements: 1,
            ..ONCE
        },
        name: b"MSG",
        placing: &[],
        elements: element_list![must!(1, An, 1, 264)],
        pairs: pair_list![],
    },
    // Row 7, N1 placed by VN: 1 to 200 times.
    TableRow {
        told: Row {
            greatest: 200,
            elements: 4,
            ..ONCE
        },
        name: b"N1",
        placing: &[b"VN"],
        elements: element_list![
            must!(1, Id, 2, 2, &[b"VN"]),
            must!(2, An, 1, 60),
            must!(3, Id, 2, 2, &[b"92"]),
            must!(4, An, 2, 80),
        ],
        pairs: pair_list![],
    },
    // Row 8, PO1, a line of the order: 1 to 100,000 times. It opens a loop.
    TableRow {
        told: Row {
            inner: 2,
            greatest: 100_000,
            elements: 9,
            paired: true,
            ..ONCE
        },
        name: b"PO1",
        placing: &[],
        elements: element_list![
            must!(1, An, 1, 20),
            must!(2, Q, 1, 9),
            must!(3, Id, 2, 2),
            may!(4, R, 1, 17),
            may!(6, Id, 2, 2, &[b"BP"]),
            may!(7, An, 1, 48),
            may!(8, Id, 2, 2, &[b"VP"]),
            may!(9, An, 1, 48),
        ],
        pairs: pair_list![(6, 7), (7, 6), (8, 9), (9, 8)],
    },
    // Row 9, PID, in the PO1 loop: 1 to 1,000 times.
    TableRow {
        told: Row {
            depth: 1,
            greatest: 1000,
            elements: 5,
            ..ONCE
        },
        name: b"PID",
        placing: &[],
        elements: element_list![
            must!(1, Id, 1, 1, &[b"F"]),
            may!(2, Id, 2, 2, &[b"08"]),
            must!(5, An, 1, 80),
        ],
        pairs: pair_list![],
    },
    // Row 10, ACK, in the PO1 loop: 1 to 104 times.
    TableRow {
        told: Row {
            depth: 1,
            greatest: 104,
            elements: 5,
            paired: true,
            ..ONCE
        },
        name: b"ACK",
        placing: &[],
        elements: element_list![
            must!(1, Id, 2, 2),
            must!(2, Q, 1, 9),
            must!(3, Id, 2, 2),
            may!(4, Id, 3, 3, &[b"067"]),
            may!(5, D8, 8, 8),
        ],
        pairs: pair_list![(4, 5), (5, 4)],
    },
    // Row 11, CTT: at most once.
    TableRow {
        told: Row { least: 0, ..ONCE },
        name: b"CTT",
        placing: &[],
        elements: element_list![must!(1, N0, 1, 6), may!(2, N0, 1, 10)],
        pairs: pair_list![],
    },
    // Row 12, SE: once.
    TableRow {
        told: ONCE,
        name: b"SE",
        placing: &[],
        elements: element_list![must!(1, N0, 1, 10), must!(2, An, 1, 9)],
        pairs: pair_list![],
    },
];

impl Tabled for GuideM {
    ghost meaning = { λ _. guide_m_meaning };

    ghost short = { λ _. guide_m_short };

    fn rows(&self) -> &'static [TableRow] {
        ROWS
    }
}

impl Guide for GuideM {
    ghost meaning = { λ _. guide_m_meaning };

    ghost lawful = { λ _. guide_m_lawful };

    fn row(&self, n: u8) -> Option<Row> {
        tables::row(self, n)
    }

    #[inline(always)]
    fn fits(&self, n: u8, mark: Mark<'_>) -> bool {
        tables::fits(self, n, mark)
    }

    fn rule(&self, n: u8, element: u8) -> Option<Rule> {
        tables::rule(self, n, element)
    }

    fn is_code(&self, n: u8, element: u8, value: &[u8]) -> bool {
        tables::is_code(self, n, element, value)
    }

    fn pairs(&self, n: u8, a: u8, b: u8) -> bool {
        tables::pairs(self, n, a, b)
    }

    fn paired(&self, n: u8, b: u8) -> bool {
        tables::paired(self, n, b)
    }

    fn kind(&self, first: &[u8], second: &[u8]) -> Kind {
        Kind::Original
    }

    fn needed(&self, second: &[u8]) -> Option<u8> {
        match second {
            b"RD" | b"RJ" => Some(5),
            _ => None,
        }
    }

    fn held(&self) -> bool {
        false
    }

    fn isa12(&self) -> &[u8] {
        b"00401"
    }

    fn gs08(&self) -> &[u8] {
        b"004010"
    }
}
