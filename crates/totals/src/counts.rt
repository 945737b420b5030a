ghost use Rattle.std.specs.Prelude.{◌≡◌};
ghost use Rattle.totals.specs.Amounts.{is_ordered, ordered_in};
ghost use Rattle.totals.specs.Roomy.{SmallCounts};
ghost use Rattle.totals.specs.Steps.{counts_behind, counted_by, sum_by_name, differs};

use crate::amount::Amount;
use crate::quantity::Quantity;
use placing::rows;

// How much came so far: of the interchange, of its last group, and of its last set. That the counts are small is asked where they grow and is no
// part of the type: it follows from the length of the interchange, which they do not know.
#[derive(Clone, Copy, Debug, Default, PartialEq, Eq)]
pub struct Counts {
    pub groups: usize,
    pub sets: usize,
    pub lines: usize,
    pub sum: u64,
    pub group_sets: usize,
    pub set_segments: usize,
    pub set_lines: usize,
    pub set_sum: u64,
}

impl Counts {
    // The counts behind a segment of this row, which adds this amount.
    pub(crate) fn behind(self, row: u8, amount: Amount) -> Counts
        requires { SmallCounts self }
        ensures { result ≡ counts_behind self row (is_ordered amount) (ordered_in amount) }
    {
        let (line, ordered) = match amount {
            Amount::Ordered(n) => (1, n.value),
            _ => (0, 0),
        };
        let set = usize::from(row == rows::ST);
        let group = usize::from(row == rows::GS);
        Counts {
            groups: self.groups + group,
            sets: self.sets + set,
            lines: self.lines + line,
            sum: self.sum + ordered,
            group_sets: if row == rows::GS { 0 } else { self.group_sets } + set,
            set_segments: if row == rows::ST {
                0
            } else {
                self.set_segments
            } + 1,
            set_lines: if row == rows::ST { 0 } else { self.set_lines } + line,
            set_sum: if row == rows::ST { 0 } else { self.set_sum } + ordered,
        }
    }

    // What element 1 of a segment with this row and this name has to count.
    pub(crate) fn counted(self, row: u8, name: &[u8]) -> Option<u64>
        requires { SmallCounts self }
        ensures { result ≡ counted_by self row name.now }
    {
        match (name, row) {
            (b"SE", _) => Some(self.set_segments as u64 + 1),
            (b"CTT", _) => Some(self.set_lines as u64),
            (_, rows::GE) => Some(self.group_sets as u64),
            (_, rows::IEA) => Some(self.groups as u64),
            _ => None,
        }
    }

    // What element 2 of a segment with this name has to sum, if it is filled.
    pub(crate) fn summed(self, name: &[u8]) -> Option<u64>
        ensures { result ≡ sum_by_name self name.now }
    {
        match name {
            b"CTT" => Some(self.set_sum),
            _ => None,
        }
    }
}

// Whether the value is not the number that it has to be, if there is one.
pub(crate) fn is_wrong_total(wanted: Option<u64>, v: &[u8]) -> bool
    ensures { result ≡ differs wanted v.now }
{
    wanted.is_some_and(|n| Quantity::of(v).value != n)
}
