ghost use Rattle.std.specs.Prelude.{◌≡◌, ◌≤◌, IfSome};
ghost use Rattle.totals.specs.Amounts.{is_ordered, ordered_in, acknowledged_in};
ghost use Rattle.totals.specs.Steps.{line_after, is_unlike_close};

use crate::amount::Amount;

// A line whose loop is not closed yet: the number of its PO1 segment, its PO102, and the sum of ACK02 so far.
#[derive(Clone, Copy, Debug, PartialEq, Eq)]
pub struct OpenLine {
    pub number: usize,
    pub asked: u64,
    pub given: u64,
}

// The open line behind the segment with this number, which adds this amount. Its row stands in the loop that segment `outer` opens.
pub(crate) fn line_behind(
    last: Option<OpenLine>,
    number: usize,
    outer: usize,
    amount: Amount,
) -> Option<OpenLine>
    requires { IfSome last (λ l. l.given ≤ 655370000000000) }
    ensures { result ≡ line_after last number outer (is_ordered amount) (ordered_in amount) (acknowledged_in amount) }
{
    let more = match amount {
        Amount::Ordered(asked) => {
            return Some(OpenLine {
                number,
                asked: asked.value,
                given: 0,
            });
        }
        Amount::Acknowledged(n) => n.value,
        Amount::Nothing => 0,
    };
    match last {
        Some(l) if l.number <= outer => Some(OpenLine {
            given: l.given + more,
            ..l
        }),
        _ => None,
    }
}

// Whether the open line ends before a segment whose row stands in the loop that segment `outer` opens, with another sum than was asked.
pub(crate) fn closes_unlike(last: Option<OpenLine>, outer: usize) -> bool
    ensures { result ≡ is_unlike_close last outer }
{
    last.is_some_and(|l| outer < l.number && l.given != l.asked)
}
