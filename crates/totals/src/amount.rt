ghost use Rattle.totals.specs.Amounts.{AmountIs};

use crate::quantity::Quantity;

// What a segment adds to the sums: PO1, which is a line, what it orders, and ACK what it acknowledges.
#[derive(Clone, Copy, Debug, PartialEq, Eq)]
pub(crate) enum Amount {
    Ordered(Quantity),
    Acknowledged(Quantity),
    Nothing,
}

// What a segment with this name and this second element adds.
pub(crate) fn amount_of(name: &[u8], second: &[u8]) -> Amount
    ensures { AmountIs name.now second.now result }
{
    match name {
        b"PO1" => Amount::Ordered(Quantity::of(second)),
        b"ACK" => Amount::Acknowledged(Quantity::of(second)),
        _ => Amount::Nothing,
    }
}
