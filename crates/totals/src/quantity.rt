ghost use Rattle.std.specs.Prelude.{◌≡◌, ◌≤◌};
ghost use Rattle.totals.specs.Words.{quantity};

use value::digits::number;

// The number that 1 to 10 digits write; 0 for any other bytes.
#[derive(Clone, Copy, Debug, PartialEq, Eq)]
pub(crate) struct Quantity {
    pub(crate) value: u64,
    ghost small: { value ≤ 10000000000 },
}

impl Quantity {
    // What these bytes write.
    pub(crate) fn of(v: &[u8]) -> Quantity
        ensures { result.value ≡ quantity v.now }
    {
        if v.len() > 10 {
            return Quantity { value: 0 };
        }
        Quantity {
            value: number(v).unwrap_or(0),
        }
    }
}
