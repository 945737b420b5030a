ghost use Rattle.std.specs.Prelude.{◌≡◌, true, length};
ghost use Rattle.totals.specs.Small.{is_byte};

mod marking;

// The rows of the segments of the last set, and the row that the set has to hold by its BAK. A flag for each number that a row may have, since nothing
// is allocated here, as a set of the library would be.
#[derive(Clone, Copy, Debug, PartialEq, Eq)]
pub struct UsedRows {
    pub needed: Option<u8>,
    pub used: [bool; 256],
    ghost small: { is_byte needed ≡ true },
    ghost whole: { length used ≡ 256 },
}
