ghost use Rattle.std.specs.Prelude.{◌≡◌, ◌<◌, ℕ, List, [], ◌∷◌, ◌++◌, map, length};
ghost use Rattle.seen.specs.Came.{bytes_of, came_before};

use arrayvec::ArrayVec;
use std::marker::Model;
use value::texts::same_bytes;

// The control number of a set: that very part of the interchange.
pub type ControlNumber<'a> = &'a [u8];

// The control numbers of the sets of one group, in the order in which they came: so few that they have no buckets.
#[derive(Drop)]
pub struct ControlNumbers<'a> {
    numbers: ArrayVec<ControlNumber<'a>, 256>,
}

impl<'a> Model for ControlNumbers<'a> {
    ghost Value = { List (List ℕ) };

    ghost view = { λ s. map bytes_of s.numbers.items };
}

impl<'a> ControlNumbers<'a> {
    // None so far.
    pub fn new() -> Self
        ensures { result ≡ [] }
    {
        ControlNumbers {
            numbers: ArrayVec::new(),
        }
    }

    // Forgets them all.
    pub fn clear(&mut self)
        ensures { self.new ≡ [] }
    {
        self.numbers.clear();
    }

    // Whether the number came before, by bytes: by same_bytes and not `==`, for what its second clause says.
    pub fn has(&self, number: &[u8]) -> bool
        ensures { result ≡ came_before number.now self.now }
    {
        self.numbers
            .as_slice()
            .iter()
            .any(|n| same_bytes(number, n))
    }

    // Puts the number after the others.
    pub fn add(&mut self, number: ControlNumber<'a>)
        requires { length self.old < 256 }
        ensures { self.new ≡ self.old ++ number.entry.now ∷ [] }
    {
        self.numbers.push(number);
    }
}
