ghost use Rattle.std.specs.Prelude.{◌≡◌, ◌<◌, ℕ, List, [], ◌∷◌, ◌++◌, map, length};
ghost use Rattle.seen.specs.Came.{bytes_of, came_before};
ghost use Rattle.seen.specs.Chains.{Linked};

use crate::buckets::{BUCKETS, bucket_of};
use arrayvec::ArrayVec;
use std::marker::Model;
use value::texts::same_bytes;

// The number of a line, its PO101: that very part of the interchange.
pub type LineNumber<'a> = &'a [u8];

// How many line numbers there may be.
const MOST: usize = 16384;

// The numbers of the lines of one set, in the order in which they came, and for each bucket the index of its last one.
// For each number `older` has the index of the last one before it in its bucket; so a search walks from index to index and no iterator over a list
// gives what it needs. The library's maps would do it, but they allocate. The two lists are not one list of pairs, since with
// pairs a reading and its moves take more than the 1 MiB of stack that it may have.
#[derive(Drop)]
pub struct LineNumbers<'a> {
    numbers: ArrayVec<LineNumber<'a>, MOST>,
    older: ArrayVec<Option<u16>, MOST>,
    heads: [Option<u16>; BUCKETS],
}

impl<'a> Model for LineNumbers<'a> {
    ghost Value = { List (List ℕ) };

    ghost view = { λ s. map bytes_of s.numbers.items };

    ghost invariant = { λ s. Linked (map bytes_of s.numbers.items) s.older.items s.heads };
}

impl<'a> LineNumbers<'a> {
    // None so far.
    pub fn new() -> Self
        ensures { result ≡ [] }
    {
        let numbers = ArrayVec::new();
        let older = ArrayVec::new();
        LineNumbers {
            numbers,
            older,
            heads: [None; BUCKETS],
        }
    }

    // Forgets them all.
    pub fn clear(&mut self)
        ensures { self.new ≡ [] }
    {
        self.numbers.clear();
        self.older.clear();
        self.heads = [None; BUCKETS];
    }

    // Whether the number came before, by bytes: looks at those in its bucket, from the last to the first.
    pub fn has(&self, number: &[u8]) -> bool
        ensures { result ≡ came_before number.now self.now }
    {
        let mut next = self.heads[bucket_of(number)];
        while let Some(i) = next {
            let i = usize::from(i);
            if same_bytes(number, self.numbers.as_slice()[i]) {
                return true;
            }
            next = self.older.as_slice()[i];
        }
        false
    }

    // Puts the number after the others.
    pub fn add(&mut self, number: LineNumber<'a>)
        requires { length self.old < 16384 }
        ensures { self.new ≡ self.old ++ number.entry.now ∷ [] }
    {
        let bucket = bucket_of(number);
        self.older.push(self.heads[bucket]);
        self.heads[bucket] = Some(self.numbers.len() as u16);
        self.numbers.push(number);
    }
}
