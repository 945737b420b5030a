ghost use Rattle.std.specs.Prelude.{◌≡◌, ◌<◌, cond, true, false, length, set, replicate, if◌then◌else◌, None, ◌==◌, nat_eq, slice_set};
ghost use Rattle.totals.specs.Keeps.{lacks_by};

use super::UsedRows;
use guide::guide::Guide;
use placing::rows;

impl UsedRows {
    // No row so far.
    pub(crate) fn new() -> UsedRows
        ensures { (result.needed ≡ None) × (result.used ≡ replicate 256 false) }
    {
        UsedRows {
            needed: None,
            used: [false; 256],
        }
    }

    // A segment of this row, whose second element is `second`. ST, which is row 1, begins a set, and BAK, which is row 2, says what it has to hold.
    pub(crate) fn mark<G: Guide>(&mut self, guide: &G, row: u8, second: &[u8])
        ensures byte { row < 256 }
        ensures used { self.new.used ≡ slice_set (cond (row == 1) (replicate 256 false) self.old.used) row true }
        ensures needed { self.new.needed ≡ (if nat_eq row 2 then (G.meaning guide.now).needed second.now else self.old.needed) }
    {
        let mut used = if row == rows::ST {
            [false; 256]
        } else {
            self.used
        };
        used[usize::from(row)] = true;
        let needed = if row == rows::BAK {
            guide.needed(second)
        } else {
            self.needed
        };
        *self = UsedRows { needed, used };
    }

    // Whether a segment of this row and this name ends a set that lacks the row that it has to hold.
    pub(crate) fn lacks(&self, row: u8, name: &[u8]) -> bool
        ensures { result ≡ lacks_by self.now.needed self.now.used row name.now }
    {
        match (name, self.needed) {
            (b"SE", Some(wanted)) => !(self.used[usize::from(wanted)] || row == wanted),
            _ => false,
        }
    }
}
