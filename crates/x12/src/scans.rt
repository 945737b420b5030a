ghost use Rattle.std.specs.Prelude.{◌≡◌, length, MatchResult};
ghost use Rattle.x12.specs.Segments.{segments_of};
ghost use Rattle.x12.specs.Causes.{cause_of};
ghost use Rattle.x12.specs.Rank.{First, NoneOf};
ghost use Rattle.x12.specs.Met.{Met};

use crate::faults::ByteFault;
use crate::parts::Interchange;

// The number of segments of an interchange that meets no byte fault, else the first byte fault that it meets.
pub fn scan(interchange: &[u8]) -> Result<usize, ByteFault>
    ensures { MatchResult result
        (λ n. NoneOf (Met interchange.now) × (n ≡ length (segments_of interchange.now)))
        (λ f. First (Met interchange.now) (cause_of f)) }
{
    let read = Interchange::read(interchange)?;
    let mut count = 0;
    for segment in read.segments() {
        segment.check()?;
        count = segment.number;
    }
    Ok(count)
}
