ghost use Rattle.std.specs.Prelude.{◌≡◌};
ghost use Rattle.x12.specs.Views.{plain};
ghost use Rattle.placing.specs.Structure.{mark_in};
ghost use Rattle.placing.specs.Stages.{marked};

use guide::rules::Mark;
use x12::parts::Segment;

// What a segment is known by: its name and its first element.
pub fn mark_of<'a>(segment: &Segment<'a>) -> Mark<'a>
    ensures { marked result ≡ mark_in segment.now.separator (plain segment.now) }
{
    Mark {
        name: segment.bytes_of(0),
        first: segment.bytes_of(1),
    }
}
