ghost use Rattle.std.specs.Prelude.{◌≡◌, ◌+◌, ◌*◌, ◌<◌, ◌++◌, length, Some};
ghost use Rattle.verdict.specs.Line.{text_of, spaced, words_of, line_of};

use crate::line::Line;
use crate::verdicts::Verdict;
use arrayvec::ArrayString;
use itoa::Buffer;
use std::fmt;

// A word, then the numbers in decimal, each after one space.
fn spaced(word: &str, all: &[u64]) -> ArrayString<128>
    requires { length word.now + 21 * length all.now < 128 }
    ensures is { result.bytes ≡ word.now ++ spaced all.now }
    ensures room { length result.bytes < 128 }
{
    let mut text = ArrayString::new();
    text.push_str(word);
    let mut digits = Buffer::new();
    for number in all {
        text.push(' ');
        text.push_str(digits.format(*number));
    }
    text
}

// The line of a verdict: what it says, and the line feed.
// Not by writeln!: that promises its text where it gives Ok, but promises Ok nowhere, however much room there is.
pub fn verdict_line(verdict: Verdict) -> Line
    ensures { text_of result ≡ line_of verdict }
{
    let mut text = match verdict {
        Verdict::Accepted(t) => spaced(
            "ACCEPTED",
            &[t.segments as u64, t.sets as u64, t.lines as u64, t.sum],
        ),
        Verdict::Refused(f) => spaced(
            "REFUSED",
            &[
                f.number as u64,
                f.layer as u64,
                f.segment as u64,
                f.element as u64,
                f.place as u64,
            ],
        ),
    };
    text.push('\n');
    Line { text }
}

// ACCEPTED with the totals, or REFUSED with what the fault says.
impl fmt::Display for Verdict {
    ghost output = { λ v. Some (words_of v) };

    fn fmt<W: fmt::Write>(&self, f: &mut fmt::Formatter<W>) -> fmt::Result {
        match *self {
            Verdict::Accepted(t) => write!(
                f,
                "ACCEPTED {} {} {} {}",
                t.segments, t.sets, t.lines, t.sum
            ),
            Verdict::Refused(fault) => write!(f, "REFUSED {fault}"),
        }
    }
}
