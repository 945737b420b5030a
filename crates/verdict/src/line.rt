ghost use Rattle.std.specs.Prelude.{◌≡◌};
ghost use Rattle.verdict.specs.Line.{text_of};

use arrayvec::ArrayString;

// A line of text.
#[derive(Clone, Copy, Debug, PartialEq, Eq)]
pub struct Line {
    pub(crate) text: ArrayString<128>,
}

impl Line {
    // The bytes of the line.
    pub fn as_bytes(&self) -> &[u8]
        ensures { result.now ≡ text_of self.now }
    {
        self.text.as_str().as_bytes()
    }
}
