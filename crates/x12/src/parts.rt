ghost use Rattle.std.specs.Prelude.{◌≡◌, ◌+◌, ◌^◌, ◌<◌, length};
ghost use Rattle.x12.specs.Class.{class_of};

// The three delimiters of an interchange, each of class 5.
#[derive(Clone, Copy, Debug, PartialEq, Eq)]
pub struct Delimiters {
    pub separator: u8,
    pub component: u8,
    pub terminator: u8,
    ghost printed: { (class_of separator ≡ 5) × (class_of component ≡ 5) × (class_of terminator ≡ 5) },
}

// An interchange with its delimiters. That these are those of its bytes is no invariant: it would ask more of those who make an interchange by
// hand and lend it to `fill`, which takes any.
#[derive(Clone, Copy, Debug, PartialEq, Eq)]
pub struct Interchange<'a> {
    pub bytes: &'a [u8],
    pub delimiters: Delimiters,
}

// A segment: its number, counted from 1, its place in the interchange, its bytes without the terminator, whether a terminator ends it (a flag, since no
// value goes with it), and the separator and the component separator of the interchange.
#[derive(Clone, Copy, Debug, PartialEq, Eq)]
pub struct Segment<'a> {
    pub number: usize,
    pub place: usize,
    pub bytes: &'a [u8],
    pub closed: bool,
    pub separator: u8,
    pub component: u8,
    ghost fits: { place + length bytes.now < 2 ^ 64 },
}

// An element: its number in its segment, whose name is element 0, and that very part of the interchange, with its place.
#[derive(Clone, Copy, Debug, PartialEq, Eq)]
pub struct Element<'a> {
    pub number: usize,
    pub place: usize,
    pub bytes: &'a [u8],
}
