ghost use Rattle.std.specs.Prelude.{◌≡◌};

use value::forms::Form;

// Whether an element has to be filled, may be, or must not be.
#[derive(Clone, Copy, Debug, PartialEq, Eq)]
pub enum Need {
    Must,
    May,
    Unused,
}

// The rule of an element: whether it is needed, its type, its least and its greatest length.
#[derive(Clone, Copy, Debug, PartialEq, Eq)]
pub struct Rule {
    pub need: Need,
    pub form: Form,
    pub least: usize,
    pub greatest: usize,
}

impl Rule {
    // The rule of an element that has to be filled.
    pub fn must(form: Form, least: usize, greatest: usize) -> Rule
        ensures { result ≡ record { need = Need.Must; form = form; least = least; greatest = greatest } }
    {
        Rule {
            need: Need::Must,
            form,
            least,
            greatest,
        }
    }
}

// A row of a guide: in how many loops it stands, how many rows the loop has that it opens (0, as many as there are, where it opens no loop), its
// least and its greatest use, the greatest number of an element that a rule or a pair rule names, and whether it has pair rules. These are asked one
// by one, so the last is a flag and no list.
#[derive(Clone, Copy, Debug, PartialEq, Eq)]
pub struct Row {
    pub depth: u8,
    pub inner: u8,
    pub least: u32,
    pub greatest: u32,
    pub elements: u8,
    pub paired: bool,
}

// What a segment is known by: its name and its first element, empty where it is absent.
#[derive(Clone, Copy, Debug, PartialEq, Eq)]
pub struct Mark<'a> {
    pub name: &'a [u8],
    pub first: &'a [u8],
}

// What the first two elements of BAK make of a set.
#[derive(Clone, Copy, Debug, PartialEq, Eq)]
pub enum Kind {
    Original,
    FollowUp,
    Wrong,
}
