ghost use Rattle.std.specs.Prelude.{◌≡◌};
ghost use Rattle.x12.specs.Classes.{number_of_class};
ghost use Rattle.x12.specs.Class.{class_of};

// The classes of bytes.
#[derive(Clone, Copy, Debug, PartialEq, Eq)]
pub enum Class {
    // Class 0: the bytes that stand in no other.
    Outside,
    // Class 1: A to Z.
    Capital,
    // Class 2: 0 to 9.
    Digit,
    // Class 3: the space.
    Space,
    // Class 4: a to z.
    Small,
    // Class 5: the other bytes from 33 to 126.
    Other,
}

impl Class {
    // The class of a byte.
    pub fn of(b: u8) -> Class
        ensures { number_of_class result ≡ class_of b }
    {
        match b {
            b'A'..=b'Z' => Class::Capital,
            b'0'..=b'9' => Class::Digit,
            b' ' => Class::Space,
            b'a'..=b'z' => Class::Small,
            33..=126 => Class::Other,
            _ => Class::Outside,
        }
    }
}
