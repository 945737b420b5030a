ghost use Rattle.std.specs.Prelude.{◌≡◌, not, Decides};
ghost use Rattle.std.specs.List.{list_all, list_any};
ghost use Rattle.std.specs.Str.{bytes_eq};
ghost use Rattle.value.specs.Texts.{code_byte, text_byte, is_space, code, text, spaces};

use x12::classes::Class;

// Whether the byte may stand in a code: one of class 1 or 2, a capital letter or a digit. The bytes of a segment's name are the same by another rule,
// which is said and kept apart from this one.
fn is_code_byte(b: u8) -> bool
    ensures { result ≡ code_byte b }
{
    matches!(Class::of(b), Class::Capital | Class::Digit)
}

// Whether the byte may stand in a text: one of class 1 to 5, a byte that can be printed.
fn is_text_byte(b: u8) -> bool
    ensures { result ≡ text_byte b }
{
    Class::of(b) != Class::Outside
}

// Whether the bytes are a code: each is of class 1 or 2, a capital letter or a digit.
pub fn is_id(v: &[u8]) -> bool
    ensures { result ≡ code v.now }
{
    v.iter().all(|b| is_code_byte(*b))
}

// Whether each byte may stand in a text.
fn has_text_bytes(v: &[u8]) -> bool
    ensures { result ≡ list_all text_byte v.now }
{
    v.iter().all(|b| is_text_byte(*b))
}

// Whether one byte at least is no space.
fn has_filled_byte(v: &[u8]) -> bool
    ensures { result ≡ list_any (λ b. not (is_space b)) v.now }
{
    v.iter().any(|b| *b != b' ')
}

// Whether the bytes are a text: each is of class 1 to 5, a byte that can be printed, and one at least is no space.
pub fn is_text(v: &[u8]) -> bool
    ensures { result ≡ text v.now }
{
    has_text_bytes(v) && has_filled_byte(v)
}

// Whether each byte is a space.
pub(crate) fn is_spaces(v: &[u8]) -> bool
    ensures { result ≡ spaces v.now }
{
    v.iter().all(|b| *b == b' ')
}

// Whether two byte strings are one, byte for byte. Stays beside `==` for what its second clause says: that the test means equality.
pub fn same_bytes(a: &[u8], b: &[u8]) -> bool
    ensures test { result ≡ bytes_eq a.now b.now }
    ensures means { Decides result (a.now ≡ b.now) }
{
    a == b
}
