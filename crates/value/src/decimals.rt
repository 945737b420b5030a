ghost use Rattle.std.specs.Prelude.{◌≡◌};
ghost use Rattle.value.specs.Decimals.{decimal};

// Whether the bytes are a decimal: each is a digit, a point or a minus; a minus stands first only; there is one point at most
// and one digit at least.
pub fn is_decimal(v: &[u8]) -> bool
    ensures { result ≡ decimal v.now }
{
    let mut first = true;
    let mut point = false;
    let mut digit = false;
    for b in v {
        match *b as char {
            '0'..='9' => digit = true,
            '.' if !point => point = true,
            '-' if first => {}
            _ => return false,
        }
        first = false;
    }
    digit
}
