ghost use Rattle.std.specs.Prelude.{◌≡◌, true, false, count_by, MatchOption};
ghost use Rattle.value.specs.Digits.{is_digit, digits, number_of, numeral};

use std::str;

// Whether each byte is a digit.
pub fn is_digits(v: &[u8]) -> bool
    ensures { result ≡ digits v.now }
{
    v.iter().all(|b| b.is_ascii_digit())
}

// How many bytes are digits, whatever the others are.
pub fn digit_count(v: &[u8]) -> usize
    ensures { result ≡ count_by is_digit v.now }
{
    v.iter().filter(|b| b.is_ascii_digit()).count()
}

// The number that 1 to 19 digits write; none for any other bytes.
pub fn number(v: &[u8]) -> Option<u64>
    ensures { MatchOption result
        (numeral v.now ≡ false)
        (λ n. (numeral v.now ≡ true) × (n ≡ number_of v.now)) }
{
    if v.len() > 19 || !is_digits(v) {
        return None;
    }
    let Ok(text) = str::from_utf8(v) else {
        return None;
    };
    text.parse().ok()
}
