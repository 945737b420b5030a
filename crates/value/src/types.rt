ghost use Rattle.std.specs.Prelude.{◌≡◌};
ghost use Rattle.value.specs.Types.{good_type, good_length};

use crate::dates::{is_day6, is_day8, is_time};
use crate::decimals::is_decimal;
use crate::digits::{digit_count, is_digits};
use crate::forms::Form;
use crate::texts::{is_id, is_spaces, is_text};

// Whether the bytes are those of a value of the form.
pub fn has_type(form: Form, v: &[u8]) -> bool
    ensures { result ≡ good_type form v.now }
{
    match form {
        Form::N0 | Form::Q => is_digits(v),
        Form::Id => is_id(v),
        Form::An => is_text(v),
        Form::R => is_decimal(v),
        Form::D8 => is_day8(v),
        Form::D6 => is_day6(v),
        Form::Tm => is_time(v),
        Form::Spaces => is_spaces(v),
        Form::Free => true,
    }
}

// Whether the value has a length that the form allows: from the least to the greatest, where of a decimal only the digits count.
// A day or a time has a length of its own, and a free value may have any.
pub fn has_length(form: Form, least: usize, greatest: usize, v: &[u8]) -> bool
    ensures { result ≡ good_length form least greatest v.now }
{
    match form {
        Form::N0 | Form::Q | Form::Id | Form::An | Form::Spaces => {
            (least..=greatest).contains(&v.len())
        }
        Form::R => (least..=greatest).contains(&digit_count(v)),
        Form::D8 => v.len() == 8,
        Form::D6 => v.len() == 6,
        Form::Tm => v.len() == 4,
        Form::Free => true,
    }
}
