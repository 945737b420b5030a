ghost use Rattle.std.specs.Prelude.{◌≡◌, ◌+◌, ◌-◌, ◌*◌};
ghost use Rattle.value.specs.Dates.{leap, days_of_month, real_day, day8, day6, time};

use crate::digits::is_digits;

// The number that two digits write; a byte below the digits counts as 0, so that any two bytes have a number.
fn two(tens: u8, ones: u8) -> u32
    ensures { result ≡ 10 * (tens - 48) + (ones - 48) }
{
    10 * u32::from(tens.saturating_sub(b'0')) + u32::from(ones.saturating_sub(b'0'))
}

// Whether the year is a leap year: divisible by 4, but by 100 only if by 400.
fn is_leap(year: u32) -> bool
    ensures { result ≡ leap year }
{
    year % 4 == 0 && (year % 100 != 0 || year % 400 == 0)
}

// The number of days of a month.
fn days_in(year: u32, month: u32) -> u32
    ensures { result ≡ days_of_month year month }
{
    match month {
        2 if is_leap(year) => 29,
        2 => 28,
        4 | 6 | 9 | 11 => 30,
        _ => 31,
    }
}

// Whether the day is one of the calendar, of the years 1900 to 2099.
fn is_real_day(year: u32, month: u32, day: u32) -> bool
    ensures { result ≡ real_day year month day }
{
    (1900..=2099).contains(&year)
        && (1..=12).contains(&month)
        && 1 <= day
        && day <= days_in(year, month)
}

// Whether the bytes are a day as CCYYMMDD: eight digits that write a day of the calendar, of the years 1900 to 2099.
pub fn is_day8(v: &[u8]) -> bool
    ensures { result ≡ day8 v.now }
{
    match v {
        [c1, c2, y1, y2, m1, m2, d1, d2] => is_digits(v)
            && is_real_day(
                100 * two(*c1, *c2) + two(*y1, *y2),
                two(*m1, *m2),
                two(*d1, *d2),
            ),
        _ => false,
    }
}

// Whether the bytes are a day as YYMMDD: six digits that write a day of the calendar, of the year 20YY.
pub fn is_day6(v: &[u8]) -> bool
    ensures { result ≡ day6 v.now }
{
    match v {
        [y1, y2, m1, m2, d1, d2] => is_digits(v)
            && is_real_day(2000 + two(*y1, *y2), two(*m1, *m2), two(*d1, *d2)),
        _ => false,
    }
}

// Whether the bytes are a time as HHMM: four digits that write hours from 00 to 23 and minutes from 00 to 59.
pub fn is_time(v: &[u8]) -> bool
    ensures { result ≡ time v.now }
{
    match v {
        [h1, h2, m1, m2] => is_digits(v) && two(*h1, *h2) <= 23 && two(*m1, *m2) <= 59,
        _ => false,
    }
}
