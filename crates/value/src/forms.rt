// The form of a value: the eight types of elements, and two more that only the envelope has.
#[derive(Clone, Copy, Debug, PartialEq, Eq)]
pub enum Form {
    // A whole number: digits only.
    N0,
    // A quantity: digits only.
    Q,
    // A code: capital letters and digits.
    Id,
    // A text: any bytes that can be printed, and not spaces alone.
    An,
    // A decimal number.
    R,
    // A day as CCYYMMDD.
    D8,
    // A day as YYMMDD, of the years 2000 to 2099.
    D6,
    // A time as HHMM.
    Tm,
    // Spaces only.
    Spaces,
    // Anything, of any length.
    Free,
}
