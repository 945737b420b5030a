//! The rules of the envelope's elements, and their codes. They are matches and no table as a guide has: two of the values are the guide's own, and one
//! form for the four rows is plainer than two.
ghost use Rattle.std.specs.Prelude.{◌≡◌, [], ◌∷◌};
ghost use Rattle.guide.specs.Asked.{over, test, find_rule, is_among, admits};
ghost use Rattle.elements.specs.Envelope.{isa_rules, gs_rules, ge_rules, iea_rules};
ghost use Rattle.elements.specs.Limits.{limits_in};

use guide::rules::Rule;
use value::forms::Form;

// Whether the value is the one code.
fn is_just(value: &[u8], code: &[u8]) -> bool
    ensures { result ≡ is_among value.now (code.now ∷ []) }
{
    value == code
}

// ISA: the rules, by the value of ISA12.
pub(crate) fn isa_rule(element: u8, isa12: &[u8]) -> Option<Rule>
    ensures { result ≡ over limits_in (find_rule element (isa_rules isa12.now)) }
{
    match element {
        1 | 3 | 5 | 7 => Some(Rule::must(Form::Id, 2, 2)),
        2 | 4 => Some(Rule::must(Form::Spaces, 10, 10)),
        6 | 8 => Some(Rule::must(Form::An, 15, 15)),
        9 => Some(Rule::must(Form::D6, 6, 6)),
        10 => Some(Rule::must(Form::Tm, 4, 4)),
        11 | 14 | 15 => Some(Rule::must(Form::Id, 1, 1)),
        12 => Some(Rule::must(Form::Id, isa12.len(), isa12.len())),
        13 => Some(Rule::must(Form::N0, 9, 9)),
        16 => Some(Rule::must(Form::Free, 1, 1)),
        _ => None,
    }
}

// ISA: the codes.
pub(crate) fn isa_code(element: u8, value: &[u8], isa12: &[u8]) -> bool
    ensures { result ≡ test (λ x. admits x.codes value.now) (find_rule element (isa_rules isa12.now)) }
{
    match element {
        1 | 3 => is_just(value, b"00"),
        5 | 7 => is_just(value, b"ZZ"),
        11 => is_just(value, b"U"),
        12 => is_just(value, isa12),
        14 => is_just(value, b"0"),
        15 => matches!(value, b"P" | b"T"),
        2 | 4 | 6 | 8 | 9 | 10 | 13 | 16 => true,
        _ => false,
    }
}

// GS: the rules, by the value of GS08.
pub(crate) fn gs_rule(element: u8, gs08: &[u8]) -> Option<Rule>
    ensures { result ≡ over limits_in (find_rule element (gs_rules gs08.now)) }
{
    match element {
        1 => Some(Rule::must(Form::Id, 2, 2)),
        2 | 3 => Some(Rule::must(Form::An, 2, 15)),
        4 => Some(Rule::must(Form::D8, 8, 8)),
        5 => Some(Rule::must(Form::Tm, 4, 4)),
        6 => Some(Rule::must(Form::N0, 1, 9)),
        7 => Some(Rule::must(Form::Id, 1, 1)),
        8 => Some(Rule::must(Form::Id, gs08.len(), gs08.len())),
        _ => None,
    }
}

// GS: the codes.
pub(crate) fn gs_code(element: u8, value: &[u8], gs08: &[u8]) -> bool
    ensures { result ≡ test (λ x. admits x.codes value.now) (find_rule element (gs_rules gs08.now)) }
{
    match element {
        1 => is_just(value, b"PR"),
        7 => is_just(value, b"X"),
        8 => is_just(value, gs08),
        2..=6 => true,
        _ => false,
    }
}

// GE: the rules; it has no codes.
pub(crate) fn ge_rule(element: u8) -> Option<Rule>
    ensures { result ≡ over limits_in (find_rule element ge_rules) }
{
    match element {
        1 => Some(Rule::must(Form::N0, 1, 6)),
        2 => Some(Rule::must(Form::N0, 1, 9)),
        _ => None,
    }
}

// IEA: the rules; it has no codes.
pub(crate) fn iea_rule(element: u8) -> Option<Rule>
    ensures { result ≡ over limits_in (find_rule element iea_rules) }
{
    match element {
        1 => Some(Rule::must(Form::N0, 1, 5)),
        2 => Some(Rule::must(Form::N0, 9, 9)),
        _ => None,
    }
}
