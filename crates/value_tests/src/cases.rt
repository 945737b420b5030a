use value::digits::{digit_count, number};
use value::forms::Form;
use value::texts::same_bytes;
use value::types::{has_length, has_type};

#[test]
fn digits_of_decimals_count(rt: HostRuntime) {
    assert_eq!(rt; digit_count(b"-"), 0);
    assert_eq!(rt; digit_count(b"."), 0);
    assert_eq!(rt; digit_count(b"ABC"), 0);
    assert_eq!(rt; digit_count(b"-1.50"), 3);
    assert!(rt; has_length(Form::R, 1, 3, b"-1.50"));
    assert!(rt; !has_length(Form::R, 1, 3, b"ABC"));
}

#[test]
fn decimals(rt: HostRuntime) {
    assert!(rt; has_type(Form::R, b"-1.50"));
    assert!(rt; !has_type(Form::R, b"1-"));
    assert!(rt; !has_type(Form::R, b"1.2.3"));
    assert!(rt; !has_type(Form::R, b"-."));
}

#[test]
fn days_of_eight_digits(rt: HostRuntime) {
    assert!(rt; !has_type(Form::D8, b"19000229"));
    assert!(rt; has_type(Form::D8, b"19000228"));
    assert!(rt; has_type(Form::D8, b"20000229"));
    assert!(rt; !has_type(Form::D8, b"21000101"));
    assert!(rt; !has_length(Form::D8, 1, 9, b"190002280"));
}

#[test]
fn days_of_six_digits(rt: HostRuntime) {
    assert!(rt; has_type(Form::D6, b"000229"));
    assert!(rt; !has_type(Form::D6, b"990229"));
    assert!(rt; !has_type(Form::D6, b"010229"));
}

#[test]
fn times(rt: HostRuntime) {
    assert!(rt; has_type(Form::Tm, b"2359"));
    assert!(rt; !has_type(Form::Tm, b"2360"));
    assert!(rt; !has_type(Form::Tm, b"2400"));
}

#[test]
fn texts(rt: HostRuntime) {
    assert!(rt; has_type(Form::An, b" a"));
    assert!(rt; !has_type(Form::An, b"   "));
    assert!(rt; has_type(Form::Spaces, b"   "));
    assert!(rt; !has_type(Form::Id, b"a9"));
    assert!(rt; !same_bytes(b"A9", b"A90"));
}

#[test]
fn numbers(rt: HostRuntime) {
    assert_eq!(rt; number(b"0042"), Some(42));
    assert_eq!(rt;
        number(b"9999999999999999999"),
        Some(9_999_999_999_999_999_999)
    );
    assert_eq!(rt; number(b"00000000000000000001"), None);
    assert_eq!(rt; number(b""), None);
}
