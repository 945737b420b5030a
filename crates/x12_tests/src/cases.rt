use std::alloc::{AllocError, Global};
use std::test::Fail;
use x12::elements::element;
use x12::faults::Fault;
use x12::scans::scan;

// An interchange that begins with a sound header, whose delimiters are `*`, `>` and `~`.
macro_rules! interchange {
    ($rest:literal) => {
        concat!(
            "ISA*00*          *00*          *ZZ*TESTVENDOR     *ZZ*TESTBUYER      *050620*0930*U*00401*000000007*0*T*>~",
            $rest
        )
        .as_bytes()
    };
}

// What the scan answers: the number of segments, or the refusal.
fn answer(interchange: &[u8]) -> Result<usize, Fault> {
    Ok(scan(interchange)?)
}

fn at(number: u8, segment: usize, element: usize, place: usize) -> Result<usize, Fault> {
    Err(Fault {
        number,
        layer: 1,
        segment,
        element,
        place,
    })
}

// A sound header and then `count` bytes `b`.
fn filled(heap: Global, count: usize, b: u8) -> Result<Vec<u8>, AllocError> {
    let mut bytes = Vec::from_slice(heap, interchange!(""))?;
    bytes.extend_from_slice(&[b].repeat(heap, count)?)?;
    Ok(bytes)
}

// `text` with byte `b` at place `i`.
fn changed(heap: Global, text: &[u8], i: usize, b: u8) -> Result<Vec<u8>, AllocError> {
    let mut bytes = Vec::from_slice(heap, text)?;
    if let Some(x) = bytes.get_mut(i) {
        *x = b;
    }
    Ok(bytes)
}

#[test]
fn header_alone_is_one_segment(rt: HostRuntime) -> Result<(), Fail> {
    assert_eq!(rt; answer(interchange!("")), Ok(1));
    Ok(())
}

#[test]
fn length_outside_its_bounds_is_1(rt: HostRuntime) -> Result<(), Fail> {
    assert_eq!(rt; answer(b""), at(1, 0, 0, 0));
    assert_eq!(rt; answer(&interchange!("")[0..105]), at(1, 0, 0, 0));
    // 65,536 bytes are judged, and their last segment has no terminator
    let most = filled(rt.alloc(), 65_430, b'A')?;
    assert_eq!(rt; answer(&most), at(5, 2, 0, 106));
    let more = filled(rt.alloc(), 65_431, b'A')?;
    assert_eq!(rt; answer(&more), at(1, 0, 0, 0));
    Ok(())
}

#[test]
fn misplaced_header_is_2(rt: HostRuntime) -> Result<(), Fail> {
    let heap = rt.alloc();
    let sound = interchange!("GS*A~");
    assert_eq!(rt; answer(&changed(heap, sound, 0, b'J')?), at(2, 1, 0, 0));
    assert_eq!(rt; answer(&changed(heap, sound, 4, b'*')?), at(2, 1, 0, 0));
    assert_eq!(rt; answer(&changed(heap, sound, 6, b'X')?), at(2, 1, 0, 0));
    assert_eq!(rt; answer(&changed(heap, sound, 103, b'X')?), at(2, 1, 0, 0));
    assert_eq!(rt; answer(&changed(heap, sound, 10, b'~')?), at(2, 1, 0, 0));
    Ok(())
}

#[test]
fn equal_delimiters_are_2(rt: HostRuntime) -> Result<(), Fail> {
    let heap = rt.alloc();
    let sound = interchange!("GS*A~");
    assert_eq!(rt; answer(&changed(heap, sound, 104, b'*')?), at(2, 1, 0, 0));
    assert_eq!(rt; answer(&changed(heap, sound, 104, b'~')?), at(2, 1, 0, 0));
    assert_eq!(rt; answer(&changed(heap, sound, 105, b'*')?), at(2, 1, 0, 0));
    Ok(())
}

#[test]
fn delimiter_of_another_class_is_3(rt: HostRuntime) -> Result<(), Fail> {
    let heap = rt.alloc();
    let sound = interchange!("GS*A~");
    assert_eq!(rt; answer(&changed(heap, sound, 104, b'A')?), at(3, 1, 0, 0));
    assert_eq!(rt; answer(&changed(heap, sound, 105, 10)?), at(3, 1, 0, 0));
    // 2 comes before 3
    let unnamed = changed(heap, sound, 0, b'J')?;
    assert_eq!(rt;
        answer(&changed(heap, &unnamed, 104, b'A')?),
        at(2, 1, 0, 0)
    );
    Ok(())
}

#[test]
fn line_breaks_after_a_terminator_are_skipped(rt: HostRuntime) -> Result<(), Fail> {
    assert_eq!(rt; answer(interchange!("\r\nGS*A~\n\r\n")), Ok(2));
    assert_eq!(rt; answer(interchange!("GS*A~ZZ~")), Ok(3));
    assert_eq!(rt; answer(interchange!("\r\nG*A~")), at(5, 2, 0, 108));
    assert_eq!(rt; answer(interchange!("GS*A\r\n~")), at(4, 2, 1, 109));
    Ok(())
}

#[test]
fn empty_segment_and_rest_are_5(rt: HostRuntime) -> Result<(), Fail> {
    assert_eq!(rt; answer(interchange!("GS*A~~SE*1~")), at(5, 3, 0, 111));
    assert_eq!(rt; answer(interchange!("~")), at(5, 2, 0, 106));
    assert_eq!(rt; answer(interchange!("X")), at(5, 2, 0, 106));
    Ok(())
}

#[test]
fn bad_byte_stands_at_its_element(rt: HostRuntime) -> Result<(), Fail> {
    assert_eq!(rt; answer(interchange!("GS*AB\x01C*D~")), at(4, 2, 1, 109));
    assert_eq!(rt; answer(interchange!("GS*A*B>C~")), at(4, 2, 2, 111));
    // the fault of an earlier segment comes first
    assert_eq!(rt; answer(interchange!("GS*\x01~~")), at(4, 2, 1, 109));
    Ok(())
}

#[test]
fn bad_byte_in_the_header_is_4_but_for_its_last_element(rt: HostRuntime) -> Result<(), Fail> {
    let heap = rt.alloc();
    let sound = interchange!("");
    assert_eq!(rt; answer(&changed(heap, sound, 40, 7)?), at(4, 1, 6, 35));
    assert_eq!(rt; answer(&changed(heap, sound, 92, b'>')?), at(4, 1, 13, 90));
    Ok(())
}

#[test]
fn second_isa_is_4_at_its_element_16(rt: HostRuntime) -> Result<(), Fail> {
    let twice = interchange!(
        "ISA*00*          *00*          *ZZ*TESTVENDOR     *ZZ*TESTBUYER      *050620*0930*U*00401*000000007*0*T*>~"
    );
    assert_eq!(rt; answer(twice), at(4, 2, 16, 210));
    Ok(())
}

#[test]
fn rest_without_terminator_is_5_but_for_a_bad_byte_in_its_name(
    rt: HostRuntime,
) -> Result<(), Fail> {
    assert_eq!(rt; answer(interchange!("GS*A\x01")), at(5, 2, 0, 106));
    assert_eq!(rt; answer(interchange!("G\x01*A")), at(4, 2, 0, 106));
    assert_eq!(rt; answer(interchange!("G\x01*A~")), at(4, 2, 0, 106));
    Ok(())
}

#[test]
fn name_has_two_or_three_capitals_or_digits(rt: HostRuntime) -> Result<(), Fail> {
    assert_eq!(rt; answer(interchange!("A1~123*A~")), Ok(3));
    assert_eq!(rt; answer(interchange!("gs*A~")), at(5, 2, 0, 106));
    assert_eq!(rt; answer(interchange!("ABCD*A~")), at(5, 2, 0, 106));
    assert_eq!(rt; answer(interchange!("A*A~")), at(5, 2, 0, 106));
    Ok(())
}

// Whether the element is there, at that place and with those bytes.
fn hands_out(
    interchange: &[u8],
    segment: usize,
    number: usize,
    place: usize,
    bytes: &[u8],
) -> bool {
    match element(interchange, segment, number) {
        Some(found) => found.place == place && found.bytes == bytes,
        None => false,
    }
}

#[test]
fn elements_are_handed_out_with_their_places(rt: HostRuntime) -> Result<(), Fail> {
    let text = interchange!("GS**B~SE*\x01");
    assert!(rt; hands_out(text, 1, 0, 0, b"ISA"));
    assert!(rt; hands_out(text, 1, 6, 35, b"TESTVENDOR     "));
    assert!(rt; hands_out(text, 1, 16, 104, b">"));
    assert!(rt; hands_out(text, 2, 0, 106, b"GS"));
    assert!(rt; hands_out(text, 2, 2, 110, b"B"));
    // a segment with no terminator, and a byte that is refused
    assert!(rt; hands_out(text, 3, 0, 112, b"SE"));
    assert!(rt; hands_out(text, 3, 1, 115, b"\x01"));
    Ok(())
}

#[test]
fn absent_and_empty_elements_are_not_handed_out(rt: HostRuntime) -> Result<(), Fail> {
    let text = interchange!("GS**B~SE");
    assert!(rt; element(text, 2, 1).is_none());
    assert!(rt; element(text, 2, 3).is_none());
    assert!(rt; element(text, 0, 0).is_none());
    assert!(rt; element(text, 4, 0).is_none());
    assert!(rt; element(text, 1, 17).is_none());
    // the header is refused
    assert!(rt; element(b"ISA*00", 1, 0).is_none());
    Ok(())
}
