use guide::guide::Guide;
use guide::rules::Mark;
use guides::guide_b::GuideB;
use guides::guide_m::GuideM;
use guides::guide_odd::GuideOdd;
use placing::placer::{Placed, Placer};
use placing::structure::check_structure;
use std::alloc::{AllocError, Global};
use std::process::Abort;
use std::test::Fail;
use x12::faults::Fault;

// An interchange that begins with a sound header, whose delimiters are `*`, `>` and `~`.
macro_rules! interchange {
    ($rest:literal) => {
        concat!(
            "ISA*00*          *00*          *ZZ*TESTVENDOR     *ZZ*TESTBUYER      *050620*0930*U*00401*000000007*0*T*>~",
            $rest
        )
        .as_bytes()
    };
}

// What structure answers: the number of segments, or the refusal.
fn answer<G: Guide>(guide: &G, interchange: &[u8]) -> Result<usize, Fault> {
    Ok(check_structure(guide, interchange)?)
}

// A refusal of layer 2.
fn at(number: u8, segment: usize, place: usize) -> Result<usize, Fault> {
    Err(Fault {
        number,
        layer: 2,
        segment,
        element: 0,
        place,
    })
}

// A refusal of layer 1.
fn byte_at(number: u8, segment: usize, element: usize, place: usize) -> Result<usize, Fault> {
    Err(Fault {
        number,
        layer: 1,
        segment,
        element,
        place,
    })
}

// A sound header, `before`, then `part` so many times, then `behind`.
fn repeated(
    heap: Global,
    before: &[u8],
    part: &[u8],
    times: usize,
    behind: &[u8],
) -> Result<Vec<u8>, AllocError> {
    let mut bytes = Vec::from_slice(heap, interchange!(""))?;
    bytes.extend_from_slice(before)?;
    bytes.extend_from_slice(&part.repeat(heap, times)?)?;
    bytes.extend_from_slice(behind)?;
    Ok(bytes)
}

#[test]
fn a_whole_interchange_under_b_has_its_segments(rt: HostRuntime) -> Result<(), Fail> {
    assert_eq!(rt;
        answer(
            &GuideB,
            interchange!("GS*A~ST*855~BAK~CUR~N1*BT~N1*ST~N1*VN~PO1~ACK~CTT~SE~GE~IEA~"),
        ),
        Ok(14)
    );
    Ok(())
}

#[test]
fn missing_cur_under_b_is_6_at_segment_5(rt: HostRuntime) -> Result<(), Fail> {
    assert_eq!(rt;
        answer(
            &GuideB,
            interchange!("GS*A~ST*855~BAK~N1*BT~N1*ST~N1*VN~PO1~ACK~CTT~SE~GE~IEA~"),
        ),
        at(6, 5, 122)
    );
    Ok(())
}

#[test]
fn codes_of_a_first_element_place_only_where_they_stand_beside_the_name(
    rt: HostRuntime,
) -> Result<(), Fail> {
    // the codes of ST01, CUR01 and ACK01 are element rules
    assert_eq!(rt;
        answer(
            &GuideB,
            interchange!("GS~ST*997~BAK~CUR*XX~N1*BT~N1*ST~N1*VN~PO1~ACK*XX~CTT~SE~GE~IEA~"),
        ),
        Ok(14)
    );
    // those of N1 place it, byte for byte, and in their order
    assert_eq!(rt;
        answer(&GuideB, interchange!("GS~ST~BAK~CUR~N1*XX~")),
        at(6, 6, 120)
    );
    assert_eq!(rt;
        answer(&GuideB, interchange!("GS~ST~BAK~CUR~N1*bt~")),
        at(6, 6, 120)
    );
    assert_eq!(rt;
        answer(&GuideB, interchange!("GS~ST~BAK~CUR~N1~")),
        at(6, 6, 120)
    );
    assert_eq!(rt;
        answer(&GuideB, interchange!("GS~ST~BAK~CUR~N1*ST~")),
        at(6, 6, 120)
    );
    Ok(())
}

#[test]
fn trailers_too_early_are_6(rt: HostRuntime) -> Result<(), Fail> {
    assert_eq!(rt; answer(&GuideB, interchange!("IEA~")), at(6, 2, 106));
    assert_eq!(rt; answer(&GuideB, interchange!("GS~GE~")), at(6, 3, 109));
    assert_eq!(rt; answer(&GuideB, interchange!("GS~ST~SE~")), at(6, 4, 112));
    assert_eq!(rt;
        answer(
            &GuideB,
            interchange!("GS~ST~BAK~CUR~N1*BT~N1*ST~N1*VN~PO1~CTT~"),
        ),
        at(6, 10, 142)
    );
    assert_eq!(rt;
        answer(
            &GuideB,
            interchange!("GS~ST~BAK~CUR~N1*BT~N1*ST~N1*VN~PO1~ACK~CTT~GE~"),
        ),
        at(6, 12, 150)
    );
    assert_eq!(rt;
        answer(
            &GuideB,
            interchange!("GS~ST~BAK~CUR~N1*BT~N1*ST~N1*VN~PO1~ACK~CTT~SE~IEA~"),
        ),
        at(6, 13, 153)
    );
    Ok(())
}

#[test]
fn segments_after_iea_are_6_and_a_rest_without_terminator_is_5(
    rt: HostRuntime,
) -> Result<(), Fail> {
    assert_eq!(rt;
        answer(
            &GuideB,
            interchange!("GS~ST~BAK~CUR~N1*BT~N1*ST~N1*VN~PO1~ACK~CTT~SE~GE~IEA~ZZ~"),
        ),
        at(6, 15, 160)
    );
    assert_eq!(rt;
        answer(
            &GuideB,
            interchange!("GS~ST~BAK~CUR~N1*BT~N1*ST~N1*VN~PO1~ACK~CTT~SE~GE~IEA~IEA~"),
        ),
        at(6, 15, 160)
    );
    assert_eq!(rt;
        answer(
            &GuideB,
            interchange!("GS~ST~BAK~CUR~N1*BT~N1*ST~N1*VN~PO1~ACK~CTT~SE~GE~IEA~ZZ"),
        ),
        byte_at(5, 15, 0, 160)
    );
    assert_eq!(rt;
        answer(
            &GuideB,
            interchange!("GS~ST~BAK~CUR~N1*BT~N1*ST~N1*VN~PO1~ACK~CTT~SE~GE~IEA~\r\n"),
        ),
        Ok(14)
    );
    Ok(())
}

#[test]
fn each_end_of_input_before_iea_is_7(rt: HostRuntime) -> Result<(), Fail> {
    let text = interchange!("GS~ST~BAK~CUR~N1*BT~N1*ST~N1*VN~PO1~ACK~CTT~SE~GE~IEA~");
    assert_eq!(rt; answer(&GuideB, &text[0..106]), at(7, 2, 106));
    assert_eq!(rt; answer(&GuideB, &text[0..109]), at(7, 3, 109));
    assert_eq!(rt; answer(&GuideB, &text[0..112]), at(7, 4, 112));
    assert_eq!(rt; answer(&GuideB, &text[0..116]), at(7, 5, 116));
    assert_eq!(rt; answer(&GuideB, &text[0..120]), at(7, 6, 120));
    assert_eq!(rt; answer(&GuideB, &text[0..126]), at(7, 7, 126));
    assert_eq!(rt; answer(&GuideB, &text[0..132]), at(7, 8, 132));
    assert_eq!(rt; answer(&GuideB, &text[0..138]), at(7, 9, 138));
    assert_eq!(rt; answer(&GuideB, &text[0..142]), at(7, 10, 142));
    assert_eq!(rt; answer(&GuideB, &text[0..146]), at(7, 11, 146));
    assert_eq!(rt; answer(&GuideB, &text[0..150]), at(7, 12, 150));
    assert_eq!(rt; answer(&GuideB, &text[0..153]), at(7, 13, 153));
    assert_eq!(rt; answer(&GuideB, &text[0..156]), at(7, 14, 156));
    // line breaks count in the place of 7
    assert_eq!(rt; answer(&GuideB, interchange!("\r\nGS~\n")), at(7, 3, 112));
    Ok(())
}

#[test]
fn the_segment_comes_first_in_the_rank_and_then_the_layer(rt: HostRuntime) -> Result<(), Fail> {
    // 6 at segment 5, and a bad byte in segment 6
    assert_eq!(rt;
        answer(&GuideB, interchange!("GS~ST~BAK~N1*BT~N1*\x01~")),
        at(6, 5, 116)
    );
    // both at segment 5
    assert_eq!(rt;
        answer(&GuideB, interchange!("GS~ST~BAK~N1*BT*\x01~")),
        byte_at(4, 5, 2, 122)
    );
    // a bad byte in segment 4, and 6 at segment 5
    assert_eq!(rt;
        answer(&GuideB, interchange!("GS~ST~BAK*\x01~N1*BT~")),
        byte_at(4, 4, 1, 116)
    );
    // a bad name is never 6
    assert_eq!(rt;
        answer(&GuideB, interchange!("GS~ST~bak~")),
        byte_at(5, 4, 0, 112)
    );
    Ok(())
}

#[test]
fn there_are_99_groups_at_most(rt: HostRuntime) -> Result<(), Fail> {
    let group = b"GS~ST~BAK~CUR~N1*BT~N1*ST~N1*VN~PO1~ACK~CTT~SE~GE~";
    let most = repeated(rt.alloc(), b"", group, 99, b"IEA~")?;
    assert_eq!(rt; answer(&GuideB, &most), Ok(1190));
    let more = repeated(rt.alloc(), b"", group, 100, b"IEA~")?;
    assert_eq!(rt; answer(&GuideB, &more), at(6, 1190, 5056));
    Ok(())
}

#[test]
fn there_are_256_sets_at_most_in_a_group(rt: HostRuntime) -> Result<(), Fail> {
    let set = b"ST~BAK~CUR~N1*BT~N1*ST~N1*VN~PO1~ACK~CTT~SE~";
    let most = repeated(rt.alloc(), b"GS~", set, 256, b"GE~IEA~")?;
    assert_eq!(rt; answer(&GuideB, &most), Ok(2564));
    let more = repeated(rt.alloc(), b"GS~", set, 257, b"GE~IEA~")?;
    assert_eq!(rt; answer(&GuideB, &more), at(6, 2563, 11373));
    Ok(())
}

#[test]
fn uses_are_counted_up_to_the_greatest(rt: HostRuntime) -> Result<(), Fail> {
    let heap = rt.alloc();
    let line = b"GS~ST~BAK~CUR~N1*BT~N1*ST~N1*VN~PO1~";
    // 104 ACK in one line, 200 SCH in one ACK, one CTP
    assert_eq!(rt;
        answer(
            &GuideB,
            &repeated(heap, line, b"ACK~", 104, b"CTT~SE~GE~IEA~")?,
        ),
        Ok(117)
    );
    assert_eq!(rt;
        answer(
            &GuideB,
            &repeated(heap, line, b"ACK~", 105, b"CTT~SE~GE~IEA~")?,
        ),
        at(6, 114, 558)
    );
    let ack = b"GS~ST~BAK~CUR~N1*BT~N1*ST~N1*VN~PO1~CTP~ACK~";
    assert_eq!(rt;
        answer(
            &GuideB,
            &repeated(heap, ack, b"SCH~", 200, b"CTT~SE~GE~IEA~")?,
        ),
        Ok(215)
    );
    assert_eq!(rt;
        answer(
            &GuideB,
            &repeated(heap, ack, b"SCH~", 201, b"CTT~SE~GE~IEA~")?,
        ),
        at(6, 212, 950)
    );
    assert_eq!(rt;
        answer(&GuideB, &repeated(heap, line, b"CTP~", 2, b"ACK~")?),
        at(6, 11, 146)
    );
    // they are counted anew in each loop
    assert_eq!(rt;
        answer(
            &GuideB,
            &repeated(heap, ack, b"PO1~CTP~ACK~", 300, b"CTT~SE~GE~IEA~")?,
        ),
        Ok(915)
    );
    // 200 N1 under M, 1,000 MSG in one N9
    let m = b"GS~ST~BAK~REF*IA~";
    assert_eq!(rt;
        answer(
            &GuideM,
            &repeated(heap, m, b"N1*VN~", 200, b"PO1~PID~ACK~SE~GE~IEA~")?,
        ),
        Ok(211)
    );
    assert_eq!(rt;
        answer(&GuideM, &repeated(heap, m, b"N1*VN~", 201, b"PO1~")?),
        at(6, 206, 1323)
    );
    let n9 = b"GS~ST~BAK~REF*IA~N9*L1~";
    assert_eq!(rt;
        answer(
            &GuideM,
            &repeated(heap, n9, b"MSG~", 1000, b"N1*VN~PO1~PID~ACK~SE~GE~IEA~")?,
        ),
        Ok(1013)
    );
    assert_eq!(rt;
        answer(&GuideM, &repeated(heap, n9, b"MSG~", 1001, b"N1*VN~")?),
        at(6, 1007, 4129)
    );
    Ok(())
}

#[test]
fn rows_that_may_be_left_out_are_passed_over_under_m(rt: HostRuntime) -> Result<(), Fail> {
    assert_eq!(rt;
        answer(
            &GuideM,
            interchange!("GS~ST~BAK~REF*IA~N1*VN~PO1~PID~ACK~SE~GE~IEA~"),
        ),
        Ok(12)
    );
    assert_eq!(rt;
        answer(
            &GuideM,
            interchange!(
                "GS~ST~BAK~CUR~REF*IA~N9*L1~MSG~N9*L1~MSG~N1*VN~PO1~PID~PID~ACK~PO1~PID~ACK~CTT~SE~GE~IEA~"
            ),
        ),
        Ok(22)
    );
    // N9 asks for a MSG, PO1 for a PID
    assert_eq!(rt;
        answer(&GuideM, interchange!("GS~ST~BAK~REF*IA~N9*L1~N1*VN~")),
        at(6, 7, 129)
    );
    assert_eq!(rt;
        answer(&GuideM, interchange!("GS~ST~BAK~REF*IA~N1*VN~PO1~ACK~")),
        at(6, 8, 133)
    );
    // the rows of B are not those of M
    assert_eq!(rt;
        answer(&GuideM, interchange!("GS~ST~BAK~CUR~N1*BT~")),
        at(6, 6, 120)
    );
    Ok(())
}

#[test]
fn four_loops_one_in_the_other_under_the_odd_guide(rt: HostRuntime) -> Result<(), Fail> {
    assert_eq!(rt;
        answer(
            &GuideOdd,
            interchange!("GS~ST~BAK~REF~REF~HL*22~PO1~LIN~SLN~ACK~SLN~HL*1~SE~GE~IEA~"),
        ),
        Ok(16)
    );
    // a LIN has two SLN at least
    assert_eq!(rt;
        answer(
            &GuideOdd,
            interchange!("GS~ST~BAK~REF~REF~HL*22~PO1~LIN~SLN~ACK~HL*1~"),
        ),
        at(6, 12, 146)
    );
    // and five at most
    assert_eq!(rt;
        answer(
            &GuideOdd,
            interchange!("GS~ST~BAK~REF~REF~HL*22~PO1~LIN~SLN~SLN~SLN~SLN~SLN~SLN~"),
        ),
        at(6, 15, 158)
    );
    assert_eq!(rt;
        answer(&GuideOdd, interchange!("GS~ST~BAK~REF~REF~HL*3~")),
        at(6, 7, 124)
    );
    assert_eq!(rt;
        answer(&GuideOdd, interchange!("GS~ST~BAK~REF~REF~REF~")),
        at(6, 7, 124)
    );
    Ok(())
}

fn check_placed(
    rt: &impl Abort,
    placed: Option<Placed>,
    row: u8,
    around: usize,
    outer: usize,
) -> Result<(), Fail> {
    assert_eq!(rt; placed, Some(Placed { row, around, outer }));
    Ok(())
}

fn mark<'a>(name: &'a [u8], first: &'a [u8]) -> Mark<'a> {
    Mark { name, first }
}

#[test]
fn an_sch_after_the_second_ack_belongs_to_that_ack(rt: HostRuntime) -> Result<(), Fail> {
    let mut placer = Placer::start();
    check_placed(&rt, placer.place(&GuideB, 1, mark(b"ISA", b"")), 65, 0, 0)?;
    check_placed(&rt, placer.place(&GuideB, 2, mark(b"GS", b"")), 66, 0, 0)?;
    check_placed(&rt, placer.place(&GuideB, 3, mark(b"ST", b"")), 1, 0, 0)?;
    check_placed(&rt, placer.place(&GuideB, 4, mark(b"BAK", b"")), 2, 0, 0)?;
    check_placed(&rt, placer.place(&GuideB, 5, mark(b"CUR", b"")), 3, 0, 0)?;
    check_placed(&rt, placer.place(&GuideB, 6, mark(b"N1", b"BT")), 4, 0, 0)?;
    check_placed(&rt, placer.place(&GuideB, 7, mark(b"N1", b"ST")), 5, 0, 0)?;
    check_placed(&rt, placer.place(&GuideB, 8, mark(b"N1", b"VN")), 6, 0, 0)?;
    check_placed(&rt, placer.place(&GuideB, 9, mark(b"PO1", b"")), 7, 9, 0)?;
    check_placed(&rt, placer.place(&GuideB, 10, mark(b"ACK", b"")), 10, 10, 9)?;
    check_placed(&rt, placer.place(&GuideB, 11, mark(b"ACK", b"")), 10, 11, 9)?;
    check_placed(
        &rt,
        placer.place(&GuideB, 12, mark(b"SCH", b"")),
        11,
        11,
        11,
    )?;
    // a segment that has no place leaves the placer as it was
    assert!(rt; placer.place(&GuideB, 13, mark(b"CUR", b"")).is_none());
    check_placed(&rt, placer.place(&GuideB, 13, mark(b"PO1", b"")), 7, 13, 0)?;
    assert!(rt; !placer.is_whole());
    Ok(())
}
