use guides::guide_b::GuideB;
use results::fill::fill;
use results::rows::{LoopRow, SegmentRow};
use std::test::Fail;
use x12::parts::Interchange;

// An interchange with the header and the first segments of the base interchange.
macro_rules! interchange {
    ($rest:literal) => {
        concat!(
            "ISA*00*          *00*          *ZZ*TESTVENDOR     *ZZ*TESTBUYER      *050620*0930*U*00401*000000007*0*T*>~",
            "GS*PR*TESTVENDOR*TESTBUYER*20050620*0930*7*X*004010~ST*855*0001~BAK*00*AC*A17*20050601*****20050620~CUR*SE*CAD~",
            "N1*BT**15*1112223~N1*ST**15*1112223~N1*VN**15*4445556~PO1*1*5*EA***EN*9781565922259~",
            $rest
        )
        .as_bytes()
    };
}

// What a row holds that is not written.
const NO_SEGMENT: SegmentRow = SegmentRow {
    place: 7,
    length: 7,
    row: 7,
    around: 7,
};

const NO_LOOP: LoopRow = LoopRow {
    opening: 7,
    last: 7,
    outer: 7,
    row: 7,
};

fn segment(place: usize, length: usize, row: u8, around: usize) -> SegmentRow {
    SegmentRow {
        place,
        length,
        row,
        around,
    }
}

fn of_loop(opening: usize, last: usize, outer: usize, row: u8) -> LoopRow {
    LoopRow {
        opening,
        last,
        outer,
        row,
    }
}

#[test]
fn base_interchange(rt: HostRuntime) -> Result<(), Fail> {
    let base = interchange!(
        "ACK*IA*5*EA************************BI*ACK*AC~CTT*1*5~SE*10*0001~GE*1*7~IEA*1*000000007~"
    );
    let Ok(read) = Interchange::read(base) else {
        return Err(Fail::new("a sound header"));
    };
    let mut segments = [NO_SEGMENT; 15];
    let mut loops = [NO_LOOP; 3];
    fill(&GuideB, &read, &mut segments, &mut loops);
    assert_eq!(rt; segments[0], segment(0, 105, 0, 0));
    assert_eq!(rt; segments[1], segment(106, 51, 0, 0));
    assert_eq!(rt; segments[2], segment(158, 11, 1, 0));
    assert_eq!(rt; segments[8], segment(271, 29, 7, 1));
    assert_eq!(rt; segments[9], segment(301, 44, 10, 2));
    assert_eq!(rt; segments[10], segment(346, 7, 12, 0));
    assert_eq!(rt; segments[13], segment(372, 15, 0, 0));
    assert_eq!(rt; segments[14], NO_SEGMENT);
    assert_eq!(rt;
        loops,
        [of_loop(9, 10, 0, 7), of_loop(10, 10, 1, 10), NO_LOOP]
    );
    Ok(())
}

#[test]
fn two_acknowledgments(rt: HostRuntime) -> Result<(), Fail> {
    let text = interchange!(
        "ACK*IA*2*EA************************BI*ACK*AC~ACK*IA*3*EA************************BI*ACK*AC~SCH*3*EA***067*20050701~CTT*1*5~SE*12*0001~GE*1*7~IEA*1*000000007~"
    );
    let Ok(read) = Interchange::read(text) else {
        return Err(Fail::new("a sound header"));
    };
    let mut segments = [NO_SEGMENT; 16];
    let mut loops = [NO_LOOP; 3];
    fill(&GuideB, &read, &mut segments, &mut loops);
    assert_eq!(rt;
        [
            segments[8].around,
            segments[9].around,
            segments[10].around,
            segments[11].around,
            segments[12].around,
        ],
        [1, 2, 3, 3, 0]
    );
    assert_eq!(rt;
        loops,
        [
            of_loop(9, 12, 0, 7),
            of_loop(10, 10, 1, 10),
            of_loop(11, 12, 1, 10),
        ]
    );
    Ok(())
}
