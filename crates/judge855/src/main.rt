// Judges an interchange from standard input under guide B and prints one line.
#![tactic(auto)]

use guides::guide_b::GuideB;
use placing::structure::check_structure;
use std::io;
use std::io::Read;
use x12::faults::Fault;

// One byte more than an interchange may have is enough to tell that it is too long.
const MOST: u64 = 65_537;

fn main(rt: HostRuntime) -> io::Result<()> {
    let mut interchange = Vec::new(rt.alloc());
    let mut input = rt.stdin().take(MOST);
    input.read_to_end(&mut interchange)?;
    match check_structure(&GuideB, &interchange) {
        Ok(count) => println!(rt;
            "READ {count} segments; bytes and structure are sound; elements and totals are not judged yet"
        ),
        Err(fault) => println!(rt; "REFUSED {}", Fault::from(fault)),
    }
}
