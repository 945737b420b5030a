ghost use Rattle.std.specs.Prelude.{◌≡◌, ◌≤◌, length, take, Ok, Err, MatchResult};
ghost use Rattle.std.specs.List.{list_all, enumerate_from};
ghost use Rattle.x12.specs.Lists.{among};
ghost use Rattle.x12.specs.Header.{separator_of, component_of, terminator_of, separator_places, named, placed, layout_holds};
ghost use Rattle.x12.specs.Causes.{cause_of};
ghost use Rattle.x12.specs.Checks.{header_check};

use crate::classes::Class;
use crate::faults::ByteFault;
use crate::parts::{Delimiters, Interchange};

// Whether the separator has to stand at place `i` of the header.
fn is_separator_place(i: usize) -> bool
    ensures { result ≡ among i separator_places }
{
    matches!(
        i,
        3 | 6 | 17 | 20 | 31 | 34 | 50 | 53 | 69 | 76 | 81 | 83 | 89 | 99 | 101 | 103
    )
}

// Whether the interchange begins with ISA.
fn is_named(interchange: &[u8]) -> bool
    ensures { result ≡ named interchange.now }
{
    interchange.starts_with(b"ISA")
}

// Whether byte `b` may stand at place `i` of the header, before the terminator. The two delimiters are no Delimiters yet: those say of themselves that
// they are of class 5, which is tested after this.
fn is_placed(separator: u8, terminator: u8, i: usize, b: u8) -> bool
    ensures { result ≡ placed separator terminator i b }
{
    b != terminator && (b == separator) == is_separator_place(i)
}

// Whether each byte before byte 105 may stand at its place.
fn has_placed(separator: u8, terminator: u8, interchange: &[u8]) -> bool
    ensures { result ≡ list_all (λ p. placed separator terminator p.0 p.1) (take 105 (enumerate_from 0 interchange.now)) }
{
    interchange
        .iter()
        .enumerate()
        .take(105)
        .all(|(i, b)| is_placed(separator, terminator, i, *b))
}

// Whether before byte 105 no terminator stands and the separator stands at its sixteen places and no other.
fn is_laid_out(interchange: &[u8]) -> bool
    requires { 106 ≤ length interchange.now }
    ensures { result ≡ layout_holds interchange.now }
{
    has_placed(interchange[3], interchange[105], interchange)
}

// The delimiters of an interchange, or why its header is refused.
pub fn read_header(interchange: &[u8]) -> Result<Delimiters, ByteFault>
    ensures { MatchResult result
        (λ d. (header_check interchange.now ≡ Ok tt) × (d.separator ≡ separator_of interchange.now) × (d.component ≡ component_of interchange.now) × (d.terminator ≡ terminator_of interchange.now))
        (λ f. header_check interchange.now ≡ Err (cause_of f)) }
{
    if interchange.len() < 106 || interchange.len() > 65_536 {
        return Err(ByteFault::WrongLength);
    }
    if !is_named(interchange) || !is_laid_out(interchange) {
        return Err(ByteFault::WrongHeader);
    }
    let separator = interchange[3];
    let component = interchange[104];
    let terminator = interchange[105];
    if Class::of(separator) != Class::Other
        || Class::of(component) != Class::Other
        || Class::of(terminator) != Class::Other
    {
        return Err(ByteFault::WrongDelimiter);
    }
    Ok(Delimiters {
        separator,
        component,
        terminator,
    })
}

impl<'a> Interchange<'a> {
    // The interchange with its delimiters, or why its header is refused.
    pub fn read(bytes: &'a [u8]) -> Result<Interchange<'a>, ByteFault>
        ensures { MatchResult result
            (λ x. (x.bytes.now ≡ bytes.entry.now) × (header_check bytes.entry.now ≡ Ok tt) × (x.delimiters.separator ≡ separator_of bytes.entry.now) × (x.delimiters.component ≡ component_of bytes.entry.now) × (x.delimiters.terminator ≡ terminator_of bytes.entry.now))
            (λ f. header_check bytes.entry.now ≡ Err (cause_of f)) }
    {
        let delimiters = read_header(bytes)?;
        Ok(Interchange { bytes, delimiters })
    }
}
