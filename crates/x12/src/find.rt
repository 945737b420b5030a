ghost use Rattle.std.specs.Prelude.{◌≡◌, ◌≤◌, length};
ghost use Rattle.x12.specs.Find.{Finds, Passes, Stops};
ghost use Rattle.x12.specs.Segments.{is_break};

// The first place from `from` on whose byte passes the test, or the length.
fn first_from<P: Fn(u8) -> bool>(s: &[u8], from: usize, test: P) -> usize
    requires place { from ≤ length s.now }
    requires callable { P.IsAlwaysCallable test }
    ensures { Stops (P.post test) s.now from result }
{
    match s[from..].iter().position(|x| test(*x)) {
        Some(k) => from + k,
        None => s.len(),
    }
}

// The first place from `from` on that holds `b`, or the length.
pub fn find_from(s: &[u8], from: usize, b: u8) -> usize
    requires { from ≤ length s.now }
    ensures { Finds s.now from b result }
{
    first_from(s, from, |x| x == b)
}

// Whether the byte is a line break.
fn is_line_break(b: u8) -> bool
    ensures { result ≡ is_break b }
{
    b == 13 || b == 10
}

// The first place from `from` on that holds no line break, or the length.
pub(crate) fn skip_breaks(s: &[u8], from: usize) -> usize
    requires { from ≤ length s.now }
    ensures { Passes s.now from result }
{
    first_from(s, from, |x| !is_line_break(x))
}
