// Where an interchange stands: before ISA, after ISA, after GS, in a set, after a set's SE, after GE, after IEA.
#[derive(Clone, Copy, Debug, PartialEq, Eq)]
pub enum Phase {
    Start,
    Header,
    Group,
    Set,
    Closed,
    Trailer,
    End,
}
