// The calls on the outside, as they are listed.
use cd_elem::{ByteList, Literal, Roomy};

/// The number of an open file. 0, 1 and 2 are standard input, output and error.
#[derive(Clone, Copy, PartialEq, Eq)]
pub struct Descriptor(pub u64);

impl Descriptor {
    pub const STDIN: Descriptor = Descriptor(0);

    pub const STDOUT: Descriptor = Descriptor(1);

    pub const STDERR: Descriptor = Descriptor(2);
}

/// What an open file is for. The file of a mark is removed when it is closed.
#[derive(Clone, Copy, PartialEq, Eq)]
pub enum Use {
    Reading,
    Writing,
    Marking,
}

/// One call on the outside with its answer. A call that was refused for want of memory has no event.
#[derive(Drop)]
pub enum Event {
    OpenedRead(Literal, Descriptor),
    Created(Literal, Descriptor),
    Marked(Literal, Descriptor),
    OpenFailed(Literal),
    /// A read that gave these bytes, at least one.
    Gave(Descriptor, ByteList),
    /// A read that told the end.
    GaveEnd(Descriptor),
    ReadFailed(Descriptor),
    /// A write that took these bytes, at least one.
    Wrote(Descriptor, ByteList),
    WriteFailed(Descriptor),
    Closed(Descriptor),
    CloseFailed(Descriptor),
}

/// The calls so far, in their order.
pub type EventList = Roomy<Event>;
