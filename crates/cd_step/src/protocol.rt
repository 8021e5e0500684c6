// What goes in and out of a part.
use cd_elem::{Chunk, Fault, Value};

/// What a part is given.
#[derive(Drop)]
pub enum Input {
    /// The first input of all.
    Start,
    /// Further values. It answers `Need`.
    Chunk(Chunk),
    /// There are no further values. It answers `Need`.
    End,
    /// What was emitted was taken. It answers `Emit`.
    Next,
}

/// What a part answers.
#[derive(Drop)]
pub enum Move {
    /// Values that it gives.
    Emit(Chunk),
    /// It waits for further values, or for their end.
    Need,
    /// It has ended. `rest` is what it gives back of the last chunk.
    Done { value: Value, rest: Option<Chunk> },
    /// It has met a fault in its input.
    Fault(Fault),
}

/// Where a part stands between two steps, while no site of it is waited for.
#[derive(Clone, Copy, PartialEq, Eq)]
pub enum Stand {
    Fresh,
    Wait,
    Gave,
    Over,
}
