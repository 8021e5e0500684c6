// What goes in and out of a node.
use cd_elem::{Chunk, Fault, Site, Value};
use cd_scope::Ticket;
use cd_world::Descriptor;

/// What a node is given. Each input but the first answers the last move.
pub enum NodeInput {
    /// The first input of all.
    Start,
    /// Further values. It answers `Need`.
    Chunk(Chunk),
    /// There are no further values. It answers `Need`.
    End,
    /// What was emitted was taken. It answers `Emit`.
    Next,
    /// The file is open. It answers `Acquire`, and the ticket is of the site that was asked for.
    Acquired(Ticket),
    /// Bytes of a site. It answers `Read`.
    Gave(Chunk),
    /// The site has no further bytes. It answers `Read`.
    GaveEnd,
    /// All was written. It answers `Write`.
    Wrote,
    /// The file is closed. It answers `Release`.
    Closed,
}

/// What a node answers.
pub enum NodeMove {
    /// Values that it gives.
    Emit(Chunk),
    /// It waits for further values, or for their end.
    Need,
    /// The file of this site is to be opened.
    Acquire(Site),
    /// It waits for bytes of this site. The descriptor is 0 for standard input, and else that of the site's ticket, which
    /// is in the node.
    Read {
        site: Site,
        descriptor: Descriptor,
    },
    /// Bytes for this site. The descriptor is 1 for standard output, and else that of the site's ticket, which is in the
    /// node.
    Write {
        site: Site,
        descriptor: Descriptor,
        chunk: Chunk,
    },
    /// The file of this ticket is to be closed.
    Release(Ticket),
    /// It has ended. `rest` is what it gives back of the last chunk.
    Done {
        value: Value,
        rest: Option<Chunk>,
    },
    /// It has met a fault in its input.
    Fault(Fault),
}
