// What a scope tells of its resources.
use cd_elem::{Roomy, Site};

/// A resource was acquired or closed.
#[derive(Clone, Copy, PartialEq, Eq)]
pub enum JournalLine {
    Acquired(Site),
    /// It was closed at its bracket's end, or when its key was released. A close that fails closes too.
    ClosedEarly { site: Site, failed: bool },
    /// It was closed at the end of the scope.
    ClosedAtEnd { site: Site, failed: bool },
}

/// The lines so far, in the order of the calls.
pub type JournalList = Roomy<JournalLine>;
