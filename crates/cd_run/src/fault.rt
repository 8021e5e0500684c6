// Why a run ended without a value.
use cd_elem::{Fault, Site};
use std::fmt::{self, Debug, Display, Formatter, Write};
use thiserror::Error;

/// Why a run ended without a value. No call follows it but the end of the scope.
#[derive(Clone, Copy, PartialEq, Eq, Error)]
pub enum RunFault {
    /// A decoder refused its input.
    #[error("a decoder refused its input")]
    Decode(Fault),
    /// The outside refused to open a site's file.
    #[error("a file was not opened")]
    AcquireFault { site: Site },
    /// A read of a site failed.
    #[error("a read failed")]
    ReadFault { site: Site },
    /// A write of a site failed; site 0 is where results are printed.
    #[error("a write failed")]
    WriteFault { site: Site },
    /// A close before the end of the run failed. The file is closed all the same.
    #[error("a close failed")]
    CloseFault { site: Site },
    /// A source has more bytes than the limit.
    #[error("a source has more bytes than the limit")]
    TooLong { site: Site },
    #[error("out of memory")]
    NoMemory,
}

// It shows its message: a fault of the input and a site have no `Debug` to derive from.
impl Debug for RunFault {
    fn fmt<W: Write>(&self, f: &mut Formatter<W>) -> fmt::Result {
        Display::fmt(self, f)
    }
}
