// Why a text is no script.
use cd_elem::{LimitKind, NoMemory};
use thiserror::Error;

/// Why a text is refused, and the first byte of the token where that shows.
#[derive(Clone, Copy, Debug, PartialEq, Eq, Error)]
pub enum ScriptRefusal {
    /// No token begins there, or no script goes on with this token. Where the text ends too early it is its length.
    #[error("syntax error at byte {at}")]
    Syntax { at: u32 },
    /// The token passes a limit.
    #[error("limit passed at byte {at}")]
    Limit { which: LimitKind, at: u32 },
    #[error("out of memory")]
    NoMemory,
}
