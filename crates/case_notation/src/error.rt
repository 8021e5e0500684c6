// Why a case has no answer.
use cd_elem::NoMemory;
use std::alloc::AllocError;
use thiserror::Error;

#[derive(Clone, Copy, Debug, Error)]
pub enum CaseError {
    #[error("out of memory")]
    NoMemory,
    /// The data is not in its form; this is what was to be there.
    #[error("expected {0}")]
    Malformed(&'static str),
}

impl From<NoMemory> for CaseError {
    fn from(_: NoMemory) -> CaseError {
        CaseError::NoMemory
    }
}

impl From<AllocError> for CaseError {
    fn from(_: AllocError) -> CaseError {
        CaseError::NoMemory
    }
}
