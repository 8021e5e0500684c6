// Why a call of a scope was refused.
use cd_elem::Site;

/// Why a resource was not acquired. The scope is unchanged.
#[derive(Clone, Copy, PartialEq, Eq)]
pub enum AcquireError {
    /// The outside refused to open the file of the site.
    AcquireFault { site: Site },
    /// The outside had no memory for the call.
    NoMemory,
}

/// A close that failed. The resource is out of the scope all the same.
#[derive(Clone, Copy, PartialEq, Eq)]
pub struct CloseFault {
    pub site: Site,
}
