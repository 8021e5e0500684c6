//! The outside as it is: real files and the standard streams.
#![tactic(auto)]

mod host;

pub use host::HostWorld;
