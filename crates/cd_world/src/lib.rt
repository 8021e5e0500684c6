//! The outside of a run: files, standard streams, and the list of all calls on them.
#![tactic(auto)]

mod event;
mod memory;
mod plan;
mod store;
mod table;
mod world;

pub use event::{Descriptor, Event, EventList, Use};
pub use memory::MemoryWorld;
pub use plan::{Fail, FailList};
pub use store::{MemoryFile, MemoryFiles};
pub use table::{OpenFile, OpenTable};
pub use world::{CloseFailed, World, WorldError};
