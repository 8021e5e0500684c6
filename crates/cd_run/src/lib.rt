//! The driver: what a statement's node asks for is done on the outside.
#![tactic(auto)]

mod buffers;
mod built;
mod calls;
mod drive;
mod ending;
mod fault;
mod gathered;
mod node;
mod options;
mod pipe;
mod print;
mod read;
mod runner;
mod script;
mod write;

pub use buffers::{Buffers, Lists};
pub use built::is_built_script;
pub use calls::{acquire, info_of, release};
pub use drive::{Pause, run_node};
pub use ending::{Ended, finish};
pub use fault::RunFault;
pub use gathered::Gathered;
pub use node::StatementNode;
pub use options::Options;
pub use print::print_value;
pub use read::read_site;
pub use runner::Runner;
pub use script::run_script;
pub use write::write_all;
