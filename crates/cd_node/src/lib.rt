//! Nodes of a tree: parts that may reach sites, and the words that do.
#![tactic(auto)]

mod control;
mod copies;
mod laws;
mod makers;
mod mark;
mod node;
mod plain;
mod port;
mod protocol;
mod sink;
mod source;
mod turn;
mod values;
mod word;

pub use control::PairControl;
pub use laws::{ended_site, held_tickets, sound_leaves, sound_nodes};
pub use mark::{Mark, MarkStand, MarkTurn};
pub use node::Node;
pub use port::Medium;
pub use protocol::{NodeInput, NodeMove};
pub use sink::{Sink, SinkStand};
pub use source::{Source, SourceStand};
pub use word::WordStage;
