//! The element words, each as a stage.
#![tactic(auto)]

mod chunks;
mod class;
mod class_table;
mod collect;
mod element;
mod plan;
mod slice;
mod stage;
mod state;

pub use stage::{ElemStage, elem_stage};
