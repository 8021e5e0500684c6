//! The top call: from the words of the command line, over an outside, to a status.
#![tactic(auto)]

mod arguments;
mod cause;
mod command;
mod judge;
mod report;
mod run;
mod script;
mod streams;

pub use arguments::{Command, WordsRefusal, read_words};
pub use cause::Outcome;
pub use command::conduit_main;
pub use run::{TextOutcome, run_text};
