//! Runs the cases of words on elements and on pieces, and of splitters.
#![tactic(auto)]

mod driver;
mod input;
mod run;
mod typed;
mod values;
mod word_runs;
mod words;

pub use word_runs::answer;
