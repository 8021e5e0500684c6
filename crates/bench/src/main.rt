//! Measures how many bytes a second the stages of words read, and with the word `trees` how many go through a tree, and what a
//! step of one costs. With the word `answers` it prints what the work that is timed answers for a few bytes, and without
//! words it does nothing.
#![tactic(auto)]

mod answers;
mod elements;
mod feed;
mod row;
mod steps;
mod tree_rows;
mod trees;

use std::alloc::Global;
use std::env;
use std::rt::Clock;

/// The bytes of a chunk.
const LEN: usize = 32_768;

/// Prints the rows of the table.
fn measure<R: Print + Clock>(rt: &R, alloc: Global) -> anyhow::Result<()> {
    let bytes = feed::sample(alloc, LEN)?;
    row::plain_pass(rt, bytes.as_slice())?;
    row::copying(rt, alloc, bytes.as_slice())?;
    elements::element_words(rt, alloc, bytes.as_slice())
}

/// Prints the rows of trees, and that of copying beside them.
fn measure_trees<R: Print + Clock>(rt: &R, alloc: Global) -> anyhow::Result<()> {
    let bytes = feed::sample(alloc, LEN)?;
    row::copying(rt, alloc, bytes.as_slice())?;
    tree_rows::pipeline_row(rt, alloc, bytes.as_slice())?;
    tree_rows::chain_rows(rt, alloc, b"a")?;
    tree_rows::chain_rows(rt, alloc, bytes.as_slice())
}

fn main(rt: HostRuntime) -> anyhow::Result<()> {
    let Some(word) = env::args(&rt)?.nth(1) else {
        return Ok(());
    };
    if word.as_str() == "answers" {
        answers::print_answers(&rt, rt.alloc())
    } else if word.as_str() == "trees" {
        measure_trees(&rt, rt.alloc())
    } else {
        measure(&rt, rt.alloc())
    }
}
