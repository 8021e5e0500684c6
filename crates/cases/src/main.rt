//! Runs the cases of its data, or with the word `runs` those of the file `runs` where it stands, and prints each with the
//! answers that it got.
#![tactic(auto)]

mod commands;
mod given;
mod runs;
mod texts;

use anyhow::Context;
use case_notation::CaseError;
use std::alloc::Global;
use std::rt::Files;
use std::{env, fs};

/// The tables of cases, each a file of the data.
#[derive(Clone, Copy)]
enum Table {
    Texts,
    Words,
    Types,
    Commands,
    Runs,
}

impl Table {
    fn file(self) -> &'static str {
        match self {
            Table::Texts => "texts",
            Table::Words => "words",
            Table::Types => "types",
            Table::Commands => "commands",
            Table::Runs => "runs",
        }
    }

    /// Adds the lines of the answer to a case.
    fn answer(self, alloc: Global, case: &str, lines: &mut String) -> Result<(), CaseError> {
        match self {
            Table::Texts => texts::answer(alloc, case, lines),
            Table::Words => case_words::answer(alloc, case, lines),
            Table::Types => case_types::answer(alloc, case, lines),
            Table::Commands => commands::answer(alloc, case, lines),
            Table::Runs => runs::answer(alloc, case, lines),
        }
    }
}

fn print_case<R: Print>(rt: &R, alloc: Global, table: Table, case: &str) -> anyhow::Result<()> {
    let mut lines = String::new(alloc);
    table
        .answer(alloc, case, &mut lines)
        .context(format_args!("{case}"))?;
    println!(rt; "{case}\n{lines}")?;
    Ok(())
}

fn print_table<R: Print + Files + Alloc<A = Global>>(rt: &R, table: Table) -> anyhow::Result<()> {
    let data = fs::read_to_string(rt, table.file())?;
    for case in data.as_str().trim_end().split("\n\n") {
        print_case(rt, rt.alloc(), table, case)?;
    }
    Ok(())
}

fn print_all<R: Print + Files + Alloc<A = Global>>(rt: &R) -> anyhow::Result<()> {
    print_table(rt, Table::Texts)?;
    print_table(rt, Table::Words)?;
    print_table(rt, Table::Types)?;
    print_table(rt, Table::Commands)?;
    print_table(rt, Table::Runs)
}

fn main(rt: HostRuntime) -> anyhow::Result<()> {
    match env::args(&rt)?.nth(1) {
        Some(word) if word.as_str() == "runs" => print_table(&rt, Table::Runs),
        _ => print_all(&rt),
    }
}
