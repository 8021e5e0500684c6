// What a stage was given, and what it answered.
use crate::values::push_value;
use case_notation::{CaseError, push_number};
use cd_elem::{Chunk, Items, NumberList, Sort, Value};
use std::alloc::Global;

/// What a stage was given, and what it answered.
#[derive(Drop)]
pub struct Run {
    /// The chunk or piece that it was given last.
    last: NumberList,
    /// How many elements or pieces it was given.
    count: usize,
    /// What it gave: elements, or pieces each behind a slash.
    pub given: String,
    /// How often it asked.
    pub asked: usize,
    /// A line for each move.
    pub moves: String,
    /// The value that it ended with; nothing while it waits.
    pub value: String,
    /// What it gave back: elements, or a piece behind a slash.
    pub back: String,
    /// How many elements or pieces it took, where what it gave back is the last that it was given.
    pub net: Option<usize>,
}

pub fn are_pieces(sort: Sort) -> bool {
    matches!(sort, Sort::Block | Sort::Text)
}

/// How many elements or pieces these are.
fn count_in(sort: Sort, length: usize) -> usize {
    if are_pieces(sort) { 1 } else { length }
}

/// Adds elements, or a piece behind a slash.
fn write_chunk(text: &mut String, chunk: &Chunk) -> Result<(), CaseError> {
    let piece = are_pieces(chunk.sort());
    text.push_str(if piece { "/" } else { "" })?;
    for place in 0..chunk.len() {
        if let Some(number) = chunk.get(place) {
            text.push_str(if piece && place == 0 { "" } else { " " })?;
            write!(text, "{number}")?;
        }
    }
    Ok(())
}

fn push_numbers(list: &mut NumberList, chunk: &Chunk) -> Result<(), CaseError> {
    for place in 0..chunk.len() {
        if let Some(number) = chunk.get(place) {
            push_number(list, number)?;
        }
    }
    Ok(())
}

fn numbers_of(alloc: Global, chunk: &Chunk) -> Result<NumberList, CaseError> {
    let mut list = Items::new(alloc);
    push_numbers(&mut list, chunk).and(Ok(list))
}

/// Whether these are the last of what was given: elements at its end, or a piece that is all of it.
fn is_last(given: &[u32], chunk: &Chunk, numbers: &[u32]) -> bool {
    given.ends_with(numbers) && (!are_pieces(chunk.sort()) || numbers.len() == given.len())
}

impl Run {
    pub fn new(alloc: Global) -> Run {
        Run {
            last: Items::new(alloc),
            count: 0,
            given: String::new(alloc),
            asked: 0,
            moves: String::new(alloc),
            value: String::new(alloc),
            back: String::new(alloc),
            net: None,
        }
    }

    pub fn note_fed(&mut self, alloc: Global, chunk: &Chunk) -> Result<(), CaseError> {
        self.last = numbers_of(alloc, chunk)?;
        let more = count_in(chunk.sort(), chunk.len());
        self.count = self.count.saturating_add(more);
        Ok(())
    }

    pub fn note_need(&mut self) -> Result<(), CaseError> {
        self.asked = self.asked.saturating_add(1);
        self.moves.push_str("= need\n")?;
        Ok(())
    }

    pub fn note_emit(&mut self, chunk: &Chunk) -> Result<(), CaseError> {
        write_chunk(&mut self.given, chunk)?;
        self.moves.push_str("= emit")?;
        write_chunk(&mut self.moves, chunk)?;
        self.moves.push_str("\n")?;
        Ok(())
    }

    fn note_back(&mut self, alloc: Global, chunk: &Chunk) -> Result<(), CaseError> {
        write_chunk(&mut self.back, chunk)?;
        let numbers = numbers_of(alloc, chunk)?;
        let is_last = is_last(self.last.as_slice(), chunk, numbers.as_slice());
        drop(numbers);
        let returned = count_in(chunk.sort(), chunk.len());
        self.net = if is_last {
            Some(self.count.saturating_sub(returned))
        } else {
            None
        };
        Ok(())
    }

    pub fn note_end(
        &mut self,
        alloc: Global,
        value: &Value,
        rest: &Option<Chunk>,
    ) -> Result<(), CaseError> {
        push_value(&mut self.value, value)?;
        match rest {
            Some(chunk) => self.note_back(alloc, chunk)?,
            None => self.net = Some(self.count),
        }
        writeln!(self.moves, "= done {}, back{}", self.value, self.back)?;
        Ok(())
    }
}
