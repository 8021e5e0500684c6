// The run of one word.
use crate::driver::run_stage;
use crate::input::{Given, case_kind, widest_kind};
use crate::run::Run;
use crate::typed::{elem_has_type, piece_has_type, split_has_type};
use case_notation::CaseError;
use cd_elem::{ElemWord, PieceWord, Sort, SplitWord, Word};
use cd_elemwise::elem_stage;
use cd_pieces::piece_stage;
use cd_split::split_stage;
use std::alloc::Global;

const UNTYPED: CaseError = CaseError::Malformed("a word that has a type there");

fn run_elem(alloc: Global, word: ElemWord, sort: Sort, given: Given<'_>) -> Result<Run, CaseError> {
    if !elem_has_type(word, sort) {
        return Err(UNTYPED);
    }
    let mut stage = elem_stage(alloc, &word, sort)?;
    let run = run_stage(alloc, &mut stage, widest_kind(sort), given);
    drop(stage);
    run
}

fn run_piece(
    alloc: Global,
    word: &PieceWord,
    sort: Sort,
    given: Given<'_>,
) -> Result<Run, CaseError> {
    let kind = case_kind(sort);
    if !piece_has_type(word, kind) {
        return Err(UNTYPED);
    }
    let mut stage = piece_stage(alloc, word, kind)?;
    let run = run_stage(alloc, &mut stage, kind, given);
    drop(stage);
    run
}

fn run_split(
    alloc: Global,
    word: SplitWord,
    sort: Sort,
    given: Given<'_>,
) -> Result<Run, CaseError> {
    let kind = case_kind(sort);
    if !split_has_type(word, kind) {
        return Err(UNTYPED);
    }
    let mut stage = split_stage(alloc, &word, kind)?;
    let run = run_stage(alloc, &mut stage, kind, given);
    drop(stage);
    run
}

/// The run of a word over what it is given.
pub fn run_word(
    alloc: Global,
    word: &Word,
    sort: Sort,
    given: Given<'_>,
) -> Result<Run, CaseError> {
    match word {
        Word::Elem(word) => run_elem(alloc, *word, sort, given),
        Word::Piece(word) => run_piece(alloc, word, sort, given),
        Word::Split(word) => run_split(alloc, *word, sort, given),
        _ => Err(CaseError::Malformed("a word on elements or pieces, or a splitter")),
    }
}
