// The words without sites, whichever crate they are from, and chains of them that are one stage.
use cd_elem::{Chunk, NoMemory};
use cd_elemwise::ElemStage;
use cd_pieces::{LiteralStage, PieceStage};
use cd_slices::SliceStage;
use cd_split::SplitStage;
use cd_step::{Input, Move, Stage};
use std::alloc::Global;

/// A suspended word that has no site.
#[derive(Drop)]
pub enum WordStage {
    Elem(ElemStage),
    Piece(PieceStage),
    Literal(LiteralStage),
    Split(SplitStage),
    Slices(SliceStage),
}

impl Stage for WordStage {
    ghost use Rattle.cd_node.specs.WordStages.{seen_word, word_fits, word_most, word_one};

    ghost seen = { seen_word };

    ghost fits = { word_fits };

    ghost most = { word_most };

    ghost one = { word_one };

    // It stands in the loop that steps a tree, so that a word is stepped by one call.
    #[inline(always)]
    fn step(&mut self, alloc: Global, input: Input) -> Result<Move, NoMemory> {
        match self {
            WordStage::Elem(stage) => stage.step(alloc, input),
            WordStage::Piece(stage) => stage.step(alloc, input),
            WordStage::Literal(stage) => stage.step(alloc, input),
            WordStage::Split(stage) => stage.step(alloc, input),
            WordStage::Slices(stage) => stage.step(alloc, input),
        }
    }

    fn held(&self) -> u64 {
        match self {
            WordStage::Elem(stage) => stage.held(),
            WordStage::Piece(stage) => stage.held(),
            WordStage::Literal(stage) => stage.held(),
            WordStage::Split(stage) => stage.held(),
            WordStage::Slices(stage) => stage.held(),
        }
    }

    fn bound(&self) -> u64 {
        match self {
            WordStage::Elem(stage) => stage.bound(),
            WordStage::Piece(stage) => stage.bound(),
            WordStage::Literal(stage) => stage.bound(),
            WordStage::Split(stage) => stage.bound(),
            WordStage::Slices(stage) => stage.bound(),
        }
    }

    fn retire(&mut self) -> Option<Chunk> {
        match self {
            WordStage::Elem(stage) => stage.retire(),
            WordStage::Piece(stage) => stage.retire(),
            WordStage::Literal(stage) => stage.retire(),
            WordStage::Split(stage) => stage.retire(),
            WordStage::Slices(stage) => stage.retire(),
        }
    }
}
