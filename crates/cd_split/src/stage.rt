// The splitters as one stage.
ghost use Rattle.std.specs.Prelude.{◌≡◌, ◌<◌, ◌≤◌, ℕ, List, IfOk, Some, false, true};
ghost use Rattle.cd_elem.specs.Limits.{chunk_limit};
ghost use Rattle.cd_elem.specs.declared.word.Word.TheVariants as words;
ghost use Rattle.cd_meaning.specs.Stream.{End, Item};
ghost use Rattle.cd_meaning.specs.RunShapes.{Seen};
ghost use Rattle.cd_meaning.specs.WordMeanings.{word_meaning};
ghost use Rattle.cd_step.specs.Parts.{Fresh, pieces_at, sort_at};
ghost use Rattle.cd_split.specs.Cutting.{SeparatorFits};
ghost use Rattle.cd_split.specs.Splitting.{HasType, IsFirstCut, bound_of, gives_of, seen_stage, stage_fits, stage_most, stage_one};

use crate::cutter::Cutter;
use crate::joiner::Joiner;
use crate::rule::CutRule;
use cd_elem::{Chunk, Kind, NoMemory, SplitWord};
use cd_step::{Input, Move, Stage};
use std::alloc::Global;

/// A splitter between two steps.
#[derive(Drop)]
pub enum SplitStage {
    Cut(Cutter),
    Join(Joiner),
}

impl Stage for SplitStage {
    ghost seen = { seen_stage };

    ghost fits = { stage_fits };

    ghost most = { stage_most };

    ghost one = { stage_one };

    fn step(&mut self, alloc: Global, input: Input) -> Result<Move, NoMemory> {
        match self {
            SplitStage::Cut(cutter) => cutter.step(alloc, input),
            SplitStage::Join(joiner) => joiner.step(alloc, input),
        }
    }

    fn held(&self) -> u64 {
        match self {
            SplitStage::Cut(cutter) => cutter.held(),
            SplitStage::Join(joiner) => joiner.held(),
        }
    }

    fn bound(&self) -> u64 {
        match self {
            SplitStage::Cut(cutter) => cutter.bound(),
            SplitStage::Join(joiner) => joiner.bound(),
        }
    }

    fn retire(&mut self) -> Option<Chunk> {
        match self {
            SplitStage::Cut(cutter) => cutter.retire(),
            SplitStage::Join(joiner) => joiner.retire(),
        }
    }
}

/// The stage of a splitter from elements.
fn cut_stage(
    alloc: Global,
    separator: Option<char>,
    short: bool,
    most: u64,
    kind: Kind,
) -> SplitStage
    requires cut { pieces_at kind ≡ false }
    requires some { 0 < most }
    requires limit { most ≤ chunk_limit }
    requires separator { SeparatorFits separator (sort_at kind) }
    ensures { IsFirstCut (record { separator = separator; short = short; most = most }) kind result }
{
    let rule = CutRule {
        separator,
        short,
        most: most as usize,
    };
    SplitStage::Cut(Cutter::new(alloc, rule, kind))
}

/// The stage of a splitter where a stream of this kind comes to it. It has not started, and its run is the word's.
pub fn split_stage(alloc: Global, word: &SplitWord, kind: Kind) -> Result<SplitStage, NoMemory>
    requires { HasType word.now kind }
    ensures fit { IfOk result stage_fits }
    ensures fresh { IfOk result (λ e. (seen_stage e).at ≡ Fresh) }
    ensures none_held { IfOk result (λ e. (seen_stage e).held ≡ 0) }
    ensures takes { IfOk result (λ e. (seen_stage e).takes ≡ Some kind) }
    ensures gives { IfOk result (λ e. (seen_stage e).gives ≡ Some (gives_of word.now kind)) }
    ensures bound { IfOk result (λ e. stage_most e ≡ bound_of word.now) }
    ensures means { IfOk result (λ e. (z : Seen) (site : ℕ) (seen : Seen) (xs : List Item) (end : End)
        → (seen_stage e).run z xs end ≡ (word_meaning (words.Split word.now)).run (Some (sort_at kind)) site seen xs end) }
{
    match *word {
        SplitWord::Lines(most) => Ok(cut_stage(alloc, Some('\n'), true, most, kind)),
        SplitWord::Split(separator, most) => Ok(cut_stage(
            alloc,
            Some(separator),
            true,
            most,
            kind,
        )),
        SplitWord::Exact(most) => Ok(cut_stage(alloc, None, false, most, kind)),
        SplitWord::ChunksOf(most) => Ok(cut_stage(alloc, None, true, most, kind)),
        SplitWord::Flat => Ok(SplitStage::Join(Joiner::new(kind, false))),
        SplitWord::Unlines => Ok(SplitStage::Join(Joiner::new(kind, true))),
    }
}
