// A splitter of bytes with the words behind it as a stage.
ghost use Rattle.std.specs.Prelude.{◌≡◌, ◌+◌, ◌≤◌, ◌<◌, ◌^◌, [], ℕ, List, IfOk, OnErr, None, Some, false, true, length, drop};
ghost use Rattle.cd_elem.specs.Limits.{chunk_limit};
ghost use Rattle.cd_elem.specs.declared.kind.Kind.TheVariants as kind;
ghost use Rattle.cd_elem.specs.declared.kind.Sort.TheVariants as sort;
ghost use Rattle.cd_meaning.specs.Stream.{End, Item};
ghost use Rattle.cd_meaning.specs.RunShapes.{Seen};
ghost use Rattle.cd_step.specs.Parts.{Fresh, IsChunk, IsGiven};
ghost use Rattle.cd_step.specs.declared.protocol.Move.TheVariants as moves;
ghost use Rattle.cd_step.specs.declared.protocol.Stand.TheVariants as stand;
ghost use Rattle.cd_slices.specs.Chains.{HasRange, IsCutter, IsFirst, bound_of, chain_meaning, rule_of as word_rule};
ghost use Rattle.cd_slices.specs.Slicing.{is_ready, sink_of, sink_value};
ghost use Rattle.cd_slices.specs.Stages.{HasRoom, IsEnd, IsOpen, IsSameStage, Opens, MayJoin, StopsAt, Went, cut_rule, gives_of, seen_slices, slices_fit, slices_held, slices_most, slices_one, stands, with_chunk};
ghost use Rattle.cd_slices.specs.declared.slicer.Stop.TheVariants as stop;

use crate::cut::SliceRule;
use crate::sieve::Sieve;
use crate::slicer::Slicer;
use crate::tail::{SliceEnd, Tail};
use cd_elem::{ByteList, CHUNK_LIMIT, Chunk, Items, NoMemory, SplitWord};
use cd_step::{Input, Move, Stage, Stand, behind, weight_of};
use std::alloc::Global;

/// A splitter of bytes with the words behind it, between two steps.
#[derive(Drop)]
pub struct SliceStage {
    stand: Stand,
    // whether it was told the end
    told: bool,
    slicer: Slicer,
    // what is unread of the last chunk
    keep: Option<Chunk>,
}

impl SliceStage {
    /// A list for what it gives of so many bytes.
    fn room(&self, alloc: Global, len: usize) -> Result<ByteList, NoMemory>
        requires { length self.now.slicer.open + len < 2 ^ 32 }
        ensures { IfOk result (λ out. out ≡ []) }
    {
        match self.slicer.tail.end {
            SliceEnd::Count(_) => Ok(Items::new(alloc)),
            SliceEnd::Join(_) => {
                let most = CHUNK_LIMIT.min(self.slicer.open.len() + len + 1);
                Ok(Items::from_vec(Vec::with_capacity(alloc, most)?))
            }
        }
    }

    /// It gives what was made, and keeps what is unread.
    fn emit(&mut self, out: ByteList, rest: Option<Chunk>) -> Move
        requires some { 0 < length out }
        requires most { length out ≤ chunk_limit }
        ensures value { result ≡ moves.Emit (sort.Bytes, out) }
        ensures after { self.new ≡ record self.old { stand = stand.Gave; keep = rest } }
    {
        self.keep = rest;
        self.stand = Stand::Gave;
        Move::Emit(Chunk::bytes_of(out))
    }

    /// It ends, and gives back what is unread.
    fn finish(&mut self, rest: Option<Chunk>) -> Move
        ensures value { IsEnd (sink_value (sink_of self.old.slicer.tail.end)) rest result }
        ensures after { self.new ≡ record self.old { stand = stand.Over } }
    {
        self.stand = Stand::Over;
        Move::Done {
            value: self.slicer.tail.value(),
            rest,
        }
    }

    /// It asks for more, or ends where it takes no further piece.
    fn ask(&mut self) -> Move
        requires told { self.old.told ≡ false }
        requires open { IsOpen self.old.slicer }
        requires keep { self.old.keep ≡ None }
        ensures law { Went self.old result self.new }
        ensures fit { slices_fit self.new }
        ensures same { IsSameStage self.old self.new }
        ensures keep { self.new.keep ≡ None }
        ensures slicer { self.new.slicer ≡ self.old.slicer }
    {
        if self.slicer.tail.is_over() {
            return self.finish(None);
        }
        self.stand = Stand::Wait;
        Move::Need
    }

    /// It has read so many bytes of the chunk, and no piece ends in those behind them.
    fn keep_open(&mut self, chunk: Chunk, at: usize, out: ByteList) -> Result<Move, NoMemory>
        requires bytes { chunk.0 ≡ sort.Bytes }
        requires within { at ≤ length chunk.1 }
        requires keep { self.old.keep ≡ None }
        requires told { self.old.told ≡ false }
        requires open { IsOpen self.old.slicer }
        requires room { HasRoom self.old.slicer.tail.end out }
        requires rest { StopsAt self.old.slicer (drop at chunk.1) out stop.Rest }
        ensures opens { IfOk result (λ made. Opens self.old (drop at chunk.1) out made self.new) }
        ensures fit { IfOk result (λ made. slices_fit self.new) }
        ensures same { IsSameStage self.old self.new }
        ensures open { IsOpen self.new.slicer }
        ensures keep { self.new.keep ≡ None }
        ensures err { OnErr result (length self.new.slicer.open ≤ length self.old.slicer.open) }
    {
        match chunk.as_bytes() {
            Some(bytes) => self.slicer.open.extend_from_slice(&bytes[at..])?,
            None => unreachable!(),
        }
        drop(chunk);
        if out.len() != 0 {
            return Ok(self.emit(out, None));
        }
        self.stand = Stand::Wait;
        Ok(Move::Need)
    }

    /// A step with a chunk.
    fn read(&mut self, alloc: Global, chunk: Chunk) -> Result<Move, NoMemory>
        requires told { self.old.told ≡ false }
        requires open { IsOpen self.old.slicer }
        requires keep { self.old.keep ≡ None }
        requires chunk { IsChunk kind.Bytes chunk }
        ensures law { IfOk result (λ made. Went (with_chunk (Some chunk) self.old) made self.new) }
        ensures fit { IfOk result (λ made. slices_fit self.new) }
        ensures same { IsSameStage self.old self.new }
        ensures open { IsOpen self.new.slicer }
        ensures given { IsGiven (Some kind.Bytes) self.new.keep }
        ensures err { OnErr result (slices_held self.new ≤ slices_held self.old) }
    {
        let mut out = self.room(alloc, chunk.len())?;
        let (at, stop) = match chunk.as_bytes() {
            Some(bytes) => self.slicer.run(alloc, bytes, &mut out)?,
            None => unreachable!(),
        };
        if stop.is_rest() {
            let made = self.keep_open(chunk, at, out)?;
            return Ok(made);
        }
        let rest = behind(chunk, at);
        if out.len() != 0 {
            return Ok(self.emit(out, rest));
        }
        Ok(self.finish(rest))
    }

    /// A step at the end of the input: the rest is taken first, where it is a piece.
    fn close(&mut self, alloc: Global) -> Result<Move, NoMemory>
        requires told { self.old.told ≡ true }
        requires ready { is_ready (stands self.old.slicer.tail) ≡ false }
        requires open { IsOpen self.old.slicer }
        requires keep { self.old.keep ≡ None }
        ensures law { IfOk result (λ made. Went self.old made self.new) }
        ensures fit { IfOk result (λ made. slices_fit self.new) }
        ensures same { IsSameStage self.old self.new }
        ensures open { IsOpen self.new.slicer }
        ensures keep { self.new.keep ≡ None }
        ensures err { OnErr result (length self.new.slicer.open ≤ length self.old.slicer.open) }
    {
        if !self.slicer.rule.short || self.slicer.open.len() == 0 {
            self.slicer.open = Items::new(alloc);
            return Ok(self.finish(None));
        }
        let mut out = self.room(alloc, 0)?;
        self.slicer.piece(alloc, &[], &mut out)?;
        if out.len() != 0 {
            return Ok(self.emit(out, None));
        }
        Ok(self.finish(None))
    }

    /// A step with no further input.
    fn go(&mut self, alloc: Global) -> Result<Move, NoMemory>
        requires fit { slices_fit self.old }
        ensures law { IfOk result (λ made. Went self.old made self.new) }
        ensures fit { IfOk result (λ made. slices_fit self.new) }
        ensures same { IsSameStage self.old self.new }
        ensures open { IsOpen self.new.slicer }
        ensures given { IsGiven (Some kind.Bytes) self.new.keep }
        ensures err { OnErr result (slices_held self.new ≤ slices_held self.old) }
    {
        if self.told {
            return Ok(self.finish(None));
        }
        match self.keep.take() {
            Some(chunk) => {
                let made = self.read(alloc, chunk)?;
                Ok(made)
            }
            None => Ok(self.ask()),
        }
    }
}

impl Stage for SliceStage {
    ghost seen = { seen_slices };

    ghost fits = { slices_fit };

    ghost most = { slices_most };

    ghost one = { slices_one };

    fn step(&mut self, alloc: Global, input: Input) -> Result<Move, NoMemory> {
        match input {
            Input::Chunk(chunk) => {
                let made = self.read(alloc, chunk)?;
                Ok(made)
            }
            Input::End => {
                self.told = true;
                let made = self.close(alloc)?;
                Ok(made)
            }
            Input::Start | Input::Next => {
                let made = self.go(alloc)?;
                Ok(made)
            }
        }
    }

    fn held(&self) -> u64 {
        let unread = match &self.keep {
            Some(chunk) => weight_of(chunk),
            None => 0,
        };
        self.slicer.open.len() as u64 + unread
    }

    fn bound(&self) -> u64 {
        self.slicer.rule.most as u64
    }

    fn retire(&mut self) -> Option<Chunk> {
        self.stand = Stand::Over;
        self.keep.take()
    }
}

/// By what a word cuts bytes into pieces.
fn rule_of(word: SplitWord) -> SliceRule
    requires cutter { IsCutter word }
    requires range { HasRange word }
    ensures { cut_rule result ≡ word_rule word }
{
    match word {
        SplitWord::Lines(most) => SliceRule {
            separator: Some(b'\n'),
            short: true,
            most: most as usize,
        },
        SplitWord::Split(separator, most) => SliceRule {
            separator: Some(separator as u8),
            short: true,
            most: most as usize,
        },
        SplitWord::Exact(most) => SliceRule {
            separator: None,
            short: false,
            most: most as usize,
        },
        SplitWord::ChunksOf(most) => SliceRule {
            separator: None,
            short: true,
            most: most as usize,
        },
        SplitWord::Flat | SplitWord::Unlines => unreachable!(),
    }
}

/// The stage of a chain on a stream of bytes: a splitter, words that pass pieces on or drop them, and the word that
/// takes the pieces. It has not started, and its run is the chain's. It takes no memory.
pub fn slice_stage(alloc: Global, word: SplitWord, sieves: Vec<Sieve>, end: SliceEnd) -> SliceStage
    requires cutter { IsCutter word }
    requires range { HasRange word }
    requires first { IsFirst end }
    requires joins { MayJoin end (bound_of word) }
    ensures fit { slices_fit result }
    ensures fresh { (seen_slices result).at ≡ Fresh }
    ensures none_held { (seen_slices result).held ≡ 0 }
    ensures takes { (seen_slices result).takes ≡ Some kind.Bytes }
    ensures gives { (seen_slices result).gives ≡ gives_of end }
    ensures bound { slices_most result ≡ bound_of word }
    ensures means { (z : Seen) (site : ℕ) (seen : Seen) (xs : List Item) (e : End)
        → (seen_slices result).run z xs e ≡ (chain_meaning word sieves.items end).run (Some sort.Bytes) site seen xs e }
{
    let tail = Tail {
        sieves,
        over: false,
        end,
    };
    let slicer = Slicer {
        rule: rule_of(word),
        fresh: true,
        open: Items::new(alloc),
        tail,
    };
    SliceStage {
        stand: Stand::Fresh,
        told: false,
        slicer,
        keep: None,
    }
}
