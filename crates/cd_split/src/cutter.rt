// A splitter that cuts elements into pieces.
ghost use Rattle.std.specs.Prelude.{◌≡◌, ◌+◌, ◌≤◌, ◌<◌, ◌++◌, ◌∷◌, [], IfOk, IfSome, OnErr, None, Some, false, true, length, map, take};
ghost use Rattle.std.specs.List.{position_or_len};
ghost use Rattle.cd_meaning.specs.Stream.{Piece, Out};
ghost use Rattle.cd_step.specs.CutChunks.{elems, kind_of};
ghost use Rattle.cd_step.specs.Parts.{IsChunk, IsGiven, pieces_at, sort_at};
ghost use Rattle.cd_step.specs.Reading.{IsRead};
ghost use Rattle.cd_step.specs.declared.protocol.Stand.TheVariants as stand;
ghost use Rattle.cd_split.specs.Cutting.{IsAtPiece, IsOpen, IsPassed, IsSameCutter, RuleFits, Went, cut_scan, cutter_fits, cutter_most, cutter_one, cutter_held, is_end, line, numbers, seen_cutter, sort_of, with_chunk};

use crate::open_piece::OpenPiece;
use crate::rule::{CutRule, before_end};
use cd_elem::{Chunk, Kind, NoMemory, Value};
use cd_step::{Input, Move, Stage, Stand, behind, weight_of};
use std::alloc::Global;

/// A splitter from elements to pieces between two steps.
#[derive(Drop)]
pub struct Cutter {
    stand: Stand,
    // whether it was told the end
    told: bool,
    rule: CutRule,
    // the line has given no piece yet
    fresh: bool,
    piece: OpenPiece,
    // what is unread of the last chunk
    keep: Option<Chunk>,
}

impl Cutter {
    /// It has not started. It takes no memory.
    pub fn new(alloc: Global, rule: CutRule, takes: Kind) -> Cutter
        requires cut { pieces_at takes ≡ false }
        requires rule { RuleFits rule (sort_at takes) }
        requires some { 0 < rule.most }
        ensures fit { cutter_fits result }
        ensures stand { result.stand ≡ stand.Fresh }
        ensures told { result.told ≡ false }
        ensures rule { result.rule ≡ rule }
        ensures line { line result ≡ (true, []) }
        ensures takes { kind_of (sort_of result.piece) ≡ takes }
        ensures keep { result.keep ≡ None }
    {
        Cutter {
            stand: Stand::Fresh,
            told: false,
            rule,
            fresh: true,
            piece: OpenPiece::new(alloc, takes),
            keep: None,
        }
    }

    /// Passes a separator that directly follows a full piece: it ends the piece's line, and gives nothing.
    #[inline]
    fn pass_line_end(&mut self, chunk: Chunk) -> Option<Chunk>
        requires told { self.old.told ≡ false }
        requires open { IsOpen self.old }
        requires chunk { IsChunk (kind_of (sort_of self.old.piece)) chunk }
        ensures law { IsPassed self.old (Some chunk) self.new result }
        ensures ready { IfSome result (IsAtPiece self.new) }
        ensures given { IsGiven (Some (kind_of (sort_of self.old.piece))) result }
        ensures rule { self.new.rule ≡ self.old.rule }
        ensures piece { self.new.piece ≡ self.old.piece }
        ensures told { self.new.told ≡ false }
        ensures keep { self.new.keep ≡ self.old.keep }
    {
        if self.fresh || self.piece.len() != 0 {
            return Some(chunk);
        }
        let len = chunk.len();
        if before_end(self.rule.separator, &chunk, 1) == 1 {
            return Some(chunk);
        }
        self.fresh = true;
        behind(chunk, 1)
    }

    /// Gives the open piece with the first `count` elements, and goes on behind `end` of them.
    #[inline]
    fn give(
        &mut self,
        alloc: Global,
        chunk: Chunk,
        count: usize,
        end: usize,
        fresh: bool,
    ) -> Result<Move, NoMemory>
        requires told { self.old.told ≡ false }
        requires open { IsOpen self.old }
        requires keep { self.old.keep ≡ None }
        requires chunk { IsChunk (kind_of (sort_of self.old.piece)) chunk }
        requires within { count ≤ length chunk.1 }
        requires behind { end ≤ length chunk.1 }
        requires most { length (numbers self.old.piece) + count ≤ self.old.rule.most }
        requires read { IsRead (cut_scan self.old.rule) (line self.old) (elems (take end chunk.1)) (Out (Piece (numbers self.old.piece ++ take count chunk.1)) ∷ []) (fresh, []) }
        ensures law { IfOk result (λ made. Went (with_chunk (Some chunk) self.old) made self.new) }
        ensures fit { IfOk result (λ made. cutter_fits self.new) }
        ensures same { IsSameCutter self.old self.new }
        ensures open { IsOpen self.new }
        ensures given { IsGiven (Some (kind_of (sort_of self.new.piece))) self.new.keep }
        ensures err { OnErr result (cutter_held self.new ≤ cutter_held self.old) }
    {
        let len = chunk.len();
        match self.piece.end_with(alloc, &chunk, count) {
            Ok(piece) => {
                self.fresh = fresh;
                self.keep = behind(chunk, end);
                self.stand = Stand::Gave;
                Ok(Move::Emit(piece))
            }
            Err(refused) => {
                drop(chunk);
                Err(refused)
            }
        }
    }

    /// A step with a chunk, up to the first separator or to the end of a full piece.
    #[inline]
    fn fill(&mut self, alloc: Global, chunk: Chunk) -> Result<Move, NoMemory>
        requires told { self.old.told ≡ false }
        requires open { IsOpen self.old }
        requires keep { self.old.keep ≡ None }
        requires chunk { IsChunk (kind_of (sort_of self.old.piece)) chunk }
        requires ready { IsAtPiece self.old chunk }
        ensures law { IfOk result (λ made. Went (with_chunk (Some chunk) self.old) made self.new) }
        ensures fit { IfOk result (λ made. cutter_fits self.new) }
        ensures same { IsSameCutter self.old self.new }
        ensures open { IsOpen self.new }
        ensures given { IsGiven (Some (kind_of (sort_of self.new.piece))) self.new.keep }
        ensures err { OnErr result (cutter_held self.new ≤ cutter_held self.old) }
    {
        let len = chunk.len();
        let want = self.rule.most - self.piece.len();
        let reach = len.min(want);
        let place = before_end(self.rule.separator, &chunk, reach);
        if place < reach {
            return self.give(alloc, chunk, place, place + 1, true);
        }
        if reach == want {
            return self.give(alloc, chunk, want, want, false);
        }
        let grown = self.piece.grow(&chunk, len);
        drop(chunk);
        grown?;
        self.stand = Stand::Wait;
        Ok(Move::Need)
    }

    /// A step with a chunk.
    #[inline]
    fn read(&mut self, alloc: Global, chunk: Chunk) -> Result<Move, NoMemory>
        requires told { self.old.told ≡ false }
        requires open { IsOpen self.old }
        requires keep { self.old.keep ≡ None }
        requires chunk { IsChunk (kind_of (sort_of self.old.piece)) chunk }
        ensures law { IfOk result (λ made. Went (with_chunk (Some chunk) self.old) made self.new) }
        ensures fit { IfOk result (λ made. cutter_fits self.new) }
        ensures same { IsSameCutter self.old self.new }
        ensures open { IsOpen self.new }
        ensures given { IsGiven (Some (kind_of (sort_of self.new.piece))) self.new.keep }
        ensures err { OnErr result (cutter_held self.new ≤ cutter_held self.old) }
    {
        match self.pass_line_end(chunk) {
            Some(chunk) => {
                let made = self.fill(alloc, chunk)?;
                Ok(made)
            }
            None => {
                self.stand = Stand::Wait;
                Ok(Move::Need)
            }
        }
    }

    /// A step at the end of the input: the rest is given first, where it is a piece.
    fn close(&mut self, alloc: Global) -> Move
        requires told { self.old.told ≡ true }
        requires open { IsOpen self.old }
        requires keep { self.old.keep ≡ None }
        ensures law { Went self.old result self.new }
        ensures fit { cutter_fits self.new }
        ensures same { IsSameCutter self.old self.new }
        ensures open { IsOpen self.new }
        ensures keep { self.new.keep ≡ None }
    {
        if self.rule.short && self.piece.len() != 0 {
            self.stand = Stand::Gave;
            return Move::Emit(self.piece.end(alloc));
        }
        self.stand = Stand::Over;
        Move::Done {
            value: Value::Unit,
            rest: None,
        }
    }

    /// A step with no further input.
    #[inline]
    fn go(&mut self, alloc: Global) -> Result<Move, NoMemory>
        requires fit { cutter_fits self.old }
        ensures law { IfOk result (λ made. Went self.old made self.new) }
        ensures fit { IfOk result (λ made. cutter_fits self.new) }
        ensures same { IsSameCutter self.old self.new }
        ensures open { IsOpen self.new }
        ensures given { IsGiven (Some (kind_of (sort_of self.new.piece))) self.new.keep }
        ensures err { OnErr result (cutter_held self.new ≤ cutter_held self.old) }
    {
        if self.told {
            return Ok(self.close(alloc));
        }
        match self.keep.take() {
            Some(chunk) => {
                let made = self.read(alloc, chunk)?;
                Ok(made)
            }
            None => {
                self.stand = Stand::Wait;
                Ok(Move::Need)
            }
        }
    }
}

impl Stage for Cutter {
    ghost seen = { seen_cutter };

    ghost fits = { cutter_fits };

    ghost most = { cutter_most };

    ghost one = { cutter_one };

    fn step(&mut self, alloc: Global, input: Input) -> Result<Move, NoMemory> {
        match input {
            Input::Chunk(chunk) => {
                let made = self.read(alloc, chunk)?;
                Ok(made)
            }
            Input::End => {
                self.told = true;
                Ok(self.close(alloc))
            }
            Input::Start | Input::Next => {
                let made = self.go(alloc)?;
                Ok(made)
            }
        }
    }

    fn held(&self) -> u64 {
        let unread = match &self.keep {
            Some(chunk) => weight_of(chunk),
            None => 0,
        };
        self.piece.len() as u64 + unread
    }

    fn bound(&self) -> u64 {
        self.rule.most as u64
    }

    fn retire(&mut self) -> Option<Chunk> {
        self.stand = Stand::Over;
        self.keep.take()
    }
}
