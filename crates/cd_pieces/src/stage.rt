// A suspended piece word.
ghost use Rattle.std.specs.Prelude.{◌≡◌, ◌≤◌, ◌<◌, ◌+◌, ◌^◌, ℕ, List, IfOk, OnErr, None, Some, false, true};
ghost use Rattle.cd_elem.specs.declared.word.ElemWord.TheVariants as elem;
ghost use Rattle.cd_elem.specs.declared.word.Word.TheVariants as words;
ghost use Rattle.cd_meaning.specs.Stream.{End, Item};
ghost use Rattle.cd_meaning.specs.RunShapes.{Seen};
ghost use Rattle.cd_meaning.specs.WordMeanings.{word_meaning};
ghost use Rattle.cd_step.specs.Parts.{Chunk, Fresh, Goes, IsChunk, pieces_at, sort_at, weight};
ghost use Rattle.cd_step.specs.declared.protocol.Stand.TheVariants as stand;
ghost use Rattle.cd_pieces.specs.Carried.{HasType, bound_of, gives_of, word_gives};
ghost use Rattle.cd_pieces.specs.Stages.{DueFits, IsAnswered, IsFinal, IsSameStage, IsWell, ReplyFits, Went, asks_of, held_of, seen_from, seen_stage, stage_fits, stage_most, with_due};
ghost use Rattle.cd_pieces.specs.declared.state.WordState.{WordState};

use crate::due::Due;
use crate::first::{most_of, state_of};
use crate::read::{asks, final_value, read};
use crate::reply::PieceReply;
use crate::state::{Keeping, Sifting, WordState};
use cd_elem::{Chunk, Kind, NoMemory, PieceWord};
use cd_step::{Input, Move, Stage, Stand, weight_of};
use std::alloc::Global;

/// A piece word between two steps.
#[derive(Drop)]
pub struct PieceStage {
    stand: Stand,
    // whether it was told the end
    told: bool,
    // of the pieces that it takes
    takes: Kind,
    // the bound of the word
    most: u64,
    state: WordState,
    // what it gives before it reads on
    due: Option<Due>,
}

impl PieceStage {
    fn room(&self) -> u64
        ensures value { result ≡ self.now.most }
        ensures fits { result < 2 ^ 64 }
    {
        self.most
    }

    /// Sets what it gives before it reads on, where nothing is due.
    fn set_due(&mut self, due: Option<Due>)
        requires { self.old.due ≡ None }
        ensures { self.new ≡ record self.old { due = due } }
    {
        self.due = due;
    }

    /// It ends with its value, and gives nothing back.
    #[cold]
    #[inline(never)]
    fn finish(&mut self, alloc: Global) -> Result<Move, NoMemory>
        requires { IsWell self.old }
        ensures law { IfOk result (IsFinal self.old.state) }
        ensures stand { IfOk result (λ made. self.new.stand ≡ stand.Over) }
        ensures told { self.new.told ≡ self.old.told }
        ensures same { IsSameStage self.old self.new }
        ensures well { IsWell self.new }
        ensures less { held_of self.new ≤ held_of self.old }
    {
        let value = final_value(alloc, &mut self.state)?;
        self.stand = Stand::Over;
        Ok(Move::Done { value, rest: None })
    }

    /// A step with nothing due.
    fn ask(&mut self, alloc: Global) -> Result<Move, NoMemory>
        requires told { self.old.told ≡ false }
        requires due { self.old.due ≡ None }
        requires well { IsWell self.old }
        ensures law { IfOk result (λ made. Went self.old made self.new) }
        ensures fit { IfOk result (λ made. stage_fits self.new) }
        ensures same { IsSameStage self.old self.new }
        ensures well { IsWell self.new }
        ensures less { held_of self.new ≤ held_of self.old }
    {
        if asks(&self.state) {
            self.stand = Stand::Wait;
            return Ok(Move::Need);
        }
        let made = self.finish(alloc)?;
        Ok(made)
    }

    /// A step with what is due.
    fn give(&mut self, alloc: Global, due: Due) -> Result<Move, NoMemory>
        requires told { self.old.told ≡ false }
        requires due { self.old.due ≡ None }
        requires well { IsWell self.old }
        requires fits { DueFits self.old.takes (gives_of self.old.state self.old.takes) (Some due) }
        ensures law { IfOk result (λ made. Went (with_due due self.old) made self.new) }
        ensures fit { IfOk result (λ made. stage_fits self.new) }
        ensures same { IsSameStage self.old self.new }
        ensures well { IsWell self.new }
        ensures less { held_of self.new ≤ held_of (with_due due self.old) }
    {
        let (piece, rest) = due.next(alloc)?;
        self.set_due(rest);
        self.stand = Stand::Gave;
        Ok(Move::Emit(piece))
    }

    /// It does what the word said of a piece.
    fn answer(&mut self, alloc: Global, reply: PieceReply) -> Result<Move, NoMemory>
        requires told { self.old.told ≡ false }
        requires due { self.old.due ≡ None }
        requires well { IsWell self.old }
        requires fits { (c : Chunk) × IsChunk self.old.takes c × ReplyFits self.old.takes (gives_of self.old.state self.old.takes) c reply }
        ensures law { IfOk result (λ made. (s : WordState) (c : Chunk) → IsAnswered self.old s c reply → Goes made (seen_from s c self.old) (seen_stage self.new)) }
        ensures fit { IfOk result (λ made. stage_fits self.new) }
        ensures same { IsSameStage self.old self.new }
        ensures well { IsWell self.new }
        ensures less { OnErr result (held_of self.new ≤ held_of self.old) }
    {
        match reply {
            PieceReply::Skip => {
                let made = self.ask(alloc)?;
                Ok(made)
            }
            PieceReply::Give(piece, due) => {
                self.set_due(due);
                self.stand = Stand::Gave;
                Ok(Move::Emit(piece))
            }
            PieceReply::End(value) => {
                self.stand = Stand::Over;
                Ok(Move::Done { value, rest: None })
            }
            PieceReply::Back(value, piece) => {
                self.stand = Stand::Over;
                Ok(Move::Done {
                    value,
                    rest: Some(piece),
                })
            }
        }
    }

    /// A step with a piece.
    fn take_in(&mut self, alloc: Global, piece: Chunk) -> Result<Move, NoMemory>
        requires told { self.old.told ≡ false }
        requires due { self.old.due ≡ None }
        requires asks { asks_of self.old.state ≡ true }
        requires well { IsWell self.old }
        requires piece { IsChunk self.old.takes piece }
        ensures law { IfOk result (λ made. Goes made (seen_from self.old.state piece self.old) (seen_stage self.new)) }
        ensures fit { IfOk result (λ made. stage_fits self.new) }
        ensures same { IsSameStage self.old self.new }
        ensures well { IsWell self.new }
        ensures less { OnErr result (held_of self.new ≤ held_of self.old + weight piece) }
    {
        let _room = self.room();
        let reply = read(alloc, &mut self.state, piece)?;
        let made = self.answer(alloc, reply)?;
        Ok(made)
    }

    fn go(&mut self, alloc: Global) -> Result<Move, NoMemory>
        requires told { self.old.told ≡ false }
        requires well { IsWell self.old }
        ensures law { IfOk result (λ made. Went self.old made self.new) }
        ensures fit { IfOk result (λ made. stage_fits self.new) }
        ensures same { IsSameStage self.old self.new }
        ensures well { IsWell self.new }
        ensures less { held_of self.new ≤ held_of self.old }
    {
        match self.due.take() {
            Some(due) => {
                let made = self.give(alloc, due)?;
                Ok(made)
            }
            None => {
                let made = self.ask(alloc)?;
                Ok(made)
            }
        }
    }
}

impl Stage for PieceStage {
    ghost use Rattle.cd_pieces.specs.Stages.{stage_one};

    ghost seen = { seen_stage };

    ghost fits = { stage_fits };

    ghost most = { stage_most };

    ghost one = { stage_one };

    fn step(&mut self, alloc: Global, input: Input) -> Result<Move, NoMemory> {
        match input {
            Input::Chunk(piece) => {
                let made = self.take_in(alloc, piece)?;
                Ok(made)
            }
            Input::End => {
                self.told = true;
                let made = self.finish(alloc)?;
                Ok(made)
            }
            Input::Start | Input::Next => {
                let made = self.go(alloc)?;
                Ok(made)
            }
        }
    }

    fn held(&self) -> u64 {
        let carried = match &self.state {
            WordState::Keep(Keeping::Last(Some(piece))) => weight_of(piece),
            WordState::Keep(Keeping::Collect(collected)) => collected.weight(),
            _ => 0,
        };
        let due = match &self.due {
            Some(due) => weight_of(&due.piece),
            None => 0,
        };
        carried + due
    }

    fn bound(&self) -> u64 {
        self.most
    }

    // A piece is read when it comes, so that none is unread between two steps.
    fn retire(&mut self) -> Option<Chunk> {
        None
    }
}

/// The stage of a piece word where pieces of this kind come to it. It has not started, and its run is the word's.
pub fn piece_stage(alloc: Global, word: &PieceWord, kind: Kind) -> Result<PieceStage, NoMemory>
    requires { HasType word.now kind }
    ensures fit { IfOk result stage_fits }
    ensures fresh { IfOk result (λ e. (seen_stage e).at ≡ Fresh) }
    ensures none_held { IfOk result (λ e. (seen_stage e).held ≡ 0) }
    ensures takes { IfOk result (λ e. (seen_stage e).takes ≡ Some kind) }
    ensures gives { IfOk result (λ e. (seen_stage e).gives ≡ word_gives word.now kind) }
    ensures bound { IfOk result (λ e. stage_most e ≡ bound_of word.now kind) }
    ensures means { IfOk result (λ e. (z : Seen) (site : ℕ) (seen : Seen) (xs : List Item) (end : End)
        → (seen_stage e).run z xs end ≡ (word_meaning (words.Piece word.now)).run (Some (sort_at kind)) site seen xs end) }
{
    let state = state_of(alloc, word, kind)?;
    Ok(PieceStage {
        stand: Stand::Fresh,
        told: false,
        takes: kind,
        most: most_of(word, kind),
        state,
        due: None,
    })
}

/// The stage of the element word `sinkNull` where pieces of this kind come to it. It reads them all, gives nothing, and
/// ends with unit at the end of its input. `elem_stage` of cd_elemwise makes this word for pieces of every length that may
/// flow, while the parts of a sequence over pieces have to take one and the same kind.
pub fn sink_null(kind: Kind) -> PieceStage
    requires { pieces_at kind ≡ true }
    ensures fit { stage_fits result }
    ensures fresh { (seen_stage result).at ≡ Fresh }
    ensures none_held { (seen_stage result).held ≡ 0 }
    ensures takes { (seen_stage result).takes ≡ Some kind }
    ensures gives { (seen_stage result).gives ≡ None }
    ensures bound { stage_most result ≡ 0 }
    ensures means { (z : Seen) (site : ℕ) (seen : Seen) (xs : List Item) (end : End)
        → (seen_stage result).run z xs end ≡ (word_meaning (words.Elem elem.SinkNull)).run (Some (sort_at kind)) site seen xs end }
{
    PieceStage {
        stand: Stand::Fresh,
        told: false,
        takes: kind,
        most: 0,
        state: WordState::Sift(Sifting::SinkNull),
        due: None,
    }
}
