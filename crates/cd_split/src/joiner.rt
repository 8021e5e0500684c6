// A splitter that joins pieces to elements.
ghost use Rattle.std.specs.Prelude.{◌≡◌, ◌+◌, ◌≤◌, ◌<◌, ◌++◌, ◌∷◌, [], IfOk, OnErr, None, Some, false, true, length, take, drop, if◌then◌else◌};
ghost use Rattle.cd_elem.specs.Limits.{chunk_limit};
ghost use Rattle.cd_meaning.specs.Sorts.{elements_of};
ghost use Rattle.cd_step.specs.Parts.{IsChunk, IsGiven, pieces_at, weight, weight_any};
ghost use Rattle.cd_step.specs.declared.protocol.Stand.TheVariants as stand;
ghost use Rattle.cd_split.specs.Joining.{IsSameJoiner, Joined, TakesPieces, joiner_fits, joiner_most, joiner_one, line_end, seen_joiner, with_piece};

use cd_elem::{CHUNK_LIMIT, Chunk, Items, Kind, NoMemory, Value};
use cd_step::{Input, Move, Stage, Stand, weight_of};
use std::alloc::Global;

/// A splitter from pieces to elements between two steps.
#[derive(Drop)]
pub struct Joiner {
    stand: Stand,
    // whether it was told the end
    told: bool,
    // of the pieces that it takes
    takes: Kind,
    // whether a newline comes behind each piece
    lines: bool,
    // what is left of the last piece
    keep: Option<Chunk>,
}

/// The first `count` elements of a piece as elements of a stream.
fn front_of(alloc: Global, piece: &Chunk, count: usize) -> Result<Chunk, NoMemory>
    requires some { 0 < count }
    requires most { count ≤ chunk_limit }
    requires within { count ≤ length piece.now.1 }
    ensures { IfOk result (λ front. front ≡ (elements_of piece.now.0, take count piece.now.1)) }
{
    match piece.as_bytes() {
        Some(bytes) => Chunk::bytes(alloc, &bytes[..count]),
        None => match piece.as_chars() {
            Some(chars) => Chunk::chars(alloc, &chars[..count]),
            None => unreachable!(),
        },
    }
}

#[inline]
fn with_newline<T: Copy>(list: Items<T>, lines: bool, newline: T) -> Result<Items<T>, NoMemory>
    ensures { IfOk result (λ all. all ≡ list ++ (if lines then newline ∷ [] else [])) }
{
    let mut list = list;
    if lines && list.push(newline).is_err() {
        return Err(NoMemory);
    }
    Ok(list)
}

/// A piece, with a newline behind it or without, as elements of a stream, in the list that it has.
#[inline]
fn elements_of_piece(piece: Chunk, lines: bool) -> Result<Chunk, NoMemory>
    requires some { 0 < length (piece.1 ++ line_end lines) }
    requires most { length (piece.1 ++ line_end lines) ≤ chunk_limit }
    ensures { IfOk result (λ made. made ≡ (elements_of piece.0, piece.1 ++ line_end lines)) }
{
    match piece.into_bytes() {
        Ok(bytes) => {
            let bytes = with_newline(bytes, lines, b'\n')?;
            Ok(Chunk::bytes_of(bytes))
        }
        Err(piece) => match piece.into_chars() {
            Ok(chars) => {
                let chars = with_newline(chars, lines, '\n')?;
                Ok(Chunk::chars_of(chars))
            }
            Err(_) => unreachable!(),
        },
    }
}

/// How many elements a piece comes to, with a newline behind it or without.
#[inline]
fn total_of(piece: &Chunk, lines: bool) -> usize
    ensures { result ≡ length (piece.now.1 ++ line_end lines) }
{
    let len = piece.len();
    if lines { len + 1 } else { len }
}

impl Joiner {
    /// It has not started. It takes no memory.
    pub fn new(takes: Kind, lines: bool) -> Joiner
        requires { pieces_at takes ≡ true }
        ensures fit { joiner_fits result }
        ensures stand { result.stand ≡ stand.Fresh }
        ensures told { result.told ≡ false }
        ensures takes { result.takes ≡ takes }
        ensures lines { result.lines ≡ lines }
        ensures keep { result.keep ≡ None }
    {
        Joiner {
            stand: Stand::Fresh,
            told: false,
            takes,
            lines,
            keep: None,
        }
    }

    /// Gives the first elements of a piece that is too long for one chunk, and keeps what is left of it.
    fn give_front(&mut self, alloc: Global, piece: Chunk) -> Result<Move, NoMemory>
        requires told { self.old.told ≡ false }
        requires takes { TakesPieces self.old }
        requires keep { self.old.keep ≡ None }
        requires piece { IsChunk self.old.takes piece }
        requires long { chunk_limit ≤ length piece.1 }
        ensures law { IfOk result (λ made. Joined (with_piece (Some piece) self.old) made self.new) }
        ensures fit { IfOk result (λ made. joiner_fits self.new) }
        ensures same { IsSameJoiner self.old self.new }
        ensures given { IsGiven (Some self.new.takes) self.new.keep }
        ensures err { OnErr result (self.new.keep ≡ None) }
    {
        let mut piece = piece;
        match front_of(alloc, &piece, CHUNK_LIMIT) {
            Ok(front) => {
                piece.skip(CHUNK_LIMIT);
                self.keep = Some(piece);
                self.stand = Stand::Gave;
                Ok(Move::Emit(front))
            }
            Err(refused) => {
                drop(piece);
                Err(refused)
            }
        }
    }

    /// Gives a chunk of the piece, and keeps what is left of it.
    #[inline]
    fn give(&mut self, alloc: Global, piece: Chunk) -> Result<Move, NoMemory>
        requires told { self.old.told ≡ false }
        requires takes { TakesPieces self.old }
        requires keep { self.old.keep ≡ None }
        requires piece { IsChunk self.old.takes piece }
        ensures law { IfOk result (λ made. Joined (with_piece (Some piece) self.old) made self.new) }
        ensures fit { IfOk result (λ made. joiner_fits self.new) }
        ensures same { IsSameJoiner self.old self.new }
        ensures given { IsGiven (Some self.new.takes) self.new.keep }
        ensures err { OnErr result (self.new.keep ≡ None) }
    {
        let total = total_of(&piece, self.lines);
        if total == 0 {
            drop(piece);
            self.stand = Stand::Wait;
            return Ok(Move::Need);
        }
        if total <= CHUNK_LIMIT {
            let made = elements_of_piece(piece, self.lines)?;
            self.stand = Stand::Gave;
            return Ok(Move::Emit(made));
        }
        self.give_front(alloc, piece)
    }

    /// A step with no further input.
    #[inline]
    fn go(&mut self, alloc: Global) -> Result<Move, NoMemory>
        requires told { self.old.told ≡ false }
        requires fit { joiner_fits self.old }
        ensures law { IfOk result (λ made. Joined self.old made self.new) }
        ensures fit { IfOk result (λ made. joiner_fits self.new) }
        ensures same { IsSameJoiner self.old self.new }
        ensures given { IsGiven (Some self.new.takes) self.new.keep }
        ensures err { OnErr result (self.new.keep ≡ None) }
    {
        match self.keep.take() {
            Some(piece) => {
                let made = self.give(alloc, piece)?;
                Ok(made)
            }
            None => {
                self.stand = Stand::Wait;
                Ok(Move::Need)
            }
        }
    }
}

impl Stage for Joiner {
    ghost seen = { seen_joiner };

    ghost fits = { joiner_fits };

    ghost most = { joiner_most };

    ghost one = { joiner_one };

    fn step(&mut self, alloc: Global, input: Input) -> Result<Move, NoMemory> {
        match input {
            Input::Chunk(piece) => {
                let made = self.give(alloc, piece)?;
                Ok(made)
            }
            Input::End => {
                self.told = true;
                self.stand = Stand::Over;
                Ok(Move::Done {
                    value: Value::Unit,
                    rest: None,
                })
            }
            Input::Start | Input::Next => {
                let made = self.go(alloc)?;
                Ok(made)
            }
        }
    }

    fn held(&self) -> u64 {
        match &self.keep {
            Some(piece) => weight_of(piece),
            None => 0,
        }
    }

    fn bound(&self) -> u64 {
        0
    }

    fn retire(&mut self) -> Option<Chunk> {
        self.stand = Stand::Over;
        self.keep = None;
        None
    }
}
