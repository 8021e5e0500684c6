// The literal sources: the words that give what stands in the script.
ghost use Rattle.std.specs.Prelude.{◌≡◌, ◌≤◌, ℕ, List, IfOk, OnErr, None, Some, length, map};
ghost use Rattle.std.specs.Str.{chars};
ghost use Rattle.cd_elem.specs.Limits.{piece_limit};
ghost use Rattle.cd_elem.specs.declared.kind.Kind.TheVariants as kind;
ghost use Rattle.cd_elem.specs.declared.kind.Sort.TheVariants as sort;
ghost use Rattle.cd_elem.specs.declared.word.Word.TheVariants as words;
ghost use Rattle.cd_meaning.specs.Sorts.{elements_at, pieces_at};
ghost use Rattle.cd_meaning.specs.Stream.{End, Flow, Item};
ghost use Rattle.cd_meaning.specs.RunShapes.{Seen};
ghost use Rattle.cd_meaning.specs.WordMeanings.{word_meaning};
ghost use Rattle.cd_step.specs.Parts.{Fresh, Goes};
ghost use Rattle.cd_pieces.specs.Literals.{HasType, digit_limit, greatest, literal_items, literal_kind};
ghost use Rattle.cd_pieces.specs.LiteralStages.{Gives, GivesNext, RemainingFits, copy_items, literal_fits, literal_most, number_items, remaining_items, seen_literal};

use crate::literal_pieces::{
    block_pieces, byte_chunks, char_chunks, decimal_piece, longest, text_pieces,
};
use cd_elem::{ByteList, Chunk, Items, Kind, Literal, NoMemory, SourceWord, Value};
use cd_step::{Input, Move, Stage, Stand};
use std::alloc::Global;
use std::ops::RangeInclusive;
use std::vec;

/// The greatest number of digits of a number of 64 bits.
const DIGIT_LIMIT: u32 = 20;

/// What a source still gives.
#[derive(Drop)]
pub enum Remaining {
    /// These chunks, one after another.
    Chunks(vec::IntoIter<Chunk>),
    /// This piece, so many times.
    Copies(u64, ByteList),
    /// The decimal texts of these numbers.
    Numbers(RangeInclusive<u64>),
}

/// A literal source between two steps.
#[derive(Drop)]
pub struct LiteralStage {
    stand: Stand,
    // of what it gives
    kind: Kind,
    remaining: Remaining,
}

/// One more copy of the piece, of so many that are left.
fn next_copy(alloc: Global, count: &mut u64, piece: &ByteList) -> Result<Option<Chunk>, NoMemory>
    requires { length piece.now ≤ piece_limit }
    ensures next { IfOk result (λ made. Gives (kind.Blocks (length piece.now)) (copy_items count.old piece.now) made (copy_items count.new piece.now)) }
    ensures err { OnErr result (count.new ≡ count.old) }
{
    if *count == 0 {
        return Ok(None);
    }
    let copy = Chunk::block(alloc, piece.as_slice())?;
    *count -= 1;
    Ok(Some(copy))
}

/// The decimal text of the next number.
fn next_number(alloc: Global, numbers: &mut RangeInclusive<u64>) -> Result<Option<Chunk>, NoMemory>
    ensures { IfOk result (λ made. Gives (kind.Blocks digit_limit) (number_items numbers.old) made (number_items numbers.new)) }
{
    match numbers.next() {
        Some(number) => Ok(Some(decimal_piece(alloc, number)?)),
        None => Ok(None),
    }
}

impl LiteralStage {
    /// The next chunk, and None where all were given.
    fn next(&mut self, alloc: Global) -> Result<Option<Chunk>, NoMemory>
        requires fits { RemainingFits self.old.kind self.old.remaining }
        ensures law { IfOk result (λ made. GivesNext self.old made self.new) }
        ensures fits { IfOk result (λ made. RemainingFits self.new.kind self.new.remaining) }
        ensures kind { self.new.kind ≡ self.old.kind }
        ensures stand { self.new.stand ≡ self.old.stand }
    {
        match &mut self.remaining {
            Remaining::Chunks(chunks) => Ok(chunks.next()),
            Remaining::Copies(count, piece) => next_copy(alloc, count, piece),
            Remaining::Numbers(numbers) => next_number(alloc, numbers),
        }
    }

    /// It gives the next chunk, or ends.
    fn give(&mut self, alloc: Global) -> Result<Move, NoMemory>
        requires fit { literal_fits self.old }
        ensures law { IfOk result (λ made. Goes made (seen_literal self.old) (seen_literal self.new)) }
        ensures fit { IfOk result (λ made. literal_fits self.new) }
        ensures kind { self.new.kind ≡ self.old.kind }
    {
        match self.next(alloc)? {
            Some(chunk) => {
                self.stand = Stand::Gave;
                Ok(Move::Emit(chunk))
            }
            None => {
                self.stand = Stand::Over;
                Ok(Move::Done {
                    value: Value::Unit,
                    rest: None,
                })
            }
        }
    }
}

impl Stage for LiteralStage {
    ghost use Rattle.cd_pieces.specs.LiteralStages.{literal_one};

    ghost seen = { seen_literal };

    ghost fits = { literal_fits };

    ghost most = { literal_most };

    ghost one = { literal_one };

    fn step(&mut self, alloc: Global, input: Input) -> Result<Move, NoMemory> {
        match input {
            Input::Start | Input::Next => {
                let made = self.give(alloc)?;
                Ok(made)
            }
            Input::Chunk(_) | Input::End => unreachable!(),
        }
    }

    fn held(&self) -> u64 {
        0
    }

    fn bound(&self) -> u64 {
        0
    }

    fn retire(&mut self) -> Option<Chunk> {
        self.stand = Stand::Over;
        None
    }
}

/// The literal as bytes.
fn bytes(alloc: Global, literal: &str) -> Result<(Kind, Remaining), NoMemory>
    ensures kind { IfOk result (λ made. made.0 ≡ kind.Bytes) }
    ensures items { IfOk result (λ made. remaining_items made.1 ≡ elements_at sort.Bytes literal.now) }
    ensures fits { IfOk result (λ made. RemainingFits made.0 made.1) }
{
    let chunks = byte_chunks(alloc, literal)?;
    Ok((Kind::Bytes, Remaining::Chunks(chunks.into_iter())))
}

/// The literal as characters.
fn text(alloc: Global, literal: &str) -> Result<(Kind, Remaining), NoMemory>
    ensures kind { IfOk result (λ made. made.0 ≡ kind.Chars) }
    ensures items { IfOk result (λ made. remaining_items made.1 ≡ elements_at sort.Chars literal.now) }
    ensures fits { IfOk result (λ made. RemainingFits made.0 made.1) }
{
    let chunks = char_chunks(alloc, literal)?;
    Ok((Kind::Chars, Remaining::Chunks(chunks.into_iter())))
}

/// The literal as one piece of bytes, so many times.
fn copies(alloc: Global, count: u64, literal: &str) -> Result<(Kind, Remaining), NoMemory>
    requires { length literal.now ≤ piece_limit }
    ensures kind { IfOk result (λ made. made.0 ≡ kind.Blocks (length literal.now)) }
    ensures items { IfOk result (λ made. remaining_items made.1 ≡ copy_items count literal.now) }
    ensures fits { IfOk result (λ made. RemainingFits made.0 made.1) }
{
    let piece = Items::from_slice(alloc, literal.as_bytes())?;
    let kind = Kind::Blocks(piece.len() as u32);
    Ok((kind, Remaining::Copies(count, piece)))
}

/// These literals as pieces of bytes.
fn blocks(alloc: Global, literals: &[Literal]) -> Result<(Kind, Remaining), NoMemory>
    requires { greatest (map length literals.now) ≤ piece_limit }
    ensures kind { IfOk result (λ made. made.0 ≡ kind.Blocks (greatest (map length literals.now))) }
    ensures items { IfOk result (λ made. remaining_items made.1 ≡ pieces_at sort.Block literals.now) }
    ensures fits { IfOk result (λ made. RemainingFits made.0 made.1) }
{
    let pieces = block_pieces(alloc, literals)?;
    let kind = Kind::Blocks(longest(pieces.as_slice()) as u32);
    Ok((kind, Remaining::Chunks(pieces.into_iter())))
}

/// These literals as pieces of characters.
fn texts(alloc: Global, literals: &[Literal]) -> Result<(Kind, Remaining), NoMemory>
    requires { greatest (map (λ l. length (chars l)) literals.now) ≤ piece_limit }
    ensures kind { IfOk result (λ made. made.0 ≡ kind.Texts (greatest (map (λ l. length (chars l)) literals.now))) }
    ensures items { IfOk result (λ made. remaining_items made.1 ≡ pieces_at sort.Text literals.now) }
    ensures fits { IfOk result (λ made. RemainingFits made.0 made.1) }
{
    let pieces = text_pieces(alloc, literals)?;
    let kind = Kind::Texts(longest(pieces.as_slice()) as u32);
    Ok((kind, Remaining::Chunks(pieces.into_iter())))
}

/// What the word gives, and of which kind.
fn remaining_of(alloc: Global, word: &SourceWord) -> Result<(Kind, Remaining), NoMemory>
    requires { HasType word.now }
    ensures kind { IfOk result (λ made. made.0 ≡ literal_kind word.now) }
    ensures items { IfOk result (λ made. remaining_items made.1 ≡ literal_items word.now) }
    ensures fits { IfOk result (λ made. RemainingFits made.0 made.1) }
{
    match word {
        SourceWord::Bytes(literal) => bytes(alloc, literal.as_str()),
        SourceWord::Text(literal) => text(alloc, literal.as_str()),
        SourceWord::Blocks(literals) => blocks(alloc, literals.as_slice()),
        SourceWord::Texts(literals) => texts(alloc, literals.as_slice()),
        SourceWord::Replicate(count, literal) => copies(alloc, *count, literal.as_str()),
        SourceWord::Range(first, last) => {
            let numbers = RangeInclusive::new(*first, *last);
            Ok((Kind::Blocks(DIGIT_LIMIT), Remaining::Numbers(numbers)))
        }
        SourceWord::SourceFile(_) | SourceWord::Stdin => unreachable!(),
    }
}

/// The stage of a word that gives what stands in the script. It has not started, and its run is the word's.
pub fn literal_stage(alloc: Global, word: &SourceWord) -> Result<LiteralStage, NoMemory>
    requires { HasType word.now }
    ensures fit { IfOk result literal_fits }
    ensures fresh { IfOk result (λ e. (seen_literal e).at ≡ Fresh) }
    ensures none_held { IfOk result (λ e. (seen_literal e).held ≡ 0) }
    ensures takes { IfOk result (λ e. (seen_literal e).takes ≡ None) }
    ensures gives { IfOk result (λ e. (seen_literal e).gives ≡ Some (literal_kind word.now)) }
    ensures bound { IfOk result (λ e. literal_most e ≡ 0) }
    ensures means { IfOk result (λ e. (z : Seen) (flow : Flow) (site : ℕ) (seen : Seen) (xs : List Item) (end : End)
        → (seen_literal e).run z xs end ≡ (word_meaning (words.Source word.now)).run flow site seen xs end) }
{
    let (kind, remaining) = remaining_of(alloc, word)?;
    Ok(LiteralStage {
        stand: Stand::Fresh,
        kind,
        remaining,
    })
}
