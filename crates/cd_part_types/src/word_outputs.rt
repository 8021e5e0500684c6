// What words give.
ghost use Rattle.std.specs.Prelude.{◌≡◌, ◌<◌, ◌+◌, None, length, map, MatchOption};
ghost use Rattle.std.specs.Str.{chars};
ghost use Rattle.cd_elem.specs.Limits.{piece_limit};
ghost use Rattle.cd_types.specs.Flows as spec;
ghost use Rattle.cd_types.specs.WordTypes.{greatest, length_in as length_in_spec, word_gives};
ghost use Rattle.cd_part_types.specs.Outputs.{IsWithin};

use crate::flows::{Flow, bounded, flattened, piece_bound, within};
use cd_elem::{
    ElemWord, Kind, Literal, PieceMap, PieceWord, SourceWord, SplitWord, TextWord, Word,
};

/// The greatest number of digits of a number of 64 bits.
const DIGIT_LIMIT: u32 = 20;

fn char_count(text: &str) -> usize
    ensures { result ≡ length (chars text.now) }
{
    text.chars().count()
}

/// A literal's length among the pieces of a flow: in characters among texts, else in bytes.
pub fn length_in(flow: Flow, literal: &Literal) -> usize
    ensures { result ≡ length_in_spec flow literal.now }
{
    match flow {
        Some(Kind::Texts(_)) => char_count(literal.as_str()),
        _ => literal.as_str().len(),
    }
}

/// The pieces that elements are cut into.
fn cut_into(flow: Flow, most: u64) -> Option<Flow>
    ensures { MatchOption result (piece_limit < spec.piece_bound (spec.cut_into flow most)) (λ to. IsWithin to (spec.cut_into flow most)) }
{
    match flow {
        Some(Kind::Bytes) => bounded(Some(Kind::Blocks(0)), most as u128),
        Some(Kind::Chars) => bounded(Some(Kind::Texts(0)), most as u128),
        Some(Kind::Blocks(_) | Kind::Texts(_)) | None => Some(None),
    }
}

/// Pieces that have become longer by a literal.
fn added(flow: Flow, literal: &Literal) -> Option<Flow>
    ensures { MatchOption result (piece_limit < spec.piece_bound (spec.with_bound flow (spec.piece_bound flow + length_in_spec flow literal.now)))
        (λ to. IsWithin to (spec.with_bound flow (spec.piece_bound flow + length_in_spec flow literal.now))) }
{
    bounded(
        flow,
        piece_bound(flow) as u128 + length_in(flow, literal) as u128,
    )
}

/// Pieces with a literal between them.
fn interspersed(flow: Flow, literal: &Literal) -> Option<Flow>
    ensures { MatchOption result (piece_limit < spec.piece_bound (spec.with_bound flow (spec.larger (spec.piece_bound flow) (length_in_spec flow literal.now))))
        (λ to. IsWithin to (spec.with_bound flow (spec.larger (spec.piece_bound flow) (length_in_spec flow literal.now)))) }
{
    let most = piece_bound(flow) as u128;
    let length = length_in(flow, literal) as u128;
    bounded(flow, if most < length { length } else { most })
}

fn elem_gives(word: ElemWord, flow: Flow) -> Flow
    ensures { result ≡ word_gives (Word.Elem word) flow }
{
    match word {
        ElemWord::PassE | ElemWord::TakeE(_) | ElemWord::TakeWhileE(_) => flow,
        ElemWord::FilterE(_) | ElemWord::MapE(_) | ElemWord::RepeatE(_) => flow,
        _ => None,
    }
}

fn piece_gives(word: &PieceWord, flow: Flow) -> Option<Flow>
    ensures { MatchOption result (piece_limit < spec.piece_bound (word_gives (Word.Piece word.now) flow)) (λ to. IsWithin to (word_gives (Word.Piece word.now) flow)) }
{
    match word {
        PieceWord::Pass | PieceWord::Take(_) | PieceWord::TakeWhile(_) => within(flow),
        PieceWord::Filter(_) | PieceWord::Repeat(_) => within(flow),
        PieceWord::Map(PieceMap::Reverse) => within(flow),
        PieceWord::Map(PieceMap::Prefix(literal)) => added(flow, literal),
        PieceWord::Map(PieceMap::Suffix(literal)) => added(flow, literal),
        PieceWord::Intersperse(literal) => interspersed(flow, literal),
        _ => Some(None),
    }
}

fn split_gives(word: SplitWord, flow: Flow) -> Option<Flow>
    ensures { MatchOption result (piece_limit < spec.piece_bound (word_gives (Word.Split word) flow)) (λ to. IsWithin to (word_gives (Word.Split word) flow)) }
{
    match word {
        SplitWord::Lines(most) => cut_into(flow, most),
        SplitWord::Split(_, most) => cut_into(flow, most),
        SplitWord::Exact(most) => cut_into(flow, most),
        SplitWord::ChunksOf(most) => cut_into(flow, most),
        SplitWord::Flat | SplitWord::Unlines => Some(flattened(flow)),
    }
}

/// The greatest number of bytes of these.
fn longest_bytes(literals: &[Literal]) -> usize
    ensures { result ≡ greatest (map length literals.now) }
{
    let mut most = 0;
    for literal in literals {
        let length = literal.as_str().len();
        if most < length {
            most = length;
        }
    }
    most
}

/// The greatest number of characters of these.
fn longest_chars(literals: &[Literal]) -> usize
    ensures { result ≡ greatest (map (λ s. length (chars s)) literals.now) }
{
    let mut most = 0;
    for literal in literals {
        let length = char_count(literal.as_str());
        if most < length {
            most = length;
        }
    }
    most
}

fn blocks_of(length: usize) -> Option<Flow>
    ensures { MatchOption result (piece_limit < length) (λ to. IsWithin to (Some (spec.Kind.Blocks length))) }
{
    bounded(Some(Kind::Blocks(0)), length as u128)
}

fn texts_of(length: usize) -> Option<Flow>
    ensures { MatchOption result (piece_limit < length) (λ to. IsWithin to (Some (spec.Kind.Texts length))) }
{
    bounded(Some(Kind::Texts(0)), length as u128)
}

fn source_gives(word: &SourceWord) -> Option<Flow>
    ensures { MatchOption result (piece_limit < spec.piece_bound (word_gives (Word.Source word.now) None)) (λ to. IsWithin to (word_gives (Word.Source word.now) None)) }
{
    match word {
        SourceWord::SourceFile(_) | SourceWord::Stdin => Some(Some(Kind::Bytes)),
        SourceWord::Bytes(_) => Some(Some(Kind::Bytes)),
        SourceWord::Text(_) => Some(Some(Kind::Chars)),
        SourceWord::Blocks(literals) => blocks_of(longest_bytes(literals.as_slice())),
        SourceWord::Texts(literals) => texts_of(longest_chars(literals.as_slice())),
        SourceWord::Replicate(_, literal) => blocks_of(literal.as_str().len()),
        SourceWord::Range(_, _) => Some(Some(Kind::Blocks(DIGIT_LIMIT))),
    }
}

/// What a word gives, or nothing where its pieces may be too long.
pub fn gives(word: &Word, flow: Flow) -> Option<Flow>
    ensures { MatchOption result (piece_limit < spec.piece_bound (word_gives word.now flow)) (λ to. IsWithin to (word_gives word.now flow)) }
{
    match word {
        Word::Elem(word) => within(elem_gives(*word, flow)),
        Word::Piece(word) => piece_gives(word, flow),
        Word::Split(word) => split_gives(*word, flow),
        Word::Text(TextWord::Utf8 | TextWord::Utf8Lenient) => Some(Some(Kind::Chars)),
        Word::Text(TextWord::Utf8Encode) => Some(Some(Kind::Bytes)),
        Word::Base(_) => Some(Some(Kind::Bytes)),
        Word::Source(word) => source_gives(word),
        Word::Sink(_) => Some(None),
    }
}
