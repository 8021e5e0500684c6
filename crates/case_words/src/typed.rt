// Whether the typing gives a word a type on what a case gives.
ghost use Rattle.std.specs.Prelude.{◌≡◌, IsTrue, Some, false, length, true};
ghost use Rattle.std.specs.Str.{chars};
ghost use Rattle.cd_meaning.specs.Sorts.{literal_at};
ghost use Rattle.cd_step.specs.Parts.{bound_at, pieces_at, sort_at};
ghost use Rattle.cd_elemwise.specs.Carried as elem;
ghost use Rattle.cd_pieces.specs.Carried as piece;
ghost use Rattle.cd_split.specs.Cutting.{SeparatorFits};
ghost use Rattle.cd_split.specs.Splitting as split;

use cd_elem::{
    ByteMap, Class, ClassName, ElemWord, Kind, Literal, PieceMap, PieceWord, Sort, SplitWord,
};
use cd_script::{COLLECT_LIMIT, LENGTH_LIMIT, REPEAT_LIMIT};

/// Elements in a piece at most.
const PIECE_LIMIT: u64 = 1_048_576;

fn class_fits(class: Class, sort: Sort) -> bool
    ensures { IsTrue result → elem.ClassFits class sort }
{
    match (class.what, sort) {
        (ClassName::Is(one), Sort::Bytes) => u32::from(one) <= 127,
        (_, Sort::Bytes) | (_, Sort::Chars) => true,
        (_, _) => false,
    }
}

/// Whether the typing gives the word a type on this sort.
pub fn elem_has_type(word: ElemWord, sort: Sort) -> bool
    ensures { IsTrue result → elem.HasType word sort }
{
    match word {
        ElemWord::SinkNull => true,
        ElemWord::TakeWhileE(class)
        | ElemWord::FilterE(class)
        | ElemWord::DropWhileE(class)
        | ElemWord::AllE(class)
        | ElemWord::AnyE(class) => class_fits(class, sort),
        ElemWord::SumE => matches!(sort, Sort::Bytes),
        ElemWord::MapE(ByteMap::Rot13) => matches!(sort, Sort::Bytes | Sort::Chars),
        ElemWord::MapE(_) => matches!(sort, Sort::Bytes),
        ElemWord::RepeatE(times) => matches!(sort, Sort::Bytes | Sort::Chars)
            && times <= REPEAT_LIMIT,
        ElemWord::CollectE(count) => {
            matches!(sort, Sort::Bytes | Sort::Chars) && count <= COLLECT_LIMIT
        }
        _ => matches!(sort, Sort::Bytes | Sort::Chars),
    }
}

fn char_count(text: &str) -> usize
    ensures { result ≡ length (chars text.now) }
{
    text.chars().count()
}

/// A literal's length among what flows: in characters among texts, else in bytes.
fn length_in(kind: Kind, literal: &Literal) -> u64
    ensures { result ≡ length (literal_at (sort_at kind) literal.now) }
{
    match kind {
        Kind::Bytes | Kind::Blocks(_) => literal.as_str().len() as u64,
        Kind::Chars | Kind::Texts(_) => char_count(literal.as_str()) as u64,
    }
}

/// The greatest length of a piece.
fn bound_in(kind: Kind) -> u64
    ensures { result ≡ bound_at kind }
{
    match kind {
        Kind::Bytes | Kind::Chars => 0,
        Kind::Blocks(most) | Kind::Texts(most) => u64::from(most),
    }
}

fn is_in_range(word: &PieceWord) -> bool
    ensures { IsTrue result → piece.IsInRange word.now }
{
    match word {
        PieceWord::Repeat(times) => *times <= REPEAT_LIMIT,
        PieceWord::Collect(count) => *count <= COLLECT_LIMIT,
        _ => true,
    }
}

/// Whether what the word gives is no longer than pieces may be.
#[tactic(auto, using(crate::proofs::Flows::widened_flows, crate::proofs::Flows::larger_flows))]
fn may_flow(word: &PieceWord, kind: Kind) -> bool
    ensures { IsTrue result → piece.MayFlow (piece.word_gives word.now kind) }
{
    let most = bound_in(kind);
    match word {
        PieceWord::Map(PieceMap::Prefix(literal)) | PieceWord::Map(PieceMap::Suffix(literal)) => {
            most as u128 + length_in(kind, literal) as u128 <= PIECE_LIMIT as u128
        }
        PieceWord::Intersperse(literal) => {
            most <= PIECE_LIMIT && length_in(kind, literal) <= PIECE_LIMIT
        }
        _ => most <= PIECE_LIMIT,
    }
}

fn is_of_pieces(kind: Kind) -> bool
    ensures { result ≡ pieces_at kind }
{
    matches!(kind, Kind::Blocks(_) | Kind::Texts(_))
}

/// Whether the typing gives the word a type on pieces of this kind.
pub fn piece_has_type(word: &PieceWord, kind: Kind) -> bool
    ensures { IsTrue result → piece.HasType word.now kind }
{
    is_of_pieces(kind) && is_in_range(word) && may_flow(word, kind)
}

fn separator_fits(separator: char, kind: Kind) -> bool
    ensures { IsTrue result → SeparatorFits (Some separator) (sort_at kind) }
{
    !matches!(kind, Kind::Bytes) || u32::from(separator) <= 127
}

fn is_length(most: u64) -> bool
    ensures { IsTrue result → split.IsLength most }
{
    0 < most && most <= LENGTH_LIMIT
}

/// Whether the typing gives the splitter a type on a stream of this kind.
pub fn split_has_type(word: SplitWord, kind: Kind) -> bool
    ensures { IsTrue result → split.HasType word kind }
{
    match word {
        SplitWord::Lines(most) | SplitWord::Exact(most) | SplitWord::ChunksOf(most) => {
            !is_of_pieces(kind) && is_length(most)
        }
        SplitWord::Split(separator, most) => {
            !is_of_pieces(kind) && is_length(most) && separator_fits(separator, kind)
        }
        SplitWord::Flat | SplitWord::Unlines => is_of_pieces(kind),
    }
}
