// What words result in, and how much they may hold.
ghost use Rattle.std.specs.Prelude.{◌≡◌, IfOk};
ghost use Rattle.cd_types.specs.Flows as spec;
ghost use Rattle.cd_types.specs.WordTypes.{word_bound, word_gives, word_result, word_type as word_type_spec};
ghost use Rattle.cd_part_types.specs.Results.{result_of};
ghost use Rattle.cd_part_types.specs.Types.{type_of};

use crate::flows::{Flow, piece_bound};
use crate::part_type::{PartType, ResultKind, maybe};
use crate::word_conditions::is_source_word;
use cd_elem::{BaseWord, ElemWord, Kind, NoMemory, PieceWord, Sort, SplitWord, TextWord, Word};
use std::alloc::Global;

fn value_in(flow: Flow) -> ResultKind
    ensures { result_of result ≡ spec.value_in flow }
{
    match flow {
        None => ResultKind::Unit,
        Some(Kind::Bytes) => ResultKind::Byte,
        Some(Kind::Chars) => ResultKind::Char,
        Some(Kind::Blocks(_)) => ResultKind::BytesV,
        Some(Kind::Texts(_)) => ResultKind::TextV,
    }
}

fn list_in(flow: Flow) -> ResultKind
    ensures { result_of result ≡ spec.list_in flow }
{
    match flow {
        None => ResultKind::Unit,
        Some(Kind::Bytes) => ResultKind::BytesV,
        Some(Kind::Chars) => ResultKind::TextV,
        Some(Kind::Blocks(_)) => ResultKind::ListV(Sort::Block),
        Some(Kind::Texts(_)) => ResultKind::ListV(Sort::Text),
    }
}

/// One value that comes, or none.
fn one_in(alloc: Global, flow: Flow) -> Result<ResultKind, NoMemory>
    ensures { IfOk result (λ kind. result_of kind ≡ spec.Maybe (spec.value_in flow)) }
{
    maybe(alloc, value_in(flow))
}

fn elem_result(alloc: Global, word: ElemWord, flow: Flow) -> Result<ResultKind, NoMemory>
    ensures { IfOk result (λ kind. result_of kind ≡ word_result (Word.Elem word) flow) }
{
    match word {
        ElemWord::HeadE | ElemWord::PeekE | ElemWord::LastE => one_in(alloc, flow),
        ElemWord::LengthE | ElemWord::SumE => Ok(ResultKind::Num),
        ElemWord::AllE(_) | ElemWord::AnyE(_) | ElemWord::NullE => Ok(ResultKind::Bool),
        ElemWord::CollectE(_) => Ok(list_in(flow)),
        _ => Ok(ResultKind::Unit),
    }
}

fn piece_result(alloc: Global, word: &PieceWord, flow: Flow) -> Result<ResultKind, NoMemory>
    ensures { IfOk result (λ kind. result_of kind ≡ word_result (Word.Piece word.now) flow) }
{
    match word {
        PieceWord::Head | PieceWord::Peek | PieceWord::Last => one_in(alloc, flow),
        PieceWord::Length => Ok(ResultKind::Num),
        PieceWord::Null => Ok(ResultKind::Bool),
        PieceWord::Collect(_) => Ok(list_in(flow)),
        _ => Ok(ResultKind::Unit),
    }
}

/// What a word results in.
pub fn result_of_word(alloc: Global, word: &Word, flow: Flow) -> Result<ResultKind, NoMemory>
    ensures { IfOk result (λ kind. result_of kind ≡ word_result word.now flow) }
{
    match word {
        Word::Elem(word) => elem_result(alloc, *word, flow),
        Word::Piece(word) => piece_result(alloc, word, flow),
        _ => Ok(ResultKind::Unit),
    }
}

fn piece_word_bound(word: &PieceWord, flow: Flow) -> u128
    ensures { result ≡ word_bound (Word.Piece word.now) flow }
{
    match word {
        PieceWord::Last => piece_bound(flow) as u128 + 1,
        PieceWord::Collect(count) => *count as u128 * (piece_bound(flow) as u128 + 1),
        _ => 0,
    }
}

/// How many elements a word may hold.
pub fn bound_of_word(word: &Word, flow: Flow) -> u128
    ensures { result ≡ word_bound word.now flow }
{
    match word {
        Word::Elem(ElemWord::LastE) => 1,
        Word::Elem(ElemWord::CollectE(count)) => *count as u128,
        Word::Elem(_) => 0,
        Word::Piece(word) => piece_word_bound(word, flow),
        Word::Split(SplitWord::Lines(most)) => *most as u128,
        Word::Split(SplitWord::Split(_, most)) => *most as u128,
        Word::Split(SplitWord::Exact(most)) => *most as u128,
        Word::Split(SplitWord::ChunksOf(most)) => *most as u128,
        Word::Split(SplitWord::Flat | SplitWord::Unlines) => 0,
        Word::Text(TextWord::Utf8 | TextWord::Utf8Lenient) => 3,
        Word::Text(TextWord::Utf8Encode) => 0,
        Word::Base(BaseWord::HexEncode) => 0,
        Word::Base(BaseWord::HexDecode) => 1,
        Word::Base(BaseWord::Base64Encode) => 2,
        Word::Base(BaseWord::Base64Decode) => 3,
        Word::Source(_) | Word::Sink(_) => 0,
    }
}

/// The type of a word, from what it gives (`gives`) and its bound (`bound_of_word`).
pub fn word_type(
    alloc: Global,
    word: &Word,
    flow: Flow,
    to: Flow,
    bound: u64,
) -> Result<PartType, NoMemory>
    requires gives { to ≡ word_gives word.now flow }
    requires holds { bound ≡ word_bound word.now flow }
    ensures { IfOk result (λ typed. type_of typed ≡ word_type_spec word.now flow) }
{
    Ok(PartType {
        from: flow,
        to,
        result: result_of_word(alloc, word, flow)?,
        exact: true,
        idle: is_source_word(word),
        bound,
    })
}
