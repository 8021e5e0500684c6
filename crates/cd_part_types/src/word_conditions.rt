// What is refused at a word, but for what its site refuses.
ghost use Rattle.std.specs.Prelude.{◌≡◌};
ghost use Rattle.cd_types.specs.WordTypes.{class_past_ascii as class_past_ascii_spec, counts_with_bytes, is_for_bytes, is_for_chars, is_past_ascii, is_source, reads_elements, reads_pieces, word_fails};
ghost use Rattle.cd_types.specs.declared.refusal.RefusalKind.TheVariants.{KindMismatch, NeedsElements, OpenEnd, SeesChunks};

use crate::flows::{Flow, is_bytes, is_chars, is_cut, is_nothing, is_pieces};
use cd_elem::{ByteMap, ClassName, ElemWord, SplitWord, TextWord, Word};

/// The greatest ASCII character.
const ASCII_LIMIT: u32 = 127;

fn for_bytes(word: &Word) -> bool
    ensures { result ≡ is_for_bytes word.now }
{
    match word {
        Word::Text(TextWord::Utf8 | TextWord::Utf8Lenient) => true,
        Word::Text(TextWord::Utf8Encode) => false,
        Word::Base(_) | Word::Sink(_) => true,
        Word::Elem(_) | Word::Piece(_) | Word::Split(_) | Word::Source(_) => false,
    }
}

fn for_chars(word: &Word) -> bool
    ensures { result ≡ is_for_chars word.now }
{
    match word {
        Word::Text(TextWord::Utf8Encode) => true,
        Word::Text(TextWord::Utf8 | TextWord::Utf8Lenient) => false,
        Word::Elem(_) | Word::Base(_) | Word::Sink(_) => false,
        Word::Piece(_) | Word::Split(_) | Word::Source(_) => false,
    }
}

fn counts_bytes(word: &Word) -> bool
    ensures { result ≡ counts_with_bytes word.now }
{
    match word {
        Word::Elem(ElemWord::SumE) => true,
        Word::Elem(ElemWord::MapE(ByteMap::Xor(_) | ByteMap::Add(_))) => true,
        _ => false,
    }
}

fn class_past_ascii(class: ClassName) -> bool
    ensures { result ≡ class_past_ascii_spec class }
{
    match class {
        ClassName::Is(one) => one as u32 > ASCII_LIMIT,
        _ => false,
    }
}

fn elem_past_ascii(word: ElemWord) -> bool
    ensures { result ≡ is_past_ascii (Word.Elem word) }
{
    match word {
        ElemWord::TakeWhileE(class)
        | ElemWord::FilterE(class)
        | ElemWord::DropWhileE(class)
        | ElemWord::AllE(class)
        | ElemWord::AnyE(class) => class_past_ascii(class.what),
        _ => false,
    }
}

fn past_ascii(word: &Word) -> bool
    ensures { result ≡ is_past_ascii word.now }
{
    match word {
        Word::Elem(word) => elem_past_ascii(*word),
        Word::Split(SplitWord::Split(one, _)) => *one as u32 > ASCII_LIMIT,
        Word::Split(_) => false,
        Word::Text(_) | Word::Base(_) | Word::Sink(_) => false,
        Word::Piece(_) | Word::Source(_) => false,
    }
}

/// It stands on another kind than it takes, or with a character that this kind has not.
pub fn mismatches(word: &Word, flow: Flow) -> bool
    ensures { result ≡ word_fails word.now flow KindMismatch }
{
    for_bytes(word) && is_chars(flow)
        || for_chars(word) && is_bytes(flow)
        || counts_bytes(word) && is_chars(flow)
        || past_ascii(word) && is_bytes(flow)
}

fn on_pieces(word: &Word) -> bool
    ensures { result ≡ reads_pieces word.now }
{
    match word {
        Word::Piece(_) | Word::Split(SplitWord::Flat | SplitWord::Unlines) => true,
        _ => false,
    }
}

fn on_elements(word: &Word) -> bool
    ensures { result ≡ reads_elements word.now }
{
    match word {
        Word::Elem(ElemWord::SinkNull) => false,
        Word::Split(SplitWord::Flat | SplitWord::Unlines) => false,
        Word::Piece(_) | Word::Source(_) => false,
        _ => true,
    }
}

/// A word on pieces stands on elements.
pub fn sees_chunks(word: &Word, flow: Flow) -> bool
    ensures { result ≡ word_fails word.now flow SeesChunks }
{
    on_pieces(word) && is_cut(flow)
}

/// A word on elements stands on pieces.
pub fn needs_elements(word: &Word, flow: Flow) -> bool
    ensures { result ≡ word_fails word.now flow NeedsElements }
{
    on_elements(word) && is_pieces(flow)
}

/// It reads no input.
pub fn is_source_word(word: &Word) -> bool
    ensures { result ≡ is_source word.now }
{
    match word {
        Word::Source(_) => true,
        _ => false,
    }
}

/// A word that reads stands on nothing.
pub fn has_open_end(word: &Word, flow: Flow) -> bool
    ensures { result ≡ word_fails word.now flow OpenEnd }
{
    !is_source_word(word) && is_nothing(flow)
}
