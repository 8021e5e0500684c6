// The trees of words, classes, tests and maps by their tokens.
ghost use Rattle.std.specs.Prelude.{◌≡◌};
ghost use Rattle.cd_grammar.specs.Grammar.{one_scalar};
ghost use Rattle.cd_grammar.specs.WordTrees as spec;

use cd_elem::{
    BaseWord, ByteMap, Class, ClassName, ClassedWord, CountedWord, ElemWord, EndMap, EndTest,
    FileWord, ListWord, Literal, LiteralList, LiteralWord, NumberMap, PieceMap, PieceTest,
    PieceWord, PlainClass, PlainWord, SinkWord, SourceWord, SplitWord, TestName, TestedWord,
    TextWord, Word,
};

pub fn plain_word(word: PlainWord) -> Word
    ensures { result ≡ spec.plain_word word }
{
    match word {
        PlainWord::PassE => Word::Elem(ElemWord::PassE),
        PlainWord::HeadE => Word::Elem(ElemWord::HeadE),
        PlainWord::PeekE => Word::Elem(ElemWord::PeekE),
        PlainWord::LastE => Word::Elem(ElemWord::LastE),
        PlainWord::LengthE => Word::Elem(ElemWord::LengthE),
        PlainWord::SumE => Word::Elem(ElemWord::SumE),
        PlainWord::NullE => Word::Elem(ElemWord::NullE),
        PlainWord::SinkNull => Word::Elem(ElemWord::SinkNull),
        PlainWord::Pass => Word::Piece(PieceWord::Pass),
        PlainWord::Head => Word::Piece(PieceWord::Head),
        PlainWord::Peek => Word::Piece(PieceWord::Peek),
        PlainWord::Last => Word::Piece(PieceWord::Last),
        PlainWord::Length => Word::Piece(PieceWord::Length),
        PlainWord::Null => Word::Piece(PieceWord::Null),
        PlainWord::Flat => Word::Split(SplitWord::Flat),
        PlainWord::Unlines => Word::Split(SplitWord::Unlines),
        PlainWord::Utf8 => Word::Text(TextWord::Utf8),
        PlainWord::Utf8Lenient => Word::Text(TextWord::Utf8Lenient),
        PlainWord::Utf8Encode => Word::Text(TextWord::Utf8Encode),
        PlainWord::HexEncode => Word::Base(BaseWord::HexEncode),
        PlainWord::HexDecode => Word::Base(BaseWord::HexDecode),
        PlainWord::Base64Encode => Word::Base(BaseWord::Base64Encode),
        PlainWord::Base64Decode => Word::Base(BaseWord::Base64Decode),
        PlainWord::Stdin => Word::Source(SourceWord::Stdin),
        PlainWord::Stdout => Word::Sink(SinkWord::Stdout),
    }
}

pub fn counted_word(word: CountedWord, count: u64) -> Word
    ensures { result ≡ spec.counted_word word count }
{
    match word {
        CountedWord::TakeE => Word::Elem(ElemWord::TakeE(count)),
        CountedWord::RepeatE => Word::Elem(ElemWord::RepeatE(count)),
        CountedWord::DropE => Word::Elem(ElemWord::DropE(count)),
        CountedWord::CollectE => Word::Elem(ElemWord::CollectE(count)),
        CountedWord::Take => Word::Piece(PieceWord::Take(count)),
        CountedWord::Repeat => Word::Piece(PieceWord::Repeat(count)),
        CountedWord::Drop => Word::Piece(PieceWord::Drop(count)),
        CountedWord::Collect => Word::Piece(PieceWord::Collect(count)),
        CountedWord::Lines => Word::Split(SplitWord::Lines(count)),
        CountedWord::Exact => Word::Split(SplitWord::Exact(count)),
        CountedWord::ChunksOf => Word::Split(SplitWord::ChunksOf(count)),
    }
}

pub fn classed_word(word: ClassedWord, class: Class) -> Word
    ensures { result ≡ spec.classed_word word class }
{
    match word {
        ClassedWord::TakeWhileE => Word::Elem(ElemWord::TakeWhileE(class)),
        ClassedWord::FilterE => Word::Elem(ElemWord::FilterE(class)),
        ClassedWord::DropWhileE => Word::Elem(ElemWord::DropWhileE(class)),
        ClassedWord::AllE => Word::Elem(ElemWord::AllE(class)),
        ClassedWord::AnyE => Word::Elem(ElemWord::AnyE(class)),
    }
}

pub fn tested_word(word: TestedWord, test: PieceTest) -> Word
    ensures { result ≡ spec.tested_word word test }
{
    match word {
        TestedWord::TakeWhile => Word::Piece(PieceWord::TakeWhile(test)),
        TestedWord::Filter => Word::Piece(PieceWord::Filter(test)),
        TestedWord::DropWhile => Word::Piece(PieceWord::DropWhile(test)),
    }
}

pub fn literal_word(word: LiteralWord, text: Literal) -> Word
    ensures { result ≡ spec.literal_word word text }
{
    match word {
        LiteralWord::Intersperse => Word::Piece(PieceWord::Intersperse(text)),
        LiteralWord::Bytes => Word::Source(SourceWord::Bytes(text)),
        LiteralWord::Text => Word::Source(SourceWord::Text(text)),
    }
}

pub fn file_word(word: FileWord, name: Literal) -> Word
    ensures { result ≡ spec.file_word word name }
{
    match word {
        FileWord::SourceFile => Word::Source(SourceWord::SourceFile(name)),
        FileWord::SinkFile => Word::Sink(SinkWord::SinkFile(name)),
    }
}

pub fn list_word(word: ListWord, texts: LiteralList) -> Word
    ensures { result ≡ spec.list_word word texts }
{
    match word {
        ListWord::Blocks => Word::Source(SourceWord::Blocks(texts)),
        ListWord::Texts => Word::Source(SourceWord::Texts(texts)),
    }
}

pub fn plain_class(class: PlainClass) -> ClassName
    ensures { result ≡ spec.plain_class class }
{
    match class {
        PlainClass::Digit => ClassName::Digit,
        PlainClass::Upper => ClassName::Upper,
        PlainClass::Lower => ClassName::Lower,
        PlainClass::Alpha => ClassName::Alpha,
        PlainClass::Alnum => ClassName::Alnum,
        PlainClass::Hexdigit => ClassName::Hexdigit,
        PlainClass::Space => ClassName::Space,
        PlainClass::Newline => ClassName::Newline,
    }
}

pub fn test_of_end(test: EndTest, text: Literal) -> TestName
    ensures { result ≡ spec.test_of_end test text }
{
    match test {
        EndTest::Begins => TestName::Begins(text),
        EndTest::Ends => TestName::Ends(text),
    }
}

pub fn map_by_number(map: NumberMap, number: u8) -> ByteMap
    ensures { result ≡ spec.map_by_number map number }
{
    match map {
        NumberMap::Xor => ByteMap::Xor(number),
        NumberMap::Add => ByteMap::Add(number),
    }
}

pub fn map_by_text(map: EndMap, text: Literal) -> PieceMap
    ensures { result ≡ spec.map_by_text map text }
{
    match map {
        EndMap::Prefix => PieceMap::Prefix(text),
        EndMap::Suffix => PieceMap::Suffix(text),
    }
}

/// The value of a number. One past 2^64 - 1 counts as 0 here, and passes a limit.
pub fn number_of(number: Option<u64>) -> u64
    ensures { result ≡ spec.number_of number }
{
    number.unwrap_or(0)
}

/// The same for a byte, where one past 255 counts as 0 too.
pub fn byte_of(number: Option<u64>) -> u8
    ensures { result ≡ spec.byte_of number }
{
    match number {
        Some(number) if number < 256 => number as u8,
        _ => 0,
    }
}

/// The only character of a text.
pub fn only_char(text: &str) -> Option<char>
    ensures { result ≡ one_scalar text.now }
{
    let mut chars = text.chars();
    let first = chars.next()?;
    match chars.next() {
        None => Some(first),
        Some(_) => None,
    }
}
