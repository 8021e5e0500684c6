// From words to their canonical tokens.
ghost use Rattle.std.specs.Prelude.{◌≡◌, ◌∷◌, ◌++◌, [], List, true, IfOk, OnOk, encode_utf8};
ghost use Rattle.cd_grammar.specs.Grammar.{not_tokens};
ghost use Rattle.cd_grammar.specs.CanonicalWords as spec;
ghost use Rattle.cd_script.specs.Ranges as ranges;

use cd_elem::{
    BaseWord, ByteMap, Class, ClassName, ClassedWord, CountedWord, ElemWord, EndMap, EndTest,
    FileWord, Items, Keyword, ListWord, Literal, LiteralWord, NoMemory, NumberMap, PieceMap,
    PieceTest, PieceWord, PlainClass, PlainWord, Sign, SinkWord, SourceWord, SplitWord, TestName,
    TestedWord, TextWord, Token, Word,
};
use std::alloc::Global;

/// Adds the tokens of a word with its arguments.
pub fn put_word(alloc: Global, out: &mut Items<Token>, word: &Word) -> Result<(), NoMemory>
    ensures tokens { OnOk result (out.new ≡ out.old ++ spec.canonical_word word.now) }
    ensures range { OnOk result (ranges.word word.now ≡ true) }
{
    match word {
        Word::Elem(word) => put_elem(alloc, out, *word),
        Word::Piece(word) => put_piece(alloc, out, word),
        Word::Split(word) => put_split(alloc, out, *word),
        Word::Text(word) => put_keyword(out, Keyword::Plain(text_word(*word))),
        Word::Base(word) => put_keyword(out, Keyword::Plain(base_word(*word))),
        Word::Source(word) => put_source(alloc, out, word),
        Word::Sink(word) => put_sink(alloc, out, word),
    }
}

fn put_elem(alloc: Global, out: &mut Items<Token>, word: ElemWord) -> Result<(), NoMemory>
    ensures tokens { OnOk result (out.new ≡ out.old ++ spec.canonical_elem word) }
    ensures range { OnOk result (ranges.elem word ≡ true) }
{
    match word {
        ElemWord::PassE => put_keyword(out, Keyword::Plain(PlainWord::PassE)),
        ElemWord::HeadE => put_keyword(out, Keyword::Plain(PlainWord::HeadE)),
        ElemWord::PeekE => put_keyword(out, Keyword::Plain(PlainWord::PeekE)),
        ElemWord::LastE => put_keyword(out, Keyword::Plain(PlainWord::LastE)),
        ElemWord::LengthE => put_keyword(out, Keyword::Plain(PlainWord::LengthE)),
        ElemWord::SumE => put_keyword(out, Keyword::Plain(PlainWord::SumE)),
        ElemWord::NullE => put_keyword(out, Keyword::Plain(PlainWord::NullE)),
        ElemWord::SinkNull => put_keyword(out, Keyword::Plain(PlainWord::SinkNull)),
        ElemWord::TakeE(n) => put_with_number(out, Keyword::Counted(CountedWord::TakeE), n),
        ElemWord::RepeatE(n) => put_with_number(out, Keyword::Counted(CountedWord::RepeatE), n),
        ElemWord::DropE(n) => put_with_number(out, Keyword::Counted(CountedWord::DropE), n),
        ElemWord::CollectE(n) => put_with_number(out, Keyword::Counted(CountedWord::CollectE), n),
        ElemWord::TakeWhileE(class) => put_classed(alloc, out, ClassedWord::TakeWhileE, class),
        ElemWord::FilterE(class) => put_classed(alloc, out, ClassedWord::FilterE, class),
        ElemWord::DropWhileE(class) => put_classed(alloc, out, ClassedWord::DropWhileE, class),
        ElemWord::AllE(class) => put_classed(alloc, out, ClassedWord::AllE, class),
        ElemWord::AnyE(class) => put_classed(alloc, out, ClassedWord::AnyE, class),
        ElemWord::MapE(map) => put_element_map(out, map),
    }
}

fn put_classed(
    alloc: Global,
    out: &mut Items<Token>,
    word: ClassedWord,
    class: Class,
) -> Result<(), NoMemory>
    ensures tokens { OnOk result (out.new
        ≡ out.old ++ Token.Word (Keyword.Classed word) ∷ spec.canonical_class class) }
    ensures range { OnOk result (ranges.class_name class.what ≡ true) }
{
    put_keyword(out, Keyword::Classed(word))?;
    put_not(out, class.negated)?;
    put_class_name(alloc, out, class.what)
}

fn put_class_name(alloc: Global, out: &mut Items<Token>, name: ClassName) -> Result<(), NoMemory>
    ensures tokens { OnOk result (out.new ≡ out.old ++ spec.canonical_class_name name) }
    ensures range { OnOk result (ranges.class_name name ≡ true) }
{
    match name {
        ClassName::Digit => put_keyword(out, Keyword::Class(PlainClass::Digit)),
        ClassName::Upper => put_keyword(out, Keyword::Class(PlainClass::Upper)),
        ClassName::Lower => put_keyword(out, Keyword::Class(PlainClass::Lower)),
        ClassName::Alpha => put_keyword(out, Keyword::Class(PlainClass::Alpha)),
        ClassName::Alnum => put_keyword(out, Keyword::Class(PlainClass::Alnum)),
        ClassName::Hexdigit => put_keyword(out, Keyword::Class(PlainClass::Hexdigit)),
        ClassName::Space => put_keyword(out, Keyword::Class(PlainClass::Space)),
        ClassName::Newline => put_keyword(out, Keyword::Class(PlainClass::Newline)),
        ClassName::Is(scalar) => {
            put_keyword(out, Keyword::Is)?;
            put_char(alloc, out, scalar)
        }
        ClassName::Below(limit) => put_with_number(out, Keyword::Below, limit),
    }
}

fn put_element_map(out: &mut Items<Token>, map: ByteMap) -> Result<(), NoMemory>
    ensures tokens { OnOk result (out.new
        ≡ out.old ++ Token.Word Keyword.MapE ∷ spec.canonical_element_map map) }
    ensures range { OnOk result (ranges.element_map map ≡ true) }
{
    put_keyword(out, Keyword::MapE)?;
    match map {
        ByteMap::Xor(key) => {
            put_with_number(out, Keyword::NumberMap(NumberMap::Xor), u64::from(key))
        }
        ByteMap::Add(key) => {
            put_with_number(out, Keyword::NumberMap(NumberMap::Add), u64::from(key))
        }
        ByteMap::Rot13 => put_keyword(out, Keyword::Rot13),
    }
}

fn put_piece(alloc: Global, out: &mut Items<Token>, word: &PieceWord) -> Result<(), NoMemory>
    ensures { OnOk result (out.new ≡ out.old ++ spec.canonical_piece word.now) }
{
    match word {
        PieceWord::Pass => put_keyword(out, Keyword::Plain(PlainWord::Pass)),
        PieceWord::Head => put_keyword(out, Keyword::Plain(PlainWord::Head)),
        PieceWord::Peek => put_keyword(out, Keyword::Plain(PlainWord::Peek)),
        PieceWord::Last => put_keyword(out, Keyword::Plain(PlainWord::Last)),
        PieceWord::Length => put_keyword(out, Keyword::Plain(PlainWord::Length)),
        PieceWord::Null => put_keyword(out, Keyword::Plain(PlainWord::Null)),
        PieceWord::Take(n) => put_with_number(out, Keyword::Counted(CountedWord::Take), *n),
        PieceWord::Repeat(n) => put_with_number(out, Keyword::Counted(CountedWord::Repeat), *n),
        PieceWord::Drop(n) => put_with_number(out, Keyword::Counted(CountedWord::Drop), *n),
        PieceWord::Collect(n) => put_with_number(out, Keyword::Counted(CountedWord::Collect), *n),
        PieceWord::TakeWhile(test) => put_tested(alloc, out, TestedWord::TakeWhile, test),
        PieceWord::Filter(test) => put_tested(alloc, out, TestedWord::Filter, test),
        PieceWord::DropWhile(test) => put_tested(alloc, out, TestedWord::DropWhile, test),
        PieceWord::Map(map) => put_piece_map(alloc, out, map),
        PieceWord::Intersperse(text) => {
            put_with_text(alloc, out, Keyword::Literal(LiteralWord::Intersperse), text)
        }
    }
}

fn put_tested(
    alloc: Global,
    out: &mut Items<Token>,
    word: TestedWord,
    test: &PieceTest,
) -> Result<(), NoMemory>
    ensures { OnOk result (out.new
        ≡ out.old ++ Token.Word (Keyword.Tested word) ∷ spec.canonical_test test.now) }
{
    put_keyword(out, Keyword::Tested(word))?;
    put_not(out, test.negated)?;
    put_test_name(alloc, out, &test.what)
}

fn put_test_name(alloc: Global, out: &mut Items<Token>, name: &TestName) -> Result<(), NoMemory>
    ensures { OnOk result (out.new ≡ out.old ++ spec.canonical_test_name name.now) }
{
    match name {
        TestName::Empty => put_keyword(out, Keyword::Empty),
        TestName::Begins(text) => put_with_text(
            alloc,
            out,
            Keyword::EndTest(EndTest::Begins),
            text,
        ),
        TestName::Ends(text) => put_with_text(alloc, out, Keyword::EndTest(EndTest::Ends), text),
        TestName::Shorter(limit) => put_with_number(out, Keyword::Shorter, *limit),
    }
}

fn put_piece_map(alloc: Global, out: &mut Items<Token>, map: &PieceMap) -> Result<(), NoMemory>
    ensures { OnOk result (out.new ≡ out.old ++ Token.Word Keyword.Map ∷ spec.canonical_piece_map map.now) }
{
    put_keyword(out, Keyword::Map)?;
    match map {
        PieceMap::Prefix(text) => put_with_text(alloc, out, Keyword::EndMap(EndMap::Prefix), text),
        PieceMap::Suffix(text) => put_with_text(alloc, out, Keyword::EndMap(EndMap::Suffix), text),
        PieceMap::Reverse => put_keyword(out, Keyword::Reverse),
    }
}

fn put_split(alloc: Global, out: &mut Items<Token>, word: SplitWord) -> Result<(), NoMemory>
    ensures tokens { OnOk result (out.new ≡ out.old ++ spec.canonical_split word) }
    ensures range { OnOk result (ranges.split word ≡ true) }
{
    match word {
        SplitWord::Lines(n) => put_with_number(out, Keyword::Counted(CountedWord::Lines), n),
        SplitWord::Exact(n) => put_with_number(out, Keyword::Counted(CountedWord::Exact), n),
        SplitWord::ChunksOf(n) => put_with_number(out, Keyword::Counted(CountedWord::ChunksOf), n),
        SplitWord::Split(scalar, n) => {
            put_keyword(out, Keyword::Split)?;
            put_char(alloc, out, scalar)?;
            put_number(out, n)
        }
        SplitWord::Flat => put_keyword(out, Keyword::Plain(PlainWord::Flat)),
        SplitWord::Unlines => put_keyword(out, Keyword::Plain(PlainWord::Unlines)),
    }
}

fn text_word(word: TextWord) -> PlainWord
    ensures { spec.canonical_text word ≡ Token.Word (Keyword.Plain result) ∷ [] }
{
    match word {
        TextWord::Utf8 => PlainWord::Utf8,
        TextWord::Utf8Lenient => PlainWord::Utf8Lenient,
        TextWord::Utf8Encode => PlainWord::Utf8Encode,
    }
}

fn base_word(word: BaseWord) -> PlainWord
    ensures { spec.canonical_base word ≡ Token.Word (Keyword.Plain result) ∷ [] }
{
    match word {
        BaseWord::HexEncode => PlainWord::HexEncode,
        BaseWord::HexDecode => PlainWord::HexDecode,
        BaseWord::Base64Encode => PlainWord::Base64Encode,
        BaseWord::Base64Decode => PlainWord::Base64Decode,
    }
}

fn put_source(alloc: Global, out: &mut Items<Token>, word: &SourceWord) -> Result<(), NoMemory>
    ensures { OnOk result (out.new ≡ out.old ++ spec.canonical_source word.now) }
{
    match word {
        SourceWord::SourceFile(name) => {
            put_with_text(alloc, out, Keyword::File(FileWord::SourceFile), name)
        }
        SourceWord::Stdin => put_keyword(out, Keyword::Plain(PlainWord::Stdin)),
        SourceWord::Bytes(text) => {
            put_with_text(alloc, out, Keyword::Literal(LiteralWord::Bytes), text)
        }
        SourceWord::Text(text) => put_with_text(
            alloc,
            out,
            Keyword::Literal(LiteralWord::Text),
            text,
        ),
        SourceWord::Blocks(texts) => put_list(alloc, out, ListWord::Blocks, texts.as_slice()),
        SourceWord::Texts(texts) => put_list(alloc, out, ListWord::Texts, texts.as_slice()),
        SourceWord::Replicate(n, text) => {
            put_with_number(out, Keyword::Replicate, *n)?;
            put_text(alloc, out, text)
        }
        SourceWord::Range(first, last) => {
            put_with_number(out, Keyword::Range, *first)?;
            put_number(out, *last)
        }
    }
}

fn put_list(
    alloc: Global,
    out: &mut Items<Token>,
    word: ListWord,
    texts: &[Literal],
) -> Result<(), NoMemory>
    ensures { OnOk result (out.new
        ≡ out.old ++ Token.Word (Keyword.List word) ∷ spec.canonical_list texts.now) }
{
    put_keyword(out, Keyword::List(word))?;
    put_sign(out, Sign::OpenSquare)?;
    put_texts(alloc, out, texts)?;
    put_sign(out, Sign::CloseSquare)
}

/// Adds these literals, with commas between them.
fn put_texts(alloc: Global, out: &mut Items<Token>, texts: &[Literal]) -> Result<(), NoMemory>
    ensures { OnOk result (out.new
        ≡ out.old ++ spec.separated (Token.Sign Sign.Comma) (spec.canonical_texts texts.now)) }
{
    for (place, text) in texts.iter().enumerate() {
        if place > 0 {
            put_sign(out, Sign::Comma)?;
        }
        put_text(alloc, out, text)?;
    }
    Ok(())
}

fn put_sink(alloc: Global, out: &mut Items<Token>, word: &SinkWord) -> Result<(), NoMemory>
    ensures { OnOk result (out.new ≡ out.old ++ spec.canonical_sink word.now) }
{
    match word {
        SinkWord::SinkFile(name) => {
            put_with_text(alloc, out, Keyword::File(FileWord::SinkFile), name)
        }
        SinkWord::Stdout => put_keyword(out, Keyword::Plain(PlainWord::Stdout)),
    }
}

/// Adds `not` where it stands.
fn put_not(out: &mut Items<Token>, negated: bool) -> Result<(), NoMemory>
    ensures { OnOk result (out.new ≡ out.old ++ not_tokens negated) }
{
    if negated {
        put_keyword(out, Keyword::Not)
    } else {
        Ok(())
    }
}

/// Adds the literal of a character.
fn put_char(alloc: Global, out: &mut Items<Token>, scalar: char) -> Result<(), NoMemory>
    ensures tokens { OnOk result (out.new ≡ out.old ++ Token.Text (encode_utf8 scalar) ∷ []) }
    ensures range { ranges.is_char scalar ≡ true }
{
    put(out, Token::Text(literal_of(alloc, scalar)?))
}

/// The literal of a character.
fn literal_of(alloc: Global, scalar: char) -> Result<Literal, NoMemory>
    ensures { IfOk result (λ text. text ≡ encode_utf8 scalar) }
{
    let mut text = String::new(alloc);
    text.push(scalar)?;
    Ok(Literal::from(text))
}

/// Adds a reserved word and the number behind it.
pub fn put_with_number(out: &mut Items<Token>, word: Keyword, number: u64) -> Result<(), NoMemory>
    ensures { OnOk result (out.new ≡ out.old ++ Token.Word word ∷ Token.Number (Some number) ∷ []) }
{
    put_keyword(out, word)?;
    put_number(out, number)
}

/// Adds a reserved word and the literal behind it.
pub fn put_with_text(
    alloc: Global,
    out: &mut Items<Token>,
    word: Keyword,
    text: &Literal,
) -> Result<(), NoMemory>
    ensures { OnOk result (out.new ≡ out.old ++ Token.Word word ∷ Token.Text text.now ∷ []) }
{
    put_keyword(out, word)?;
    put_text(alloc, out, text)
}

/// Adds a reserved word.
pub fn put_keyword(out: &mut Items<Token>, word: Keyword) -> Result<(), NoMemory>
    ensures { OnOk result (out.new ≡ out.old ++ Token.Word word ∷ []) }
{
    put(out, Token::Word(word))
}

/// Adds a sign.
pub fn put_sign(out: &mut Items<Token>, sign: Sign) -> Result<(), NoMemory>
    ensures { OnOk result (out.new ≡ out.old ++ Token.Sign sign ∷ []) }
{
    put(out, Token::Sign(sign))
}

/// Adds a number.
pub fn put_number(out: &mut Items<Token>, number: u64) -> Result<(), NoMemory>
    ensures { OnOk result (out.new ≡ out.old ++ Token.Number (Some number) ∷ []) }
{
    put(out, Token::Number(Some(number)))
}

/// Adds a literal.
pub fn put_text(alloc: Global, out: &mut Items<Token>, text: &Literal) -> Result<(), NoMemory>
    ensures { OnOk result (out.new ≡ out.old ++ Token.Text text.now ∷ []) }
{
    put(out, Token::Text(Literal::new(alloc, text.as_str())?))
}

/// Adds a token.
pub fn put(out: &mut Items<Token>, token: Token) -> Result<(), NoMemory>
    ensures { OnOk result (out.new ≡ out.old ++ token ∷ []) }
{
    out.push(token).map_err(|_| NoMemory)
}
