// The reserved words, and how each is spelled.
ghost use Rattle.std.specs.Prelude.{◌≡◌};
ghost use Rattle.cd_grammar.specs.Keywords as spec;

use cd_elem::{
    ClassedWord, CountedWord, EndMap, EndTest, FileWord, Keyword, ListWord, LiteralWord, NumberMap,
    Opening, PlainClass, PlainWord, Section, TestedWord, Zip,
};

fn spelled_opening(word: Opening) -> &'static str
    ensures { result.now ≡ spec.spelled_opening word }
{
    match word {
        Opening::Let => "let",
        Opening::Feed => "feed",
        Opening::Close => "close",
        Opening::Hold => "hold",
        Opening::Release => "release",
    }
}

fn spelled_section(word: Section) -> &'static str
    ensures { result.now ≡ spec.spelled_section word }
{
    match word {
        Section::Exactly => "exactly",
        Section::ExactlyE => "exactlyE",
    }
}

fn spelled_zip(word: Zip) -> &'static str
    ensures { result.now ≡ spec.spelled_zip word }
{
    match word {
        Zip::Source => "zipSource",
        Zip::Sink => "zipSink",
        Zip::Conduit => "zipConduit",
    }
}

fn spelled_plain_word(word: PlainWord) -> &'static str
    ensures { result.now ≡ spec.spelled_plain_word word }
{
    match word {
        PlainWord::PassE => "passE",
        PlainWord::HeadE => "headE",
        PlainWord::PeekE => "peekE",
        PlainWord::LastE => "lastE",
        PlainWord::LengthE => "lengthE",
        PlainWord::SumE => "sumE",
        PlainWord::NullE => "nullE",
        PlainWord::SinkNull => "sinkNull",
        PlainWord::Pass => "pass",
        PlainWord::Head => "head",
        PlainWord::Peek => "peek",
        PlainWord::Last => "last",
        PlainWord::Length => "length",
        PlainWord::Null => "null",
        PlainWord::Flat => "flat",
        PlainWord::Unlines => "unlines",
        PlainWord::Utf8 => "utf8",
        PlainWord::Utf8Lenient => "utf8Lenient",
        PlainWord::Utf8Encode => "utf8Encode",
        PlainWord::HexEncode => "hexEncode",
        PlainWord::HexDecode => "hexDecode",
        PlainWord::Base64Encode => "base64Encode",
        PlainWord::Base64Decode => "base64Decode",
        PlainWord::Stdin => "stdin",
        PlainWord::Stdout => "stdout",
    }
}

fn spelled_counted_word(word: CountedWord) -> &'static str
    ensures { result.now ≡ spec.spelled_counted_word word }
{
    match word {
        CountedWord::TakeE => "takeE",
        CountedWord::RepeatE => "repeatE",
        CountedWord::DropE => "dropE",
        CountedWord::CollectE => "collectE",
        CountedWord::Take => "take",
        CountedWord::Repeat => "repeat",
        CountedWord::Drop => "drop",
        CountedWord::Collect => "collect",
        CountedWord::Lines => "lines",
        CountedWord::Exact => "exact",
        CountedWord::ChunksOf => "chunksOf",
    }
}

fn spelled_classed_word(word: ClassedWord) -> &'static str
    ensures { result.now ≡ spec.spelled_classed_word word }
{
    match word {
        ClassedWord::TakeWhileE => "takeWhileE",
        ClassedWord::FilterE => "filterE",
        ClassedWord::DropWhileE => "dropWhileE",
        ClassedWord::AllE => "allE",
        ClassedWord::AnyE => "anyE",
    }
}

fn spelled_tested_word(word: TestedWord) -> &'static str
    ensures { result.now ≡ spec.spelled_tested_word word }
{
    match word {
        TestedWord::TakeWhile => "takeWhile",
        TestedWord::Filter => "filter",
        TestedWord::DropWhile => "dropWhile",
    }
}

fn spelled_literal_word(word: LiteralWord) -> &'static str
    ensures { result.now ≡ spec.spelled_literal_word word }
{
    match word {
        LiteralWord::Intersperse => "intersperse",
        LiteralWord::Bytes => "bytes",
        LiteralWord::Text => "text",
    }
}

fn spelled_file_word(word: FileWord) -> &'static str
    ensures { result.now ≡ spec.spelled_file_word word }
{
    match word {
        FileWord::SourceFile => "sourceFile",
        FileWord::SinkFile => "sinkFile",
    }
}

fn spelled_list_word(word: ListWord) -> &'static str
    ensures { result.now ≡ spec.spelled_list_word word }
{
    match word {
        ListWord::Blocks => "blocks",
        ListWord::Texts => "texts",
    }
}

fn spelled_plain_class(word: PlainClass) -> &'static str
    ensures { result.now ≡ spec.spelled_plain_class word }
{
    match word {
        PlainClass::Digit => "digit",
        PlainClass::Upper => "upper",
        PlainClass::Lower => "lower",
        PlainClass::Alpha => "alpha",
        PlainClass::Alnum => "alnum",
        PlainClass::Hexdigit => "hexdigit",
        PlainClass::Space => "space",
        PlainClass::Newline => "newline",
    }
}

fn spelled_end_test(word: EndTest) -> &'static str
    ensures { result.now ≡ spec.spelled_end_test word }
{
    match word {
        EndTest::Begins => "begins",
        EndTest::Ends => "ends",
    }
}

fn spelled_number_map(word: NumberMap) -> &'static str
    ensures { result.now ≡ spec.spelled_number_map word }
{
    match word {
        NumberMap::Xor => "xor",
        NumberMap::Add => "add",
    }
}

fn spelled_end_map(word: EndMap) -> &'static str
    ensures { result.now ≡ spec.spelled_end_map word }
{
    match word {
        EndMap::Prefix => "prefix",
        EndMap::Suffix => "suffix",
    }
}

pub fn spelled_word(word: Keyword) -> &'static str
    ensures { result.now ≡ spec.spelled_word word }
{
    match word {
        Keyword::Opening(word) => spelled_opening(word),
        Keyword::Section(word) => spelled_section(word),
        Keyword::Zip(word) => spelled_zip(word),
        Keyword::Plain(word) => spelled_plain_word(word),
        Keyword::Counted(word) => spelled_counted_word(word),
        Keyword::Classed(word) => spelled_classed_word(word),
        Keyword::Tested(word) => spelled_tested_word(word),
        Keyword::Literal(word) => spelled_literal_word(word),
        Keyword::File(word) => spelled_file_word(word),
        Keyword::List(word) => spelled_list_word(word),
        Keyword::Class(word) => spelled_plain_class(word),
        Keyword::EndTest(word) => spelled_end_test(word),
        Keyword::NumberMap(word) => spelled_number_map(word),
        Keyword::EndMap(word) => spelled_end_map(word),
        Keyword::Run => "run",
        Keyword::Seal => "seal",
        Keyword::Mark => "mark",
        Keyword::Not => "not",
        Keyword::Version => "version",
        Keyword::Scope => "scope",
        Keyword::LineE => "lineE",
        Keyword::Tee => "tee",
        Keyword::MapE => "mapE",
        Keyword::Map => "map",
        Keyword::Split => "split",
        Keyword::Replicate => "replicate",
        Keyword::Range => "range",
        Keyword::Is => "is",
        Keyword::Below => "below",
        Keyword::Empty => "empty",
        Keyword::Shorter => "shorter",
        Keyword::Rot13 => "rot13",
        Keyword::Reverse => "reverse",
    }
}

static KEYWORDS: &[Keyword] = &[
    Keyword::Run,
    Keyword::Opening(Opening::Let),
    Keyword::Seal,
    Keyword::Opening(Opening::Feed),
    Keyword::Opening(Opening::Close),
    Keyword::Opening(Opening::Hold),
    Keyword::Mark,
    Keyword::Opening(Opening::Release),
    Keyword::Not,
    Keyword::Version,
    Keyword::Scope,
    Keyword::Section(Section::Exactly),
    Keyword::Section(Section::ExactlyE),
    Keyword::LineE,
    Keyword::Tee,
    Keyword::Zip(Zip::Source),
    Keyword::Zip(Zip::Sink),
    Keyword::Zip(Zip::Conduit),
    Keyword::Plain(PlainWord::PassE),
    Keyword::Plain(PlainWord::HeadE),
    Keyword::Plain(PlainWord::PeekE),
    Keyword::Plain(PlainWord::LastE),
    Keyword::Plain(PlainWord::LengthE),
    Keyword::Plain(PlainWord::SumE),
    Keyword::Plain(PlainWord::NullE),
    Keyword::Plain(PlainWord::SinkNull),
    Keyword::Plain(PlainWord::Pass),
    Keyword::Plain(PlainWord::Head),
    Keyword::Plain(PlainWord::Peek),
    Keyword::Plain(PlainWord::Last),
    Keyword::Plain(PlainWord::Length),
    Keyword::Plain(PlainWord::Null),
    Keyword::Plain(PlainWord::Flat),
    Keyword::Plain(PlainWord::Unlines),
    Keyword::Plain(PlainWord::Utf8),
    Keyword::Plain(PlainWord::Utf8Lenient),
    Keyword::Plain(PlainWord::Utf8Encode),
    Keyword::Plain(PlainWord::HexEncode),
    Keyword::Plain(PlainWord::HexDecode),
    Keyword::Plain(PlainWord::Base64Encode),
    Keyword::Plain(PlainWord::Base64Decode),
    Keyword::Plain(PlainWord::Stdin),
    Keyword::Plain(PlainWord::Stdout),
    Keyword::Counted(CountedWord::TakeE),
    Keyword::Counted(CountedWord::RepeatE),
    Keyword::Counted(CountedWord::DropE),
    Keyword::Counted(CountedWord::CollectE),
    Keyword::Counted(CountedWord::Take),
    Keyword::Counted(CountedWord::Repeat),
    Keyword::Counted(CountedWord::Drop),
    Keyword::Counted(CountedWord::Collect),
    Keyword::Counted(CountedWord::Lines),
    Keyword::Counted(CountedWord::Exact),
    Keyword::Counted(CountedWord::ChunksOf),
    Keyword::Classed(ClassedWord::TakeWhileE),
    Keyword::Classed(ClassedWord::FilterE),
    Keyword::Classed(ClassedWord::DropWhileE),
    Keyword::Classed(ClassedWord::AllE),
    Keyword::Classed(ClassedWord::AnyE),
    Keyword::Tested(TestedWord::TakeWhile),
    Keyword::Tested(TestedWord::Filter),
    Keyword::Tested(TestedWord::DropWhile),
    Keyword::Literal(LiteralWord::Intersperse),
    Keyword::Literal(LiteralWord::Bytes),
    Keyword::Literal(LiteralWord::Text),
    Keyword::File(FileWord::SourceFile),
    Keyword::File(FileWord::SinkFile),
    Keyword::List(ListWord::Blocks),
    Keyword::List(ListWord::Texts),
    Keyword::MapE,
    Keyword::Map,
    Keyword::Split,
    Keyword::Replicate,
    Keyword::Range,
    Keyword::Class(PlainClass::Digit),
    Keyword::Class(PlainClass::Upper),
    Keyword::Class(PlainClass::Lower),
    Keyword::Class(PlainClass::Alpha),
    Keyword::Class(PlainClass::Alnum),
    Keyword::Class(PlainClass::Hexdigit),
    Keyword::Class(PlainClass::Space),
    Keyword::Class(PlainClass::Newline),
    Keyword::Is,
    Keyword::Below,
    Keyword::Empty,
    Keyword::EndTest(EndTest::Begins),
    Keyword::EndTest(EndTest::Ends),
    Keyword::Shorter,
    Keyword::NumberMap(NumberMap::Xor),
    Keyword::NumberMap(NumberMap::Add),
    Keyword::Rot13,
    Keyword::EndMap(EndMap::Prefix),
    Keyword::EndMap(EndMap::Suffix),
    Keyword::Reverse,
];

fn first_spelled(name: &[u8], words: &[Keyword]) -> Option<Keyword>
    ensures { result ≡ spec.first_spelled name.now words.now }
{
    for word in words {
        if name == spelled_word(*word).as_bytes() {
            return Some(*word);
        }
    }
    None
}

/// The reserved word that an identifier is, if it is one.
pub fn reserved(name: &[u8]) -> Option<Keyword>
    ensures { result ≡ spec.reserved name.now }
{
    first_spelled(name, KEYWORDS)
}
