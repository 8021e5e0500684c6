// Tokens of a script's text. Words are sorted by what follows them, so that a further word of a sort is one line.
use crate::literal::Literal;
use crate::name::Name;
use crate::script::Join;

/// A word with nothing behind it.
#[derive(Clone, Copy)]
pub enum PlainWord {
    PassE,
    HeadE,
    PeekE,
    LastE,
    LengthE,
    SumE,
    NullE,
    SinkNull,
    Pass,
    Head,
    Peek,
    Last,
    Length,
    Null,
    Flat,
    Unlines,
    Utf8,
    Utf8Lenient,
    Utf8Encode,
    HexEncode,
    HexDecode,
    Base64Encode,
    Base64Decode,
    Stdin,
    Stdout,
}

/// A word with a number behind it.
#[derive(Clone, Copy)]
pub enum CountedWord {
    TakeE,
    RepeatE,
    DropE,
    CollectE,
    Take,
    Repeat,
    Drop,
    Collect,
    Lines,
    Exact,
    ChunksOf,
}

/// A word with a class behind it.
#[derive(Clone, Copy)]
pub enum ClassedWord {
    TakeWhileE,
    FilterE,
    DropWhileE,
    AllE,
    AnyE,
}

/// A word with a test behind it.
#[derive(Clone, Copy)]
pub enum TestedWord {
    TakeWhile,
    Filter,
    DropWhile,
}

/// A word with a literal behind it.
#[derive(Clone, Copy)]
pub enum LiteralWord {
    Intersperse,
    Bytes,
    Text,
}

/// A word with the name of a file behind it.
#[derive(Clone, Copy)]
pub enum FileWord {
    SourceFile,
    SinkFile,
}

/// A word with a list of literals behind it.
#[derive(Clone, Copy)]
pub enum ListWord {
    Blocks,
    Texts,
}

/// A class with nothing behind it.
#[derive(Clone, Copy)]
pub enum PlainClass {
    Digit,
    Upper,
    Lower,
    Alpha,
    Alnum,
    Hexdigit,
    Space,
    Newline,
}

/// A test of an end of a piece, with a literal behind it.
#[derive(Clone, Copy)]
pub enum EndTest {
    Begins,
    Ends,
}

/// A map of elements with a number behind it.
#[derive(Clone, Copy)]
pub enum NumberMap {
    Xor,
    Add,
}

/// A map that adds to an end of a piece, with a literal behind it.
#[derive(Clone, Copy)]
pub enum EndMap {
    Prefix,
    Suffix,
}

/// The first word of a statement with a name behind it.
#[derive(Clone, Copy)]
pub enum Opening {
    Let,
    Feed,
    Close,
    Hold,
    Release,
}

/// A form with a number and a pipe in braces behind it.
#[derive(Clone, Copy)]
pub enum Section {
    Exactly,
    ExactlyE,
}

/// A form with two pipes in parentheses behind it.
#[derive(Clone, Copy)]
pub enum Zip {
    Source,
    Sink,
    Conduit,
}

/// A reserved word.
#[derive(Clone, Copy)]
pub enum Keyword {
    Run,
    Opening(Opening),
    Seal,
    Mark,
    Version,
    Scope,
    Section(Section),
    LineE,
    Tee,
    Zip(Zip),
    Plain(PlainWord),
    Counted(CountedWord),
    Classed(ClassedWord),
    Tested(TestedWord),
    Literal(LiteralWord),
    File(FileWord),
    List(ListWord),
    MapE,
    Map,
    Split,
    Replicate,
    Range,
    Not,
    Class(PlainClass),
    Is,
    Below,
    Empty,
    EndTest(EndTest),
    Shorter,
    NumberMap(NumberMap),
    Rot13,
    EndMap(EndMap),
    Reverse,
}

/// A sign.
#[derive(Clone, Copy)]
pub enum Sign {
    Operator(Join),
    OpenBrace,
    CloseBrace,
    OpenParen,
    CloseParen,
    OpenSquare,
    CloseSquare,
    Comma,
    Semicolon,
    Equals,
}

/// A token, without its place. A number past 2^64 - 1 is `Number(None)`.
#[derive(Drop)]
pub enum Token {
    Word(Keyword),
    Sign(Sign),
    Number(Option<u64>),
    /// The value of a literal.
    Text(Literal),
    /// An identifier that is not reserved.
    Named(Name),
}

/// A token and the place of its first byte.
#[derive(Drop)]
pub struct Lexeme {
    pub token: Token,
    pub at: u32,
}

/// Which limit a token passes.
#[derive(Clone, Copy, Debug, PartialEq, Eq)]
pub enum LimitKind {
    /// It is the 8,193rd token.
    Tokens,
    /// It opens the 33rd bracket that is open at once.
    Depth,
    /// A literal of more than 4,096 bytes, or an identifier of more than 64.
    Literal,
    /// A number outside the range of its place.
    Number,
}
