// The words of a script, each spelt as its variant with a small first letter.
use crate::LiteralList;
use crate::literal::Literal;

/// One word with its arguments, by what it works on.
#[derive(Drop)]
pub enum Word {
    Elem(ElemWord),
    Piece(PieceWord),
    Split(SplitWord),
    Text(TextWord),
    Base(BaseWord),
    Source(SourceWord),
    Sink(SinkWord),
}

/// A word that reads elements of a cut stream. `SinkNull` reads pieces too.
#[derive(Clone, Copy)]
pub enum ElemWord {
    PassE,
    TakeE(u64),
    TakeWhileE(Class),
    FilterE(Class),
    MapE(ByteMap),
    /// 0 to 4,096 times.
    RepeatE(u64),
    DropE(u64),
    DropWhileE(Class),
    HeadE,
    PeekE,
    LastE,
    LengthE,
    SumE,
    AllE(Class),
    AnyE(Class),
    NullE,
    /// At most 0 to 16,777,216 elements.
    CollectE(u64),
    SinkNull,
}

/// A word that reads pieces.
#[derive(Drop)]
pub enum PieceWord {
    Pass,
    Take(u64),
    TakeWhile(PieceTest),
    Filter(PieceTest),
    /// 0 to 4,096 times.
    Repeat(u64),
    Map(PieceMap),
    Intersperse(Literal),
    Drop(u64),
    DropWhile(PieceTest),
    Head,
    Peek,
    Last,
    Length,
    Null,
    /// At most 0 to 16,777,216 pieces.
    Collect(u64),
}

/// A word between elements and pieces. Its number is the greatest length of a piece, 1 to 65,536.
#[derive(Clone, Copy)]
pub enum SplitWord {
    Lines(u64),
    /// Lines that end at this character.
    Split(char, u64),
    Exact(u64),
    ChunksOf(u64),
    Flat,
    Unlines,
}

/// A word between bytes and characters.
#[derive(Clone, Copy)]
pub enum TextWord {
    Utf8,
    Utf8Lenient,
    Utf8Encode,
}

/// A word between bytes and their base16 or base64 (RFC 4648, sections 8 and 4).
#[derive(Clone, Copy)]
pub enum BaseWord {
    HexEncode,
    HexDecode,
    Base64Encode,
    Base64Decode,
}

/// A word that reads no input.
#[derive(Drop)]
pub enum SourceWord {
    /// The bytes of the file with this name.
    SourceFile(Literal),
    Stdin,
    Bytes(Literal),
    Text(Literal),
    Blocks(LiteralList),
    Texts(LiteralList),
    /// The literal as one piece, 0 to 1,099,511,627,776 times.
    Replicate(u64, Literal),
    /// The decimal texts of the numbers from the first to the last one, both included.
    Range(u64, u64),
}

/// A word that writes its input out.
#[derive(Drop)]
pub enum SinkWord {
    /// Into the file with this name.
    SinkFile(Literal),
    Stdout,
}

/// A map of elements.
#[derive(Clone, Copy)]
pub enum ByteMap {
    Xor(u8),
    /// The sum modulo 256.
    Add(u8),
    /// Each of the 26 ASCII letters of a case 13 places on.
    Rot13,
}

/// A map of pieces.
#[derive(Drop)]
pub enum PieceMap {
    Prefix(Literal),
    Suffix(Literal),
    Reverse,
}

/// A class of elements, or those outside it.
#[derive(Clone, Copy)]
pub struct Class {
    pub negated: bool,
    pub what: ClassName,
}

/// A class of elements by their numbers. Those with a name are ASCII's.
#[derive(Clone, Copy)]
pub enum ClassName {
    Digit,
    Upper,
    Lower,
    Alpha,
    Alnum,
    Hexdigit,
    Space,
    Newline,
    /// This element alone.
    Is(char),
    /// Each number smaller than this one.
    Below(u64),
}

/// A test of a piece, or its opposite.
#[derive(Drop)]
pub struct PieceTest {
    pub negated: bool,
    pub what: TestName,
}

/// What is asked of a piece.
#[derive(Drop)]
pub enum TestName {
    Empty,
    Begins(Literal),
    Ends(Literal),
    /// A length smaller than this number.
    Shorter(u64),
}
