// The kinds of streams, and the sorts of their chunks.

/// The kind of a stream. `Bytes` and `Chars` are the cut kinds: streams of single elements that may be cut into
/// chunks anywhere. The others are the piece kinds: streams of lists with at most so many elements each, which are
/// never cut.
#[derive(Clone, Copy, PartialEq, Eq)]
pub enum Kind {
    Bytes,
    Chars,
    /// Pieces of bytes, and the greatest length of one.
    Blocks(u32),
    /// Pieces of characters, and the greatest length of one.
    Texts(u32),
}

/// What a chunk holds: some elements of a cut stream, or one whole piece.
#[derive(Clone, Copy, Debug, PartialEq, Eq)]
pub enum Sort {
    Bytes,
    Chars,
    /// One piece of bytes.
    Block,
    /// One piece of characters.
    Text,
}
