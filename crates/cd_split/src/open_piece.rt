// The piece that is not full yet.
ghost use Rattle.std.specs.Prelude.{◌≡◌, ◌+◌, ◌≤◌, ◌++◌, [], false, IfOk, OnOk, OnErr, IsTrue, length, take};
ghost use Rattle.cd_elem.specs.Chunks.{is_cut};
ghost use Rattle.cd_elem.specs.Limits.{piece_limit};
ghost use Rattle.cd_meaning.specs.Sorts.{pieces_of};
ghost use Rattle.cd_step.specs.CutChunks.{kind_of};
ghost use Rattle.cd_step.specs.Parts.{pieces_at, sort_at};
ghost use Rattle.cd_split.specs.Cutting.{numbers, sort_of};

use cd_elem::{ByteList, CharList, Chunk, Items, Kind, NoMemory};
use std::alloc::Global;
use std::mem;

/// The elements since the last piece or separator.
#[derive(Drop)]
pub enum OpenPiece {
    Bytes(ByteList),
    Chars(CharList),
}

impl OpenPiece {
    /// An empty one of a stream of this kind. It takes no memory.
    pub fn new(alloc: Global, kind: Kind) -> OpenPiece
        requires { pieces_at kind ≡ false }
        ensures numbers { numbers result ≡ [] }
        ensures sort { sort_of result ≡ sort_at kind }
        ensures kind { kind_of (sort_of result) ≡ kind }
    {
        match kind {
            Kind::Bytes => OpenPiece::Bytes(Items::new(alloc)),
            Kind::Chars => OpenPiece::Chars(Items::new(alloc)),
            Kind::Blocks(_) | Kind::Texts(_) => unreachable!(),
        }
    }

    #[inline]
    pub fn len(&self) -> usize
        ensures { result ≡ length (numbers self.now) }
    {
        match self {
            OpenPiece::Bytes(list) => list.len(),
            OpenPiece::Chars(list) => list.len(),
        }
    }

    /// Adds the first `count` elements of the chunk.
    #[inline]
    pub fn grow(&mut self, chunk: &Chunk, count: usize) -> Result<(), NoMemory>
        requires sort { chunk.now.0 ≡ sort_of self.old }
        requires within { count ≤ length chunk.now.1 }
        ensures ok { OnOk result (numbers self.new ≡ numbers self.old ++ take count chunk.now.1) }
        ensures err { OnErr result (self.new ≡ self.old) }
        ensures sort { sort_of self.new ≡ sort_of self.old }
    {
        match self {
            OpenPiece::Bytes(list) => match chunk.as_bytes() {
                Some(bytes) => list.extend_from_slice(&bytes[..count]),
                None => unreachable!(),
            },
            OpenPiece::Chars(list) => match chunk.as_chars() {
                Some(chars) => list.extend_from_slice(&chars[..count]),
                None => unreachable!(),
            },
        }
    }

    /// Gives it as a piece, and is empty then. It takes no memory.
    #[inline]
    pub fn end(&mut self, alloc: Global) -> Chunk
        requires { length (numbers self.old) ≤ piece_limit }
        ensures value { result ≡ (pieces_of (sort_of self.old), numbers self.old) }
        ensures after { numbers self.new ≡ [] }
        ensures sort { sort_of self.new ≡ sort_of self.old }
    {
        match self {
            OpenPiece::Bytes(list) => Chunk::block_of(mem::replace(list, Items::new(alloc))),
            OpenPiece::Chars(list) => Chunk::text_of(mem::replace(list, Items::new(alloc))),
        }
    }

    /// Gives it with the first `count` elements of the chunk behind it, and is empty then. What lies whole in the chunk
    /// is one copy.
    #[inline]
    pub fn end_with(
        &mut self,
        alloc: Global,
        chunk: &Chunk,
        count: usize,
    ) -> Result<Chunk, NoMemory>
        requires sort { chunk.now.0 ≡ sort_of self.old }
        requires within { count ≤ length chunk.now.1 }
        requires most { length (numbers self.old) + count ≤ piece_limit }
        ensures value { IfOk result (λ piece. piece ≡ (pieces_of (sort_of self.old), numbers self.old ++ take count chunk.now.1)) }
        ensures after { OnOk result (numbers self.new ≡ []) }
        ensures err { OnErr result (self.new ≡ self.old) }
        ensures sort { sort_of self.new ≡ sort_of self.old }
    {
        if self.len() == 0 {
            return front_piece(alloc, chunk, count);
        }
        self.grow(chunk, count)?;
        Ok(self.end(alloc))
    }
}

/// The first `count` elements as a piece.
#[inline]
fn front_piece(alloc: Global, chunk: &Chunk, count: usize) -> Result<Chunk, NoMemory>
    requires cut { IsTrue (is_cut chunk.now.0) }
    requires within { count ≤ length chunk.now.1 }
    requires most { count ≤ piece_limit }
    ensures { IfOk result (λ piece. piece ≡ (pieces_of chunk.now.0, take count chunk.now.1)) }
{
    match chunk.as_bytes() {
        Some(bytes) => Chunk::block(alloc, &bytes[..count]),
        None => match chunk.as_chars() {
            Some(chars) => Chunk::text(alloc, &chars[..count]),
            None => unreachable!(),
        },
    }
}
