// Chunks: what goes from one part of a pipe to the next.
ghost use Rattle.std.specs.Prelude.{◌≡◌, ◌<◌, ◌≤◌, ◌+◌, ◌↔◌, length, slice_get, take, drop, IsTrue, IsSome, IsOk, IfSome, IfOk, IfErr, OnOk, OnErr, [], false, true};
ghost use Rattle.cd_elem.specs.Chunks.{is_cut, has_chars, HasSize, sort_of, numbers_of};
ghost use Rattle.cd_elem.specs.Limits.{chunk_limit, piece_limit};
ghost use Rattle.cd_elem.specs.declared.kind.Sort.TheVariants as sort;

use crate::items::Items;
use crate::kind::Sort;
use crate::no_memory::NoMemory;
use crate::{ByteList, CharList};
use std::alloc::Global;
use std::marker::Model;

/// How many elements a chunk of a cut stream has at most.
pub const CHUNK_LIMIT: usize = 65_536;

/// The elements of a chunk, and of those skipped in front of them.
#[derive(Drop)]
enum Elements {
    Bytes(ByteList),
    Chars(CharList),
    Block(ByteList),
    Text(CharList),
}

impl Elements {
    fn sort(&self) -> Sort
        ensures { result ≡ sort_of self.now }
    {
        match self {
            Elements::Bytes(_) => Sort::Bytes,
            Elements::Chars(_) => Sort::Chars,
            Elements::Block(_) => Sort::Block,
            Elements::Text(_) => Sort::Text,
        }
    }

    fn len(&self) -> usize
        ensures { result ≡ length (numbers_of self.now) }
    {
        match self {
            Elements::Bytes(items) | Elements::Block(items) => items.len(),
            Elements::Chars(items) | Elements::Text(items) => items.len(),
        }
    }

    /// A copy of `count` elements from the place `start` on.
    fn copied(&self, alloc: Global, start: usize, count: usize) -> Result<Elements, NoMemory>
        requires { start + count ≤ length (numbers_of self.now) }
        ensures sort { IfOk result (λ copy. sort_of copy ≡ sort_of self.now) }
        ensures numbers { IfOk result (λ copy. numbers_of copy ≡ take count (drop start (numbers_of self.now))) }
    {
        match self {
            Elements::Bytes(items) => Ok(Elements::Bytes(part(alloc, items, start, count)?)),
            Elements::Chars(items) => Ok(Elements::Chars(part(alloc, items, start, count)?)),
            Elements::Block(items) => Ok(Elements::Block(part(alloc, items, start, count)?)),
            Elements::Text(items) => Ok(Elements::Text(part(alloc, items, start, count)?)),
        }
    }
}

/// What follows `start` members.
fn behind<T: Copy>(items: &[T], start: usize) -> &[T]
    requires { start ≤ length items.now }
    ensures { result.now ≡ drop start items.now }
{
    let (_, rest) = items.split_at(start);
    rest
}

/// `count` members from the place `start` on.
fn between<T: Copy>(items: &[T], start: usize, count: usize) -> &[T]
    requires { start + count ≤ length items.now }
    ensures { result.now ≡ take count (drop start items.now) }
{
    let (_, rest) = items.split_at(start);
    let (front, _) = rest.split_at(count);
    front
}

/// A copy of `count` members from the place `start` on.
fn part<T: Copy>(
    alloc: Global,
    items: &Items<T>,
    start: usize,
    count: usize,
) -> Result<Items<T>, NoMemory>
    requires { start + count ≤ length items.now }
    ensures { IfOk result (λ copy. copy ≡ take count (drop start items.now)) }
{
    Items::from_slice(alloc, between(items.as_slice(), start, count))
}

/// What follows `start` members, in the memory of the list.
fn rest_of<T: Copy>(items: Items<T>, start: usize) -> Items<T>
    requires { start ≤ length items }
    ensures { result ≡ drop start items }
{
    if start == 0 {
        return items;
    }
    let mut rest = items.into_vec();
    let count = rest.len() - start;
    rest.copy_within(start.., 0);
    rest.truncate(count);
    Items::from_vec(rest)
}

fn byte_at(items: &[u8], place: usize) -> Option<u32>
    ensures { result ≡ slice_get items.now place }
{
    match items.get(place) {
        Some(byte) => Some(u32::from(*byte)),
        None => None,
    }
}

fn char_at(items: &[char], place: usize) -> Option<u32>
    ensures { result ≡ slice_get items.now place }
{
    match items.get(place) {
        Some(character) => Some(u32::from(*character)),
        None => None,
    }
}

/// 1 to `CHUNK_LIMIT` elements of a cut stream, or one piece of at most 1,048,576 elements. Contracts see its sort and
/// beside it the list of its elements' numbers: of a byte its value, of a character its scalar value.
#[derive(Drop)]
pub struct Chunk {
    elements: Elements,
    // so many of the elements are skipped
    start: usize,
}

impl Model for Chunk {
    ghost use Rattle.std.specs.Prelude.{ℕ, List, drop};
    ghost use Rattle.cd_elem.specs.declared.kind.Sort.{Sort};

    ghost Value = { Sort × List ℕ };

    ghost use Rattle.cd_elem.specs.Chunks.{StandsAt, sort_of, numbers_of};

    ghost view = { λ chunk. (sort_of chunk.elements, drop chunk.start (numbers_of chunk.elements)) };

    ghost invariant = { λ chunk. StandsAt chunk.start chunk.elements };
}

impl Chunk {
    /// A copy of these elements of a stream of bytes.
    pub fn bytes(alloc: Global, items: &[u8]) -> Result<Chunk, NoMemory>
        requires some { 0 < length items.now }
        requires most { length items.now ≤ chunk_limit }
        ensures { IfOk result (λ chunk. chunk ≡ (sort.Bytes, items.now)) }
    {
        let items = Items::from_slice(alloc, items)?;
        Ok(Chunk::bytes_of(items))
    }

    /// A copy of these elements of a stream of characters.
    pub fn chars(alloc: Global, items: &[char]) -> Result<Chunk, NoMemory>
        requires some { 0 < length items.now }
        requires most { length items.now ≤ chunk_limit }
        ensures { IfOk result (λ chunk. chunk ≡ (sort.Chars, items.now)) }
    {
        let items = Items::from_slice(alloc, items)?;
        Ok(Chunk::chars_of(items))
    }

    /// A copy of this piece of bytes.
    pub fn block(alloc: Global, items: &[u8]) -> Result<Chunk, NoMemory>
        requires most { length items.now ≤ piece_limit }
        ensures { IfOk result (λ chunk. chunk ≡ (sort.Block, items.now)) }
    {
        let items = Items::from_slice(alloc, items)?;
        Ok(Chunk::block_of(items))
    }

    /// A copy of this piece of characters.
    pub fn text(alloc: Global, items: &[char]) -> Result<Chunk, NoMemory>
        requires most { length items.now ≤ piece_limit }
        ensures { IfOk result (λ chunk. chunk ≡ (sort.Text, items.now)) }
    {
        let items = Items::from_slice(alloc, items)?;
        Ok(Chunk::text_of(items))
    }

    /// These elements of a stream of bytes. It takes no memory.
    pub fn bytes_of(items: ByteList) -> Chunk
        requires some { 0 < length items }
        requires most { length items ≤ chunk_limit }
        ensures { result ≡ (sort.Bytes, items) }
    {
        Chunk {
            elements: Elements::Bytes(items),
            start: 0,
        }
    }

    /// These elements of a stream of characters. It takes no memory.
    pub fn chars_of(items: CharList) -> Chunk
        requires some { 0 < length items }
        requires most { length items ≤ chunk_limit }
        ensures { result ≡ (sort.Chars, items) }
    {
        Chunk {
            elements: Elements::Chars(items),
            start: 0,
        }
    }

    /// This piece of bytes. It takes no memory.
    pub fn block_of(items: ByteList) -> Chunk
        requires most { length items ≤ piece_limit }
        ensures { result ≡ (sort.Block, items) }
    {
        Chunk {
            elements: Elements::Block(items),
            start: 0,
        }
    }

    /// This piece of characters. It takes no memory.
    pub fn text_of(items: CharList) -> Chunk
        requires most { length items ≤ piece_limit }
        ensures { result ≡ (sort.Text, items) }
    {
        Chunk {
            elements: Elements::Text(items),
            start: 0,
        }
    }

    pub fn sort(&self) -> Sort
        ensures { result ≡ self.now.0 }
    {
        self.elements.sort()
    }

    /// How many elements it has.
    pub fn len(&self) -> usize
        ensures value { result ≡ length self.now.1 }
        ensures size { HasSize self.now.0 result }
    {
        self.elements.len() - self.start
    }

    /// Whether it is a piece with no elements.
    pub fn is_empty(&self) -> bool
        ensures { IsTrue result ↔ (self.now.1 ≡ []) }
    {
        self.len() == 0
    }

    /// The number of the element at `place`, counted from 0, and None past the last one.
    pub fn get(&self, place: usize) -> Option<u32>
        ensures { result ≡ slice_get self.now.1 place }
    {
        match &self.elements {
            Elements::Bytes(items) | Elements::Block(items) => {
                let bytes = behind(items.as_slice(), self.start);
                byte_at(bytes, place)
            }
            Elements::Chars(items) | Elements::Text(items) => {
                let chars = behind(items.as_slice(), self.start);
                char_at(chars, place)
            }
        }
    }

    /// Its elements, where they are bytes.
    pub fn as_bytes(&self) -> Option<&[u8]>
        ensures some { IsSome result ↔ (has_chars self.now.0 ≡ false) }
        ensures value { IfSome result (λ bytes. bytes.now ≡ self.now.1) }
    {
        match &self.elements {
            Elements::Bytes(items) | Elements::Block(items) => Some(behind(
                items.as_slice(),
                self.start,
            )),
            Elements::Chars(_) | Elements::Text(_) => None,
        }
    }

    /// Its elements, where they are characters.
    pub fn as_chars(&self) -> Option<&[char]>
        ensures some { IsSome result ↔ (has_chars self.now.0 ≡ true) }
        ensures value { IfSome result (λ chars. chars.now ≡ self.now.1) }
    {
        match &self.elements {
            Elements::Chars(items) | Elements::Text(items) => Some(behind(
                items.as_slice(),
                self.start,
            )),
            Elements::Bytes(_) | Elements::Block(_) => None,
        }
    }

    /// Its elements as a list, where they are bytes, and else the chunk as it was. It takes no memory.
    pub fn into_bytes(self) -> Result<ByteList, Chunk>
        ensures ok { IsOk result ↔ (has_chars self.0 ≡ false) }
        ensures value { IfOk result (λ bytes. bytes ≡ self.1) }
        ensures given_back { IfErr result (λ chunk. chunk ≡ self) }
    {
        let Chunk { elements, start } = self;
        match elements {
            Elements::Bytes(items) | Elements::Block(items) => Ok(rest_of(items, start)),
            elements => Err(Chunk { elements, start }),
        }
    }

    /// Its elements as a list, where they are characters, and else the chunk as it was. It takes no memory.
    pub fn into_chars(self) -> Result<CharList, Chunk>
        ensures ok { IsOk result ↔ (has_chars self.0 ≡ true) }
        ensures value { IfOk result (λ chars. chars ≡ self.1) }
        ensures given_back { IfErr result (λ chunk. chunk ≡ self) }
    {
        let Chunk { elements, start } = self;
        match elements {
            Elements::Chars(items) | Elements::Text(items) => Ok(rest_of(items, start)),
            elements => Err(Chunk { elements, start }),
        }
    }

    /// Drops the first `count` elements: of a piece all of them at most, and fewer of others.
    pub fn skip(&mut self, count: usize)
        requires within { count ≤ length self.old.1 }
        requires some { IsTrue (is_cut self.old.0) → count < length self.old.1 }
        ensures { self.new ≡ (self.old.0, drop count self.old.1) }
    {
        self.start += count;
    }

    /// Takes the first `count` elements off, and gives them as a chunk of the same sort. It is refused for want of
    /// memory alone, and the chunk then stays as it was.
    pub fn cut(&mut self, alloc: Global, count: usize) -> Result<Chunk, NoMemory>
        requires some { 0 < count }
        requires within { count < length self.old.1 }
        ensures front { IfOk result (λ front. front ≡ (self.old.0, take count self.old.1)) }
        ensures rest { OnOk result (self.new ≡ (self.old.0, drop count self.old.1)) }
        ensures err { OnErr result (self.new ≡ self.old) }
    {
        let elements = self.elements.copied(alloc, self.start, count)?;
        self.skip(count);
        Ok(Chunk { elements, start: 0 })
    }
}
