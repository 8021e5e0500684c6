// What is done with a chunk of a cut stream.
ghost use Rattle.std.specs.Prelude.{◌≡◌, ◌+◌, ◌-◌, ◌*◌, ◌<◌, ◌≤◌, ℕ, IfOk, IsTrue, length, map, filter, take, drop, replicate, sum, get_or};
ghost use Rattle.std.specs.List.{prefix_len, flat_map};
ghost use Rattle.cd_elem.specs.Chunks.{is_cut};
ghost use Rattle.cd_elem.specs.Limits.{chunk_limit};
ghost use Rattle.cd_elem.specs.declared.kind.Sort.TheVariants as sort;
ghost use Rattle.cd_meaning.specs.Classes.{is_in_class, element_mapped};
ghost use Rattle.cd_meaning.specs.RunShapes.{as_count};
ghost use Rattle.cd_elemwise.specs.Carried.{IsElements, MapFits, IsChunkOf, gathered, list_sort, single_of};

use crate::class_table::ClassTable;
use crate::element::Element;
use crate::slice::{front, mapped, passing, repeated, sum_behind};
use crate::state::{Gathered, Single};
use cd_elem::{ByteMap, Chunk, Items, NoMemory};
use std::alloc::Global;

/// The elements of a chunk.
pub enum ElementSlice<'a> {
    Bytes(&'a [u8]),
    Chars(&'a [char]),
}

pub fn elements_of(chunk: &Chunk) -> ElementSlice<'_>
    requires { IsTrue (is_cut chunk.now.0) }
    ensures { IsElements result chunk.now }
{
    match chunk.as_bytes() {
        Some(bytes) => ElementSlice::Bytes(bytes),
        None => match chunk.as_chars() {
            Some(chars) => ElementSlice::Chars(chars),
            None => unreachable!(),
        },
    }
}

/// How many elements stand before the first that is not in the class.
pub fn front_of(table: &ClassTable, chunk: &Chunk) -> usize
    requires { IsTrue (is_cut chunk.now.0) }
    ensures value { result ≡ prefix_len (is_in_class table.now) chunk.now.1 }
    ensures within { result ≤ length chunk.now.1 }
{
    match elements_of(chunk) {
        ElementSlice::Bytes(bytes) => front(table, bytes),
        ElementSlice::Chars(chars) => front(table, chars),
    }
}

fn some_chunk<T: Element>(list: Items<T>) -> Option<Chunk>
    requires { length list ≤ chunk_limit }
    ensures { IsChunkOf T.sort (map T.number list) result }
{
    if list.is_empty() {
        None
    } else {
        Some(T::chunk_of(list))
    }
}

/// The elements of a chunk as a list, in the memory that it has.
fn owned_of(chunk: Chunk) -> Gathered
    requires { IsTrue (is_cut chunk.0) }
    ensures list { gathered result ≡ chunk.1 }
    ensures sort { list_sort result ≡ chunk.0 }
{
    match chunk.into_bytes() {
        Ok(bytes) => Gathered::Bytes(bytes),
        Err(chunk) => match chunk.into_chars() {
            Ok(chars) => Gathered::Chars(chars),
            Err(_) => unreachable!(),
        },
    }
}

/// Those in the class, None where there is none. It takes no memory.
pub fn passing_of(table: &ClassTable, chunk: Chunk) -> Option<Chunk>
    requires { IsTrue (is_cut chunk.0) }
    ensures { IsChunkOf chunk.0 (filter (is_in_class table.now) chunk.1) result }
{
    let some = chunk.len();
    match owned_of(chunk) {
        Gathered::Bytes(bytes) => some_chunk(passing(table, bytes)),
        Gathered::Chars(chars) => some_chunk(passing(table, chars)),
    }
}

/// What the map makes of each. It takes no memory.
pub fn mapped_of(by: ByteMap, chunk: Chunk) -> Chunk
    requires { MapFits by chunk.0 }
    ensures { result ≡ (chunk.0, map (element_mapped by) chunk.1) }
{
    let some = chunk.len();
    match owned_of(chunk) {
        Gathered::Bytes(bytes) => u8::chunk_of(mapped(by, bytes)),
        Gathered::Chars(chars) => char::chunk_of(mapped(by, chars)),
    }
}

/// The first `count` elements, each so many times.
pub fn repeated_of(
    alloc: Global,
    times: usize,
    count: usize,
    chunk: &Chunk,
) -> Result<Chunk, NoMemory>
    requires cut { IsTrue (is_cut chunk.now.0) }
    requires some { 0 < times }
    requires first { 0 < count }
    requires within { count ≤ length chunk.now.1 }
    requires most { count * times ≤ chunk_limit }
    ensures { IfOk result (λ made. made ≡ (chunk.now.0, flat_map (λ x. replicate times x) (take count chunk.now.1))) }
{
    match elements_of(chunk) {
        ElementSlice::Bytes(bytes) => {
            let list = repeated(alloc, times, &bytes[..count])?;
            Ok(u8::chunk_of(list))
        }
        ElementSlice::Chars(chars) => {
            let list = repeated(alloc, times, &chars[..count])?;
            Ok(char::chunk_of(list))
        }
    }
}

/// The sum of the bytes and of what was before, which stays at the greatest count.
pub fn sum_of(before: u64, chunk: &Chunk) -> u64
    requires { chunk.now.0 ≡ sort.Bytes }
    ensures { result ≡ as_count (before + sum chunk.now.1) }
{
    let len = chunk.len();
    match chunk.as_bytes() {
        Some(bytes) => sum_behind(before, bytes),
        None => unreachable!(),
    }
}

/// The element at a place.
pub fn single_at(chunk: &Chunk, place: usize) -> Single
    requires cut { IsTrue (is_cut chunk.now.0) }
    requires within { place < length chunk.now.1 }
    ensures { (d : ℕ) → result ≡ single_of chunk.now.0 (get_or chunk.now.1 place d) }
{
    match elements_of(chunk) {
        ElementSlice::Bytes(bytes) => Single::Byte(bytes[place]),
        ElementSlice::Chars(chars) => Single::Char(chars[place]),
    }
}

/// The last element.
pub fn last_of(chunk: &Chunk) -> Single
    requires { IsTrue (is_cut chunk.now.0) }
    ensures { (d : ℕ) → result ≡ single_of chunk.now.0 (get_or chunk.now.1 (length chunk.now.1 - 1) d) }
{
    single_at(chunk, chunk.len() - 1)
}
