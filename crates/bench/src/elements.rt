// The rows of the element words. Classes and numbers are such that a word reads as long as it can.
ghost use Rattle.std.specs.Prelude.{◌<◌, ◌≤◌, length};
ghost use Rattle.cd_elem.specs.Limits.{chunk_limit};

use crate::row::element_word;
use cd_elem::{ByteMap, Class, ClassName, ElemWord};
use std::alloc::Global;
use std::rt::Clock;

/// More elements than are given.
pub const MANY: u64 = 1 << 40;

/// The greatest number that `collectE` takes.
const MOST: u64 = 16_777_216;

const ALL: Class = Class {
    negated: false,
    what: ClassName::Below(256),
};

const NONE: Class = Class {
    negated: true,
    what: ClassName::Below(256),
};

const LETTERS: Class = Class {
    negated: false,
    what: ClassName::Alpha,
};

/// The words that give elements.
fn givers<R: Print + Clock>(rt: &R, alloc: Global, bytes: &[u8]) -> anyhow::Result<()>
    requires some { 0 < length bytes.now }
    requires most { length bytes.now ≤ chunk_limit }
{
    element_word(rt, alloc, bytes, "passE", ElemWord::PassE)?;
    element_word(rt, alloc, bytes, "takeE", ElemWord::TakeE(MANY))?;
    element_word(rt, alloc, bytes, "takeWhileE", ElemWord::TakeWhileE(ALL))?;
    element_word(rt, alloc, bytes, "filterE", ElemWord::FilterE(LETTERS))?;
    element_word(rt, alloc, bytes, "mapE", ElemWord::MapE(ByteMap::Rot13))?;
    element_word(rt, alloc, bytes, "repeatE", ElemWord::RepeatE(2))
}

/// The words that skip elements, and those that keep some.
fn takers<R: Print + Clock>(rt: &R, alloc: Global, bytes: &[u8]) -> anyhow::Result<()>
    requires some { 0 < length bytes.now }
    requires most { length bytes.now ≤ chunk_limit }
{
    element_word(rt, alloc, bytes, "dropE", ElemWord::DropE(MANY))?;
    element_word(rt, alloc, bytes, "dropWhileE", ElemWord::DropWhileE(ALL))?;
    element_word(rt, alloc, bytes, "headE", ElemWord::HeadE)?;
    element_word(rt, alloc, bytes, "peekE", ElemWord::PeekE)?;
    element_word(rt, alloc, bytes, "lastE", ElemWord::LastE)?;
    element_word(rt, alloc, bytes, "collectE", ElemWord::CollectE(MOST))
}

/// The words that end with a number or a truth value, and the one that ends with nothing.
fn folds<R: Print + Clock>(rt: &R, alloc: Global, bytes: &[u8]) -> anyhow::Result<()>
    requires some { 0 < length bytes.now }
    requires most { length bytes.now ≤ chunk_limit }
{
    element_word(rt, alloc, bytes, "lengthE", ElemWord::LengthE)?;
    element_word(rt, alloc, bytes, "sumE", ElemWord::SumE)?;
    element_word(rt, alloc, bytes, "allE", ElemWord::AllE(ALL))?;
    element_word(rt, alloc, bytes, "anyE", ElemWord::AnyE(NONE))?;
    element_word(rt, alloc, bytes, "nullE", ElemWord::NullE)?;
    element_word(rt, alloc, bytes, "sinkNull", ElemWord::SinkNull)
}

/// A row for each element word.
pub fn element_words<R: Print + Clock>(rt: &R, alloc: Global, bytes: &[u8]) -> anyhow::Result<()>
    requires some { 0 < length bytes.now }
    requires most { length bytes.now ≤ chunk_limit }
{
    givers(rt, alloc, bytes)?;
    takers(rt, alloc, bytes)?;
    folds(rt, alloc, bytes)
}
