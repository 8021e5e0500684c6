// The list of a word that keeps its first elements.
ghost use Rattle.std.specs.Prelude.{◌≡◌, ◌+◌, ◌≤◌, ◌++◌, [], IfOk, OnOk, OnErr, IsTrue, length, take};
ghost use Rattle.cd_elem.specs.Chunks.{is_cut};
ghost use Rattle.cd_meaning.specs.Values.{value_meaning};
ghost use Rattle.cd_elemwise.specs.Carried.{Doing, gathered, list_sort, list_value};
ghost use Rattle.cd_elemwise.specs.Plans.{IsPlan};
ghost use Rattle.cd_elemwise.specs.declared.state.WordState.TheVariants as state;

use crate::chunks::{ElementSlice, elements_of};
use crate::plan::ChunkPlan;
use crate::state::Gathered;
use cd_elem::{Chunk, Items, NoMemory, Value};
use std::alloc::Global;
use std::mem;

/// Adds the first `count` elements.
fn gather(list: &mut Gathered, chunk: &Chunk, count: usize) -> Result<(), NoMemory>
    requires cut { IsTrue (is_cut chunk.now.0) }
    requires sort { list_sort list.old ≡ chunk.now.0 }
    requires within { count ≤ length chunk.now.1 }
    ensures ok { OnOk result (gathered list.new ≡ gathered list.old ++ take count chunk.now.1) }
    ensures err { OnErr result (list.new ≡ list.old) }
    ensures sort { list_sort list.new ≡ list_sort list.old }
{
    match (list, elements_of(chunk)) {
        (Gathered::Bytes(all), ElementSlice::Bytes(bytes)) => all.extend_from_slice(
            &bytes[..count],
        ),
        (Gathered::Chars(all), ElementSlice::Chars(chars)) => all.extend_from_slice(
            &chars[..count],
        ),
        (_, _) => unreachable!(),
    }
}

/// The list as a result. It takes no memory, and leaves an empty list.
pub fn collected(alloc: Global, list: &mut Gathered) -> Value
    ensures value { value_meaning result ≡ list_value (list_sort list.old) (gathered list.old) }
    ensures after { gathered list.new ≡ [] }
    ensures sort { list_sort list.new ≡ list_sort list.old }
{
    match list {
        Gathered::Bytes(all) => Value::BytesV(mem::replace(all, Items::new(alloc))),
        Gathered::Chars(all) => Value::TextV(mem::replace(all, Items::new(alloc))),
    }
}

/// What a word does that keeps as many elements as are left of its number, and how many are left then.
#[inline(never)]
pub fn collect(
    alloc: Global,
    list: &mut Gathered,
    left: u64,
    chunk: &Chunk,
) -> Result<(u64, ChunkPlan), NoMemory>
    requires cut { IsTrue (is_cut chunk.now.0) }
    requires sort { list_sort list.old ≡ chunk.now.0 }
    ensures law { IfOk result (λ made. IsPlan chunk.now.0 (Doing (state.Collect left) (gathered list.old)) chunk.now.1 made.1 (Doing (state.Collect made.0) (gathered list.new))) }
    ensures grown { length (gathered list.new) ≤ length (gathered list.old) + length chunk.now.1 }
    ensures within { IfOk result (λ made. made.0 + length (gathered list.new) ≤ left + length (gathered list.old)) }
    ensures err { OnErr result (list.new ≡ list.old) }
    ensures sort { list_sort list.new ≡ list_sort list.old }
{
    let len = chunk.len();
    if (len as u64) < left {
        gather(list, chunk, len)?;
        return Ok((left - len as u64, ChunkPlan::Need));
    }
    gather(list, chunk, left as usize)?;
    Ok((0, ChunkPlan::End(collected(alloc, list), left as usize)))
}
