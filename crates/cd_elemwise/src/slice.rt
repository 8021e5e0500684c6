// What is done with many elements at a time, in one pass.
ghost use Rattle.std.specs.Prelude.{◌≡◌, ◌+◌, ◌*◌, ◌<◌, ◌≤◌, ℕ, IfOk, ◌++◌, length, map, filter, take, drop, replicate, sum};
ghost use Rattle.std.specs.List.{prefix_len, flat_map};
ghost use Rattle.cd_elem.specs.Limits.{chunk_limit};
ghost use Rattle.cd_meaning.specs.Classes.{is_in_class, element_mapped};
ghost use Rattle.cd_meaning.specs.RunShapes.{as_count};

use crate::class_table::ClassTable;
use crate::element::Element;
use cd_elem::{ByteMap, Items, NoMemory};
use std::alloc::Global;

/// How many elements stand before the first that is not in the class.
pub fn front<T: Element>(table: &ClassTable, items: &[T]) -> usize
    ensures value { result ≡ prefix_len (λ x. is_in_class table.now (T.number x)) items.now }
    ensures within { result ≤ length items.now }
{
    for (place, item) in items.iter().enumerate() {
        if !table.has(item.number()) {
            return place;
        }
    }
    items.len()
}

/// Those in the class, in the memory of the list.
pub fn passing<T: Element>(table: &ClassTable, list: Items<T>) -> Items<T>
    ensures { result ≡ filter (λ x. is_in_class table.now (T.number x)) list }
{
    let mut list = list.into_vec();
    list.retain(|item| table.has(item.number()));
    Items::from_vec(list)
}

/// What the map makes of each, in the memory of the list.
pub fn mapped<T: Element>(by: ByteMap, list: Items<T>) -> Items<T>
    requires { T.has by }
    ensures { map T.number result ≡ map (λ x. element_mapped by (T.number x)) list }
{
    let mut list = list.into_vec();
    for item in list.iter_mut() {
        *item = item.mapped(by);
    }
    Items::from_vec(list)
}

/// Writes each twice, one pair behind the other.
fn write_pairs<T: Element>(places: &mut [T], items: &[T])
    requires { length places.old ≡ length items.now * 2 }
    ensures { places.new ≡ flat_map (λ x. replicate 2 x) items.now }
{
    for (index, item) in items.iter().enumerate() {
        places[index * 2] = *item;
        places[index * 2 + 1] = *item;
    }
}

/// Writes an element so many times, from a place on.
fn write_run<T: Element>(places: &mut [T], start: usize, times: usize, item: T)
    requires { start + times ≤ length places.old }
    ensures { places.new ≡ take start places.old ++ replicate times item ++ drop (start + times) places.old }
{
    for index in 0..times {
        places[start + index] = item;
    }
}

/// Writes each so many times, one run behind the other.
fn write_runs<T: Element>(places: &mut [T], times: usize, items: &[T])
    requires { length places.old ≡ length items.now * times }
    ensures { places.new ≡ flat_map (λ x. replicate times x) items.now }
{
    for (index, item) in items.iter().enumerate() {
        write_run(places, index * times, times, *item);
    }
}

/// Each so many times, at most `CHUNK_LIMIT` in all.
pub fn repeated<T: Element>(alloc: Global, times: usize, items: &[T]) -> Result<Items<T>, NoMemory>
    requires { length items.now * times ≤ chunk_limit }
    ensures { IfOk result (λ list. list ≡ flat_map (λ x. replicate times x) items.now) }
{
    if times == 1 {
        return Items::from_slice(alloc, items);
    }
    let mut list = Vec::with_capacity(alloc, items.len() * times)?;
    if let Some(first) = items.first() {
        list.resize(items.len() * times, *first)?;
        if times == 2 {
            write_pairs(list.as_mut_slice(), items);
        } else {
            write_runs(list.as_mut_slice(), times, items);
        }
    }
    Ok(Items::from_vec(list))
}

/// The sum of the bytes of a chunk and of what was before, which stays at the greatest count.
pub fn sum_behind(before: u64, bytes: &[u8]) -> u64
    requires { length bytes.now ≤ chunk_limit }
    ensures { result ≡ as_count (before + sum bytes.now) }
{
    let mut total = 0;
    for byte in bytes {
        total += u64::from(*byte);
    }
    before.saturating_add(total)
}
