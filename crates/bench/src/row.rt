// Rows of the table: a name, the bytes a second, and what came of the work, so that none of it can be left out.
ghost use Rattle.std.specs.Prelude.{◌≡◌, ◌<◌, ◌≤◌, ◌*◌, ◌/◌, max, length};
ghost use Rattle.std.specs.Duration.{as_nanos};
ghost use Rattle.cd_elem.specs.Limits.{chunk_limit};
ghost use Rattle.cd_elem.specs.declared.kind.Sort.TheVariants as sort;
ghost use Rattle.cd_elemwise.specs.Carried.{HasType};

use crate::feed::{copied, fed, summed};
use cd_elem::ElemWord;
use std::alloc::Global;
use std::rt::Clock;
use std::time::{Duration, Instant};

/// How many times the chunk is read.
pub const ROUNDS: u32 = 10_000;

/// How many a second. What took no time is taken to take a nanosecond.
pub fn rate(count: u64, taken: Duration) -> u128
    ensures { result ≡ count * 1_000_000_000 / max (as_nanos taken) 1 }
{
    u128::from(count) * 1_000_000_000 / taken.as_nanos().max(1)
}

pub fn print_row<R: Print>(
    rt: &R,
    name: &str,
    len: usize,
    taken: Duration,
    answer: u64,
) -> anyhow::Result<()>
    requires { len ≤ chunk_limit }
{
    let bytes = len as u64 * u64::from(ROUNDS);
    println!(rt; "{name} {} {answer}", rate(bytes, taken))?;
    Ok(())
}

/// The row of a plain pass.
pub fn plain_pass<R: Print + Clock>(rt: &R, bytes: &[u8]) -> anyhow::Result<()>
    requires { length bytes.now ≤ chunk_limit }
{
    let start = Instant::now(rt)?;
    let sum = summed(bytes, ROUNDS);
    print_row(rt, "plain", bytes.len(), start.elapsed(rt)?, sum)
}

/// The row of making chunks alone, which stands in each word's time.
pub fn copying<R: Print + Clock>(rt: &R, alloc: Global, bytes: &[u8]) -> anyhow::Result<()>
    requires some { 0 < length bytes.now }
    requires most { length bytes.now ≤ chunk_limit }
{
    let start = Instant::now(rt)?;
    let count = copied(alloc, bytes, ROUNDS)?;
    print_row(rt, "chunk", bytes.len(), start.elapsed(rt)?, count)
}

/// The row of an element word.
pub fn element_word<R: Print + Clock>(
    rt: &R,
    alloc: Global,
    bytes: &[u8],
    name: &str,
    word: ElemWord,
) -> anyhow::Result<()>
    requires typed { HasType word sort.Bytes }
    requires some { 0 < length bytes.now }
    requires most { length bytes.now ≤ chunk_limit }
{
    let start = Instant::now(rt)?;
    let given = fed(alloc, word, bytes, ROUNDS)?;
    print_row(rt, name, bytes.len(), start.elapsed(rt)?, given)
}
