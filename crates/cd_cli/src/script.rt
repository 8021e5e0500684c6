// Reading the script file.
ghost use Rattle.std.specs.Prelude.{◌≡◌, ◌≤◌, ℕ, List, Contains, IsTrue, IfOk, length, take, vec_len};
ghost use Rattle.cd_world.specs.declared.event.Use.TheVariants.{Reading};
ghost use Rattle.cd_world.specs.Causes.{HasCause};
ghost use Rattle.cd_world.specs.Live.{IsLive, open_as};
ghost use Rattle.cd_cli.specs.Cause.{answer_of};
ghost use Rattle.cd_cli.specs.Judge.{read_limit};
ghost use Rattle.cd_cli.specs.Script.{Fills, LogsFill, ReadsFront, LogsRead};

use cd_elem::NoMemory;
use cd_script::TEXT_LIMIT;
use cd_world::{CloseFailed, Descriptor, World, WorldError};
use std::alloc::Global;

/// How many bytes of a script are read: one more than a script may have.
const READ_LIMIT: usize = TEXT_LIMIT + 1;

/// A buffer of this size.
fn buffer_of(alloc: Global, size: usize) -> Result<Vec<u8>, NoMemory>
    ensures { IfOk result (λ buffer. vec_len buffer ≡ size) }
{
    Ok(vec![in alloc; 0u8; size]?)
}

/// An answer after the file that it is about was closed: a close that failed is told whatever was answered before it.
fn with_closing<T: Drop>(
    answer: Result<T, WorldError>,
    closing: Result<(), CloseFailed>,
) -> Result<T, WorldError>
    ensures { result ≡ answer_of answer closing }
{
    match closing {
        Ok(()) => answer,
        Err(CloseFailed) => {
            drop(answer);
            Err(WorldError::Failed)
        }
    }
}

/// Fills the front of a buffer with what is left of a file, up to the size of the buffer, and says how many bytes
/// those are.
fn fill<W: World>(world: &mut W, from: Descriptor, buffer: &mut [u8]) -> Result<usize, WorldError>
    requires readable { IsLive Reading from (W.live world.old) }
    ensures within { IfOk result (λ filled. filled ≤ length buffer.old) }
    ensures cause { HasCause (W.faults world.old) (W.faults world.new) result }
    ensures live { W.live world.new ≡ W.live world.old }
    ensures files { IsTrue W.tells_files → (name : List ℕ) → Contains (W.live world.old) (open_as Reading from name)
        → Fills from.0 name buffer.new result (W.files world.old) (W.files world.new) }
    ensures log { IsTrue W.tells_log → LogsFill from buffer.new result (W.log world.old) (W.log world.new) }
{
    let mut filled = 0;
    while filled < buffer.len() {
        let count = world.read(from, &mut buffer[filled..])?;
        if count == 0 {
            break;
        }
        filled += count;
    }
    Ok(filled)
}

/// Opens a file, fills the front of a buffer with it, and closes it.
fn read_front<W: World>(world: &mut W, name: &str, buffer: &mut [u8]) -> Result<usize, WorldError>
    ensures within { IfOk result (λ filled. filled ≤ length buffer.old) }
    ensures cause { HasCause (W.faults world.old) (W.faults world.new) result }
    ensures live { W.live world.new ≡ W.live world.old }
    ensures files { IsTrue W.tells_files → ReadsFront name.now (length buffer.new) (λ filled. take filled buffer.new) result (W.files world.old) (W.files world.new) }
    ensures log { IsTrue W.tells_log → LogsRead name.now (length buffer.new) (λ filled. take filled buffer.new) result (W.log world.old) (W.log world.new) }
{
    let from = world.open_read(name)?;
    let answer = fill(world, from, buffer);
    let closing = world.close(from);
    with_closing(answer, closing)
}

/// Reads a file to its end, or to so many bytes, and closes it.
fn read_at_most<W: World>(
    alloc: Global,
    world: &mut W,
    name: &str,
    size: usize,
) -> Result<Vec<u8>, WorldError>
    ensures cause { HasCause (W.faults world.old) (W.faults world.new) result }
    ensures live { W.live world.new ≡ W.live world.old }
    ensures files { IsTrue W.tells_files → ReadsFront name.now size (λ text. text.items) result (W.files world.old) (W.files world.new) }
    ensures log { IsTrue W.tells_log → LogsRead name.now size (λ text. text.items) result (W.log world.old) (W.log world.new) }
{
    let mut text = buffer_of(alloc, size)?;
    let filled = read_front(world, name, &mut text)?;
    text.truncate(filled);
    Ok(text)
}

/// Reads a script file to its end, or to `READ_LIMIT` bytes, and closes it.
pub fn read_script<W: World>(
    alloc: Global,
    world: &mut W,
    name: &str,
) -> Result<Vec<u8>, WorldError>
    ensures cause { HasCause (W.faults world.old) (W.faults world.new) result }
    ensures live { W.live world.new ≡ W.live world.old }
    ensures files { IsTrue W.tells_files → ReadsFront name.now read_limit (λ text. text.items) result (W.files world.old) (W.files world.new) }
    ensures log { IsTrue W.tells_log → LogsRead name.now read_limit (λ text. text.items) result (W.log world.old) (W.log world.new) }
{
    read_at_most(alloc, world, name, READ_LIMIT)
}
