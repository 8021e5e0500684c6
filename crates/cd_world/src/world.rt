// What a run asks of the outside.
ghost use Rattle.std.specs.Prelude.{◌≡◌, ◌<◌, ◌≤◌, ◌++◌, ◌⊎◌, ℕ, Bool, List, All, Contains, IfOk, IsTrue, length};
ghost use Rattle.cd_world.specs.declared.event.Event.{Event};
ghost use Rattle.cd_world.specs.declared.event.Use.TheVariants.{Reading, Writing, Marking};
ghost use Rattle.cd_world.specs.declared.event.Use.{Use};
ghost use Rattle.cd_world.specs.Causes.{IsCloseCounted, IsCounted};
ghost use Rattle.cd_world.specs.Live.{Open, Opens, IsLive, Removes, open_as};
ghost use Rattle.cd_world.specs.Files.{Files, after_open, ReadsFile, ReadsInput, WritesFile, WritesOutput, WritesErrors, ClosesFile};
ghost use Rattle.cd_world.specs.Events.{opened, gave, wrote, closed};

use crate::event::Descriptor;
use cd_elem::NoMemory;
use thiserror::Error;

/// Why the outside refused a call.
#[derive(Clone, Copy, Debug, PartialEq, Eq, Error)]
pub enum WorldError {
    /// The call failed; the count of faults rose.
    #[error("a call on the outside failed")]
    Failed,
    /// There was no memory for the call; nothing was done, and no event tells of it.
    #[error("out of memory")]
    NoMemory,
}

impl From<NoMemory> for WorldError {
    ghost use Rattle.cd_world.specs.declared.world.WorldError.TheVariants.{NoMemory};

    ghost from_gives = { λ _ e. e ≡ NoMemory };

    fn from(_: NoMemory) -> WorldError {
        WorldError::NoMemory
    }
}

/// A close that failed. The file is closed all the same.
#[derive(Clone, Copy, Debug, PartialEq, Eq, Error)]
#[error("a close failed")]
pub struct CloseFailed;

/// The outside: files by name, and the three standard streams.
pub trait World {
    /// how often a call has failed, a count that stands still at 2^64 - 1
    ghost faults: { Self → ℕ };

    /// what is open, in the order of opening
    ghost live: { Self → List Open };

    /// the greatest descriptor that was given, and 2 where none was
    ghost last: { Self → ℕ };

    /// whether it tells what its files hold
    ghost tells_files: { Bool };

    /// whether it tells what was called
    ghost tells_log: { Bool };

    /// what the files and streams hold, where told
    ghost files: { Self → Files };

    /// each call so far, where told
    ghost log: { Self → List Event };

    /// Opens a file for reading at its beginning.
    fn open_read(&mut self, name: &str) -> Result<Descriptor, WorldError>
        ensures count { IsCounted (faults self.old) (faults self.new) result }
        ensures live { Opens Reading name.now (live self.old) (live self.new) (last self.old) (last self.new) result }
        ensures log { IsTrue tells_log → log self.new ≡ log self.old ++ opened Reading name.now result }
        ensures files { IsTrue tells_files → files self.new ≡ after_open Reading name.now result (files self.old) };

    /// Makes a file or empties it, for writing.
    fn create(&mut self, name: &str) -> Result<Descriptor, WorldError>
        ensures count { IsCounted (faults self.old) (faults self.new) result }
        ensures live { Opens Writing name.now (live self.old) (live self.new) (last self.old) (last self.new) result }
        ensures log { IsTrue tells_log → log self.new ≡ log self.old ++ opened Writing name.now result }
        ensures files { IsTrue tells_files → files self.new ≡ after_open Writing name.now result (files self.old) };

    /// Makes or empties a file that its close removes.
    fn mark(&mut self, name: &str) -> Result<Descriptor, WorldError>
        ensures count { IsCounted (faults self.old) (faults self.new) result }
        ensures live { Opens Marking name.now (live self.old) (live self.new) (last self.old) (last self.new) result }
        ensures log { IsTrue tells_log → log self.new ≡ log self.old ++ opened Marking name.now result }
        ensures files { IsTrue tells_files → files self.new ≡ after_open Marking name.now result (files self.old) };

    /// Puts bytes at the front of `into` and says how many: 0 only at the end. `from` is standard input or is open for
    /// reading, and `into` is not empty.
    fn read(&mut self, from: Descriptor, into: &mut [u8]) -> Result<usize, WorldError>
        requires readable { (from.0 ≡ 0) ⊎ IsLive Reading from (live self.old) }
        requires room { 0 < length into.old }
        ensures within { IfOk result (λ count. count ≤ length into.new) }
        ensures count { IsCounted (faults self.old) (faults self.new) result }
        ensures live { live self.new ≡ live self.old }
        ensures last { last self.new ≡ last self.old }
        ensures log { IsTrue tells_log → log self.new ≡ log self.old ++ gave from into.new result }
        ensures file { IsTrue tells_files → (name : List ℕ) → Contains (live self.old) (open_as Reading from name)
            → ReadsFile from.0 name into.new result (files self.old) (files self.new) }
        ensures input { IsTrue tells_files → from.0 ≡ 0 → ReadsInput into.new result (files self.old) (files self.new) };

    /// Writes a front of `bytes` and says how many, at least 1. `to` is standard output or error or is open for
    /// writing, and `bytes` is not empty.
    fn write(&mut self, to: Descriptor, bytes: &[u8]) -> Result<usize, WorldError>
        requires writable { (to.0 ≡ 1) ⊎ (to.0 ≡ 2) ⊎ IsLive Writing to (live self.old) }
        requires some { 0 < length bytes.now }
        ensures within { IfOk result (λ count. (0 < count) × (count ≤ length bytes.now)) }
        ensures count { IsCounted (faults self.old) (faults self.new) result }
        ensures live { live self.new ≡ live self.old }
        ensures last { last self.new ≡ last self.old }
        ensures log { IsTrue tells_log → log self.new ≡ log self.old ++ wrote to bytes.now result }
        ensures file { IsTrue tells_files → (name : List ℕ) → Contains (live self.old) (open_as Writing to name)
            → WritesFile name bytes.now result (files self.old) (files self.new) }
        ensures output { IsTrue tells_files → to.0 ≡ 1 → WritesOutput bytes.now result (files self.old) (files self.new) }
        ensures errors { IsTrue tells_files → to.0 ≡ 2 → WritesErrors bytes.now result (files self.old) (files self.new) };

    /// Closes an open file, whatever it answers. It takes no memory.
    fn close(&mut self, which: Descriptor) -> Result<(), CloseFailed>
        requires open { (use_of : Use) × IsLive use_of which (live self.old) }
        ensures count { IsCloseCounted (faults self.old) (faults self.new) result }
        ensures live { Removes which (live self.old) (live self.new) }
        ensures last { last self.new ≡ last self.old }
        ensures log { IsTrue tells_log → log self.new ≡ log self.old ++ closed which result }
        ensures files { IsTrue tells_files → (o : Open) → Contains (live self.old) o → o.descriptor ≡ which
            → ClosesFile o result (files self.old) (files self.new) };

    /// each descriptor that is open was given
    ghost known: { (w : Self) → All (λ o. o.descriptor.0 ≤ last w) (live w) };
}
