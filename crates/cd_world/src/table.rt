// The table of open files of an outside.
ghost use Rattle.std.specs.Prelude.{◌≡◌, ◌≢◌, ◌<◌, ◌≤◌, ◌++◌, ◌+◌, ◌↔◌, ◌∷◌, [], remove, All, IfSome, IfNone, IsTrue, false, OnOk, vec_len, vec_capacity, slice_index_or};
ghost use Rattle.cd_world.specs.declared.event.Use.{Use};
ghost use Rattle.cd_world.specs.Live.{IsLive, Removes, open_as, rises};
ghost use Rattle.cd_world.specs.Table.{live_of};

use crate::event::{Descriptor, Use};
use cd_elem::{Literal, NoMemory};
use std::alloc::Global;

/// An open file.
#[derive(Drop)]
pub struct OpenFile {
    pub use_of: Use,
    pub descriptor: Descriptor,
    pub name: Literal,
}

/// The open files in the order of opening, and the greatest descriptor that was given.
#[derive(Drop)]
pub struct OpenTable {
    pub files: Vec<OpenFile>,
    pub last: u64,
    pub ghost rising: { IsTrue (rises 2 (live_of files.items) last) },
}

impl OpenTable {
    /// A table with nothing open. It takes no memory.
    pub fn new(alloc: Global) -> OpenTable
        ensures live { result.files.items ≡ [] }
        ensures last { result.last ≡ 2 }
    {
        OpenTable {
            files: Vec::new(alloc),
            last: 2,
        }
    }

    /// The place of a descriptor.
    pub fn find(&self, which: Descriptor) -> Option<usize>
        ensures found { IfSome result (λ place. (place < vec_len self.now.files) × ((d : _) → (slice_index_or self.now.files.items place d).descriptor ≡ which)) }
        ensures none { IfNone result (All (λ o. o.descriptor ≢ which) self.now.files.items) }
    {
        self.files.iter().position(|open| open.descriptor == which)
    }

    /// The place of a descriptor that is open.
    pub fn place_of(&self, which: Descriptor) -> usize
        requires { (use_of : Use) × IsLive use_of which (live_of self.now.files.items) }
        ensures within { result < vec_len self.now.files }
        ensures found { (d : _) → (slice_index_or self.now.files.items result d).descriptor ≡ which }
    {
        match self.find(which) {
            Some(place) => place,
            None => unreachable!(),
        }
    }

    /// Whether no descriptor is left to give.
    pub fn is_spent(&self) -> bool
        ensures spent { IsTrue result → self.now.last ≡ 18446744073709551615 }
        ensures left { result ≡ false → self.now.last < 18446744073709551615 }
    {
        self.last == u64::MAX
    }

    /// Makes room for one more.
    pub fn reserve(&mut self) -> Result<(), NoMemory>
        ensures files { self.new.files.items ≡ self.old.files.items }
        ensures last { self.new.last ≡ self.old.last }
        ensures len { vec_len self.new.files ≡ vec_len self.old.files }
        ensures room { OnOk result (vec_len self.new.files < vec_capacity self.new.files) }
    {
        self.files.reserve(1)?;
        Ok(())
    }

    /// Adds a file under the next descriptor. It takes no memory.
    pub fn add(&mut self, use_of: Use, name: Literal) -> Descriptor
        requires next { self.old.last < 18446744073709551615 }
        requires room { vec_len self.old.files < vec_capacity self.old.files }
        ensures descriptor { result.0 ≡ self.old.last + 1 }
        ensures last { self.new.last ≡ self.old.last + 1 }
        ensures new { 2 < result.0 }
        ensures live { live_of self.new.files.items ≡ live_of self.old.files.items ++ open_as use_of result name ∷ [] }
        ensures len { vec_len self.new.files ≡ vec_len self.old.files + 1 }
        ensures files { self.new.files.items ≡ self.old.files.items ++ record { use_of = use_of; descriptor = result; name = name } ∷ [] }
    {
        let descriptor = Descriptor(self.last + 1);
        let entry = OpenFile {
            use_of,
            descriptor,
            name,
        };
        self.files.push_reserved(entry);
        self.last += 1;
        descriptor
    }

    /// Takes a file out, and says at which place it stood. It takes no memory.
    pub fn remove(&mut self, which: Descriptor) -> (usize, OpenFile)
        requires { (use_of : Use) × IsLive use_of which (live_of self.old.files.items) }
        ensures within { result.0 < vec_len self.old.files }
        ensures item { (d : _) → slice_index_or self.old.files.items result.0 d ≡ result.1 }
        ensures descriptor { result.1.descriptor ≡ which }
        ensures files { self.new.files.items ≡ remove self.old.files.items result.0 }
        ensures last { self.new.last ≡ self.old.last }
        ensures len { vec_len self.new.files + 1 ≡ vec_len self.old.files }
        ensures live { Removes which (live_of self.old.files.items) (live_of self.new.files.items) }
    {
        let place = self.place_of(which);
        let open = self.files.remove(place);
        (place, open)
    }
}
