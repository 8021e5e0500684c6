// A list with room that was taken beforehand.
ghost use Rattle.std.specs.Prelude.{◌≡◌, ◌<◌, ◌≤◌, ◌+◌, ◌↔◌, [], ◌∷◌, ◌++◌, length, slice_get, IsTrue, IsSome, IfErr, IsOk, MatchOption, OnOk, OnErr};
ghost use Rattle.std.specs.Option.{option_copied};

use crate::no_memory::NoMemory;
use std::alloc::Global;
use std::marker::Model;

/// A `Vec` that contracts see as the list of its members beside a number, its spare: so many pushes take no memory
/// and are never refused.
#[derive(Drop)]
pub struct Roomy<T> {
    items: Vec<T>,
}

impl<T> Model for Roomy<T> {
    ghost use Rattle.std.specs.Prelude.{List, ℕ, ◌-◌, vec_capacity, vec_len};
    ghost use Rattle.std.specs.Coded.{coded_list, coded×, coded_ℕ};

    ghost Value = { List T × ℕ };

    ghost coded = { coded× (coded_list T.code) coded_ℕ };

    ghost view = { λ it. (it.items.items, vec_capacity it.items - vec_len it.items) };
}

impl<T> Roomy<T> {
    ghost use Rattle.std.specs.Borrow.{sem};
    ghost use Rattle.std.specs.Option.{option_copied_mut};
    ghost use Rattle.cd_elem.specs.Lending.{LendsRoomyMember};

    /// An empty list. It takes no memory.
    pub fn new(alloc: Global) -> Roomy<T>
        ensures { result.0 ≡ [] }
    {
        Roomy {
            items: Vec::new(alloc),
        }
    }

    /// Makes the spare at least `count`.
    pub fn reserve(&mut self, count: usize) -> Result<(), NoMemory>
        ensures same { self.new.0 ≡ self.old.0 }
        ensures room { OnOk result (count ≤ self.new.1) }
        ensures no_less { self.old.1 ≤ self.new.1 }
    {
        self.items.reserve(count)?;
        Ok(())
    }

    /// Adds a member at the end. With a spare it takes no memory and is not refused. Else it is refused for want of
    /// memory alone: the item is handed back, and the list stays as it was.
    pub fn push(&mut self, item: T) -> Result<(), T>
        ensures ok { OnOk result (self.new.0 ≡ self.old.0 ++ item ∷ []) }
        ensures err { OnErr result (self.new.0 ≡ self.old.0) }
        ensures given_back { IfErr result (λ back. back ≡ item) }
        ensures room { 0 < self.old.1 → IsOk result }
        ensures spare { self.old.1 ≤ self.new.1 + 1 }
    {
        match self.items.push(item) {
            Ok(()) => Ok(()),
            Err(refused) => Err(refused.value),
        }
    }

    /// Takes the last member off.
    pub fn pop(&mut self) -> Option<T>
        ensures list { MatchOption result ((self.old.0 ≡ []) × (self.new.0 ≡ [])) (λ last. self.old.0 ≡ self.new.0 ++ last ∷ []) }
        ensures spare { self.old.1 ≤ self.new.1 }
    {
        self.items.pop()
    }

    pub fn len(&self) -> usize
        ensures { result ≡ length self.now.0 }
    {
        self.items.len()
    }

    pub fn is_empty(&self) -> bool
        ensures { IsTrue result ↔ (self.now.0 ≡ []) }
    {
        self.items.is_empty()
    }

    pub fn get(&self, place: usize) -> Option<&T>
        ensures value { option_copied result ≡ slice_get self.now.0 place }
        ensures within { IsSome result ↔ (place < length self.now.0) }
    {
        self.items.get(place)
    }

    pub fn get_mut(&mut self, place: usize) -> Option<&mut T>
        ensures* writes_back { sem 𝓛 (LendsRoomyMember T.row self.entry place result) }
        ensures value { option_copied_mut result ≡ slice_get self.old.0 place }
        ensures within { IsSome result ↔ (place < length self.old.0) }
    {
        self.items.get_mut(place)
    }

    pub fn as_slice(&self) -> &[T]
        ensures { result.now ≡ self.now.0 }
    {
        self.items.as_slice()
    }
}
