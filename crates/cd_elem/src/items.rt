// A list kept in a `Vec`, which contracts see as the list of its members.
ghost use Rattle.std.specs.Prelude.{◌≡◌, ◌<◌, ◌↔◌, [], ◌∷◌, ◌++◌, length, slice_get, IsTrue, IsSome, IfOk, IfErr, MatchOption, OnOk, OnErr};
ghost use Rattle.std.specs.Option.{option_copied};

use crate::no_memory::NoMemory;
use std::alloc::Global;
use std::marker::Model;

/// A `Vec` that contracts see as the list of its members: two lists with the same members are equal, whatever room
/// they have. It keeps the allocator that it was made with.
#[derive(Drop)]
pub struct Items<T> {
    items: Vec<T>,
}

impl<T> Model for Items<T> {
    ghost use Rattle.std.specs.Prelude.{List};
    ghost use Rattle.std.specs.Coded.{coded_list};

    ghost Value = { List T };

    ghost coded = { coded_list T.code };

    ghost view = { λ it. it.items.items };
}

impl<T> Items<T> {
    ghost use Rattle.std.specs.Borrow.{sem};
    ghost use Rattle.std.specs.Option.{option_copied_mut};
    ghost use Rattle.cd_elem.specs.Lending.{LendsMember};

    /// An empty list. It takes no memory.
    pub fn new(alloc: Global) -> Items<T>
        ensures { result ≡ [] }
    {
        Items {
            items: Vec::new(alloc),
        }
    }

    /// Adds a member at the end. It is refused for want of memory alone: the item is handed back, and the list stays
    /// as it was.
    pub fn push(&mut self, item: T) -> Result<(), T>
        ensures ok { OnOk result (self.new ≡ self.old ++ item ∷ []) }
        ensures err { OnErr result (self.new ≡ self.old) }
        ensures given_back { IfErr result (λ back. back ≡ item) }
    {
        match self.items.push(item) {
            Ok(()) => Ok(()),
            Err(refused) => Err(refused.value),
        }
    }

    /// Takes the last member off.
    pub fn pop(&mut self) -> Option<T>
        ensures { MatchOption result ((self.old ≡ []) × (self.new ≡ [])) (λ last. self.old ≡ self.new ++ last ∷ []) }
    {
        self.items.pop()
    }

    pub fn len(&self) -> usize
        ensures { result ≡ length self.now }
    {
        self.items.len()
    }

    pub fn is_empty(&self) -> bool
        ensures { IsTrue result ↔ (self.now ≡ []) }
    {
        self.items.is_empty()
    }

    pub fn get(&self, place: usize) -> Option<&T>
        ensures value { option_copied result ≡ slice_get self.now place }
        ensures within { IsSome result ↔ (place < length self.now) }
    {
        self.items.get(place)
    }

    pub fn get_mut(&mut self, place: usize) -> Option<&mut T>
        ensures* writes_back { sem 𝓛 (LendsMember T.row self.entry place result) }
        ensures value { option_copied_mut result ≡ slice_get self.old place }
        ensures within { IsSome result ↔ (place < length self.old) }
    {
        self.items.get_mut(place)
    }

    pub fn as_slice(&self) -> &[T]
        ensures { result.now ≡ self.now }
    {
        self.items.as_slice()
    }

    /// The members of a `Vec` as a list. It takes no memory.
    pub fn from_vec(items: Vec<T>) -> Items<T>
        ensures { result ≡ items.items }
    {
        Items { items }
    }

    /// The members as a `Vec`. It takes no memory.
    pub fn into_vec(self) -> Vec<T>
        ensures { result.items ≡ self }
    {
        let Items { items } = self;
        items
    }
}

impl<T: Copy> Items<T> {
    /// A copy of these members.
    pub fn from_slice(alloc: Global, members: &[T]) -> Result<Items<T>, NoMemory>
        ensures { IfOk result (λ it. it ≡ members.now) }
    {
        let items = Vec::from_slice(alloc, members)?;
        Ok(Items { items })
    }

    /// Adds all of these at the end, or none of them for want of memory.
    pub fn extend_from_slice(&mut self, more: &[T]) -> Result<(), NoMemory>
        ensures ok { OnOk result (self.new ≡ self.old ++ more.now) }
        ensures err { OnErr result (self.new ≡ self.old) }
    {
        self.items.extend_from_slice(more)?;
        Ok(())
    }
}
