// The seals and keys of the statements so far.
ghost use Rattle.std.specs.Prelude.{◌≡◌, ◌<◌, ◌^◌, ℕ, List, [], ◌∷◌, ◌++◌, length, true, false, not, ◌||◌, OnOk, OnErr};
ghost use Rattle.cd_types.specs.Numbering.{held_in, name_number, sealed_in};
ghost use Rattle.cd_types.specs.Parts.{Part};
ghost use Rattle.cd_types.specs.Statements.{Statement, Run, Let, Feed, CloseSeal, Hold, Release, is_seal, is_closed, seal_flow, is_key, is_released};
ghost use Rattle.cd_typed.specs.Knowing.{KnowsNames};

use crate::numbers::counted;
use cd_elem::{Kind, NoMemory};
use indexmap::IndexMap;
use std::alloc::Global;

/// A seal: what its source gives, and whether it was not closed.
#[derive(Clone, Copy)]
pub struct Seal {
    pub flow: Option<Kind>,
    pub is_open: bool,
}

/// A key, and whether it was not released.
#[derive(Clone, Copy)]
pub struct Key {
    pub is_held: bool,
}

/// The seals and keys of the statements so far, each in the order of their definitions.
#[derive(Drop)]
pub struct Names {
    seals: IndexMap<String, Seal>,
    keys: IndexMap<String, Key>,
}

impl Names {
    /// No name, as before the first statement. It takes no memory.
    pub fn new(alloc: Global) -> Names
        ensures { KnowsNames [] result }
    {
        Names {
            seals: IndexMap::new(alloc),
            keys: IndexMap::new(alloc),
        }
    }

    /// A seal of this name was defined.
    pub fn is_seal(&self, name: &str) -> bool
        ensures { (before : List Statement) → KnowsNames before self.now → result ≡ is_seal before name.now }
    {
        self.seals.contains_key(name)
    }

    /// This name is no seal that can be used: it is unknown, or it was closed.
    pub fn seal_fails(&self, name: &str) -> bool
        ensures { (before : List Statement) → KnowsNames before self.now → result ≡ (not (is_seal before name.now) || is_closed before name.now) }
    {
        match self.seals.get(name) {
            Some(seal) => !seal.is_open,
            None => true,
        }
    }

    /// What the seal of this name gives.
    pub fn seal_flow(&self, name: &str) -> Option<Kind>
        ensures { (before : List Statement) → KnowsNames before self.now → result ≡ seal_flow before name.now }
    {
        match self.seals.get(name) {
            Some(seal) => seal.flow,
            None => None,
        }
    }

    /// A key of this name was defined.
    pub fn is_key(&self, name: &str) -> bool
        ensures { (before : List Statement) → KnowsNames before self.now → result ≡ is_key before name.now }
    {
        self.keys.contains_key(name)
    }

    /// This name is no key that is held: it is unknown, or it was released.
    pub fn key_fails(&self, name: &str) -> bool
        ensures { (before : List Statement) → KnowsNames before self.now → result ≡ (not (is_key before name.now) || is_released before name.now) }
    {
        match self.keys.get(name) {
            Some(key) => !key.is_held,
            None => true,
        }
    }

    /// How many seals were defined.
    pub fn seal_count(&self) -> u32
        ensures { (before : List Statement) → KnowsNames before self.now → length (sealed_in before) < 2 ^ 32 → result ≡ length (sealed_in before) }
    {
        counted(self.seals.len())
    }

    /// How many keys were defined.
    pub fn key_count(&self) -> u32
        ensures { (before : List Statement) → KnowsNames before self.now → length (held_in before) < 2 ^ 32 → result ≡ length (held_in before) }
    {
        counted(self.keys.len())
    }

    /// The number of the seal of this name, from 0, in the order of their definitions.
    pub fn seal_number(&self, name: &str) -> Option<u32>
        ensures { (before : List Statement) → KnowsNames before self.now → length (sealed_in before) < 2 ^ 32 → result ≡ name_number (sealed_in before) name.now }
    {
        match self.seals.get_index_of(name) {
            Some(place) => Some(counted(place)),
            None => None,
        }
    }

    /// The number of the key of this name, from 0, in the order of their definitions.
    pub fn key_number(&self, name: &str) -> Option<u32>
        ensures { (before : List Statement) → KnowsNames before self.now → length (held_in before) < 2 ^ 32 → result ≡ name_number (held_in before) name.now }
    {
        match self.keys.get_index_of(name) {
            Some(place) => Some(counted(place)),
            None => None,
        }
    }

    /// A `let` of this name, whose pipe gives this flow. The name is no seal yet.
    pub fn seal(&mut self, alloc: Global, name: &str, flow: Option<Kind>) -> Result<(), NoMemory>
        ensures known { OnOk result ((before : List Statement) (a : Part) → KnowsNames before self.old → is_seal before name.now ≡ false → flow ≡ (a.type None).to → KnowsNames (before ++ Let name.now a ∷ []) self.new) }
        ensures err { OnErr result ((before : List Statement) → KnowsNames before self.old → KnowsNames before self.new) }
    {
        let key = String::from_str(alloc, name)?;
        self.seals.insert(
            key,
            Seal {
                flow,
                is_open: true,
            },
        )?;
        Ok(())
    }

    /// A `close` of this name.
    pub fn close(&mut self, name: &str)
        ensures { (before : List Statement) (a : Part) → KnowsNames before self.old → is_seal before name.now ≡ true → KnowsNames (before ++ CloseSeal name.now a ∷ []) self.new }
    {
        if let Some(place) = self.seals.get_index_of(name) {
            self.seals[place].is_open = false;
        }
    }

    /// A `hold` of this key. The name is no key yet.
    pub fn hold(&mut self, alloc: Global, name: &str) -> Result<(), NoMemory>
        ensures known { OnOk result ((before : List Statement) (file : List ℕ) → KnowsNames before self.old → is_key before name.now ≡ false → KnowsNames (before ++ Hold name.now file ∷ []) self.new) }
        ensures err { OnErr result ((before : List Statement) → KnowsNames before self.old → KnowsNames before self.new) }
    {
        let key = String::from_str(alloc, name)?;
        self.keys.insert(key, Key { is_held: true })?;
        Ok(())
    }

    /// A `release` of this key.
    pub fn release(&mut self, name: &str)
        ensures { (before : List Statement) → KnowsNames before self.old → is_key before name.now ≡ true → KnowsNames (before ++ Release name.now ∷ []) self.new }
    {
        if let Some(place) = self.keys.get_index_of(name) {
            self.keys[place].is_held = false;
        }
    }
}

/// What `run` and `feed` do to names: nothing.
pub fn names_stay()
    ensures run { (before : List Statement) (names : Names) (a : Part) → KnowsNames before names → KnowsNames (before ++ Run a ∷ []) names }
    ensures feed { (before : List Statement) (names : Names) (name : List ℕ) (a : Part) → KnowsNames before names → KnowsNames (before ++ Feed name a ∷ []) names }
{}
