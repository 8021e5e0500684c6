// The pieces that a word keeps as results.
ghost use Rattle.std.specs.Prelude.{◌≡◌, ◌+◌, ◌-◌, ◌<◌, ◌^◌, ◌++◌, ◌∷◌, [], OnOk, OnErr, false};
ghost use Rattle.cd_elem.specs.Chunks.{is_cut};
ghost use Rattle.cd_elem.specs.declared.value.Value.TheVariants as results;
ghost use Rattle.cd_pieces.specs.Values.{listed, result_at};
ghost use Rattle.cd_step.specs.Parts.{weight};

use crate::piece::value_of;
use cd_elem::{Chunk, Items, NoMemory, Value, ValueList};
use cd_step::weight_of;
use std::alloc::Global;
use std::marker::Model;
use std::mem;

/// The first pieces as results. Contracts see how many more are wanted, and the list of those that came.
#[derive(Drop)]
pub struct Collected {
    left: u64,
    // what the pieces count together
    weight: u64,
    list: ValueList,
}

impl Model for Collected {
    ghost use Rattle.std.specs.Prelude.{◌≡◌, ℕ, List};
    ghost use Rattle.std.specs.Coded.{codes};
    ghost use Rattle.cd_elem.specs.contracts.value.Value as value;
    ghost use Rattle.cd_elem.specs.declared.value.Value.{Value as Result};
    ghost use Rattle.cd_pieces.specs.Values.{listed};

    ghost Value = { ℕ × List Result };

    ghost coded = { Prim.hlevel (codes, value.the_row.coded) };

    ghost view = { λ it. (it.left, it.list) };

    ghost invariant = { λ it. it.weight ≡ listed it.list };
}

impl Collected {
    pub fn new(alloc: Global, count: u64) -> Collected
        ensures { result ≡ (count, []) }
    {
        Collected {
            left: count,
            weight: 0,
            list: Items::new(alloc),
        }
    }

    /// How many more are wanted.
    pub fn left(&self) -> u64
        ensures { result ≡ self.now.0 }
    {
        self.left
    }

    /// What the pieces count together.
    pub fn weight(&self) -> u64
        ensures { result ≡ listed self.now.1 }
    {
        self.weight
    }

    /// Adds one that was wanted.
    pub fn push(&mut self, piece: Chunk) -> Result<(), NoMemory>
        requires pieces { is_cut piece.0 ≡ false }
        requires some { 0 < self.old.0 }
        requires within { listed self.old.1 + weight piece < 2 ^ 64 }
        ensures ok { OnOk result (self.new ≡ (self.old.0 - 1, self.old.1 ++ result_at piece.0 piece.1 ∷ [])) }
        ensures err { OnErr result (self.new ≡ self.old) }
    {
        let weight = weight_of(&piece);
        match self.list.push(value_of(piece)) {
            Ok(()) => {
                self.weight += weight;
                self.left -= 1;
                Ok(())
            }
            Err(value) => {
                drop(value);
                Err(NoMemory)
            }
        }
    }

    /// The list as a result. It takes no memory, and leaves an empty list.
    pub fn take(&mut self, alloc: Global) -> Value
        ensures value { result ≡ results.ListV self.old.1 }
        ensures after { self.new ≡ (self.old.0, []) }
    {
        self.weight = 0;
        Value::ListV(mem::replace(&mut self.list, Items::new(alloc)))
    }
}
