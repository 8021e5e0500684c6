// A place for what a part gave back.
ghost use Rattle.std.specs.Prelude.{◌≡◌, None, Some};
ghost use Rattle.cd_step.specs.Parts.{weight, weight_any};

use cd_elem::{Chunk, Sort};
use std::marker::Model;

/// What a chunk counts: an element of a cut stream 1, a piece its length and 1 more.
pub fn weight_of(chunk: &Chunk) -> u64
    ensures { result ≡ weight chunk.now }
{
    let len = chunk.len() as u64;
    match chunk.sort() {
        Sort::Bytes | Sort::Chars => len,
        Sort::Block | Sort::Text => len + 1,
    }
}

/// A place for at most one chunk that was given back. Contracts see it as that chunk, or None.
#[derive(Drop)]
pub struct Back {
    chunk: Option<Chunk>,
}

impl Model for Back {
    ghost use Rattle.std.specs.Prelude.{Option};
    ghost use Rattle.cd_step.specs.Parts.{Chunk};

    ghost Value = { Option Chunk };

    ghost view = { λ back. back.chunk };
}

impl Back {
    pub fn empty() -> Back
        ensures { result ≡ None }
    {
        Back { chunk: None }
    }

    pub fn new(chunk: Option<Chunk>) -> Back
        ensures { result ≡ chunk }
    {
        Back { chunk }
    }

    pub fn push(&mut self, chunk: Chunk)
        requires { self.old ≡ None }
        ensures { self.new ≡ Some chunk }
    {
        self.chunk = Some(chunk);
    }

    pub fn take(&mut self) -> Option<Chunk>
        ensures value { result ≡ self.old }
        ensures after { self.new ≡ None }
    {
        self.chunk.take()
    }

    /// What it counts.
    pub fn held(&self) -> u64
        ensures { result ≡ weight_any self.now }
    {
        match &self.chunk {
            Some(chunk) => weight_of(chunk),
            None => 0,
        }
    }
}
