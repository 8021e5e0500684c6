// Bytes that come by and by.
ghost use Rattle.std.specs.Prelude.{IfOk};
ghost use Rattle.test_callers.specs.Given.{is_coming};

use crate::lines::{StepError, chunk_of};
use cd_elem::Chunk;
use std::alloc::Global;

/// The bytes of a text that are still to be read, or come to a word or a whole, so many at a time.
#[derive(Drop)]
pub struct Given<'a> {
    text: &'a str,
    size: usize,
    place: usize,
    ends: bool,
}

/// What comes next.
#[derive(Drop)]
pub enum Coming {
    Bytes(Chunk),
    End,
    Nothing,
}

impl<'a> Given<'a> {
    pub fn new(text: &'a str, size: usize, ends: bool) -> Given<'a> {
        Given {
            text,
            size,
            place: 0,
            ends,
        }
    }

    pub fn next(&mut self, alloc: Global) -> Result<Coming, StepError>
        ensures { IfOk result is_coming }
    {
        let rest = self.text.as_bytes().get(self.place..).unwrap_or(&[]);
        if rest.is_empty() {
            return Ok(if self.ends {
                Coming::End
            } else {
                Coming::Nothing
            });
        }
        let bytes = rest.get(..self.size).unwrap_or(rest);
        let chunk = chunk_of(alloc, bytes)?;
        self.place = self.place.saturating_add(self.size);
        Ok(Coming::Bytes(chunk))
    }
}
