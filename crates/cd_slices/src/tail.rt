// The words behind the splitter.
ghost use Rattle.std.specs.Prelude.{◌≡◌, ◌+◌, ◌≤◌, ◌<◌, ◌++◌, IfOk, OnOk, IfSome, true, false, length};
ghost use Rattle.cd_slices.specs.Slicing.{is_ready, sink_of, sink_value, taken_in};
ghost use Rattle.cd_slices.specs.Stages.{IsSameEnd, bytes_given, end_bytes, end_next, stands};
ghost use Rattle.cd_meaning.specs.Values.{value_meaning};

use crate::sieve::{Sieve, Verdict, sift, spent};
use cd_elem::{ByteList, NoMemory, Value};

/// What is made of the pieces that come through.
#[derive(Clone, Copy)]
pub enum SliceEnd {
    /// How many they are.
    Count(u64),
    /// Their elements, with a newline behind each piece or without.
    Join(bool),
}

/// The words behind the splitter, between two pieces.
#[derive(Drop)]
pub struct Tail {
    pub sieves: Vec<Sieve>,
    // a piece was refused
    pub over: bool,
    pub end: SliceEnd,
}

impl Tail {
    /// Whether no further piece is taken.
    #[inline]
    pub fn is_over(&self) -> bool
        ensures { result ≡ is_ready (stands self.now) }
    {
        self.over || spent(self.sieves.as_slice())
    }

    /// Its value, where no further piece comes.
    pub fn value(&self) -> Value
        ensures { value_meaning result ≡ sink_value (sink_of self.now.end) }
    {
        match self.end {
            SliceEnd::Count(count) => Value::Num(count),
            SliceEnd::Join(_) => Value::Unit,
        }
    }

    /// A piece goes on to the last word.
    #[inline]
    fn give(&mut self, piece: &[u8], out: &mut ByteList) -> Result<(), NoMemory>
        ensures gives { OnOk result (out.new ≡ out.old ++ end_bytes self.old.end piece.now) }
        ensures after { OnOk result (self.new ≡ record self.old { end = end_next self.old.end }) }
        ensures same { IsSameEnd self.old.end self.new.end }
    {
        match self.end {
            SliceEnd::Count(count) => {
                self.end = SliceEnd::Count(count.saturating_add(1));
                Ok(())
            }
            SliceEnd::Join(lines) => {
                out.extend_from_slice(piece)?;
                if lines && out.push(b'\n').is_err() {
                    return Err(NoMemory);
                }
                Ok(())
            }
        }
    }

    /// Takes a piece.
    #[inline]
    pub fn take(&mut self, piece: &[u8], out: &mut ByteList) -> Result<(), NoMemory>
        requires { self.old.over ≡ false }
        ensures gives { OnOk result (out.new ≡ out.old ++ bytes_given self.old piece.now) }
        ensures after { OnOk result (stands self.new ≡ (taken_in (stands self.old) piece.now).1) }
        ensures same { IsSameEnd self.old.end self.new.end }
    {
        match sift(self.sieves.as_mut_slice(), piece) {
            Verdict::Keeps => self.give(piece, out),
            Verdict::Drops => Ok(()),
            Verdict::Refuses => {
                self.over = true;
                Ok(())
            }
        }
    }
}
