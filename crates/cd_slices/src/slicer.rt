// Pieces of a chunk, each looked at where it lies.
ghost use Rattle.std.specs.Prelude.{◌≡◌, ◌⊎◌, ◌+◌, ◌≤◌, ◌<◌, ◌++◌, [], ℕ, List, IfOk, OnOk, true, false, length};
ghost use Rattle.cd_elem.specs.Limits.{chunk_limit};
ghost use Rattle.cd_slices.specs.Stages.{HasRoom, IsOpen, IsSame, IsSameEnd, Runs, Steps, bytes_given, stands};
ghost use Rattle.cd_slices.specs.Slicing.{is_ready, taken_in};
ghost use Rattle.cd_slices.specs.declared.slicer.Stop.TheVariants as stop;

use crate::cut::{Cut, SliceRule, next_cut};
use crate::tail::Tail;
use cd_elem::{ByteList, CHUNK_LIMIT, Items, NoMemory};
use std::alloc::Global;
use std::mem;

/// A splitter and the words behind it, between two bytes.
#[derive(Drop)]
pub struct Slicer {
    pub rule: SliceRule,
    // the line has given no piece yet
    pub fresh: bool,
    // the bytes since the last piece
    pub open: ByteList,
    pub tail: Tail,
}

/// Why it stopped before some bytes.
#[derive(Clone, Copy)]
pub enum Stop {
    /// No piece ends there.
    Rest,
    /// What it gives would no longer be one chunk.
    Full,
    /// No further piece is taken.
    Over,
}

impl Stop {
    /// Whether no piece ends there.
    #[inline]
    pub fn is_rest(self) -> bool
        ensures rest { result ≡ true → self ≡ stop.Rest }
        ensures other { result ≡ false → self ≡ stop.Rest → ⊥ }
    {
        matches!(self, Stop::Rest)
    }
}

/// What it did with the first of some bytes.
#[derive(Clone, Copy)]
enum Step {
    Read(usize),
    Stopped(Stop),
}

impl Slicer {
    /// The words take the piece of the open bytes and these.
    #[inline]
    pub fn piece(&mut self, alloc: Global, bytes: &[u8], out: &mut ByteList) -> Result<(), NoMemory>
        requires over { self.old.tail.over ≡ false }
        ensures gives { OnOk result (out.new ≡ out.old ++ bytes_given self.old.tail (self.old.open ++ bytes.now)) }
        ensures after { OnOk result (stands self.new.tail ≡ (taken_in (stands self.old.tail) (self.old.open ++ bytes.now)).1) }
        ensures open { self.new.open ≡ [] }
        ensures same { IsSameEnd self.old.tail.end self.new.tail.end }
        ensures rule { self.new.rule ≡ self.old.rule }
        ensures fresh { self.new.fresh ≡ self.old.fresh }
    {
        if self.open.len() == 0 {
            return self.tail.take(bytes, out);
        }
        let mut whole = mem::replace(&mut self.open, Items::new(alloc));
        whole.extend_from_slice(bytes)?;
        self.tail.take(whole.as_slice(), out)
    }

    /// Whether a piece that ends with so many bytes no longer goes into the chunk that is made.
    #[inline]
    fn is_full(&self, len: usize, out: &ByteList) -> bool
        requires open { IsOpen self.now }
        requires most { length self.now.open + len ≤ self.now.rule.most }
        requires room { HasRoom self.now.tail.end out.now }
        ensures full { result ≡ true → 0 < length out.now }
        ensures room { result ≡ false → (out.now ≡ []) ⊎ (length out.now + (length self.now.open + len + 1) ≤ chunk_limit) }
    {
        out.len() != 0 && out.len() + self.open.len() + len + 1 > CHUNK_LIMIT
    }

    /// Reads up to the end of the first piece.
    #[inline]
    fn step(&mut self, alloc: Global, bytes: &[u8], out: &mut ByteList) -> Result<Step, NoMemory>
        requires ready { is_ready (stands self.old.tail) ≡ false }
        requires open { IsOpen self.old }
        requires room { HasRoom self.old.tail.end out.old }
        ensures law { IfOk result (λ step. Steps self.old bytes.now out.old step self.new out.new) }
        ensures same { IsSame self.old self.new }
        ensures open { IsOpen self.new }
        ensures room { OnOk result (HasRoom self.new.tail.end out.new) }
    {
        match next_cut(self.rule, self.fresh, self.open.len(), bytes) {
            Cut::Rest => Ok(Step::Stopped(Stop::Rest)),
            Cut::LineEnd => {
                self.fresh = true;
                Ok(Step::Read(1))
            }
            Cut::Piece { len, used, fresh } => {
                if self.is_full(len, out) {
                    return Ok(Step::Stopped(Stop::Full));
                }
                self.piece(alloc, &bytes[..len], out)?;
                self.fresh = fresh;
                Ok(Step::Read(used))
            }
        }
    }

    /// Reads these bytes as far as pieces end there, the words take them, and the chunk has room. How many it has read,
    /// and why no more.
    #[inline]
    pub fn run(
        &mut self,
        alloc: Global,
        bytes: &[u8],
        out: &mut ByteList,
    ) -> Result<(usize, Stop), NoMemory>
        requires open { IsOpen self.old }
        requires room { HasRoom self.old.tail.end out.old }
        ensures law { IfOk result (λ ran. Runs self.old bytes.now out.old ran self.new out.new) }
        ensures same { IsSame self.old self.new }
        ensures open { IsOpen self.new }
        ensures room { OnOk result (HasRoom self.new.tail.end out.new) }
    {
        let mut at = 0;
        loop {
            if self.tail.is_over() {
                return Ok((at, Stop::Over));
            }
            match self.step(alloc, &bytes[at..], out)? {
                Step::Read(used) => at += used,
                Step::Stopped(stop) => return Ok((at, stop)),
            }
        }
    }
}
