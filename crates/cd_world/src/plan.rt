// How the calls on a member of a world in memory are cut, and which of them fail.
ghost use Rattle.std.specs.Prelude.{◌≡◌, ◌<◌, ◌≤◌};
ghost use Rattle.cd_world.specs.Plan.{is_call, calls_of, is_failing, cut, with_call};

use cd_elem::{Items, NumberList};

/// A call on a member that fails: the k-th of its sort on that name, counted from 1.
#[derive(Clone, Copy, Debug, PartialEq, Eq)]
pub enum Fail {
    Opening(u32),
    Reading(u32),
    Writing(u32),
    Closing(u32),
}

/// The calls on a member that fail.
pub type FailList = Items<Fail>;

/// The sorts of calls on a member. An opening is one for any use.
#[derive(Clone, Copy)]
pub enum Call {
    Opening,
    Reading,
    Writing,
    Closing,
}

impl Fail {
    /// Whether this is the call of this sort with this number.
    fn is(self, call: Call, number: usize) -> bool
        ensures { result ≡ is_call call number self }
    {
        match (self, call) {
            (Fail::Opening(k), Call::Opening) => k as usize == number,
            (Fail::Reading(k), Call::Reading) => k as usize == number,
            (Fail::Writing(k), Call::Writing) => k as usize == number,
            (Fail::Closing(k), Call::Closing) => k as usize == number,
            _ => false,
        }
    }
}

/// How the calls on a name go, and how many of each sort there were. A count stays at 2^64 - 1.
#[derive(Drop)]
pub struct Plan {
    pub read_cuts: NumberList,
    pub write_cuts: NumberList,
    pub fails: FailList,
    pub opens: usize,
    pub reads: usize,
    pub writes: usize,
    pub closes: usize,
}

impl Plan {
    fn calls(&self, call: Call) -> usize
        ensures { result ≡ calls_of call self.now }
    {
        match call {
            Call::Opening => self.opens,
            Call::Reading => self.reads,
            Call::Writing => self.writes,
            Call::Closing => self.closes,
        }
    }

    /// Whether the next call of this sort fails.
    pub fn is_failing(&self, call: Call) -> bool
        ensures { result ≡ is_failing call self.now }
    {
        let number = self.calls(call).saturating_add(1);
        self.fails
            .as_slice()
            .iter()
            .any(|fail| fail.is(call, number))
    }

    /// Counts a call.
    pub fn count(&mut self, call: Call)
        ensures { self.new ≡ with_call call self.old }
    {
        match call {
            Call::Opening => self.opens = self.opens.saturating_add(1),
            Call::Reading => self.reads = self.reads.saturating_add(1),
            Call::Writing => self.writes = self.writes.saturating_add(1),
            Call::Closing => self.closes = self.closes.saturating_add(1),
        }
    }
}

/// So many bytes, cut by the cut at a place, of which 0 counts as 1. After the list there is no cut.
pub fn cut(cuts: &NumberList, place: usize, count: usize) -> usize
    ensures value { result ≡ cut cuts.now place count }
    ensures within { result ≤ count }
    ensures some { 0 < count → 0 < result }
{
    match cuts.get(place) {
        Some(&most) => count.min((most as usize).max(1)),
        None => count,
    }
}
