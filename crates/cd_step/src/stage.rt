// What a stage without sites is.
ghost use Rattle.std.specs.Prelude.{◌≡◌, ◌+◌, ◌<◌, ◌≤◌, ◌^◌, ℕ, IfOk, OnErr};
ghost use Rattle.cd_step.specs.Parts.{Part, Answers, fed, Stepped, Kept, IsHeld};
ghost use Rattle.cd_step.specs.Flows.{Retires};

use crate::protocol::{Input, Move};
use cd_elem::{Chunk, NoMemory};
use std::alloc::Global;

/// A suspended part without sites and without parts of its own.
pub trait Stage {
    // what is seen of it
    ghost seen: { Self → Part };

    // it stands between two steps; nothing is known of this after a refusal
    ghost fits: { Self → Type 0 };

    // how many elements it may carry beside one chunk, and what that chunk counts at most
    ghost most: { Self → ℕ };

    ghost one: { Self → ℕ };

    /// One step. `Start` comes first; `Next` answers `Emit`; `Chunk` and `End` answer `Need`. Nothing comes after
    /// `Done`, `Fault` or want of memory.
    fn step(&mut self, alloc: Global, input: Input) -> Result<Move, NoMemory>
        requires fit { fits self.old }
        requires answers { Answers (seen self.old) input }
        ensures law { IfOk result (λ m. Stepped (seen self.old) input m (seen self.new)) }
        ensures fit { IfOk result (λ m. fits self.new) }
        ensures kept { Kept (fed input (seen self.old)) (seen self.new) }
        ensures held { IsHeld (seen self.new) }
        ensures refused { OnErr result ((seen self.new).held ≤ (fed input (seen self.old)).held) };

    /// What it holds: the elements in its own buffers.
    fn held(&self) -> u64
        requires { (seen self.now).held < 2 ^ 64 }
        ensures { result ≡ (seen self.now).held };

    /// What it may hold beside one chunk.
    fn bound(&self) -> u64
        requires { most self.now < 2 ^ 64 }
        ensures bound { result ≡ most self.now }
        ensures room { (seen self.now).room ≡ most self.now + one self.now };

    /// What is unread of the last chunk. No step follows.
    fn retire(&mut self) -> Option<Chunk>
        requires fit { fits self.old }
        ensures law { Retires (seen self.old) result (seen self.new) }
        ensures fit { fits self.new };
}
