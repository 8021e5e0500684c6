// What a controller of two parts is: it owns none of them.
ghost use Rattle.std.specs.Prelude.{◌≡◌, ℕ, Bool};
ghost use Rattle.cd_step.specs.Parts.{Part, Answers, fed, Goes, Kept, IsHeld, IsSound};
ghost use Rattle.cd_step.specs.Flows.{TurnLaw, FlowLaw, RetireLaw, IsCopied};
ghost use Rattle.cd_step.specs.declared.control.Side.{Side};
ghost use Rattle.cd_step.specs.declared.control.Side.TheVariants as side;

use crate::protocol::{Input, Move};
use cd_elem::{Chunk, Value};

/// One of the two parts of a whole.
#[derive(Clone, Copy, PartialEq, Eq)]
pub enum Side {
    Upper,
    Lower,
}

/// Which part steps next, with what.
#[derive(Drop)]
pub enum Turn {
    Up(Input),
    Down(Input),
}

/// What the value of a whole is made of. All but the first take memory, and controllers take none.
#[derive(Drop)]
pub enum Made {
    One(Value),
    Both(Value, Value),
    /// The downstream's value, where the upstream has not ended.
    Early(Value),
    /// The upstream's value and the downstream's.
    Late(Value, Value),
}

/// Where that stands which the whole gives back.
#[derive(Drop)]
pub enum Found {
    Own(Option<Chunk>),
    AtUpper,
    AtLower,
}

/// What follows a part's move.
#[derive(Drop)]
pub enum Flow {
    Again(Turn),
    /// Any move but `Done`.
    Return(Move),
    /// The whole has ended: its value is made of this, and both parts are retired.
    Finish(Made, Found),
    /// The whole gives these two, of one sort, one behind the other as one chunk, which takes memory.
    Glue(Chunk, Chunk),
}

/// What decides which of two parts steps, and what their moves are for the whole. It owns no part, takes no memory and
/// knows no site.
pub trait Control {
    // what is seen of the whole
    ghost whole: { Self → Part → Part → Part };

    // the parts stand where the controller says, between two steps of the whole
    ghost is_at: { Self → Part → Part → Type 0 };

    // the part on this side has taken its input in, and goes on for the whole
    ghost fits: { Side → Self → Part → Part → Type 0 };

    // how many turns may still come
    ghost left: { Side → Self → Part → Part → ℕ };

    // a chunk that is given goes to both parts, so that a copy is wanted
    ghost copying: { Self → Bool };

    fn copies(&self) -> bool
        ensures { result ≡ copying self.now };

    /// The first turn of a step of the whole.
    fn begin(&mut self, input: Input, copy: Option<Chunk>) -> Turn
        ensures { (a b : Part) → IsSound a → IsSound b → is_at self.old a b → Answers (whole self.old a b) input → IsCopied (copying self.old) input copy
            → TurnLaw whole fits (fed input (whole self.old a b)) result self.new a b };

    /// What follows a move of the upper part.
    fn up(&mut self, made: Move) -> Flow
        ensures { (a b q : Part) → IsSound b → fits side.Upper self.old a b → Goes made a q → Kept a q → IsHeld q
            → FlowLaw whole is_at fits left (whole self.old a b) (left side.Upper self.old a b) self.new result q b };

    /// What follows a move of the lower part.
    fn down(&mut self, made: Move) -> Flow
        ensures { (a b q : Part) → IsSound a → fits side.Lower self.old a b → Goes made b q → Kept b q → IsHeld q
            → FlowLaw whole is_at fits left (whole self.old a b) (left side.Lower self.old a b) self.new result a q };

    /// Where that stands which the whole has not read. No step follows.
    fn retire(&mut self) -> Found
        ensures { (a b : Part) → RetireLaw whole is_at fits self.old result self.new a b };
}
