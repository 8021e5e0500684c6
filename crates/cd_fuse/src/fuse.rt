// The controller of plain fusion: the upper part gives what the lower part reads.
ghost use Rattle.std.specs.Prelude.{◌≡◌, ◌+◌, true, List, None};
ghost use Rattle.cd_meaning.specs.Stream.{Item, End};
ghost use Rattle.cd_meaning.specs.RunShapes.{Seen};
ghost use Rattle.cd_meaning.specs.Fusion.{fuse};
ghost use Rattle.cd_step.specs.Parts.{Part, IsUnbegun, IsHeld, IsSound};
ghost use Rattle.cd_fuse.specs.Fuses.{whole_fuse, fuse_is_at, AreBeside};

use cd_elem::Chunk;
use cd_step::{Back, Control, Flow, Found, Input, Made, Move, Stand, Turn};

/// How far the upstream has come.
#[derive(Clone, Copy, PartialEq, Eq)]
pub enum Upstream {
    Fresh,
    Begun,
    Ended,
}

/// Plain fusion. A chunk that the upstream gives is moved to the downstream, and nothing of it is kept. Where the
/// downstream has ended first, the upstream is suspended, and what it has not read is given back.
#[derive(Drop)]
pub struct Fuse {
    stand: Stand,
    upstream: Upstream,
    // what the upstream gave back as it ended
    back: Back,
}

impl Fuse {
    /// Over two parts that have not begun. Where the upstream takes nothing, the whole is exact whatever comes to its
    /// place.
    pub fn new() -> Fuse
        ensures begins { (a b : Part) → IsUnbegun a → IsUnbegun b → IsHeld a → AreBeside a b → fuse_is_at result a b }
        ensures unbegun { (a b : Part) → IsUnbegun a → IsUnbegun (whole_fuse result a b) }
        ensures sound { (a b : Part) → IsSound a → IsSound b → IsSound (whole_fuse result a b) }
        ensures exact { (a b : Part) → IsSound a → a.takes ≡ None → (whole_fuse result a b).grade.exact ≡ true }
        ensures means { (a b : Part) (z : Seen) (ys : List Item) (e : End) → IsUnbegun a → IsUnbegun b
            → (whole_fuse result a b).run z ys e ≡ fuse (a.run z) (b.run z) ys e }
    {
        Fuse {
            stand: Stand::Fresh,
            upstream: Upstream::Fresh,
            back: Back::empty(),
        }
    }

    /// What it keeps beside its parts: what the upstream gave back.
    pub fn held(&self) -> u64
        ensures { (a b : Part) → (whole_fuse self.now a b).held ≡ a.held + b.held + result }
    {
        self.back.held()
    }
}

impl Control for Fuse {
    ghost use Rattle.cd_fuse.specs.Fuses.{whole_fuse, fuse_is_at, fuse_fits, fuse_left, fuse_copying};

    ghost whole = { whole_fuse };

    ghost is_at = { fuse_is_at };

    ghost fits = { fuse_fits };

    ghost left = { fuse_left };

    ghost copying = { fuse_copying };

    fn copies(&self) -> bool {
        false
    }

    fn begin(&mut self, input: Input, _copy: Option<Chunk>) -> Turn {
        match input {
            Input::Start => Turn::Down(Input::Start),
            Input::Next => Turn::Down(Input::Next),
            Input::Chunk(chunk) => Turn::Up(Input::Chunk(chunk)),
            Input::End => Turn::Up(Input::End),
        }
    }

    fn up(&mut self, made: Move) -> Flow {
        match made {
            Move::Emit(chunk) => Flow::Again(Turn::Down(Input::Chunk(chunk))),
            Move::Need => {
                self.stand = Stand::Wait;
                Flow::Return(Move::Need)
            }
            Move::Done { value: _, rest } => {
                self.upstream = Upstream::Ended;
                self.back = Back::new(rest);
                Flow::Again(Turn::Down(Input::End))
            }
            Move::Fault(fault) => {
                self.stand = Stand::Over;
                Flow::Return(Move::Fault(fault))
            }
        }
    }

    fn down(&mut self, made: Move) -> Flow {
        match made {
            Move::Emit(chunk) => {
                self.stand = Stand::Gave;
                Flow::Return(Move::Emit(chunk))
            }
            Move::Need => match self.upstream {
                Upstream::Fresh => {
                    self.upstream = Upstream::Begun;
                    Flow::Again(Turn::Up(Input::Start))
                }
                _ => Flow::Again(Turn::Up(Input::Next)),
            },
            Move::Done { value, rest } => {
                self.stand = Stand::Over;
                // plain fusion gives nothing of the downstream's back
                drop(rest);
                match self.upstream {
                    Upstream::Ended => Flow::Finish(Made::One(value), Found::Own(self.back.take())),
                    _ => Flow::Finish(Made::One(value), Found::AtUpper),
                }
            }
            Move::Fault(fault) => {
                self.stand = Stand::Over;
                Flow::Return(Move::Fault(fault))
            }
        }
    }

    fn retire(&mut self) -> Found {
        self.stand = Stand::Over;
        match self.upstream {
            Upstream::Ended => Found::Own(self.back.take()),
            _ => Found::AtUpper,
        }
    }
}
