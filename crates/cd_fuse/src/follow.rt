// The controller of a sequence: the second part reads what the first has left.
ghost use Rattle.std.specs.Prelude.{◌≡◌, ◌+◌, List};
ghost use Rattle.cd_meaning.specs.Stream.{Item, End};
ghost use Rattle.cd_meaning.specs.RunShapes.{Seen};
ghost use Rattle.cd_meaning.specs.Sections.{sequence};
ghost use Rattle.cd_step.specs.Parts.{Part, IsUnbegun, IsHeld, IsSound};
ghost use Rattle.cd_fuse.specs.Follows.{whole_follow, follow_is_at, AreInTurn, turn_to};

use cd_elem::Chunk;
use cd_step::{Back, Control, Flow, Found, Input, Made, Move, Side, Stand, Turn};

/// A sequence of two parts, of which the upper one is the first. The second one begins when the first has ended, is
/// given what that gave back, and behind it what comes to the whole.
#[derive(Drop)]
pub struct Follow {
    stand: Stand,
    // the part that is on
    side: Side,
    // the whole was told the end
    told: bool,
    // what the first part gave back, while the second has not read it
    back: Back,
}

impl Follow {
    /// Over two parts that have not begun.
    pub fn new() -> Follow
        ensures begins { (a b : Part) → IsUnbegun a → IsUnbegun b → IsHeld b → AreInTurn a b → follow_is_at result a b }
        ensures unbegun { (a b : Part) → IsUnbegun a → IsUnbegun (whole_follow result a b) }
        ensures sound { (a b : Part) → IsSound a → IsSound b → IsSound (whole_follow result a b) }
        ensures means { (a b : Part) (z : Seen) (ys : List Item) (e : End) → IsUnbegun a
            → (whole_follow result a b).run z ys e ≡ sequence (a.run z) (b.run z) ys e }
    {
        Follow {
            stand: Stand::Fresh,
            side: Side::Upper,
            told: false,
            back: Back::empty(),
        }
    }

    /// What it keeps beside its parts: what the first part gave back.
    pub fn held(&self) -> u64
        ensures { (a b : Part) → (whole_follow self.now a b).held ≡ a.held + b.held + result }
    {
        self.back.held()
    }
}

impl Control for Follow {
    ghost use Rattle.cd_fuse.specs.Follows.{whole_follow, follow_is_at, follow_fits, follow_left, follow_copying};

    ghost whole = { whole_follow };

    ghost is_at = { follow_is_at };

    ghost fits = { follow_fits };

    ghost left = { follow_left };

    ghost copying = { follow_copying };

    fn copies(&self) -> bool {
        false
    }

    fn begin(&mut self, input: Input, _copy: Option<Chunk>) -> Turn {
        match input {
            Input::End => {
                self.told = true;
                turn_of(self.side, Input::End)
            }
            other => turn_of(self.side, other),
        }
    }

    fn up(&mut self, made: Move) -> Flow {
        match made {
            Move::Emit(chunk) => {
                self.stand = Stand::Gave;
                Flow::Return(Move::Emit(chunk))
            }
            Move::Need => {
                self.stand = Stand::Wait;
                Flow::Return(Move::Need)
            }
            Move::Done { value: _, rest } => {
                self.side = Side::Lower;
                self.back = Back::new(rest);
                Flow::Again(Turn::Down(Input::Start))
            }
            Move::Fault(fault) => {
                self.stand = Stand::Over;
                Flow::Return(Move::Fault(fault))
            }
        }
    }

    fn down(&mut self, made: Move) -> Flow {
        match made {
            Move::Emit(chunk) => {
                self.stand = Stand::Gave;
                Flow::Return(Move::Emit(chunk))
            }
            Move::Need => match self.back.take() {
                Some(chunk) => Flow::Again(Turn::Down(Input::Chunk(chunk))),
                None => {
                    if self.told {
                        Flow::Again(Turn::Down(Input::End))
                    } else {
                        self.stand = Stand::Wait;
                        Flow::Return(Move::Need)
                    }
                }
            },
            Move::Done { value, rest } => {
                self.stand = Stand::Over;
                match self.back.take() {
                    // the second part has read nothing, so that it gives nothing back
                    Some(chunk) => Flow::Finish(Made::One(value), Found::Own(Some(chunk))),
                    None => Flow::Finish(Made::One(value), Found::Own(rest)),
                }
            }
            Move::Fault(fault) => {
                self.stand = Stand::Over;
                Flow::Return(Move::Fault(fault))
            }
        }
    }

    fn retire(&mut self) -> Found {
        self.stand = Stand::Over;
        match self.side {
            Side::Lower => match self.back.take() {
                Some(chunk) => Found::Own(Some(chunk)),
                None => Found::AtLower,
            },
            Side::Upper => Found::AtUpper,
        }
    }
}

fn turn_of(side: Side, input: Input) -> Turn
    ensures { result ≡ turn_to side input }
{
    match side {
        Side::Upper => Turn::Up(input),
        Side::Lower => Turn::Down(input),
    }
}
