// The bracket of `mark`: a file is made before its body and removed behind it.
ghost use Rattle.std.specs.Prelude.{◌≡◌, ◌+◌, ℕ, ◌==◌, ◌||◌, false, List};
ghost use Rattle.cd_meaning.specs.Places.{Place, Marks};
ghost use Rattle.cd_meaning.specs.RunShapes.{Seen};
ghost use Rattle.cd_meaning.specs.Sources.{marked};
ghost use Rattle.cd_meaning.specs.Stream.{End, Item};
ghost use Rattle.cd_meaning.proofs.Moves.Fused.{IsGrade};
ghost use Rattle.cd_scope.specs.State.{held_in};
ghost use Rattle.cd_step.specs.Flows.{Retires};
ghost use Rattle.cd_step.specs.Parts.{Part, IsHeld, IsSound, IsUnbegun, Kept};
ghost use Rattle.cd_node.specs.Marks.{MarkKeeps, MarkTurnLaw, MarksPlace, OwnMoveLaw, mark_fits, mark_goes_on, mark_stands, whole_mark};
ghost use Rattle.cd_node.specs.Nodes.{AnswersNode, GoesNode, fed_node};
ghost use Rattle.cd_node.specs.Ports.{AreTicketsHeld, HasNone, ticket_of};
ghost use Rattle.cd_node.specs.declared.mark.MarkStand.TheVariants as stand;
ghost use Rattle.cd_node.specs.declared.protocol.NodeInput.TheVariants as given;

use crate::port::{Medium, Port};
use crate::protocol::{NodeInput, NodeMove};
use cd_elem::{Chunk, Site, Value};
use cd_scope::{Scope, Ticket};
use cd_step::Back;
use std::mem;

/// Where a bracket stands between two steps.
#[derive(Drop)]
pub enum MarkStand {
    Fresh,
    /// It waits for its file.
    Opening,
    /// Its body goes on.
    Body,
    /// Its body has ended with this, and it waits for the removal of its file.
    Closing(Value, Back),
    Over,
}

/// Which of the two steps: the bracket itself, or its body.
pub enum MarkTurn {
    Own(NodeMove),
    Inner(NodeInput),
}

/// `mark` between two steps, without its body. The file is made when the bracket starts, and removed when the body has
/// ended. It takes no memory.
pub struct Mark {
    port: Port,
    stand: MarkStand,
}

impl Mark {
    /// At this site, over a body that has not begun.
    pub fn new(site: Site) -> Mark
        ensures stands { mark_stands result }
        ensures fits { (p : Part) → IsUnbegun p → IsHeld p → p.sites site.0 ≡ false → IsGrade p.grade → mark_fits result p }
        ensures unbegun { (p : Part) → IsUnbegun (whole_mark result p) }
        ensures none_held { (p : Part) → (whole_mark result p).held ≡ p.held + 0 }
        ensures sites { (p : Part) (t : ℕ) → (whole_mark result p).sites t ≡ (t == site.0) || p.sites t }
        ensures no_ticket { HasNone (ticket_of result.port.ticket) }
        ensures places { (place : ℕ → Place) (name : List ℕ) → place site.0 ≡ Marks name → MarksPlace result place }
        ensures means { (p : Part) (z : Seen) (ys : List Item) (e : End) → (whole_mark result p).run z ys e ≡ marked site.0 (p.run z) ys e }
    {
        Mark {
            port: Port::new(site, Medium::File),
            stand: MarkStand::Fresh,
        }
    }

    /// What follows an input.
    pub fn begin(&mut self, input: NodeInput) -> MarkTurn
        requires stands { mark_stands self.old }
        ensures stands { (p : Part) → mark_fits self.old p → AnswersNode (whole_mark self.old p) input → mark_stands self.new }
        ensures turn { (p : Part) → mark_fits self.old p → AnswersNode (whole_mark self.old p) input → MarkTurnLaw (fed_node input (whole_mark self.old p)) result self.new p }
        ensures own { (place : ℕ → Place) (p : Part) → MarksPlace self.old place → mark_fits self.old p → AnswersNode (whole_mark self.old p) input
            → OwnMoveLaw place (fed_node input (whole_mark self.old p)) result self.new p }
        ensures places { (place : ℕ → Place) → MarksPlace self.old place → MarksPlace self.new place }
    {
        match input {
            NodeInput::Start => self.start(),
            NodeInput::Acquired(ticket) => self.acquired(ticket),
            NodeInput::Closed => self.closed(),
            other => MarkTurn::Inner(other),
        }
    }

    fn start(&mut self) -> MarkTurn
        requires stands { mark_stands self.old }
        ensures stands { mark_stands self.new }
        ensures port { self.new.port ≡ self.old.port }
        ensures turn { (p : Part) → mark_fits self.old p → AnswersNode (whole_mark self.old p) given.Start → MarkTurnLaw (whole_mark self.old p) result self.new p }
        ensures own { (place : ℕ → Place) (p : Part) → MarksPlace self.old place → mark_fits self.old p → AnswersNode (whole_mark self.old p) given.Start
            → OwnMoveLaw place (whole_mark self.old p) result self.new p }
    {
        match self.stand {
            MarkStand::Fresh => {
                self.stand = MarkStand::Opening;
                MarkTurn::Own(NodeMove::Acquire(self.port.site))
            }
            _ => MarkTurn::Inner(NodeInput::Start),
        }
    }

    fn acquired(&mut self, ticket: Ticket) -> MarkTurn
        requires stands { mark_stands self.old }
        ensures stands { (p : Part) → mark_fits self.old p → AnswersNode (whole_mark self.old p) (given.Acquired ticket) → mark_stands self.new }
        ensures turn { (p : Part) → mark_fits self.old p → AnswersNode (whole_mark self.old p) (given.Acquired ticket)
            → MarkTurnLaw (fed_node (given.Acquired ticket) (whole_mark self.old p)) result self.new p }
        ensures inner { (place : ℕ → Place) (p q : Part) → OwnMoveLaw place p result self.new q }
        ensures site { self.new.port.site ≡ self.old.port.site }
    {
        match self.stand {
            MarkStand::Opening => {
                self.port.put(ticket);
                self.stand = MarkStand::Body;
                MarkTurn::Inner(NodeInput::Start)
            }
            _ => MarkTurn::Inner(NodeInput::Acquired(ticket)),
        }
    }

    fn closed(&mut self) -> MarkTurn
        requires stands { mark_stands self.old }
        ensures stands { mark_stands self.new }
        ensures port { self.new.port ≡ self.old.port }
        ensures turn { (p : Part) → mark_fits self.old p → AnswersNode (whole_mark self.old p) given.Closed → MarkTurnLaw (whole_mark self.old p) result self.new p }
        ensures own { (place : ℕ → Place) (p : Part) → mark_fits self.old p → AnswersNode (whole_mark self.old p) given.Closed → OwnMoveLaw place (whole_mark self.old p) result self.new p }
    {
        match mem::replace(&mut self.stand, MarkStand::Over) {
            MarkStand::Closing(value, mut back) => MarkTurn::Own(NodeMove::Done {
                value,
                rest: back.take(),
            }),
            other => {
                self.stand = other;
                MarkTurn::Inner(NodeInput::Closed)
            }
        }
    }

    /// What a move of its body is for the whole: where the body has ended, the file is removed first.
    pub fn follow(&mut self, made: NodeMove) -> NodeMove
        requires stands { mark_stands self.old }
        requires body { self.old.stand ≡ stand.Body }
        ensures stands { mark_stands self.new }
        ensures law { (place : ℕ → Place) (p q : Part) → IsSound q → mark_goes_on self.old p → GoesNode place made p q → Kept p q → GoesNode place result (whole_mark self.old p) (whole_mark self.new q) }
        ensures keeps { (place : ℕ → Place) (p q : Part) → mark_goes_on self.old p → GoesNode place made p q → Kept p q → IsHeld q → MarkKeeps (whole_mark self.old p) self.new q }
        ensures site { self.new.port.site ≡ self.old.port.site }
    {
        match made {
            NodeMove::Done { value, rest } => {
                self.stand = MarkStand::Closing(value, Back::new(rest));
                NodeMove::Release(self.port.take())
            }
            other => other,
        }
    }

    /// What it keeps beside its body: what that gave back.
    pub fn held(&self) -> u64
        ensures { (p : Part) → (whole_mark self.now p).held ≡ p.held + result }
    {
        match &self.stand {
            MarkStand::Closing(_, back) => back.held(),
            MarkStand::Fresh | MarkStand::Opening | MarkStand::Body | MarkStand::Over => 0,
        }
    }

    /// What the whole has not read, where the body gave this back. No step follows.
    pub fn give_back(&mut self, body: Option<Chunk>) -> Option<Chunk>
        requires stands { mark_stands self.old }
        ensures stands { mark_stands self.new }
        ensures law { (p q : Part) → mark_fits self.old p → Retires p body q → Retires (whole_mark self.old p) result (whole_mark self.new q) }
        ensures fits { (p q : Part) → mark_fits self.old p → Retires p body q → mark_fits self.new q }
        ensures port { self.new.port ≡ self.old.port }
    {
        match mem::replace(&mut self.stand, MarkStand::Over) {
            MarkStand::Closing(_, mut back) => {
                drop(body);
                back.take()
            }
            MarkStand::Fresh | MarkStand::Opening | MarkStand::Body | MarkStand::Over => body,
        }
    }

    /// Leaves its ticket to the scope.
    pub fn leave(self, scope: &mut Scope)
        requires { AreTicketsHeld (held_in scope.old) (ticket_of self.port.ticket) }
        ensures { scope.new ≡ scope.old }
    {
        let Mark { port, stand } = self;
        drop(stand);
        port.leave(scope);
    }

    /// Gives it up, where it has no ticket.
    pub fn give_up(self)
        requires { HasNone (ticket_of self.port.ticket) }
    {
        let Mark { port, stand } = self;
        drop(stand);
        port.give_up();
    }
}
