// The tree of nodes, with one loop for every controller.
ghost use Rattle.std.specs.Prelude.{◌≡◌, ◌+◌, ◌<◌, ◌≤◌, ◌^◌, ℕ, IfOk, OnErr};
ghost use Rattle.cd_meaning.specs.Places.{Place};
ghost use Rattle.cd_scope.specs.State.{held_in};
ghost use Rattle.cd_step.specs.Flows.{Retires, Same};
ghost use Rattle.cd_step.specs.Parts.{IsHeld, Kept, Part};
ghost use Rattle.cd_node.specs.Controls.{IsPlaced, seen_pair, whole_pair};
ghost use Rattle.cd_node.specs.Marks.{MarksPlace, mark_fits, mark_stands, whole_mark};
ghost use Rattle.cd_node.specs.Nodes.{AnswersNode, AreHeld, GivesBack, HasNoTicket, NodeStepped, fed_node};
ghost use Rattle.cd_node.specs.Trees.{AreHeldIn, BodyStands, BothStand, HasNoTicketIn, IsSameNode, IsWell, StandsAt, bound_of, chunks_of, height, seen};
ghost use Rattle.cd_node.specs.Turns.{Ended, IsReady, StepsOn, TurnedLaw, node_turns_left, turned};

use crate::control::PairControl;
use crate::copies::glued;
use crate::mark::{Mark, MarkTurn};
use crate::plain::{Said, node_move, plain, say};
use crate::protocol::{NodeInput, NodeMove};
use crate::sink::Sink;
use crate::source::Source;
use crate::turn::{NodeTurn, Turned, first, node_turn, pick};
use crate::values::value_of;
use crate::word::WordStage;
use cd_elem::{Chunk, NoMemory};
use cd_scope::Scope;
use cd_step::{Control, Flow, Found, Made, Side, Stage};
use std::alloc::Global;

/// A part between two steps: a word, or two nodes under a controller. It holds the tickets of its open files, so it is
/// not dropped: it is given up by `retire`, `abandon` or `give_up`.
pub enum Node {
    Word(WordStage),
    Source(Source),
    Sink(Sink),
    /// Two nodes. The side is that of the one that is out: the answer of a site is waited for, and goes to it.
    Pair(PairControl, Option<Side>, Box<Node>, Box<Node>),
    /// `mark` round a node.
    Marked(Mark, Box<Node>),
}

impl Node {
    /// One step. `Start` comes first, and each further input answers the last move. Nothing comes after `Done`, `Fault`
    /// or want of memory. What is given in a step that is refused is lost.
    pub fn step(&mut self, alloc: Global, input: NodeInput) -> Result<NodeMove, NoMemory>
        requires well { IsWell self.old }
        requires answers { AnswersNode (seen self.old) input }
        ensures law { (place : ℕ → Place) → StandsAt self.old place → IfOk result (λ m. NodeStepped place (seen self.old) input m (seen self.new)) }
        ensures well { IfOk result (λ m. IsWell self.new) }
        ensures kept { Kept (fed_node input (seen self.old)) (seen self.new) }
        ensures held { IsHeld (seen self.new) }
        ensures places { (place : ℕ → Place) → StandsAt self.old place → StandsAt self.new place }
        ensures height { height self.new ≡ height self.old }
        ensures bound { bound_of self.new ≡ bound_of self.old }
        ensures chunks { chunks_of self.new ≡ chunks_of self.old }
    {
        let made = self.advance(alloc, input)?;
        Ok(made)
    }

    /// It stands in its callers, so that a word in a pair is stepped without a call of its own.
    #[inline(always)]
    #[cycle(drive)]
    fn advance(&mut self, alloc: Global, input: NodeInput) -> Result<NodeMove, NoMemory>
        requires well { IsWell self.old }
        requires answers { AnswersNode (seen self.old) input }
        ensures law { IfOk result (λ m. StepsOn (StandsAt self.old) m (fed_node input (seen self.old)) (seen self.new)) }
        ensures well { IfOk result (λ m. IsWell self.new) }
        ensures kept { Kept (fed_node input (seen self.old)) (seen self.new) }
        ensures held { IsHeld (seen self.new) }
        ensures same { IsSameNode self.old self.new }
    {
        match self {
            Node::Word(stage) => {
                let made = stage.step(alloc, plain(input))?;
                Ok(node_move(made))
            }
            Node::Source(source) => {
                let made = source.step(alloc, input)?;
                Ok(made)
            }
            Node::Sink(sink) => {
                let made = sink.step(alloc, input)?;
                Ok(made)
            }
            Node::Pair(control, out, a, b) => {
                let made = drive(alloc, control, out, a, b, input)?;
                Ok(made)
            }
            Node::Marked(mark, body) => {
                let made = step_marked(alloc, mark, body, input)?;
                Ok(made)
            }
        }
    }

    /// How many elements its words hold, after a refusal too.
    pub fn held(&self) -> u64
        requires few { bound_of self.now + chunks_of self.now < 2 ^ 64 }
        requires held { IsHeld (seen self.now) }
        ensures exact { result ≡ (seen self.now).held }
        ensures most { result ≤ bound_of self.now + chunks_of self.now }
    {
        self.count()
    }

    fn count(&self) -> u64
        requires { (seen self.now).held < 2 ^ 64 }
        ensures { result ≡ (seen self.now).held }
    {
        match self {
            Node::Word(stage) => stage.held(),
            Node::Source(source) => source.held(),
            Node::Sink(sink) => sink.held(),
            Node::Pair(control, _, a, b) => {
                let kept = control.held();
                a.count() + b.count() + kept
            }
            Node::Marked(mark, body) => {
                let kept = mark.held();
                body.count() + kept
            }
        }
    }

    /// How many elements its words may hold, beside one chunk for each.
    pub fn bound(&self) -> u64
        requires few { bound_of self.now < 2 ^ 64 }
        ensures bound { result ≡ bound_of self.now }
        ensures room { (seen self.now).room ≡ bound_of self.now + chunks_of self.now }
    {
        match self {
            Node::Word(stage) => stage.bound(),
            Node::Source(source) => source.bound(),
            Node::Sink(sink) => sink.bound(),
            Node::Pair(_, _, a, b) => a.bound() + b.bound(),
            Node::Marked(_, body) => body.bound(),
        }
    }

    /// What it has not read. No step follows, and its tickets stay in it.
    #[cycle(give_back_both)]
    fn give_back(&mut self) -> Option<Chunk>
        requires well { IsWell self.old }
        ensures law { Retires (seen self.old) result (seen self.new) }
        ensures well { IsWell self.new }
        ensures same { IsSameNode self.old self.new }
    {
        match self {
            Node::Word(stage) => stage.retire(),
            Node::Source(source) => source.give_back(),
            Node::Sink(sink) => sink.give_back(),
            Node::Pair(control, out, a, b) => give_back_both(control, out, a, b),
            Node::Marked(mark, body) => {
                let rest = body.give_back();
                mark.give_back(rest)
            }
        }
    }

    /// Ends a node between two steps: gives back what it has not read, and leaves its tickets to the scope.
    pub fn retire(self, scope: &mut Scope) -> Option<Chunk>
        requires well { IsWell self }
        requires held { AreHeld (held_in scope.old) (seen self) }
        ensures scope { scope.new ≡ scope.old }
        ensures back { GivesBack (seen self) result }
    {
        let mut node = self;
        let rest = node.give_back();
        node.abandon(scope);
        rest
    }

    /// Leaves its tickets to the scope, after a refusal too.
    pub fn abandon(self, scope: &mut Scope)
        requires held { AreHeld (held_in scope.old) (seen self) }
        ensures scope { scope.new ≡ scope.old }
    {
        self.leave(scope);
    }

    /// Gives up a node that has no ticket, where no scope is at hand.
    pub fn give_up(self)
        requires { HasNoTicket (seen self) }
    {
        self.end();
    }

    fn leave(self, scope: &mut Scope)
        requires { AreHeldIn (held_in scope.old) self }
        ensures { scope.new ≡ scope.old }
    {
        match self {
            Node::Word(stage) => drop(stage),
            Node::Source(source) => drop(source.retire(scope)),
            Node::Sink(sink) => drop(sink.retire(scope)),
            Node::Pair(control, _, a, b) => {
                drop(control);
                Box::into_inner(a).leave(scope);
                Box::into_inner(b).leave(scope);
            }
            Node::Marked(mark, body) => {
                mark.leave(scope);
                Box::into_inner(body).leave(scope);
            }
        }
    }

    fn end(self)
        requires { HasNoTicketIn self }
    {
        match self {
            Node::Word(stage) => drop(stage),
            Node::Source(source) => source.give_up(),
            Node::Sink(sink) => sink.give_up(),
            Node::Pair(control, _, a, b) => {
                drop(control);
                Box::into_inner(a).end();
                Box::into_inner(b).end();
            }
            Node::Marked(mark, body) => {
                mark.give_up();
                Box::into_inner(body).end();
            }
        }
    }
}

#[cycle(give_back_both)]
fn give_back_both(
    control: &mut PairControl,
    out: &mut Option<Side>,
    a: &mut Node,
    b: &mut Node,
) -> Option<Chunk>
    requires a { IsWell a.old }
    requires b { IsWell b.old }
    requires at { IsPlaced out.old control.old (seen a.old) (seen b.old) }
    requires held { IsHeld (seen_pair control.old out.old (seen a.old) (seen b.old)) }
    ensures law { Retires (seen_pair control.old out.old (seen a.old) (seen b.old)) result (seen_pair control.new out.new (seen a.new) (seen b.new)) }
    ensures a { IsWell a.new }
    ensures b { IsWell b.new }
    ensures at { IsPlaced out.new control.new (seen a.new) (seen b.new) }
    ensures held { IsHeld (seen_pair control.new out.new (seen a.new) (seen b.new)) }
    ensures same_a { IsSameNode a.old a.new }
    ensures same_b { IsSameNode b.old b.new }
{
    let up = a.give_back();
    let down = b.give_back();
    let found = control.retire();
    *out = None;
    pick(found, up, down)
}

/// A step of two nodes: turn by turn, until the whole has a move.
#[cycle(drive)]
fn drive(
    alloc: Global,
    control: &mut PairControl,
    out: &mut Option<Side>,
    a: &mut Node,
    b: &mut Node,
    input: NodeInput,
) -> Result<NodeMove, NoMemory>
    requires a { IsWell a.old }
    requires b { IsWell b.old }
    requires at { IsPlaced out.old control.old (seen a.old) (seen b.old) }
    requires held { IsHeld (seen_pair control.old out.old (seen a.old) (seen b.old)) }
    requires answers { AnswersNode (seen_pair control.old out.old (seen a.old) (seen b.old)) input }
    ensures law { IfOk result (λ m. StepsOn (BothStand a.old b.old) m (fed_node input (seen_pair control.old out.old (seen a.old) (seen b.old))) (seen_pair control.new out.new (seen a.new) (seen b.new))) }
    ensures a { IfOk result (λ m. IsWell a.new) }
    ensures b { IfOk result (λ m. IsWell b.new) }
    ensures at { IfOk result (λ m. IsPlaced out.new control.new (seen a.new) (seen b.new)) }
    ensures kept { Kept (fed_node input (seen_pair control.old out.old (seen a.old) (seen b.old))) (seen_pair control.new out.new (seen a.new) (seen b.new)) }
    ensures held { IsHeld (seen_pair control.new out.new (seen a.new) (seen b.new)) }
    ensures same_a { IsSameNode a.old a.new }
    ensures same_b { IsSameNode b.old b.new }
{
    let was = *out;
    *out = None;
    let mut turn = first(alloc, control, was, input)?;
    'turns: loop {
        let flow = match take_turn(alloc, control, a, b, turn)? {
            Turned::Went(flow) => flow,
            Turned::Asks(side, made) => {
                *out = Some(side);
                return Ok(made);
            }
        };
        match flow {
            Flow::Again(next) => {
                turn = node_turn(next);
            }
            Flow::Return(made) => return Ok(node_move(made)),
            Flow::Glue(first, second) => {
                let chunk = glued(alloc, &first, &second)?;
                return Ok(NodeMove::Emit(chunk));
            }
            Flow::Finish(made, found) => {
                let ended = finish(alloc, made, found, a, b)?;
                return Ok(ended);
            }
        }
    }
}

/// A step of a bracket round a node: of the bracket itself, or of the node in it.
#[cycle(drive)]
fn step_marked(
    alloc: Global,
    mark: &mut Mark,
    body: &mut Node,
    input: NodeInput,
) -> Result<NodeMove, NoMemory>
    requires body { IsWell body.old }
    requires stands { mark_stands mark.old }
    requires fits { mark_fits mark.old (seen body.old) }
    requires answers { AnswersNode (whole_mark mark.old (seen body.old)) input }
    ensures law { IfOk result (λ m. StepsOn (BodyStands mark.old body.old) m (fed_node input (whole_mark mark.old (seen body.old))) (whole_mark mark.new (seen body.new))) }
    ensures body { IfOk result (λ m. IsWell body.new) }
    ensures stands { IfOk result (λ m. mark_stands mark.new) }
    ensures fits { IfOk result (λ m. mark_fits mark.new (seen body.new)) }
    ensures kept { Kept (fed_node input (whole_mark mark.old (seen body.old))) (whole_mark mark.new (seen body.new)) }
    ensures held { IsHeld (whole_mark mark.new (seen body.new)) }
    ensures same { IsSameNode body.old body.new }
    ensures site { (place : ℕ → Place) → MarksPlace mark.old place → MarksPlace mark.new place }
{
    match mark.begin(input) {
        MarkTurn::Own(made) => Ok(made),
        MarkTurn::Inner(given) => {
            let made = body.advance(alloc, given)?;
            Ok(mark.follow(made))
        }
    }
}

/// The node whose turn it is steps, and the controller hears of its move, unless it is for a site.
#[inline(always)]
#[cycle(drive)]
fn take_turn(
    alloc: Global,
    control: &mut PairControl,
    a: &mut Node,
    b: &mut Node,
    turn: NodeTurn,
) -> Result<Turned, NoMemory>
    requires a { IsWell a.old }
    requires b { IsWell b.old }
    requires ready { IsReady turn control.old (seen a.old) (seen b.old) }
    ensures law { IfOk result (λ t. (p : Part) → Same p (turned turn control.old (seen a.old) (seen b.old)) → TurnedLaw (BothStand a.old b.old) p (node_turns_left turn control.old (seen a.old) (seen b.old)) control.new t (seen a.new) (seen b.new)) }
    ensures a { IfOk result (λ t. IsWell a.new) }
    ensures b { IfOk result (λ t. IsWell b.new) }
    ensures same_a { IsSameNode a.old a.new }
    ensures same_b { IsSameNode b.old b.new }
    ensures lost { OnErr result (Kept (turned turn control.old (seen a.old) (seen b.old)) (whole_pair control.new (seen a.new) (seen b.new)) × IsHeld (whole_pair control.new (seen a.new) (seen b.new))) }
{
    match turn {
        NodeTurn::Up(input) => {
            let made = a.advance(alloc, input)?;
            match say(made) {
                Said::Plain(plain) => Ok(Turned::Went(control.up(plain))),
                Said::Site(asked) => Ok(Turned::Asks(Side::Upper, asked)),
            }
        }
        NodeTurn::Down(input) => {
            let made = b.advance(alloc, input)?;
            match say(made) {
                Said::Plain(plain) => Ok(Turned::Went(control.down(plain))),
                Said::Site(asked) => Ok(Turned::Asks(Side::Lower, asked)),
            }
        }
    }
}

/// The end of a whole: its value is made, and then both nodes are retired.
fn finish(
    alloc: Global,
    made: Made,
    found: Found,
    a: &mut Node,
    b: &mut Node,
) -> Result<NodeMove, NoMemory>
    requires a { IsWell a.old }
    requires b { IsWell b.old }
    ensures law { IfOk result (λ m. Ended made found m (seen a.old) (seen b.old) (seen a.new) (seen b.new)) }
    ensures a { IfOk result (λ m. IsWell a.new) }
    ensures b { IfOk result (λ m. IsWell b.new) }
    ensures same_a { IsSameNode a.old a.new }
    ensures same_b { IsSameNode b.old b.new }
    ensures lost { OnErr result ((seen a.new ≡ seen a.old) × (seen b.new ≡ seen b.old)) }
{
    match value_of(alloc, made) {
        Ok(value) => {
            let up = a.give_back();
            let down = b.give_back();
            let rest = pick(found, up, down);
            Ok(NodeMove::Done { value, rest })
        }
        Err(error) => {
            drop(found);
            Err(error)
        }
    }
}
