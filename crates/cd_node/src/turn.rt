// The first turn of a step of two nodes, and what a turn comes to.
ghost use Rattle.std.specs.Prelude.{◌≡◌, IfOk, OnErr, None};
ghost use Rattle.cd_step.specs.Flows.{picked};
ghost use Rattle.cd_step.specs.Parts.{Answers, IsSound, Part, fed};
ghost use Rattle.cd_node.specs.Controls.{IsPlaced, pair_is_at, seen_pair, whole_pair};
ghost use Rattle.cd_node.specs.Nodes.{AnswersNode, fed_node};
ghost use Rattle.cd_node.specs.PlainWords.{IsPlain};
ghost use Rattle.cd_node.specs.Turns.{NodeTurnLaw, node_turn as turn_seen, turn_of};

use crate::control::PairControl;
use crate::copies::copied;
use crate::plain::{Heard, hear, node_input};
use crate::protocol::{NodeInput, NodeMove};
use cd_elem::{Chunk, NoMemory};
use cd_step::{Control, Flow, Found, Input, Side, Turn};
use std::alloc::Global;

/// Which of two nodes steps next, with what.
pub(crate) enum NodeTurn {
    Up(NodeInput),
    Down(NodeInput),
}

/// What a turn comes to.
pub(crate) enum Turned {
    /// What the controller makes of the node's move.
    Went(Flow),
    /// The node on this side asks something of a site.
    Asks(Side, NodeMove),
}

#[inline(always)]
pub(crate) fn node_turn(turn: Turn) -> NodeTurn
    ensures { result ≡ turn_seen turn }
{
    match turn {
        Turn::Up(input) => NodeTurn::Up(node_input(input)),
        Turn::Down(input) => NodeTurn::Down(node_input(input)),
    }
}

/// The controller begins, with a copy of the chunk where it wants one.
#[inline(always)]
fn begin(alloc: Global, control: &mut PairControl, input: Input) -> Result<NodeTurn, NoMemory>
    ensures law { IfOk result (λ turn. (a b : Part) → IsSound a → IsSound b → pair_is_at control.old a b → Answers (whole_pair control.old a b) input
        → NodeTurnLaw (fed input (whole_pair control.old a b)) turn control.new a b) }
    ensures lost { OnErr result (control.new ≡ control.old) }
{
    match copied(alloc, control.copies(), &input) {
        Ok(copy) => Ok(node_turn(control.begin(input, copy))),
        Err(error) => {
            drop(input);
            Err(error)
        }
    }
}

#[inline(always)]
fn answer_to(side: Side, answer: NodeInput) -> NodeTurn
    ensures { result ≡ turn_of side answer }
{
    match side {
        Side::Upper => NodeTurn::Up(answer),
        Side::Lower => NodeTurn::Down(answer),
    }
}

/// The first turn of a step. The answer of a site goes to the node that is out.
#[inline(always)]
pub(crate) fn first(
    alloc: Global,
    control: &mut PairControl,
    out: Option<Side>,
    input: NodeInput,
) -> Result<NodeTurn, NoMemory>
    requires plain { out ≡ None → IsPlain input }
    ensures law { IfOk result (λ turn. (a b : Part) → IsSound a → IsSound b → IsPlaced out control.old a b → AnswersNode (seen_pair control.old out a b) input
        → NodeTurnLaw (fed_node input (seen_pair control.old out a b)) turn control.new a b) }
    ensures lost { OnErr result ((control.new ≡ control.old) × IsPlain input) }
{
    match hear(input) {
        Heard::Plain(plain) => {
            let turn = begin(alloc, control, plain)?;
            Ok(turn)
        }
        Heard::Site(answer) => match out {
            Some(side) => Ok(answer_to(side, answer)),
            None => unreachable!(),
        },
    }
}

/// What is given back of a whole, of what each of its nodes gives back.
pub(crate) fn pick(found: Found, up: Option<Chunk>, down: Option<Chunk>) -> Option<Chunk>
    ensures { result ≡ picked found up down }
{
    match found {
        Found::Own(rest) => {
            drop(up);
            drop(down);
            rest
        }
        Found::AtUpper => {
            drop(down);
            up
        }
        Found::AtLower => {
            drop(up);
            down
        }
    }
}
