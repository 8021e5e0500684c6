// The steps of a tree, each move of which is answered here: no file and no stream is reached.
ghost use Rattle.std.specs.Prelude.{◌≡◌, ◌<◌, ◌≤◌, IfOk, MatchOption, Some, length};
ghost use Rattle.cd_elem.specs.Limits.{chunk_limit};
ghost use Rattle.cd_elem.specs.declared.kind.Kind.TheVariants as kind;
ghost use Rattle.cd_step.specs.Parts.{IsGiven, Kept, Part};
ghost use Rattle.cd_node.specs.Nodes.{AnswersNode, GoesNode, HasNoTicket};
ghost use Rattle.cd_node.specs.Trees.{seen};
ghost use Rattle.bench.specs.TimedTrees.{IsReady, IsTimedMove, OnBytes, input_of, places};

use cd_elem::{Chunk, NoMemory};
use cd_node::{Node, NodeInput, NodeMove};
use std::alloc::Global;

/// What answers a move.
#[derive(Drop)]
enum Answer {
    Start,
    Next,
    Chunk(Chunk),
    Gave(Chunk),
    Wrote,
}

fn node_input(answer: Answer) -> NodeInput
    ensures { result ≡ input_of answer }
{
    match answer {
        Answer::Start => NodeInput::Start,
        Answer::Next => NodeInput::Next,
        Answer::Chunk(chunk) => NodeInput::Chunk(chunk),
        Answer::Gave(chunk) => NodeInput::Gave(chunk),
        Answer::Wrote => NodeInput::Wrote,
    }
}

/// What comes of the steps of a tree.
#[derive(Drop)]
struct Flow {
    /// What it gave, until it asks.
    given: Option<Chunk>,
    /// How many bytes it gave or wrote.
    count: u64,
}

impl Flow {
    fn tell(&mut self, chunk: &Chunk)
        ensures { self.new.given ≡ self.old.given }
    {
        self.count = self.count.saturating_add(chunk.len() as u64);
    }

    /// What answers a move: a copy of these bytes at each read, and what the tree gave where it asks. What it writes is let
    /// go. None where it has ended.
    fn answer(
        &mut self,
        alloc: Global,
        made: NodeMove,
        bytes: &[u8],
    ) -> Result<Option<Answer>, NoMemory>
        requires some { 0 < length bytes.now }
        requires most { length bytes.now ≤ chunk_limit }
        requires may { IsTimedMove made }
        requires given { IsGiven (Some kind.Bytes) self.old.given }
        ensures given { IsGiven (Some kind.Bytes) self.new.given }
        ensures answers { (p q : Part) → GoesNode places made p q → Kept p q → OnBytes q.takes → IfOk result (λ next. MatchOption next (Unit {0}) (λ a. AnswersNode q (input_of a))) }
    {
        match made {
            NodeMove::Emit(chunk) => {
                self.tell(&chunk);
                self.given = Some(chunk);
                Ok(Some(Answer::Next))
            }
            NodeMove::Need => {
                let chunk = match self.given.take() {
                    Some(chunk) => chunk,
                    None => Chunk::bytes(alloc, bytes)?,
                };
                Ok(Some(Answer::Chunk(chunk)))
            }
            NodeMove::Read {
                site: _,
                descriptor: _,
            } => {
                let chunk = Chunk::bytes(alloc, bytes)?;
                Ok(Some(Answer::Gave(chunk)))
            }
            NodeMove::Write {
                site: _,
                descriptor: _,
                chunk,
            } => {
                self.tell(&chunk);
                drop(chunk);
                Ok(Some(Answer::Wrote))
            }
            NodeMove::Done { value, rest } => {
                drop((value, rest));
                Ok(None)
            }
            NodeMove::Fault(fault) => {
                drop(fault);
                Ok(None)
            }
            NodeMove::Acquire(_site) => unreachable!(),
            NodeMove::Release(_ticket) => unreachable!(),
        }
    }
}

/// Takes a tree through so many rounds: two steps in which it is given a chunk, gives or writes it, and asks for the next.
/// A tree without a source is given its own chunk again. How many bytes it gave or wrote.
pub fn stepped(alloc: Global, tree: &mut Node, bytes: &[u8], rounds: u32) -> Result<u64, NoMemory>
    requires some { 0 < length bytes.now }
    requires most { length bytes.now ≤ chunk_limit }
    requires ready { IsReady tree.old }
    ensures no_ticket { HasNoTicket (seen tree.new) }
{
    let mut flow = Flow {
        given: None,
        count: 0,
    };
    let mut answer = Answer::Start;
    for _ in 0..2 * u64::from(rounds) + 1 {
        let made = tree.step(alloc, node_input(answer))?;
        match flow.answer(alloc, made, bytes)? {
            Some(next) => answer = next,
            None => return Ok(flow.count),
        }
    }
    Ok(flow.count)
}
