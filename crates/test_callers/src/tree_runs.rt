// Trees in a scope over a world in memory, with a line for each input and each move.
ghost use Rattle.std.specs.Prelude.{◌≡◌, ◌⊎◌, ◌<◌, ◌≤◌, ◌+◌, ℕ, List, IfOk};
ghost use Rattle.cd_step.specs.Parts.{Kept, Part};
ghost use Rattle.cd_meaning.specs.Stream.{Sort};
ghost use Rattle.cd_world.specs.declared.event.Use.TheVariants.{Writing};
ghost use Rattle.cd_world.specs.Live.{IsLive, Open};
ghost use Rattle.cd_world.specs.Memory.{live_in};
ghost use Rattle.cd_scope.specs.State.{held_in, room_in};
ghost use Rattle.cd_scope.specs.Table.{IsOpen};
ghost use Rattle.cd_node.specs.Nodes.{AreHeld, GoesNode};
ghost use Rattle.cd_node.specs.Trees.{IsWell, StandsAt, seen};
ghost use Rattle.cd_run.specs.Going.{places_of};
ghost use Rattle.test_callers.specs.Leaves.{IsOnBytes};
ghost use Rattle.test_callers.specs.Trees.{IsAnswered, IsReadyNode, MayBeDone};

use crate::byte_trees::{OnBytes, tree_on_bytes};
use crate::drives::calls_of;
use crate::given::{Coming, Given};
use crate::leaf_runs::give_up;
use crate::lines::{StepError, push_back};
use crate::node_lines::{push_given, push_made, push_site};
use crate::reads::Reads;
use crate::sites::{Member, world_of};
use crate::trees::{Tree, tree_of};
use cd_elem::{Chunk, Site};
use cd_node::{Node, NodeInput, NodeMove, held_tickets};
use cd_run::{RunFault, acquire, print_value, release, write_all};
use cd_scope::{Finished, Scope};
use cd_typed::SiteInfo;
use cd_world::{Descriptor, MemoryWorld};
use std::alloc::Global;

/// How a tree is given up that has not ended.
#[derive(Clone, Copy, PartialEq, Eq)]
pub enum Leaving {
    Retire,
    Abandon,
}

/// How many bytes a read asks for at most, how many bytes a source has at most, and after how many steps, if not before,
/// the tree is given up.
#[derive(Clone, Copy)]
pub struct Pace {
    pub size: usize,
    pub limit: u64,
    pub steps: u32,
    pub leaving: Leaving,
}

/// What a tree did, with a line for each call on the outside, and what its scope told.
#[derive(Drop)]
pub struct TreeRun {
    pub moves: String,
    pub calls: String,
    pub world: MemoryWorld,
    pub finished: Finished,
}

/// What answers a move.
pub enum Answer {
    Next(NodeInput),
    /// Nothing comes.
    Waits,
    /// No step follows.
    Over,
}

/// Where a tree stands that is stepped no further.
#[derive(Clone, Copy, PartialEq, Eq)]
enum Stopped {
    Between,
    AtEnd,
}

/// A line of what the outside refused.
fn refused(text: &mut String, fault: RunFault) -> StepError {
    let told = match fault {
        RunFault::NoMemory => return StepError::NoMemory,
        RunFault::Decode(_) => Ok(()),
        RunFault::AcquireFault { site } => push_site(text, "acquire fault ", site),
        RunFault::ReadFault { site } => push_site(text, "read fault ", site),
        RunFault::WriteFault { site } => push_site(text, "write fault ", site),
        RunFault::CloseFault { site } => push_site(text, "close fault ", site),
        RunFault::TooLong { site } => push_site(text, "too long ", site),
    };
    match told.and(text.push_str("\n").map_err(StepError::from)) {
        Ok(()) => StepError::Refused,
        Err(error) => error,
    }
}

/// Writes all of a chunk of bytes by itself.
fn write_chunk(
    world: &mut MemoryWorld,
    site: Site,
    to: Descriptor,
    chunk: Chunk,
) -> Result<(), RunFault>
    requires bytes { chunk.0 ≡ Sort.Bytes }
    requires writable { (to.0 ≡ 1) ⊎ IsLive Writing to (live_in world.old) }
    ensures live { live_in world.new ≡ live_in world.old }
{
    match chunk.as_bytes() {
        Some(bytes) => write_all(world, site, to, bytes),
        None => unreachable!(),
    }
}

/// What answers a move, where the outside does what it asks for.
fn respond(
    alloc: Global,
    made: NodeMove,
    scope: &mut Scope,
    world: &mut MemoryWorld,
    sites: &[SiteInfo],
    reads: &mut Reads<'_>,
    text: &mut String,
) -> Result<Answer, StepError>
    requires may { MayBeDone (held_in scope.old) (places_of sites.now) made }
    requires room { 0 < room_in scope.old }
    requires open { (base : List Open) × IsOpen (places_of sites.now) base (held_in scope.old) (live_in world.old) }
    ensures answers { (p q : Part) → GoesNode (places_of sites.now) made p q → Kept p q → IsOnBytes q.takes → AreHeld (held_in scope.old) p
        → IsAnswered (held_in scope.new) q result }
    ensures room { room_in scope.old ≤ room_in scope.new + 1 }
    ensures open { (base : List Open) → IsOpen (places_of sites.now) base (held_in scope.old) (live_in world.old) → IsOpen (places_of sites.now) base (held_in scope.new) (live_in world.new) }
{
    held_tickets();
    match made {
        NodeMove::Emit(chunk) => {
            drop(chunk);
            Ok(Answer::Next(NodeInput::Next))
        }
        NodeMove::Need => match reads.coming.next(alloc)? {
            Coming::Bytes(chunk) => Ok(Answer::Next(NodeInput::Chunk(chunk))),
            Coming::End => Ok(Answer::Next(NodeInput::End)),
            Coming::Nothing => Ok(Answer::Waits),
        },
        NodeMove::Acquire(site) => match acquire(world, sites, scope, site) {
            Ok(ticket) => Ok(Answer::Next(NodeInput::Acquired(ticket))),
            Err(fault) => Err(refused(text, fault)),
        },
        NodeMove::Read { site, descriptor } => match reads.read(alloc, world, site, descriptor) {
            Ok(Some(told)) => Ok(Answer::Next(told)),
            Ok(None) => Err(StepError::OutOfTurn),
            Err(fault) => Err(refused(text, fault)),
        },
        NodeMove::Write {
            site,
            descriptor,
            chunk,
        } => match write_chunk(world, site, descriptor, chunk) {
            Ok(()) => Ok(Answer::Next(NodeInput::Wrote)),
            Err(fault) => Err(refused(text, fault)),
        },
        NodeMove::Release(ticket) => match release(world, scope, ticket) {
            Ok(()) => Ok(Answer::Next(NodeInput::Closed)),
            Err(fault) => Err(refused(text, fault)),
        },
        NodeMove::Done { value, rest } => {
            let printed = print_value(alloc, world, &value);
            drop((value, rest));
            match printed {
                Ok(()) => Ok(Answer::Over),
                Err(fault) => Err(refused(text, fault)),
            }
        }
        NodeMove::Fault(fault) => {
            drop(fault);
            Ok(Answer::Over)
        }
    }
}

/// Steps a tree until it ends, or nothing comes, or it has taken so many steps.
fn step_all(
    alloc: Global,
    node: &mut Node,
    scope: &mut Scope,
    world: &mut MemoryWorld,
    sites: &[SiteInfo],
    reads: &mut Reads<'_>,
    steps: u32,
    text: &mut String,
) -> Result<Stopped, StepError>
    requires ready { IsReadyNode node.old }
    requires stands { StandsAt node.old (places_of sites.now) }
    requires room { steps ≤ room_in scope.old }
    requires open { (base : List Open) × IsOpen (places_of sites.now) base (held_in scope.old) (live_in world.old) }
    ensures well { IfOk result (λ x. IsWell node.new) }
    ensures held { AreHeld (held_in scope.new) (seen node.new) }
    ensures open { (base : List Open) → IsOpen (places_of sites.now) base (held_in scope.old) (live_in world.old) → IsOpen (places_of sites.now) base (held_in scope.new) (live_in world.new) }
{
    let mut told = Ok(());
    let mut input = NodeInput::Start;
    for _ in 0..steps {
        told = told.and(push_given(text, &input));
        let Ok(made) = node.step(alloc, input) else {
            return Err(StepError::NoMemory);
        };
        told = told.and(push_made(text, &made));
        match respond(alloc, made, scope, world, sites, reads, text) {
            Ok(Answer::Next(next)) => input = next,
            Ok(Answer::Waits) => return told.and(Ok(Stopped::Between)),
            Ok(Answer::Over) => return told.and(Ok(Stopped::AtEnd)),
            Err(error) => return told.and(Err(error)),
        }
    }
    give_up(input, scope);
    told.and(Ok(Stopped::Between))
}

/// Gives a tree up: what it gives back is a line where it is retired between two steps.
fn leave(
    node: Node,
    scope: &mut Scope,
    stepped: Result<Stopped, StepError>,
    leaving: Leaving,
    text: &mut String,
) -> Result<(), StepError>
    requires well { IfOk stepped (λ x. IsWell node) }
    requires held { AreHeld (held_in scope.old) (seen node) }
    ensures { scope.new ≡ scope.old }
{
    match (stepped, leaving) {
        (Ok(Stopped::Between), Leaving::Retire) => {
            let rest = node.retire(scope);
            let told = push_back(text, &rest);
            drop(rest);
            told
        }
        (Ok(_), _) | (Err(StepError::Refused), _) => {
            node.abandon(scope);
            Ok(())
        }
        (Err(error), _) => {
            node.abandon(scope);
            Err(error)
        }
    }
}

/// Runs a tree in a scope of its own.
fn run(
    alloc: Global,
    node: Node,
    sites: &[SiteInfo],
    members: &[Member<'_>],
    reads: Reads<'_>,
    pace: Pace,
) -> Result<TreeRun, StepError>
    requires ready { IsReadyNode node }
    requires stands { StandsAt node (places_of sites.now) }
{
    let mut node = node;
    let mut reads = reads;
    let Ok(mut world) = world_of(alloc, members) else {
        node.give_up();
        return Err(StepError::NoMemory);
    };
    let Ok(mut scope) = Scope::new(alloc, pace.steps) else {
        node.give_up();
        drop(world);
        return Err(StepError::NoMemory);
    };
    let mut moves = String::new(alloc);
    let begun = moves.push_str("\n").map_err(StepError::from);
    let stepped = step_all(
        alloc, &mut node, &mut scope, &mut world, sites, &mut reads, pace.steps, &mut moves,
    );
    let left = leave(node, &mut scope, stepped, pace.leaving, &mut moves);
    let finished = scope.finish(&mut world);
    match begun.and(left).and(calls_of(alloc, &world)) {
        Ok(calls) => Ok(TreeRun {
            moves,
            calls,
            world,
            finished,
        }),
        Err(error) => {
            drop((moves, world, finished));
            Err(error)
        }
    }
}

/// Runs the tree of a script's first statement over these files and streams.
pub fn run_tree(
    alloc: Global,
    script: &str,
    members: &[Member<'_>],
    pace: Pace,
) -> Result<TreeRun, StepError> {
    let Tree { node, typed } = tree_of(alloc, script)?;
    let reads = Reads::new(pace.size, pace.limit, Given::new("", 1, true));
    let made = run(alloc, node, typed.sites().as_slice(), members, reads, pace);
    drop(typed);
    made
}

/// Runs a tree of element words on bytes, on what comes to it.
pub fn run_on_bytes(
    alloc: Global,
    script: &str,
    given: Given<'_>,
    steps: u32,
) -> Result<TreeRun, StepError> {
    let OnBytes { node, exact: _ } = tree_on_bytes(alloc, script)?;
    let pace = Pace {
        size: 1,
        limit: 0,
        steps,
        leaving: Leaving::Retire,
    };
    run(alloc, node, &[], &[], Reads::new(1, 0, given), pace)
}
