// A word with a site in a scope over a world in memory, with a line for each input and each move.
ghost use Rattle.std.specs.Prelude.{◌≡◌, ◌<◌, ◌≤◌, ◌+◌, ◌==◌, ℕ, List, IfOk, IsOk};
ghost use Rattle.cd_meaning.specs.Places.{Place};
ghost use Rattle.cd_step.specs.Parts.{Kept, Part};
ghost use Rattle.cd_typed.specs.Sites.{place_of};
ghost use Rattle.cd_world.specs.Live.{Open};
ghost use Rattle.cd_world.specs.Memory.{live_in};
ghost use Rattle.cd_scope.specs.State.{held_in, room_in};
ghost use Rattle.cd_scope.specs.Table.{IsOpen};
ghost use Rattle.cd_scope.specs.Uses.{HasFile};
ghost use Rattle.cd_node.specs.Nodes.{AnswersNode, AreHeld, GoesNode, HasNoTicket, NodeStepped, fed_node};
ghost use Rattle.cd_node.specs.declared.protocol.NodeInput.TheVariants as given;
ghost use Rattle.test_callers.specs.Leaves.{AnswersMove, IsInputHeld, IsOnBytes, MayAnswer, leaf_fits, leaf_stands, seen_leaf, word_use};

use crate::given::{Coming, Given};
use crate::lines::StepError;
use crate::node_lines::{push_given, push_made};
use crate::sites::{Member, site_of, world_of};
use cd_elem::{Chunk, NoMemory, Site};
use cd_node::{NodeInput, NodeMove, Sink, Source, held_tickets};
use cd_run::StatementNode;
use cd_scope::{AcquireError, Finished, Scope};
use cd_typed::{SiteInfo, SiteUse};
use cd_world::{Fail, MemoryWorld};
use std::alloc::Global;

/// More steps than any row has.
const MOST: u32 = 100;

#[derive(Clone, Copy)]
pub enum LeafWord {
    SourceFile,
    Stdin,
    SinkFile,
    Stdout,
}

/// A word with a site.
pub enum Leaf {
    Source(Source),
    Sink(Sink),
}

/// What a word did, and what its scope told.
#[derive(Drop)]
pub struct LeafRun {
    pub text: String,
    pub finished: Finished,
}

impl Leaf {
    pub fn new(word: LeafWord, info: &SiteInfo) -> Leaf
        requires { info.now.use_of ≡ word_use word }
        ensures fit { leaf_fits result }
        ensures fresh { AnswersNode (seen_leaf result) given.Start }
        ensures stands { (place : ℕ → Place) → place 1 ≡ place_of info.now → leaf_stands result place }
        ensures sites { (s : ℕ) → (seen_leaf result).sites s ≡ (s == 1) }
        ensures no_ticket { HasNoTicket (seen_leaf result) }
    {
        match word {
            LeafWord::SourceFile => Leaf::Source(Source::file(Site(1))),
            LeafWord::Stdin => Leaf::Source(Source::stdin(Site(1))),
            LeafWord::SinkFile => Leaf::Sink(Sink::file(Site(1))),
            LeafWord::Stdout => Leaf::Sink(Sink::stdout(Site(1))),
        }
    }

    fn advance(&mut self, alloc: Global, input: NodeInput) -> Result<NodeMove, NoMemory>
        requires fit { leaf_fits self.old }
        requires answers { AnswersNode (seen_leaf self.old) input }
        ensures taken { IsOk result }
        ensures law { (place : ℕ → Place) → leaf_stands self.old place → IfOk result (λ m. NodeStepped place (seen_leaf self.old) input m (seen_leaf self.new)) }
        ensures fit { leaf_fits self.new }
        ensures kept { Kept (fed_node input (seen_leaf self.old)) (seen_leaf self.new) }
        ensures places { (place : ℕ → Place) → leaf_stands self.old place → leaf_stands self.new place }
    {
        match self {
            Leaf::Source(source) => source.step(alloc, input),
            Leaf::Sink(sink) => sink.step(alloc, input),
        }
    }

    fn retire(self, scope: &mut Scope) -> Option<Chunk>
        requires { AreHeld (held_in scope.old) (seen_leaf self) }
        ensures { scope.new ≡ scope.old }
    {
        match self {
            Leaf::Source(source) => source.retire(scope),
            Leaf::Sink(sink) => sink.retire(scope),
        }
    }
}

impl StatementNode for Leaf {
    ghost use Rattle.test_callers.specs.Leaves.{leaf_fits, leaf_stands, seen_leaf};

    ghost seen = { seen_leaf };

    ghost well = { leaf_fits };

    ghost stands = { leaf_stands };

    fn step(&mut self, alloc: Global, input: NodeInput) -> Result<NodeMove, NoMemory> {
        self.advance(alloc, input)
    }

    fn abandon(self, scope: &mut Scope) {
        let rest = self.retire(scope);
        drop(rest);
    }
}

/// What answers a move. None where the word has ended, or nothing comes; a refusal where the outside refuses its file.
fn respond(
    alloc: Global,
    made: NodeMove,
    scope: &mut Scope,
    world: &mut MemoryWorld,
    info: &SiteInfo,
    coming: &mut Given<'_>,
) -> Result<Option<NodeInput>, StepError>
    requires may { MayAnswer (held_in scope.old) (place_of info.now) made }
    requires room { 0 < room_in scope.old }
    requires open { (base : List Open) × IsOpen (λ s. place_of info.now) base (held_in scope.old) (live_in world.old) }
    ensures answers { (p q : Part) → GoesNode (λ s. place_of info.now) made p q → Kept p q → IsOnBytes q.takes → AreHeld (held_in scope.old) p
        → AnswersMove (held_in scope.new) q result }
    ensures room { room_in scope.old ≤ room_in scope.new + 1 }
    ensures open { (base : List Open) → IsOpen (λ s. place_of info.now) base (held_in scope.old) (live_in world.old) → IsOpen (λ s. place_of info.now) base (held_in scope.new) (live_in world.new) }
{
    held_tickets();
    match made {
        NodeMove::Emit(chunk) => {
            drop(chunk);
            Ok(Some(NodeInput::Next))
        }
        NodeMove::Need => match coming.next(alloc)? {
            Coming::Bytes(chunk) => Ok(Some(NodeInput::Chunk(chunk))),
            Coming::End => Ok(Some(NodeInput::End)),
            Coming::Nothing => Ok(None),
        },
        NodeMove::Acquire(site) => match scope.acquire(world, site, info) {
            Ok(ticket) => Ok(Some(NodeInput::Acquired(ticket))),
            Err(AcquireError::AcquireFault { .. }) => Err(StepError::Refused),
            Err(AcquireError::NoMemory) => Err(StepError::NoMemory),
        },
        NodeMove::Read {
            site: _,
            descriptor: _,
        } => match coming.next(alloc)? {
            Coming::Bytes(chunk) => Ok(Some(NodeInput::Gave(chunk))),
            Coming::End => Ok(Some(NodeInput::GaveEnd)),
            Coming::Nothing => Ok(None),
        },
        NodeMove::Write {
            site: _,
            descriptor: _,
            chunk,
        } => {
            drop(chunk);
            Ok(Some(NodeInput::Wrote))
        }
        NodeMove::Release(ticket) => match scope.release(world, ticket) {
            Ok(()) => Ok(Some(NodeInput::Closed)),
            Err(_) => Err(StepError::Refused),
        },
        NodeMove::Done { value, rest } => {
            drop((value, rest));
            Ok(None)
        }
        NodeMove::Fault(fault) => {
            drop(fault);
            Ok(None)
        }
    }
}

/// Leaves the ticket of an input that is not taken.
pub fn give_up(input: NodeInput, scope: &mut Scope)
    requires { IsInputHeld (held_in scope.old) input }
    ensures { scope.new ≡ scope.old }
{
    match input {
        NodeInput::Chunk(chunk) | NodeInput::Gave(chunk) => drop(chunk),
        NodeInput::Acquired(ticket) => scope.leave(ticket),
        NodeInput::Start
        | NodeInput::End
        | NodeInput::Next
        | NodeInput::GaveEnd
        | NodeInput::Wrote
        | NodeInput::Closed => {}
    }
}

/// Steps a word until it ends, or nothing comes.
fn step_all(
    alloc: Global,
    mut leaf: Leaf,
    scope: &mut Scope,
    world: &mut MemoryWorld,
    info: &SiteInfo,
    mut coming: Given<'_>,
    text: &mut String,
) -> Result<(), StepError>
    requires fit { leaf_fits leaf }
    requires fresh { AnswersNode (seen_leaf leaf) given.Start }
    requires stands { leaf_stands leaf (λ s. place_of info.now) }
    requires no_ticket { HasNoTicket (seen_leaf leaf) }
    requires room { 100 ≤ room_in scope.old }
    requires open { (base : List Open) × IsOpen (λ s. place_of info.now) base (held_in scope.old) (live_in world.old) }
    ensures open { (base : List Open) → IsOpen (λ s. place_of info.now) base (held_in scope.old) (live_in world.old) → IsOpen (λ s. place_of info.now) base (held_in scope.new) (live_in world.new) }
{
    let mut told = Ok(());
    let mut input = NodeInput::Start;
    for _ in 0..MOST {
        told = told.and(push_given(text, &input));
        let made = leaf.advance(alloc, input).unwrap();
        told = told.and(push_made(text, &made));
        match respond(alloc, made, scope, world, info, &mut coming) {
            Ok(Some(next)) => input = next,
            Ok(None) => {
                let rest = leaf.retire(scope);
                drop(rest);
                return told;
            }
            Err(error) => {
                let rest = leaf.retire(scope);
                drop(rest);
                return told.and(Err(error));
            }
        }
    }
    give_up(input, scope);
    let rest = leaf.retire(scope);
    drop(rest);
    Err(StepError::Unending)
}

pub fn use_of(word: LeafWord) -> SiteUse
    ensures { result ≡ word_use word }
{
    match word {
        LeafWord::SourceFile => SiteUse::Reading,
        LeafWord::Stdin => SiteUse::Stdin,
        LeafWord::SinkFile => SiteUse::Writing,
        LeafWord::Stdout => SiteUse::Stdout,
    }
}

/// What a word does at site 1, on the file `f` or a standard stream, where this is read or comes to it.
pub fn run_leaf(
    alloc: Global,
    word: LeafWord,
    failing: Option<Fail>,
    coming: Given<'_>,
) -> Result<LeafRun, StepError> {
    let member = Member {
        name: "f",
        bytes: "",
        cuts: &[],
        failing,
    };
    let mut world = world_of(alloc, &[member])?;
    let info = site_of(alloc, use_of(word), "f")?;
    let mut text = String::from_str(alloc, "\n")?;
    let mut scope = Scope::new(alloc, MOST)?;
    let stepped = step_all(
        alloc,
        Leaf::new(word, &info),
        &mut scope,
        &mut world,
        &info,
        coming,
        &mut text,
    );
    let finished = scope.finish(&mut world);
    let refused = match stepped {
        Err(StepError::Refused) => text.push_str("refused\n").map_err(StepError::from),
        other => other,
    };
    match refused {
        Ok(()) => Ok(LeafRun { text, finished }),
        Err(error) => {
            drop((text, finished));
            Err(error)
        }
    }
}
