// A statement's run.
ghost use Rattle.std.specs.Prelude.{◌≡◌, ◌<◌, ◌≤◌, ◌+◌, ℕ, List, Contains, true, false, IsTrue, IfOk, length, get_or};
ghost use Rattle.cd_elem.specs.Limits.{chunk_limit};
ghost use Rattle.cd_meaning.specs.Run.{Run};
ghost use Rattle.cd_meaning.specs.RunShapes.{Seen};
ghost use Rattle.cd_meaning.specs.Stream.{Value as Answer};
ghost use Rattle.cd_world.specs.Live.{Open};
ghost use Rattle.cd_step.specs.Parts.{Fresh};
ghost use Rattle.cd_scope.specs.declared.table.Held.{Held as HeldItem};
ghost use Rattle.cd_scope.specs.Due.{Setting};
ghost use Rattle.cd_scope.specs.State.{held_in, room_in};
ghost use Rattle.cd_scope.specs.Table.{IsHeldBy, IsOpen};
ghost use Rattle.cd_node.specs.Nodes.{AnswersNode, AreHeld, fed_node};
ghost use Rattle.cd_node.specs.declared.protocol.NodeMove.TheVariants as moves;
ghost use Rattle.cd_run.specs.Ends.{HasFault};
ghost use Rattle.cd_run.specs.Going.{Outside, Going, outside, places_of};
ghost use Rattle.cd_run.specs.Paused.{IsPaused, PausedAt, PausedSpends, Forgets, StillForgets};
ghost use Rattle.cd_run.specs.Statements.{IsLocal, OpensAtMost, RunTo, left_run, within};

use crate::buffers::Buffers;
use crate::calls::{acquire, release};
use crate::fault::RunFault;
use crate::node::StatementNode;
use crate::read::read_site;
use cd_elem::{Chunk, Site, Value};
use cd_node::{NodeInput, NodeMove};
use cd_scope::{Scope, Ticket};
use cd_typed::SiteInfo;
use cd_world::{Descriptor, World};
use std::alloc::Global;

/// What a statement gives goes nowhere: it has no output, and no input to give back.
fn discard(_chunk: Option<Chunk>) {}

/// Lets a move go that is not made, and leaves its ticket to the scope.
fn abandon_move(made: NodeMove, scope: &mut Scope)
    requires { (ticket : Ticket) → made ≡ moves.Release ticket → IsHeldBy ticket (held_in scope.old) }
    ensures { scope.new ≡ scope.old }
{
    match made {
        NodeMove::Release(ticket) => scope.leave(ticket),
        NodeMove::Emit(chunk) => drop(chunk),
        NodeMove::Write {
            site: _site,
            descriptor: _descriptor,
            chunk,
        } => drop(chunk),
        NodeMove::Done { value, rest } => {
            drop(value);
            drop(rest);
        }
        NodeMove::Need => {}
        NodeMove::Acquire(_site) => {}
        NodeMove::Read {
            site: _site,
            descriptor: _descriptor,
        } => {}
        NodeMove::Fault(_fault) => {}
    }
}

/// Where a statement stands: it waits for a site, with its descriptor, or has ended.
pub enum Pause {
    Waits(Site, Descriptor),
    Done(Value),
}

/// Runs up to the next read, or to the end.
fn advance<W: World, N: StatementNode>(
    alloc: Global,
    node: &mut N,
    world: &mut W,
    sites: &[SiteInfo],
    scope: &mut Scope,
    buffers: &mut Buffers,
    first: NodeInput,
) -> Result<Pause, RunFault>
    requires well { N.well node.old }
    requires answers { AnswersNode (N.seen node.old) first }
    requires stands { N.stands node.old (places_of sites.now) }
    requires held { AreHeld (held_in scope.old) (fed_node first (N.seen node.old)) }
    requires room { OpensAtMost (fed_node first (N.seen node.old)) (room_in scope.old) }
    requires open { (base : List Open) × IsOpen (places_of sites.now) base (held_in scope.old) (W.live world.old) }
    ensures well { IfOk result (λ p. N.well node.new) }
    ensures sites { (N.seen node.new).sites ≡ (N.seen node.old).sites }
    ensures stands { N.stands node.new (places_of sites.now) }
    ensures held { AreHeld (held_in scope.new) (N.seen node.new) }
    ensures room { PausedSpends (fed_node first (N.seen node.old)) (room_in scope.old) result (N.seen node.new) (room_in scope.new) }
    ensures stays { (h : HeldItem) → (N.seen node.old).sites h.site.0 ≡ false → Contains (held_in scope.old) h → Contains (held_in scope.new) h }
    ensures spent { (most : ℕ) → OpensAtMost (fed_node first (N.seen node.old)) most → room_in scope.old ≤ room_in scope.new + most }
    ensures open { (base : List Open) → IsOpen (places_of sites.now) base (held_in scope.old) (W.live world.old) → IsOpen (places_of sites.now) base (held_in scope.new) (W.live world.new) }
    ensures cause { HasFault (W.faults world.old) (W.faults world.new) result }
    ensures paused { IsPaused (places_of sites.now) result (held_in scope.new) (N.seen node.new) }
    ensures forgets { (s : ℕ) → Forgets s (fed_node first (N.seen node.old)) → StillForgets s result (N.seen node.new) }
    ensures told { IsTrue W.tells_log → (g : Setting) (base : List Open) → g.place ≡ places_of sites.now → g.tells ≡ W.tells_files → IsOpen (places_of sites.now) base (held_in scope.old) (W.live world.old)
        → (m : Seen → Run) (left : List ℕ) (k : Seen → Answer → Run) (w0 : Outside) → Going g m (held_in scope.old) left (within (left_run (fed_node first (N.seen node.old))) k) w0 (outside (W.log world.old) (W.files world.old))
        → PausedAt g m result (held_in scope.new) left (N.seen node.new) k w0 (outside (W.log world.new) (W.files world.new)) }
{
    buffers.gathered.clear();
    let mut input = first;
    loop {
        let Ok(made) = node.step(alloc, input) else {
            return Err(RunFault::NoMemory);
        };
        match buffers.gathered.write_before(world, &made) {
            Ok(()) => {}
            Err(fault) => {
                abandon_move(made, scope);
                return Err(fault);
            }
        }
        input = match made {
            NodeMove::Emit(chunk) => {
                discard(Some(chunk));
                NodeInput::Next
            }
            NodeMove::Need => NodeInput::End,
            NodeMove::Acquire(site) => match acquire(world, sites, scope, site) {
                Ok(ticket) => NodeInput::Acquired(ticket),
                Err(fault) => return Err(fault),
            },
            NodeMove::Read { site, descriptor } => return Ok(Pause::Waits(site, descriptor)),
            NodeMove::Write {
                site,
                descriptor,
                chunk,
            } => match buffers.put(world, site, descriptor, chunk) {
                Ok(()) => NodeInput::Wrote,
                Err(fault) => return Err(fault),
            },
            NodeMove::Release(ticket) => match release(world, scope, ticket) {
                Ok(()) => NodeInput::Closed,
                Err(fault) => return Err(fault),
            },
            NodeMove::Done { value, rest } => {
                discard(rest);
                return Ok(Pause::Done(value));
            }
            NodeMove::Fault(fault) => return Err(RunFault::Decode(fault)),
        };
    }
}

/// Runs a node to its end.
fn run_to_end<W: World, N: StatementNode>(
    alloc: Global,
    node: &mut N,
    world: &mut W,
    sites: &[SiteInfo],
    scope: &mut Scope,
    buffers: &mut Buffers,
    left: &mut [u64],
    size: usize,
) -> Result<Value, RunFault>
    requires well { N.well node.old }
    requires fresh { (N.seen node.old).at ≡ Fresh }
    requires stands { N.stands node.old (places_of sites.now) }
    requires within { (s : ℕ) → (N.seen node.old).sites s ≡ true → s < length left.old }
    requires left { (s : ℕ) → s < length left.old → get_or left.old s 0 ≡ 0 → Forgets s (N.seen node.old) }
    requires size { (0 < size) × (size ≤ chunk_limit) }
    requires held { AreHeld (held_in scope.old) (N.seen node.old) }
    requires room { OpensAtMost (N.seen node.old) (room_in scope.old) }
    requires open { (base : List Open) × IsOpen (places_of sites.now) base (held_in scope.old) (W.live world.old) }
    ensures held { AreHeld (held_in scope.new) (N.seen node.new) }
    ensures stays { (h : HeldItem) → (N.seen node.old).sites h.site.0 ≡ false → Contains (held_in scope.old) h → Contains (held_in scope.new) h }
    ensures spent { (most : ℕ) → OpensAtMost (N.seen node.old) most → room_in scope.old ≤ room_in scope.new + most }
    ensures open { (base : List Open) → IsOpen (places_of sites.now) base (held_in scope.old) (W.live world.old) → IsOpen (places_of sites.now) base (held_in scope.new) (W.live world.new) }
    ensures cause { HasFault (W.faults world.old) (W.faults world.new) result }
    ensures others { (s : ℕ) → (N.seen node.old).sites s ≡ false → get_or left.new s 0 ≡ get_or left.old s 0 }
    ensures told { IsTrue W.tells_log → (g : Setting) (base : List Open) → g.place ≡ places_of sites.now → g.tells ≡ W.tells_files → g.size ≡ size → IsOpen (places_of sites.now) base (held_in scope.old) (W.live world.old)
        → (m : Seen → Run) (k : Seen → Answer → Run) (w0 : Outside) → Going g m (held_in scope.old) left.old (within (left_run (N.seen node.old)) k) w0 (outside (W.log world.old) (W.files world.old))
        → RunTo g m result (held_in scope.new) left.new k w0 (outside (W.log world.new) (W.files world.new)) }
{
    let mut input = NodeInput::Start;
    loop {
        let pause = match advance(alloc, node, world, sites, scope, buffers, input) {
            Ok(pause) => pause,
            Err(fault) => return Err(fault),
        };
        let (site, descriptor) = match pause {
            Pause::Waits(site, descriptor) => (site, descriptor),
            Pause::Done(value) => return Ok(value),
        };
        input = match read_site(
            alloc,
            world,
            &mut buffers.lists,
            left,
            site,
            descriptor,
            size,
        ) {
            Ok(told) => told,
            Err(fault) => return Err(fault),
        };
    }
}

/// Runs a statement's node to its end, and gives it up. `left` has for each site how many bytes may still be read of it, and
/// one more; `size` is how many a read asks for at most.
pub fn run_node<W: World, N: StatementNode>(
    alloc: Global,
    node: N,
    world: &mut W,
    sites: &[SiteInfo],
    scope: &mut Scope,
    buffers: &mut Buffers,
    left: &mut [u64],
    size: usize,
) -> Result<Value, RunFault>
    requires well { N.well node }
    requires fresh { (N.seen node).at ≡ Fresh }
    requires stands { N.stands node (places_of sites.now) }
    requires within { (s : ℕ) → (N.seen node).sites s ≡ true → (s < length left.old) × (0 < get_or left.old s 0) }
    requires local { IsLocal (N.seen node) }
    requires size { (0 < size) × (size ≤ chunk_limit) }
    requires held { AreHeld (held_in scope.old) (N.seen node) }
    requires room { OpensAtMost (N.seen node) (room_in scope.old) }
    requires open { (base : List Open) × IsOpen (places_of sites.now) base (held_in scope.old) (W.live world.old) }
    ensures stays { (h : HeldItem) → (N.seen node).sites h.site.0 ≡ false → Contains (held_in scope.old) h → Contains (held_in scope.new) h }
    ensures spent { (most : ℕ) → OpensAtMost (N.seen node) most → room_in scope.old ≤ room_in scope.new + most }
    ensures open { (base : List Open) → IsOpen (places_of sites.now) base (held_in scope.old) (W.live world.old) → IsOpen (places_of sites.now) base (held_in scope.new) (W.live world.new) }
    ensures cause { HasFault (W.faults world.old) (W.faults world.new) result }
    ensures others { (s : ℕ) → (N.seen node).sites s ≡ false → get_or left.new s 0 ≡ get_or left.old s 0 }
    ensures told { IsTrue W.tells_log → (g : Setting) (base : List Open) → g.place ≡ places_of sites.now → g.tells ≡ W.tells_files → g.size ≡ size → IsOpen (places_of sites.now) base (held_in scope.old) (W.live world.old)
        → (m : Seen → Run) (k : Seen → Answer → Run) (w0 : Outside) → Going g m (held_in scope.old) left.old (within (left_run (N.seen node)) k) w0 (outside (W.log world.old) (W.files world.old))
        → RunTo g m result (held_in scope.new) left.new k w0 (outside (W.log world.new) (W.files world.new)) }
{
    let mut node = node;
    let answer = run_to_end(alloc, &mut node, world, sites, scope, buffers, left, size);
    node.abandon(scope);
    answer
}
