// Small writes of a site that are gathered into one.
ghost use Rattle.std.specs.Prelude.{◌≡◌, ◌⊎◌, ◌<◌, ◌++◌, [], ℕ, List, map, length, Contains, IsTrue, IfOk, OnOk, OnErr, Err};
ghost use Rattle.cd_meaning.specs.Places.{Place};
ghost use Rattle.cd_meaning.specs.Stream.{Put};
ghost use Rattle.cd_world.specs.declared.event.Use.TheVariants.{Writing};
ghost use Rattle.cd_world.specs.Live.{Open, IsLive};
ghost use Rattle.cd_scope.specs.declared.table.Held.{Held};
ghost use Rattle.cd_scope.specs.Calls.{held_at};
ghost use Rattle.cd_scope.specs.Due.{Setting};
ghost use Rattle.cd_scope.specs.Table.{IsOpen};
ghost use Rattle.cd_scope.specs.Uses.{WritesAt};
ghost use Rattle.cd_run.specs.Ends.{HasFault};
ghost use Rattle.cd_run.specs.Gathers.{IsFor, MayWrite, MovesTo, waiting, waits_on};
ghost use Rattle.cd_run.specs.Going.{outside};
ghost use Rattle.cd_run.specs.declared.fault.RunFault.TheVariants as fault;

use crate::fault::RunFault;
use crate::write::write_all;
use cd_elem::Site;
use cd_node::NodeMove;
use cd_world::{Descriptor, World};
use std::alloc::{AllocError, Global};

/// How many bytes may wait.
const ROOM: usize = 65_536;

/// So many bytes or more are not copied: they are written by themselves.
const WHOLE: usize = 16_384;

/// Bytes of one site that are due and wait to be written. They go out before each call that is no write, before a write of
/// another site, and before a statement waits, stops or ends.
#[derive(Drop)]
pub struct Gathered {
    site: Site,
    to: Descriptor,
    bytes: Vec<u8>,
}

impl Gathered {
    /// None wait yet. All the memory for them is reserved here.
    pub fn new(alloc: Global) -> Result<Gathered, AllocError> {
        Ok(Gathered {
            site: Site(0),
            to: Descriptor(1),
            bytes: Vec::with_capacity(alloc, ROOM)?,
        })
    }

    /// Lets go what waits: nothing does at the start of a statement.
    pub fn clear(&mut self)
        ensures { self.new.bytes.items ≡ [] }
    {
        self.bytes.clear();
    }

    /// Writes all that waits.
    pub fn write_out<W: World>(&mut self, world: &mut W) -> Result<(), RunFault>
        requires writable { MayWrite (W.live world.old) self.old }
        ensures none { self.new.bytes.items ≡ [] }
        ensures live { W.live world.new ≡ W.live world.old }
        ensures cause { HasFault (W.faults world.old) (W.faults world.new) result }
        ensures told { IsTrue W.tells_log → (g : Setting) (base : List Open) (t : List Held) → g.tells ≡ W.tells_files → IsOpen g.place base t (W.live world.old) → IsFor g.place t self.old
            → MovesTo g t result (waiting self.old) [] (outside (W.log world.old) (W.files world.old)) (outside (W.log world.new) (W.files world.new)) }
    {
        if self.bytes.is_empty() {
            return Ok(());
        }
        let answer = write_all(world, self.site, self.to, self.bytes.as_slice());
        self.bytes.clear();
        answer
    }

    /// Writes all that waits, unless this move lets it wait on.
    pub fn write_before<W: World>(&mut self, world: &mut W, made: &NodeMove) -> Result<(), RunFault>
        requires writable { MayWrite (W.live world.old) self.old }
        ensures waits { IfOk result (λ done. waiting self.new ≡ waits_on made.now (waiting self.old)) }
        ensures stays { (place : ℕ → Place) (t : List Held) → IsFor place t self.old → IsFor place t self.new }
        ensures live { W.live world.new ≡ W.live world.old }
        ensures cause { HasFault (W.faults world.old) (W.faults world.new) result }
        ensures told { IsTrue W.tells_log → (g : Setting) (base : List Open) (t : List Held) → g.tells ≡ W.tells_files → IsOpen g.place base t (W.live world.old) → IsFor g.place t self.old
            → MovesTo g t result (waiting self.old) (waiting self.new) (outside (W.log world.old) (W.files world.old)) (outside (W.log world.new) (W.files world.new)) }
    {
        match made {
            NodeMove::Emit(_) | NodeMove::Need | NodeMove::Write { .. } => Ok(()),
            NodeMove::Acquire(_)
            | NodeMove::Read { .. }
            | NodeMove::Release(_)
            | NodeMove::Done { .. }
            | NodeMove::Fault(_) => self.write_out(world),
        }
    }

    /// Whether these bytes may wait behind those that do.
    fn takes(&self, site: Site, to: Descriptor, bytes: &[u8]) -> bool
        ensures { IsTrue result → (self.now.bytes.items ≡ []) ⊎ ((self.now.site ≡ site) × (self.now.to ≡ to)) }
    {
        bytes.len() < WHOLE
            && (self.bytes.is_empty()
                || self.site == site && self.to == to && self.bytes.len() < ROOM - WHOLE)
    }

    /// These bytes wait behind those that do.
    fn add(&mut self, site: Site, to: Descriptor, bytes: &[u8]) -> Result<(), RunFault>
        requires same { (self.old.bytes.items ≡ []) ⊎ ((self.old.site ≡ site) × (self.old.to ≡ to)) }
        ensures waits { OnOk result (waiting self.new ≡ waiting self.old ++ map (Put site.0) bytes.now) }
        ensures site { (self.new.site ≡ site) × (self.new.to ≡ to) }
        ensures err { OnErr result (result ≡ Err fault.NoMemory) }
    {
        self.site = site;
        self.to = to;
        match self.bytes.extend_from_slice(bytes) {
            Ok(()) => Ok(()),
            Err(_) => Err(RunFault::NoMemory),
        }
    }

    /// Takes bytes that are due behind those that wait: to wait too, or to be written.
    pub fn put<W: World>(
        &mut self,
        world: &mut W,
        site: Site,
        to: Descriptor,
        bytes: &[u8],
    ) -> Result<(), RunFault>
        requires waits { MayWrite (W.live world.old) self.old }
        requires writable { (to.0 ≡ 1) ⊎ IsLive Writing to (W.live world.old) }
        ensures stays { (place : ℕ → Place) (t : List Held) → IsFor place t self.old → WritesAt (place site.0) to.0 (Contains t (held_at site.0 to)) → IsFor place t self.new }
        ensures live { W.live world.new ≡ W.live world.old }
        ensures cause { HasFault (W.faults world.old) (W.faults world.new) result }
        ensures told { IsTrue W.tells_log → (g : Setting) (base : List Open) (t : List Held) → g.tells ≡ W.tells_files → IsOpen g.place base t (W.live world.old) → IsFor g.place t self.old
            → WritesAt (g.place site.0) to.0 (Contains t (held_at site.0 to))
            → MovesTo g t result (waiting self.old ++ map (Put site.0) bytes.now) (waiting self.new) (outside (W.log world.old) (W.files world.old)) (outside (W.log world.new) (W.files world.new)) }
    {
        if self.takes(site, to, bytes) {
            return self.add(site, to, bytes);
        }
        match self.write_out(world) {
            Ok(()) => {}
            Err(fault) => return Err(fault),
        }
        if bytes.len() < WHOLE {
            self.add(site, to, bytes)
        } else {
            write_all(world, site, to, bytes)
        }
    }
}
