// The calls of a scope, as steps of a run.
ghost use Rattle.std.specs.Prelude.{◌≡◌, ◌≢◌, ◌<◌, ◌+◌, ◌∷◌, [], ℕ, List, Contains, IsTrue, IfOk, OnErr, OnOk};
ghost use Rattle.cd_meaning.specs.Places.{Place};
ghost use Rattle.cd_meaning.specs.Stream.{Open as OpenSite, Close as CloseSite};
ghost use Rattle.cd_typed.specs.Sites.{place_of};
ghost use Rattle.cd_world.specs.declared.event.Descriptor.{Descriptor};
ghost use Rattle.cd_world.specs.Live.{Open};
ghost use Rattle.cd_scope.specs.declared.table.Held.{Held as HeldItem};
ghost use Rattle.cd_scope.specs.Calls.{held_at, without};
ghost use Rattle.cd_scope.specs.Due.{Setting};
ghost use Rattle.cd_scope.specs.State.{held_in, room_in};
ghost use Rattle.cd_scope.specs.Table.{Acquires, IsHeldBy, IsOpen, descriptor_at};
ghost use Rattle.cd_scope.specs.Uses.{HasFile};
ghost use Rattle.cd_run.specs.Ends.{HasFault, Moves};
ghost use Rattle.cd_run.specs.Going.{outside, places_of};
ghost use Rattle.cd_run.specs.Statements.{Holds};

use crate::fault::RunFault;
use cd_elem::Site;
use cd_scope::{AcquireError, CloseFault, Scope, Ticket};
use cd_typed::SiteInfo;
use cd_world::World;

/// What a site is. Sites count from 1.
pub fn info_of(sites: &[SiteInfo], site: Site) -> &SiteInfo
    requires { HasFile (places_of sites.now site.0) }
    ensures { place_of result.now ≡ places_of sites.now site.0 }
{
    &sites[site.0 as usize - 1]
}

/// Opens the file of a site.
pub fn acquire<W: World>(
    world: &mut W,
    sites: &[SiteInfo],
    scope: &mut Scope,
    site: Site,
) -> Result<Ticket, RunFault>
    requires file { HasFile (places_of sites.now site.0) }
    requires room { 0 < room_in scope.old }
    ensures table { Acquires site.0 result (held_in scope.old) (held_in scope.new) }
    ensures site { IfOk result (λ ticket. ticket.site ≡ site) }
    ensures less_room { OnOk result (room_in scope.new + 1 ≡ room_in scope.old) }
    ensures same_room { OnErr result (room_in scope.new ≡ room_in scope.old) }
    ensures open { (base : List Open) → IsOpen (places_of sites.now) base (held_in scope.old) (W.live world.old) → IsOpen (places_of sites.now) base (held_in scope.new) (W.live world.new) }
    ensures cause { HasFault (W.faults world.old) (W.faults world.new) result }
    ensures told { IsTrue W.tells_log → (g : Setting) (base : List Open) → g.place ≡ places_of sites.now → g.tells ≡ W.tells_files → IsOpen (places_of sites.now) base (held_in scope.old) (W.live world.old)
        → Moves g (held_in scope.old) (held_in scope.new) result (OpenSite site.0 ∷ []) (outside (W.log world.old) (W.files world.old)) (outside (W.log world.new) (W.files world.new)) }
{
    match scope.acquire(world, site, info_of(sites, site)) {
        Ok(ticket) => Ok(ticket),
        Err(AcquireError::AcquireFault { site }) => Err(RunFault::AcquireFault { site }),
        Err(AcquireError::NoMemory) => Err(RunFault::NoMemory),
    }
}

/// Closes the file of a ticket. It takes no memory.
pub fn release<W: World>(world: &mut W, scope: &mut Scope, ticket: Ticket) -> Result<(), RunFault>
    requires there { IsHeldBy ticket (held_in scope.old) }
    requires open { (place : ℕ → Place) × (base : List Open) × IsOpen place base (held_in scope.old) (W.live world.old) }
    ensures table { held_in scope.new ≡ without ticket.site.0 ticket.descriptor (held_in scope.old) }
    ensures others { (h : HeldItem) → h.site.0 ≢ ticket.site.0 → Contains (held_in scope.old) h → Contains (held_in scope.new) h }
    ensures room { room_in scope.new ≡ room_in scope.old }
    ensures open { (place : ℕ → Place) (base : List Open) → IsOpen place base (held_in scope.old) (W.live world.old) → IsOpen place base (held_in scope.new) (W.live world.new) }
    ensures cause { HasFault (W.faults world.old) (W.faults world.new) result }
    ensures told { IsTrue W.tells_log → (g : Setting) (base : List Open) → g.tells ≡ W.tells_files → IsOpen g.place base (held_in scope.old) (W.live world.old)
        → Moves g (held_in scope.old) (held_in scope.new) result (CloseSite ticket.site.0 ∷ []) (outside (W.log world.old) (W.files world.old)) (outside (W.log world.new) (W.files world.new)) }
{
    match scope.release(world, ticket) {
        Ok(()) => Ok(()),
        Err(CloseFault { site }) => Err(RunFault::CloseFault { site }),
    }
}

/// Opens the file of a held key, and leaves it to the scope.
pub fn hold<W: World>(
    world: &mut W,
    sites: &[SiteInfo],
    scope: &mut Scope,
    site: Site,
) -> Result<(), RunFault>
    requires file { HasFile (places_of sites.now site.0) }
    requires room { 0 < room_in scope.old }
    ensures table { Holds site.0 result (held_in scope.old) (held_in scope.new) }
    ensures less_room { OnOk result (room_in scope.new + 1 ≡ room_in scope.old) }
    ensures same_room { OnErr result (room_in scope.new ≡ room_in scope.old) }
    ensures open { (base : List Open) → IsOpen (places_of sites.now) base (held_in scope.old) (W.live world.old) → IsOpen (places_of sites.now) base (held_in scope.new) (W.live world.new) }
    ensures cause { HasFault (W.faults world.old) (W.faults world.new) result }
    ensures told { IsTrue W.tells_log → (g : Setting) (base : List Open) → g.place ≡ places_of sites.now → g.tells ≡ W.tells_files → IsOpen (places_of sites.now) base (held_in scope.old) (W.live world.old)
        → Moves g (held_in scope.old) (held_in scope.new) result (OpenSite site.0 ∷ []) (outside (W.log world.old) (W.files world.old)) (outside (W.log world.new) (W.files world.new)) }
{
    match acquire(world, sites, scope, site) {
        Ok(ticket) => {
            scope.leave(ticket);
            Ok(())
        }
        Err(fault) => Err(fault),
    }
}

/// Closes the file of a held key, whose ticket was left to the scope. It takes no memory.
pub fn release_key<W: World>(world: &mut W, scope: &mut Scope, site: Site) -> Result<(), RunFault>
    requires there { (d : Descriptor) × Contains (held_in scope.old) (held_at site.0 d) }
    requires open { (place : ℕ → Place) × (base : List Open) × IsOpen place base (held_in scope.old) (W.live world.old) }
    ensures others { (h : HeldItem) → h.site.0 ≢ site.0 → Contains (held_in scope.old) h → Contains (held_in scope.new) h }
    ensures room { room_in scope.new ≡ room_in scope.old }
    ensures open { (place : ℕ → Place) (base : List Open) → IsOpen place base (held_in scope.old) (W.live world.old) → IsOpen place base (held_in scope.new) (W.live world.new) }
    ensures cause { HasFault (W.faults world.old) (W.faults world.new) result }
    ensures told { IsTrue W.tells_log → (g : Setting) (base : List Open) → g.tells ≡ W.tells_files → IsOpen g.place base (held_in scope.old) (W.live world.old)
        → Moves g (held_in scope.old) (held_in scope.new) result (CloseSite site.0 ∷ []) (outside (W.log world.old) (W.files world.old)) (outside (W.log world.new) (W.files world.new)) }
{
    match scope.release_site(world, site) {
        Ok(()) => Ok(()),
        Err(CloseFault { site }) => Err(RunFault::CloseFault { site }),
    }
}
