// The resources of a run, in the order of acquiring.
ghost use Rattle.std.specs.Prelude.{◌≡◌, ◌≢◌, ◌<◌, ◌≤◌, ◌+◌, ◌++◌, ◌∷◌, [], ℕ, List, All, Contains, IfOk, IfSome, IsTrue, OnErr, OnOk, MatchOption, length, map, remove, slice_index_or, vec_capacity, vec_len};
ghost use Rattle.cd_meaning.specs.Places.{Place};
ghost use Rattle.cd_typed.specs.Sites.{place_of as place_with};
ghost use Rattle.cd_world.specs.Causes.{IsCounted};
ghost use Rattle.cd_world.specs.Events.{opened};
ghost use Rattle.cd_world.specs.Files.{after_open};
ghost use Rattle.cd_world.specs.Live.{Open, Opens};
ghost use Rattle.cd_world.specs.declared.event.Descriptor.{Descriptor};
ghost use Rattle.cd_scope.specs.declared.table.Held.{Held as HeldItem};
ghost use Rattle.cd_scope.specs.Calls.{Call, event, held_at, is_held as is_held_at, without};
ghost use Rattle.cd_scope.specs.Journal.{line_of, lines_of};
ghost use Rattle.cd_scope.specs.Table.{Acquires, AnswersAcquire, AnswersClose, Closes, ClosesWith, IsHeldBy, IsNew, IsOpen, RoseIfSome, acquiring, closing, descriptor_at, failed_at, open_of, opening_answer, or_first};
ghost use Rattle.cd_scope.specs.Uses.{use_at, name_at, HasFile};

use crate::errors::{AcquireError, CloseFault};
use crate::journal::{JournalLine, JournalList};
use crate::table::{Held, Ticket};
use cd_elem::{NoMemory, Roomy, Site};
use cd_typed::{SiteInfo, SiteUse};
use cd_world::{CloseFailed, Descriptor, World, WorldError};
use std::alloc::Global;

/// What a run has open. Nothing of it is closed by itself: it must be spent by `finish`, which closes what is left.
///
/// The call that opens a file is the only one that may want memory once a scope is made.
pub struct Scope {
    held: Vec<Held>,
    journal: JournalList,
    // how many resources may still be acquired
    room: u32,
    // the room for them, and for the lines of all that is open and may be
    ghost places: { vec_len held + room ≤ vec_capacity held },
    ghost lines: { vec_len held + room + room ≤ journal.1 },
}

/// What a scope told and met to its end.
#[derive(Drop)]
pub struct Finished {
    /// The site of the first close at the end that failed.
    pub first_fault: Option<Site>,
    pub journal: JournalList,
}

/// Opens the file of a site for what the site does.
fn open_file<W: World>(world: &mut W, info: &SiteInfo) -> Result<Descriptor, WorldError>
    requires file { HasFile (place_with info.now) }
    ensures count { IsCounted (W.faults world.old) (W.faults world.new) result }
    ensures live { Opens (use_at (place_with info.now)) (name_at (place_with info.now)) (W.live world.old) (W.live world.new) (W.last world.old) (W.last world.new) result }
    ensures log { IsTrue W.tells_log → W.log world.new ≡ W.log world.old ++ opened (use_at (place_with info.now)) (name_at (place_with info.now)) result }
    ensures files { IsTrue W.tells_files → W.files world.new ≡ after_open (use_at (place_with info.now)) (name_at (place_with info.now)) result (W.files world.old) }
{
    match info.use_of {
        SiteUse::Reading => world.open_read(info.name.as_str()),
        SiteUse::Writing => world.create(info.name.as_str()),
        SiteUse::Marking => world.mark(info.name.as_str()),
        SiteUse::Stdin | SiteUse::Stdout => unreachable!(),
    }
}

/// Whether this is held of this site with this descriptor.
fn is_held(held: &Held, site: Site, descriptor: Descriptor) -> bool
    ensures { result ≡ is_held_at site.0 descriptor held.now }
{
    held.site.0 == site.0 && held.descriptor.0 == descriptor.0
}

/// The place of what is held.
fn position_of(table: &[Held], site: Site, descriptor: Descriptor) -> usize
    requires { Contains table.now (held_at site.0 descriptor) }
    ensures within { result < length table.now }
    ensures is { (d : _) → slice_index_or table.now result d ≡ held_at site.0 descriptor }
    ensures first { remove table.now result ≡ without site.0 descriptor table.now }
{
    for place in 0..table.len() {
        if is_held(&table[place], site, descriptor) {
            return place;
        }
    }
    unreachable!()
}

/// The descriptor that is held of a site.
fn descriptor_of(table: &[Held], site: Site) -> Descriptor
    requires { (d : Descriptor) × Contains table.now (held_at site.0 d) }
    ensures is { result ≡ descriptor_at site.0 table.now }
    ensures there { Contains table.now (held_at site.0 result) }
{
    for held in table {
        if held.site.0 == site.0 {
            return held.descriptor;
        }
    }
    unreachable!()
}

/// Takes what was acquired last.
fn take_last(table: &mut Vec<Held>) -> Option<Held>
    ensures list { MatchOption result ((table.old.items ≡ []) × (table.new.items ≡ [])) (λ last. table.old.items ≡ table.new.items ++ last ∷ []) }
    ensures fewer { IfSome result (λ last. vec_len table.new + 1 ≡ vec_len table.old) }
{
    table.pop()
}

/// The site of the first close that failed, after one close more.
fn first_failed(failed: Option<Site>, closing: Result<(), CloseFailed>, site: Site) -> Option<Site>
    ensures { result ≡ or_first failed (failed_at site closing) }
{
    match (failed, closing) {
        (Some(first), _) => Some(first),
        (None, Ok(())) => None,
        (None, Err(_)) => Some(site),
    }
}

impl Scope {
    ghost use Rattle.cd_scope.specs.State.{held_in, journal_in, room_in};

    /// A scope that holds nothing yet, with room for so many resources.
    pub fn new(alloc: Global, sites: u32) -> Result<Scope, NoMemory>
        ensures held { IfOk result (λ scope. held_in scope ≡ []) }
        ensures journal { IfOk result (λ scope. journal_in scope ≡ []) }
        ensures room { IfOk result (λ scope. room_in scope ≡ sites) }
    {
        let mut held = Vec::new(alloc);
        held.reserve(sites as usize)?;
        let mut journal = Roomy::new(alloc);
        journal.reserve(2 * sites as usize)?;
        Ok(Scope {
            held,
            journal,
            room: sites,
        })
    }

    /// Opens the file of a site, which stays open until its ticket is released or the scope ends. On a refusal the scope is
    /// unchanged. The scope has room for one resource more.
    pub fn acquire<W: World>(
        &mut self,
        world: &mut W,
        site: Site,
        info: &SiteInfo,
    ) -> Result<Ticket, AcquireError>
        requires file { HasFile (place_with info.now) }
        requires room { 0 < room_in self.old }
        ensures answers { AnswersAcquire site (W.faults world.old) (W.faults world.new) result }
        ensures held { Acquires site.0 result (held_in self.old) (held_in self.new) }
        ensures journal { journal_in self.new ≡ journal_in self.old ++ lines_of (acquiring site.0 result) }
        ensures less_room { OnOk result (room_in self.new + 1 ≡ room_in self.old) }
        ensures same_room { OnErr result (room_in self.new ≡ room_in self.old) }
        ensures open { (place : ℕ → Place) (base : List Open) → place site.0 ≡ place_with info.now → IsOpen place base (held_in self.old) (W.live world.old)
            → IsOpen place base (held_in self.new) (W.live world.new) }
        ensures fresh { (place : ℕ → Place) (base : List Open) → IsOpen place base (held_in self.old) (W.live world.old) → IfOk result (λ ticket. IsNew ticket.descriptor (held_in self.old)) }
        ensures log { IsTrue W.tells_log → (place : ℕ → Place) → place site.0 ≡ place_with info.now → W.log world.new ≡ W.log world.old ++ map (event place) (acquiring site.0 result) }
        ensures files { IsTrue W.tells_files → W.files world.new ≡ after_open (use_at (place_with info.now)) (name_at (place_with info.now)) (opening_answer result) (W.files world.old) }
    {
        match open_file(world, info) {
            Ok(descriptor) => {
                self.held.push_reserved(Held { site, descriptor });
                self.journal.push(JournalLine::Acquired(site)).unwrap();
                self.room -= 1;
                Ok(Ticket { site, descriptor })
            }
            Err(WorldError::Failed) => Err(AcquireError::AcquireFault { site }),
            Err(WorldError::NoMemory) => Err(AcquireError::NoMemory),
        }
    }

    /// Closes what is held of a site, whatever the outside answers.
    fn close<W: World>(
        &mut self,
        world: &mut W,
        site: Site,
        descriptor: Descriptor,
    ) -> Result<(), CloseFault>
        requires there { Contains (held_in self.old) (held_at site.0 descriptor) }
        requires open { (place : ℕ → Place) × (base : List Open) × IsOpen place base (held_in self.old) (W.live world.old) }
        ensures answers { AnswersClose site (W.faults world.old) (W.faults world.new) result }
        ensures held { held_in self.new ≡ without site.0 descriptor (held_in self.old) }
        ensures journal { journal_in self.new ≡ journal_in self.old ++ line_of (closing site.0 descriptor result) }
        ensures room { room_in self.new ≡ room_in self.old }
        ensures open { (place : ℕ → Place) (base : List Open) → IsOpen place base (held_in self.old) (W.live world.old) → IsOpen place base (held_in self.new) (W.live world.new) }
        ensures log { IsTrue W.tells_log → (place : ℕ → Place) → W.log world.new ≡ W.log world.old ++ event place (closing site.0 descriptor result) ∷ [] }
        ensures files { IsTrue W.tells_files → (place : ℕ → Place) (base : List Open) → IsOpen place base (held_in self.old) (W.live world.old)
            → ClosesWith (open_of place (held_at site.0 descriptor)) result (W.files world.old) (W.files world.new) }
    {
        let place = position_of(&self.held, site, descriptor);
        let held = self.held.remove(place);
        match world.close(held.descriptor) {
            Ok(()) => {
                let line = JournalLine::ClosedEarly {
                    site,
                    failed: false,
                };
                self.journal.push(line).unwrap();
                Ok(())
            }
            Err(_) => {
                let line = JournalLine::ClosedEarly { site, failed: true };
                self.journal.push(line).unwrap();
                Err(CloseFault { site })
            }
        }
    }

    /// Closes what a ticket is for. It is out of the scope whatever the outside answers.
    pub fn release<W: World>(&mut self, world: &mut W, ticket: Ticket) -> Result<(), CloseFault>
        requires there { IsHeldBy ticket (held_in self.old) }
        requires open { (place : ℕ → Place) × (base : List Open) × IsOpen place base (held_in self.old) (W.live world.old) }
        ensures answers { AnswersClose ticket.site (W.faults world.old) (W.faults world.new) result }
        ensures held { held_in self.new ≡ without ticket.site.0 ticket.descriptor (held_in self.old) }
        ensures others { (h : HeldItem) → h.site.0 ≢ ticket.site.0 → Contains (held_in self.old) h → Contains (held_in self.new) h }
        ensures journal { journal_in self.new ≡ journal_in self.old ++ line_of (closing ticket.site.0 ticket.descriptor result) }
        ensures room { room_in self.new ≡ room_in self.old }
        ensures open { (place : ℕ → Place) (base : List Open) → IsOpen place base (held_in self.old) (W.live world.old) → IsOpen place base (held_in self.new) (W.live world.new) }
        ensures log { IsTrue W.tells_log → (place : ℕ → Place) → W.log world.new ≡ W.log world.old ++ event place (closing ticket.site.0 ticket.descriptor result) ∷ [] }
        ensures files { IsTrue W.tells_files → (place : ℕ → Place) (base : List Open) → IsOpen place base (held_in self.old) (W.live world.old)
            → ClosesWith (open_of place (held_at ticket.site.0 ticket.descriptor)) result (W.files world.old) (W.files world.new) }
    {
        let Ticket { site, descriptor } = ticket;
        self.close(world, site, descriptor)
    }

    /// Closes what is held of a site, whose ticket was left to the scope. It is out of the scope whatever the outside answers.
    pub fn release_site<W: World>(&mut self, world: &mut W, site: Site) -> Result<(), CloseFault>
        requires there { (d : Descriptor) × Contains (held_in self.old) (held_at site.0 d) }
        requires open { (place : ℕ → Place) × (base : List Open) × IsOpen place base (held_in self.old) (W.live world.old) }
        ensures answers { AnswersClose site (W.faults world.old) (W.faults world.new) result }
        ensures held { held_in self.new ≡ without site.0 (descriptor_at site.0 (held_in self.old)) (held_in self.old) }
        ensures others { (h : HeldItem) → h.site.0 ≢ site.0 → Contains (held_in self.old) h → Contains (held_in self.new) h }
        ensures journal { journal_in self.new ≡ journal_in self.old ++ line_of (closing site.0 (descriptor_at site.0 (held_in self.old)) result) }
        ensures room { room_in self.new ≡ room_in self.old }
        ensures open { (place : ℕ → Place) (base : List Open) → IsOpen place base (held_in self.old) (W.live world.old) → IsOpen place base (held_in self.new) (W.live world.new) }
        ensures log { IsTrue W.tells_log → (place : ℕ → Place) → W.log world.new ≡ W.log world.old ++ event place (closing site.0 (descriptor_at site.0 (held_in self.old)) result) ∷ [] }
        ensures files { IsTrue W.tells_files → (place : ℕ → Place) (base : List Open) → IsOpen place base (held_in self.old) (W.live world.old)
            → ClosesWith (open_of place (held_at site.0 (descriptor_at site.0 (held_in self.old)))) result (W.files world.old) (W.files world.new) }
    {
        let descriptor = descriptor_of(&self.held, site);
        self.close(world, site, descriptor)
    }

    /// Leaves what a ticket is for to the end of the scope.
    pub fn leave(&mut self, ticket: Ticket)
        requires { IsHeldBy ticket (held_in self.old) }
        ensures { self.new ≡ self.old }
    {
        let Ticket {
            site: _,
            descriptor: _,
        } = ticket;
    }

    /// Closes all that is left, the last acquired first, whatever the closes answer.
    pub fn finish<W: World>(self, world: &mut W) -> Finished
        requires open { (place : ℕ → Place) × (base : List Open) × IsOpen place base (held_in self) (W.live world.old) }
        ensures live { (place : ℕ → Place) (base : List Open) → IsOpen place base (held_in self) (W.live world.old) → W.live world.new ≡ base }
        ensures closes { (closes : List Call) × Closes (held_in self) result.first_fault (journal_in self) result.journal.0 (W.faults world.old) (W.faults world.new) closes
            × (IsTrue W.tells_log → (place : ℕ → Place) → W.log world.new ≡ W.log world.old ++ map (event place) closes) }
        ensures rose { RoseIfSome result.first_fault (W.faults world.old) (W.faults world.new) }
    {
        let Scope {
            mut held,
            mut journal,
            room: _,
        } = self;
        let mut first_fault = None;
        while let Some(last) = take_last(&mut held) {
            let closed = world.close(last.descriptor);
            let line = JournalLine::ClosedAtEnd {
                site: last.site,
                failed: closed.is_err(),
            };
            journal.push(line).unwrap();
            first_fault = first_failed(first_fault, closed, last.site);
        }
        Finished {
            first_fault,
            journal,
        }
    }
}
