// What the calls of a run share.
ghost use Rattle.std.specs.Prelude.{◌≡◌, ◌<◌, ◌≤◌, ◌+◌, ◌^◌, ◌≢◌, ℕ, suc, [], ◌∷◌, List, Contains, IfOk, IsTrue, Some, get_or, length, slice_get, slice_set};
ghost use Rattle.cd_elem.specs.declared.script.Stmt.{Stmt};
ghost use Rattle.cd_meaning.specs.Opens.{files_in};
ghost use Rattle.cd_meaning.specs.Pipes.{pipe_meaning};
ghost use Rattle.cd_meaning.specs.Places.{WritesOutput, place_in};
ghost use Rattle.cd_meaning.specs.Run.{Run, acts_at, start};
ghost use Rattle.cd_meaning.specs.RunShapes.{Seen};
ghost use Rattle.cd_meaning.specs.Scripts.{ScriptState, passed_sites, script_places, statement_meaning, value_puts};
ghost use Rattle.cd_meaning.specs.Stream.{Open as OpenSite, Close as CloseSite};
ghost use Rattle.cd_meaning.specs.Values.{value_meaning};
ghost use Rattle.cd_types.specs.Numbering.{first_site};
ghost use Rattle.cd_typed.specs.TypedScripts.{IsTyped};
ghost use Rattle.cd_world.specs.declared.event.Descriptor.{Descriptor};
ghost use Rattle.cd_world.specs.Live.{Open};
ghost use Rattle.cd_scope.specs.declared.table.Held.{Held as HeldItem};
ghost use Rattle.cd_scope.specs.Calls.{held_at};
ghost use Rattle.cd_scope.specs.Due.{Setting};
ghost use Rattle.cd_scope.specs.Table.{IsOpen};
ghost use Rattle.cd_scope.specs.Uses.{HasFile};
ghost use Rattle.cd_run.specs.Ends.{HasFault, MovedOn, Moves};
ghost use Rattle.cd_run.specs.Going.{Outside, Going, outside};
ghost use Rattle.cd_run.specs.Ran.{Ran, RoseAtEnd, done};
ghost use Rattle.cd_run.specs.Runners.{AreOptions};
ghost use Rattle.cd_run.specs.Statements.{Holds, IsSiteOf, behind};

use crate::buffers::Buffers;
use crate::calls::{hold, release_key};
use crate::ending::{Ended, finish};
use crate::fault::RunFault;
use crate::options::Options;
use crate::pipe::run_pipe;
use crate::print::print_value;
use cd_elem::{NoMemory, Site, Value};
use cd_scope::Scope;
use cd_typed::{Typed, typed_laws};
use cd_world::World;
use std::alloc::{AllocError, Global};

/// A run of a script that has a type: what it has open, and what it may still read. It must be spent by `finish`, which
/// closes what is left open. Its calls take the world, which is the same in all of them.
pub struct Runner<'a> {
    typed: &'a Typed,
    options: Options,
    scope: Scope,
    // for each site how many bytes may still be read of it, and one more; 0 once its end was told
    left: Vec<u64>,
    // the sites of the keys, by their numbers
    keys: Vec<Site>,
    buffers: Buffers,
}

/// How many bytes may be read of each site, and one more.
fn limits(alloc: Global, sites: usize, limit: u64) -> Result<Vec<u64>, AllocError>
    requires sites { sites + 1 < 2 ^ 64 }
    requires limit { limit + 1 < 2 ^ 64 }
    ensures count { IfOk result (λ left. length left.items ≡ suc sites) }
    ensures each { IfOk result (λ left. (s : ℕ) → s < length left.items → get_or left.items s 0 ≡ limit + 1) }
{
    let more = limit + 1;
    vec![in alloc; more; sites + 1]
}

/// A site for each key, which is not held yet.
fn no_keys(alloc: Global, keys: u32) -> Result<Vec<Site>, AllocError>
    ensures { IfOk result (λ sites. length sites.items ≡ keys) }
{
    vec![in alloc; Site(0); keys as usize]
}

impl<'a> Runner<'a> {
    ghost use Rattle.cd_run.specs.Runners.{IsOpenBy, IsReady, MayRun, OfReady, keys_of, left_of, options_of, room_of, size_of, table_of};

    /// A run of this script that has called nothing yet.
    pub fn new(alloc: Global, typed: &'a Typed, options: Options) -> Result<Runner<'a>, NoMemory>
        requires typed { (script : List Stmt) × IsTyped script typed.now }
        requires options { AreOptions options }
        ensures ready { (script : List Stmt) → IsTyped script typed.now → IfOk result (IsReady script) }
        ensures table { IfOk result (λ runner. table_of runner ≡ []) }
        ensures room { (script : List Stmt) → IsTyped script typed.now → IfOk result (λ runner. room_of runner ≡ length (script_places script)) }
        ensures left { IfOk result (λ runner. (s : ℕ) → s < length (left_of runner) → get_or (left_of runner) s 0 ≡ options.limit + 1) }
        ensures options { IfOk result (λ runner. options_of runner ≡ options) }
    {
        typed_laws();
        let sites = typed.sites().as_slice().len();
        let left = limits(alloc, sites, options.limit)?;
        let keys = no_keys(alloc, typed.keys())?;
        let buffers = Buffers::new(alloc)?;
        let scope = Scope::new(alloc, sites as u32)?;
        Ok(Runner {
            typed,
            options,
            scope,
            left,
            keys,
            buffers,
        })
    }

    /// Runs the pipe of a statement, which is counted from 1, and prints its value. No site of it was read before.
    pub fn run_pipe<W: World>(
        &mut self,
        alloc: Global,
        world: &mut W,
        statement: u32,
    ) -> Result<(), RunFault>
        requires runs { MayRun self.old statement }
        requires open { (script : List Stmt) × IsReady script self.old × ((base : List Open) × IsOpenBy script base self.old (W.live world.old)) }
        ensures ready { (script : List Stmt) → IsReady script self.old → IsReady script self.new }
        ensures keys { keys_of self.new ≡ keys_of self.old }
        ensures options { options_of self.new ≡ options_of self.old }
        ensures stays { OfReady self.old statement (λ script p. (h : HeldItem) → (IsSiteOf p (first_site script statement) h.site.0 → ⊥) → Contains (table_of self.old) h → Contains (table_of self.new) h) }
        ensures spent { OfReady self.old statement (λ script p. room_of self.old ≤ room_of self.new + files_in (pipe_meaning p).places) }
        ensures open { OfReady self.old statement (λ script p. (base : List Open) → IsOpenBy script base self.old (W.live world.old) → IsOpenBy script base self.new (W.live world.new)) }
        ensures cause { HasFault (W.faults world.old) (W.faults world.new) result }
        ensures others { OfReady self.old statement (λ script p. (s : ℕ) → (IsSiteOf p (first_site script statement) s → ⊥) → get_or (left_of self.new) s 0 ≡ get_or (left_of self.old) s 0) }
        ensures told { OfReady self.old statement (λ script p. IsTrue W.tells_log → (g : Setting) (base : List Open) → g.place ≡ place_in (script_places script) → g.tells ≡ W.tells_files → g.size ≡ size_of self.old → IsOpenBy script base self.old (W.live world.old)
            → (m : Seen → Run) (st : ScriptState) (next : Seen → ScriptState → Run) (w0 : Outside) → st.site ≡ first_site script statement → ((s : ℕ) → IsSiteOf p (first_site script statement) s → get_or (left_of self.old) s 0 ≡ g.limit + 1)
            → Going g m (table_of self.old) (left_of self.old) (behind (λ all. statement_meaning (Stmt.Run p) all st (next all))) w0 (outside (W.log world.old) (W.files world.old))
            → MovedOn g m result (table_of self.new) (left_of self.new) (λ x. behind (λ all. next all (passed_sites st (pipe_meaning p)))) w0 (outside (W.log world.new) (W.files world.new))) }
    {
        run_pipe(
            alloc,
            world,
            self.typed,
            &mut self.scope,
            &mut self.buffers,
            &mut self.left,
            self.options.chunk as usize,
            statement,
        )
    }

    /// Opens the file of a key, which is counted from 0, at this site.
    pub fn hold<W: World>(&mut self, world: &mut W, key: u32, site: Site) -> Result<(), RunFault>
        requires ready { (script : List Stmt) × IsReady script self.old × HasFile (place_in (script_places script) site.0) }
        requires key { key < length (keys_of self.old) }
        requires room { 0 < room_of self.old }
        ensures ready { (script : List Stmt) → IsReady script self.old → IsReady script self.new }
        ensures keys { keys_of self.new ≡ slice_set (keys_of self.old) key site }
        ensures left { left_of self.new ≡ left_of self.old }
        ensures options { options_of self.new ≡ options_of self.old }
        ensures table { Holds site.0 result (table_of self.old) (table_of self.new) }
        ensures spent { room_of self.old ≤ room_of self.new + 1 }
        ensures open { (script : List Stmt) → IsReady script self.old → (base : List Open) → IsOpenBy script base self.old (W.live world.old) → IsOpenBy script base self.new (W.live world.new) }
        ensures cause { HasFault (W.faults world.old) (W.faults world.new) result }
        ensures told { (script : List Stmt) → IsReady script self.old → IsTrue W.tells_log → (g : Setting) (base : List Open) → g.place ≡ place_in (script_places script) → g.tells ≡ W.tells_files → IsOpenBy script base self.old (W.live world.old)
            → Moves g (table_of self.old) (table_of self.new) result (OpenSite site.0 ∷ []) (outside (W.log world.old) (W.files world.old)) (outside (W.log world.new) (W.files world.new)) }
    {
        self.keys[key as usize] = site;
        hold(world, self.typed.sites().as_slice(), &mut self.scope, site)
    }

    /// Closes the file of a key that is held. It takes no memory.
    pub fn release_key<W: World>(&mut self, world: &mut W, key: u32) -> Result<(), RunFault>
        requires key { key < length (keys_of self.old) }
        requires there { (site : Site) × (slice_get (keys_of self.old) key ≡ Some site) × ((d : Descriptor) × Contains (table_of self.old) (held_at site.0 d)) }
        requires open { (script : List Stmt) × IsReady script self.old × ((base : List Open) × IsOpenBy script base self.old (W.live world.old)) }
        ensures ready { (script : List Stmt) → IsReady script self.old → IsReady script self.new }
        ensures keys { keys_of self.new ≡ keys_of self.old }
        ensures left { left_of self.new ≡ left_of self.old }
        ensures options { options_of self.new ≡ options_of self.old }
        ensures others { (site : Site) → slice_get (keys_of self.old) key ≡ Some site → (h : HeldItem) → h.site.0 ≢ site.0 → Contains (table_of self.old) h → Contains (table_of self.new) h }
        ensures room { room_of self.new ≡ room_of self.old }
        ensures open { (script : List Stmt) (base : List Open) → IsOpenBy script base self.old (W.live world.old) → IsOpenBy script base self.new (W.live world.new) }
        ensures cause { HasFault (W.faults world.old) (W.faults world.new) result }
        ensures told { (site : Site) → slice_get (keys_of self.old) key ≡ Some site → IsTrue W.tells_log → (g : Setting) (base : List Open) → g.tells ≡ W.tells_files → IsOpen g.place base (table_of self.old) (W.live world.old)
            → Moves g (table_of self.old) (table_of self.new) result (CloseSite site.0 ∷ []) (outside (W.log world.old) (W.files world.old)) (outside (W.log world.new) (W.files world.new)) }
    {
        let site = self.keys[key as usize];
        release_key(world, &mut self.scope, site)
    }

    /// Prints the line of a result to standard output.
    pub fn print_value<W: World>(
        &self,
        alloc: Global,
        world: &mut W,
        value: &Value,
    ) -> Result<(), RunFault>
        ensures live { W.live world.new ≡ W.live world.old }
        ensures cause { HasFault (W.faults world.old) (W.faults world.new) result }
        ensures told { IsTrue W.tells_log → (g : Setting) (base : List Open) → g.place 0 ≡ WritesOutput → g.tells ≡ W.tells_files → IsOpen g.place base (table_of self.now) (W.live world.old)
            → (m : Seen → Run) (next : Seen → Run) (w0 : Outside) → Going g m (table_of self.now) (left_of self.now) (behind (λ all. acts_at start (value_puts (value_meaning value.now)) (next all))) w0 (outside (W.log world.old) (W.files world.old))
            → MovedOn g m result (table_of self.now) (left_of self.now) (λ x. behind next) w0 (outside (W.log world.new) (W.files world.new)) }
    {
        print_value(alloc, world, value)
    }

    /// Closes all that the run left open, the last opened first. It takes no memory.
    pub fn finish<W: World>(self, world: &mut W, answer: Result<(), RunFault>) -> Ended
        requires open { (script : List Stmt) × (base : List Open) × IsOpenBy script base self (W.live world.old) }
        ensures live { (script : List Stmt) (base : List Open) → IsOpenBy script base self.entry (W.live world.old) → W.live world.new ≡ base }
        ensures rose { RoseAtEnd answer result.answer (W.faults world.old) (W.faults world.new) }
        ensures told { IsTrue W.tells_log → (g : Setting) (m : Seen → Run) (w0 : Outside) → MovedOn g m answer (table_of self.entry) (left_of self.entry) (λ x. behind (λ all. done)) w0 (outside (W.log world.old) (W.files world.old))
            → Ran g m result.answer w0 (outside (W.log world.new) (W.files world.new)) }
    {
        let Runner {
            typed: _,
            options: _,
            scope,
            left: _,
            keys: _,
            buffers: _,
        } = self;
        finish(world, scope, answer)
    }
}
