// An outside in memory.
ghost use Rattle.std.specs.Prelude.{◌≡◌, ◌≢◌, ◌<◌, ◌≤◌, ◌++◌, ◌+◌, ◌∷◌, [], ℕ, Some, None, IfOk, OnOk, OnErr, MatchOption, false, codes, length, take, drop, min, vec_len, vec_capacity, map};
ghost use Rattle.cd_world.specs.Causes.{IsCounted, risen};
ghost use Rattle.cd_world.specs.Events.{gave, wrote, opened, opening};
ghost use Rattle.cd_world.specs.Law.{is_missing};
ghost use Rattle.cd_world.specs.Plan.{FailsWhere, after, counted};
ghost use Rattle.cd_world.specs.Store.{bytes_given, plan_given, held, member_name};
ghost use Rattle.cd_world.specs.Table.{live_of};

mod calls;

use crate::event::{Descriptor, Event, EventList, Use};
use crate::plan::Call;
use crate::store::{MemoryFiles, Store, member_name};
use crate::table::{OpenFile, OpenTable};
use crate::world::WorldError;
use cd_elem::{ByteList, Literal, NoMemory, Roomy};
use std::alloc::Global;

/// The names of the standard streams.
const STDIN: &str = "<stdin>";

const STDOUT: &str = "<stdout>";

const STDERR: &str = "<stderr>";

/// What stands beside an open file: the name of its member, and how many bytes were given of it.
#[derive(Drop)]
pub struct OpenMember {
    pub member: Literal,
    pub given: usize,
}

/// The names that an open keeps: its file's in the table and in the log, and its member's.
#[derive(Drop)]
struct Names {
    entry: Literal,
    told: Literal,
    member: Literal,
}

impl Names {
    fn new(alloc: Global, name: &str) -> Result<Names, NoMemory>
        ensures entry { IfOk result (λ names. names.entry ≡ name.now) }
        ensures told { IfOk result (λ names. names.told ≡ name.now) }
        ensures member { IfOk result (λ names. names.member ≡ member_name name.now) }
    {
        let entry = Literal::new(alloc, name)?;
        let told = Literal::new(alloc, name)?;
        let member = member_name(alloc, name)?;
        Ok(Names {
            entry,
            told,
            member,
        })
    }
}

/// Files and streams in memory, which tell what they hold and what was called. Reads and writes are cut and calls fail
/// as its members say.
#[derive(Drop)]
pub struct MemoryWorld {
    alloc: Global,
    store: Store,
    input_given: usize,
    table: OpenTable,
    sides: Vec<OpenMember>,
    log: EventList,
    faults: u64,
    // each open file has its member beside it
    ghost paired: { map (λ side. side.member) sides.items ≡ map (λ entry. member_name entry.name) table.files.items },
    // the room for the closes of all that is open
    ghost room: { vec_len table.files ≤ log.1 },
}

impl MemoryWorld {
    ghost use Rattle.std.specs.Prelude.{List, Contains};
    ghost use Rattle.cd_world.specs.declared.event.Use.{Use};
    ghost use Rattle.cd_world.specs.declared.event.Use.TheVariants.{Reading, Writing};
    ghost use Rattle.cd_world.specs.Files.{ReadsInput, ReadsFile, WritesFile, WritesOutput, WritesErrors, after_open, emptied, left_at, with_given, without_mark};
    ghost use Rattle.cd_world.specs.Law.{ReadsBy, emptied_member, held_after_open, where_failed, without_marked};
    ghost use Rattle.cd_world.specs.Live.{IsLive, Open, Opens, Removes, open_as};
    ghost use Rattle.cd_world.specs.Memory.{WritesMember, files_by, files_in, held_in, plan_in, live_in, last_in, log_in, faults_in, open_fails};
    ghost use Rattle.cd_world.specs.Table.{open_of};

    /// A world with these files and streams, in which nothing was called yet.
    pub fn new(alloc: Global, files: MemoryFiles) -> Result<MemoryWorld, NoMemory>
        ensures log { IfOk result (λ world. log_in world ≡ []) }
        ensures faults { IfOk result (λ world. faults_in world ≡ 0) }
        ensures live { IfOk result (λ world. live_in world ≡ []) }
        ensures last { IfOk result (λ world. last_in world ≡ 2) }

        // Of two members with the same name the first counts, and streams that are not given are empty.
        ensures files { IfOk result (λ world. files_in world ≡ files_by (bytes_given files) (λ d. 0) 0) }
        ensures there { IfOk result (λ world. (name : List ℕ) → held_in world (member_name name) ≡ bytes_given files (member_name name)) }
        ensures plans { IfOk result (λ world. (name : List ℕ) → plan_in world name ≡ plan_given files name) }
    {
        let mut store = Store::new(alloc, files)?;
        store.make_stream(alloc, STDIN)?;
        store.make_stream(alloc, STDOUT)?;
        store.make_stream(alloc, STDERR)?;
        Ok(MemoryWorld {
            alloc,
            store,
            input_given: 0,
            table: OpenTable::new(alloc),
            sides: Vec::new(alloc),
            log: Roomy::new(alloc),
            faults: 0,
        })
    }

    /// The bytes of a file or a stream, by the name of its member. None where there is no such file.
    pub fn file(&self, name: &str) -> Option<&[u8]>
        ensures { MatchOption result (held_in self.now name.now ≡ None) (λ bytes. held_in self.now name.now ≡ Some bytes.now) }
    {
        self.store.find(name)
    }

    /// The calls so far.
    pub fn log(&self) -> &EventList
        ensures { result.now.0 ≡ log_in self.now }
    {
        &self.log
    }

    /// How many calls have failed.
    pub fn faults(&self) -> u64
        ensures { result ≡ faults_in self.now }
    {
        self.faults
    }

    /// Makes room for a call's event and for the closes of all that is open.
    fn reserve(&mut self) -> Result<(), NoMemory>
        ensures same { self.new ≡ record self.old { log = self.new.log; table = self.new.table; sides = self.new.sides; paired = self.new.paired; room = self.new.room } }
        ensures told { files_in self.new ≡ files_in self.old }
        ensures log { self.new.log.0 ≡ self.old.log.0 }
        ensures files { self.new.table.files.items ≡ self.old.table.files.items }
        ensures last { self.new.table.last ≡ self.old.table.last }
        ensures sides { self.new.sides.items ≡ self.old.sides.items }
        ensures store { self.new.store ≡ self.old.store }
        ensures room { OnOk result (vec_len self.new.table.files + 2 ≤ self.new.log.1) }
        ensures table { OnOk result (vec_len self.new.table.files < vec_capacity self.new.table.files) }
        ensures beside { OnOk result (vec_len self.new.sides < vec_capacity self.new.sides) }
    {
        self.table.reserve()?;
        self.sides.reserve(1)?;
        let Some(count) = self.table.files.len().checked_add(2) else {
            return Err(NoMemory);
        };
        self.log.reserve(count)
    }

    /// Counts a failure and notes its event.
    fn fail(&mut self, event: Event)
        requires { vec_len self.old.table.files + 1 ≤ self.old.log.1 }
        ensures count { self.new.faults ≡ risen self.old.faults }
        ensures log { self.new.log.0 ≡ self.old.log.0 ++ event ∷ [] }
        ensures table { self.new.table.files.items ≡ self.old.table.files.items }
        ensures last { self.new.table.last ≡ self.old.table.last }
        ensures files { files_in self.new ≡ files_in self.old }
        ensures store { self.new.store ≡ self.old.store }
    {
        self.faults = self.faults.saturating_add(1);
        self.log.push(event).unwrap();
    }

    /// Whether an open is refused.
    fn is_refused(&self, use_of: Use, name: &str, member: &str) -> bool
        requires { member.now ≡ member_name name.now }
        ensures value { result ≡ open_fails use_of name.now self.now }
        ensures left { result ≡ false → self.now.table.last < 18446744073709551615 }
    {
        self.store.is_failing(Call::Opening, member)
            || self.table.is_spent()
            || is_absent(&self.store, use_of, member)
    }

    /// Makes or empties a file that is not opened for reading.
    fn prepare(&mut self, use_of: Use, name: &str, member: &str) -> Result<(), NoMemory>
        requires { member.now ≡ member_name name.now }
        ensures rest { self.new ≡ record self.old { store = self.new.store } }
        ensures ok { OnOk result (files_in self.new ≡ emptied use_of name.now (files_in self.old)) }
        ensures err { OnErr result (files_in self.new ≡ files_in self.old) }
        ensures held_ok { OnOk result (held_in self.new ≡ emptied_member use_of member.now (held_in self.old)) }
        ensures held_err { OnErr result (held_in self.new ≡ held_in self.old) }
        ensures plans { plan_in self.new ≡ plan_in self.old }
    {
        match use_of {
            Use::Reading => Ok(()),
            Use::Writing | Use::Marking => self.store.make_empty(self.alloc, member),
        }
    }

    /// Adds an open file, of which nothing was given.
    fn admit(&mut self, use_of: Use, entry: Literal, member: Literal) -> Descriptor
        requires next { self.old.table.last < 18446744073709551615 }
        requires name { member ≡ member_name entry }
        requires room { vec_len self.old.table.files + 2 ≤ self.old.log.1 }
        requires table { vec_len self.old.table.files < vec_capacity self.old.table.files }
        requires beside { vec_len self.old.sides < vec_capacity self.old.sides }
        ensures opened { Opens use_of entry (live_in self.old) (live_in self.new) self.old.table.last self.new.table.last (Ok result) }
        ensures files { files_in self.new ≡ with_given result.0 0 (files_in self.old) }
        ensures log { self.new.log ≡ self.old.log }
        ensures len { vec_len self.new.table.files ≡ vec_len self.old.table.files + 1 }
        ensures faults { self.new.faults ≡ self.old.faults }
        ensures store { self.new.store ≡ self.old.store }
    {
        let descriptor = self.table.add(use_of, entry);
        self.sides.push_reserved(OpenMember { member, given: 0 });
        descriptor
    }

    /// Opens a file for a use.
    fn open_for(&mut self, use_of: Use, name: &str) -> Result<Descriptor, WorldError>
        ensures count { IsCounted self.old.faults self.new.faults result }
        ensures live { Opens use_of name.now (live_in self.old) (live_in self.new) self.old.table.last self.new.table.last result }
        ensures log { self.new.log.0 ≡ self.old.log.0 ++ opened use_of name.now result }
        ensures files { files_in self.new ≡ after_open use_of name.now result (files_in self.old) }
        ensures fails { FailsWhere (open_fails use_of name.now self.old) result }
        ensures held { held_in self.new ≡ held_after_open use_of (member_name name.now) result (held_in self.old) }
        ensures plans { plan_in self.new ≡ after result (counted Call.Opening (member_name name.now)) (plan_in self.old) }
    {
        self.reserve()?;
        let Names {
            entry,
            told,
            member,
        } = Names::new(self.alloc, name)?;
        if self.is_refused(use_of, name, member.as_str()) {
            self.store.count(Call::Opening, member.as_str());
            drop((entry, member));
            self.fail(Event::OpenFailed(told));
            return Err(WorldError::Failed);
        }
        match self.prepare(use_of, name, member.as_str()) {
            Ok(()) => {
                self.store.count(Call::Opening, member.as_str());
                let descriptor = self.admit(use_of, entry, member);
                self.log
                    .push(opened_event(use_of, told, descriptor))
                    .unwrap();
                Ok(descriptor)
            }
            Err(NoMemory) => {
                drop((entry, told, member));
                Err(WorldError::NoMemory)
            }
        }
    }

    /// Notes the event of a call that failed, and none where memory was wanting, and answers why it was refused.
    fn refuse(&mut self, error: WorldError, event: Event) -> WorldError
        requires { vec_len self.old.table.files + 1 ≤ self.old.log.1 }
        ensures same { result ≡ error }
        ensures failed { error ≡ WorldError.Failed → self.new.faults ≡ risen self.old.faults }
        ensures calm { error ≢ WorldError.Failed → self.new.faults ≡ self.old.faults }
        ensures log { self.new.log.0 ≡ self.old.log.0 ++ where_failed error event }
        ensures table { self.new.table.files.items ≡ self.old.table.files.items }
        ensures last { self.new.table.last ≡ self.old.table.last }
        ensures files { files_in self.new ≡ files_in self.old }
        ensures store { self.new.store ≡ self.old.store }
    {
        match error {
            WorldError::Failed => self.fail(event),
            WorldError::NoMemory => {}
        }
        error
    }

    /// Gives of standard input.
    fn read_input(&mut self, from: Descriptor, into: &mut [u8]) -> Result<usize, WorldError>
        requires some { 0 < length into.old }
        requires room { vec_len self.old.table.files + 1 ≤ self.old.log.1 }
        ensures within { IfOk result (λ count. count ≤ length into.new) }
        ensures count { IsCounted self.old.faults self.new.faults result }
        ensures table { self.new.table.files.items ≡ self.old.table.files.items }
        ensures last { self.new.table.last ≡ self.old.table.last }
        ensures log { self.new.log.0 ≡ self.old.log.0 ++ gave from into.new result }
        ensures files { ReadsInput into.new result (files_in self.old) (files_in self.new) }
        ensures held { held_in self.new ≡ held_in self.old }
        ensures by_plan { ReadsBy (plan_in self.old (codes "<stdin>")) (files_in self.old).input into.new result }
        ensures plans { plan_in self.new ≡ after result (counted Call.Reading (codes "<stdin>")) (plan_in self.old) }
    {
        let given = self.input_given;
        match self.store.give(self.alloc, STDIN, given, into) {
            Ok(told) => {
                let count = told.len();
                self.input_given = given + count;
                self.log.push(gave_event(from, told)).unwrap();
                Ok(count)
            }
            Err(error) => Err(self.refuse(error, Event::ReadFailed(from))),
        }
    }

    /// Gives of an open file.
    fn read_file(&mut self, from: Descriptor, into: &mut [u8]) -> Result<usize, WorldError>
        requires readable { IsLive Reading from (live_in self.old) }
        requires some { 0 < length into.old }
        requires room { vec_len self.old.table.files + 1 ≤ self.old.log.1 }
        ensures within { IfOk result (λ count. count ≤ length into.new) }
        ensures count { IsCounted self.old.faults self.new.faults result }
        ensures table { self.new.table.files.items ≡ self.old.table.files.items }
        ensures last { self.new.table.last ≡ self.old.table.last }
        ensures log { self.new.log.0 ≡ self.old.log.0 ++ gave from into.new result }
        ensures files { (name : List ℕ) → Contains (live_in self.old) (open_as Reading from name)
            → ReadsFile from.0 name into.new result (files_in self.old) (files_in self.new) }
        ensures held { held_in self.new ≡ held_in self.old }
        ensures by_plan { (name : List ℕ) → Contains (live_in self.old) (open_as Reading from name)
            → ReadsBy (plan_in self.old (member_name name)) (left_at from.0 name (files_in self.old)) into.new result }
        ensures plans { (name : List ℕ) → Contains (live_in self.old) (open_as Reading from name)
            → plan_in self.new ≡ after result (counted Call.Reading (member_name name)) (plan_in self.old) }
    {
        let place = self.table.place_of(from);
        let given = self.sides[place].given;
        let member = self.sides[place].member.as_str();
        match self.store.give(self.alloc, member, given, into) {
            Ok(told) => {
                let count = told.len();
                self.sides[place].given = given + count;
                self.log.push(gave_event(from, told)).unwrap();
                Ok(count)
            }
            Err(error) => Err(self.refuse(error, Event::ReadFailed(from))),
        }
    }

    /// Writes to a standard stream, by its name.
    fn write_stream(
        &mut self,
        name: &str,
        to: Descriptor,
        bytes: &[u8],
    ) -> Result<usize, WorldError>
        requires room { vec_len self.old.table.files + 1 ≤ self.old.log.1 }
        requires some { 0 < length bytes.now }
        ensures within { IfOk result (λ count. (0 < count) × (count ≤ length bytes.now)) }
        ensures count { IsCounted self.old.faults self.new.faults result }
        ensures table { self.new.table.files.items ≡ self.old.table.files.items }
        ensures last { self.new.table.last ≡ self.old.table.last }
        ensures log { self.new.log.0 ≡ self.old.log.0 ++ wrote to bytes.now result }
        ensures output { name.now ≡ codes "<stdout>" → WritesOutput bytes.now result (files_in self.old) (files_in self.new) }
        ensures errors { name.now ≡ codes "<stderr>" → WritesErrors bytes.now result (files_in self.old) (files_in self.new) }
        ensures by_plan { WritesMember name.now bytes.now result self.old self.new }
    {
        match self.store.put(self.alloc, name, bytes) {
            Ok(told) => {
                let count = told.len();
                self.log.push(Event::Wrote(to, told)).unwrap();
                Ok(count)
            }
            Err(error) => Err(self.refuse(error, Event::WriteFailed(to))),
        }
    }

    /// Writes to an open file.
    fn write_file(&mut self, to: Descriptor, bytes: &[u8]) -> Result<usize, WorldError>
        requires writable { IsLive Writing to (live_in self.old) }
        requires room { vec_len self.old.table.files + 1 ≤ self.old.log.1 }
        requires some { 0 < length bytes.now }
        ensures within { IfOk result (λ count. (0 < count) × (count ≤ length bytes.now)) }
        ensures count { IsCounted self.old.faults self.new.faults result }
        ensures table { self.new.table.files.items ≡ self.old.table.files.items }
        ensures last { self.new.table.last ≡ self.old.table.last }
        ensures log { self.new.log.0 ≡ self.old.log.0 ++ wrote to bytes.now result }
        ensures file { (name : List ℕ) → Contains (live_in self.old) (open_as Writing to name)
            → WritesFile name bytes.now result (files_in self.old) (files_in self.new) }
        ensures by_plan { (name : List ℕ) → Contains (live_in self.old) (open_as Writing to name)
            → WritesMember (member_name name) bytes.now result self.old self.new }
    {
        let place = self.table.place_of(to);
        let member = self.sides[place].member.as_str();
        match self.store.put(self.alloc, member, bytes) {
            Ok(told) => {
                let count = told.len();
                self.log.push(Event::Wrote(to, told)).unwrap();
                Ok(count)
            }
            Err(error) => Err(self.refuse(error, Event::WriteFailed(to))),
        }
    }

    /// Takes an open file out of the table, and gives it with its member's name. It takes no memory.
    fn dismiss(&mut self, which: Descriptor) -> (OpenFile, Literal)
        requires { (use_of : Use) × IsLive use_of which (live_in self.old) }
        ensures live { Removes which (live_in self.old) (live_in self.new) }
        ensures last { self.new.table.last ≡ self.old.table.last }
        ensures faults { self.new.faults ≡ self.old.faults }
        ensures log { self.new.log ≡ self.old.log }
        ensures room { vec_len self.new.table.files + 1 ≤ self.new.log.1 }
        ensures files { files_in self.new ≡ with_given which.0 0 (files_in self.old) }
        ensures store { self.new.store ≡ self.old.store }
        ensures entry { (o : Open) → Contains (live_in self.old) o → o.descriptor ≡ which → o ≡ open_of result.0 }
        ensures member { result.1 ≡ member_name result.0.name }
    {
        let (place, open) = self.table.remove(which);
        let side = self.sides.remove(place);
        (open, side.member)
    }

    /// Takes a mark's file away, and leaves every other. It takes no memory.
    fn remove_mark(&mut self, open: &OpenFile, member: &str)
        requires { member.now ≡ member_name open.now.name }
        ensures rest { self.new ≡ record self.old { store = self.new.store } }
        ensures files { files_in self.new ≡ without_mark open.now.use_of open.now.name (files_in self.old) }
        ensures held { held_in self.new ≡ without_marked open.now.use_of member.now (held_in self.old) }
        ensures plans { plan_in self.new ≡ plan_in self.old }
    {
        match open.use_of {
            Use::Reading | Use::Writing => {}
            Use::Marking => self.store.remove(member),
        }
    }
}

/// Whether a file that is to be read is not there.
fn is_absent(store: &Store, use_of: Use, member: &str) -> bool
    ensures { result ≡ is_missing use_of (held store.now.members.items member.now) }
{
    match use_of {
        Use::Reading => store.find(member).is_none(),
        Use::Writing | Use::Marking => false,
    }
}

/// The event of a read that gave these bytes.
fn gave_event(from: Descriptor, bytes: ByteList) -> Event
    ensures { result ∷ [] ≡ gave from bytes (Ok (length bytes)) }
{
    if bytes.is_empty() {
        Event::GaveEnd(from)
    } else {
        Event::Gave(from, bytes)
    }
}

/// The event of an open that went well.
fn opened_event(use_of: Use, name: Literal, descriptor: Descriptor) -> Event
    ensures { result ≡ opening use_of name descriptor }
{
    match use_of {
        Use::Reading => Event::OpenedRead(name, descriptor),
        Use::Writing => Event::Created(name, descriptor),
        Use::Marking => Event::Marked(name, descriptor),
    }
}
