// The calls of an outside in memory.
ghost use Rattle.std.specs.Prelude.{◌≡◌, ◌<◌, ◌≤◌, ◌++◌, ℕ, IfOk, codes, length};
ghost use Rattle.cd_world.specs.Causes.{IsCloseCounted, IsCounted};
ghost use Rattle.cd_world.specs.Events.{gave, wrote, opened, closed};
ghost use Rattle.cd_world.specs.Plan.{FailsWhere, after, counted, fails_next};
ghost use Rattle.cd_world.specs.Store.{member_name};

use super::{MemoryWorld, STDERR, STDOUT};
use crate::event::{Descriptor, Event, Use};
use crate::plan::Call;
use crate::world::{CloseFailed, World, WorldError};

impl World for MemoryWorld {
    ghost use Rattle.std.specs.Prelude.{List, Contains, ◌⊎◌, true};
    ghost use Rattle.cd_world.specs.declared.event.Use.{Use};
    ghost use Rattle.cd_world.specs.Files.{ReadsInput, ReadsFile, WritesFile, WritesOutput, WritesErrors, ClosesFile, after_open, left_at};
    ghost use Rattle.cd_world.specs.Known.{all-known};
    ghost use Rattle.cd_world.specs.Law.{ReadsBy, ClosesWhere, held_after_open, held_after_close};
    ghost use Rattle.cd_world.specs.Live.{IsLive, Open, Opens, Removes, open_as};
    ghost use Rattle.cd_world.specs.Memory.{WritesMember, files_in, held_in, plan_in, live_in, last_in, log_in, faults_in, open_fails};

    ghost faults = { faults_in };

    ghost live = { live_in };

    ghost last = { last_in };

    ghost tells_files = { true };

    ghost tells_log = { true };

    ghost files = { files_in };

    ghost log = { log_in };

    ghost known = { λ w. all-known 2 (live_in w) (last_in w) w.table.rising };

    fn open_read(&mut self, name: &str) -> Result<Descriptor, WorldError>
        ensures count { IsCounted (faults_in self.old) (faults_in self.new) result }
        ensures live { Opens Use.Reading name.now (live_in self.old) (live_in self.new) (last_in self.old) (last_in self.new) result }
        ensures log { log_in self.new ≡ log_in self.old ++ opened Use.Reading name.now result }
        ensures files { files_in self.new ≡ after_open Use.Reading name.now result (files_in self.old) }

        // It fails exactly where this is so.
        ensures fails { FailsWhere (open_fails Use.Reading name.now self.old) result }
        ensures held { held_in self.new ≡ held_after_open Use.Reading (member_name name.now) result (held_in self.old) }
        ensures plans { plan_in self.new ≡ after result (counted Call.Opening (member_name name.now)) (plan_in self.old) }
    {
        self.open_for(Use::Reading, name)
    }

    fn create(&mut self, name: &str) -> Result<Descriptor, WorldError>
        ensures count { IsCounted (faults_in self.old) (faults_in self.new) result }
        ensures live { Opens Use.Writing name.now (live_in self.old) (live_in self.new) (last_in self.old) (last_in self.new) result }
        ensures log { log_in self.new ≡ log_in self.old ++ opened Use.Writing name.now result }
        ensures files { files_in self.new ≡ after_open Use.Writing name.now result (files_in self.old) }

        // It fails exactly where this is so.
        ensures fails { FailsWhere (open_fails Use.Writing name.now self.old) result }
        ensures held { held_in self.new ≡ held_after_open Use.Writing (member_name name.now) result (held_in self.old) }
        ensures plans { plan_in self.new ≡ after result (counted Call.Opening (member_name name.now)) (plan_in self.old) }
    {
        self.open_for(Use::Writing, name)
    }

    fn mark(&mut self, name: &str) -> Result<Descriptor, WorldError>
        ensures count { IsCounted (faults_in self.old) (faults_in self.new) result }
        ensures live { Opens Use.Marking name.now (live_in self.old) (live_in self.new) (last_in self.old) (last_in self.new) result }
        ensures log { log_in self.new ≡ log_in self.old ++ opened Use.Marking name.now result }
        ensures files { files_in self.new ≡ after_open Use.Marking name.now result (files_in self.old) }

        // It fails exactly where this is so.
        ensures fails { FailsWhere (open_fails Use.Marking name.now self.old) result }
        ensures held { held_in self.new ≡ held_after_open Use.Marking (member_name name.now) result (held_in self.old) }
        ensures plans { plan_in self.new ≡ after result (counted Call.Opening (member_name name.now)) (plan_in self.old) }
    {
        self.open_for(Use::Marking, name)
    }

    fn read(&mut self, from: Descriptor, into: &mut [u8]) -> Result<usize, WorldError>
        requires readable { (from.0 ≡ 0) ⊎ IsLive Use.Reading from (live_in self.old) }
        requires room { 0 < length into.old }
        ensures within { IfOk result (λ count. count ≤ length into.new) }
        ensures count { IsCounted (faults_in self.old) (faults_in self.new) result }
        ensures live { live_in self.new ≡ live_in self.old }
        ensures last { last_in self.new ≡ last_in self.old }
        ensures log { log_in self.new ≡ log_in self.old ++ gave from into.new result }
        ensures file { (name : List ℕ) → Contains (live_in self.old) (open_as Use.Reading from name)
            → ReadsFile from.0 name into.new result (files_in self.old) (files_in self.new) }
        ensures input { from.0 ≡ 0 → ReadsInput into.new result (files_in self.old) (files_in self.new) }

        // It fails exactly where the plan says so, and else gives as many bytes as are left, fit, and are not cut off.
        ensures held { held_in self.new ≡ held_in self.old }
        ensures file_by_plan { (name : List ℕ) → Contains (live_in self.old) (open_as Use.Reading from name)
            → ReadsBy (plan_in self.old (member_name name)) (left_at from.0 name (files_in self.old)) into.new result }
        ensures file_plans { (name : List ℕ) → Contains (live_in self.old) (open_as Use.Reading from name)
            → plan_in self.new ≡ after result (counted Call.Reading (member_name name)) (plan_in self.old) }
        ensures input_by_plan { from.0 ≡ 0 → ReadsBy (plan_in self.old (codes "<stdin>")) (files_in self.old).input into.new result }
        ensures input_plans { from.0 ≡ 0 → plan_in self.new ≡ after result (counted Call.Reading (codes "<stdin>")) (plan_in self.old) }
    {
        self.reserve()?;
        if from == Descriptor::STDIN {
            return self.read_input(from, into);
        }
        self.read_file(from, into)
    }

    fn write(&mut self, to: Descriptor, bytes: &[u8]) -> Result<usize, WorldError>
        requires writable { (to.0 ≡ 1) ⊎ (to.0 ≡ 2) ⊎ IsLive Use.Writing to (live_in self.old) }
        requires some { 0 < length bytes.now }
        ensures within { IfOk result (λ count. (0 < count) × (count ≤ length bytes.now)) }
        ensures count { IsCounted (faults_in self.old) (faults_in self.new) result }
        ensures live { live_in self.new ≡ live_in self.old }
        ensures last { last_in self.new ≡ last_in self.old }
        ensures log { log_in self.new ≡ log_in self.old ++ wrote to bytes.now result }
        ensures file { (name : List ℕ) → Contains (live_in self.old) (open_as Use.Writing to name)
            → WritesFile name bytes.now result (files_in self.old) (files_in self.new) }
        ensures output { to.0 ≡ 1 → WritesOutput bytes.now result (files_in self.old) (files_in self.new) }
        ensures errors { to.0 ≡ 2 → WritesErrors bytes.now result (files_in self.old) (files_in self.new) }

        // It fails exactly where the plan says so, and else takes all bytes that are not cut off.
        ensures file_by_plan { (name : List ℕ) → Contains (live_in self.old) (open_as Use.Writing to name)
            → WritesMember (member_name name) bytes.now result self.old self.new }
        ensures output_by_plan { to.0 ≡ 1 → WritesMember (codes "<stdout>") bytes.now result self.old self.new }
        ensures errors_by_plan { to.0 ≡ 2 → WritesMember (codes "<stderr>") bytes.now result self.old self.new }
    {
        self.reserve()?;
        if to == Descriptor::STDOUT {
            return self.write_stream(STDOUT, to, bytes);
        }
        if to == Descriptor::STDERR {
            return self.write_stream(STDERR, to, bytes);
        }
        self.write_file(to, bytes)
    }

    fn close(&mut self, which: Descriptor) -> Result<(), CloseFailed>
        requires { (use_of : Use) × IsLive use_of which (live_in self.old) }
        ensures count { IsCloseCounted (faults_in self.old) (faults_in self.new) result }
        ensures live { Removes which (live_in self.old) (live_in self.new) }
        ensures last { last_in self.new ≡ last_in self.old }
        ensures log { log_in self.new ≡ log_in self.old ++ closed which result }
        ensures files { (o : Open) → Contains (live_in self.old) o → o.descriptor ≡ which
            → ClosesFile o result (files_in self.old) (files_in self.new) }

        // It fails exactly where the plan says so. A mark whose close fails leaves its file.
        ensures fails { (o : Open) → Contains (live_in self.old) o → o.descriptor ≡ which
            → ClosesWhere (fails_next Call.Closing (plan_in self.old (member_name o.name))) result }
        ensures held { (o : Open) → Contains (live_in self.old) o → o.descriptor ≡ which
            → held_in self.new ≡ held_after_close o.use_of (member_name o.name) result (held_in self.old) }
        ensures plans { (o : Open) → Contains (live_in self.old) o → o.descriptor ≡ which
            → plan_in self.new ≡ counted Call.Closing (member_name o.name) (plan_in self.old) }
    {
        let (open, member) = self.dismiss(which);
        let is_failing = self.store.is_failing(Call::Closing, member.as_str());
        self.store.count(Call::Closing, member.as_str());
        if is_failing {
            self.fail(Event::CloseFailed(which));
            return Err(CloseFailed);
        }
        self.remove_mark(&open, member.as_str());
        self.log.push(Event::Closed(which)).unwrap();
        Ok(())
    }
}
