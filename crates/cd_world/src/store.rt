// What stands in memory, by the names of its members.
ghost use Rattle.std.specs.Prelude.{◌≡◌, ◌≢◌, ◌<◌, ◌≤◌, ◌++◌, ◌+◌, ◌^◌, ◌∷◌, [], ℕ, All, Some, None, IfSome, IfNone, IfOk, OnOk, OnErr, MatchOption, List, length, take, drop, min, map, option_map, slice_index_or};
ghost use Rattle.std.specs.Option.{option_copied};
ghost use Rattle.cd_world.specs.Files.{Gives};
ghost use Rattle.cd_world.specs.Plan.{FailsWhere, after, counted, fails_next, read_cut, with_call, write_cut};
ghost use Rattle.cd_world.specs.Store.{held, plan_of, bytes_in, with_file, member_of, member_name, IsFirst};
ghost use Rattle.cd_world.specs.declared.plan.Call.TheVariants.{Reading, Writing};

use crate::plan::{Call, FailList, Plan, cut};
use crate::world::WorldError;
use cd_elem::{ByteList, Items, Literal, NoMemory, NumberList};
use std::alloc::Global;

/// A file or a stream that a world in memory begins with.
#[derive(Drop)]
pub struct MemoryFile {
    /// The name that it is opened by, with one more `<` in front where that begins with `<`; or `<stdin>`, `<stdout>`
    /// or `<stderr>`.
    pub name: Literal,
    pub bytes: ByteList,
    /// The i-th read on this name gives at most the i-th of these, where 0 counts as 1. Later reads are not cut.
    pub read_cuts: NumberList,
    /// The i-th write on this name takes at most the i-th of these, likewise.
    pub write_cuts: NumberList,
    /// The calls on this name that fail.
    pub fails: FailList,
}

/// The files and streams that a world in memory begins with. Of two with the same name the first counts.
pub type MemoryFiles = Items<MemoryFile>;

/// A name that is or was a file's or a stream's.
#[derive(Drop)]
pub struct Member {
    pub name: Literal,
    /// None where there is no such file now.
    pub bytes: Option<ByteList>,
    /// None where the world did not begin with it: its calls are not cut, and none of them fails.
    pub plan: Option<Plan>,
}

impl From<MemoryFile> for Member {
    ghost use Rattle.cd_world.specs.Store.{member_of};

    ghost from_gives = { λ file member. member ≡ member_of file };

    fn from(file: MemoryFile) -> Member {
        let MemoryFile {
            name,
            bytes,
            read_cuts,
            write_cuts,
            fails,
        } = file;
        let plan = Plan {
            read_cuts,
            write_cuts,
            fails,
            opens: 0,
            reads: 0,
            writes: 0,
            closes: 0,
        };
        Member {
            name,
            bytes: Some(bytes),
            plan: Some(plan),
        }
    }
}

/// The members by their names. Of two with the same name the first counts.
#[derive(Drop)]
pub struct Store {
    pub members: Vec<Member>,
}

impl Store {
    /// What a world begins with.
    pub fn new(alloc: Global, files: MemoryFiles) -> Result<Store, NoMemory>
        ensures { IfOk result (λ store. store.members.items ≡ map member_of files) }
    {
        let mut members = Vec::new(alloc);
        for file in files.into_vec() {
            members.push(Member::from(file))?;
        }
        Ok(Store { members })
    }

    /// The place of the first member with this name.
    fn position_of(&self, name: &str) -> Option<usize>
        ensures found { IfSome result (IsFirst self.now.members.items name.now) }
        ensures none { IfNone result (All (λ m. m.name ≢ name.now) self.now.members.items) }
    {
        for (place, member) in self.members.iter().enumerate() {
            if member.name.as_str() == name {
                return Some(place);
            }
        }
        None
    }

    /// The bytes that a name holds, and None where it is not there.
    pub fn find(&self, name: &str) -> Option<&[u8]>
        ensures { MatchOption result (held self.now.members.items name.now ≡ None) (λ bytes. held self.now.members.items name.now ≡ Some bytes.now) }
    {
        let place = self.position_of(name)?;
        let bytes = self.members[place].bytes.as_ref()?;
        Some(bytes.as_slice())
    }

    /// The bytes that a name holds, none where it is not there.
    pub fn bytes_of(&self, name: &str) -> &[u8]
        ensures { result.now ≡ bytes_in (held self.now.members.items name.now) }
    {
        self.find(name).unwrap_or(&[])
    }

    /// The plan of a name, and None where it has none.
    fn plan_of(&self, name: &str) -> Option<&Plan>
        ensures { option_copied result ≡ plan_of self.now.members.items name.now }
    {
        let place = self.position_of(name)?;
        self.members[place].plan.as_ref()
    }

    /// Whether the next call of this sort on this name fails.
    pub fn is_failing(&self, call: Call, name: &str) -> bool
        ensures { result ≡ fails_next call (plan_of self.now.members.items name.now) }
    {
        match self.plan_of(name) {
            Some(plan) => plan.is_failing(call),
            None => false,
        }
    }

    /// How many of so many bytes the next read on this name gives.
    fn read_cut(&self, name: &str, count: usize) -> usize
        ensures value { result ≡ read_cut (plan_of self.now.members.items name.now) count }
        ensures within { result ≤ count }
        ensures some { 0 < count → 0 < result }
    {
        match self.plan_of(name) {
            Some(plan) => cut(&plan.read_cuts, plan.reads, count),
            None => count,
        }
    }

    /// How many of so many bytes the next write on this name takes.
    fn write_cut(&self, name: &str, count: usize) -> usize
        ensures value { result ≡ write_cut (plan_of self.now.members.items name.now) count }
        ensures within { result ≤ count }
        ensures some { 0 < count → 0 < result }
    {
        match self.plan_of(name) {
            Some(plan) => cut(&plan.write_cuts, plan.writes, count),
            None => count,
        }
    }

    /// Counts a call on a name. It takes no memory.
    pub fn count(&mut self, call: Call, name: &str)
        ensures held { held self.new.members.items ≡ held self.old.members.items }
        ensures plans { plan_of self.new.members.items ≡ counted call name.now (plan_of self.old.members.items) }
    {
        if let Some(place) = self.position_of(name) {
            count_in(&mut self.members[place].plan, call);
        }
    }

    /// Adds bytes at the end of what a name holds. A file comes into being where it is not there.
    fn append(&mut self, alloc: Global, name: &str, more: &[u8]) -> Result<(), NoMemory>
        ensures ok { OnOk result (held self.new.members.items ≡ with_file name.now (Some (bytes_in (held self.old.members.items name.now) ++ more.now)) (held self.old.members.items)) }
        ensures err { OnErr result (held self.new.members.items ≡ held self.old.members.items) }
        ensures plans { plan_of self.new.members.items ≡ plan_of self.old.members.items }
    {
        match self.position_of(name) {
            Some(place) => extend(alloc, &mut self.members[place].bytes, more),
            None => self.add(alloc, name, Items::from_slice(alloc, more)?),
        }
    }

    /// Makes a file with no bytes, or empties it.
    pub fn make_empty(&mut self, alloc: Global, name: &str) -> Result<(), NoMemory>
        ensures ok { OnOk result (held self.new.members.items ≡ with_file name.now (Some []) (held self.old.members.items)) }
        ensures err { OnErr result (held self.new.members.items ≡ held self.old.members.items) }
        ensures plans { plan_of self.new.members.items ≡ plan_of self.old.members.items }
    {
        match self.position_of(name) {
            Some(place) => {
                self.members[place].bytes = Some(Items::new(alloc));
                Ok(())
            }
            None => self.add(alloc, name, Items::new(alloc)),
        }
    }

    /// Adds a file under a name that no member has.
    fn add(&mut self, alloc: Global, name: &str, bytes: ByteList) -> Result<(), NoMemory>
        requires { All (λ m. m.name ≢ name.now) self.old.members.items }
        ensures ok { OnOk result (held self.new.members.items ≡ with_file name.now (Some bytes) (held self.old.members.items)) }
        ensures err { OnErr result (held self.new.members.items ≡ held self.old.members.items) }
        ensures plans { plan_of self.new.members.items ≡ plan_of self.old.members.items }
    {
        let name = Literal::new(alloc, name)?;
        self.members.push(Member {
            name,
            bytes: Some(bytes),
            plan: None,
        })?;
        Ok(())
    }

    /// Takes a file away. It takes no memory.
    pub fn remove(&mut self, name: &str)
        ensures held { held self.new.members.items ≡ with_file name.now None (held self.old.members.items) }
        ensures plans { plan_of self.new.members.items ≡ plan_of self.old.members.items }
    {
        if let Some(place) = self.position_of(name) {
            self.members[place].bytes = None;
        }
    }

    /// Makes a standard stream, which is empty where it was not given.
    pub fn make_stream(&mut self, alloc: Global, name: &str) -> Result<(), NoMemory>
        ensures held { OnOk result (held self.new.members.items ≡ with_file name.now (Some (bytes_in (held self.old.members.items name.now))) (held self.old.members.items)) }
        ensures plans { plan_of self.new.members.items ≡ plan_of self.old.members.items }
    {
        self.append(alloc, name, &[])
    }

    /// Answers a read on a name, of which so many bytes were given before, and counts it. It gives the bytes that it has
    /// put at the front of `into`, as many as there are, fit, and are not cut off.
    pub fn give(
        &mut self,
        alloc: Global,
        name: &str,
        given: usize,
        into: &mut [u8],
    ) -> Result<ByteList, WorldError>
        requires { 0 < length into.old }
        ensures fails { FailsWhere (fails_next Reading (plan_of self.old.members.items name.now)) result }
        ensures told { IfOk result (λ told. told ≡ take (length told) into.new) }
        ensures count { IfOk result (λ told. length told ≡ read_cut (plan_of self.old.members.items name.now) (min (length (drop given (bytes_in (held self.old.members.items name.now)))) (length into.new))) }
        ensures gives { IfOk result (λ told. Gives (drop given (bytes_in (held self.old.members.items name.now))) (length told) into.new) }
        ensures within { IfOk result (λ told. length told ≤ length into.new) }
        ensures fits { IfOk result (λ told. given + length told < 2 ^ 64) }
        ensures held { held self.new.members.items ≡ held self.old.members.items }
        ensures plans { plan_of self.new.members.items ≡ after result (counted Reading name.now) (plan_of self.old.members.items) }
    {
        if self.is_failing(Call::Reading, name) {
            self.count(Call::Reading, name);
            return Err(WorldError::Failed);
        }
        let left = rest_of(self.bytes_of(name), given);
        let count = self.read_cut(name, left.len().min(into.len()));
        copy_front(left, into, count);
        let told = Items::from_slice(alloc, &into[..count])?;
        self.count(Call::Reading, name);
        Ok(told)
    }

    /// Answers a write on a name, and counts it. It gives the bytes that were written, the front that is not cut off.
    pub fn put(&mut self, alloc: Global, name: &str, bytes: &[u8]) -> Result<ByteList, WorldError>
        requires { 0 < length bytes.now }
        ensures fails { FailsWhere (fails_next Writing (plan_of self.old.members.items name.now)) result }
        ensures told { IfOk result (λ told. told ≡ take (length told) bytes.now) }
        ensures count { IfOk result (λ told. length told ≡ write_cut (plan_of self.old.members.items name.now) (length bytes.now)) }
        ensures some { IfOk result (λ told. 0 < length told) }
        ensures within { IfOk result (λ told. length told ≤ length bytes.now) }
        ensures ok { IfOk result (λ told. held self.new.members.items ≡ with_file name.now (Some (bytes_in (held self.old.members.items name.now) ++ told)) (held self.old.members.items)) }
        ensures err { OnErr result (held self.new.members.items ≡ held self.old.members.items) }
        ensures plans { plan_of self.new.members.items ≡ after result (counted Writing name.now) (plan_of self.old.members.items) }
    {
        if self.is_failing(Call::Writing, name) {
            self.count(Call::Writing, name);
            return Err(WorldError::Failed);
        }
        let front = &bytes[..self.write_cut(name, bytes.len())];
        let told = Items::from_slice(alloc, front)?;
        self.append(alloc, name, front)?;
        self.count(Call::Writing, name);
        Ok(told)
    }
}

/// The name of the member that a file is, by the name that it is opened by.
pub fn member_name(alloc: Global, name: &str) -> Result<Literal, NoMemory>
    ensures { IfOk result (λ member. member ≡ member_name name.now) }
{
    match name.as_bytes() {
        [b'<', ..] => {
            let mut member = String::from_str(alloc, "<")?;
            member.push_str(name)?;
            Ok(Literal::from(member))
        }
        _ => Literal::new(alloc, name),
    }
}

/// Counts a call in a plan that may not be there.
fn count_in(plan: &mut Option<Plan>, call: Call)
    ensures { plan.new ≡ option_map (with_call call) plan.old }
{
    if let Some(plan) = plan {
        plan.count(call);
    }
}

/// Adds bytes at the end of a file that may not be there.
fn extend(alloc: Global, file: &mut Option<ByteList>, more: &[u8]) -> Result<(), NoMemory>
    ensures ok { OnOk result (file.new ≡ Some (bytes_in file.old ++ more.now)) }
    ensures err { OnErr result (file.new ≡ file.old) }
{
    match file {
        Some(bytes) => bytes.extend_from_slice(more),
        None => {
            *file = Some(Items::from_slice(alloc, more)?);
            Ok(())
        }
    }
}

/// What is left of some bytes after a front.
fn rest_of(bytes: &[u8], given: usize) -> &[u8]
    ensures { result.now ≡ drop given bytes.now }
{
    bytes.get(given..).unwrap_or(&[])
}

/// Copies so many bytes.
fn copy_front(from: &[u8], into: &mut [u8], count: usize)
    requires had { count ≤ length from.now }
    requires fits { count ≤ length into.old }
    ensures { from.now ≡ take count into.new ++ drop count from.now }
{
    into[..count].copy_from_slice(&from[..count]);
}
