// The outside over std's files and standard streams.
ghost use Rattle.std.specs.Prelude.{◌≡◌, ◌<◌, ◌≤◌, ◌++◌, [], IfOk, length, false, vec_len, vec_capacity};
ghost use Rattle.cd_world.specs.Causes.{IsCounted, risen};
ghost use Rattle.cd_world.specs.Live.{Opens};
ghost use Rattle.cd_world.specs.Files.{no_files};
ghost use Rattle.cd_world.specs.Known.{all-known};
ghost use Rattle.cd_world.specs.Table.{live_of};

use cd_elem::{Literal, NoMemory};
use cd_world::{CloseFailed, Descriptor, OpenTable, Use, World, WorldError};
use std::alloc::Global;
use std::io::{ErrorKind, Read, Write};
use std::rt::Files;
use std::{fs, io, str};

/// Real files and streams: one call of std for each call, made again where the system interrupted it and nothing was
/// transferred. What they hold and what was called is not told.
#[derive(Drop)]
pub struct HostWorld<'r, R: Files + Print + Eprint + Input> {
    rt: &'r R,
    alloc: Global,
    input: R::Reader,
    table: OpenTable,
    files: Vec<R::File>,
    faults: u64,
    ghost paired: { vec_len files ≡ vec_len table.files },
}

impl<'r, R: Files + Print + Eprint + Input> HostWorld<'r, R> {
    pub fn new(alloc: Global, rt: &'r R) -> HostWorld<'r, R> {
        HostWorld {
            rt,
            alloc,
            input: rt.reader(),
            table: OpenTable::new(alloc),
            files: Vec::new(alloc),
            faults: 0,
        }
    }

    /// Counts a failed call.
    fn count_failure(&mut self)
        ensures count { self.new.faults ≡ risen self.old.faults }
        ensures table { self.new.table ≡ self.old.table }
        ensures files { self.new.files ≡ self.old.files }
    {
        self.faults = self.faults.saturating_add(1);
    }

    /// Opens a file for a use, under the next descriptor.
    fn open_for(&mut self, use_of: Use, name: &str) -> Result<Descriptor, WorldError>
        ensures count { IsCounted self.old.faults self.new.faults result }
        ensures live { Opens use_of name.now (live_of self.old.table.files.items) (live_of self.new.table.files.items) self.old.table.last self.new.table.last result }
    {
        if self.table.is_spent() {
            self.count_failure();
            return Err(WorldError::Failed);
        }
        let literal = Literal::new(self.alloc, name)?;
        self.table.reserve()?;
        self.files.reserve(1).map_err(NoMemory::from)?;
        let Ok(file) = opened(self.rt, use_of, name) else {
            drop(literal);
            self.count_failure();
            return Err(WorldError::Failed);
        };
        self.files.push(file).unwrap();
        Ok(self.table.add(use_of, literal))
    }
}

impl<'r, R: Files + Print + Eprint + Input> World for HostWorld<'r, R> {
    ghost faults = { λ w. w.faults };

    ghost live = { λ w. live_of w.table.files.items };

    ghost last = { λ w. w.table.last };

    ghost tells_files = { false };

    ghost tells_log = { false };

    ghost files = { λ _. no_files };

    ghost log = { λ _. [] };

    ghost known = { λ w. all-known 2 (live_of w.table.files.items) w.table.last w.table.rising };

    fn open_read(&mut self, name: &str) -> Result<Descriptor, WorldError> {
        self.open_for(Use::Reading, name)
    }

    fn create(&mut self, name: &str) -> Result<Descriptor, WorldError> {
        self.open_for(Use::Writing, name)
    }

    fn mark(&mut self, name: &str) -> Result<Descriptor, WorldError> {
        self.open_for(Use::Marking, name)
    }

    fn read(&mut self, from: Descriptor, into: &mut [u8]) -> Result<usize, WorldError> {
        let answer = if from == Descriptor::STDIN {
            read_once(&mut self.input, into)
        } else {
            let place = self.table.place_of(from);
            read_once(&mut self.files[place], into)
        };
        let Ok(count) = answer else {
            self.count_failure();
            return Err(WorldError::Failed);
        };
        Ok(count)
    }

    fn write(&mut self, to: Descriptor, bytes: &[u8]) -> Result<usize, WorldError> {
        let answer = if to == Descriptor::STDOUT {
            write_once(&mut io::writer(self.rt), bytes)
        } else if to == Descriptor::STDERR {
            print_error(self.rt, bytes)
        } else {
            let place = self.table.place_of(to);
            write_once(&mut self.files[place], bytes)
        };
        match answer {
            Ok(count) if count > 0 => Ok(count),
            _ => {
                self.count_failure();
                Err(WorldError::Failed)
            }
        }
    }

    fn close(&mut self, which: Descriptor) -> Result<(), CloseFailed> {
        let (place, open) = self.table.remove(which);
        let _ = self.files.remove(place);
        if open.use_of != Use::Marking {
            return Ok(());
        }
        let removed = fs::remove_file(self.rt, open.name.as_str()).is_ok();
        drop(open);
        if !removed {
            self.count_failure();
            return Err(CloseFailed);
        }
        Ok(())
    }
}

/// Opens a file for a use.
fn opened<R: Files>(rt: &R, use_of: Use, name: &str) -> io::Result<R::File> {
    match use_of {
        Use::Reading => fs::open(rt, name),
        Use::Writing | Use::Marking => fs::create(rt, name),
    }
}

/// One read, which is made again where it was interrupted.
fn read_once<S: Read>(source: &mut S, into: &mut [u8]) -> io::Result<usize>
    ensures { IfOk result (λ count. count ≤ length into.new) }
{
    for _ in 0..u64::MAX {
        match source.read(into) {
            Err(error) if error.kind() == ErrorKind::Interrupted => {}
            answer => return answer,
        }
    }
    Err(io::Error::from(ErrorKind::Interrupted))
}

/// One write, which is made again where it was interrupted.
fn write_once<S: Write>(sink: &mut S, bytes: &[u8]) -> io::Result<usize>
    ensures { IfOk result (λ count. count ≤ length bytes.now) }
{
    for _ in 0..u64::MAX {
        match sink.write(bytes) {
            Err(error) if error.kind() == ErrorKind::Interrupted => {}
            answer => return answer,
        }
    }
    Err(io::Error::from(ErrorKind::Interrupted))
}

/// Text for standard error. It is written whole or not at all.
fn print_error<R: Eprint>(rt: &R, bytes: &[u8]) -> io::Result<usize>
    ensures { IfOk result (λ count. count ≤ length bytes.now) }
{
    match str::from_utf8(bytes) {
        Ok(text) => {
            rt.eprint(text)?;
            Ok(bytes.len())
        }
        Err(_) => Ok(0),
    }
}
