// Real files: what the calls of a world do to them.
ghost use Rattle.std.specs.Prelude.{◌≡◌};
ghost use Rattle.cd_world.specs.declared.event.Use.TheVariants.{Reading};
ghost use Rattle.cd_world.specs.Live.{IsLive};

use crate::calls::{closes, gives, opened, takes};
use cd_host::HostWorld;
use cd_world::{Descriptor, Use, World, WorldError};
use std::path::Path;
use std::process::Abort;
use std::rt::Files;
use std::{env, fs, io, process};

/// A name of this test's own in a folder.
fn name_in(rt: &HostRuntime, folder: Path<'_>, what: &str) -> io::Result<String> {
    let id = process::id(rt.process());
    Ok(format!(in rt.alloc(); "{}/conduit_{id}_{what}", folder.display())?)
}

/// A name of this test's own in the folder for files that do not last.
fn name_of(rt: &HostRuntime, what: &str) -> io::Result<String> {
    let folder = env::temp_dir(rt)?;
    name_in(rt, folder.as_path(), what)
}

/// A file with these bytes.
fn file_with(rt: &HostRuntime, what: &str, text: &str) -> io::Result<String> {
    let name = name_of(rt, what)?;
    match fs::write(rt, name.as_str(), text) {
        Ok(()) => Ok(name),
        Err(error) => {
            drop(name);
            Err(error)
        }
    }
}

/// Whether a file is there with these bytes.
fn holds(rt: &HostRuntime, name: &str, text: &str) -> bool {
    match fs::read_to_string(rt, name) {
        Ok(held) => held.as_str() == text,
        Err(_) => false,
    }
}

/// Whether a file was there, which it no longer is.
fn is_removed(rt: &HostRuntime, name: &str) -> bool {
    fs::remove_file(rt, name).is_ok()
}

/// Reads a file that holds `held`, three bytes at a time.
fn read_held<W: World>(rt: &impl Abort, world: &mut W, name: &str) {
    let from = opened(rt, world, Use::Reading, name);
    let reads = [(3, "hel"), (1, "del"), (0, "del")];
    assert!(rt; gives(world, from, &mut [0; 3], &reads));
    assert!(rt; closes(world, Use::Reading, from));
}

#[test]
fn reads(rt: HostRuntime) {
    let name = file_with(&rt, "read", "held").expect(&rt, "a file");
    read_held(&rt, &mut HostWorld::new(rt.alloc(), &rt), &name);
    assert!(rt; holds(&rt, &name, "held"));
    assert!(rt; is_removed(&rt, &name));
}

#[test]
fn writes(rt: HostRuntime) {
    let name = file_with(&rt, "write", "what stood there").expect(&rt, "a file");
    let mut world = HostWorld::new(rt.alloc(), &rt);
    let to = opened(&rt, &mut world, Use::Writing, &name);
    assert!(rt; holds(&rt, &name, ""));
    assert!(rt; takes(&mut world, to, &[("one", 3), ("two", 3)]));
    assert!(rt; closes(&mut world, Use::Writing, to));
    assert!(rt; holds(&rt, &name, "onetwo"));
    assert!(rt; is_removed(&rt, &name));
}

#[test]
fn a_mark_is_removed(rt: HostRuntime) {
    let name = name_of(&rt, "kept").expect(&rt, "a name");
    let mut world = HostWorld::new(rt.alloc(), &rt);
    let mark = opened(&rt, &mut world, Use::Marking, &name);
    assert!(rt; holds(&rt, &name, ""));
    assert!(rt; closes(&mut world, Use::Marking, mark));
    assert!(rt; matches!(fs::exists(&rt, name.as_str()), Ok(false)));
}

#[test]
fn a_mark_that_is_lost(rt: HostRuntime) {
    let name = name_of(&rt, "lost").expect(&rt, "a name");
    let mut world = HostWorld::new(rt.alloc(), &rt);
    let mark = opened(&rt, &mut world, Use::Marking, &name);
    assert!(rt; is_removed(&rt, &name));
    assert!(rt; !closes(&mut world, Use::Marking, mark));
}

/// Reads two files byte by byte, now of one and now of the other.
fn read_in_turns<W: World>(rt: &impl Abort, world: &mut W, names: (&str, &str)) {
    let first = opened(rt, world, Use::Reading, names.0);
    let second = opened(rt, world, Use::Reading, names.1);
    let into = &mut [0; 1];
    assert!(rt; gives(world, first, into, &[(1, "a")]));
    assert!(rt; gives(world, second, into, &[(1, "c")]));
    assert!(rt; gives(world, first, into, &[(1, "b")]));
    assert!(rt; closes(world, Use::Reading, first));
    assert!(rt; gives(world, second, into, &[(1, "d")]));
    assert!(rt; closes(world, Use::Reading, second));
}

#[test]
fn two_files_in_turns(rt: HostRuntime) {
    let first = file_with(&rt, "first", "ab").expect(&rt, "a file");
    let second = file_with(&rt, "second", "cd").expect(&rt, "a file");
    let names = (first.as_str(), second.as_str());
    read_in_turns(&rt, &mut HostWorld::new(rt.alloc(), &rt), names);
    assert!(rt; holds(&rt, &first, "ab") && holds(&rt, &second, "cd"));
    assert!(rt; is_removed(&rt, &first) && is_removed(&rt, &second));
}

/// Reads a file behind the close of one that was opened later.
fn read_the_sooner<W: World>(rt: &impl Abort, world: &mut W, names: (&str, &str)) {
    let first = opened(rt, world, Use::Reading, names.0);
    let second = opened(rt, world, Use::Reading, names.1);
    assert!(rt; closes(world, Use::Reading, second));
    assert!(rt; gives(world, first, &mut [0; 2], &[(2, "ab")]));
    assert!(rt; closes(world, Use::Reading, first));
}

#[test]
fn the_later_file_closed_first(rt: HostRuntime) {
    let first = file_with(&rt, "sooner", "ab").expect(&rt, "a file");
    let second = file_with(&rt, "later", "cd").expect(&rt, "a file");
    let names = (first.as_str(), second.as_str());
    read_the_sooner(&rt, &mut HostWorld::new(rt.alloc(), &rt), names);
    assert!(rt; is_removed(&rt, &first) && is_removed(&rt, &second));
}

/// Whether no file of this name can be made or marked.
fn refuses<W: World>(world: &mut W, name: &str) -> bool {
    matches!(world.create(name), Err(WorldError::Failed))
        && matches!(world.mark(name), Err(WorldError::Failed))
}

/// Whether a read fails.
fn fails<W: World>(world: &mut W, from: Descriptor) -> bool
    requires { IsLive Reading from (W.live world.old) }
    ensures live { W.live world.new ≡ W.live world.old }
{
    world.read(from, &mut [0; 1]) == Err(WorldError::Failed)
}

/// Opens a folder, whose read fails.
fn read_folder<W: World>(rt: &impl Abort, world: &mut W, folder: &str) {
    let from = opened(rt, world, Use::Reading, folder);
    assert!(rt; fails(world, from));
    assert!(rt; closes(world, Use::Reading, from));
}

#[test]
fn failures(rt: HostRuntime) {
    let folder = name_of(&rt, "folder").expect(&rt, "a name");
    let missing = name_of(&rt, "missing/file").expect(&rt, "a name");
    assert!(rt; fs::create_dir(&rt, folder.as_str()).is_ok());
    let mut world = HostWorld::new(rt.alloc(), &rt);
    assert!(rt; refuses(&mut world, &missing) && refuses(&mut world, &folder));
    assert!(rt; matches!(world.open_read(&missing), Err(WorldError::Failed)));
    read_folder(&rt, &mut world, &folder);
    assert!(rt; fs::remove_dir(&rt, folder.as_str()).is_ok());
}
