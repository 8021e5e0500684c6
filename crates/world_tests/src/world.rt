// A world in memory: what it holds after calls of every sort.
use crate::calls::{closes, gives, opened, takes};
use cd_elem::{Items, Literal};
use cd_world::{Descriptor, Fail, MemoryFile, MemoryFiles, MemoryWorld, Use, World, WorldError};
use std::alloc::Global;
use std::process::Abort;

/// A file whose calls move one byte and then two, and whose second open and second close fail.
fn file_of(rt: &impl Abort, alloc: Global, name: &str, bytes: &str) -> MemoryFile {
    MemoryFile {
        name: Literal::new(alloc, name).expect(rt, "memory"),
        bytes: Items::from_slice(alloc, bytes.as_bytes()).expect(rt, "memory"),
        read_cuts: Items::from_slice(alloc, &[0, 2]).expect(rt, "memory"),
        write_cuts: Items::from_slice(alloc, &[0, 2]).expect(rt, "memory"),
        fails: Items::from_slice(alloc, &[Fail::Opening(2), Fail::Closing(2)]).expect(rt, "memory"),
    }
}

/// Whether there was room for a file.
fn put(files: &mut MemoryFiles, file: MemoryFile) -> bool {
    files.push(file).is_ok()
}

/// The file `a`, one whose opened name begins with `<`, and standard input.
fn files_of(rt: &impl Abort, alloc: Global) -> MemoryFiles {
    let mut files: MemoryFiles = Items::new(alloc);
    let members = &[
        ("a", "held"),
        ("a", "hidden"),
        ("<<stdout>", "file"),
        ("<stdin>", "in"),
    ];
    for (name, bytes) in members {
        assert!(rt; put(&mut files, file_of(rt, alloc, name, bytes)));
    }
    files
}

fn world_of(rt: &impl Abort, alloc: Global) -> MemoryWorld {
    MemoryWorld::new(alloc, files_of(rt, alloc)).expect(rt, "memory")
}

/// Whether a file is there with these bytes.
fn holds(world: &MemoryWorld, name: &str, bytes: &str) -> bool {
    match world.file(name) {
        Some(held) => held == bytes.as_bytes(),
        None => false,
    }
}

/// Reads `a` to its end.
fn read_a(rt: &impl Abort, world: &mut MemoryWorld) {
    let from = opened(rt, world, Use::Reading, "a");
    let reads = [(1, "h"), (2, "el"), (1, "d"), (0, "")];
    assert!(rt; gives(world, from, &mut [0; 8], &reads));
    assert!(rt; closes(world, Use::Reading, from));
}

/// Writes `a` anew. This is the second close of it, which fails.
fn write_a(rt: &impl Abort, world: &mut MemoryWorld) {
    let to = opened(rt, world, Use::Writing, "a");
    let writes = [("1234", 1), ("1234", 2), ("1234", 4)];
    assert!(rt; takes(world, to, &writes));
    assert!(rt; !closes(world, Use::Writing, to));
}

/// Whether a file cannot be opened.
fn is_refused(world: &mut MemoryWorld, name: &str) -> bool {
    matches!(world.open_read(name), Err(WorldError::Failed))
}

#[test]
fn files(rt: HostRuntime) {
    let mut world = world_of(&rt, rt.alloc());
    read_a(&rt, &mut world);
    assert!(rt; is_refused(&mut world, "a"));
    write_a(&rt, &mut world);
    assert!(rt; holds(&world, "a", "1121234"));
    assert!(rt; is_refused(&mut world, "b"));
    assert!(rt; world.faults() == 3);
}

/// Marks `a`, and closes it, which may fail.
fn mark_a(rt: &impl Abort, world: &mut MemoryWorld) -> bool {
    let mark = opened(rt, world, Use::Marking, "a");
    assert!(rt; holds(world, "a", ""));
    closes(world, Use::Marking, mark)
}

#[test]
fn marks(rt: HostRuntime) {
    let mut world = world_of(&rt, rt.alloc());
    assert!(rt; mark_a(&rt, &mut world));
    assert!(rt; world.file("a").is_none());
    assert!(rt; matches!(world.mark("a"), Err(WorldError::Failed)));
    assert!(rt; !mark_a(&rt, &mut world));
    assert!(rt; holds(&world, "a", ""));
}

/// Reads standard input to its end, and writes to both other streams.
fn pass_streams(rt: &impl Abort, world: &mut MemoryWorld) {
    let input = [(1, "i"), (1, "n"), (0, "")];
    assert!(rt; gives(world, Descriptor::STDIN, &mut [0; 8], &input));
    assert!(rt; takes(world, Descriptor::STDOUT, &[("out", 3)]));
    assert!(rt; takes(world, Descriptor::STDERR, &[("err", 3)]));
}

/// Reads the file that is named as standard output is.
fn read_namesake(rt: &impl Abort, world: &mut MemoryWorld) {
    let from = opened(rt, world, Use::Reading, "<stdout>");
    assert!(rt; gives(world, from, &mut [0; 8], &[(1, "f")]));
    assert!(rt; closes(world, Use::Reading, from));
}

#[test]
fn streams(rt: HostRuntime) {
    let mut world = world_of(&rt, rt.alloc());
    pass_streams(&rt, &mut world);
    read_namesake(&rt, &mut world);
    assert!(rt; holds(&world, "<stdout>", "out"));
    assert!(rt; holds(&world, "<stderr>", "err"));
    assert!(rt; holds(&world, "<<stdout>", "file"));
    assert!(rt; world.log().len() == 8);
}
