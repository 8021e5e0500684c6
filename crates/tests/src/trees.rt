// Trees of stages as statements, each of their moves written down.
use cd_elem::Site;
use cd_scope::JournalLine;
use cd_world::Fail;
use std::alloc::Global;
use std::test;
use test_callers::{Leaving, Member, Pace, StepError, run_tree};

/// A script over the file `a`, each move of its tree, what is written to standard output, and the journal.
#[derive(Clone, Copy)]
struct Row<'a> {
    script: &'a str,
    bytes: &'a str,
    /// The most bytes of each read.
    cuts: &'a [u32],
    failing: Option<Fail>,
    limit: u64,
    moves: &'a str,
    output: &'a str,
    journal: &'a [JournalLine],
}

const OPENED: JournalLine = JournalLine::Acquired(Site(1));

const ALSO_OPENED: JournalLine = JournalLine::Acquired(Site(2));

const CLOSED: JournalLine = JournalLine::ClosedEarly {
    site: Site(1),
    failed: false,
};

const ALSO_CLOSED: JournalLine = JournalLine::ClosedEarly {
    site: Site(2),
    failed: false,
};

const LEFT: JournalLine = JournalLine::ClosedAtEnd {
    site: Site(1),
    failed: false,
};

const ALSO_LEFT: JournalLine = JournalLine::ClosedAtEnd {
    site: Site(2),
    failed: false,
};

/// Each move of a tree that is stepped to its end, with reads as large as may be; a line more tells where the output or the
/// journal is not that of its row.
fn moves_of(alloc: Global, row: Row<'_>) -> Result<String, StepError> {
    let file = Member {
        name: "a",
        bytes: row.bytes,
        cuts: row.cuts,
        failing: row.failing,
    };
    let pace = Pace {
        size: 32_768,
        limit: row.limit,
        steps: 100,
        leaving: Leaving::Abandon,
    };
    let mut run = run_tree(alloc, row.script, &[file], pace)?;
    let output = run.world.file("<stdout>").unwrap_or(&[]);
    if output != row.output.as_bytes() {
        run.moves.push_str("another output\n")?;
    }
    if run.finished.journal.as_slice() != row.journal {
        run.moves.push_str("another journal\n")?;
    }
    Ok(run.moves)
}

// what the first part has not read begins what the second reads, wherever the file is cut
#[test]
fn cut_early(rt: HostRuntime) -> Result<(), test::Fail> {
    let row = Row {
        script: "run sourceFile \"a\" | { takeWhileE digit; dropE 1; passE } | stdout;",
        bytes: "12x34",
        cuts: &[2, 3],
        failing: None,
        limit: 100,
        moves: "
start = acquire 1
acquired = read 1 at 3
12 = write 2 at 1 12
wrote = read 1 at 3
x34 = write 2 at 1 34
wrote = read 1 at 3
end = release 1
closed = done unit, back nothing
",
        output: "1234",
        journal: &[OPENED, CLOSED],
    };
    let moves = moves_of(rt.alloc(), row)?;
    assert!(rt; moves.as_str() == row.moves);
    Ok(())
}

#[test]
fn cut_late(rt: HostRuntime) -> Result<(), test::Fail> {
    let row = Row {
        script: "run sourceFile \"a\" | { takeWhileE digit; dropE 1; passE } | stdout;",
        bytes: "12x34",
        cuts: &[3, 2],
        failing: None,
        limit: 100,
        moves: "
start = acquire 1
acquired = read 1 at 3
12x = write 2 at 1 12
wrote = read 1 at 3
34 = write 2 at 1 34
wrote = read 1 at 3
end = release 1
closed = done unit, back nothing
",
        output: "1234",
        journal: &[OPENED, CLOSED],
    };
    let moves = moves_of(rt.alloc(), row)?;
    assert!(rt; moves.as_str() == row.moves);
    Ok(())
}

// the result of a sequence is that of its last part
#[test]
fn last_result(rt: HostRuntime) -> Result<(), test::Fail> {
    let row = Row {
        script: "run sourceFile \"a\" | { headE; lengthE };",
        bytes: "abc",
        cuts: &[1, 1, 1],
        failing: None,
        limit: 100,
        moves: "
start = acquire 1
acquired = read 1 at 3
a = read 1 at 3
b = read 1 at 3
c = read 1 at 3
end = release 1
closed = done 2, back nothing
",
        output: "= 2\n",
        journal: &[OPENED, CLOSED],
    };
    let moves = moves_of(rt.alloc(), row)?;
    assert!(rt; moves.as_str() == row.moves);
    Ok(())
}

// a source has no more bytes than the limit
#[test]
fn up_to_the_limit(rt: HostRuntime) -> Result<(), test::Fail> {
    let row = Row {
        script: "run sourceFile \"a\" | stdout;",
        bytes: "abcd",
        cuts: &[],
        failing: None,
        limit: 4,
        moves: "
start = acquire 1
acquired = read 1 at 3
abcd = write 2 at 1 abcd
wrote = read 1 at 3
end = release 1
closed = done unit, back nothing
",
        output: "abcd",
        journal: &[OPENED, CLOSED],
    };
    let moves = moves_of(rt.alloc(), row)?;
    assert!(rt; moves.as_str() == row.moves);
    Ok(())
}

// a source begins when the one before it has ended and is closed
#[test]
fn source_behind_source(rt: HostRuntime) -> Result<(), test::Fail> {
    let row = Row {
        script: "run { sourceFile \"a\"; sourceFile \"a\" } | stdout;",
        bytes: "ab",
        cuts: &[2, 0, 1, 1],
        failing: None,
        limit: 100,
        moves: "
start = acquire 1
acquired = read 1 at 3
ab = write 3 at 1 ab
wrote = read 1 at 3
end = release 1
closed = acquire 2
acquired = read 2 at 4
a = write 3 at 1 a
wrote = read 2 at 4
b = write 3 at 1 b
wrote = read 2 at 4
end = release 2
closed = done unit, back nothing
",
        output: "abab",
        journal: &[OPENED, CLOSED, ALSO_OPENED, ALSO_CLOSED],
    };
    let moves = moves_of(rt.alloc(), row)?;
    assert!(rt; moves.as_str() == row.moves);
    Ok(())
}

// a mark stands while its body runs
#[test]
fn mark_round_a_source(rt: HostRuntime) -> Result<(), test::Fail> {
    let row = Row {
        script: "run mark \"m\" { sourceFile \"a\" } | stdout;",
        bytes: "ab",
        cuts: &[],
        failing: None,
        limit: 100,
        moves: "
start = acquire 1
acquired = acquire 2
acquired = read 2 at 4
ab = write 3 at 1 ab
wrote = read 2 at 4
end = release 2
closed = release 1
closed = done unit, back nothing
",
        output: "ab",
        journal: &[OPENED, ALSO_OPENED, ALSO_CLOSED, CLOSED],
    };
    let moves = moves_of(rt.alloc(), row)?;
    assert!(rt; moves.as_str() == row.moves);
    Ok(())
}

// no further byte is read of a source whose reader has ended, and its file is closed with the scope
#[test]
fn reader_ended(rt: HostRuntime) -> Result<(), test::Fail> {
    let row = Row {
        script: "run sourceFile \"a\" | takeE 2 | stdout;",
        bytes: "abcd",
        cuts: &[1, 2],
        failing: None,
        limit: 100,
        moves: "
start = acquire 1
acquired = read 1 at 3
a = write 2 at 1 a
wrote = read 1 at 3
bc = write 2 at 1 b
wrote = done unit, back nothing
",
        output: "ab",
        journal: &[OPENED, LEFT],
    };
    let moves = moves_of(rt.alloc(), row)?;
    assert!(rt; moves.as_str() == row.moves);
    Ok(())
}

#[test]
fn marked_reader_ended(rt: HostRuntime) -> Result<(), test::Fail> {
    let row = Row {
        script: "run mark \"m\" { sourceFile \"a\" } | { headE; takeE 1 } | stdout;",
        bytes: "abcd",
        cuts: &[],
        failing: None,
        limit: 100,
        moves: "
start = acquire 1
acquired = acquire 2
acquired = read 2 at 4
abcd = write 3 at 1 b
wrote = done unit, back nothing
",
        output: "b",
        journal: &[OPENED, ALSO_OPENED, ALSO_LEFT, LEFT],
    };
    let moves = moves_of(rt.alloc(), row)?;
    assert!(rt; moves.as_str() == row.moves);
    Ok(())
}

// a read that fails
#[test]
fn failed_read(rt: HostRuntime) -> Result<(), test::Fail> {
    let row = Row {
        script: "run sourceFile \"a\" | stdout;",
        bytes: "abcdef",
        cuts: &[2, 2, 2],
        failing: Some(Fail::Reading(3)),
        limit: 100,
        moves: "
start = acquire 1
acquired = read 1 at 3
ab = write 2 at 1 ab
wrote = read 1 at 3
cd = write 2 at 1 cd
wrote = read 1 at 3
read fault 1
",
        output: "abcd",
        journal: &[OPENED, LEFT],
    };
    let moves = moves_of(rt.alloc(), row)?;
    assert!(rt; moves.as_str() == row.moves);
    Ok(())
}

// one byte past the limit
#[test]
fn past_the_limit(rt: HostRuntime) -> Result<(), test::Fail> {
    let row = Row {
        script: "run sourceFile \"a\" | stdout;",
        bytes: "abcde",
        cuts: &[],
        failing: None,
        limit: 4,
        moves: "
start = acquire 1
acquired = read 1 at 3
abcd = write 2 at 1 abcd
wrote = read 1 at 3
too long 1
",
        output: "abcd",
        journal: &[OPENED, LEFT],
    };
    let moves = moves_of(rt.alloc(), row)?;
    assert!(rt; moves.as_str() == row.moves);
    Ok(())
}

// no such file
#[test]
fn no_such_file(rt: HostRuntime) -> Result<(), test::Fail> {
    let row = Row {
        script: "run sourceFile \"missing\" | stdout;",
        bytes: "",
        cuts: &[],
        failing: None,
        limit: 100,
        moves: "
start = acquire 1
acquire fault 1
",
        output: "",
        journal: &[],
    };
    let moves = moves_of(rt.alloc(), row)?;
    assert!(rt; moves.as_str() == row.moves);
    Ok(())
}
