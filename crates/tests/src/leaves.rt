// Words with sites, each of their moves written down.
use cd_elem::Site;
use cd_scope::JournalLine;
use cd_world::Fail;
use std::test;
use test_callers::{Given, LeafRun, LeafWord, run_leaf};

/// A word, what is read or what comes to it, whether that ends, and each of its moves.
#[derive(Clone, Copy)]
struct Row<'a> {
    word: LeafWord,
    failing: Option<Fail>,
    given: &'a str,
    ends: bool,
    moves: &'a str,
    journal: &'a [JournalLine],
}

const OPENED: JournalLine = JournalLine::Acquired(Site(1));

const CLOSED: JournalLine = JournalLine::ClosedEarly {
    site: Site(1),
    failed: false,
};

const LEFT: JournalLine = JournalLine::ClosedAtEnd {
    site: Site(1),
    failed: false,
};

#[test]
fn leaves(rt: HostRuntime) -> Result<(), test::Fail> {
    let rows = [
        Row {
            word: LeafWord::SourceFile,
            failing: None,
            given: "abc",
            ends: true,
            moves: "
start = acquire 1
acquired = read 1 at 3
ab = emit ab
next = read 1 at 3
c = emit c
next = read 1 at 3
end = release 1
closed = done unit, back nothing
",
            journal: &[OPENED, CLOSED],
        },
        Row {
            word: LeafWord::SourceFile,
            failing: Some(Fail::Opening(1)),
            given: "ab",
            ends: true,
            moves: "
start = acquire 1
refused
",
            journal: &[],
        },
        // no step follows a value that it gave, and its file is closed with the scope
        Row {
            word: LeafWord::SourceFile,
            failing: None,
            given: "ab",
            ends: false,
            moves: "
start = acquire 1
acquired = read 1 at 3
ab = emit ab
next = read 1 at 3
",
            journal: &[OPENED, LEFT],
        },
        Row {
            word: LeafWord::Stdin,
            failing: None,
            given: "ab",
            ends: true,
            moves: "
start = read 1 at 0
ab = emit ab
next = read 1 at 0
end = done unit, back nothing
",
            journal: &[],
        },
        Row {
            word: LeafWord::SinkFile,
            failing: None,
            given: "abc",
            ends: true,
            moves: "
start = acquire 1
acquired = need
ab = write 1 at 3 ab
wrote = need
c = write 1 at 3 c
wrote = need
end = release 1
closed = done unit, back nothing
",
            journal: &[OPENED, CLOSED],
        },
        Row {
            word: LeafWord::SinkFile,
            failing: None,
            given: "",
            ends: false,
            moves: "
start = acquire 1
acquired = need
",
            journal: &[OPENED, LEFT],
        },
        Row {
            word: LeafWord::Stdout,
            failing: None,
            given: "ab",
            ends: true,
            moves: "
start = need
ab = write 1 at 1 ab
wrote = need
end = done unit, back nothing
",
            journal: &[],
        },
    ];
    for row in rows {
        let run = run_leaf(
            rt.alloc(),
            row.word,
            row.failing,
            Given::new(row.given, 2, row.ends),
        )?;
        let LeafRun { text, finished } = run;
        assert_eq!(rt; text.as_str(), row.moves);
        assert!(rt; finished.journal.as_slice() == row.journal);
    }
    Ok(())
}
