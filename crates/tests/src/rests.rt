// What trees of element words hand on and give back.
use std::test::Fail;
use test_callers::{Given, run_on_bytes};

/// A pipe on bytes, what comes to it, so many bytes at a time and with its end or without, after how many steps it is
/// retired, and each of its moves.
#[derive(Clone, Copy)]
struct Row<'a> {
    script: &'a str,
    given: &'a str,
    size: usize,
    ends: bool,
    steps: u32,
    moves: &'a str,
}

#[test]
fn ended(rt: HostRuntime) -> Result<(), Fail> {
    let rows = [
        // of what the members of a chain have not read, only that of the first is given back
        Row {
            script: "run takeE 5 | takeE 3 | takeE 1;",
            given: "abcdefg",
            size: 7,
            ends: false,
            steps: 100,
            moves: "
start = need
abcdefg = emit a
next = done unit, back fg
",
        },
        // and what it gave back when it ended
        Row {
            script: "run takeE 2 | passE | lengthE;",
            given: "abcd",
            size: 4,
            ends: false,
            steps: 100,
            moves: "
start = need
abcd = done 2, back cd
",
        },
        // each part of a sequence begins with what the one before has left
        Row {
            script: "run { takeE 2; dropE 1; takeE 2 };",
            given: "abcdefg",
            size: 7,
            ends: false,
            steps: 100,
            moves: "
start = need
abcdefg = emit ab
next = emit de
next = done unit, back fg
",
        },
        Row {
            script: "run { takeE 2; dropE 1; takeE 2 };",
            given: "abcdefg",
            size: 2,
            ends: false,
            steps: 100,
            moves: "
start = need
ab = emit ab
next = need
cd = emit d
next = need
ef = emit e
next = done unit, back f
",
        },
        // the end is told to each part
        Row {
            script: "run { dropE 2; headE; lengthE };",
            given: "a",
            size: 1,
            ends: true,
            steps: 100,
            moves: "
start = need
a = need
end = done 0, back nothing
",
        },
        // a sequence in a chain gives back into the chain, where it is dropped
        Row {
            script: "run takeE 4 | { dropE 1; takeE 2 } | passE;",
            given: "abcdef",
            size: 6,
            ends: false,
            steps: 100,
            moves: "
start = need
abcdef = emit bc
next = done unit, back ef
",
        },
        // a chain at the end of a sequence
        Row {
            script: "run { takeE 1; takeE 3 | takeE 1 };",
            given: "abcdef",
            size: 6,
            ends: false,
            steps: 100,
            moves: "
start = need
abcdef = emit a
next = emit b
next = done unit, back ef
",
        },
        // a sequence in a sequence
        Row {
            script: "run { { takeE 1; dropE 1 }; takeE 1 };",
            given: "abcd",
            size: 4,
            ends: false,
            steps: 100,
            moves: "
start = need
abcd = emit a
next = emit c
next = done unit, back d
",
        },
    ];
    for row in rows {
        let given = Given::new(row.given, row.size, row.ends);
        let run = run_on_bytes(rt.alloc(), row.script, given, row.steps)?;
        assert_eq!(rt; run.moves.as_str(), row.moves);
    }
    Ok(())
}

#[test]
fn retired(rt: HostRuntime) -> Result<(), Fail> {
    let rows = [
        // a chain gives back what its first member has not read
        Row {
            script: "run takeE 3 | takeE 2 | passE;",
            given: "abcd",
            size: 4,
            ends: false,
            steps: 2,
            moves: "
start = need
abcd = emit ab
back d
",
        },
        // a sequence gives back what the part on its turn has not read: the first
        Row {
            script: "run { takeE 2; dropE 1; passE };",
            given: "abcd",
            size: 4,
            ends: false,
            steps: 2,
            moves: "
start = need
abcd = emit ab
back cd
",
        },
        // or a later one
        Row {
            script: "run { dropE 1; takeE 2; passE };",
            given: "abcdef",
            size: 6,
            ends: false,
            steps: 2,
            moves: "
start = need
abcdef = emit bc
back def
",
        },
        // what the other members have not read is dropped
        Row {
            script: "run takeE 4 | { dropE 1; takeE 2 } | takeE 1;",
            given: "abcdef",
            size: 6,
            ends: false,
            steps: 2,
            moves: "
start = need
abcdef = emit b
back ef
",
        },
        // where all was read, nothing is given back
        Row {
            script: "run passE | { dropE 1; lengthE };",
            given: "abcd",
            size: 2,
            ends: false,
            steps: 100,
            moves: "
start = need
ab = need
cd = need
back nothing
",
        },
        // before the first step
        Row {
            script: "run takeE 1 | takeE 1;",
            given: "ab",
            size: 2,
            ends: false,
            steps: 0,
            moves: "
back nothing
",
        },
    ];
    for row in rows {
        let given = Given::new(row.given, row.size, row.ends);
        let run = run_on_bytes(rt.alloc(), row.script, given, row.steps)?;
        assert_eq!(rt; run.moves.as_str(), row.moves);
    }
    Ok(())
}
