// Trees that are given up between two steps, while their words hold tickets.
use std::test;
use test_callers::{Leaving, Member, Pace, run_tree};

/// After how many steps a tree is given up, each of its moves, and each call on the outside.
#[derive(Clone, Copy)]
struct Row<'a> {
    steps: u32,
    leaving: Leaving,
    moves: &'a str,
    calls: &'a str,
}

#[test]
fn given_up(rt: HostRuntime) -> Result<(), test::Fail> {
    let rows = [
        // the ticket that the sink was to be given
        Row {
            steps: 1,
            leaving: Leaving::Abandon,
            moves: "
start = acquire 2
",
            calls: "
opened
closed
",
        },
        // that of the sink, and the one that the source was to be given
        Row {
            steps: 2,
            leaving: Leaving::Abandon,
            moves: "
start = acquire 2
acquired = acquire 1
",
            calls: "
opened
opened
closed
closed
",
        },
        // those of both, with bytes that were read and are not taken in
        Row {
            steps: 3,
            leaving: Leaving::Retire,
            moves: "
start = acquire 2
acquired = acquire 1
acquired = read 1 at 4
back nothing
",
            calls: "
opened
opened
gave ab
closed
closed
",
        },
        Row {
            steps: 4,
            leaving: Leaving::Abandon,
            moves: "
start = acquire 2
acquired = acquire 1
acquired = read 1 at 4
ab = write 2 at 3 ab
",
            calls: "
opened
opened
gave ab
wrote
closed
closed
",
        },
        // the source has closed its file
        Row {
            steps: 6,
            leaving: Leaving::Retire,
            moves: "
start = acquire 2
acquired = acquire 1
acquired = read 1 at 4
ab = write 2 at 3 ab
wrote = read 1 at 4
end = release 1
back nothing
",
            calls: "
opened
opened
gave ab
wrote
gave the end
closed
closed
",
        },
    ];
    let file = Member {
        name: "a",
        bytes: "ab",
        cuts: &[],
        failing: None,
    };
    for row in rows {
        let pace = Pace {
            size: 8,
            limit: 100,
            steps: row.steps,
            leaving: row.leaving,
        };
        let run = run_tree(
            rt.alloc(),
            "run sourceFile \"a\" | sinkFile \"x\";",
            &[file],
            pace,
        )?;
        assert_eq!(rt; run.moves.as_str(), row.moves);
        assert_eq!(rt; run.calls.as_str(), row.calls);
    }
    Ok(())
}
