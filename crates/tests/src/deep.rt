// Trees of thousands of stages.
use std::test;
use test_callers::{Leaving, Member, Pace, run_tree};

/// How many members the chain has.
const MEMBERS: usize = 4_000;

/// How many parts the sequence has.
const PARTS: usize = 2_700;

const PACE: Pace = Pace {
    size: 8,
    limit: 100,
    steps: 100,
    leaving: Leaving::Abandon,
};

const FILE: Member<'static> = Member {
    name: "a",
    bytes: "abc",
    cuts: &[],
    failing: None,
};

#[test]
fn deep_chain(rt: HostRuntime) -> Result<(), test::Fail> {
    let mut script = String::from_str(rt.alloc(), "run sourceFile \"a\"")?;
    for _ in 0..MEMBERS {
        script.push_str(" | passE")?;
    }
    script.push_str(" | stdout;")?;
    let run = run_tree(rt.alloc(), script.as_str(), &[FILE], PACE)?;
    let moves = "
start = acquire 1
acquired = read 1 at 3
abc = write 2 at 1 abc
wrote = read 1 at 3
end = release 1
closed = done unit, back nothing
";
    assert_eq!(rt; run.moves.as_str(), moves);
    Ok(())
}

#[test]
fn deep_sequence(rt: HostRuntime) -> Result<(), test::Fail> {
    let mut script = String::from_str(rt.alloc(), "run sourceFile \"a\" | { takeE 1")?;
    for _ in 1..PARTS {
        script.push_str("; takeE 1")?;
    }
    script.push_str(" } | stdout;")?;
    let run = run_tree(rt.alloc(), script.as_str(), &[FILE], PACE)?;
    let moves = "
start = acquire 1
acquired = read 1 at 3
abc = write 2 at 1 a
wrote = write 2 at 1 b
wrote = write 2 at 1 c
wrote = read 1 at 3
end = release 1
closed = done unit, back nothing
";
    assert_eq!(rt; run.moves.as_str(), moves);
    Ok(())
}
