// Words with sites as statements: each call on the outside, and how the run ends.
use cd_elem::{NoMemory, Site};
use cd_run::RunFault;
use cd_world::Fail;
use std::test;
use test_callers::{LeafWord, drive};

/// A word over a file that holds `abc`, the call that fails, the limit, each call, and the answer.
#[derive(Clone, Copy)]
struct Row<'a> {
    word: LeafWord,
    failing: Option<Fail>,
    limit: u64,
    calls: &'a str,
    fault: Option<RunFault>,
}

const SITE: Site = Site(1);

#[test]
fn statements(rt: HostRuntime) -> Result<(), test::Fail> {
    let rows = [
        Row {
            word: LeafWord::SourceFile,
            failing: None,
            limit: 3,
            calls: "
opened
gave ab
gave c
gave the end
closed
",
            fault: None,
        },
        // behind the limit one byte more is asked for
        Row {
            word: LeafWord::SourceFile,
            failing: None,
            limit: 2,
            calls: "
opened
gave ab
gave c
closed
",
            fault: Some(RunFault::TooLong { site: SITE }),
        },
        Row {
            word: LeafWord::SourceFile,
            failing: Some(Fail::Opening(1)),
            limit: 3,
            calls: "
failed
",
            fault: Some(RunFault::AcquireFault { site: SITE }),
        },
        Row {
            word: LeafWord::SourceFile,
            failing: Some(Fail::Reading(2)),
            limit: 3,
            calls: "
opened
gave ab
failed
closed
",
            fault: Some(RunFault::ReadFault { site: SITE }),
        },
        Row {
            word: LeafWord::SourceFile,
            failing: Some(Fail::Closing(1)),
            limit: 3,
            calls: "
opened
gave ab
gave c
gave the end
failed
",
            fault: Some(RunFault::CloseFault { site: SITE }),
        },
        Row {
            word: LeafWord::Stdin,
            failing: None,
            limit: 3,
            calls: "
gave the end
",
            fault: None,
        },
        Row {
            word: LeafWord::SinkFile,
            failing: None,
            limit: 3,
            calls: "
opened
closed
",
            fault: None,
        },
        Row {
            word: LeafWord::Stdout,
            failing: None,
            limit: 3,
            calls: "
",
            fault: None,
        },
    ];
    for row in rows {
        let driven = drive(rt.alloc(), row.word, "abc", row.failing, 2, row.limit)?;
        let fault = driven.ended.answer.err();
        if fault == Some(RunFault::NoMemory) {
            Err(NoMemory)?;
        }
        assert!(rt; fault == row.fault);
        assert_eq!(rt; driven.calls.as_str(), row.calls);
    }
    Ok(())
}
