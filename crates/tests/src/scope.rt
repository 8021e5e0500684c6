// The journal and the first failure of a scope.
use crate::marks::{Release, two_marks};
use crate::readers::many_readers;
use cd_elem::Site;
use cd_scope::JournalLine;
use cd_world::Fail;

/// A line that no scope of two marks tells.
const ANOTHER: &str = "another";

/// What a scope of the mark `m` at site 1 and the mark `n` at site 2 tells of a call.
fn words_of(line: &JournalLine) -> &str {
    match line {
        JournalLine::Acquired(site) => match site.0 {
            1 => "open m",
            2 => "open n",
            _ => ANOTHER,
        },
        JournalLine::ClosedEarly { site, failed } => match (site.0, *failed) {
            (1, false) => "close m",
            (1, true) => "fail to close m",
            (2, false) => "close n",
            (2, true) => "fail to close n",
            _ => ANOTHER,
        },
        JournalLine::ClosedAtEnd { site, failed } => match (site.0, *failed) {
            (1, false) => "end m",
            (1, true) => "fail to end m",
            (2, false) => "end n",
            (2, true) => "fail to end n",
            _ => ANOTHER,
        },
    }
}

/// Whether this is what the scope told.
fn is_told(lines: &[JournalLine], wanted: &str) -> bool {
    let mut words = wanted.split(", ");
    for line in lines {
        if words.next() != Some(words_of(line)) {
            return false;
        }
    }
    words.next().is_none()
}

/// Which call fails, how the first mark is released, what the scope tells, and the site of the first failure at its end.
type Row<'a> = (Option<(&'a str, Fail)>, Release, &'a str, u32);

const NO_FAILURE: u32 = 0;

const ROWS: [Row<'static>; 10] = [
    (
        None,
        Release::Ticket,
        "open m, open n, close m, end n",
        NO_FAILURE,
    ),
    (
        None,
        Release::Site,
        "open m, open n, close m, end n",
        NO_FAILURE,
    ),
    (
        Some(("m", Fail::Opening(1))),
        Release::Never,
        "open n, end n",
        NO_FAILURE,
    ),
    (
        Some(("m", Fail::Opening(1))),
        Release::Ticket,
        "open n, end n",
        NO_FAILURE,
    ),
    (
        Some(("n", Fail::Opening(1))),
        Release::Never,
        "open m, end m",
        NO_FAILURE,
    ),
    (
        Some(("n", Fail::Opening(1))),
        Release::Ticket,
        "open m, close m",
        NO_FAILURE,
    ),
    (
        Some(("m", Fail::Closing(1))),
        Release::Never,
        "open m, open n, end n, fail to end m",
        1,
    ),
    (
        Some(("m", Fail::Closing(1))),
        Release::Ticket,
        "open m, open n, fail to close m, end n",
        NO_FAILURE,
    ),
    (
        Some(("n", Fail::Closing(1))),
        Release::Never,
        "open m, open n, fail to end n, end m",
        2,
    ),
    (
        Some(("n", Fail::Closing(1))),
        Release::Ticket,
        "open m, open n, close m, fail to end n",
        2,
    ),
];

#[test]
fn scopes(rt: HostRuntime) {
    for (failing, release, journal, first_fault) in ROWS {
        let finished = two_marks(rt.alloc(), failing, release).expect(&rt, "memory");
        assert!(rt; is_told(finished.journal.as_slice(), journal));
        let fault = finished.first_fault.map_or(NO_FAILURE, |site| site.0);
        assert!(rt; fault == first_fault);
    }
}

/// Whether the lines are opens of the sites from 1 to a count, and then closes at the end in the other order.
fn is_nested(lines: &[JournalLine], count: u32) -> bool {
    let (opens, closes) = lines.split_at(lines.len() / 2);
    opens.len() == count as usize
        && closes.len() == count as usize
        && opens.iter().zip(1..=count).all(|(line, number)| *line
            == JournalLine::Acquired(Site(number)))
        && closes.iter().zip((1..=count).rev()).all(|(line, number)| {
            *line
                == JournalLine::ClosedAtEnd {
                    site: Site(number),
                    failed: false,
                }
        })
}

#[test]
fn readers(rt: HostRuntime) {
    let finished = many_readers(rt.alloc(), 128).expect(&rt, "memory");
    assert!(rt; is_nested(finished.journal.as_slice(), 128));
    assert!(rt; finished.first_fault.is_none());
}
