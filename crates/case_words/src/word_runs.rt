// Runs of words over whole lists, and how much of the input each asked for and took.
//
// A case has a word, an input with the numbers of its elements, and whether the input ends there. Chunks and pieces
// stand each behind a slash, where they are given and where pieces come out.
use crate::input::Given;
use crate::run::Run;
use crate::words::run_word;
use case_notation::{CaseError, field, numbers, text_within};
use cd_elem::{CHUNK_LIMIT, Items, NumberList, Pipe, Script, Sort, Stmt, Word};
use cd_script::{TEXT_LIMIT, parse};
use std::alloc::Global;

/// An input in chunks or pieces.
type Chunks = Items<NumberList>;

/// What a case asks for.
#[derive(Clone, Copy)]
struct Question<'a> {
    word: &'a Word,
    sort: Sort,
    input: &'a str,
    /// Whether the input ends behind what is given.
    ends: bool,
}

/// How a list is cut.
#[derive(Clone, Copy)]
enum Cut {
    /// Into chunks of at most so many elements.
    Every(usize),
    /// Behind each element whose bit is set, the first the lowest.
    At(u32),
}

fn word_in(script: &Script) -> Result<&Word, CaseError> {
    match script.statements().get(0) {
        Some(Stmt::Run(Pipe::Word(word))) => Ok(word),
        _ => Err(CaseError::Malformed("a word")),
    }
}

/// The script of one word.
fn script_of(alloc: Global, word: &str) -> Result<Script, CaseError> {
    let text = format!(in alloc; "run {word};")?;
    let script = parse(alloc, text_within(text.as_bytes(), TEXT_LIMIT)?);
    drop(text);
    script.map_err(|_| CaseError::Malformed("a word"))
}

fn sort_of(name: &str) -> Result<Sort, CaseError> {
    if name == "bytes" {
        Ok(Sort::Bytes)
    } else if name == "chars" {
        Ok(Sort::Chars)
    } else if name == "block" {
        Ok(Sort::Block)
    } else if name == "text" {
        Ok(Sort::Text)
    } else {
        Err(CaseError::Malformed("a sort"))
    }
}

fn push_chunk(chunks: &mut Chunks, chunk: NumberList) -> Result<(), CaseError> {
    chunks.push(chunk).map_err(|_| CaseError::NoMemory)
}

fn push_given(alloc: Global, chunks: &mut Chunks, text: &str) -> Result<(), CaseError> {
    for part in text.split('/').skip(1) {
        push_chunk(chunks, numbers(alloc, part)?)?;
    }
    Ok(())
}

/// Chunks or pieces, each behind a slash.
fn given(alloc: Global, text: &str) -> Result<Chunks, CaseError> {
    let mut chunks = Items::new(alloc);
    push_given(alloc, &mut chunks, text).and(Ok(chunks))
}

fn is_cut_behind(cut: Cut, count: usize, place: usize) -> bool {
    match cut {
        Cut::Every(most) => count >= most,
        Cut::At(mask) => place < 32 && (mask >> place) % 2 == 1,
    }
}

fn push_cut(alloc: Global, chunks: &mut Chunks, list: &[u32], cut: Cut) -> Result<(), CaseError> {
    let mut start = 0;
    for place in 0..list.len() {
        let end = place + 1;
        if end == list.len() || is_cut_behind(cut, end.saturating_sub(start), place) {
            let chunk = list.get(start..end).unwrap_or(&[]);
            push_chunk(chunks, Items::from_slice(alloc, chunk)?)?;
            start = end;
        }
    }
    Ok(())
}

/// A list in chunks.
fn cut_by(alloc: Global, list: &[u32], cut: Cut) -> Result<Chunks, CaseError> {
    let mut chunks = Items::new(alloc);
    push_cut(alloc, &mut chunks, list, cut).and(Ok(chunks))
}

/// Adds how many elements or pieces the run took, or what it gave back, where these are not the last that it was given.
fn write_net(text: &mut String, run: &Run) -> Result<(), CaseError> {
    match run.net {
        Some(net) => write!(text, "; net {net}")?,
        None => write!(text, "; gave back{}", run.back)?,
    }
    Ok(())
}

/// Adds what the run gave, its value and its net.
fn write_outcome(text: &mut String, run: &Run) -> Result<(), CaseError> {
    write!(text, "gives{}", run.given)?;
    if run.value.is_empty() {
        text.push_str("; waits")?;
        return Ok(());
    }
    write!(text, "; {}", run.value)?;
    write_net(text, run)
}

/// Adds the outcome of a run on these chunks, and where it is asked for how often the stage asked: its need, where it was
/// given one element or piece at a time.
fn write_run(
    alloc: Global,
    text: &mut String,
    asked: Question<'_>,
    chunks: &[NumberList],
    with_need: bool,
) -> Result<(), CaseError> {
    let given = Given {
        chunks,
        ends: asked.ends,
    };
    let run = run_word(alloc, asked.word, asked.sort, given)?;
    let mut written = write_outcome(text, &run);
    if with_need {
        written = written.and(write_need(text, run.asked));
    }
    drop(run);
    written
}

fn write_need(text: &mut String, need: usize) -> Result<(), CaseError> {
    Ok(write!(text, "; need {need}")?)
}

/// Adds the outcome of a run on a list that is cut.
fn write_cut_run(
    alloc: Global,
    text: &mut String,
    asked: Question<'_>,
    list: &[u32],
    cut: Cut,
    with_need: bool,
) -> Result<(), CaseError> {
    let chunks = cut_by(alloc, list, cut)?;
    let written = write_run(alloc, text, asked, chunks.as_slice(), with_need);
    drop(chunks);
    written
}

/// Adds a line for single elements, with the need, one for pairs, one for triples, and one for the whole.
fn write_sizes(
    alloc: Global,
    lines: &mut String,
    asked: Question<'_>,
    list: &[u32],
) -> Result<(), CaseError> {
    for (name, size) in [
        ("by 1", 1),
        ("by 2", 2),
        ("by 3", 3),
        ("whole", CHUNK_LIMIT),
    ] {
        write!(lines, "= {name}: ")?;
        write_cut_run(alloc, lines, asked, list, Cut::Every(size), size == 1)?;
        lines.push_str("\n")?;
    }
    Ok(())
}

/// Adds a line of the run with no cut, and one of each cut run that gives another.
fn write_cuts(
    alloc: Global,
    lines: &mut String,
    asked: Question<'_>,
    list: &[u32],
) -> Result<(), CaseError> {
    let mut whole = String::new(alloc);
    write_cut_run(alloc, &mut whole, asked, list, Cut::At(0), false)?;
    writeln!(lines, "= all cuts: {whole}")?;
    let mut outcome = String::new(alloc);
    for mask in 1..32 {
        outcome.clear();
        write_cut_run(alloc, &mut outcome, asked, list, Cut::At(mask), false)?;
        if outcome.as_str() != whole.as_str() {
            writeln!(lines, "= cut {mask:05b}: {outcome}")?;
        }
    }
    Ok(())
}

/// Adds a line for each move of a run on the chunks as they are given.
fn write_moves(alloc: Global, lines: &mut String, asked: Question<'_>) -> Result<(), CaseError> {
    let chunks = given(alloc, asked.input)?;
    let given = Given {
        chunks: chunks.as_slice(),
        ends: asked.ends,
    };
    let run = run_word(alloc, asked.word, asked.sort, given);
    drop(chunks);
    let run = run?;
    let written = lines.push_str(run.moves.as_str());
    drop(run);
    Ok(written?)
}

/// Adds the line of a run on pieces.
fn write_pieces(alloc: Global, lines: &mut String, asked: Question<'_>) -> Result<(), CaseError> {
    lines.push_str("= pieces: ")?;
    let chunks = given(alloc, asked.input)?;
    let written = write_run(alloc, lines, asked, chunks.as_slice(), true);
    drop(chunks);
    written?;
    Ok(lines.push_str("\n")?)
}

/// Adds the lines of runs on a list that is cut.
fn write_list(
    alloc: Global,
    lines: &mut String,
    asked: Question<'_>,
    by_cuts: bool,
) -> Result<(), CaseError> {
    let list = numbers(alloc, asked.input)?;
    let written = if by_cuts {
        write_cuts(alloc, lines, asked, list.as_slice())
    } else {
        write_sizes(alloc, lines, asked, list.as_slice())
    };
    drop(list);
    written
}

fn read_question<'a>(
    script: &'a Script,
    input: &'a str,
    end: &str,
) -> Result<Question<'a>, CaseError> {
    let (sort, input) = field(input);
    Ok(Question {
        word: word_in(script)?,
        sort: sort_of(sort)?,
        input,
        ends: end == "end",
    })
}

fn write_answer(
    alloc: Global,
    lines: &mut String,
    kind: &str,
    asked: Question<'_>,
) -> Result<(), CaseError> {
    if kind == "moves" {
        write_moves(alloc, lines, asked)
    } else if kind == "pieces" {
        write_pieces(alloc, lines, asked)
    } else {
        write_list(alloc, lines, asked, kind == "cuts")
    }
}

/// `sizes WORD` asks for runs by one element, by two, by three and on the whole, `cuts WORD` for all cuts of six elements,
/// `moves WORD` for each move, and `pieces WORD` for the run on pieces. The next line has the sort and the input, and the
/// last one is `end` or `more`.
pub fn answer(alloc: Global, case: &str, lines: &mut String) -> Result<(), CaseError> {
    let mut parts = case.lines();
    let (Some(head), Some(input), Some(end)) = (parts.next(), parts.next(), parts.next()) else {
        return Err(CaseError::Malformed("three lines"));
    };
    let (kind, word) = field(head);
    let script = script_of(alloc, word)?;
    let answered = match read_question(&script, input, end) {
        Ok(asked) => write_answer(alloc, lines, kind, asked),
        Err(error) => Err(error),
    };
    drop(script);
    answered
}
