// What a run of the command is given.
//
// A case has the words, a line each, by how many bytes each read and write is cut, and then the files, each with what
// it holds and which of its calls fail.
use case_notation::{CaseError, field, number, push_text};
use cd_elem::{Items, Literal, NumberList};
use cd_world::{Fail, FailList, MemoryFile, MemoryFiles, MemoryWorld};
use std::alloc::Global;

/// As many reads and writes of a name are cut as the cases need.
const CUT_CALLS: usize = 64;

/// The call of a sort that fails, by its number among those of a name.
fn fail_of(sort: &str, count: u32) -> Result<Fail, CaseError> {
    if sort == "open" {
        Ok(Fail::Opening(count))
    } else if sort == "read" {
        Ok(Fail::Reading(count))
    } else if sort == "write" {
        Ok(Fail::Writing(count))
    } else if sort == "close" {
        Ok(Fail::Closing(count))
    } else {
        Err(CaseError::Malformed("a call that fails"))
    }
}

/// Cuts of this size, and none for 0.
fn cuts_of(alloc: Global, size: u32) -> Result<NumberList, CaseError> {
    if size == 0 {
        return Ok(Items::new(alloc));
    }
    Ok(Items::from_slice(alloc, &[size; CUT_CALLS])?)
}

fn push_bytes(bytes: &mut Vec<u8>, lines: &str) -> Result<(), CaseError> {
    for line in lines.lines() {
        push_line(bytes, line)?;
    }
    Ok(())
}

/// Adds what a line of a file stands for. A call that is to fail stands for no bytes.
fn push_line(bytes: &mut Vec<u8>, line: &str) -> Result<(), CaseError> {
    let (key, value) = field(line);
    if key == "fail" {
        return Ok(());
    }
    push_text(bytes, key, value)
}

/// What a file holds.
fn bytes_of(alloc: Global, lines: &str) -> Result<Vec<u8>, CaseError> {
    let mut bytes = Vec::new(alloc);
    push_bytes(&mut bytes, lines).and(Ok(bytes))
}

fn push_fails(fails: &mut FailList, lines: &str) -> Result<(), CaseError> {
    for line in lines.lines() {
        let (key, value) = field(line);
        if key == "fail" {
            let (sort, count) = field(value);
            let fail = fail_of(sort, number(count)?)?;
            fails.push(fail).map_err(|_| CaseError::NoMemory)?;
        }
    }
    Ok(())
}

/// Which calls of a file fail.
fn fails_of(alloc: Global, lines: &str) -> Result<FailList, CaseError> {
    let mut fails = Items::new(alloc);
    push_fails(&mut fails, lines).and(Ok(fails))
}

/// The file of some lines, the first of which is its name.
fn file_of(alloc: Global, lines: &str, cut: u32) -> Result<MemoryFile, CaseError> {
    let (name, lines) = lines.split_once('\n').unwrap_or((lines, ""));
    Ok(MemoryFile {
        name: Literal::new(alloc, name)?,
        bytes: Items::from_vec(bytes_of(alloc, lines)?),
        read_cuts: cuts_of(alloc, cut)?,
        write_cuts: cuts_of(alloc, cut)?,
        fails: fails_of(alloc, lines)?,
    })
}

fn push_files(
    alloc: Global,
    files: &mut MemoryFiles,
    case: &str,
    cut: u32,
) -> Result<(), CaseError> {
    for lines in case.split("\nfile ").skip(1) {
        let file = file_of(alloc, lines, cut)?;
        files.push(file).map_err(|_| CaseError::NoMemory)?;
    }
    Ok(())
}

/// The world of a case.
pub fn world_of(alloc: Global, case: &str, cut: u32) -> Result<MemoryWorld, CaseError> {
    let mut files = Items::new(alloc);
    let files = push_files(alloc, &mut files, case, cut).and(Ok::<MemoryFiles, CaseError>(files))?;
    Ok(MemoryWorld::new(alloc, files)?)
}

fn push_words(alloc: Global, words: &mut Vec<String>, lines: &str) -> Result<(), CaseError> {
    for line in lines.lines() {
        let (key, value) = field(line);
        if key == "word" {
            words
                .push(String::from_str(alloc, value)?)
                .map_err(|_| CaseError::NoMemory)?;
        }
    }
    Ok(())
}

/// The words of these lines.
pub fn words_of(alloc: Global, lines: &str) -> Result<Vec<String>, CaseError> {
    let mut words = Vec::new(alloc);
    push_words(alloc, &mut words, lines).and(Ok(words))
}

/// The size of the cuts that these lines name, 0 where they name none.
pub fn cut_of(lines: &str) -> Result<u32, CaseError> {
    for line in lines.lines() {
        let (key, value) = field(line);
        if key == "cut" {
            return number(value);
        }
    }
    Ok(0)
}
