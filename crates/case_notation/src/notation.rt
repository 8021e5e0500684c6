// How the data writes texts and numbers.
//
// A line has a key and, behind a blank, a value. In a text `%` and two hexadecimal digits stand for a byte, as in a URL.
ghost use Rattle.std.specs.Prelude.{◌≤◌, IfOk, length};

use crate::error::CaseError;
use cd_elem::{Items, NumberList};
use percent_encoding::percent_decode_str;
use std::alloc::Global;
use std::str;

/// The key of a line and its value, which may be empty.
pub fn field(line: &str) -> (&str, &str) {
    line.split_once(' ').unwrap_or((line, ""))
}

pub fn number(text: &str) -> Result<u32, CaseError> {
    text.parse::<u32>()
        .map_err(|_| CaseError::Malformed("a number"))
}

/// Adds what a line stands for: its text, or of `times N TEXT` so many of its text.
pub fn push_text(bytes: &mut Vec<u8>, key: &str, value: &str) -> Result<(), CaseError> {
    if key != "times" {
        return Ok(percent_decode_str(value).append_to(bytes)?);
    }
    let (count, text) = field(value);
    for _ in 0..number(count)? {
        percent_decode_str(text).append_to(bytes)?;
    }
    Ok(())
}

fn push_case(bytes: &mut Vec<u8>, case: &str) -> Result<(), CaseError> {
    for line in case.lines() {
        let (key, value) = field(line);
        push_text(bytes, key, value)?;
    }
    Ok(())
}

/// The text of a case that is all of one text.
pub fn text_of(alloc: Global, case: &str) -> Result<Vec<u8>, CaseError> {
    let mut bytes = Vec::new(alloc);
    push_case(&mut bytes, case).and(Ok(bytes))
}

fn push_parsed(list: &mut NumberList, text: &str) -> Result<(), CaseError> {
    for part in text.split(' ') {
        if !part.is_empty() {
            push_number(list, number(part)?)?;
        }
    }
    Ok(())
}

/// The numbers of a text, one blank apart.
pub fn numbers(alloc: Global, text: &str) -> Result<NumberList, CaseError> {
    let mut list = Items::new(alloc);
    push_parsed(&mut list, text).and(Ok(list))
}

pub fn push_number(list: &mut NumberList, number: u32) -> Result<(), CaseError> {
    list.push(number).map_err(|_| CaseError::NoMemory)
}

/// Adds the numbers as the data writes them.
pub fn write_numbers(text: &mut String, numbers: &[u32]) -> Result<(), CaseError> {
    for number in numbers {
        write!(text, " {number}")?;
    }
    Ok(())
}

/// A text of at most so many bytes.
pub fn text_within(bytes: &[u8], most: usize) -> Result<&str, CaseError>
    ensures { IfOk result (λ text. length text.now ≤ most) }
{
    match str::from_utf8(bytes) {
        Ok(text) if text.len() <= most => Ok(text),
        _ => Err(CaseError::Malformed("a text of UTF-8 that is no longer than a script")),
    }
}
