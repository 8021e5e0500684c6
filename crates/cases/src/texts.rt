// Texts as scripts: each is refused, or has a canonical text, which has itself.
ghost use Rattle.std.specs.Prelude.{◌≤◌, length};

use case_notation::{CaseError, text_of, text_within};
use cd_elem::LimitKind;
use cd_script::{ScriptRefusal, TEXT_LIMIT, parse, print};
use std::alloc::Global;

fn limit_name(limit: LimitKind) -> &'static str {
    match limit {
        LimitKind::Tokens => "Tokens",
        LimitKind::Depth => "Depth",
        LimitKind::Literal => "Literal",
        LimitKind::Number => "Number",
    }
}

/// Adds the line of a refusal. Want of memory is no answer.
fn write_refusal(lines: &mut String, refusal: ScriptRefusal) -> Result<(), CaseError> {
    match refusal {
        ScriptRefusal::Syntax { at } => writeln!(lines, "= Syntax {at}")?,
        ScriptRefusal::Limit { which, at } => writeln!(
            lines,
            "= Limit {} {at}",
            limit_name(which)
        )?,
        ScriptRefusal::NoMemory => return Err(CaseError::NoMemory),
    }
    Ok(())
}

/// The canonical text of a text that is a script.
fn canonical(alloc: Global, text: &str) -> Result<String, ScriptRefusal>
    requires { length text.now ≤ TEXT_LIMIT }
{
    let script = parse(alloc, text)?;
    let printed = print(alloc, &script);
    drop(script);
    printed.map_err(|_| ScriptRefusal::NoMemory)
}

/// Whether a canonical text has itself.
fn is_its_own(alloc: Global, printed: &str) -> bool {
    match text_within(printed.as_bytes(), TEXT_LIMIT) {
        Ok(text) => canonical(alloc, text).is_ok_and(|again| again.as_str() == printed),
        Err(_) => false,
    }
}

/// Adds the lines of a script: its canonical text, where that is wanted, and what this is printed as, where that is another.
fn write_script(
    alloc: Global,
    lines: &mut String,
    printed: &str,
    is_shown: bool,
) -> Result<(), CaseError> {
    lines.push_str("= script\n")?;
    if !is_shown {
        return Ok(());
    }
    for line in printed.lines() {
        writeln!(lines, "= {line}")?;
    }
    if !is_its_own(alloc, printed) {
        lines.push_str("= which is not its own canonical text\n")?;
    }
    Ok(())
}

fn write_answer(
    alloc: Global,
    lines: &mut String,
    text: &[u8],
    is_shown: bool,
) -> Result<(), CaseError> {
    match canonical(alloc, text_within(text, TEXT_LIMIT)?) {
        Ok(printed) => write_script(alloc, lines, printed.as_str(), is_shown),
        Err(refusal) => write_refusal(lines, refusal),
    }
}

/// `text TEXT` asks for the canonical text, and `reads TEXT` whether the text is a script; further lines add to it.
pub fn answer(alloc: Global, case: &str, lines: &mut String) -> Result<(), CaseError> {
    let text = text_of(alloc, case)?;
    write_answer(alloc, lines, &text, case.starts_with("text"))
}
