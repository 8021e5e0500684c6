// Scripts as the typing judges them: what is refused first in each, or its sites, seals, keys and bound.
ghost use Rattle.std.specs.Prelude.{◌≤◌, length};

use case_notation::{CaseError, text_of, text_within};
use cd_elem::Script;
use cd_report::{Cause, cause_text, check_text};
use cd_script::{TEXT_LIMIT, parse};
use cd_typed::{SiteInfo, SiteUse, Typed};
use cd_types::Refusal;
use cd_typing::{CheckRefusal, check};
use std::alloc::Global;

fn use_name(use_of: SiteUse) -> &'static str {
    match use_of {
        SiteUse::Reading => "Reading",
        SiteUse::Writing => "Writing",
        SiteUse::Marking => "Marking",
        SiteUse::Stdin => "Stdin",
        SiteUse::Stdout => "Stdout",
    }
}

fn write_site(lines: &mut String, site: &SiteInfo) -> Result<(), CaseError> {
    let name = site.name.as_str();
    let use_of = use_name(site.use_of);
    if name.is_empty() {
        return Ok(writeln!(lines, "= site {use_of}")?);
    }
    Ok(writeln!(lines, "= site {use_of} {name}")?)
}

fn write_sites(lines: &mut String, sites: &[SiteInfo]) -> Result<(), CaseError> {
    for site in sites {
        write_site(lines, site)?;
    }
    Ok(())
}

/// Adds the line that `check` writes, and then the sites and how many seals and keys there are.
fn write_typed(alloc: Global, lines: &mut String, typed: &Typed) -> Result<(), CaseError> {
    let text = check_text(alloc, typed)?;
    write!(lines, "= {text}")?;
    drop(text);
    write_sites(lines, typed.sites().as_slice())?;
    Ok(writeln!(lines, "= {} seals, {} keys", typed.seals(), typed.keys())?)
}

/// Adds the line of the refusal.
fn write_refusal(alloc: Global, lines: &mut String, refusal: Refusal) -> Result<(), CaseError> {
    let text = cause_text(alloc, Cause::Refused(refusal))?;
    write!(lines, "= {text}")?;
    Ok(())
}

fn write_answer(alloc: Global, lines: &mut String, script: Script) -> Result<(), CaseError> {
    match check(alloc, script) {
        Ok(typed) => write_typed(alloc, lines, &typed),
        Err(CheckRefusal::Refused(refusal)) => write_refusal(alloc, lines, refusal),
        Err(CheckRefusal::NoMemory) => Err(CaseError::NoMemory),
    }
}

/// `script TEXT` asks for the types of a script; further lines add to it.
pub fn answer(alloc: Global, case: &str, lines: &mut String) -> Result<(), CaseError> {
    let text = text_of(alloc, case)?;
    match parse(alloc, text_within(&text, TEXT_LIMIT)?) {
        Ok(script) => write_answer(alloc, lines, script),
        Err(_) => Err(CaseError::Malformed("a script")),
    }
}
