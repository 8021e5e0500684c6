// The line of a cause.
ghost use Rattle.std.specs.Prelude.{◌≡◌, ◌≢◌, IfOk, OnErr, string_bytes};
ghost use Rattle.cd_report.specs.declared.cause.Cause.TheVariants.{NoMemory as MemoryWanting, Success as Silent};
ghost use Rattle.cd_report.specs.CauseText as spec;

use crate::cause::Cause;
use cd_elem::{Fault, LimitKind, NoMemory, Site};
use cd_types::{Refusal, RefusalKind};
use std::alloc::Global;

/// The commands and their words, as they are now.
const USAGE: &str =
    "usage: conduit (run [--chunk N] [--limit N] SCRIPT | check SCRIPT | show SCRIPT)";

/// The line that tells a cause on standard error, with its newline. Success has none: its text is empty, and takes no
/// memory.
pub fn cause_text(alloc: Global, cause: Cause) -> Result<String, NoMemory>
    ensures text { IfOk result (λ text. string_bytes text ≡ spec.cause_text cause) }
    ensures no_memory { OnErr result (cause ≢ Silent) }
{
    match cause {
        Cause::Success => Ok(String::new(alloc)),
        Cause::Usage => line(alloc, USAGE),
        Cause::ScriptFault => line(alloc, "the script could not be read"),
        Cause::ScriptLimit => line(alloc, "the script is longer than 65536 bytes"),
        Cause::ScriptText { at } => line_at(alloc, "the script is not UTF-8", at),
        Cause::Syntax { at } => line_at(alloc, "syntax error", at),
        Cause::Limit { which, at } => line_at(alloc, limit_passed(which), at),
        Cause::Refused(refusal) => refusal_line(alloc, refusal),
        Cause::NotBuilt => line(alloc, "this form is not built yet"),
        Cause::Decode(fault) => fault_line(alloc, fault),
        Cause::AcquireFault { site } => failed_line(alloc, "open", site),
        Cause::ReadFault { site } => failed_line(alloc, "read", site),
        Cause::WriteFault { site } => failed_line(alloc, "write", site),
        Cause::CloseFault { site } => failed_line(alloc, "close", site),
        Cause::TooLong { site } => long_line(alloc, site),
        Cause::NoMemory => line(alloc, "out of memory"),
    }
}

/// The line of want of memory, which takes none.
pub fn memory_text() -> &'static str
    ensures { result.now ≡ spec.cause_text MemoryWanting }
{
    "conduit: out of memory\n"
}

/// A line of the program's.
fn line(alloc: Global, what: &str) -> Result<String, NoMemory>
    ensures { IfOk result (λ text. string_bytes text ≡ spec.line what.now) }
{
    Ok(format!(in alloc; "conduit: {what}\n")?)
}

/// A line about a byte of the script.
fn line_at(alloc: Global, what: &str, at: u32) -> Result<String, NoMemory>
    ensures { IfOk result (λ text. string_bytes text ≡ spec.line_at what.now at) }
{
    Ok(format!(in alloc; "conduit: {what} at byte {at}\n")?)
}

/// The line of a fault of a decoder.
fn fault_line(alloc: Global, fault: Fault) -> Result<String, NoMemory>
    ensures { IfOk result (λ text. string_bytes text ≡ spec.fault_line fault) }
{
    match fault {
        Fault::BadText { at } => bad_line(alloc, "UTF-8", at),
        Fault::BadHex { at } => bad_line(alloc, "base16", at),
        Fault::BadBase64 { at } => bad_line(alloc, "base64", at),
    }
}

/// The line of an input that is not in this encoding.
fn bad_line(alloc: Global, encoding: &str, at: u64) -> Result<String, NoMemory>
    ensures { IfOk result (λ text. string_bytes text ≡ spec.bad_line encoding.now at) }
{
    Ok(format!(in alloc; "conduit: bad {encoding} at offset {at}\n")?)
}

/// The line of a call on a site's file that failed.
fn failed_line(alloc: Global, call: &str, site: Site) -> Result<String, NoMemory>
    ensures { IfOk result (λ text. string_bytes text ≡ spec.failed_line call.now site) }
{
    Ok(format!(in alloc; "conduit: {call} failed at site {}\n", site.0)?)
}

/// The line of a source that has more bytes than the limit.
fn long_line(alloc: Global, site: Site) -> Result<String, NoMemory>
    ensures { IfOk result (λ text. string_bytes text ≡ spec.long_line site) }
{
    Ok(format!(in alloc; "conduit: site {} is longer than the limit\n", site.0)?)
}

fn limit_passed(which: LimitKind) -> &'static str
    ensures { result.now ≡ spec.limit_passed which }
{
    match which {
        LimitKind::Tokens => "limit of tokens passed",
        LimitKind::Depth => "limit of depth passed",
        LimitKind::Literal => "limit of literal passed",
        LimitKind::Number => "limit of number passed",
    }
}

/// The line of a refusal: its kind, and the statement and the part at which it stands.
fn refusal_line(alloc: Global, refusal: Refusal) -> Result<String, NoMemory>
    ensures { IfOk result (λ text. string_bytes text ≡ spec.refusal_line refusal) }
{
    let number = kind_number(refusal.kind);
    let name = kind_name(refusal.kind);
    line_of_kind(alloc, number, name, refusal.statement, refusal.part)
}

/// The line of a refusal of the kind with this number and name.
fn line_of_kind(
    alloc: Global,
    number: u32,
    name: &str,
    statement: u32,
    part: u32,
) -> Result<String, NoMemory>
    ensures { IfOk result (λ text. string_bytes text ≡ spec.line_of_kind number name.now statement part) }
{
    Ok(format!(in alloc;
        "conduit: refused {number} {name} at statement {statement}, part {part}\n"
    )?)
}

fn kind_number(kind: RefusalKind) -> u32
    ensures { result ≡ spec.kind_number kind }
{
    match kind {
        RefusalKind::KindMismatch => 1,
        RefusalKind::SeesChunks => 2,
        RefusalKind::NeedsElements => 3,
        RefusalKind::DropsRest => 4,
        RefusalKind::NotInvertible => 5,
        RefusalKind::NameTwice => 6,
        RefusalKind::Seal => 7,
        RefusalKind::BoundTooLarge => 8,
        RefusalKind::ResultLost => 9,
        RefusalKind::TooMany => 10,
        RefusalKind::OpenEnd => 11,
        RefusalKind::Key => 12,
    }
}

fn kind_name(kind: RefusalKind) -> &'static str
    ensures { result.now ≡ spec.kind_name kind }
{
    match kind {
        RefusalKind::KindMismatch => "KindMismatch",
        RefusalKind::SeesChunks => "SeesChunks",
        RefusalKind::NeedsElements => "NeedsElements",
        RefusalKind::DropsRest => "DropsRest",
        RefusalKind::NotInvertible => "NotInvertible",
        RefusalKind::NameTwice => "NameTwice",
        RefusalKind::Seal => "Seal",
        RefusalKind::BoundTooLarge => "BoundTooLarge",
        RefusalKind::ResultLost => "ResultLost",
        RefusalKind::TooMany => "TooMany",
        RefusalKind::OpenEnd => "OpenEnd",
        RefusalKind::Key => "Key",
    }
}
