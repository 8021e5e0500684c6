// Judging the bytes of a script, and finding its types.
ghost use Rattle.std.specs.Prelude.{IfOk};
ghost use Rattle.cd_grammar.specs.Canonical.{IsTreeWithin};
ghost use Rattle.cd_cli.specs.Judge.{FindsTyped, Judged};

use crate::cause::{check_cause, refusal_cause};
use cd_elem::Script;
use cd_report::Cause;
use cd_script::{TEXT_LIMIT, parse};
use cd_typed::Typed;
use cd_typing::check;
use simdutf8::compat;
use std::alloc::Global;

/// The tree of a script's bytes, or why they have none: they are too many, no UTF-8, or no script.
pub fn judge(alloc: Global, text: &[u8]) -> Result<Script, Cause>
    ensures judged { Judged text.now result }
    ensures within { IfOk result (λ tree. IsTreeWithin tree) }
{
    if text.len() > TEXT_LIMIT {
        return Err(Cause::ScriptLimit);
    }
    match compat::from_utf8(text) {
        Ok(text) => match parse(alloc, text) {
            Ok(script) => Ok(script),
            Err(refusal) => Err(refusal_cause(refusal)),
        },
        Err(error) => Err(Cause::ScriptText {
            at: error.valid_up_to() as u32,
        }),
    }
}

/// The types of a script, or why it has none.
pub fn find_types(alloc: Global, script: Script) -> Result<Typed, Cause>
    ensures { FindsTyped script result }
{
    match check(alloc, script) {
        Ok(typed) => Ok(typed),
        Err(refusal) => Err(check_cause(refusal)),
    }
}
