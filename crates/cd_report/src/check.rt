// What `check` writes.
ghost use Rattle.std.specs.Prelude.{◌≡◌, List, IfOk, string_bytes};
ghost use Rattle.cd_elem.specs.declared.script.Stmt.{Stmt};
ghost use Rattle.cd_typed.specs.TypedScripts.{IsTyped};
ghost use Rattle.cd_report.specs.CheckText as spec;

use cd_elem::NoMemory;
use cd_typed::Typed;
use std::alloc::Global;

/// The line that `check` writes of a script that has these types, with its newline: how many statements and sites it has,
/// and how many elements it may hold.
pub fn check_text(alloc: Global, typed: &Typed) -> Result<String, NoMemory>
    ensures { (script : List Stmt) → IsTyped script typed.now → IfOk result (λ text. string_bytes text ≡ spec.check_text script) }
{
    let statements = typed.script().statements().len();
    let sites = typed.sites().len();
    summary(alloc, statements, sites, typed.total_bound())
}

fn summary(alloc: Global, statements: usize, sites: usize, bound: u64) -> Result<String, NoMemory>
    ensures { IfOk result (λ text. string_bytes text ≡ spec.summary statements sites bound) }
{
    Ok(format!(in alloc; "ok {statements} statements, {sites} sites, bound {bound}\n")?)
}
