// The tree of a script.
ghost use Rattle.std.specs.Prelude.{IfOk, IsTrue, List};
ghost use Rattle.cd_elem.specs.declared.script.Stmt.{Stmt as Statement};
ghost use Rattle.cd_typed.specs.TypedScripts.{IsTyped};
ghost use Rattle.cd_build.specs.BuiltNodes.{RunsBuilt};
ghost use Rattle.test_callers.specs.Trees.{has_type, is_ready};

use crate::lines::StepError;
use cd_build::{build, is_built};
use cd_elem::{NoMemory, Script, Stmt};
use cd_node::Node;
use cd_script::{ScriptRefusal, TEXT_LIMIT, parse};
use cd_typed::Typed;
use cd_typing::{CheckRefusal, check};
use std::alloc::Global;

/// The tree of the first statement of a script, which has not begun.
pub struct Tree {
    pub node: Node,
    pub typed: Typed,
}

pub fn script_of(alloc: Global, text: &str) -> Result<Script, StepError> {
    if text.len() > TEXT_LIMIT {
        return Err(StepError::NoTree);
    }
    match parse(alloc, text) {
        Ok(script) => Ok(script),
        Err(ScriptRefusal::NoMemory) => Err(StepError::NoMemory),
        Err(_) => Err(StepError::NoTree),
    }
}

fn typed_of(alloc: Global, text: &str) -> Result<Typed, StepError>
    ensures { IfOk result has_type }
{
    let script = script_of(alloc, text)?;
    match check(alloc, script) {
        Ok(typed) => Ok(typed),
        Err(CheckRefusal::NoMemory) => Err(StepError::NoMemory),
        Err(CheckRefusal::Refused(_)) => Err(StepError::NoTree),
    }
}

/// Whether the first statement runs a pipe that is built.
fn runs_built(typed: &Typed) -> bool
    ensures { (script : List Statement) → IsTyped script typed.now → IsTrue result → RunsBuilt typed.now 1 }
{
    match typed.script().statements().get(0) {
        Some(Stmt::Run(pipe)) => is_built(pipe),
        _ => false,
    }
}

/// The tree of a script that runs one of the words that are built.
pub fn tree_of(alloc: Global, text: &str) -> Result<Tree, StepError>
    ensures { IfOk result is_ready }
{
    let typed = typed_of(alloc, text)?;
    if !runs_built(&typed) {
        drop(typed);
        return Err(StepError::NoTree);
    }
    match build(alloc, &typed, 1) {
        Ok(node) => Ok(Tree { node, typed }),
        Err(NoMemory) => {
            drop(typed);
            Err(StepError::NoMemory)
        }
    }
}
