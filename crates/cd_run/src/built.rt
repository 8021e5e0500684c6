// Which scripts are run.
ghost use Rattle.std.specs.Prelude.{◌↔◌, IsTrue};
ghost use Rattle.cd_run.specs.Scripts.{IsBuiltScript, IsBuiltStatement};

use cd_build::is_built;
use cd_elem::{Script, Stmt};

/// Whether a statement is run: one that runs a pipe that is built, holds a key or releases one.
fn is_built_statement(statement: &Stmt) -> bool
    ensures { IsTrue result ↔ IsBuiltStatement statement.now }
{
    match statement {
        Stmt::Run(pipe) => is_built(pipe),
        Stmt::Hold(_, _) | Stmt::Release(_) => true,
        Stmt::Seal(_, _) | Stmt::Feed(_, _) | Stmt::CloseSeal(_, _) => false,
    }
}

/// Whether all statements of a script are run.
pub fn is_built_script(script: &Script) -> bool
    ensures { IsTrue result ↔ IsBuiltScript script.now }
{
    for statement in script.statements().as_slice() {
        if !is_built_statement(statement) {
            return false;
        }
    }
    true
}
