// Typing scripts.
ghost use Rattle.std.specs.Prelude.{◌≡◌, ◌+◌, [], ◌∷◌, ◌++◌, List, length, map, IsTrue, OnOk};
ghost use Rattle.cd_elem.specs.declared.script.Stmt.{Stmt};
ghost use Rattle.cd_meaning.specs.LawfulTrees.{IsLawfulScript};
ghost use Rattle.cd_meaning.specs.Scripts.{script_places};
ghost use Rattle.cd_part_types.specs.Types.{type_of};
ghost use Rattle.cd_typed.specs.Knowing.{KnowsNames};
ghost use Rattle.cd_typed.specs.Sites.{site_of};
ghost use Rattle.cd_typed.specs.TypedScripts.{IsTyped};
ghost use Rattle.cd_types.specs.Moments.{reached_by};
ghost use Rattle.cd_types.specs.Numbering.{script_sites};
ghost use Rattle.cd_meaning.specs.Scoped.{IsScoped};
ghost use Rattle.cd_types.specs.Sites.{are_apart};
ghost use Rattle.cd_types.specs.Statements.{Statement, script_moments, script_types, statement_of};
ghost use Rattle.cd_types.specs.Typing.{HasType};
ghost use Rattle.cd_typing.specs.Checking.{Checks, StepAnswers, WalkAnswers};

use crate::refusal::CheckRefusal;
use crate::walk::Walk;
use cd_elem::{Items, Script, Stmt};
use cd_typed::{Names, PartTable, Typed};
use cd_types::{judging, typed_scripts};
use std::alloc::Global;

/// A walk over the statements of a script: the types of the parts of those before, by statements, and their names.
#[derive(Drop)]
pub struct ScriptWalk {
    pub walk: Walk,
    pub names: Names,
    pub parts: PartTable,
}

impl ScriptWalk {
    fn new(alloc: Global) -> ScriptWalk
        ensures sites { result.walk.sites ≡ [] }
        ensures total { result.walk.total ≡ 0 }
        ensures empty { result.walk.parts.items ≡ [] }
        ensures names { KnowsNames [] result.names }
        ensures parts { result.parts ≡ [] }
    {
        ScriptWalk {
            walk: Walk::new(alloc),
            names: Names::new(alloc),
            parts: Items::new(alloc),
        }
    }

    /// Types the statement of this number. No script in memory has 2^32 statements.
    fn step(&mut self, alloc: Global, number: usize, statement: &Stmt) -> Result<(), CheckRefusal>
        requires { self.old.walk.parts.items ≡ [] }
        ensures { (before : List Statement) → number ≡ length before + 1 → KnowsNames before self.old.names → StepAnswers before (statement_of statement.now) self.old self.new result }
    {
        let Ok(number) = u32::try_from(number) else {
            return Err(CheckRefusal::NoMemory);
        };
        self.walk
            .type_statement(alloc, number, statement, &mut self.names)?;
        let parts = self.walk.take_parts(alloc);
        match self.parts.push(parts) {
            Ok(()) => Ok(()),
            Err(parts) => {
                drop(parts);
                Err(CheckRefusal::NoMemory)
            }
        }
    }

    /// What the walk has found, once it has passed all of this script.
    fn typed(self, script: Script) -> Typed
        ensures { HasType script → map site_of self.walk.sites ≡ script_sites script → map (map type_of) self.parts ≡ script_types script
            → self.walk.total ≡ (reached_by (script_moments script)).total → KnowsNames (map statement_of script) self.names → IsTyped script result }
    {
        let ScriptWalk { walk, names, parts } = self;
        let Walk {
            sites,
            total,
            parts: rest,
        } = walk;
        drop(rest);
        Typed::new(script, sites, parts, total, names)
    }
}

/// Types all statements of a script.
fn walk_over(alloc: Global, statements: &[Stmt]) -> Result<ScriptWalk, CheckRefusal>
    ensures { WalkAnswers statements.now result }
{
    let mut walk = ScriptWalk::new(alloc);
    for (place, statement) in statements.iter().enumerate() {
        if let Err(refusal) = walk.step(alloc, place + 1, statement) {
            drop(walk);
            return Err(refusal);
        }
    }
    Ok(walk)
}

/// Whether a script has a type, and what is refused first in it if not.
///
/// A script that has a type is lawful, uses each name only while it stands, and no two of its sites clash. The script is
/// given up on a refusal.
pub fn check(alloc: Global, script: Script) -> Result<Typed, CheckRefusal>
    ensures checks { Checks script result }
    ensures lawful { OnOk result (IsLawfulScript script) }
    ensures scoped { OnOk result (IsScoped script) }
    ensures apart { OnOk result (IsTrue (are_apart [] (script_places script))) }
{
    judging();
    typed_scripts();
    match walk_over(alloc, script.statements().as_slice()) {
        Ok(walk) => Ok(walk.typed(script)),
        Err(refusal) => {
            drop(script);
            Err(refusal)
        }
    }
}
