// The nodes of statements.
ghost use Rattle.std.specs.Prelude.{◌≡◌, ◌+◌, ◌<◌, ◌≤◌, ℕ, List, IfOk, None, length, true};
ghost use Rattle.std.specs.Option.{option_copied};
ghost use Rattle.cd_meaning.specs.Pipes.{pipe_meaning};
ghost use Rattle.cd_meaning.specs.Places.{place_in};
ghost use Rattle.cd_meaning.specs.RunShapes.{Seen};
ghost use Rattle.cd_meaning.specs.Scripts.{script_places};
ghost use Rattle.cd_meaning.specs.Stream.{End, Item};
ghost use Rattle.cd_node.specs.Makes.{IsUnstarted};
ghost use Rattle.cd_node.specs.Trees.{IsWell, StandsAt, bound_of, seen};
ghost use Rattle.cd_types.specs.Flows as flows;
ghost use Rattle.cd_types.specs.Numbering.{first_site, numbered};
ghost use Rattle.cd_types.specs.Trees.{part};
ghost use Rattle.cd_build.specs.BuiltNodes.{OfRun, RunsBuilt};

use crate::pipes::{Built, build_pipe};
use cd_elem::{NoMemory, Script, Stmt};
use cd_node::Node;
use cd_typed::{Typed, typed_laws};
use cd_types::{numbering, parts_fit};
use std::alloc::Global;

/// The statement with this number, counted from 1.
fn numbered_statement(script: &Script, number: u32) -> Option<&Stmt>
    ensures { option_copied result ≡ numbered script.now number }
{
    match number.checked_sub(1) {
        Some(place) => script.statements().get(place as usize),
        None => None,
    }
}

/// The node of a `run`, by the number of its statement, from 1. Where it is started and told the end, its run is that of the
/// statement's pipe. Its sites are the statement's. It takes nothing, and gives nothing.
pub fn build(alloc: Global, typed: &Typed, statement: u32) -> Result<Node, NoMemory>
    requires { RunsBuilt typed.now statement }
    ensures well { IfOk result IsWell }
    ensures unstarted { IfOk result (λ n. IsUnstarted (seen n)) }
    ensures means { OfRun typed.now statement (λ script p. IfOk result (λ n. (z : Seen) (xs : List Item) (end : End)
        → (seen n).run z xs end ≡ (pipe_meaning p).run None (first_site script statement) z xs end)) }
    ensures takes { IfOk result (λ n. (seen n).takes ≡ None) }
    ensures gives { IfOk result (λ n. (seen n).gives ≡ None) }
    ensures bound { OfRun typed.now statement (λ script p. IfOk result (λ n. bound_of n ≡ flows.bound_of ((part p).types None))) }
    ensures sites { OfRun typed.now statement (λ script p. IfOk result (λ n. (t : ℕ) → (seen n).sites t ≡ true
        → (first_site script statement ≤ t) × (t < first_site script statement + length (pipe_meaning p).places))) }
    ensures places { OfRun typed.now statement (λ script p. IfOk result (λ n. StandsAt n (place_in (script_places script)))) }
{
    typed_laws();
    numbering();
    parts_fit();
    match numbered_statement(typed.script(), statement) {
        Some(Stmt::Run(pipe)) => {
            let first = typed.first_site(statement);
            let Built {
                node,
                gives: _,
                next: _,
            } = build_pipe(alloc, pipe, None, first.0)?;
            Ok(node)
        }
        _ => unreachable!(),
    }
}
