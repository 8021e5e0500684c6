// From a tree to its canonical text.
ghost use Rattle.std.specs.Prelude.{◌≡◌, ◌++◌, true, IfOk, OnOk, string_bytes};
ghost use Rattle.cd_grammar.specs.Canonical.{IsTreeWithin};
ghost use Rattle.cd_grammar.specs.CanonicalText.{canonical_text, statement_line};
ghost use Rattle.cd_grammar.specs.Refusals.{IsText};
ghost use Rattle.cd_script.specs.Ranges as ranges;

use crate::canonical::canonical_statement;
use cd_elem::{NoMemory, Script, Stmt};
use cd_lex::push_spaced;
use std::alloc::Global;

/// The canonical text of a tree that is within the limits. It is a script with the same tree, so `parse` reads it back
/// where it has at most `TEXT_LIMIT` bytes.
pub fn print(alloc: Global, script: &Script) -> Result<String, NoMemory>
    requires { IsTreeWithin script.now }
    ensures canonical { IfOk result (λ text. string_bytes text ≡ canonical_text script.now) }
    ensures script { IfOk result (λ text. IsText (string_bytes text) script.now) }
{
    let mut text = String::new(alloc);
    for statement in script.statements().as_slice() {
        push_line(alloc, &mut text, statement)?;
    }
    Ok(text)
}

/// Adds the line of a statement. After an error some of it may stand there.
fn push_line(alloc: Global, text: &mut String, statement: &Stmt) -> Result<(), NoMemory>
    ensures statement_line { OnOk result (string_bytes text.new ≡ string_bytes text.old ++ statement_line statement.now) }
    ensures range { OnOk result (ranges.statement statement.now ≡ true) }
{
    let tokens = canonical_statement(alloc, statement)?;
    push_spaced(text, tokens.as_slice())?;
    text.push_str("\n")?;
    Ok(())
}
