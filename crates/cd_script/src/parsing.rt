// From a text to its tree.
ghost use Rattle.std.specs.Prelude.{◌≤◌, List, length, IfOk};
ghost use Rattle.cd_elem.specs.declared.script.Stmt.{Stmt};
ghost use Rattle.cd_grammar.specs.Canonical.{IsTreeWithin};
ghost use Rattle.cd_grammar.specs.Limits.{text_limit};
ghost use Rattle.cd_grammar.specs.Refusals.{IsText};
ghost use Rattle.cd_script.specs.Answers.{AnswersOnly, Parses};

use crate::reader::parse_tokens;
use crate::refusal::ScriptRefusal;
use cd_elem::Script;
use cd_lex::lex;
use std::alloc::Global;

/// The tree of a text of at most `TEXT_LIMIT` bytes, or the first token that is refused.
pub fn parse(alloc: Global, text: &str) -> Result<Script, ScriptRefusal>
    requires { length text.now ≤ text_limit }
    // A tree is that of this text, and a refusal is the first one.
    ensures exact { Parses text.now result }
    // A script within the limits is read, unless memory runs out.
    ensures only { (tree : List Stmt) → IsText text.now tree → AnswersOnly tree result }
    // A tree has the form of a script's, and its canonical text is within the limits too.
    ensures within { IfOk result (λ tree. IsTreeWithin tree) }
{
    let Ok(lexed) = lex(alloc, text) else {
        return Err(ScriptRefusal::NoMemory);
    };
    parse_tokens(alloc, lexed.lexemes.as_slice(), lexed.whole, lexed.stop)
}
