// From tokens to the tree.
ghost use Rattle.std.specs.Prelude.{◌≡◌, List, ◌+◌, ◌≤◌, IfOk, true};
ghost use Rattle.cd_elem.specs.declared.script.Stmt.{Stmt};
ghost use Rattle.cd_grammar.specs.Grammar.{IsScript};
ghost use Rattle.cd_grammar.specs.Limits.{IsWithinLimits, every_number};
ghost use Rattle.cd_grammar.specs.Refusals.{tokens};
ghost use Rattle.cd_script.specs.Answers.{AnswersTokens, AnswersOnly};
ghost use Rattle.cd_parser.specs.Machine.{start};
ghost use Rattle.cd_script.specs.Reader.{ReadsToken, bounds_of, ending};

use crate::limits::{Bounds, bounds_behind, brackets_with, every_number, limit_of};
use crate::refusal::ScriptRefusal;
use cd_elem::{Items, Lexeme, NoMemory, Script};
use cd_parser::{ParserState, Position, step};
use std::alloc::Global;

/// The tree of these tokens. They are those of the whole text, which ends at `end`, or of what stands before `end`,
/// where no token begins.
pub fn parse_tokens(
    alloc: Global,
    lexemes: &[Lexeme],
    whole: bool,
    end: u32,
) -> Result<Script, ScriptRefusal>
    ensures exact { AnswersTokens lexemes.now whole end result }
    ensures only { (tree : List Stmt) → whole ≡ true → IsScript (tokens lexemes.now) tree
        → IsWithinLimits (tokens lexemes.now) → AnswersOnly tree result }
{
    let mut reader = Reader::new(alloc);
    for (count, lexeme) in lexemes.iter().enumerate() {
        reader = reader.read(alloc, count, lexeme)?;
    }
    reader.finish(whole, end)
}

/// The parser behind some tokens, with the open brackets and the numbers that may stand next.
#[derive(Drop)]
struct Reader {
    state: ParserState,
    opened: usize,
    bounds: Bounds,
}

impl Reader {
    fn new(alloc: Global) -> Reader
        ensures state { result.state ≡ start }
        ensures opened { result.opened ≡ 0 }
        ensures bounds { bounds_of result.bounds ≡ every_number }
    {
        Reader {
            state: ParserState {
                statements: Items::new(alloc),
                position: Position::Between,
            },
            opened: 0,
            bounds: every_number(),
        }
    }

    /// One more token, behind so many.
    fn read(self, alloc: Global, count: usize, lexeme: &Lexeme) -> Result<Reader, ScriptRefusal>
        requires room { count + 1 ≤ usize.MAX }
        requires opened { self.opened ≤ count }
        ensures reads { ReadsToken self count lexeme.now result }
        ensures opened { IfOk result (λ new. new.opened ≤ count + 1) }
    {
        let Reader {
            state,
            opened,
            bounds,
        } = self;
        let at = lexeme.at;
        match step(alloc, state, &lexeme.token) {
            Err(NoMemory) => Err(ScriptRefusal::NoMemory),
            Ok(None) => Err(ScriptRefusal::Syntax { at }),
            Ok(Some(state)) => match limit_of(count, opened, bounds, &lexeme.token) {
                Some(which) => {
                    drop(state);
                    Err(ScriptRefusal::Limit { which, at })
                }
                None => Ok(Reader {
                    state,
                    opened: brackets_with(opened, &lexeme.token),
                    bounds: bounds_behind(&lexeme.token),
                }),
            },
        }
    }

    fn finish(self, whole: bool, end: u32) -> Result<Script, ScriptRefusal>
        ensures { result ≡ ending self.state whole end }
    {
        let ParserState {
            statements,
            position,
        } = self.state;
        match position {
            Position::Between if whole => Ok(Script::new(statements)),
            position => {
                drop((statements, position));
                Err(ScriptRefusal::Syntax { at: end })
            }
        }
    }
}
