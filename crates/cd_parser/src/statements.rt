// What a token makes of the parser's state.
ghost use Rattle.std.specs.Prelude.{◌≡◌, IfOk};
ghost use Rattle.cd_parser.specs.Machine as spec;

use crate::allocation::{let_go, with_last};
use crate::open_pipe::begin_pipe;
use crate::state::{Owner, ParserState, Position, Progress};
use cd_elem::{Join, Keyword, Literal, Name, NoMemory, Opening, Sign, Stmt, StmtList, Token};
use std::alloc::Global;

/// The state behind this token, or None where it is refused.
pub fn step(
    alloc: Global,
    state: ParserState,
    token: &Token,
) -> Result<Option<ParserState>, NoMemory>
    ensures { IfOk result (λ state_then. state_then ≡ spec.step state token.now) }
{
    let ParserState {
        statements,
        position,
    } = state;
    match step_at(alloc, position, token) {
        Ok(progress) => advance(statements, progress),
        Err(NoMemory) => Err(let_go(statements)),
    }
}

fn advance(
    statements: StmtList,
    progress: Option<Progress>,
) -> Result<Option<ParserState>, NoMemory>
    ensures { IfOk result (λ state. state ≡ spec.advance statements progress) }
{
    match progress {
        None => {
            drop(statements);
            Ok(None)
        }
        Some(Progress::Reaches(position)) => Ok(Some(ParserState {
            statements,
            position,
        })),
        Some(Progress::Ends(statement)) => Ok(Some(ParserState {
            statements: with_last(statements, statement)?,
            position: Position::Between,
        })),
    }
}

/// What a token makes of the place in a statement.
fn step_at(alloc: Global, position: Position, token: &Token) -> Result<Option<Progress>, NoMemory>
    ensures { IfOk result (λ progress. progress ≡ spec.step_at position token.now) }
{
    match position {
        Position::Between => Ok(read_first_word(alloc, token)),
        Position::Opened(opening) => read_name(alloc, opening, token),
        Position::Named(opening, name) => Ok(step_behind_name(alloc, opening, name, token)),
        Position::Sealing(name) => Ok(read_seal(alloc, name, token)),
        Position::Holding(name) => Ok(read_mark(name, token)),
        Position::Marking(name) => read_held_file(alloc, name, token),
        Position::Marked(name, file) => Ok(end_hold(name, file, token)),
        Position::Inside(pipe, expected) => pipe.step(alloc, expected, token),
    }
}

fn read_first_word(alloc: Global, token: &Token) -> Option<Progress>
    ensures { result ≡ spec.step_at Position.Between token.now }
{
    match token {
        Token::Word(Keyword::Run) => Some(begin_pipe(alloc, Owner::Run)),
        Token::Word(Keyword::Opening(opening)) => {
            Some(Progress::Reaches(Position::Opened(*opening)))
        }
        _ => None,
    }
}

fn read_name(alloc: Global, opening: Opening, token: &Token) -> Result<Option<Progress>, NoMemory>
    ensures { IfOk result (λ progress. progress ≡ spec.step_at (Position.Opened opening) token.now) }
{
    match token {
        Token::Named(name) => {
            let name = Name::new(alloc, name.as_str())?;
            Ok(Some(Progress::Reaches(Position::Named(opening, name))))
        }
        _ => Ok(None),
    }
}

fn step_behind_name(alloc: Global, opening: Opening, name: Name, token: &Token) -> Option<Progress>
    ensures { result ≡ spec.step_at (Position.Named opening name) token.now }
{
    match token {
        Token::Sign(sign) => follow_name(alloc, opening, name, *sign),
        _ => {
            drop(name);
            None
        }
    }
}

fn follow_name(alloc: Global, opening: Opening, name: Name, sign: Sign) -> Option<Progress>
    ensures { result ≡ spec.follow_name opening name sign }
{
    match (opening, sign) {
        (Opening::Let, Sign::Equals) => Some(Progress::Reaches(Position::Sealing(name))),
        (Opening::Feed, Sign::Operator(Join::Plain)) => {
            Some(begin_pipe(alloc, Owner::Feed(name)))
        }
        (Opening::Close, Sign::Operator(Join::Plain)) => {
            Some(begin_pipe(alloc, Owner::CloseSeal(name)))
        }
        (Opening::Hold, Sign::Equals) => Some(Progress::Reaches(Position::Holding(name))),
        (Opening::Release, Sign::Semicolon) => Some(Progress::Ends(Stmt::Release(name))),
        _ => {
            drop(name);
            None
        }
    }
}

fn read_seal(alloc: Global, name: Name, token: &Token) -> Option<Progress>
    ensures { result ≡ spec.step_at (Position.Sealing name) token.now }
{
    match token {
        Token::Word(Keyword::Seal) => Some(begin_pipe(alloc, Owner::Seal(name))),
        _ => {
            drop(name);
            None
        }
    }
}

fn read_mark(name: Name, token: &Token) -> Option<Progress>
    ensures { result ≡ spec.step_at (Position.Holding name) token.now }
{
    match token {
        Token::Word(Keyword::Mark) => Some(Progress::Reaches(Position::Marking(name))),
        _ => {
            drop(name);
            None
        }
    }
}

fn read_held_file(alloc: Global, name: Name, token: &Token) -> Result<Option<Progress>, NoMemory>
    ensures { IfOk result (λ progress. progress ≡ spec.step_at (Position.Marking name) token.now) }
{
    match token {
        Token::Text(file) => hold_file(alloc, name, file.as_str()),
        _ => {
            drop(name);
            Ok(None)
        }
    }
}

fn hold_file(alloc: Global, name: Name, file: &str) -> Result<Option<Progress>, NoMemory>
    ensures { IfOk result (λ progress. progress ≡ spec.hold_file name file.now) }
{
    if file.is_empty() {
        drop(name);
        return Ok(None);
    }
    match Literal::new(alloc, file) {
        Ok(file) => Ok(Some(Progress::Reaches(Position::Marked(name, file)))),
        Err(NoMemory) => Err(let_go(name)),
    }
}

fn end_hold(name: Name, file: Literal, token: &Token) -> Option<Progress>
    ensures { result ≡ spec.step_at (Position.Marked name file) token.now }
{
    match token {
        Token::Sign(Sign::Semicolon) => Some(Progress::Ends(Stmt::Hold(name, file))),
        _ => {
            drop((name, file));
            None
        }
    }
}
