// Typing statements.
ghost use Rattle.std.specs.Prelude.{◌≡◌, [], ◌∷◌, IfOk, List, None, OnOk, false, nat_lt};
ghost use Rattle.cd_part_types.specs.Types.{type_of};
ghost use Rattle.cd_types.specs.Conditions.{Fails, fails_where, lowest};
ghost use Rattle.cd_types.specs.Limits.{statement_limit};
ghost use Rattle.cd_types.specs.Moments as moments;
ghost use Rattle.cd_types.specs.Statements as spec;
ghost use Rattle.cd_types.specs.Trees as trees;
ghost use Rattle.cd_types.specs.declared.refusal.RefusalKind.TheVariants as kinds;
ghost use Rattle.cd_typed.specs.Knowing.{KnowsNames};
ghost use Rattle.cd_typing.specs.Spots.{Spot};
ghost use Rattle.cd_typing.specs.StatementWalk.{BodyAnswers, StatementAnswers, ending_fails};
ghost use Rattle.cd_typing.specs.Walking.{Moves, spot};

use crate::asking::ask;
use crate::refusal::CheckRefusal;
use crate::walk::Walk;
use cd_elem::{Kind, Literal, Pipe, Stmt};
use cd_part_types::{PartType, refused_behind_feed, refused_behind_let, refused_behind_run};
use cd_typed::{Names, names_stay};
use cd_types::RefusalKind;
use std::alloc::Global;

/// The greatest number of statements of a script.
const STATEMENT_LIMIT: u32 = 256;

/// What is asked behind a pipe.
#[derive(Clone, Copy)]
pub enum Ending {
    /// By `run` and `close`: it gives nothing.
    Run,
    /// By `let`: it has no result.
    Let,
    /// By `feed`: it gives nothing, and is exact on a cut kind.
    Feed,
}

fn refused_behind(ending: Ending, typed: &PartType) -> Option<RefusalKind>
    ensures { result ≡ lowest (ending_fails ending (type_of typed.now)) }
{
    match ending {
        Ending::Run => refused_behind_run(typed),
        Ending::Let => refused_behind_let(typed),
        Ending::Feed => refused_behind_feed(typed),
    }
}

fn refused_as_too_many(number: u32) -> Option<RefusalKind>
    ensures { result ≡ lowest (fails_where kinds.TooMany (nat_lt statement_limit number)) }
{
    if number > STATEMENT_LIMIT {
        Some(RefusalKind::TooMany)
    } else {
        None
    }
}

/// A name that is no seal that can be used, or is one already.
fn refused_as_seal(fails: bool) -> Option<RefusalKind>
    ensures lowest { result ≡ lowest (fails_where kinds.Seal fails) }
    ensures none { result ≡ None → fails ≡ false }
{
    if fails { Some(RefusalKind::Seal) } else { None }
}

/// A name that is no key that is held.
fn refused_as_key(fails: bool) -> Option<RefusalKind>
    ensures lowest { result ≡ lowest (fails_where kinds.Key fails) }
    ensures none { result ≡ None → fails ≡ false }
{
    if fails { Some(RefusalKind::Key) } else { None }
}

/// Begins a statement with this number, that is no site.
fn begin_statement(number: u32, condition: Option<RefusalKind>) -> Result<(), CheckRefusal>
    ensures none { OnOk result (condition ≡ None) }
    ensures moves { (fails : Fails) (at : Spot) → condition ≡ lowest fails
        → Moves at (moments.ask number 0 (fails_where kinds.TooMany (nat_lt statement_limit number)) ∷ moments.ask number 0 fails ∷ []) at result }
{
    ask(refused_as_too_many(number), number, 0)?;
    ask(condition, number, 0)
}

/// Asks what is asked behind a pipe, and tells what that gives.
fn ask_behind(
    ending: Ending,
    number: u32,
    part: u32,
    typed: PartType,
) -> Result<Option<Kind>, CheckRefusal>
    ensures moves { (at : Spot) → Moves at (moments.ask number part (ending_fails ending (type_of typed)) ∷ []) at result }
    ensures gives { IfOk result (λ to. to ≡ typed.to) }
{
    let to = typed.to;
    let condition = refused_behind(ending, &typed);
    drop(typed);
    ask(condition, number, part)?;
    Ok(to)
}

impl Walk {
    /// Types the pipe of a statement as its part 1, and tells what it gives.
    fn type_body(
        &mut self,
        alloc: Global,
        number: u32,
        pipe: &Pipe,
        flow: Option<Kind>,
        ending: Ending,
    ) -> Result<Option<Kind>, CheckRefusal>
        requires { self.old.parts.items ≡ [] }
        ensures { BodyAnswers number flow (trees.part pipe.now) (ending_fails ending) self.old self.new result }
    {
        let (part, typed) = self.type_next(alloc, number, pipe, flow)?;
        ask_behind(ending, number, part, typed)
    }

    fn type_run(
        &mut self,
        alloc: Global,
        number: u32,
        pipe: &Pipe,
        names: &mut Names,
    ) -> Result<(), CheckRefusal>
        requires { self.old.parts.items ≡ [] }
        ensures { (before : List spec.Statement) → KnowsNames before names.old → StatementAnswers number before (spec.Run (trees.part pipe.now)) self.old self.new names.new result }
    {
        names_stay();
        begin_statement(number, None)?;
        self.type_body(alloc, number, pipe, None, Ending::Run)?;
        Ok(())
    }

    fn type_let(
        &mut self,
        alloc: Global,
        number: u32,
        name: &str,
        pipe: &Pipe,
        names: &mut Names,
    ) -> Result<(), CheckRefusal>
        requires { self.old.parts.items ≡ [] }
        ensures { (before : List spec.Statement) → KnowsNames before names.old → StatementAnswers number before (spec.Let name.now (trees.part pipe.now)) self.old self.new names.new result }
    {
        begin_statement(number, refused_as_seal(names.is_seal(name)))?;
        let to = self.type_body(alloc, number, pipe, None, Ending::Let)?;
        names.seal(alloc, name, to)?;
        Ok(())
    }

    fn type_feed(
        &mut self,
        alloc: Global,
        number: u32,
        name: &str,
        pipe: &Pipe,
        names: &mut Names,
    ) -> Result<(), CheckRefusal>
        requires { self.old.parts.items ≡ [] }
        ensures { (before : List spec.Statement) → KnowsNames before names.old → StatementAnswers number before (spec.Feed name.now (trees.part pipe.now)) self.old self.new names.new result }
    {
        names_stay();
        begin_statement(number, refused_as_seal(names.seal_fails(name)))?;
        let flow = names.seal_flow(name);
        self.type_body(alloc, number, pipe, flow, Ending::Feed)?;
        Ok(())
    }

    fn type_close(
        &mut self,
        alloc: Global,
        number: u32,
        name: &str,
        pipe: &Pipe,
        names: &mut Names,
    ) -> Result<(), CheckRefusal>
        requires { self.old.parts.items ≡ [] }
        ensures { (before : List spec.Statement) → KnowsNames before names.old → StatementAnswers number before (spec.CloseSeal name.now (trees.part pipe.now)) self.old self.new names.new result }
    {
        begin_statement(number, refused_as_seal(names.seal_fails(name)))?;
        let flow = names.seal_flow(name);
        self.type_body(alloc, number, pipe, flow, Ending::Run)?;
        names.close(name);
        Ok(())
    }

    fn type_hold(
        &mut self,
        alloc: Global,
        number: u32,
        name: &str,
        file: &Literal,
        names: &mut Names,
    ) -> Result<(), CheckRefusal>
        requires { self.old.parts.items ≡ [] }
        ensures { (before : List spec.Statement) → KnowsNames before names.old → StatementAnswers number before (spec.Hold name.now file.now) self.old self.new names.new result }
    {
        ask(refused_as_too_many(number), number, 0)?;
        self.begin_mark(alloc, number, 0, file, names.is_key(name))?;
        names.hold(alloc, name)?;
        Ok(())
    }

    fn type_release(
        &mut self,
        number: u32,
        name: &str,
        names: &mut Names,
    ) -> Result<(), CheckRefusal>
        requires { self.old.parts.items ≡ [] }
        ensures { (before : List spec.Statement) → KnowsNames before names.old → StatementAnswers number before (spec.Release name.now) self.old self.new names.new result }
    {
        begin_statement(number, refused_as_key(names.key_fails(name)))?;
        names.release(name);
        Ok(())
    }

    /// Types a statement with this number, behind statements that defined these names.
    pub fn type_statement(
        &mut self,
        alloc: Global,
        number: u32,
        statement: &Stmt,
        names: &mut Names,
    ) -> Result<(), CheckRefusal>
        requires { self.old.parts.items ≡ [] }
        ensures { (before : List spec.Statement) → KnowsNames before names.old → StatementAnswers number before (spec.statement_of statement.now) self.old self.new names.new result }
    {
        match statement {
            Stmt::Run(pipe) => self.type_run(alloc, number, pipe, names),
            Stmt::Seal(name, pipe) => self.type_let(alloc, number, name.as_str(), pipe, names),
            Stmt::Feed(name, pipe) => self.type_feed(alloc, number, name.as_str(), pipe, names),
            Stmt::CloseSeal(name, pipe) => {
                self.type_close(alloc, number, name.as_str(), pipe, names)
            }
            Stmt::Hold(name, file) => self.type_hold(alloc, number, name.as_str(), file, names),
            Stmt::Release(name) => self.type_release(number, name.as_str(), names),
        }
    }
}
