// The syntax tree: scripts, statements and pipes.
ghost use Rattle.std.specs.Prelude.{◌≡◌};

use crate::boxed::Boxed;
use crate::items::Items;
use crate::literal::Literal;
use crate::name::Name;
use crate::word::Word;
use std::marker::Model;

/// What joins the members of a chain.
#[derive(Clone, Copy, PartialEq, Eq)]
pub enum Join {
    /// `|`: downstream's result.
    Plain,
    /// `|=`: downstream's result, and its leftovers are upstream's.
    Keep,
    /// `|+`: downstream's result, and the list of its leftovers.
    Return,
    /// `|&`: both results.
    Both,
    /// `|<`: upstream's result.
    Up,
    /// `|?`: upstream's result where it was asked to its end, and downstream's.
    Asked,
}

/// A pipe. Parentheses leave no mark in it.
#[derive(Drop)]
pub enum Pipe {
    Word(Word),
    /// Two members or more, upstream first.
    Chain(Join, PipeList),
    /// One member or more, which read one input after each other.
    Sequence(PipeList),
    /// So many pieces for the pipe.
    Exactly(u64, Boxed<Pipe>),
    /// So many elements for the pipe.
    ExactlyE(u64, Boxed<Pipe>),
    LineE(Boxed<Pipe>),
    /// The name of the file that stands while the pipe runs.
    Mark(Literal, Boxed<Pipe>),
    Tee(Boxed<Pipe>),
    /// The literal stands between the pieces of a pair.
    ZipSource(Boxed<Pipe>, Boxed<Pipe>, Literal),
    ZipSink(Boxed<Pipe>, Boxed<Pipe>),
    ZipConduit(Boxed<Pipe>, Boxed<Pipe>),
}

/// A list of pipes.
pub type PipeList = Items<Pipe>;

/// A statement.
#[derive(Drop)]
pub enum Stmt {
    Run(Pipe),
    /// Gives the name to a source, and runs nothing of it.
    Seal(Name, Pipe),
    /// Runs the seal of this name into the pipe.
    Feed(Name, Pipe),
    /// The same, and the seal can't be used again.
    CloseSeal(Name, Pipe),
    /// Makes an empty file under a key: the key, and the file's name.
    Hold(Name, Literal),
    /// Removes the file of this key.
    Release(Name),
}

/// A list of statements.
pub type StmtList = Items<Stmt>;

/// A script, which contracts see as the list of its statements.
#[derive(Drop)]
pub struct Script {
    statements: StmtList,
}

impl Model for Script {
    ghost use Rattle.std.specs.Prelude.{List};
    ghost use Rattle.std.specs.Coded.{coded_list};
    ghost use Rattle.cd_elem.specs.declared.script.Stmt.{Stmt};
    ghost use Rattle.cd_elem.specs.contracts.script.Stmt as statement;

    ghost Value = { List Stmt };

    ghost coded = { coded_list statement.the_row.coded };

    ghost view = { λ script. script.statements };
}

impl Script {
    /// It takes no memory.
    pub fn new(statements: StmtList) -> Script
        ensures { result ≡ statements }
    {
        Script { statements }
    }

    pub fn statements(&self) -> &StmtList
        ensures { result.now ≡ self.now }
    {
        &self.statements
    }
}
