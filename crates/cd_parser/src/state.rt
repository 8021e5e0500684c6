// What the parser remembers of the tokens before.
use crate::stack::Stack;
use cd_elem::{
    ClassedWord, CountedWord, EndMap, EndTest, FileWord, Join, ListWord, Literal, LiteralList,
    LiteralWord, Name, NumberMap, Opening, Pipe, PipeList, Section, Stmt, StmtList, TestedWord,
    Word, Zip,
};

/// The statements that have ended, and the place in the next one.
#[derive(Drop)]
pub struct ParserState {
    pub statements: StmtList,
    pub position: Position,
}

/// Where in a statement the parser stands.
#[derive(Drop)]
pub enum Position {
    Between,
    Opened(Opening),
    Named(Opening, Name),
    /// Behind `let NAME =`.
    Sealing(Name),
    /// Behind `hold NAME =`.
    Holding(Name),
    /// Behind `hold NAME = mark`.
    Marking(Name),
    /// Behind `hold NAME = mark FILE`.
    Marked(Name, Literal),
    Inside(OpenPipe, Expected),
}

/// What a token makes of the place in a statement.
#[derive(Drop)]
pub enum Progress {
    Reaches(Position),
    Ends(Stmt),
}

/// A pipe that has not ended: whose it is, the brackets that it stands in, and its members so far.
#[derive(Drop)]
pub struct OpenPipe {
    pub owner: Owner,
    pub levels: Stack<Level>,
    pub chain: Chain,
}

/// What a statement does with its pipe.
#[derive(Drop)]
pub enum Owner {
    Run,
    Seal(Name),
    Feed(Name),
    CloseSeal(Name),
}

/// An open bracket, and the pipe that it stands in.
#[derive(Drop)]
pub struct Level {
    pub frame: Frame,
    pub outer: Chain,
}

/// An open bracket, with the pipes that ended in it.
#[derive(Drop)]
pub enum Frame {
    Parens,
    Braces(PipeList),
    Block(Block),
    Tee,
    ZipFirst(Zip),
    ZipSecond(Zip, Pipe),
}

/// What stands before a pipe in braces.
#[derive(Drop)]
pub enum Block {
    Counts(Section, Option<u64>),
    LineE,
    Mark(Literal),
}

/// The members of a pipe so far, each with the operator behind it.
#[derive(Drop)]
pub enum Chain {
    Alone,
    Joined(Join, PipeList),
}

/// What the next token has to go on with.
#[derive(Drop)]
pub enum Expected {
    /// A part.
    Part,
    /// The rest of a word or of a form's front.
    Further(Head),
    /// What may stand behind a part.
    Ended(Pipe),
    /// The literal behind the two pipes of `zipSource`.
    ZipText(Pipe, Pipe),
    /// The bracket behind that.
    ZipEnd(Pipe, Pipe, Literal),
}

/// The front of a word or of a form. A `bool` says whether a `not` stands in it.
#[derive(Drop)]
pub enum Head {
    Counted(CountedWord),
    Classed(ClassedWord),
    ClassedNot(ClassedWord),
    Is(ClassedWord, bool),
    Below(ClassedWord, bool),
    Tested(TestedWord),
    TestedNot(TestedWord),
    AtEnd(TestedWord, bool, EndTest),
    Shorter(TestedWord, bool),
    MapE,
    NumberMap(NumberMap),
    Map,
    EndMap(EndMap),
    Literal(LiteralWord),
    File(FileWord),
    Split,
    SplitAt(char),
    List(ListWord),
    ListOpen(ListWord),
    ListEnded(ListWord, LiteralList),
    ListGoes(ListWord, LiteralList),
    Replicate,
    Replicated(Option<u64>),
    Range,
    RangeFrom(Option<u64>),
    Section(Section),
    Mark,
    Block(Block),
    Tee,
    Zip(Zip),
}

/// What a token makes of the front of a word or of a form.
#[derive(Drop)]
pub enum Extension {
    Goes(Head),
    Ends(Word),
    Opens(Frame),
}

/// What a sign makes of the innermost bracket, where a pipe has ended in it.
#[derive(Drop)]
pub enum Exit {
    Stays(Frame),
    Closes(Pipe),
    /// The two pipes of `zipSource`, with a comma behind each.
    Asks(Pipe, Pipe),
}
