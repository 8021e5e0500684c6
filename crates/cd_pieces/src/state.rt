// What a piece word carries from one piece to the next, by groups of words.
use crate::collected::Collected;
use crate::spelled::Spelled;
use cd_elem::Chunk;

/// A test of a piece, or its opposite.
#[derive(Drop)]
pub struct Test {
    pub negated: bool,
    pub what: Question,
}

/// What is asked of a piece.
#[derive(Drop)]
pub enum Question {
    Empty,
    Begins(Spelled),
    Ends(Spelled),
    Shorter(u64),
}

/// What is made of a piece.
#[derive(Drop)]
pub enum Change {
    Prefix(Spelled),
    Suffix(Spelled),
    Reverse,
}

/// A word that passes a piece on, drops it or gives it back, with what is left of its number.
#[derive(Drop)]
pub enum Sifting {
    Pass,
    Take(u64),
    TakeWhile(Test),
    Filter(Test),
    Drop(u64),
    DropWhile(Test),
    Length(u64),
    Null,
    SinkNull,
}

/// A word that answers with the first piece.
#[derive(Clone, Copy)]
pub enum Answering {
    Head,
    Peek,
}

/// A word that keeps pieces.
#[derive(Drop)]
pub enum Keeping {
    Last(Option<Chunk>),
    Collect(Collected),
}

/// A word that makes pieces.
#[derive(Drop)]
pub enum Making {
    Change(Change),
    Repeat(u64),
    /// Whether no piece has come yet.
    Intersperse(Spelled, bool),
}

/// A word with what it carries.
#[derive(Drop)]
pub enum WordState {
    Sift(Sifting),
    Answer(Answering),
    Keep(Keeping),
    Make(Making),
}
