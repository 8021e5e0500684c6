//! The values that every part of the engine speaks of: lists, texts, places of a script, and want of memory.
#![tactic(auto)]

mod boxed;
mod chunk;
mod fault;
mod items;
mod kind;
mod literal;
mod name;
mod no_memory;
mod roomy;
mod script;
mod site;
mod token;
mod value;
mod word;

pub use boxed::Boxed;
pub use chunk::{CHUNK_LIMIT, Chunk};
pub use fault::Fault;
pub use items::Items;
pub use kind::{Kind, Sort};
pub use literal::Literal;
pub use name::Name;
pub use no_memory::NoMemory;
pub use roomy::Roomy;
pub use script::{Join, Pipe, PipeList, Script, Stmt, StmtList};
pub use site::Site;
pub use token::{
    ClassedWord, CountedWord, EndMap, EndTest, FileWord, Keyword, Lexeme, LimitKind, ListWord,
    LiteralWord, NumberMap, Opening, PlainClass, PlainWord, Section, Sign, TestedWord, Token, Zip,
};
pub use value::{Value, ValueList};
pub use word::{
    BaseWord, ByteMap, Class, ClassName, ElemWord, PieceMap, PieceTest, PieceWord, SinkWord,
    SourceWord, SplitWord, TestName, TextWord, Word,
};

/// A list of bytes.
pub type ByteList = Items<u8>;

/// A list of characters.
pub type CharList = Items<char>;

/// A list of numbers.
pub type NumberList = Items<u32>;

/// A list of texts.
pub type LiteralList = Items<Literal>;
