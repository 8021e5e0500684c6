//! The script language: from texts to trees, and from trees to their canonical texts.
#![tactic(auto)]

mod canonical;
mod canonical_words;
mod limits;
mod parsing;
mod printing;
mod reader;
mod refusal;

pub use cd_elem::LimitKind;
pub use limits::{
    BYTE_LIMIT, COLLECT_LIMIT, COPY_LIMIT, DEPTH_LIMIT, LENGTH_LIMIT, LITERAL_LIMIT, NAME_LIMIT,
    REPEAT_LIMIT, TEXT_LIMIT, TOKEN_LIMIT,
};
pub use parsing::parse;
pub use printing::print;
pub use refusal::ScriptRefusal;
