//! The tokens of a script's text.
#![tactic(auto)]

mod keywords;
mod lexing;
mod literal;
mod longest_token;
mod spelling;

pub use lexing::{Lexed, lex};
pub use longest_token::number_value;
pub use spelling::push_spaced;
