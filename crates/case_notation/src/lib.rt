//! How the data of cases is written.
#![tactic(auto)]

mod error;
mod notation;

pub use error::CaseError;
pub use notation::{
    field, number, numbers, push_number, push_text, text_of, text_within, write_numbers,
};
