//! A script that has a type, with the types of its parts, its sites, and its seals and keys by their numbers.
#![tactic(auto)]

mod names;
mod numbers;
mod site;
mod typed;

pub use names::{Key, Names, Seal, names_stay};
pub use site::{SiteInfo, SiteList, SiteUse};
pub use typed::{PartList, PartTable, Typed, typed_laws};
