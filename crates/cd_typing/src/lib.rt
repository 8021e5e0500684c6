//! The typing of scripts: which scripts have a type, and what is refused first in the others.
#![tactic(auto)]

mod asking;
mod forms;
mod members;
mod parts;
mod refusal;
mod scripts;
mod sites;
mod statements;
mod walk;
mod words;
mod zips;

pub use cd_typed::{PartList, PartTable, SiteInfo, SiteList, SiteUse, Typed, typed_laws};
pub use cd_types::{Refusal, RefusalKind};
pub use refusal::CheckRefusal;
pub use scripts::check;
