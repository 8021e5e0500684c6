// Sites of a script that has a type.

use cd_elem::{Items, Literal};

/// What a site does.
#[derive(Clone, Copy, PartialEq, Eq)]
pub enum SiteUse {
    /// Reads a file.
    Reading,
    /// Writes a file.
    Writing,
    /// Makes a file that stands for a while.
    Marking,
    /// Reads standard input.
    Stdin,
    /// Writes standard output.
    Stdout,
}

/// A site, and where it stands.
#[derive(Drop)]
pub struct SiteInfo {
    pub use_of: SiteUse,
    /// The name of its file, empty for standard input and standard output.
    pub name: Literal,
    /// The number of its statement, from 1.
    pub statement: u32,
    /// The number of its part in that statement, from 1, and 0 for a `hold`.
    pub part: u32,
}

/// A list of sites, in the order of the script: the site with the number s is the member s - 1.
pub type SiteList = Items<SiteInfo>;
