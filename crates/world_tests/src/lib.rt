//! Tests of the calls of a world, over files in memory and over real ones: what no clause says of them.
#![tactic(auto)]

#[cfg(test)]
mod calls;
#[cfg(test)]
mod host;
#[cfg(test)]
mod world;
