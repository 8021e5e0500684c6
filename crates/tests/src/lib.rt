//! Tests of public calls: what no clause says of them, and what no data can ask.
#![tactic(auto)]

#[cfg(test)]
mod back;
#[cfg(test)]
mod deep;
#[cfg(test)]
mod driven;
#[cfg(test)]
mod fuse;
#[cfg(test)]
mod given_up;
#[cfg(test)]
mod leaves;
#[cfg(test)]
mod marks;
#[cfg(test)]
mod readers;
#[cfg(test)]
mod rests;
#[cfg(test)]
mod scope;
#[cfg(test)]
mod tokens;
#[cfg(test)]
mod trees;
#[cfg(test)]
mod values;
