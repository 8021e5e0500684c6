//! The grammar of scripts: which text is a script, with which tokens and which tree, and which token is refused first.
//!
//! Definitions alone; no code runs here.
#![tactic(auto)]
