//! Ranks for a table, or a losing loop of it.
#![tactic(auto)]

mod arcs;
pub mod error;
mod lifting;
mod notes;
pub mod ranker;
pub mod scratch;
