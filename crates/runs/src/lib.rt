//! Runs by a table: what an accepted table wins.
#![tactic(auto)]

pub mod laws;
pub mod state;
