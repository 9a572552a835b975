//! Walks along a table, one round at a time.
#![tactic(auto)]

pub mod walk;
