//! From a text to the verdict on it.
#![tactic(auto)]

pub mod judge;
pub mod lines;
pub mod verdict;
