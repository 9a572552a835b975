//! Plans over any arena: whether a table of rows with its ranks wins.
#![tactic(auto)]

pub mod check;
mod index;
pub mod passage;
pub mod ranks;
pub mod visitor;
