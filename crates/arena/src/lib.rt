//! Arenas: games of two sides, us and them, seen through questions.
#![tactic(auto)]

pub mod arena;
pub mod moves;
