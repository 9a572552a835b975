//! Timed games as arenas.
#![tactic(auto)]

pub mod timed_game;
mod zones;
