//! Goals: parity automata over the labels of positions, and the arena that one makes over any
//! arena.
#![tactic(auto)]

pub mod fault;
pub mod goal;
pub mod product;
pub mod state;
