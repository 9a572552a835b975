//! What a timed game's tables must be: intervals that contain a reading, and sound games.
#![tactic(auto)]

pub mod bounds;
pub mod interval;
pub mod items;
pub mod tables;
