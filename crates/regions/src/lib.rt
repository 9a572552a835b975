//! Regions of up to three clocks and the tick clock, as the program has them.
#![tactic(auto)]

mod clock;
pub mod per_clock;
pub mod region;
pub mod standing;
pub mod with_tick;
