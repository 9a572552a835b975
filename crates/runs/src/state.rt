//! How a walk stands.

use table::odd::PerColour;

/// What a walk counts: all its rounds, and for each odd colour the rounds of this colour since the
/// last round of a larger one.
#[derive(Clone, Copy)]
pub struct Tally {
    pub rounds: u32,
    pub counts: PerColour<u32>,
}

/// A walk: where it stands, the latch there, and what it counts.
#[derive(Drop)]
pub struct State<P> {
    pub position: P,
    pub latch: u8,
    pub tally: Tally,
}
