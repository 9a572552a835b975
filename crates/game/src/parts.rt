//! What a timed game is made of, and its positions.
use crate::bounds::Zone;
use arena::moves::Side;
use regions::per_clock::PerClock;
use regions::region::Region;

/// A location: clocks may stay in it while they keep its invariant.
#[derive(Clone, Copy)]
pub struct Location {
    pub priority: u8,
    pub invariant: Zone,
}

/// The clocks that an edge resets.
pub type Resets = PerClock<bool>;

/// An edge of one side: it may be taken where its guard is met.
#[derive(Clone, Copy)]
pub struct Edge {
    pub side: Side,
    pub from: u8,
    pub to: u8,
    pub resets: Resets,
    pub guard: Zone,
}

/// A position: a location and a region.
#[derive(Clone, Copy, PartialEq, Eq)]
pub struct TimedPosition {
    pub location: u8,
    pub region: Region,
}
