//! Intervals as a game's tables keep them.
use regions::per_clock::PerClock;

/// One end of an interval; an open one leaves its number out.
#[derive(Clone, Copy, PartialEq, Eq)]
pub struct Bound {
    pub at: u8,
    pub open: bool,
}

/// A closed end at 0.
pub const ZERO: Bound = Bound { at: 0, open: false };

/// A lower end, and an upper end or none: a plain row that nobody has checked.
#[derive(Clone, Copy, PartialEq, Eq)]
pub struct Bounds {
    pub low: Bound,
    pub high: Option<Bound>,
}

/// `[0,-)`: every reading is within.
pub const EVERYWHERE: Bounds = Bounds {
    low: ZERO,
    high: None,
};

/// Bounds for each clock; the tick clock has none. A clock that the game does not have has
/// `[0,-)`.
pub type Zone = PerClock<Bounds>;
