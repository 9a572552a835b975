//! Where clocks stand.
use crate::per_clock::PerClock;
use crate::with_tick::WithTick;

/// The highest ceiling that a clock may have.
pub const HIGHEST_CEILING: u8 = 15;

/// The ceiling of the tick clock.
pub const TICK_CEILING: u8 = 1;

/// Where one clock stands: its whole part, and its class, which orders the fractions.
#[derive(Clone, Copy, PartialEq, Eq)]
pub struct ClockRegion {
    pub whole: u8,
    pub class: u8,
}

/// Where all clocks stand. A clock that the game does not have has ceiling 0 and stands past it,
/// at whole part 1.
pub type Region = WithTick<ClockRegion>;

/// The ceilings of a game's clocks, 0 for one that it does not have. The tick clock's is 1.
pub type Ceilings = PerClock<u8>;

/// Which clocks go back to zero.
pub type Restart = WithTick<bool>;
