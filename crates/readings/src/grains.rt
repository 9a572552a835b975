//! What clocks read, in grains.
use regions::with_tick::WithTick;

/// What each clock reads, in grains.
pub type Grains = WithTick<u32>;
