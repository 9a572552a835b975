//! Intervals that contain a reading.
ghost use Rattle.std.specs.Prelude.{◌≡◌, true, not, is_some, IfSome};
ghost use Rattle.game.specs.Intervals.{inhabited, equals, exceeds, meets_low, meets_high, meets};
ghost use Rattle.soundness.specs.Clock.{stands};

use crate::bounds::is_inhabited;
use game::bounds::Bounds;
use regions::region::ClockRegion;

/// An interval that contains at least one reading, fractions counted.
#[derive(Clone, Copy)]
pub struct Interval {
    bounds: Bounds,
    ghost ok: { inhabited bounds ≡ true },
}

/// Whether the clock is exactly at a number.
fn is_at(clock: ClockRegion, number: u8) -> bool
    ensures { result ≡ equals number (stands clock) }
{
    clock.whole == number && clock.class == 0
}

/// Whether the clock is above a number.
fn is_above(clock: ClockRegion, number: u8) -> bool
    ensures { result ≡ exceeds number (stands clock) }
{
    clock.whole > number || clock.whole == number && clock.class > 0
}

impl Interval {
    /// The interval with these bounds, if it contains a reading.
    pub fn new(bounds: Bounds) -> Option<Interval>
        ensures test { is_some result ≡ inhabited bounds }
        ensures bounds { IfSome result (λ i. i.bounds ≡ bounds) }
    {
        if is_inhabited(bounds) {
            Some(Interval { bounds })
        } else {
            None
        }
    }

    /// Whether the clock is not before the lower end.
    fn is_reached(self, clock: ClockRegion) -> bool
        ensures { result ≡ meets_low self.bounds.low (stands clock) }
    {
        let low = self.bounds.low;
        is_above(clock, low.at) || !low.open && is_at(clock, low.at)
    }

    /// Whether the clock is after the upper end.
    fn is_passed(self, clock: ClockRegion) -> bool
        ensures { result ≡ not (meets_high self.bounds.high (stands clock)) }
    {
        self.bounds.high.is_some_and(|high| is_above(clock, high.at)
            || high.open && is_at(clock, high.at))
    }

    /// Whether the clock stands in the interval.
    pub fn contains(self, clock: ClockRegion) -> bool
        ensures { result ≡ meets self.bounds (stands clock) }
    {
        self.is_reached(clock) && !self.is_passed(clock)
    }
}
