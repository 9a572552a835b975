//! Rows of bounds that nobody has checked.
ghost use Rattle.std.specs.Prelude.{◌≡◌, Some};
ghost use Rattle.game.specs.Intervals.{inhabited, reaches, bounded, fitting};

use game::bounds::{Bound, Bounds, EVERYWHERE};

/// Whether some reading is between the two ends.
fn reaches(low: Bound, high: Bound) -> bool
    ensures { result ≡ reaches low (Some high) }
{
    low.at < high.at || low.at == high.at && !low.open && !high.open
}

/// Whether some reading, fractions counted, is within the bounds.
pub fn is_inhabited(bounds: Bounds) -> bool
    ensures { result ≡ inhabited bounds }
{
    bounds.high.is_none_or(|high| reaches(bounds.low, high))
}

/// Whether no bound is above the ceiling.
pub fn is_bounded(bounds: Bounds, ceiling: u8) -> bool
    ensures { result ≡ bounded ceiling bounds }
{
    bounds.low.at <= ceiling && bounds.high.is_none_or(|high| high.at <= ceiling)
}

/// Whether these are bounds of an interval for a clock with this ceiling. A clock that is not
/// there, with ceiling 0, has `[0,-)`.
pub fn is_fitting(bounds: Bounds, ceiling: u8) -> bool
    ensures { result ≡ fitting ceiling bounds }
{
    is_inhabited(bounds) && is_bounded(bounds, ceiling) && (ceiling > 0 || bounds == EVERYWHERE)
}
