//! Invariants and guards, from rows that have been checked.
ghost use Rattle.std.specs.Prelude.{◌≡◌, true};
ghost use Rattle.regions.specs.Standing.{standing};
ghost use Rattle.game.specs.Intervals.{zone, inhabited, holds};
ghost use Rattle.timed.specs.Rows.{habitable};

use game::bounds::{Bounds, Zone};
use regions::standing::Clocks;
use soundness::interval::Interval;

/// The interval of a row that has been checked.
fn interval_of(row: Bounds) -> Interval
    requires { inhabited row ≡ true }
    ensures { result.bounds ≡ row }
{
    let Some(interval) = Interval::new(row) else {
        unreachable!()
    };
    interval
}

/// Whether each clock stands in its interval; the tick clock has none.
pub(crate) fn is_met(rows: Zone, clocks: Clocks) -> bool
    requires { habitable rows ≡ true }
    ensures { result ≡ holds (zone rows) (standing clocks) }
{
    rows.zip(clocks.region().without_tick())
        .every(|(row, clock)| interval_of(row).contains(clock))
}
