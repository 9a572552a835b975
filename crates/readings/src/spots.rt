//! Readings as units and grains, and the classes of the grains.
ghost use Rattle.std.specs.Prelude.{◌≡◌, ◌<◌, ◌≤◌, not, ◌&&◌, nat_lt};
ghost use Rattle.clocks.specs.Regions.{clock, part, spot, seen, rank, ranked};
ghost use Rattle.regions.specs.Types.{Ceilings};
ghost use Rattle.regions.specs.Code.{parts};
ghost use Rattle.readings.specs.Spotted.{spotted, unceiled};

use regions::region::{ClockRegion, Region};
use regions::with_tick::WithTick;

/// A reading as whole units and the grains that remain. Past its ceiling a clock stands one unit
/// above it.
#[derive(Clone, Copy)]
pub(crate) struct Spot {
    pub(crate) whole: u8,
    pub(crate) rest: u32,
}

impl Spot {
    /// Where a clock with this ceiling stands at a scale.
    pub(crate) fn new(ceiling: u8, scale: u32, reading: u32) -> Spot
        requires low { ceiling ≤ 15 }
        requires some { 0 < scale }
        requires fine { scale ≤ 1000000 }
        ensures { part ceiling result.whole result.rest ≡ spot scale (clock ceiling reading) }
    {
        if reading > ceiling as u32 * scale {
            return Spot {
                whole: ceiling + 1,
                rest: 0,
            };
        }
        Spot {
            whole: (reading / scale) as u8,
            rest: reading % scale,
        }
    }
}

/// Whether a remainder counts for the class of another one: it is smaller, not zero, and no equal
/// one is counted.
fn counts(rest: u32, other: u32, is_counted: bool) -> bool
    ensures { result ≡ ((nat_lt 0 rest && nat_lt rest other) && not is_counted) }
{
    0 < rest && rest < other && !is_counted
}

/// The class of a remainder among those of these clocks: 0 for zero, else 1 plus the number of
/// different smaller ones that are not zero.
fn class_of(rest: u32, spots: WithTick<Spot>) -> u8
    ensures { result ≡ rank (seen (unceiled spots)) rest }
{
    if rest == 0 {
        return 0;
    }
    let (x, y, z, tick) = (spots.x.rest, spots.y.rest, spots.z.rest, spots.tick.rest);
    let tick_counts = counts(tick, rest, false);
    let z_counts = counts(z, rest, tick == z);
    let y_counts = counts(y, rest, z == y || tick == y);
    let x_counts = counts(x, rest, y == x || z == x || tick == x);
    1 + tick_counts as u8 + z_counts as u8 + y_counts as u8 + x_counts as u8
}

/// The region of these clocks, whatever their ceilings.
pub(crate) fn region_of(spots: WithTick<Spot>) -> Region
    ensures { (c : Ceilings) → parts c result ≡ ranked (spotted c spots) }
{
    spots.map(|spot| ClockRegion {
        whole: spot.whole,
        class: class_of(spot.rest, spots),
    })
}
