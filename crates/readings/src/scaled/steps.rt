//! Readings that begin and change, and the region that they stand in.
ghost use Rattle.std.specs.Prelude.{◌≡◌, ◌+◌, ◌*◌, ◌≤◌, min, map, if◌then◌else◌, nat_eq, nat_le};
ghost use Rattle.std.specs.Option.{option_map};
ghost use Rattle.clocks.specs.Regions.{spot, finer};
ghost use Rattle.regions.specs.Code.{flags, tick_ceiling};
ghost use Rattle.regions.specs.Standing.{standing};
ghost use Rattle.readings.specs.Grains.{clocks_at};
ghost use Rattle.readings.specs.Spotted.{spotted};
ghost use Rattle.readings.specs.View.{clocks_of, view, begun, refined, delayed, reset, region_in};

use super::Readings;
use crate::grains::Grains;
use crate::spots::{Spot, region_of};
use regions::region::{Ceilings, Restart};
use regions::standing::Clocks;
use regions::with_tick::WithTick;

/// The finest scale, in grains to the unit.
pub const FINEST_SCALE: u32 = 1_000_000;

/// The least factor by which a scale is made finer.
pub const LEAST_FACTOR: u32 = 2;

/// The largest one.
pub const LARGEST_FACTOR: u32 = 1_000;

/// What a clock reads at first: 0, or 1, which is past its ceiling, if the game does not have it.
fn first_reading(ceiling: u8) -> u32
    ensures { result ≡ (if nat_eq ceiling 0 then 1 else 0) }
{
    (ceiling == 0) as u32
}

fn restarted_reading(reading: u32, restarts: bool) -> u32
    ensures { result ≡ (if restarts then 0 else reading) }
{
    if restarts { 0 } else { reading }
}

impl Readings {
    /// The clocks of a game at first: all at zero, one grain to the unit. None if a ceiling is too
    /// high.
    pub fn new(ceilings: Ceilings) -> Option<Readings>
        ensures { option_map view result ≡ begun ceilings }
    {
        if !ceilings.are_allowed() {
            return None;
        }
        Some(Readings {
            ceilings,
            scale: 1,
            grains: ceilings.map(first_reading).with_tick(0),
        })
    }

    /// What the clocks read in grains that are finer by this factor.
    fn finer_grains(self, factor: u32) -> Grains
        requires { factor * self.scale ≤ 1000000 }
        ensures { clocks_at self.ceilings result ≡ finer factor (clocks_of self) }
    {
        self.grains.map(|reading| factor * reading)
    }

    /// The same readings at a scale that is finer by this factor. None if the factor or the new
    /// scale is outside the limits.
    pub fn finer(self, factor: u32) -> Option<Readings>
        ensures { option_map view result ≡ refined factor (view self) }
    {
        if factor < LEAST_FACTOR || factor > LARGEST_FACTOR {
            return None;
        }
        let scale = factor * self.scale;
        if scale > FINEST_SCALE {
            return None;
        }
        let grains = self.finer_grains(factor);
        Some(Readings {
            ceilings: self.ceilings,
            scale,
            grains,
        })
    }

    /// Each clock's ceiling, and what it reads.
    fn clocks(self) -> WithTick<(u8, u32)>
        ensures { result ≡ record { x = (self.ceilings.x, self.grains.x); y = (self.ceilings.y, self.grains.y); z = (self.ceilings.z, self.grains.z); tick = (tick_ceiling, self.grains.tick) } }
    {
        self.ceilings.with_tick_clock().zip(self.grains)
    }

    /// The most that each clock reads: one unit above its ceiling.
    fn most(self) -> WithTick<u32>
        ensures { result ≡ record { x = (self.ceilings.x + 1) * self.scale; y = (self.ceilings.y + 1) * self.scale; z = (self.ceilings.z + 1) * self.scale; tick = (tick_ceiling + 1) * self.scale } }
    {
        self.ceilings
            .with_tick_clock()
            .map(|ceiling| (ceiling as u32 + 1) * self.scale)
    }

    /// The readings after a delay of so many grains.
    pub fn later(self, delay: u32) -> Readings
        ensures { view result ≡ delayed delay (view self) }
    {
        let grains = self
            .grains
            .zip(self.most())
            .map(|(reading, most)| reading.saturating_add(delay).min(most));
        Readings {
            ceilings: self.ceilings,
            scale: self.scale,
            grains,
        }
    }

    /// The readings once these clocks have gone back to zero.
    pub fn restart(self, restart: Restart) -> Readings
        ensures { view result ≡ reset (flags restart) (view self) }
    {
        let grains = self
            .grains
            .zip(restart)
            .map(|(reading, restarts)| restarted_reading(reading, restarts));
        Readings {
            ceilings: self.ceilings,
            scale: self.scale,
            grains,
        }
    }

    /// Whether the tick clock has reached a unit.
    pub fn ticked(self) -> bool
        ensures { result ≡ nat_le self.scale self.grains.tick }
    {
        self.grains.tick >= self.scale
    }

    /// The readings as units and grains.
    fn spots(self) -> WithTick<Spot>
        ensures { spotted self.ceilings result ≡ map (spot self.scale) (clocks_of self) }
    {
        self.clocks().map(|(ceiling, reading)| Spot::new(ceiling, self.scale, reading))
    }

    /// The clocks in the region of their readings.
    pub fn region(self) -> Clocks
        ensures { standing result ≡ region_in (view self) }
    {
        let region = region_of(self.spots());
        let Some(clocks) = Clocks::new(self.ceilings, region) else {
            unreachable!()
        };
        clocks
    }
}
