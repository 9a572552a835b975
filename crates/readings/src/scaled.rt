//! Readings at a scale.
pub mod steps;

ghost use Rattle.std.specs.Prelude.{◌≡◌, true};
ghost use Rattle.readings.specs.Grains.{readable};

use crate::grains::Grains;
use regions::region::Ceilings;

/// Clocks read at a scale: so many grains to the unit. A reading more than one unit above its
/// ceiling is held there.
#[derive(Clone, Copy)]
pub struct Readings {
    ceilings: Ceilings,
    scale: u32,
    grains: Grains,
    ghost ok: { readable ceilings scale grains ≡ true },
}

impl Readings {
    pub fn ceilings(self) -> Ceilings
        ensures { result ≡ self.ceilings }
    {
        self.ceilings
    }

    /// The number of grains to the unit.
    pub fn scale(self) -> u32
        ensures { result ≡ self.scale }
    {
        self.scale
    }
}
