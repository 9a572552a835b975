//! Clocks that stand in a region of theirs.
pub mod steps;

ghost use Rattle.std.specs.Prelude.{◌≡◌, true};
ghost use Rattle.regions.specs.Code.{proper};

use crate::region::{Ceilings, Region};

/// Clocks with these ceilings that stand in a region of theirs.
#[derive(Clone, Copy)]
pub struct Clocks {
    ceilings: Ceilings,
    region: Region,
    ghost ok: { proper ceilings region ≡ true },
}

impl Clocks {
    /// The clocks' ceilings.
    pub fn ceilings(self) -> Ceilings
        ensures { result ≡ self.ceilings }
    {
        self.ceilings
    }

    /// Where the clocks stand.
    pub fn region(self) -> Region
        ensures { result ≡ self.region }
    {
        self.region
    }
}
