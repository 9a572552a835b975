//! From region to region.
ghost use Rattle.std.specs.Prelude.{◌≡◌, true, map, is_some, IfSome, nat_lt};
ghost use Rattle.std.specs.Option.{option_map};
ghost use Rattle.clocks.specs.Regions.{some, resting, rising, leave, ranked, zeroed, next, waits};
ghost use Rattle.regions.specs.Code.{parts, flags, proper, is_own, Smalls};
ghost use Rattle.regions.specs.Standing.{standing};

use super::Clocks;
use crate::region::{Ceilings, Region, Restart};

/// Whether whole parts and classes are those of a region of clocks with these ceilings.
fn is_own(c: Ceilings, region: Region) -> bool
    ensures { result ≡ is_own (parts c region) }
{
    let highest = region.highest_class();
    region.is_within(c) && region.classes_up_to(highest) == highest
}

impl Clocks {
    /// Clocks with these ceilings that stand in this region, if it is one of theirs.
    pub fn new(ceilings: Ceilings, region: Region) -> Option<Clocks>
        ensures test { is_some result ≡ proper ceilings region }
        ensures fields { IfSome result (λ s. (s.ceilings ≡ ceilings) × (s.region ≡ region)) }
    {
        if ceilings.are_allowed() && is_own(ceilings, region) {
            Some(Clocks { ceilings, region })
        } else {
            None
        }
    }

    /// Whether the tick clock has reached a unit.
    pub fn ticked(self) -> bool
        ensures { result ≡ nat_lt 0 self.region.tick.whole }
    {
        self.region.tick.whole > 0
    }

    /// Whether some clock is not past, at class 0.
    fn some_rest(self) -> bool
        ensures { result ≡ some resting (standing self) }
    {
        self.region
            .parts(self.ceilings)
            .some(|part| part.is_resting())
    }

    /// Whether some clock is below its ceiling, at class 0.
    fn some_rise(self) -> bool
        ensures { result ≡ some rising (standing self) }
    {
        self.region
            .parts(self.ceilings)
            .some(|part| part.is_rising())
    }

    /// The region once the clocks at class 0 have left their whole parts.
    fn left_region(self) -> Region
        requires { Smalls self.ceilings self.region }
        ensures { parts self.ceilings result ≡ map (leave (some rising (standing self))) (standing self) }
    {
        let rise = self.some_rise();
        self.region
            .parts(self.ceilings)
            .map(|part| part.leave(rise))
    }

    /// The next region, if there is one.
    fn next_region(self) -> Option<Region>
        requires { Smalls self.ceilings self.region }
        ensures { option_map (parts self.ceilings) result ≡ next (standing self) }
    {
        if self.some_rest() {
            return Some(self.left_region());
        }
        let highest = self.region.highest_class();
        if highest == 0 {
            return None;
        }
        Some(self.region.map(|at| at.arrive(highest)))
    }

    /// The clocks in the next region. The last region, where all are past, has none.
    pub fn next(self) -> Option<Clocks>
        ensures { option_map standing result ≡ next (standing self) }
    {
        let region = self.next_region()?;
        Some(Clocks {
            ceilings: self.ceilings,
            region,
        })
    }

    /// The clocks after a wait of so many steps, each into the next region.
    pub fn wait(self, steps: u8) -> Option<Clocks>
        ensures { option_map standing result ≡ waits steps (standing self) }
    {
        let mut clocks = self;
        for _ in 0..steps {
            clocks = clocks.next()?;
        }
        Some(clocks)
    }

    /// The region once these clocks have gone back to zero, before the classes close up.
    fn zeroed_region(self, restart: Restart) -> Region
        ensures { parts self.ceilings result ≡ zeroed (flags restart) (standing self) }
    {
        self.region
            .zip(restart)
            .map(|(at, restarts)| at.restart(restarts))
    }

    /// The region once these clocks have gone back to zero.
    fn restarted_region(self, restart: Restart) -> Region
        ensures own { proper self.ceilings result ≡ true }
        ensures is { parts self.ceilings result ≡ ranked (zeroed (flags restart) (standing self)) }
    {
        self.zeroed_region(restart).closed_up()
    }

    /// The clocks once these have gone back to zero, with their classes closed up.
    pub fn restart(self, restart: Restart) -> Clocks
        ensures { standing result ≡ ranked (zeroed (flags restart) (standing self)) }
    {
        let region = self.restarted_region(restart);
        Clocks {
            ceilings: self.ceilings,
            region,
        }
    }
}
