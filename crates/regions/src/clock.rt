//! Ceilings, one clock's part in a region, and the classes of all.
ghost use Rattle.std.specs.Prelude.{◌≡◌, ◌+◌, ◌≤◌, if◌then◌else◌, ◌==◌};
ghost use Rattle.std.specs.List.{list_all};
ghost use Rattle.clocks.specs.Regions.{resting, rising, leave, seen, upto, rank, ranked, top};
ghost use Rattle.regions.specs.Types.{Ceilings};
ghost use Rattle.regions.specs.Code.{part_of, tick_ceiling, parts, unceiled, within, ceiled, Small};

use crate::region::{Ceilings, ClockRegion, HIGHEST_CEILING, Region, TICK_CEILING};
use crate::with_tick::WithTick;

/// A clock's ceiling, and where the clock stands.
#[derive(Clone, Copy)]
pub(crate) struct Part {
    pub(crate) ceiling: u8,
    pub(crate) at: ClockRegion,
}

impl Part {
    /// Whether the clock can stand there.
    pub(crate) fn is_within(self) -> bool
        ensures { result ≡ within (part_of self.ceiling self.at) }
    {
        let Part { ceiling, at } = self;
        at.whole as u16 <= ceiling as u16 + 1 && (at.class == 0 || at.whole < ceiling)
    }

    /// Whether the clock is not past, at class 0.
    pub(crate) fn is_resting(self) -> bool
        ensures { result ≡ resting (part_of self.ceiling self.at) }
    {
        self.at.whole <= self.ceiling && self.at.class == 0
    }

    /// Whether the clock is below its ceiling, at class 0.
    pub(crate) fn is_rising(self) -> bool
        ensures { result ≡ rising (part_of self.ceiling self.at) }
    {
        self.at.whole < self.ceiling && self.at.class == 0
    }

    /// Where the clock stands once the clocks at class 0 have left their whole parts. Positive
    /// classes rise if some of those clocks are not past then.
    pub(crate) fn leave(self, classes_rise: bool) -> ClockRegion
        requires { Small self.ceiling self.at }
        ensures { part_of self.ceiling result ≡ leave classes_rise (part_of self.ceiling self.at) }
    {
        let Part { ceiling, at } = self;
        if at.whole > ceiling {
            at
        } else if at.class > 0 {
            ClockRegion {
                class: at.class + classes_rise as u8,
                ..at
            }
        } else if at.whole < ceiling {
            ClockRegion { class: 1, ..at }
        } else {
            ClockRegion {
                whole: ceiling + 1,
                class: 0,
            }
        }
    }
}

impl ClockRegion {
    /// Where the clock stands once the clocks of the highest class have reached their next whole
    /// parts.
    pub(crate) fn arrive(self, highest: u8) -> ClockRegion
        requires { self.whole ≤ 16 }
        ensures { result ≡ (if self.class == highest then (record { whole = self.whole + 1; class = 0 }) else self) }
    {
        if self.class == highest {
            ClockRegion {
                whole: self.whole + 1,
                class: 0,
            }
        } else {
            self
        }
    }

    /// Where the clock stands if it goes back to zero, or not.
    pub(crate) fn restart(self, restarts: bool) -> ClockRegion
        ensures { result ≡ (if restarts then (record { whole = 0; class = 0 }) else self) }
    {
        if restarts {
            ClockRegion { whole: 0, class: 0 }
        } else {
            self
        }
    }
}

impl Ceilings {
    /// Whether no ceiling is above the highest.
    pub fn are_allowed(self) -> bool
        ensures { result ≡ ceiled self }
    {
        self.every(|ceiling| ceiling <= HIGHEST_CEILING)
    }

    /// The ceilings of all clocks, the tick clock's too.
    pub fn with_tick_clock(self) -> WithTick<u8>
        ensures { result ≡ record { x = self.x; y = self.y; z = self.z; tick = tick_ceiling } }
    {
        self.with_tick(TICK_CEILING)
    }
}

impl Region {
    /// Each clock with its ceiling.
    pub(crate) fn parts(self, ceilings: Ceilings) -> WithTick<Part>
        ensures { result ≡ record { x = record { ceiling = ceilings.x; at = self.x }; y = record { ceiling = ceilings.y; at = self.y }; z = record { ceiling = ceilings.z; at = self.z }; tick = record { ceiling = tick_ceiling; at = self.tick } } }
    {
        ceilings
            .with_tick_clock()
            .zip(self)
            .map(|(ceiling, at)| Part { ceiling, at })
    }

    /// Whether each clock can stand where it does under its ceiling.
    pub(crate) fn is_within(self, ceilings: Ceilings) -> bool
        ensures { result ≡ list_all within (parts ceilings self) }
    {
        self.parts(ceilings).every(|part| part.is_within())
    }

    /// Whether some clock has this class.
    fn has_class(self, class: u8) -> bool
        ensures { result ≡ seen (unceiled self) class }
    {
        self.some(|at| at.class == class)
    }

    /// The highest class of all clocks.
    pub(crate) fn highest_class(self) -> u8
        ensures { result ≡ top (unceiled self) }
    {
        self.map(|at| at.class).max()
    }

    /// How many of the classes from 1 to `last` some clock has.
    pub(crate) fn classes_up_to(self, last: u8) -> u8
        ensures { result ≡ upto (seen (unceiled self)) last }
    {
        let mut count = 0;
        for below in 0..last {
            if self.has_class(below + 1) {
                count += 1;
            }
        }
        count
    }

    /// This clock of the region, with its class closed up: those below it that no clock has are
    /// taken out.
    pub(crate) fn close_up(self, clock: ClockRegion) -> ClockRegion
        ensures whole { result.whole ≡ clock.whole }
        ensures class { result.class ≡ rank (seen (unceiled self)) clock.class }
    {
        if clock.class == 0 {
            return clock;
        }
        ClockRegion {
            class: self.classes_up_to(clock.class - 1) + 1,
            ..clock
        }
    }

    /// The region with all classes closed up.
    pub(crate) fn closed_up(self) -> Region
        ensures { (c : Ceilings) → parts c result ≡ ranked (parts c self) }
    {
        self.map(|at| self.close_up(at))
    }
}
