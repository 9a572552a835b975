//! Clock readings at a scale, their regions, and the time that goes by.
#![tactic(auto)]

pub mod grains;
pub mod scaled;
mod spots;

ghost use Rattle.readings.specs.Theorems.{Begins, Refines, Elapses, Restarts, Ticks, Timed};
ghost use Rattle.readings.specs.Time.{Lasts, Stops};

/// The laws of readings and of time, stated in specs/Theorems.antt and specs/Time.antt.
pub fn readings_stand()
    ensures begins { Begins }
    ensures refines { Refines }
    ensures elapses { Elapses }
    ensures restarts { Restarts }
    ensures ticks { Ticks }
    ensures timed { Timed }
    ensures lasts { Lasts }
    ensures stops { Stops }
{}
