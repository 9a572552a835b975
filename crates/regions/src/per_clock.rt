//! One of something for each clock of a game.
ghost use Rattle.std.specs.Prelude.{◌≡◌, Bool, ◌&&◌, [], ◌∷◌};
ghost use Rattle.std.specs.List.{list_all};
ghost use Rattle.regions.specs.Tests.{Says};

use crate::with_tick::WithTick;

/// One for each clock that a game may have.
#[derive(Clone, Copy, PartialEq, Eq)]
pub struct PerClock<T> {
    pub x: T,
    pub y: T,
    pub z: T,
}

impl<T> PerClock<T> {
    /// These, and one for the tick clock.
    #[inline]
    pub fn with_tick(self, tick: T) -> WithTick<T>
        ensures { result ≡ record { x = self.x; y = self.y; z = self.z; tick = tick } }
    {
        WithTick {
            x: self.x,
            y: self.y,
            z: self.z,
            tick,
        }
    }
}

impl<T: Copy> PerClock<T> {
    /// What `f` makes of each.
    #[inline]
    pub fn map<U, F: Fn(T) -> U>(self, f: F) -> PerClock<U>
        requires x { F.pre f self.x }
        requires y { F.pre f self.y }
        requires z { F.pre f self.z }
        ensures x { F.post f self.x result.x }
        ensures y { F.post f self.y result.y }
        ensures z { F.post f self.z result.z }
    {
        PerClock {
            x: f(self.x),
            y: f(self.y),
            z: f(self.z),
        }
    }

    /// Each with its neighbour of the same clock.
    #[inline]
    pub fn zip<U: Copy>(self, other: PerClock<U>) -> PerClock<(T, U)>
        ensures { result ≡ record { x = (self.x, other.x); y = (self.y, other.y); z = (self.z, other.z) } }
    {
        PerClock {
            x: (self.x, other.x),
            y: (self.y, other.y),
            z: (self.z, other.z),
        }
    }

    /// Whether the test holds of each. Those behind one of which it does not hold are not tested.
    #[inline]
    pub fn every<F: Fn(T) -> bool>(self, test: F) -> bool
        requires x { F.pre test self.x }
        requires y { F.pre test self.y }
        requires z { F.pre test self.z }
        ensures { (x y z : Bool) → Says (F.post test self.x) x → Says (F.post test self.y) y → Says (F.post test self.z) z → result ≡ list_all (λ b. b) (x ∷ y ∷ z ∷ []) }
    {
        test(self.x) && test(self.y) && test(self.z)
    }
}

impl PerClock<bool> {
    /// Whether it holds of all clocks.
    #[inline]
    pub fn all(self) -> bool
        ensures { result ≡ (self.x && self.y && self.z) }
    {
        self.x && self.y && self.z
    }
}
