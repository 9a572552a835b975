//! One of something for each clock of a game and for the tick clock.
ghost use Rattle.std.specs.Prelude.{◌≡◌, Bool, ◌&&◌, ◌||◌, [], ◌∷◌, max};
ghost use Rattle.std.specs.List.{list_all};
ghost use Rattle.clocks.specs.Regions.{some};
ghost use Rattle.regions.specs.Tests.{Says};

use crate::per_clock::PerClock;

/// One for each clock that a game may have, and one for the tick clock.
#[derive(Clone, Copy, PartialEq, Eq)]
pub struct WithTick<T> {
    pub x: T,
    pub y: T,
    pub z: T,
    pub tick: T,
}

impl<T: Copy> WithTick<T> {
    /// Those of the game's clocks.
    #[inline]
    pub fn without_tick(self) -> PerClock<T>
        ensures { result ≡ record { x = self.x; y = self.y; z = self.z } }
    {
        PerClock {
            x: self.x,
            y: self.y,
            z: self.z,
        }
    }

    /// What `f` makes of each.
    #[inline]
    pub fn map<U, F: Fn(T) -> U>(self, f: F) -> WithTick<U>
        requires x { F.pre f self.x }
        requires y { F.pre f self.y }
        requires z { F.pre f self.z }
        requires tick { F.pre f self.tick }
        ensures x { F.post f self.x result.x }
        ensures y { F.post f self.y result.y }
        ensures z { F.post f self.z result.z }
        ensures tick { F.post f self.tick result.tick }
    {
        let tick = f(self.tick);
        self.without_tick().map(f).with_tick(tick)
    }

    /// Each with its neighbour of the same clock.
    #[inline]
    pub fn zip<U: Copy>(self, other: WithTick<U>) -> WithTick<(T, U)>
        ensures { result ≡ record { x = (self.x, other.x); y = (self.y, other.y); z = (self.z, other.z); tick = (self.tick, other.tick) } }
    {
        self.without_tick()
            .zip(other.without_tick())
            .with_tick((self.tick, other.tick))
    }

    /// Whether the test holds of each. Those behind one of which it does not hold are not tested.
    #[inline]
    pub fn every<F: Fn(T) -> bool>(self, test: F) -> bool
        requires x { F.pre test self.x }
        requires y { F.pre test self.y }
        requires z { F.pre test self.z }
        requires tick { F.pre test self.tick }
        ensures { (x y z tick : Bool) → Says (F.post test self.x) x → Says (F.post test self.y) y → Says (F.post test self.z) z → Says (F.post test self.tick) tick → result ≡ list_all (λ b. b) (x ∷ y ∷ z ∷ tick ∷ []) }
    {
        test(self.x) && test(self.y) && test(self.z) && test(self.tick)
    }

    /// Whether the test holds of some. Those behind one of which it holds are not tested.
    #[inline]
    pub fn some<F: Fn(T) -> bool>(self, test: F) -> bool
        requires x { F.pre test self.x }
        requires y { F.pre test self.y }
        requires z { F.pre test self.z }
        requires tick { F.pre test self.tick }
        ensures { (x y z tick : Bool) → Says (F.post test self.x) x → Says (F.post test self.y) y → Says (F.post test self.z) z → Says (F.post test self.tick) tick → result ≡ some (λ b. b) (x ∷ y ∷ z ∷ tick ∷ []) }
    {
        test(self.x) || test(self.y) || test(self.z) || test(self.tick)
    }
}

impl WithTick<bool> {
    /// Whether it holds of some clock.
    #[inline]
    pub fn any(self) -> bool
        ensures { result ≡ (self.x || self.y || self.z || self.tick) }
    {
        self.x || self.y || self.z || self.tick
    }

    /// Whether it holds of all clocks.
    #[inline]
    pub fn all(self) -> bool
        ensures { result ≡ (self.x && self.y && self.z && self.tick) }
    {
        self.without_tick().all() && self.tick
    }
}

impl WithTick<u8> {
    /// The largest.
    #[inline]
    pub fn max(self) -> u8
        ensures { result ≡ max self.x (max self.y (max self.z self.tick)) }
    {
        self.x.max(self.y.max(self.z.max(self.tick)))
    }
}
