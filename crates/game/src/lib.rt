//! Timed games: what they are made of, their rules, and the laws that hold of them.
#![tactic(auto)]

pub mod bounds;
pub mod parts;

ghost use Rattle.std.specs.Prelude.{◌≡◌};
ghost use Rattle.game.specs.Timed.{Lawfully};
ghost use Rattle.game.specs.Absent.{Absent, StayAbsent};
ghost use Rattle.game.specs.Theorems.{Inhabited, Measured, Suited, Short, Starts, Listed, ByRegion, Beyond, ByEdge};

/// The laws of timed games, each stated in specs/.
pub fn games_stand() -> u8
    ensures answer { result ≡ 0 }
    ensures lawfully { Lawfully }
    ensures inhabited { Inhabited }
    ensures measured { Measured }
    ensures suited { Suited }
    ensures absent { Absent }
    ensures stay_absent { StayAbsent }
    ensures short { Short }
    ensures starts { Starts }
    ensures listed { Listed }
    ensures by_region { ByRegion }
    ensures beyond { Beyond }
    ensures by_edge { ByEdge }
{
    0
}
