//! Clocks and their regions, for any number of clocks: definitions and the laws that hold of them.
#![tactic(auto)]

ghost use Rattle.clocks.specs.Theorems.{Scales, Holds, Said, Guards, Restarts, Owned, Shown, Kept, Fresh, Leaving, Arriving, Grains, Delays, Waits, Earlier, Once, Ends, Few};

/// The laws of regions, each stated in specs/Theorems.antt.
pub fn regions_stand() -> u8
    ensures scales { Scales }
    ensures holds { Holds }
    ensures said { Said }
    ensures guards { Guards }
    ensures restarts { Restarts }
    ensures owned { Owned }
    ensures shown { Shown }
    ensures kept { Kept }
    ensures fresh { Fresh }
    ensures leaving { Leaving }
    ensures arriving { Arriving }
    ensures grains { Grains }
    ensures delays { Delays }
    ensures waits { Waits }
    ensures earlier { Earlier }
    ensures once { Once }
    ensures ends { Ends }
    ensures few { Few }
{
    0
}
