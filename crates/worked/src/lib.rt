//! The worked examples, as theorems.
#![tactic(auto)]

ghost use Rattle.worked.specs.Worked.{Counts, Accepts, Blames, Ranked, Loops, Misses, Regions, Intervals};

/// Each example, stated in specs/Worked.antt over the definitions that the calls' contracts name.
pub fn worked_stand() -> u8
    ensures counts { Counts }
    ensures accepts { Accepts }
    ensures blames { Blames }
    ensures ranked { Ranked }
    ensures loops { Loops }
    ensures misses { Misses }
    ensures regions { Regions }
    ensures intervals { Intervals }
{
    0
}
