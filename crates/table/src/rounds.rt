//! What a round does beside the position.
ghost use Rattle.std.specs.Prelude.{◌≡◌};
ghost use Rattle.table.specs.Colours.{colour_of, latch_after};

use arena::arena::Arena;
use arena::moves::{Outcome, Side};

/// The colour of a round that begins with this latch.
pub fn colour_of<P>(latch: u8, outcome: &Outcome<P>) -> u16
    ensures { result ≡ colour_of latch outcome.now }
{
    if outcome.ticked {
        latch as u16 + 2
    } else {
        match outcome.by {
            Side::Us => 1,
            Side::Them => 0,
        }
    }
}

/// The latch after a round that begins with this one.
pub fn latch_after<A: Arena>(arena: &A, latch: u8, outcome: &Outcome<A::Position>) -> u8
    ensures { result ≡ latch_after (A.Arena.meaning arena.now) latch outcome.now }
{
    let priority = arena.priority(&outcome.position);
    if outcome.ticked {
        priority
    } else {
        latch.max(priority)
    }
}
