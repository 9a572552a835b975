//! The timed game as an arena.
ghost use Rattle.std.specs.Prelude.{◌≡◌, Some};
ghost use Rattle.game.specs.Game.{fresh};
ghost use Rattle.game.specs.Timed.{clock_region, timed_meaning};
ghost use Rattle.timed.specs.Code.{game_of};
ghost use Rattle.timed.specs.Rest.{rest_of};
ghost use Rattle.game.proofs.Lawfuls.{lawfully};

use super::TimedGame;
use super::listing::TimedListing;
use arena::arena::Arena;
use arena::moves::{Move, Outcome, Side};
use game::parts::TimedPosition;
use regions::region::{ClockRegion, Region};
use soundness::items::item_at;

/// A clock at zero; one that the game does not have, with ceiling 0, stands past it.
fn fresh_clock(ceiling: u8) -> ClockRegion
    ensures { result ≡ clock_region (Some (fresh ceiling)) }
{
    let whole = if ceiling == 0 { 1 } else { 0 };
    ClockRegion { whole, class: 0 }
}

// each question answers by the meaning of the game's tables
impl Arena for TimedGame {
    type Position = TimedPosition;

    type Listing = TimedListing;

    ghost meaning = { λ t. timed_meaning (game_of t) };

    ghost rest = { λ t w. rest_of (game_of t) w };

    ghost lawful = { λ t. lawfully (game_of t) t.ok };

    fn start(&self) -> TimedPosition {
        TimedPosition {
            location: 0,
            region: self.ceilings.with_tick_clock().map(fresh_clock),
        }
    }

    fn same(&self, p: &TimedPosition, q: &TimedPosition) -> bool {
        p == q
    }

    fn digest(&self, p: &TimedPosition) -> u32 {
        // each factor is how many values the numbers before it take together: 33, and by turns 17 and 5
        let Region { x, y, z, tick } = p.region;
        p.location as u32
            + 33 * x.whole as u32
            + 561 * x.class as u32
            + 2805 * y.whole as u32
            + 47685 * y.class as u32
            + 238425 * z.whole as u32
            + 4053225 * z.class as u32
            + 7 * tick.class as u32
    }

    fn owns(&self, p: &TimedPosition) -> bool {
        self.own_place(*p).is_some()
    }

    fn priority(&self, p: &TimedPosition) -> u8 {
        if !self.owns(p) {
            return 0;
        }
        item_at(self.locations.as_slice(), p.location as usize).map_or(
            0,
            |location| location.priority,
        )
    }

    fn label(&self, p: &TimedPosition) -> u8 {
        if self.owns(p) { p.location } else { 0 }
    }

    fn legal(&self, p: &TimedPosition, m: Move) -> bool {
        self.is_legal(Side::Us, *p, m)
    }

    fn list(&self, p: &TimedPosition, m: Move) -> TimedListing {
        self.list_outcomes(*p, m)
    }

    fn next(&self, listing: &mut TimedListing) -> Option<Outcome<TimedPosition>> {
        self.next_outcome(listing)
    }
}
