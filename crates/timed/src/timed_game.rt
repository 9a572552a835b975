//! A timed game that keeps its rules.
pub mod answers;
pub mod as_arena;
pub mod listing;
pub mod making;
mod place;

ghost use Rattle.std.specs.Prelude.{◌≡◌, true};
ghost use Rattle.game.specs.Game.{game, sound};

use game::parts::{Edge, Location};
use regions::region::Ceilings;

/// A sound timed game: its clocks' ceilings, its locations and its edges, both by number from 0.
#[derive(Drop)]
pub struct TimedGame {
    ceilings: Ceilings,
    locations: Vec<Location>,
    edges: Vec<Edge>,
    ghost ok: { sound (game ceilings locations.items edges.items) ≡ true },
}
