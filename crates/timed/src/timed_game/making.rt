//! Timed games from their tables.
ghost use Rattle.std.specs.Prelude.{◌≡◌, is_some, IfSome};
ghost use Rattle.game.specs.Game.{game, sound};
ghost use Rattle.timed.specs.Code.{game_of};

use super::TimedGame;
use game::parts::{Edge, Location};
use regions::region::Ceilings;
use soundness::tables::is_sound;

impl TimedGame {
    /// The game of these tables, if it is sound.
    pub fn new(ceilings: Ceilings, locations: Vec<Location>, edges: Vec<Edge>) -> Option<TimedGame>
        ensures test { is_some result ≡ sound (game ceilings locations.items edges.items) }
        ensures tables { IfSome result (λ t. game_of t ≡ game ceilings locations.items edges.items) }
    {
        if is_sound(ceilings, &locations, &edges) {
            Some(TimedGame {
                ceilings,
                locations,
                edges,
            })
        } else {
            None
        }
    }
}
