//! Whether a game's tables are sound.
ghost use Rattle.std.specs.Prelude.{◌≡◌};
ghost use Rattle.std.specs.List.{list_all};
ghost use Rattle.game.specs.Game.{game, sound, suits, resetting, in_turn, sound_location, sound_edge};
ghost use Rattle.game.specs.Start.{well_made, from_zero, starts_at_zero};

use crate::bounds::is_fitting;
use game::bounds::{Bounds, ZERO, Zone};
use game::parts::{Edge, Location, Resets};
use regions::region::Ceilings;

/// The highest priority of a location.
pub const HIGHEST_PRIORITY: u8 = 5;

/// The largest number of locations.
pub const MOST_LOCATIONS: usize = 32;

/// The largest number of edges.
pub const MOST_EDGES: usize = 64;

/// Whether the clocks that are there come first.
fn is_in_turn(c: Ceilings) -> bool
    ensures { result ≡ in_turn c }
{
    (c.x > 0 || c.y == 0) && (c.y > 0 || c.z == 0)
}

/// Whether each clock's bounds are those of an interval for its ceiling.
fn is_suited(rows: Zone, c: Ceilings) -> bool
    ensures { result ≡ suits c rows }
{
    rows.zip(c)
        .map(|(bounds, ceiling)| is_fitting(bounds, ceiling))
        .all()
}

/// Whether no clock is reset that is not there.
fn is_resetting(resets: Resets, c: Ceilings) -> bool
    ensures { result ≡ resetting c resets }
{
    resets
        .zip(c)
        .map(|(is_reset, ceiling)| ceiling > 0 || !is_reset)
        .all()
}

/// Whether priority and invariant are within the rules.
fn is_sound_location(location: Location, c: Ceilings) -> bool
    ensures { result ≡ sound_location c location }
{
    location.priority <= HIGHEST_PRIORITY && is_suited(location.invariant, c)
}

/// Whether both ends are there, and resets and guard are within the rules.
fn is_sound_edge(edge: Edge, c: Ceilings, locations: usize) -> bool
    ensures { result ≡ sound_edge c locations edge }
{
    (edge.from as usize) < locations
        && (edge.to as usize) < locations
        && is_resetting(edge.resets, c)
        && is_suited(edge.guard, c)
}

/// Whether all locations are within the rules.
fn are_sound_locations(locations: &[Location], c: Ceilings) -> bool
    ensures { result ≡ list_all (sound_location c) locations.now }
{
    locations
        .iter()
        .all(|location| is_sound_location(*location, c))
}

/// Whether all edges are within the rules.
fn are_sound_edges(edges: &[Edge], c: Ceilings, locations: usize) -> bool
    ensures { result ≡ list_all (sound_edge c locations) edges.now }
{
    edges.iter().all(|edge| is_sound_edge(*edge, c, locations))
}

/// Whether the lower end is a closed 0.
fn is_from_zero(row: Bounds) -> bool
    ensures { result ≡ from_zero row }
{
    row.low == ZERO
}

/// Whether there is a location 0, and all clocks may be at zero in it.
fn starts_at_zero(locations: &[Location]) -> bool
    ensures { result ≡ starts_at_zero locations.now }
{
    locations
        .first()
        .is_some_and(|first| first.invariant.map(is_from_zero).all())
}

/// Whether ceilings, locations and edges keep the rules, wherever the start is.
fn is_well_made(c: Ceilings, locations: &[Location], edges: &[Edge]) -> bool
    ensures { result ≡ well_made (game c locations.now edges.now) }
{
    c.are_allowed()
        && is_in_turn(c)
        && locations.len() <= MOST_LOCATIONS
        && are_sound_locations(locations, c)
        && edges.len() <= MOST_EDGES
        && are_sound_edges(edges, c, locations.len())
}

/// Whether the tables are those of a sound game.
pub fn is_sound(c: Ceilings, locations: &[Location], edges: &[Edge]) -> bool
    ensures { result ≡ sound (game c locations.now edges.now) }
{
    is_well_made(c, locations, edges) && starts_at_zero(locations)
}
