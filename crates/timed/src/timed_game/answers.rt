//! Own positions, and moves of both sides.
ghost use Rattle.std.specs.Prelude.{◌≡◌, true, ◌&&◌, is_some, IfSome, if◌then◌else◌, Some, None, ◌==◌};
ghost use Rattle.regions.specs.Standing.{standing};
ghost use Rattle.game.specs.Game.{Game, place, ticks, keeps, owns, last_whole, carried, flags, result_of, fits, may_take, edge_at, legal};
ghost use Rattle.game.specs.Timed.{place_of, in_code};
ghost use Rattle.timed.specs.Rows.{habitable};
ghost use Rattle.timed.specs.Carried.{reached, carried_out};
ghost use Rattle.timed.specs.Code.{game_of};

use super::TimedGame;
use super::place::Place;
use crate::zones::is_met;
use arena::moves::{Move, Outcome, Side};
use game::parts::{Edge, Resets, TimedPosition};
use regions::standing::Clocks;
use soundness::items::item_at;

/// The most steps that a move may wait.
const MOST_STEPS: u8 = 96;

/// No clock is reset.
const NO_RESETS: Resets = Resets {
    x: false,
    y: false,
    z: false,
};

/// The clocks once a move is carried out where they stand: some are reset, the tick clock too if
/// it has reached a unit.
fn carry(clocks: Clocks, resets: Resets) -> Clocks
    ensures { standing result ≡ carried (flags resets) (standing clocks) }
{
    clocks.restart(resets.with_tick(clocks.ticked()))
}

/// The outcome of a move that leads to this place, by the clocks before it is carried out.
fn outcome_at(by: Side, before: Clocks, after: Place) -> Outcome<TimedPosition>
    ensures { result ≡ in_code (record { position = place after.location (standing after.clocks); ticked = ticks (standing before); by = by }) }
{
    Outcome {
        position: TimedPosition {
            location: after.location,
            region: after.clocks.region(),
        },
        ticked: before.ticked(),
        by,
    }
}

/// What a plain wait comes to, once this place is reached.
pub(super) fn wait_in(by: Side, place: Place) -> Outcome<TimedPosition>
    ensures { (g : Game) → result ≡ in_code (result_of g by place.location None (standing place.clocks)) }
{
    let clocks = carry(place.clocks, NO_RESETS);
    outcome_at(by, place.clocks, Place { clocks, ..place })
}

impl TimedGame {
    /// Whether there is such a location, and the clocks keep its invariant.
    fn keeps(&self, place: Place) -> bool
        ensures { result ≡ keeps (game_of self.now) place.location (standing place.clocks) }
    {
        let Some(found) = item_at(self.locations.as_slice(), place.location as usize) else {
            return false;
        };
        is_met(found.invariant, place.clocks)
    }

    /// Whether this is the place of an own position: the tick clock has not reached a unit, and
    /// the invariant holds.
    fn is_own(&self, place: Place) -> bool
        ensures { result ≡ (last_whole (standing place.clocks) == 0 && keeps (game_of self.now) place.location (standing place.clocks)) }
    {
        !place.clocks.ticked() && self.keeps(place)
    }

    /// The place of an own position.
    pub(super) fn own_place(&self, p: TimedPosition) -> Option<Place>
        ensures test { is_some result ≡ owns (game_of self.now) (place_of (game_of self.now) p) }
        ensures stands { IfSome result (λ at. (at.location ≡ p.location) × (standing at.clocks ≡ (place_of (game_of self.now) p).region)) }
    {
        let place = Place {
            location: p.location,
            clocks: Clocks::new(self.ceilings, p.region)?,
        };
        if self.is_own(place) {
            Some(place)
        } else {
            None
        }
    }

    /// What an edge comes to where this side may take it.
    pub(super) fn take_edge(
        &self,
        by: Side,
        place: Place,
        edge: Edge,
    ) -> Option<Outcome<TimedPosition>>
        requires { habitable edge.guard ≡ true }
        ensures { result ≡ (if fits (game_of self.now) by place.location (standing place.clocks) edge then Some (in_code (result_of (game_of self.now) by place.location (Some edge) (standing place.clocks))) else None) }
    {
        let clocks = place.clocks;
        if edge.side != by || edge.from != place.location || !is_met(edge.guard, clocks) {
            return None;
        }
        let after = Place {
            location: edge.to,
            clocks: carry(clocks, edge.resets),
        };
        if !self.keeps(after) {
            return None;
        }
        Some(outcome_at(by, clocks, after))
    }

    /// What the edge of a number, or no edge, comes to where this side may take it.
    fn take(&self, by: Side, place: Place, edge: Option<u16>) -> Option<Outcome<TimedPosition>>
        ensures { result ≡ (if may_take (game_of self.now) by place.location (standing place.clocks) edge then Some (in_code (result_of (game_of self.now) by place.location (edge_at (game_of self.now) edge) (standing place.clocks))) else None) }
    {
        let Some(number) = edge else {
            return Some(wait_in(by, place));
        };
        let edge = item_at(self.edges.as_slice(), number as usize)?;
        self.take_edge(by, place, edge)
    }

    /// What a move of this side comes to from this place, if it is legal there.
    pub(super) fn carry_out_from(
        &self,
        by: Side,
        place: Place,
        m: Move,
    ) -> Option<Outcome<TimedPosition>>
        ensures { result ≡ reached (game_of self.now) by place.location (standing place.clocks) m }
    {
        if m.steps > MOST_STEPS {
            return None;
        }
        let clocks = place.clocks.wait(m.steps)?;
        let place = Place { clocks, ..place };
        if !self.keeps(place) {
            return None;
        }
        self.take(by, place, m.edge)
    }

    /// What a move of this side comes to, if it is legal.
    pub fn carry_out(&self, by: Side, p: TimedPosition, m: Move) -> Option<Outcome<TimedPosition>>
        ensures test { is_some result ≡ legal (game_of self.now) by (place_of (game_of self.now) p) m.steps m.edge }
        ensures result { result ≡ carried_out (game_of self.now) by p m }
    {
        let place = self.own_place(p)?;
        self.carry_out_from(by, place, m)
    }

    /// Whether this is a legal move of this side.
    pub fn is_legal(&self, by: Side, p: TimedPosition, m: Move) -> bool
        ensures { result ≡ legal (game_of self.now) by (place_of (game_of self.now) p) m.steps m.edge }
    {
        self.carry_out(by, p, m).is_some()
    }
}
