//! The outcomes of a move, one by one.
ghost use Rattle.std.specs.Prelude.{◌≡◌, ◌∷◌, [], map, MatchOption, Some};
ghost use Rattle.std.specs.Iterator.{YieldsFirst};
ghost use Rattle.regions.specs.Standing.{standing};
ghost use Rattle.game.specs.Game.{Game};
ghost use Rattle.game.specs.Listing.{edges_from, theirs_over, theirs_after};
ghost use Rattle.game.specs.Timed.{in_code, timed_meaning};
ghost use Rattle.timed.specs.Code.{game_of};
ghost use Rattle.timed.specs.Rest.{rest, rest_of};

use super::TimedGame;
use super::answers::wait_in;
use super::place::Place;
use arena::moves::{Move, Outcome, Side};
use game::parts::TimedPosition;
use soundness::items::item_at;

/// What comes next in a listing.
#[derive(Clone, Copy)]
enum Stage {
    /// Our outcome, and then theirs from this place on.
    Ours(Outcome<TimedPosition>, Place),
    /// Their plain wait at this place.
    Wait(Place),
    /// Their edges at this place, from a number on.
    Edges(Place, usize),
}

/// How far a listing of a move's outcomes has come: how many regions come after the present one,
/// and what is next, if anything.
#[derive(Clone, Copy)]
pub struct TimedListing {
    later: u8,
    stage: Option<Stage>,
}

impl TimedGame {
    /// Our outcome, with theirs to come, if the move is legal.
    fn first_stage(&self, p: TimedPosition, m: Move) -> Option<Stage>
        ensures { rest (game_of self.now) m.steps result ≡ (timed_meaning (game_of self.now)).outcomes p m }
    {
        let place = self.own_place(p)?;
        let ours = self.carry_out_from(Side::Us, place, m)?;
        Some(Stage::Ours(ours, place))
    }

    /// Begins a listing.
    pub(super) fn list_outcomes(&self, p: TimedPosition, m: Move) -> TimedListing
        ensures { rest_of (game_of self.now) result ≡ (timed_meaning (game_of self.now)).outcomes p m }
    {
        TimedListing {
            later: m.steps,
            stage: self.first_stage(p, m),
        }
    }

    /// Their next edge that they may take, from a number on, which moves on.
    fn next_edge(&self, place: Place, from: &mut usize) -> Option<Outcome<TimedPosition>>
        ensures { YieldsFirst (λ i. map in_code (edges_from (game_of self.now) place.location (standing place.clocks) i)) from.old result from.new }
    {
        while let Some(edge) = item_at(self.edges.as_slice(), *from) {
            *from += 1;
            if let Some(outcome) = self.take_edge(Side::Them, place, edge) {
                return Some(outcome);
            }
        }
        None
    }

    /// The next outcome of a listing.
    pub(super) fn next_outcome(&self, listing: &mut TimedListing) -> Option<Outcome<TimedPosition>>
        ensures { YieldsFirst (rest_of (game_of self.now)) listing.old result listing.new }
    {
        match listing.stage? {
            Stage::Ours(ours, place) => {
                listing.stage = Some(Stage::Wait(place));
                Some(ours)
            }
            Stage::Wait(place) => Some(listing.enter(place)),
            Stage::Edges(place, mut from) => {
                let Some(outcome) = self.next_edge(place, &mut from) else {
                    return listing.go_on(place);
                };
                listing.stage = Some(Stage::Edges(place, from));
                Some(outcome)
            }
        }
    }
}

impl TimedListing {
    /// Gives their plain wait at this place; their edges come next.
    fn enter(&mut self, place: Place) -> Outcome<TimedPosition>
        ensures { (g : Game) → map in_code (theirs_over g place.location self.old.later (Some (standing place.clocks))) ≡ result ∷ rest_of g self.new }
    {
        self.stage = Some(Stage::Edges(place, 0));
        wait_in(Side::Them, place)
    }

    /// Goes on to the region after this place's, if the listing goes so far.
    fn go_on(&mut self, place: Place) -> Option<Outcome<TimedPosition>>
        ensures { (g : Game) → let left = map in_code (theirs_after g place.location self.old.later (standing place.clocks)) in MatchOption result ((left ≡ []) × (rest_of g self.new ≡ [])) (λ o. left ≡ o ∷ rest_of g self.new) }
    {
        self.stage = None;
        if self.later == 0 {
            return None;
        }
        let clocks = place.clocks.next()?;
        self.later -= 1;
        Some(self.enter(Place { clocks, ..place }))
    }
}
