//! The arena that a goal makes over an arena: positions below, each with the state of the goal
//! there.
ghost use Rattle.std.specs.Prelude.{◌≡◌, [], map, if◌then◌else◌};
ghost use Rattle.goal.specs.Automaton.{exists};
ghost use Rattle.goal.specs.Product.{reached, raised, goal_meaning};
ghost use Rattle.goal.specs.Runs.{RunsOver};
ghost use Rattle.goal.specs.Laws.{goal_lawful};

use crate::goal::Goal;
use arena::arena::Arena;
use arena::moves::{Move, Outcome};

/// A digest is this often the digest below, and the state: odd, so that wrapping loses nothing
/// of the digest below, and above the number of states.
const DIGEST_STEP: u32 = 17;

/// A position below with the goal's state there.
#[derive(Clone, Copy, Drop)]
pub struct GoalPosition<P> {
    pub below: P,
    pub state: u8,
}

/// A listing below, and the state that its outcomes move on.
#[derive(Drop)]
pub struct GoalListing<L> {
    below: L,
    state: u8,
}

/// A goal over an arena.
#[derive(Drop)]
pub struct GoalArena<A> {
    pub below: A,
    pub goal: Goal,
}

impl<A: Arena> GoalArena<A> {
    /// The goal over an arena. Its runs are those of the arena below, with the states that the
    /// automaton comes to as it reads their labels.
    pub fn new(below: A, goal: Goal) -> GoalArena<A>
        ensures made { result ≡ record { below = below; goal = goal } }
        ensures runs { RunsOver (A.Arena.meaning below) goal }
    {
        GoalArena { below, goal }
    }

    /// A new position below, whose label moves the goal on from a state.
    fn reach(&self, state: u8, below: A::Position) -> GoalPosition<A::Position>
        ensures { result ≡ reached (A.Arena.meaning self.now.below) self.now.goal state below }
    {
        let label = self.below.label(&below);
        GoalPosition {
            below,
            state: self.goal.after(state, label),
        }
    }

    /// An outcome below, with the state that it leads to.
    fn raise(&self, state: u8, outcome: Outcome<A::Position>) -> Outcome<GoalPosition<A::Position>>
        ensures { result ≡ raised (A.Arena.meaning self.now.below) self.now.goal state outcome }
    {
        let Outcome {
            position,
            ticked,
            by,
        } = outcome;
        Outcome {
            position: self.reach(state, position),
            ticked,
            by,
        }
    }
}

impl<A: Arena> Arena for GoalArena<A> {
    type Position = GoalPosition<A::Position>;

    type Listing = GoalListing<A::Listing>;

    ghost meaning = { λ a. goal_meaning (A.Arena.meaning a.below) a.goal };

    ghost rest = { λ a l. (if exists a.goal l.state then map (raised (A.Arena.meaning a.below) a.goal l.state) (A.Arena.rest a.below l.below) else []) };

    ghost lawful = { λ a. goal_lawful (A.Arena.meaning a.below) (A.Arena.lawful a.below) a.goal };

    fn start(&self) -> GoalPosition<A::Position> {
        self.reach(0, self.below.start())
    }

    fn same(&self, p: &GoalPosition<A::Position>, q: &GoalPosition<A::Position>) -> bool {
        p.state == q.state && self.below.same(&p.below, &q.below)
    }

    fn digest(&self, p: &GoalPosition<A::Position>) -> u32 {
        self.below
            .digest(&p.below)
            .wrapping_mul(DIGEST_STEP)
            .wrapping_add(u32::from(p.state))
    }

    fn owns(&self, p: &GoalPosition<A::Position>) -> bool {
        self.goal.has_state(p.state) && self.below.owns(&p.below)
    }

    fn priority(&self, p: &GoalPosition<A::Position>) -> u8 {
        if self.owns(p) {
            self.goal.priority(p.state)
        } else {
            0
        }
    }

    fn label(&self, p: &GoalPosition<A::Position>) -> u8 {
        if self.goal.has_state(p.state) {
            self.below.label(&p.below)
        } else {
            0
        }
    }

    fn legal(&self, p: &GoalPosition<A::Position>, m: Move) -> bool {
        self.goal.has_state(p.state) && self.below.legal(&p.below, m)
    }

    fn count(&self, p: &GoalPosition<A::Position>, m: Move) -> u16 {
        if self.goal.has_state(p.state) {
            self.below.count(&p.below, m)
        } else {
            0
        }
    }

    fn outcome(
        &self,
        p: &GoalPosition<A::Position>,
        m: Move,
        i: u16,
    ) -> Option<Outcome<GoalPosition<A::Position>>> {
        if !self.goal.has_state(p.state) {
            return None;
        }
        let below = self.below.outcome(&p.below, m, i)?;
        Some(self.raise(p.state, below))
    }

    fn list(&self, p: &GoalPosition<A::Position>, m: Move) -> GoalListing<A::Listing> {
        GoalListing {
            below: self.below.list(&p.below, m),
            state: p.state,
        }
    }

    fn next(
        &self,
        listing: &mut GoalListing<A::Listing>,
    ) -> Option<Outcome<GoalPosition<A::Position>>> {
        if !self.goal.has_state(listing.state) {
            return None;
        }
        let below = self.below.next(&mut listing.below)?;
        Some(self.raise(listing.state, below))
    }
}
