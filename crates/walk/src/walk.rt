//! A walk and its calls.
ghost use Rattle.std.specs.Prelude.{◌≡◌, ◌<◌, ◌≤◌, true, is_ok, Some};
ghost use Rattle.std.specs.Option.{option_map};
ghost use Rattle.table.specs.declared.odd.OddColour.{OddColour};
ghost use Rattle.table.specs.Odd.{odd, at};
ghost use Rattle.walk.specs.declared.walk.TheConstants.{MAX_ROUNDS};
ghost use Rattle.runs.specs.Walk.{new_walk, tallied, row_here, moved, chosen_by, taken, answered, moved_by, reading};

use arena::arena::Arena;
use arena::moves::Outcome;
use runs::state::{State, Tally};
use std::cmp::Ordering;
use table::fault::Fault;
use table::odd::{OddColour, PerColour};
use table::rounds::{colour_of, latch_after};
use table::row::{MAX_ROWS, Row};

/// The most rounds that a walk does.
pub const MAX_ROUNDS: u32 = 1_000_000;

/// A walk by a table, from the start of its arena.
#[derive(Drop)]
pub struct Walk<P> {
    state: State<P>,
    ghost rounds: { state.tally.rounds ≤ MAX_ROUNDS },
    ghost counts: { (c : OddColour) → at c state.tally.counts ≤ state.tally.rounds },
}

/// The tally of an odd colour after a round of this colour.
fn tallied_after(p: OddColour, colour: u16, count: u32) -> u32
    requires { count < MAX_ROUNDS }
    ensures { result ≡ tallied (odd p) colour count }
{
    match p.number().cmp(&colour) {
        Ordering::Less => 0,
        Ordering::Equal => count + 1,
        Ordering::Greater => count,
    }
}

/// The outcome at this number of a row's move, which must be legal.
fn take_outcome<A: Arena>(
    arena: &A,
    row: &Row<A::Position>,
    number: u16,
) -> Result<Outcome<A::Position>, Fault>
    ensures { result ≡ chosen_by (A.Arena.meaning arena.now) number (Some row.now) }
{
    if !arena.legal(&row.position, row.choice) {
        return Err(Fault::IllegalHere);
    }
    arena
        .outcome(&row.position, row.choice, number)
        .ok_or(Fault::NoOutcome)
}

impl<P: Drop> Walk<P> {
    /// A walk that stands at the start, with nothing counted.
    pub fn new<A: Arena<Position = P>>(arena: &A) -> Walk<P>
        ensures { result.state ≡ new_walk (A.Arena.meaning arena.now) }
    {
        let position = arena.start();
        let latch = arena.priority(&position);
        let tally = Tally {
            rounds: 0,
            counts: PerColour::from_fn(|_| 0),
        };
        Walk {
            state: State {
                position,
                latch,
                tally,
            },
        }
    }

    /// The first row with the walk's position and latch.
    fn row_here<'a, A: Arena<Position = P>>(
        &self,
        arena: &A,
        rows: &'a [Row<P>],
    ) -> Option<&'a Row<P>>
        ensures { option_map (λ r. r.now) result ≡ row_here (A.Arena.meaning arena.now) rows.now self.now.state }
    {
        let here = &self.state;
        rows.iter()
            .find(|row| row.stands_at(arena, &here.position, here.latch))
    }

    /// The outcome that a step with this number takes, or why it takes none.
    fn choose<A: Arena<Position = P>>(
        &self,
        arena: &A,
        rows: &[Row<P>],
        number: u16,
    ) -> Result<Outcome<P>, Fault>
        ensures chooses { result ≡ taken (A.Arena.meaning arena.now) rows.now number self.now.state }
        ensures more { is_ok result ≡ true → self.now.state.tally.rounds < MAX_ROUNDS }
    {
        if rows.len() > MAX_ROWS {
            return Err(Fault::TooManyRows);
        }
        if self.state.tally.rounds >= MAX_ROUNDS {
            return Err(Fault::TooManyRounds);
        }
        let row = self.row_here(arena, rows).ok_or(Fault::NoRowHere)?;
        take_outcome(arena, row, number)
    }

    /// Does a round with this outcome.
    fn advance<A: Arena<Position = P>>(&mut self, arena: &A, outcome: Outcome<P>)
        requires { self.old.state.tally.rounds < MAX_ROUNDS }
        ensures { self.new.state ≡ moved (A.Arena.meaning arena.now) self.old.state outcome }
    {
        let colour = colour_of(self.state.latch, &outcome);
        let latch = latch_after(arena, self.state.latch, &outcome);
        let old = self.state.tally;
        let tally = Tally {
            rounds: old.rounds + 1,
            counts: PerColour::from_fn(|p| tallied_after(p, colour, *old.counts.get(p))),
        };
        self.state = State {
            position: outcome.position,
            latch,
            tally,
        };
    }

    /// Takes the outcome at this number of the move of the walk's row, which is the first row with
    /// its position and latch. A refused step changes nothing.
    pub fn step<A: Arena<Position = P>>(
        &mut self,
        arena: &A,
        rows: &[Row<P>],
        number: u16,
    ) -> Result<(), Fault>
        ensures answers { result ≡ answered (taken (A.Arena.meaning arena.now) rows.now number self.old.state) }
        ensures moves { self.new.state ≡ moved_by (A.Arena.meaning arena.now) self.old.state (taken (A.Arena.meaning arena.now) rows.now number self.old.state) }
    {
        let outcome = self.choose(arena, rows, number)?;
        self.advance(arena, outcome);
        Ok(())
    }

    /// What the walk has counted so far.
    pub fn tally(&self) -> Tally
        ensures { result ≡ reading self.now.state }
    {
        self.state.tally
    }

    /// Ends the walk: what it has counted.
    pub fn close(self) -> Tally
        ensures { result ≡ reading self.state }
    {
        self.tally()
    }
}
