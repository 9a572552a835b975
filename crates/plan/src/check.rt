//! The check of a table with its ranks.
ghost use Rattle.std.specs.Prelude.{◌≡◌, ◌<◌, ◌≤◌, true, [], length, is_ok, IsTrue, ◌↔◌};
ghost use Rattle.table.specs.Rows.{outcomes_of};
ghost use Rattle.table.specs.Check.{numbered, verdict, is_own, place_faults, start_faults, outcome_faults, move_faults, outcomes_in, judged, checked};
ghost use Rattle.table.specs.Accepts.{Accepts};
ghost use Rattle.plan.specs.Passages.{passage_at, passages_at, passages_in, Ready, Shown};

use crate::index::IndexedRows;
use crate::passage::Passage;
use crate::ranks::RankTest;
use crate::visitor::Visitor;
use arena::arena::Arena;
use arena::moves::Outcome;
use table::accepted::Accepted;
use table::fault::Fault;
use table::rounds::{colour_of, latch_after};
use table::row::{MAX_LATCH, MAX_ROWS, Row};

/// Whether a row stands at an own position, with a latch from the priority there to the largest.
fn is_own<A: Arena>(arena: &A, row: &Row<A::Position>) -> bool
    ensures { result ≡ is_own (A.Arena.meaning arena.now) row.now }
{
    arena.owns(&row.position) && (arena.priority(&row.position)..=MAX_LATCH).contains(&row.latch)
}

/// An outcome of a row's move: the number and the latch of the row, and the outcome with its own number.
#[derive(Drop)]
struct Branch<'o, P> {
    row: u16,
    latch: u8,
    number: u16,
    outcome: &'o Outcome<P>,
}

impl<'a, 'r, A: Arena> IndexedRows<'a, 'r, A> {
    /// Tests where row s stands.
    fn check_place(&self, s: u16, row: &Row<A::Position>) -> Result<(), Fault>
        ensures { result ≡ verdict tt (place_faults (A.Arena.meaning self.now.arena.now) self.now.rows.now s row.now) }
    {
        if !is_own(self.arena, row) {
            return Err(Fault::NotOwn { row: s });
        }
        match self.row_of(&row.position, row.latch) {
            Some(t) if t < s => Err(Fault::Repeated { row: s }),
            _ => Ok(()),
        }
    }

    /// Tests where each row stands.
    fn check_places(&self) -> Result<(), Fault>
        ensures { result ≡ verdict tt (numbered (place_faults (A.Arena.meaning self.now.arena.now) self.now.rows.now) 0 self.now.rows.now) }
    {
        for (s, row) in self.rows.iter().enumerate() {
            self.check_place(s as u16, row)?;
        }
        Ok(())
    }

    /// Tests that the start has a row.
    fn check_start(&self) -> Result<(), Fault>
        ensures { result ≡ verdict tt (start_faults (A.Arena.meaning self.now.arena.now) self.now.rows.now) }
    {
        let start = self.arena.start();
        self.row_of(&start, self.arena.priority(&start))
            .ok_or(Fault::NoStartRow)?;
        Ok(())
    }

    /// Tests one outcome of a row's move, and shows where it leads.
    fn check_outcome<V: Visitor>(
        &self,
        visitor: &mut V,
        branch: Branch<'_, A::Position>,
    ) -> Result<(), Fault>
        requires there { (branch.row < length self.now.rows.now) × (branch.latch ≤ 5) }
        requires ready { Ready V.Visitor.seen (length self.now.rows.now) branch.row visitor.old }
        ensures answers { result ≡ verdict tt (outcome_faults (A.Arena.meaning self.now.arena.now) self.now.rows.now (V.Visitor.rule visitor.old (length self.now.rows.now)) branch.entry.row branch.entry.latch branch.entry.number branch.entry.outcome.now) }
        ensures same { V.Visitor.rule visitor.new ≡ V.Visitor.rule visitor.old }
        ensures shown { Shown V.Visitor.seen (length self.now.rows.now) branch.entry.row (passage_at (A.Arena.meaning self.now.arena.now) self.now.rows.now branch.entry.row branch.entry.latch branch.entry.number branch.entry.outcome.now) result visitor.old visitor.new }
    {
        let Branch {
            row,
            latch,
            number,
            outcome,
        } = branch;
        let next = latch_after(self.arena, latch, outcome);
        let lacking = Fault::NoRow {
            row,
            outcome: number,
        };
        let to = self.row_of(&outcome.position, next).ok_or(lacking)?;
        let passage = Passage {
            from: row,
            outcome: number,
            colour: colour_of(latch, outcome),
            to,
        };
        if visitor.visit(self.rows.len(), passage) {
            Ok(())
        } else {
            Err(Fault::RankRule {
                row,
                outcome: number,
            })
        }
    }

    /// Tests the move of row s, shows where its outcomes lead and tells how many there are.
    fn check_move<V: Visitor>(
        &self,
        visitor: &mut V,
        s: u16,
        row: &Row<A::Position>,
    ) -> Result<u16, Fault>
        requires there { (s < length self.now.rows.now) × (row.now.latch ≤ 5) }
        requires ready { Ready V.Visitor.seen (length self.now.rows.now) s visitor.old }
        ensures answers { result ≡ verdict (length (outcomes_of (A.Arena.meaning self.now.arena.now) row.now)) (move_faults (A.Arena.meaning self.now.arena.now) self.now.rows.now (V.Visitor.rule visitor.old (length self.now.rows.now)) s row.now) }
        ensures same { V.Visitor.rule visitor.new ≡ V.Visitor.rule visitor.old }
        ensures shown { Shown V.Visitor.seen (length self.now.rows.now) s (passages_at (A.Arena.meaning self.now.arena.now) self.now.rows.now s row.now) result visitor.old visitor.new }
    {
        if !self.arena.legal(&row.position, row.choice) {
            return Err(Fault::IllegalMove { row: s });
        }
        let mut number = 0;
        for outcome in self.arena.outcomes(&row.position, row.choice) {
            let branch = Branch {
                row: s,
                latch: row.latch,
                number,
                outcome: &outcome,
            };
            self.check_outcome(visitor, branch)?;
            number += 1;
        }
        Ok(number)
    }

    /// Tests the move of each row, shows where all outcomes lead and tells how many there are.
    fn check_moves<V: Visitor>(&self, visitor: &mut V) -> Result<u32, Fault>
        requires places { numbered (place_faults (A.Arena.meaning self.now.arena.now) self.now.rows.now) 0 self.now.rows.now ≡ [] }
        requires fresh { V.Visitor.seen visitor.old (length self.now.rows.now) [] }
        ensures answers { result ≡ verdict (outcomes_in (A.Arena.meaning self.now.arena.now) self.now.rows.now) (numbered (move_faults (A.Arena.meaning self.now.arena.now) self.now.rows.now (V.Visitor.rule visitor.old (length self.now.rows.now))) 0 self.now.rows.now) }
        ensures shown { is_ok result ≡ true → V.Visitor.seen visitor.new (length self.now.rows.now) (passages_in (A.Arena.meaning self.now.arena.now) self.now.rows.now) }
    {
        let mut outcomes = 0;
        for (s, row) in self.rows.iter().enumerate() {
            outcomes += self.check_move(visitor, s as u16, row)? as u32;
        }
        Ok(outcomes)
    }
}

/// Tests a table under the visitor's rule and shows it all passages: answers the numbers of rows and of all outcomes, or
/// the first fault in the order of the tests.
pub fn survey<A: Arena, V: Visitor>(
    arena: &A,
    rows: &[Row<A::Position>],
    visitor: &mut V,
) -> Result<Accepted, Fault>
    ensures answers { result ≡ judged (A.Arena.meaning arena.now) rows.now (V.Visitor.rule visitor.old (length rows.now)) (V.Visitor.fits visitor.old (length rows.now)) }
    ensures shown { is_ok result ≡ true → V.Visitor.seen visitor.new (length rows.now) (passages_in (A.Arena.meaning arena.now) rows.now) }
{
    if rows.len() > MAX_ROWS {
        return Err(Fault::TooManyRows);
    }
    if !visitor.begin(rows.len()) {
        return Err(Fault::WrongLengths);
    }
    let table = IndexedRows::new(arena, rows);
    table.check_places()?;
    table.check_start()?;
    let outcomes = table.check_moves(visitor)?;
    Ok(Accepted {
        rows: rows.len() as u32,
        outcomes,
    })
}

/// Whether the table with these ranks is accepted: the numbers of its rows and of all outcomes, or its first fault in
/// the order of the tests.
pub fn check<A: Arena>(
    arena: &A,
    rows: &[Row<A::Position>],
    ranks: &[u16],
) -> Result<Accepted, Fault>
    ensures answers { result ≡ checked (A.Arena.meaning arena.now) rows.now ranks.now }
    ensures accepts { IsTrue (is_ok result) ↔ Accepts (A.Arena.meaning arena.now) rows.now ranks.now }
{
    survey(arena, rows, &mut RankTest { ranks })
}
