//! The law over runs.
ghost use Rattle.table.specs.Accepts.{Accepts};
ghost use Rattle.runs.specs.Wins.{Wins};

use arena::arena::Arena;
use table::row::Row;

/// A table that is accepted with some ranks wins every run.
pub fn accepted_wins<A: Arena>(arena: &A, rows: &[Row<A::Position>], ranks: &[u16])
    ensures { Accepts (A.Arena.meaning arena.now) rows.now ranks.now → Wins (A.Arena.meaning arena.now) rows.now }
{}
