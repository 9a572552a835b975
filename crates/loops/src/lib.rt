//! Losing loops of a table, and the ranks that rule them out: definitions and the laws that hold of them.
#![tactic(auto)]

pub mod pair;

ghost use Rattle.loops.specs.Table.{graph_of, Decided, Excluded};

use arena::arena::Arena;
use table::row::Row;

/// The laws of losing loops, over every arena.
pub fn loops_decide<A: Arena>(arena: &A, rows: &[Row<A::Position>])
    ensures excluded { Excluded (graph_of (A.Arena.meaning arena.now) rows.now) }
    ensures decided { Decided (A.Arena.meaning arena.now) rows.now }
{}
