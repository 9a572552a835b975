//! The ranker.
ghost use Rattle.std.specs.Prelude.{is_ok, IsTrue, ◌↔◌};
ghost use Rattle.ranker.specs.Ranked.{form_faults, Ranked, Sound, RankedOr};

use crate::arcs::Arcs;
use crate::error::RankError;
use crate::notes::Notes;
use crate::scratch::{KEYS, Scratch};
use arena::arena::Arena;
use loops::pair::Pair;
use plan::check::survey;
use std::alloc::Global;
use table::accepted::Accepted;
use table::fault::Fault;
use table::row::Row;

/// Fills in the smallest ranks with which the check accepts the table, and answers like the check; or refuses the table,
/// for its form or for a losing loop, which then stands at the front of the list of pairs.
pub fn rank_with<A: Arena>(
    scratch: Scratch,
    arena: &A,
    rows: &[Row<A::Position>],
    ranks: &mut [u16],
    losing: &mut [Pair],
) -> Result<Accepted, Fault>
    ensures ranked { Ranked (A.Arena.meaning arena.now) rows.now ranks.old losing.old (form_faults (A.Arena.meaning arena.now) rows.now ranks.old losing.old) result ranks.new losing.new }
    ensures exact { IsTrue (is_ok result) ↔ Sound (A.Arena.meaning arena.now) rows.now ranks.old losing.old }
{
    let mut notes = Notes {
        scratch,
        stamps: [None; KEYS],
        ranks: ranks.len(),
        pairs: losing.len(),
    };
    let accepted = survey(arena, rows, &mut notes)?;
    let arcs = Arcs {
        list: &notes.scratch.arcs,
        rows: rows.len(),
    };
    arcs.rank(ranks, losing)?;
    Ok(accepted)
}

/// Ranks a table with memory of its own.
pub fn rank<A: Arena>(
    heap: Global,
    arena: &A,
    rows: &[Row<A::Position>],
    ranks: &mut [u16],
    losing: &mut [Pair],
) -> Result<Accepted, RankError>
    ensures { RankedOr (A.Arena.meaning arena.now) rows.now ranks.old losing.old result ranks.new losing.new }
{
    let scratch = Scratch::take(heap)?;
    Ok(rank_with(scratch, arena, rows, ranks, losing)?)
}
