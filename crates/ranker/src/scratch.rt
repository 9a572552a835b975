//! Memory to rank with.
ghost use Rattle.std.specs.Prelude.{◌≡◌, ◌*◌, ◌≤◌, [], IfOk, vec_capacity};
ghost use Rattle.table.specs.declared.row.TheConstants.{MAX_ROWS};
ghost use Rattle.ranker.specs.declared.scratch.TheConstants.{KEYS};

use plan::passage::Passage;
use std::alloc::{AllocError, Global};
use table::row::MAX_ROWS;

/// How many colours there are, from 0 to 7.
pub(crate) const COLOURS: usize = 8;

/// How many pairs of target and colour a row can have.
pub(crate) const KEYS: usize = MAX_ROWS * COLOURS;

/// Room for the arcs of any table.
#[derive(Drop)]
pub struct Scratch {
    pub(crate) arcs: Vec<Passage>,
    ghost room: { KEYS * MAX_ROWS ≤ vec_capacity arcs },
}

impl Scratch {
    /// Takes all memory that a ranking needs, whatever its table.
    pub fn take(heap: Global) -> Result<Scratch, AllocError>
        ensures { IfOk result (λ s. s.arcs.items ≡ []) }
    {
        let arcs = Vec::with_capacity(heap, KEYS * MAX_ROWS)?;
        Ok(Scratch { arcs })
    }
}
