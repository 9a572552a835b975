//! The memory that reading needs.
ghost use Rattle.std.specs.Prelude.{◌≡◌, vec_len};

use crate::capped::Capped;
use crate::draft::Draft;
use std::alloc::{AllocError, Global};

/// Memory for the largest case that a text may hold, with nothing in it.
#[derive(Drop)]
pub struct Room {
    pub(crate) draft: Draft,
    ghost no_clocks: { vec_len draft.ceilings.items ≡ 0 },
    ghost no_locations: { vec_len draft.locations.items ≡ 0 },
    ghost no_edges: { vec_len draft.edges.items ≡ 0 },
    ghost no_rows: { vec_len draft.rows.items ≡ 0 },
}

impl Room {
    /// Takes the memory. Nothing else in reading can want any.
    pub fn take(heap: Global) -> Result<Room, AllocError> {
        let draft = Draft {
            ceilings: Capped::take(heap)?,
            locations: Capped::take(heap)?,
            edges: Capped::take(heap)?,
            rows: Capped::take(heap)?,
            ranks: Capped::take(heap)?,
            columns: Capped::take(heap)?,
        };
        Ok(Room { draft })
    }
}
