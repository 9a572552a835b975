//! Rows of a table.
ghost use Rattle.std.specs.Prelude.{◌≡◌};
ghost use Rattle.table.specs.Rows.{is_for};

use arena::arena::Arena;
use arena::moves::Move;

/// The most rows that a table may have.
pub const MAX_ROWS: usize = 1024;

/// The largest latch, as the largest priority.
pub const MAX_LATCH: u8 = 5;

/// What we do at a place: a position, the latch beside it, and our move there. The latch is the
/// largest priority since the last tick.
#[derive(Clone, Copy)]
pub struct Row<P> {
    pub position: P,
    pub latch: u8,
    pub choice: Move,
}

impl<P> Row<P> {
    /// Whether the row stands at this position and latch.
    pub fn stands_at<A: Arena<Position = P>>(&self, arena: &A, position: &P, latch: u8) -> bool
        ensures { result ≡ is_for (A.Arena.meaning arena.now) position.now latch self.now }
    {
        self.latch == latch && arena.same(&self.position, position)
    }
}
