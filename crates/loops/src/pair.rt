//! Members of a loop.

/// A row, and the number of an outcome of its move.
#[derive(Clone, Copy, PartialEq, Eq, Debug)]
pub struct Pair {
    pub row: u16,
    pub outcome: u16,
}
