//! What an accepted table is answered with.

/// The number of rows of an accepted table, and of all outcomes of their moves.
#[derive(Clone, Copy, PartialEq, Eq, Debug)]
pub struct Accepted {
    pub rows: u32,
    pub outcomes: u32,
}
