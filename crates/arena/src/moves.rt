//! Moves and what they lead to.

/// Who carries a move out.
#[derive(Clone, Copy, PartialEq, Eq)]
pub enum Side {
    Us,
    Them,
}

/// A wait of so many steps, and then an edge or none.
#[derive(Clone, Copy)]
pub struct Move {
    pub steps: u8,
    pub edge: Option<u16>,
}

/// What a round comes to: the new position, whether time passed a whole unit, and whose move was
/// carried out.
#[derive(Clone, Copy, Drop)]
pub struct Outcome<P> {
    pub position: P,
    pub ticked: bool,
    pub by: Side,
}
