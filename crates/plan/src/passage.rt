//! Passages from row to row.

/// An outcome as the ranks see it: the row and the number of the outcome, its colour, and the row that it leads to.
#[derive(Clone, Copy)]
pub struct Passage {
    pub from: u16,
    pub outcome: u16,
    pub colour: u16,
    pub to: u16,
}
