//! Where a game stands.
use regions::standing::Clocks;

/// A location, and the clocks there.
#[derive(Clone, Copy)]
pub(super) struct Place {
    pub(super) location: u8,
    pub(super) clocks: Clocks,
}
