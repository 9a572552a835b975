//! The ranks of a row.
use table::odd::PerColour;

/// A row's rank for each odd colour.
pub type Ranks = PerColour<u16>;
