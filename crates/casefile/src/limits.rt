//! How large a case may be, and the numbers in it.
use regions::region::HIGHEST_CEILING;
use soundness::tables::{HIGHEST_PRIORITY, MOST_EDGES, MOST_LOCATIONS};
use table::row::MAX_ROWS;

/// Bytes of a text.
pub const MAX_TEXT: usize = 65536;

pub(crate) const MAX_CLOCKS: usize = 3;

/// Four to a row.
pub(crate) const MAX_RANKS: usize = 4 * MAX_ROWS;

pub(crate) const MAX_CEILING: u16 = HIGHEST_CEILING as u16;

pub(crate) const MAX_BOUND: u16 = MAX_CEILING;

pub(crate) const MAX_PRIORITY: u16 = HIGHEST_PRIORITY as u16;

pub(crate) const MAX_LOCATION: u16 = MOST_LOCATIONS as u16 - 1;

pub(crate) const MAX_EDGE: u16 = MOST_EDGES as u16 - 1;

/// Past the highest ceiling.
pub(crate) const MAX_WHOLE: u16 = MAX_CEILING + 1;

pub(crate) const MAX_CLASS: u16 = 4;

pub(crate) const MAX_STEPS: u16 = 96;

pub(crate) const MAX_RANK: u16 = u16::MAX;
