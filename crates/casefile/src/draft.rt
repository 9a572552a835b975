//! A case in the making.
ghost use Rattle.std.specs.Prelude.{◌≡◌, vec_len};

use crate::capped::Capped;
use crate::limits::{MAX_CLOCKS, MAX_RANKS};
use casetext::ranks::Ranks;
use game::parts::{Edge, Location, TimedPosition};
use soundness::tables::{MOST_EDGES, MOST_LOCATIONS};
use table::row::{MAX_ROWS, Row};

/// What the lines so far have said, with room for all that lines may say: no line asks for memory.
#[derive(Drop)]
pub(crate) struct Draft {
    pub(crate) ceilings: Capped<u8, MAX_CLOCKS>,
    pub(crate) locations: Capped<Location, MOST_LOCATIONS>,
    pub(crate) edges: Capped<Edge, MOST_EDGES>,
    pub(crate) rows: Capped<Row<TimedPosition>, MAX_ROWS>,
    pub(crate) ranks: Capped<Ranks, MAX_ROWS>,
    /// Where all ranks go at last, colour by colour; empty until then.
    pub(crate) columns: Capped<u16, MAX_RANKS>,
    ghost level: { vec_len ranks.items ≡ vec_len rows.items },
    ghost unfilled: { vec_len columns.items ≡ 0 },
}
