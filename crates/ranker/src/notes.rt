//! The arcs of a table, noted as its passages are shown.
ghost use Rattle.std.specs.Prelude.{◌*◌, true, ◌&&◌, ◌==◌, nat_le};
ghost use Rattle.ranker.specs.Notes.{Noted};

use crate::scratch::{COLOURS, KEYS, Scratch};
use plan::passage::Passage;
use plan::ranks::RANKS_PER_ROW;
use plan::visitor::Visitor;

/// Arcs in the making, beside the lengths of the lists to fill.
#[derive(Drop)]
pub(crate) struct Notes {
    pub(crate) scratch: Scratch,
    /// For each target and colour, the row last noted to lead there so.
    pub(crate) stamps: [Option<u16>; KEYS],
    pub(crate) ranks: usize,
    pub(crate) pairs: usize,
}

impl Visitor for Notes {
    ghost fits = { λ v n. (v.ranks == 4 * n) && nat_le n v.pairs };

    ghost rule = { λ _ _ _ _ _. true };

    ghost seen = { λ v n before. Noted n before v.scratch.arcs.items v.stamps };

    fn begin(&mut self, rows: usize) -> bool {
        self.scratch.arcs.clear();
        self.stamps.fill(None);
        self.ranks == RANKS_PER_ROW * rows && rows <= self.pairs
    }

    fn visit(&mut self, _rows: usize, passage: Passage) -> bool {
        let key = passage.to as usize * COLOURS + passage.colour as usize;
        let stamp = Some(passage.from);
        if self.stamps[key] != stamp {
            self.stamps[key] = stamp;
            self.scratch.arcs.push_reserved(passage);
        }
        true
    }
}
