//! The rule of the ranks.
ghost use Rattle.std.specs.Prelude.{◌≡◌, ◌*◌, ◌<◌, ◌≤◌, length, ◌==◌};
ghost use Rattle.table.specs.Odd.{odd};
ghost use Rattle.table.specs.Ranks.{rank_of, keeps_for, keeps};

use crate::passage::Passage;
use crate::visitor::Visitor;
use std::cmp::Ordering;
use table::odd::OddColour;

/// How many ranks each row has: one for each odd colour.
pub const RANKS_PER_ROW: usize = OddColour::ALL.len();

/// The ranks of so many rows: those of colour 1 for all rows, then those of 3, 5 and 7.
#[derive(Clone, Copy)]
struct RankList<'a> {
    ranks: &'a [u16],
    rows: usize,
    ghost few: { rows ≤ 1024 },
    ghost four: { length ranks.now ≡ 4 * rows },
}

impl<'a> RankList<'a> {
    /// The rank of a row for an odd colour.
    fn rank(&self, colour: OddColour, row: u16) -> u16
        requires { row < self.now.rows }
        ensures { result ≡ rank_of self.now.ranks.now self.now.rows (odd colour) row }
    {
        let stretch = (colour.number() / 2) as usize;
        self.ranks[stretch * self.rows + row as usize]
    }

    /// Whether the ranks for an odd colour keep their rule at a passage.
    fn keeps_for(&self, colour: OddColour, passage: Passage) -> bool
        requires { (passage.from < self.now.rows) × (passage.to < self.now.rows) }
        ensures { result ≡ keeps_for self.now.ranks.now self.now.rows (odd colour) passage.colour passage.from passage.to }
    {
        let before = self.rank(colour, passage.from);
        let after = self.rank(colour, passage.to);
        match colour.number().cmp(&passage.colour) {
            Ordering::Less => true,
            Ordering::Equal => after < before,
            Ordering::Greater => after <= before,
        }
    }

    /// Whether all ranks keep their rule at a passage.
    fn keeps(&self, passage: Passage) -> bool
        requires { (passage.from < self.now.rows) × (passage.to < self.now.rows) }
        ensures { result ≡ keeps self.now.ranks.now self.now.rows passage.colour passage.from passage.to }
    {
        OddColour::ALL
            .iter()
            .all(|colour| self.keeps_for(*colour, passage))
    }
}

/// The ranks of a table, held to their rule.
#[derive(Drop)]
pub(crate) struct RankTest<'a> {
    pub(crate) ranks: &'a [u16],
}

impl<'a> Visitor for RankTest<'a> {
    ghost fits = { λ v n. (length v.ranks.now == 4 * n) };

    ghost rule = { λ v n. keeps v.ranks.now n };

    ghost seen = { λ v n _. (length v.ranks.now ≡ 4 * n) × (n ≤ 1024) };

    fn begin(&mut self, rows: usize) -> bool {
        self.ranks.len() == RANKS_PER_ROW * rows
    }

    fn visit(&mut self, rows: usize, passage: Passage) -> bool {
        let ranks = RankList {
            ranks: self.ranks,
            rows,
        };
        ranks.keeps(passage)
    }
}
