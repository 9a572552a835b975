//! The ranks of one odd colour, lifted from 0 until every arc is met.
ghost use Rattle.std.specs.Prelude.{◌≡◌, ◌<◌, ◌≤◌, length, MatchOption};
ghost use Rattle.std.proofs.Props.{props};
ghost use Rattle.std.specs.Iterator.{IsFinite};
ghost use Rattle.table.specs.Odd.{odd};
ghost use Rattle.loops.specs.Graph.{Graph};
ghost use Rattle.ranker.specs.Arcs.{arc_at, Tells};
ghost use Rattle.ranker.specs.Lifts.{rank_in, lifter_in, due_by, Met, Below, Owned, LiftedBy, OnRings, Covers, Moved, AllMet, AllSmallest};
ghost use Rattle.ranker.specs.Loops.{Written};

use crate::arcs::Arcs;
use loops::pair::Pair;
use plan::passage::Passage;
use table::odd::OddColour;
use table::row::MAX_ROWS;

/// The ranks of all rows for one odd colour, on their way up from 0.
#[derive(Drop)]
pub(crate) struct Lifting<'a> {
    arcs: Arcs<'a>,
    colour: OddColour,
    ranks: &'a mut [u16],
    /// For each row, the place of the arc that lifted it last, if any has.
    by: [Option<u32>; MAX_ROWS],
    ghost rows: { length ranks.now ≡ arcs.rows },
    ghost own: { Owned arcs.list.now ranks.now by } by { Prim.hlevel props },
    ghost lifted: { LiftedBy arcs.list.now (odd colour) ranks.now by },
}

impl<'a> Lifting<'a> {
    ghost use Rattle.ranker.specs.Task.{SameTask};

    /// Begins with all ranks 0.
    pub(crate) fn new(arcs: Arcs<'a>, colour: OddColour, ranks: &'a mut [u16]) -> Lifting<'a>
        requires { length ranks.old ≡ arcs.rows }
        ensures arcs { result.arcs ≡ arcs.entry }
        ensures colour { result.colour ≡ colour }
        ensures list { result.ranks.ghost_name ≡ ranks.entry.ghost_name }
        ensures below { Below result.ranks.now }
    {
        ranks.fill(0);
        Lifting {
            arcs,
            colour,
            ranks,
            by: [None; MAX_ROWS],
        }
    }

    /// What an arc asks of the rank of its row: the rank of the row that it leads to, and one more if it has the colour.
    fn due(&self, arc: Passage) -> u16
        requires { (arc.to < length self.now.ranks.now) × (rank_in self.now.ranks.now arc.to < MAX_ROWS) }
        ensures { result ≡ due_by (odd self.now.colour) self.now.ranks.now arc }
    {
        let rank = self.ranks[arc.to as usize];
        if arc.colour == self.colour.number() {
            rank + 1
        } else {
            rank
        }
    }

    /// Lifts the row of arc k to what the arc asks for, and tells the row if that was needed.
    fn lift(&mut self, k: usize) -> Option<u16>
        requires there { k < length self.old.arcs.list.now }
        requires below { Below self.old.ranks.now }
        ensures same { SameTask self.old self.new }
        ensures moved { Moved (λ ranks. Met (odd self.old.colour) ranks (arc_at self.old.arcs.list.now k)) self.old.ranks.now self.new.ranks.now result }
    {
        let arc = self.arcs.list[k];
        if arc.colour > self.colour.number() {
            return None;
        }
        let due = self.due(arc);
        let row = arc.from as usize;
        if due <= self.ranks[row] {
            return None;
        }
        self.ranks[row] = due;
        self.by[row] = Some(k as u32);
        Some(arc.from)
    }

    /// Lifts along the arcs at these places, which are all that there are, and tells which row was lifted last. It stops
    /// at once where a rank has come to the number of rows.
    fn sweep<I: Iterator<Item = usize> + Drop>(&mut self, places: I) -> Option<u16>
        requires can { I.can_next places }
        requires ends { IsFinite (I.remaining places) }
        requires covers { Covers I.next_gives places (length self.old.arcs.list.now) }
        requires below { Below self.old.ranks.now }
        ensures same { SameTask self.old self.new }
        ensures moved { Moved (AllMet self.old.arcs.list.now (odd self.old.colour)) self.old.ranks.now self.new.ranks.now result }
    {
        let mut last = None;
        for k in places {
            if let Some(row) = self.lift(k) {
                last = Some(row);
                if self.ranks[row as usize] as usize >= self.ranks.len() {
                    return last;
                }
            }
        }
        last
    }

    /// Sweeps over all arcs, from the first or from the last on.
    fn sweep_all(&mut self, forward: bool) -> Option<u16>
        requires { Below self.old.ranks.now }
        ensures same { SameTask self.old self.new }
        ensures moved { Moved (AllMet self.old.arcs.list.now (odd self.old.colour)) self.old.ranks.now self.new.ranks.now result }
    {
        let count = self.arcs.list.len();
        if forward {
            self.sweep(0..count)
        } else {
            self.sweep((0..count).rev())
        }
    }

    /// The arc that lifted a row last; none if its rank is 0.
    fn lifter(&self, row: u16) -> Option<Passage>
        requires { row < length self.now.ranks.now }
        ensures { result ≡ lifter_in self.now.arcs.list.now self.now.by row }
    {
        let k = self.by[row as usize]?;
        Some(self.arcs.list[k as usize])
    }

    /// Follows the arcs that lifted a row, and the next, for as many steps as there are rows: the row reached lies on a
    /// ring of such arcs. There is none where the way ends before, at a row of rank 0.
    fn ring_from(&self, row: u16) -> Option<u16>
        requires { row < length self.now.ranks.now }
        ensures { MatchOption result (rank_in self.now.ranks.now row < length self.now.ranks.now) (OnRings self.now.arcs.list.now self.now.ranks.now self.now.by) }
    {
        let mut at = row;
        for _step in 0..self.ranks.len() {
            let Some(arc) = self.lifter(at) else {
                return None;
            };
            at = arc.to;
        }
        Some(at)
    }

    /// Fills in the smallest ranks that keep the rule along every arc; or tells a row on a ring of arcs that lift one
    /// another without end.
    pub(crate) fn settle(&mut self) -> Option<u16>
        requires { Below self.old.ranks.now }
        ensures same { SameTask self.old self.new }
        ensures settled { MatchOption result (AllSmallest self.new.arcs.list.now (odd self.new.colour) self.new.ranks.now) (OnRings self.new.arcs.list.now self.new.ranks.now self.new.by) }
    {
        let mut forward = false;
        while let Some(row) = self.sweep_all(forward) {
            if let Some(ring) = self.ring_from(row) {
                return Some(ring);
            }
            forward = !forward;
        }
        None
    }

    /// Writes the ring of arcs that a row lies on to the front of the list, from that row on, and tells its length.
    pub(crate) fn write_ring(&self, row: u16, losing: &mut [Pair]) -> u16
        requires ring { OnRings self.now.arcs.list.now self.now.ranks.now self.now.by row }
        requires room { length self.now.ranks.now ≤ length losing.old }
        ensures { (g : Graph) → Tells (length self.now.ranks.now) self.now.arcs.list.now g → Written g (odd self.now.colour) losing.old result losing.new }
    {
        let mut at = row;
        for (k, pair) in losing.iter_mut().enumerate() {
            let Some(arc) = self.lifter(at) else { break };
            *pair = Pair {
                row: at,
                outcome: arc.outcome,
            };
            at = arc.to;
            if at == row {
                return k as u16 + 1;
            }
        }
        unreachable!()
    }
}
