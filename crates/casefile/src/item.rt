//! What a line without faults says.
ghost use Rattle.std.specs.Prelude.{◌≡◌, ◌<◌, ◌≤◌};
ghost use Rattle.casetext.specs.Text.{fields};
ghost use Rattle.casetext.specs.Items.{bounds, zone, location, resets, edge, clock_at, clock_of, region, row, ranks};

use crate::form::read_side;
use crate::interval::read_interval;
use crate::limits::{
    MAX_CLASS, MAX_EDGE, MAX_LOCATION, MAX_PRIORITY, MAX_RANK, MAX_STEPS, MAX_WHOLE,
};
use crate::line::Line;
use crate::text::read_number;
use arena::moves::{Move, Side};
use casetext::ranks::Ranks;
use game::bounds::{Bounds, EVERYWHERE, Zone};
use game::parts::{Edge, Location, Resets, TimedPosition};
use regions::per_clock::PerClock;
use regions::region::{ClockRegion, Region};
use table::row::Row;

/// Where a clock stands that the game does not have: past its ceiling 0.
const ABSENT: ClockRegion = ClockRegion { whole: 1, class: 0 };

/// The clocks by their numbers.
pub(crate) const CLOCKS: PerClock<usize> = PerClock { x: 0, y: 1, z: 2 };

/// The interval that the field is, or `[0,-)`, which a clock has that is not there.
fn bounds_of(field: &[u8]) -> Bounds
    ensures { result ≡ bounds field.now }
{
    read_interval(field).unwrap_or(EVERYWHERE)
}

/// The clocks whose letters reset them.
fn resets_of(letters: &[u8]) -> Resets
    ensures { result ≡ resets letters.now }
{
    CLOCKS.map(|clock| letters.get(clock) == Some(&b'r'))
}

impl Line<'_> {
    /// One interval for each clock, from field i on.
    fn zone(&self, i: usize) -> Zone
        requires { i ≤ 5 }
        ensures { result ≡ zone i (fields self.now.bytes.now) }
    {
        CLOCKS.map(|clock| bounds_of(self.field(i + clock)))
    }

    /// The location of a `loc` line.
    pub(crate) fn location(&self) -> Location
        ensures { result ≡ location (fields self.now.bytes.now) }
    {
        Location {
            priority: self.small_value(1, MAX_PRIORITY),
            invariant: self.zone(2),
        }
    }

    /// The edge of an `edge` line.
    pub(crate) fn edge(&self) -> Edge
        ensures { result ≡ edge (fields self.now.bytes.now) }
    {
        Edge {
            side: read_side(self.field(1)).unwrap_or(Side::Them),
            from: self.small_value(2, MAX_LOCATION),
            to: self.small_value(3, MAX_LOCATION),
            resets: resets_of(self.field(4)),
            guard: self.zone(5),
        }
    }

    /// Where a clock stands, by two fields from i on.
    fn clock(&self, i: usize) -> ClockRegion
        requires { i ≤ 9 }
        ensures { result ≡ clock_at i (fields self.now.bytes.now) }
    {
        ClockRegion {
            whole: self.small_value(i, MAX_WHOLE),
            class: self.small_value(i + 1, MAX_CLASS),
        }
    }
}

/// A `row` line of a game with so many clocks.
#[derive(Clone, Copy)]
pub(crate) struct RowLine<'a> {
    pub(crate) line: Line<'a>,
    pub(crate) clocks: usize,
    ghost few: { clocks ≤ 3 },
}

impl RowLine<'_> {
    /// Where the i-th clock stands.
    fn clock(&self, i: usize) -> ClockRegion
        requires { i < 3 }
        ensures { result ≡ clock_of self.now.clocks i (fields self.now.line.bytes.now) }
    {
        if i < self.clocks {
            self.line.clock(3 + 2 * i)
        } else {
            ABSENT
        }
    }

    /// Where the clocks and the tick clock stand.
    fn region(&self) -> Region
        ensures { result ≡ region self.now.clocks (fields self.now.line.bytes.now) }
    {
        let tick = self.line.clock(3 + 2 * self.clocks);
        CLOCKS.map(|clock| self.clock(clock)).with_tick(tick)
    }

    /// The row.
    pub(crate) fn row(&self) -> Row<TimedPosition>
        ensures { result ≡ row self.now.clocks (fields self.now.line.bytes.now) }
    {
        Row {
            position: TimedPosition {
                location: self.line.small_value(1, MAX_LOCATION),
                region: self.region(),
            },
            latch: self.line.small_value(2, MAX_PRIORITY),
            choice: Move {
                steps: self.line.small_value(5 + 2 * self.clocks, MAX_STEPS),
                edge: read_number(self.line.field(6 + 2 * self.clocks), 0, MAX_EDGE),
            },
        }
    }

    /// Its ranks.
    pub(crate) fn ranks(&self) -> Ranks
        ensures { result ≡ ranks self.now.clocks (fields self.now.line.bytes.now) }
    {
        let i = 7 + 2 * self.clocks;
        Ranks {
            one: self.line.value(i, MAX_RANK),
            three: self.line.value(i + 1, MAX_RANK),
            five: self.line.value(i + 2, MAX_RANK),
            seven: self.line.value(i + 3, MAX_RANK),
        }
    }
}
