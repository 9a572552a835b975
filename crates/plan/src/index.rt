//! Rows found by their position and latch without a look at all of them.
ghost use Rattle.std.specs.Prelude.{◌≡◌, ◌<◌, ◌≤◌, length, Some, None, slice_index_or, slice_set};
ghost use Rattle.std.proofs.Props.{props};
ghost use Rattle.table.specs.Rows.{first_row};
ghost use Rattle.plan.specs.Index.{bucket_of, Indexes};

use arena::arena::Arena;
use table::row::{MAX_ROWS, Row};

const BUCKETS: usize = 1021;

/// How far apart the buckets of a position are for a latch and the next.
const STRIDE: usize = 163;

/// The bucket of a position and latch.
fn bucket_of<A: Arena>(arena: &A, position: &A::Position, latch: u8) -> usize
    ensures { result ≡ bucket_of (A.Arena.meaning arena.now) position.now latch }
{
    (arena.digest(position) as usize + STRIDE * latch as usize) % BUCKETS
}

/// Rows in buckets: the first row of each bucket, and for each row the next one of its bucket.
#[derive(Clone, Copy)]
struct Buckets {
    heads: [Option<u16>; BUCKETS],
    links: [Option<u16>; MAX_ROWS],
}

impl Buckets {
    /// Puts row s before the rows of a bucket.
    fn push(&mut self, bucket: usize, s: usize)
        requires { (bucket < 1021) × (s < 1024) }
        ensures heads { self.new.heads ≡ slice_set self.old.heads bucket (Some s) }
        ensures links { self.new.links ≡ slice_set self.old.links s (slice_index_or self.old.heads bucket None) }
    {
        self.links[s] = self.heads[bucket];
        self.heads[bucket] = Some(s as u16);
    }
}

/// Rows over their arena, with their buckets.
#[derive(Drop)]
pub(crate) struct IndexedRows<'a, 'r, A: Arena> {
    pub(crate) arena: &'a A,
    pub(crate) rows: &'r [Row<A::Position>],
    buckets: Buckets,
    ghost few: { length rows.now ≤ 1024 },
    ghost indexed: { Indexes (A.Arena.meaning arena.now) rows.now 0 buckets.heads buckets.links } by { Prim.hlevel props },
}

impl<'a, 'r, A: Arena> IndexedRows<'a, 'r, A> {
    /// These rows with their index.
    pub(crate) fn new(arena: &'a A, rows: &'r [Row<A::Position>]) -> IndexedRows<'a, 'r, A>
        requires { length rows.now ≤ 1024 }
        ensures arena { result.arena.now ≡ arena.now }
        ensures rows { result.rows.now ≡ rows.now }
    {
        let mut buckets = Buckets {
            heads: [None; BUCKETS],
            links: [None; MAX_ROWS],
        };
        for (s, row) in rows.iter().enumerate().rev() {
            buckets.push(bucket_of(arena, &row.position, row.latch), s);
        }
        IndexedRows {
            arena,
            rows,
            buckets,
        }
    }

    /// The number of the first row with this position and latch.
    pub(crate) fn row_of(&self, position: &A::Position, latch: u8) -> Option<u16>
        ensures { result ≡ first_row (A.Arena.meaning self.now.arena.now) self.now.rows.now position.now latch }
    {
        let mut next = self.buckets.heads[bucket_of(self.arena, position, latch)];
        while let Some(s) = next {
            if self.rows[s as usize].stands_at(self.arena, position, latch) {
                return Some(s);
            }
            next = self.buckets.links[s as usize];
        }
        None
    }
}
