//! The arcs of a table, and the ranks that they come to.
ghost use Rattle.std.specs.Prelude.{◌≡◌, ◌*◌, ◌^◌, ◌≤◌, true, false, length, is_ok};
ghost use Rattle.table.specs.declared.row.TheConstants.{MAX_ROWS};
ghost use Rattle.loops.specs.Graph.{Graph};
ghost use Rattle.ranker.specs.Arcs.{Tells, Told};
ghost use Rattle.ranker.specs.Loops.{DraftedFor, Drafted};

use crate::lifting::Lifting;
use loops::pair::Pair;
use plan::passage::Passage;
use plan::ranks::RANKS_PER_ROW;
use table::fault::Fault;
use table::odd::OddColour;
use table::row::MAX_ROWS;

const MAX_RANKS: usize = RANKS_PER_ROW * MAX_ROWS;

/// The arcs between so many rows: for each row, colour and target one outcome, if there is any.
#[derive(Clone, Copy)]
pub(crate) struct Arcs<'a> {
    pub(crate) list: &'a [Passage],
    pub(crate) rows: usize,
    ghost few: { length list.now ≤ 2 ^ 24 },
    ghost small: { rows ≤ MAX_ROWS },
    ghost told: { ∥ Told rows list.now ∥₁ },
}

impl Arcs<'_> {
    /// Drafts the smallest ranks for an odd colour; or writes a losing loop whose largest colour it is.
    fn draft_colour(
        &self,
        colour: OddColour,
        ranks: &mut [u16],
        losing: &mut [Pair],
    ) -> Result<(), Fault>
        requires rows { length ranks.old ≡ self.now.rows }
        requires room { self.now.rows ≤ length losing.old }
        ensures drafted { (g : Graph) → Tells self.now.rows self.now.list.now g → DraftedFor g colour losing.old result ranks.new losing.new }
        ensures pairs { is_ok result ≡ true → losing.new ≡ losing.old }
    {
        let mut lifting = Lifting::new(*self, colour, ranks);
        match lifting.settle() {
            Some(row) => Err(Fault::LosingLoop {
                length: lifting.write_ring(row, losing),
                colour: colour.number() as u8,
            }),
            None => Ok(()),
        }
    }

    /// Drafts the smallest ranks for each odd colour, in its stretch of the draft; or writes a losing loop of the
    /// smallest odd colour that is the largest of one.
    fn draft(&self, draft: &mut [u16], losing: &mut [Pair]) -> Result<(), Fault>
        requires rows { length draft.old ≡ 4 * self.now.rows }
        requires room { self.now.rows ≤ length losing.old }
        ensures drafted { (g : Graph) → Tells self.now.rows self.now.list.now g → Drafted g self.now.rows losing.old result draft.new losing.new }
        ensures pairs { is_ok result ≡ true → losing.new ≡ losing.old }
    {
        let n = self.rows;
        for (q, &colour) in OddColour::ALL.iter().enumerate() {
            self.draft_colour(colour, &mut draft[q * n..(q + 1) * n], losing)?;
        }
        Ok(())
    }

    /// Fills in the smallest ranks that keep the rule along the arcs; or writes a losing loop and leaves the ranks as
    /// they are.
    pub(crate) fn rank(&self, ranks: &mut [u16], losing: &mut [Pair]) -> Result<(), Fault>
        requires rows { length ranks.old ≡ 4 * self.now.rows }
        requires room { self.now.rows ≤ length losing.old }
        ensures drafted { (g : Graph) → Tells self.now.rows self.now.list.now g → Drafted g self.now.rows losing.old result ranks.new losing.new }
        ensures pairs { is_ok result ≡ true → losing.new ≡ losing.old }
        ensures ranks { is_ok result ≡ false → ranks.new ≡ ranks.old }
    {
        let mut room = [0; MAX_RANKS];
        let draft = &mut room[..RANKS_PER_ROW * self.rows];
        self.draft(draft, losing)?;
        ranks.copy_from_slice(draft);
        Ok(())
    }
}
