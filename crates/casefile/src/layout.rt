//! Which fields the lines of a kind have.
ghost use Rattle.std.specs.Prelude.{◌≡◌, ◌<◌, ◌≤◌, length, slice_index_or};
ghost use Rattle.casetext.specs.declared.line.Form.TheVariants.{Owner, Number};
ghost use Rattle.casetext.specs.Lines.{out_of_place, forms, edge_forms, row_forms};
ghost use Rattle.casefile.specs.Draft.{said};

use crate::draft::Draft;
use crate::limits::{
    MAX_CEILING, MAX_CLASS, MAX_CLOCKS, MAX_LOCATION, MAX_PRIORITY, MAX_RANK, MAX_STEPS, MAX_WHOLE,
};
use casetext::line::{Form, Kind};
use soundness::tables::{MOST_EDGES, MOST_LOCATIONS};
use table::row::MAX_ROWS;

/// A number up to a limit.
fn up_to(high: u16) -> Form
    ensures { result ≡ Number 0 high }
{
    Form::Number { low: 0, high }
}

impl Draft {
    /// A line of a later kind stands above, or there are too many of this kind.
    fn is_out_of_place(&self, kind: Kind) -> bool
        ensures { result ≡ out_of_place (said self.now) kind }
    {
        let rows = !self.rows.items.is_empty();
        let edges = !self.edges.items.is_empty();
        let locations = !self.locations.items.is_empty();
        match kind {
            Kind::Clock => locations || edges || rows || self.ceilings.items.len() >= MAX_CLOCKS,
            Kind::Loc => edges || rows || self.locations.items.len() >= MOST_LOCATIONS,
            Kind::Edge => rows || self.edges.items.len() >= MOST_EDGES,
            Kind::Row => self.rows.items.len() >= MAX_ROWS,
        }
    }

    /// How many fields a line of this kind has.
    pub(crate) fn fields_needed(&self, kind: Kind) -> usize
        ensures count { result ≡ length (forms (said self.now) kind) }
        ensures limited { result ≤ 17 }
    {
        let clocks = self.ceilings.items.len();
        match kind {
            Kind::Clock => 2,
            Kind::Loc => 2 + clocks,
            Kind::Edge => 5 + clocks,
            Kind::Row => 11 + 2 * clocks,
        }
    }

    /// What the i-th field of an edge must be.
    fn edge_form(&self, i: usize) -> Form
        requires { i < length (edge_forms (length (said self.now).locations) (said self.now).ceilings) }
        ensures { result ≡ slice_index_or (edge_forms (length (said self.now).locations) (said self.now).ceilings) i Owner }
    {
        match i {
            0 => Form::Owner,
            1 | 2 => Form::End {
                locations: self.locations.items.len(),
            },
            3 => Form::Letters {
                clocks: self.ceilings.items.len(),
            },
            _ => Form::Interval {
                ceiling: self.ceilings.items[i - 4],
            },
        }
    }

    /// What the i-th field of a row must be.
    fn row_form(&self, i: usize) -> Form
        requires { i < length (row_forms (said self.now).ceilings) }
        ensures { result ≡ slice_index_or (row_forms (said self.now).ceilings) i Owner }
    {
        let steps = 4 + 2 * self.ceilings.items.len();
        match i {
            0 => up_to(MAX_LOCATION),
            1 => up_to(MAX_PRIORITY),
            _ if i < steps && i % 2 == 0 => up_to(MAX_WHOLE),
            _ if i < steps => up_to(MAX_CLASS),
            _ if i == steps => up_to(MAX_STEPS),
            _ if i == steps + 1 => Form::Choice,
            _ => up_to(MAX_RANK),
        }
    }

    /// What the i-th field, from 0, of a line of this kind must be.
    pub(crate) fn form_at(&self, kind: Kind, i: usize) -> Form
        requires { i < length (forms (said self.now) kind) }
        ensures { result ≡ slice_index_or (forms (said self.now) kind) i Owner }
    {
        match (kind, i) {
            (_, 0) => Form::Head {
                misplaced: self.is_out_of_place(kind),
            },
            (Kind::Clock, _) => Form::Number {
                low: 1,
                high: MAX_CEILING,
            },
            (Kind::Loc, 1) => up_to(MAX_PRIORITY),
            (Kind::Loc, _) => Form::Interval {
                ceiling: self.ceilings.items[i - 2],
            },
            (Kind::Edge, _) => self.edge_form(i - 1),
            (Kind::Row, _) => self.row_form(i - 1),
        }
    }
}
