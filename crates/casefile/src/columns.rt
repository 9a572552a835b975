//! The ranks of all rows in one list.
ghost use Rattle.std.specs.Prelude.{◌≡◌, ◌+◌, ◌*◌, ◌≤◌, ◌++◌, length, vec_len};
ghost use Rattle.casetext.specs.Case.{column, rank_list};

use crate::capped::Capped;
use casetext::ranks::Ranks;
use table::odd::OddColour;

/// Adds the ranks of one colour for all rows.
fn push_column<const N: usize>(columns: &mut Capped<u16, N>, ranks: &[Ranks], colour: OddColour)
    requires { vec_len columns.old.items + length ranks.now ≤ N }
    ensures items { columns.new.items.items ≡ columns.old.items.items ++ column colour ranks.now }
    ensures len { vec_len columns.new.items ≡ vec_len columns.old.items + length ranks.now }
{
    for row in ranks {
        columns.push(*row.get(colour));
    }
}

/// Fills an empty list: the ranks of colour 1 for all rows, then of colours 3, 5 and 7.
pub(crate) fn fill_columns<const N: usize>(columns: &mut Capped<u16, N>, ranks: &[Ranks])
    requires { (vec_len columns.old.items ≡ 0) × (4 * length ranks.now ≤ N) }
    ensures { columns.new.items.items ≡ rank_list ranks.now }
{
    for colour in OddColour::ALL {
        push_column(columns, ranks, colour);
    }
}
