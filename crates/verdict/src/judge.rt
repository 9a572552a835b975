//! The verdict on a text.
ghost use Rattle.std.specs.Prelude.{◌≡◌};
ghost use Rattle.verdict.specs.Judged.{judged};

use crate::verdict::Verdict;
use casefile::reader::read_into;
use casefile::room::Room;
use plan::check::check;

/// Reads the case that the text holds and checks its plan.
pub fn judge(room: Room, text: &[u8]) -> Verdict
    ensures { result ≡ judged text.now }
{
    match read_into(room, text) {
        Ok(case) => check(&case.game, case.rows.as_slice(), case.ranks.as_slice()).into(),
        Err(fault) => fault.into(),
    }
}
