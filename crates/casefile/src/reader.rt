//! Reads the text of a case.
ghost use Rattle.std.specs.Prelude.{◌≡◌, IfOk, if◌then◌else◌, Ok, Err};
ghost use Rattle.game.specs.Game.{sound};
ghost use Rattle.casetext.specs.declared.fault.TextFault.TheVariants.{NoStart};
ghost use Rattle.casetext.specs.Case.{ceilings_of, game_of, contents, read_text};
ghost use Rattle.casetext.specs.Sound.{Sound};
ghost use Rattle.casefile.specs.Draft.{said};
ghost use Rattle.casefile.specs.Case.{holds, told, answers};

use crate::capped::Capped;
use crate::case::{Case, ReadError};
use crate::columns::fill_columns;
use crate::draft::Draft;
use crate::item::CLOCKS;
use crate::limits::MAX_TEXT;
use crate::room::Room;
use casetext::fault::TextFault;
use regions::region::Ceilings;
use std::alloc::Global;
use timed::timed_game::TimedGame;

/// The ceilings of three clocks, 0 for one that is not there.
fn all_ceilings(ceilings: &[u8]) -> Ceilings
    ensures { result ≡ ceilings_of ceilings.now }
{
    CLOCKS.map(|clock| ceilings.get(clock).copied().unwrap_or(0))
}

/// The case that the lines have said, if its game is sound: where lines have no fault, only the
/// start can be amiss.
fn finish(draft: Draft) -> Result<Case, TextFault>
    ensures { told result ≡ (if sound (game_of (said draft)) then Ok (contents (said draft)) else Err NoStart) }
{
    let Draft {
        ceilings: Capped { items: ceilings },
        locations: Capped { items: locations },
        edges: Capped { items: edges },
        rows: Capped { items: rows },
        ranks: Capped { items: ranks },
        mut columns,
    } = draft;
    fill_columns(&mut columns, ranks.as_slice());
    let ceilings = all_ceilings(ceilings.as_slice());
    let game = TimedGame::new(ceilings, locations, edges).ok_or(TextFault::NoStart)?;
    Ok(Case {
        game,
        rows,
        ranks: columns.items,
    })
}

/// The case that the text holds, or its first fault. Everything that is read is sound, and every
/// number is in its range.
pub fn read_into(room: Room, text: &[u8]) -> Result<Case, TextFault>
    ensures value { told result ≡ read_text text.now }
    ensures sound { IfOk result (λ c. Sound (holds c)) }
{
    if text.len() > MAX_TEXT {
        return Err(TextFault::TooLong);
    }
    let Room { mut draft } = room;
    draft.read_lines(text)?;
    finish(draft)
}

/// The case that the text holds, or its first fault, unless memory is wanting.
pub fn read_case(heap: Global, text: &[u8]) -> Result<Case, ReadError>
    ensures { answers (read_text text.now) result }
{
    let room = Room::take(heap)?;
    Ok(read_into(room, text)?)
}
