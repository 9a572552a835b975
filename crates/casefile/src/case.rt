//! What reading gives.
ghost use Rattle.std.specs.Prelude.{◌≡◌};
ghost use Rattle.casefile.specs.declared.case.ReadError.TheVariants.{Memory};
ghost use Rattle.casefile.specs.declared.case.ReadError.TheVariants as errors;

use casetext::fault::TextFault;
use game::parts::TimedPosition;
use std::alloc::AllocError;
use table::row::Row;
use timed::timed_game::TimedGame;

/// A timed game, a table of rows for it, and their ranks in one list: those of colour 1 for all
/// rows, then of colours 3, 5 and 7.
#[derive(Drop)]
pub struct Case {
    pub game: TimedGame,
    pub rows: Vec<Row<TimedPosition>>,
    pub ranks: Vec<u16>,
}

/// Why there is no case.
#[derive(Clone, Copy)]
pub enum ReadError {
    /// the memory for the largest case was not to be had
    Memory,
    /// the text is at fault
    Fault(TextFault),
}

impl From<AllocError> for ReadError {
    ghost from_gives = { λ _ r. r ≡ Memory };

    fn from(_e: AllocError) -> ReadError {
        ReadError::Memory
    }
}

impl From<TextFault> for ReadError {
    ghost from_gives = { λ e r. r ≡ errors.Fault e };

    fn from(e: TextFault) -> ReadError {
        ReadError::Fault(e)
    }
}
