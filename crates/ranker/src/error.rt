//! Why a table was not ranked.
ghost use Rattle.std.specs.Prelude.{◌≡◌};
ghost use Rattle.ranker.specs.declared.error.RankError.TheVariants.{Memory, Refused};

use std::alloc::AllocError;
use table::fault::Fault;

/// No memory was to be had, or the table is refused.
#[derive(Clone, Copy, PartialEq, Eq, Debug)]
pub enum RankError {
    Memory,
    Refused(Fault),
}

impl From<AllocError> for RankError {
    ghost from_gives = { λ _ r. r ≡ Memory };

    fn from(_error: AllocError) -> RankError {
        RankError::Memory
    }
}

impl From<Fault> for RankError {
    ghost from_gives = { λ f r. r ≡ Refused f };

    fn from(fault: Fault) -> RankError {
        RankError::Refused(fault)
    }
}
