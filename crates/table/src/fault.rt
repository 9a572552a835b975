//! Why a table or a step is declined.
ghost use Rattle.table.specs.Faults.{refusal_of};

use refusals::refusal::Refuses;

/// A refusal, with what it names: a row and an outcome, each numbered from 0, or a loop.
#[derive(Clone, Copy, PartialEq, Eq, Debug)]
pub enum Fault {
    /// The table has more than 1,024 rows.
    TooManyRows,
    /// The row's position is not the arena's own, or its latch is not from the priority there to 5.
    NotOwn { row: u16 },
    /// An earlier row has the same position and latch.
    Repeated { row: u16 },
    /// The start with its priority as latch has no row.
    NoStartRow,
    /// The row's move is not legal.
    IllegalMove { row: u16 },
    /// The outcome leads to a position and latch without a row.
    NoRow { row: u16, outcome: u16 },
    /// The ranks break their rule at the outcome.
    RankRule { row: u16, outcome: u16 },
    /// There is a losing loop of this length, whose largest colour is the smallest odd one that a loop has.
    LosingLoop { length: u16, colour: u8 },
    /// There are not four ranks for each row, or fewer pairs for a loop than rows.
    WrongLengths,
    /// The walk stands where no row is.
    NoRowHere,
    /// The move of the row where the walk stands is not legal.
    IllegalHere,
    /// The move has no outcome with this number.
    NoOutcome,
    /// The walk has done 1,000,000 rounds.
    TooManyRounds,
}

impl Refuses for Fault {
    ghost refusal = { refusal_of };

    fn number(self) -> u8 {
        match self {
            Fault::TooManyRows => 4,
            Fault::NotOwn { .. } => 8,
            Fault::Repeated { .. } => 9,
            Fault::NoStartRow => 10,
            Fault::IllegalMove { .. } | Fault::IllegalHere => 11,
            Fault::NoRow { .. } | Fault::NoRowHere => 12,
            Fault::RankRule { .. } => 13,
            Fault::LosingLoop { .. } => 14,
            Fault::WrongLengths => 15,
            Fault::NoOutcome => 16,
            Fault::TooManyRounds => 17,
        }
    }

    /// The row, or the length of the loop.
    fn place(self) -> u32 {
        match self {
            Fault::NotOwn { row }
            | Fault::Repeated { row }
            | Fault::IllegalMove { row }
            | Fault::NoRow { row, .. }
            | Fault::RankRule { row, .. } => row as u32,
            Fault::LosingLoop { length, .. } => length as u32,
            Fault::TooManyRows
            | Fault::NoStartRow
            | Fault::WrongLengths
            | Fault::NoRowHere
            | Fault::IllegalHere
            | Fault::NoOutcome
            | Fault::TooManyRounds => 0,
        }
    }

    /// The outcome, or the colour of the loop.
    fn detail(self) -> u32 {
        match self {
            Fault::NoRow { outcome, .. } | Fault::RankRule { outcome, .. } => outcome as u32,
            Fault::LosingLoop { colour, .. } => colour as u32,
            Fault::TooManyRows
            | Fault::NotOwn { .. }
            | Fault::Repeated { .. }
            | Fault::NoStartRow
            | Fault::IllegalMove { .. }
            | Fault::WrongLengths
            | Fault::NoRowHere
            | Fault::IllegalHere
            | Fault::NoOutcome
            | Fault::TooManyRounds => 0,
        }
    }
}
