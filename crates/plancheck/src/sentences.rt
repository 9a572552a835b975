//! Refusals in plain words.
use casetext::fault::TextFault;
use refusals::refusal::Refuses;
use std::fmt;
use table::fault::Fault;

/// What is wrong with a text.
#[derive(Clone, Copy)]
pub(crate) struct TextSentence(pub(crate) TextFault);

impl fmt::Display for TextSentence {
    fn fmt<W: fmt::Write>(&self, f: &mut fmt::Formatter<W>) -> fmt::Result {
        match self.0 {
            TextFault::TooLong => write!(f, "the text has more than 65,536 bytes"),
            TextFault::UnknownKind { line } => write!(
                f,
                "line {line}: the first field is none of clock, loc, edge and row"
            ),
            TextFault::FieldCount { line, field } => write!(
                f,
                "line {line}: wrong number of fields; field {field} is the first that lacks or is too many"
            ),
            TextFault::OutOfForm { line, field } => write!(
                f,
                "line {line}, field {field}: not of the form, or not in the range, that this field must have"
            ),
            TextFault::OutOfPlace { line } => write!(
                f,
                "line {line}: a line of a later kind stands above it, or there are too many lines of its kind"
            ),
            TextFault::BadInterval { line, field } => write!(
                f,
                "line {line}, field {field}: the interval contains no reading, or a bound is above the clock's ceiling"
            ),
            TextFault::UnknownEnd { line, field } => write!(
                f,
                "line {line}, field {field}: there is no location of this number"
            ),
            TextFault::NoStart => write!(
                f,
                "there is no location, or the start breaks the invariant of location 0"
            ),
        }
    }
}

/// What a losing loop means: at colour 1 time stands still, and above it ticks come on and on.
#[derive(Clone, Copy)]
struct LoopSentence {
    length: u16,
    colour: u8,
}

impl fmt::Display for LoopSentence {
    fn fmt<W: fmt::Write>(&self, f: &mut fmt::Formatter<W>) -> fmt::Result {
        let length = self.length;
        if self.colour == 1 {
            return write!(
                f,
                "the other side can keep the plan in a loop of {length} rounds without a tick in which we move again and again: time stops, and we are to blame"
            );
        }
        let priority = self.colour.saturating_sub(2);
        write!(
            f,
            "the other side can keep the plan in a loop of {length} rounds in which time goes on and the largest priority is {priority}, which is odd"
        )
    }
}

/// What is wrong with a table whose row 0 stands in this line of its text.
#[derive(Clone, Copy)]
pub(crate) struct TableSentence {
    pub(crate) fault: Fault,
    pub(crate) first_line: usize,
}

impl fmt::Display for TableSentence {
    fn fmt<W: fmt::Write>(&self, f: &mut fmt::Formatter<W>) -> fmt::Result {
        let line = self.first_line.saturating_add(self.fault.place() as usize);
        match self.fault {
            Fault::TooManyRows => write!(f, "the table has more than 1,024 rows"),
            Fault::WrongLengths => write!(f, "there are not four ranks for each row"),
            Fault::NotOwn { row } => write!(
                f,
                "row {row} (line {line}): no such position in this game, or its latch is not from the location's priority to 5"
            ),
            Fault::Repeated { row } => write!(
                f,
                "row {row} (line {line}): an earlier row has the same position and latch"
            ),
            Fault::NoStartRow => write!(f, "the start, with its priority as latch, has no row"),
            Fault::IllegalMove { row } => write!(
                f,
                "row {row} (line {line}): its move is not legal there"
            ),
            Fault::NoRow { row, outcome } => write!(
                f,
                "row {row} (line {line}), outcome {outcome}: it leads to a position and latch without a row"
            ),
            Fault::RankRule { row, outcome } => write!(
                f,
                "row {row} (line {line}), outcome {outcome}: the ranks break their rule"
            ),
            Fault::LosingLoop { length, colour } => write!(
                f,
                "{}",
                LoopSentence { length, colour }
            ),
            Fault::NoRowHere => write!(f, "the walk stands where no row is"),
            Fault::IllegalHere => write!(f, "the move of the walk's row is not legal there"),
            Fault::NoOutcome => write!(f, "the row's move has no outcome of this number"),
            Fault::TooManyRounds => write!(f, "1,000,000 rounds are done"),
        }
    }
}
