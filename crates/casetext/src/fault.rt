//! What can be wrong with a text.
ghost use Rattle.casetext.specs.Faults.{refusal_of};

use refusals::refusal::Refuses;

/// Why a text is refused. Lines and fields count from 1.
#[derive(Clone, Copy)]
pub enum TextFault {
    /// the text has too many bytes
    TooLong,
    /// the first field names no kind of line
    UnknownKind { line: u32 },
    /// fields are lacking, the first of them here, or too many, the first of these here
    FieldCount { line: u32, field: u32 },
    /// a field does not have its form, or its number is out of range
    OutOfForm { line: u32, field: u32 },
    /// a line of a later kind stands above, or there are too many of this kind
    OutOfPlace { line: u32 },
    /// an interval contains no reading, or goes above its clock's ceiling
    BadInterval { line: u32, field: u32 },
    /// an edge begins or ends in a location that is not there
    UnknownEnd { line: u32, field: u32 },
    /// there is no location, or the start is outside its invariant
    NoStart,
}

impl Refuses for TextFault {
    ghost refusal = { refusal_of };

    fn number(self) -> u8 {
        match self {
            TextFault::UnknownKind { .. } => 1,
            TextFault::FieldCount { .. } => 2,
            TextFault::OutOfForm { .. } => 3,
            TextFault::TooLong | TextFault::OutOfPlace { .. } => 4,
            TextFault::BadInterval { .. } => 5,
            TextFault::UnknownEnd { .. } => 6,
            TextFault::NoStart => 7,
        }
    }

    /// The line, or 0 where the text as a whole is at fault.
    fn place(self) -> u32 {
        match self {
            TextFault::TooLong | TextFault::NoStart => 0,
            TextFault::UnknownKind { line }
            | TextFault::OutOfPlace { line }
            | TextFault::FieldCount { line, .. }
            | TextFault::OutOfForm { line, .. }
            | TextFault::BadInterval { line, .. }
            | TextFault::UnknownEnd { line, .. } => line,
        }
    }

    /// The field, or 0 where the text as a whole is at fault.
    fn detail(self) -> u32 {
        match self {
            TextFault::TooLong | TextFault::NoStart => 0,
            TextFault::UnknownKind { .. } | TextFault::OutOfPlace { .. } => 1,
            TextFault::FieldCount { field, .. }
            | TextFault::OutOfForm { field, .. }
            | TextFault::BadInterval { field, .. }
            | TextFault::UnknownEnd { field, .. } => field,
        }
    }
}
