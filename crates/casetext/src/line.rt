//! The kinds of lines, and what their fields must be.

/// What the first field names.
#[derive(Clone, Copy)]
pub enum Kind {
    Clock,
    Loc,
    Edge,
    Row,
}

/// What a field must be.
#[derive(Clone, Copy)]
pub enum Form {
    /// the name of the kind, where the line is out of place or not
    Head { misplaced: bool },
    /// a number in a range
    Number { low: u16, high: u16 },
    /// an interval of a clock with this ceiling
    Interval { ceiling: u8 },
    /// `us` or `them`
    Owner,
    /// the number of a location, of which there are so many
    End { locations: usize },
    /// a letter for each clock, or `-` without clocks
    Letters { clocks: usize },
    /// the number of an edge, or `-`
    Choice,
}
