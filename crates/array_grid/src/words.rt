// The words that a subset is named by.

/// A position along an axis.
#[derive(Clone, Copy)]
pub enum Position {
    /// The coordinate of this number.
    FromStart(u64),
    /// This number of coordinates before the end: 1 is the last coordinate, and 0 the end itself.
    FromEnd(u64),
}

/// What is named of one axis; or, of the ellipsis, of as many as are missing.
#[derive(Clone, Copy)]
pub enum Word {
    /// One coordinate.
    Coordinate(Position),
    /// The coordinates from a start to before an end.
    Range { start: Position, end: Position },
    /// The coordinates from a start to a last one.
    RangeInclusive { start: Position, last: Position },
    /// Each axis that it stands for, whole.
    Ellipsis,
}
