// Why a line is no command's.

/// A mistake in a line.
#[derive(Clone, Copy)]
pub enum Mistake {
    /// A word ends where no word begins: two spaces in a row, or one at an end of the line.
    SpaceTooMany,
    /// The line ends before its command does.
    WordMissing,
    /// A word behind the command's last.
    WordTooMany,
    /// A first word that names no command.
    NoCommand,
    /// A command that asks for a shard, before there is one.
    NoShard,
    /// No text where a number is to stand.
    NumberMissing,
    /// Not one or more decimal digits.
    NoNumber,
    /// A number past this one.
    PastGreatest(u64),
    /// A shape with a 0.
    NoShape,
    /// A word that names no type of elements.
    NoElementType,
    /// Neither `start` nor `end`.
    NoLocation,
    /// Neither `c` nor `unordered` nor `morton`.
    NoOrder,
    /// Not `x` and two digits for each byte.
    NoBytes,
    /// Not `a..b`.
    NoRange,
    /// Ranges of which one starts past its end.
    Backwards,
    /// A coordinate with another number of axes than the first.
    OtherAxes,
    /// More coordinates than can be counted.
    TooManyCoordinates,
    /// A text with a byte that is no ASCII.
    NoAscii,
}

/// Why a line is no command's: a mistake, and the text of the line that shows it; none where the mistake alone says enough.
#[derive(Clone, Copy)]
pub struct Reason<'a> {
    pub mistake: Mistake,
    pub text: &'a [u8],
}
