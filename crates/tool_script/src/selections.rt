// The words of a line that say which cells are asked.
use crate::parse::{number_mistake, parse_number, parse_numbers};
use crate::pieces::Pieces;
use crate::reason::Mistake;
use crate::stop::Stop;
use std::alloc::Global;
use std::ops::Range;
use zarr_parts::{ArraySubset, Coordinates};

/// The next word of a line. `Malformed` where there is none, and where it is empty.
pub fn next_word<'a>(words: &mut Pieces<'a>) -> Result<&'a [u8], Stop<'a>> {
    match words.next() {
        Some(b"") => Err(Stop::malformed(Mistake::SpaceTooMany, b"")),
        Some(word) => Ok(word),
        None => Err(Stop::malformed(Mistake::WordMissing, b"")),
    }
}

// An end of a range.
fn parse_end<'a>(word: &'a [u8]) -> Result<u64, Stop<'a>> {
    match parse_number(word, u64::MAX) {
        Some(end) => Ok(end),
        None => Err(Stop::malformed(number_mistake(word, u64::MAX), word)),
    }
}

// The numbers from `a` to `b`, the end excluded, that a word `a..b` says.
fn parse_range<'a>(word: &'a [u8]) -> Result<Range<u64>, Stop<'a>> {
    let mut ends = Pieces::new(word, b'.');
    let (Some(start), Some(b""), Some(end), None) = (
        ends.next(),
        ends.next(),
        ends.next(),
        ends.next(),
    ) else {
        return Err(Stop::malformed(Mistake::NoRange, word));
    };
    let start = parse_end(start)?;
    let end = parse_end(end)?;
    Ok(start..end)
}

/// The subset that a list of ranges says, one for each axis; `-` is the one of no axes. `Malformed` where a start passes
/// its end, and for any other word.
pub fn parse_subset<'a>(alloc: Global, word: &'a [u8]) -> Result<ArraySubset, Stop<'a>> {
    let mut ranges = Vec::new(alloc);
    if word != b"-".as_slice() {
        for member in Pieces::new(word, b',') {
            ranges.push(parse_range(member)?)?;
        }
    }
    ArraySubset::new_with_ranges(alloc, &ranges)?.ok_or(Stop::malformed(Mistake::Backwards, word))
}

/// The coordinates that the words left of a line list, each with as many numbers. `Malformed` where there is none, or
/// their numbers of axes differ.
pub fn parse_coordinates<'a>(
    alloc: Global,
    words: &mut Pieces<'a>,
) -> Result<Coordinates, Stop<'a>> {
    let first = next_word(words)?;
    let mut flat = parse_numbers(alloc, first, u64::MAX)?;
    let axes = flat.len();
    let mut count: u64 = 1;
    for word in words {
        let coordinate = parse_numbers(alloc, word, u64::MAX)?;
        if coordinate.len() != axes {
            return Err(Stop::malformed(Mistake::OtherAxes, word));
        }
        flat.extend_from_slice(&coordinate)?;
        count = count
            .checked_add(1)
            .ok_or(Stop::malformed(Mistake::TooManyCoordinates, first))?;
    }
    Coordinates::new(axes, count, flat).ok_or(Stop::malformed(Mistake::TooManyCoordinates, first))
}
