// The words of a subset as they stand on a command line.
use crate::subsets::SubsetError;
use crate::words::{Position, Word};
use array_fields::escaped;
use std::alloc::Global;

// The number that digits alone are, where it fits 64 bits.
fn number_of(text: &str) -> Option<u64> {
    if text.starts_with('+') {
        return None;
    }
    text.parse().ok()
}

// The position that a word as `3` or `-3` is.
fn position_of(text: &str) -> Option<Position> {
    let Some(digits) = text.strip_prefix('-') else {
        return Some(Position::FromStart(number_of(text)?));
    };
    match number_of(digits)? {
        0 => Some(Position::FromStart(0)),
        count => Some(Position::FromEnd(count)),
    }
}

// The start that a range has: the axis's where none is written.
fn start_of(text: &str) -> Option<Position> {
    if text.is_empty() {
        Some(Position::FromStart(0))
    } else {
        position_of(text)
    }
}

// The end that a range has: the axis's where none is written.
fn end_of(text: &str) -> Option<Position> {
    if text.is_empty() {
        Some(Position::FromEnd(0))
    } else {
        position_of(text)
    }
}

// The range that a word as `0..2` or `0:2` is.
fn range_of(text: &str) -> Option<Word> {
    let (start, end) = match text.split_once("..") {
        Some(ends) => ends,
        None => text.split_once(':')?,
    };
    Some(Word::Range {
        start: start_of(start)?,
        end: end_of(end)?,
    })
}

// The range that a word as `0..=1` is.
fn inclusive_of(text: &str) -> Option<Word> {
    let (start, last) = text.split_once("..=")?;
    Some(Word::RangeInclusive {
        start: start_of(start)?,
        last: position_of(last)?,
    })
}

// The word that a text is.
fn word_of(text: &str) -> Option<Word> {
    if text == "..." {
        Some(Word::Ellipsis)
    } else if text.contains("..=") {
        inclusive_of(text)
    } else if text.contains("..") || text.contains(':') {
        range_of(text)
    } else {
        Some(Word::Coordinate(position_of(text)?))
    }
}

// How many spaces a text begins with.
fn spaces_before(text: &str) -> usize {
    let rest = text.trim_start_matches(' ').chars().count();
    text.chars().count().saturating_sub(rest)
}

// What stands between brackets that are around all of a text.
fn between_brackets(text: &str) -> Option<&str> {
    text.trim_matches(' ').strip_prefix('[')?.strip_suffix(']')
}

// The words of a text whose first character stands in a column.
fn parse_from(alloc: Global, text: &str, first: usize) -> Result<Vec<Word>, SubsetError> {
    let mut words: Vec<Word> = Vec::new(alloc);
    let mut column = first;
    for piece in text.split(',') {
        let trimmed = piece.trim_matches(' ');
        let Some(word) = word_of(trimmed) else {
            return Err(SubsetError::Malformed {
                word: escaped(alloc, trimmed)?,
                column: column.saturating_add(spaces_before(piece)),
            });
        };
        words.push(word)?;
        column = column
            .saturating_add(piece.chars().count())
            .saturating_add(1);
    }
    Ok(words)
}

/// The words of a text as `0..2,-1`. Refused as `Malformed` at the first that is none, or as `OutOfMemory`.
pub fn parse(alloc: Global, text: &str) -> Result<Vec<Word>, SubsetError> {
    match between_brackets(text) {
        Some(inner) => parse_from(alloc, inner, spaces_before(text).saturating_add(2)),
        None => parse_from(alloc, text, 1),
    }
}
