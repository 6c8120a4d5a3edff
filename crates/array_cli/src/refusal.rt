// Why a shard is refused, and where.
use crate::arrays::Shard;
use crate::output::Output;
use array_fields::JsonLine;
use array_metadata::ArrayMetadata;
use parts_errors::CodecError;
use parts_row_major::unravel_index;
use parts_subsets::ChunkShape;
use std::alloc::{AllocError, Global};
use std::io::Write;
use std::{fmt, io};

/// Where in a shard something is refused.
#[derive(Debug, Clone, Copy)]
pub enum Place {
    /// Nowhere in particular.
    Shard,
    /// In its index.
    Index,
    /// In the subchunk with this number.
    Subchunk(u64),
}

impl Place {
    /// Where a refusal of a shard that is opened lies.
    pub fn opening(error: &CodecError) -> Place {
        match error {
            CodecError::BadIndexEntry { number } => Place::Subchunk(*number),
            CodecError::ShardTooShort => Place::Shard,
            _ => Place::Index,
        }
    }

    /// Where a refusal of a read of some elements lies.
    pub fn reading(error: &CodecError) -> Place {
        match error {
            CodecError::BadIndexEntry { number } => Place::Subchunk(*number),
            _ => Place::Shard,
        }
    }
}

/// A shard that is refused: its key, why, and where.
#[derive(Debug, Drop)]
pub struct Refusal {
    pub key: String,
    pub error: CodecError,
    pub position: Place,
    /// Of a subchunk, which elements of the array it has, in words.
    pub elements: String,
    /// How many other subchunks of the shard are refused so.
    pub others: u64,
}

// The elements of a subchunk along an axis, where a chunk begins at an element and a subchunk in it at a number of subchunks.
// `None` where the array ends before.
fn range_of(chunk: u64, size: u64, subchunk: u64, part: u64, end: u64) -> Option<(u64, u64)> {
    let start = chunk
        .saturating_mul(size)
        .saturating_add(subchunk.saturating_mul(part));
    if start < end {
        Some((start, start.saturating_add(part).min(end)))
    } else {
        None
    }
}

// Adds a range of elements to a text, ` (elements 0..4` or `,3..6`.
fn add_range(alloc: Global, text: &mut String, (start, end): (u64, u64)) -> Result<(), AllocError> {
    text.push_str(if text.is_empty() { " (elements " } else { "," })?;
    let range = format!(in alloc; "{start}..{end}")?;
    text.push_str(&range)
}

// Adds the elements of the array that a subchunk has, along each axis, to a text. `false` where it has none.
fn add_ranges(
    alloc: Global,
    metadata: &ArrayMetadata,
    shard: &[u64],
    subchunk: &[u64],
    text: &mut String,
) -> Result<bool, AllocError> {
    let sizes = metadata
        .shard
        .as_slice()
        .iter()
        .zip(metadata.subchunk.as_slice());
    let positions = shard.iter().zip(subchunk);
    for ((size, end), (position, part)) in sizes.zip(metadata.shape.iter()).zip(positions) {
        match range_of(*position, *size.0, *part, *size.1, *end) {
            Some(range) => add_range(alloc, text, range)?,
            None => return Ok(false),
        }
    }
    Ok(true)
}

// The elements of the array that a subchunk has, of a shard and with these coordinates in it: ` (elements 0..4,3..6)`.
fn elements_at(
    alloc: Global,
    metadata: &ArrayMetadata,
    shard: &[u64],
    subchunk: &[u64],
) -> Result<String, AllocError> {
    let mut text = String::new(alloc);
    if !add_ranges(alloc, metadata, shard, subchunk, &mut text)? {
        return String::from_str(alloc, " (outside of the array)");
    }
    if !text.is_empty() {
        text.push(')')?;
    }
    Ok(text)
}

// The elements of the array that a place in a shard has, in words; none where its axes are in another order.
fn elements_of(
    alloc: Global,
    metadata: &ArrayMetadata,
    subchunks: &ChunkShape,
    shard: &Shard<'_>,
    position: Place,
) -> Result<String, AllocError> {
    let number = match position {
        Place::Subchunk(number) if !metadata.is_transposed() => number,
        _ => return Ok(String::new(alloc)),
    };
    match unravel_index(alloc, number, subchunks.as_slice())? {
        Some(subchunk) => elements_at(alloc, metadata, shard.coordinates, &subchunk),
        None => Ok(String::new(alloc)),
    }
}

impl Refusal {
    /// The refusal of a shard of an array with this metadata and these subchunks along each axis of a shard.
    pub fn new(
        alloc: Global,
        metadata: &ArrayMetadata,
        subchunks: &ChunkShape,
        shard: &Shard<'_>,
        error: CodecError,
        position: Place,
    ) -> Result<Self, AllocError> {
        Ok(Refusal {
            key: String::from_str(alloc, shard.key)?,
            error,
            position,
            elements: elements_of(alloc, metadata, subchunks, shard, position)?,
            others: 0,
        })
    }
}

// Why an index, or a shard, is refused.
fn reason_of(error: &CodecError, position: Place) -> &'static str {
    match (error, position) {
        (CodecError::ShardTooShort, _) => ": the file is shorter than its index",
        (CodecError::Damaged, Place::Index) => ": the index does not decode",
        (CodecError::Damaged, _) => ": a requested subchunk does not decode",
        _ => "",
    }
}

/// Why a shard is refused, to be written without its key.
#[derive(Clone, Copy)]
pub struct Reason<'r>(&'r Refusal);

impl Refusal {
    /// Why, without the key.
    pub fn reason(&self) -> Reason<'_> {
        Reason(self)
    }
}

impl fmt::Display for Refusal {
    fn fmt<W: fmt::Write>(&self, f: &mut fmt::Formatter<W>) -> fmt::Result {
        let reason = self.reason();
        write!(f, "{}: {reason}", self.key)
    }
}

impl fmt::Display for Reason<'_> {
    fn fmt<W: fmt::Write>(&self, f: &mut fmt::Formatter<W>) -> fmt::Result {
        let Refusal {
            key: _,
            error,
            position,
            elements,
            others,
        } = self.0;
        let (number, name) = (error.number(), error.name());
        let Place::Subchunk(subchunk) = position else {
            return write!(f, "{number} {name}{}", reason_of(error, *position));
        };
        write!(f, "{number} {name}: subchunk {subchunk}{elements} ")?;
        match error {
            CodecError::BadIndexEntry { number: _ } => {
                f.write_str("has an index entry that names no bytes of the shard's data")?;
            }
            _ => f.write_str("does not decode")?,
        }
        match others {
            0 => Ok(()),
            others => write!(f, "; {others} more"),
        }
    }
}

/// Puts why something is refused, and where, into a line: `number`, `name`, `subchunk` where it is one, with how many others are
/// refused so, and the `sentence` that stands in a line of text, which has no character that JSON knows otherwise.
pub fn put_refusal(line: &mut JsonLine<'_, Output>, refusal: &Refusal) -> io::Result<()> {
    line.number("number", refusal.error.number() as u64)?;
    line.text("name", refusal.error.name())?;
    if let Place::Subchunk(number) = refusal.position {
        line.each(&[("subchunk", number), ("others", refusal.others)])?;
    }
    let reason = refusal.reason();
    write!(line.member("sentence")?, "\"{reason}\"")
}
