// The names of the files of chunks, and of the folders that they lie in.
use array_fields::{ChunkKeys, KeyEncoding};
use std::alloc::{AllocError, Global};

// The names in a folder that are parts of keys: so much text, and behind it a coordinate for each count, which it is below,
// with `.` between.
#[derive(Drop)]
pub struct Level<'a> {
    text: &'static str,
    counts: &'a [u64],
}

// The number that decimal digits are, at least one, with no zero before others.
fn number_in(digits: &[u8]) -> Option<u64> {
    if digits.is_empty() || digits.len() > 1 && digits[0] == b'0' {
        return None;
    }
    let mut number = 0u64;
    for byte in digits {
        let digit = byte.wrapping_sub(b'0');
        if digit > 9 {
            return None;
        }
        number = number.checked_mul(10)?.checked_add(digit as u64)?;
    }
    Some(number)
}

// The coordinate below a count that a word is, in decimal digits with no zero before them.
fn coordinate_in(word: &[u8], count: u64) -> Option<u64> {
    let coordinate = number_in(word)?;
    if coordinate < count {
        Some(coordinate)
    } else {
        None
    }
}

// Adds the coordinates below these counts that a text is, with `.` between, and says whether it is that.
fn push_coordinates(
    coordinates: &mut Vec<u64>,
    text: &str,
    counts: &[u64],
) -> Result<bool, AllocError> {
    let mut words = text.as_bytes().split(|byte| *byte == b'.');
    for count in counts {
        match words.next().and_then(|word| coordinate_in(word, *count)) {
            Some(coordinate) => coordinates.push(coordinate)?,
            None => return Ok(false),
        }
    }
    Ok(words.next().is_none())
}

impl<'a> Level<'a> {
    /// The coordinates of what has a name in a folder of these coordinates, where the name is a part of a key.
    pub fn coordinates(
        &self,
        alloc: Global,
        before: &[u64],
        name: &str,
    ) -> Result<Option<Vec<u64>>, AllocError> {
        let Some(rest) = name.strip_prefix(self.text) else {
            return Ok(None);
        };
        let axes = before.len().saturating_add(self.counts.len());
        let mut coordinates: Vec<u64> = Vec::with_capacity(alloc, axes)?;
        coordinates.extend_from_slice(before)?;
        let is_part = if self.counts.is_empty() {
            rest.is_empty()
        } else {
            push_coordinates(&mut coordinates, rest, self.counts)?
        };
        Ok(if is_part { Some(coordinates) } else { None })
    }
}

// A folder for each axis.
fn push_axes<'a>(levels: &mut Vec<Level<'a>>, counts: &'a [u64]) -> Result<(), AllocError> {
    for count in counts.chunks(1) {
        levels.push(Level {
            text: "",
            counts: count,
        })?;
    }
    Ok(())
}

/// The folders that the keys of chunks in a grid go through: the array's own folder first, and last that of the files.
pub fn levels_of<'a>(
    alloc: Global,
    keys: ChunkKeys,
    counts: &'a [u64],
) -> Result<Vec<Level<'a>>, AllocError> {
    let mut levels: Vec<Level<'a>> = Vec::new(alloc);
    match (keys.encoding, keys.slashes, counts.is_empty()) {
        (KeyEncoding::Default, _, true) => levels.push(Level { text: "c", counts })?,
        (KeyEncoding::V2, _, true) => levels.push(Level { text: "0", counts })?,
        (KeyEncoding::Default, false, _) => levels.push(Level { text: "c.", counts })?,
        (KeyEncoding::V2, false, _) => levels.push(Level { text: "", counts })?,
        (KeyEncoding::Default, true, _) => {
            levels.push(Level {
                text: "c",
                counts: &[],
            })?;
            push_axes(&mut levels, counts)?;
        }
        (KeyEncoding::V2, true, _) => push_axes(&mut levels, counts)?,
    }
    Ok(levels)
}
