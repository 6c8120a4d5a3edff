// What the index of a shard says of the file that it stands in.
use parts_errors::CodecError;
use sharding_format::ShardingIndexLocation;

/// What the index of a shard says.
#[derive(Clone, Copy)]
pub struct IndexInfo {
    /// Subchunks that have a slice.
    pub present: u64,
    /// Subchunks that are wholly the fill value.
    pub absent: u64,
    /// Bytes that are neither the index's nor any slice's.
    pub dead: u64,
}

/// The bytes that an object of a length has from an offset on, as start and end. `None` where it has fewer.
pub fn slice_of(offset: u64, size: u64, length: u64) -> Option<(u64, u64)> {
    let end = offset.checked_add(size)?;
    if end <= length {
        Some((offset, end))
    } else {
        None
    }
}

// How many slices an index names. Refused as `BadIndexEntry` where one passes the object.
fn present_in(entries: &[[u64; 2]], length: u64) -> Result<u64, CodecError> {
    let mut present = 0u64;
    for (number, [offset, size]) in entries.iter().enumerate() {
        if *offset == u64::MAX && *size == u64::MAX {
            continue;
        }
        if slice_of(*offset, *size, length).is_none() {
            let number = number as u64;
            return Err(CodecError::BadIndexEntry { number });
        }
        present = present.saturating_add(1);
    }
    Ok(present)
}

/// The bytes of an object from the first one on: those of its index, which has a start and an end, and those of slices, sorted offsets
/// and sizes, in the order in which they begin.
#[derive(Clone, Copy)]
pub struct DeadBytes<'s> {
    index: Option<(u64, u64)>,
    slices: &'s [[u64; 2]],
    reached: u64,
    length: u64,
}

impl<'s> DeadBytes<'s> {
    /// Begins at the first byte of an object of a length, which has an index and the first `present` of these slices.
    pub fn new(sorted: &'s [u64], present: u64, index: (u64, u64), length: u64) -> Self {
        let (slices, _) = sorted.as_chunks::<2>();
        let present = (present as usize).min(slices.len());
        DeadBytes {
            index: Some(index),
            slices: &slices[..present],
            reached: 0,
            length,
        }
    }

    // The index where it begins before the next slice, or else this slice; after the last one the end of the object.
    fn next_interval(&mut self) -> (u64, u64) {
        let next = self.slices.first().map(|slice| slice[0]);
        if let Some(index) = self.index
            && next.is_none_or(|offset| index.0 <= offset)
        {
            self.index = None;
            return index;
        }
        match self.slices.split_first() {
            Some(([offset, size], rest)) => {
                self.slices = rest;
                (*offset, offset.saturating_add(*size))
            }
            None => (self.length, self.length),
        }
    }

    /// How many steps are left to the end of the object.
    pub fn steps(&self) -> usize {
        self.slices.len().saturating_add(2)
    }

    /// Passes one more, and gives the dead bytes before it, as start and end; these are the same where there are none.
    pub fn pass(&mut self) -> (u64, u64) {
        let (start, end) = self.next_interval();
        let dead = (self.reached, start.max(self.reached));
        self.reached = self.reached.max(end);
        dead
    }
}

// How many bytes are dead in all.
fn dead_bytes(mut bytes: DeadBytes<'_>) -> u64 {
    let mut dead = 0u64;
    for _ in 0..bytes.steps() {
        let (start, end) = bytes.pass();
        dead = dead.saturating_add(end.saturating_sub(start));
    }
    dead
}

/// The start and the end of the index of a shard in an object of a length that is no shorter.
pub fn index_interval(location: ShardingIndexLocation, size: u64, length: u64) -> (u64, u64) {
    match location {
        ShardingIndexLocation::Start => (0, size),
        ShardingIndexLocation::End => (length.saturating_sub(size), length),
    }
}

/// What an index of these numbers and this size says, of a shard in an object of a length. They are sorted where they are, so that they
/// are in memory once.
pub fn info_of(
    numbers: &mut [u64],
    location: ShardingIndexLocation,
    size: u64,
    length: u64,
) -> Result<IndexInfo, CodecError> {
    let (slices, _) = numbers.as_chunks_mut::<2>();
    let present = present_in(slices, length)?;
    let subchunks = slices.len() as u64;
    // an absent pair is the largest of all
    slices.sort_unstable();
    let index = index_interval(location, size, length);
    Ok(IndexInfo {
        present,
        absent: subchunks.saturating_sub(present),
        dead: dead_bytes(DeadBytes::new(numbers, present, index, length)),
    })
}
