// Three shards that are worked by hand: their elements, their objects, what is written into them, and what is read.
use std::ops::Range;
use zarr_codecs::ByteRange;

// An absent subchunk has this number twice in the index.
const ABSENT: u64 = u64::MAX;

// A part of an object: bytes, or numbers of an index.
pub(crate) enum Part {
    Bytes(&'static [u8]),
    Index(&'static [u64]),
}

use Part::{Bytes, Index};

// The bytes after these numbers, where they begin with them.
fn cut_numbers<'a>(bytes: &'a [u8], numbers: &[u64]) -> Option<&'a [u8]> {
    let mut rest = bytes;
    for number in numbers {
        rest = rest.strip_prefix(&number.to_le_bytes())?;
    }
    Some(rest)
}

// The bytes after a part, where they begin with it.
fn cut<'a>(bytes: &'a [u8], part: &Part) -> Option<&'a [u8]> {
    match part {
        Bytes(part) => bytes.strip_prefix(part),
        Index(numbers) => cut_numbers(bytes, numbers),
    }
}

// Whether bytes are these parts, one behind the other.
pub(crate) fn are(bytes: &[u8], parts: &[Part]) -> bool {
    let mut rest = bytes;
    for part in parts {
        let Some(after) = cut(rest, part) else {
            return false;
        };
        rest = after;
    }
    rest.is_empty()
}

// Whether an object is these parts.
pub(crate) fn is_object(object: &Option<Vec<u8>>, parts: &[Part]) -> bool {
    match object {
        Some(bytes) => are(bytes, parts),
        None => false,
    }
}

// Elements over a subset, and all elements after them.
#[derive(Clone, Copy)]
pub(crate) struct Write {
    pub subset: &'static [Range<u64>],
    pub elements: &'static [u8],
    pub left: &'static [u8],
}

// A shard of elements of one byte.
#[derive(Clone, Copy)]
pub(crate) struct Worked {
    pub shape: &'static [u64],
    pub whole: &'static [Range<u64>],
    pub elements: &'static [u8],
    pub object: &'static [Part],
    // All elements where there is no object.
    pub erased: &'static [u8],
    // A subset, its elements, and a target of sevens into which they were read.
    pub subset: &'static [Range<u64>],
    pub subset_elements: &'static [u8],
    pub target: &'static [u8],
    // Three coordinates and their elements, which the first write leaves.
    pub listed: &'static [u64],
    pub listed_elements: &'static [u8],
    // The coordinate of a subchunk, and where it is stored.
    pub subchunk: &'static [u64],
    pub stored: ByteRange,
    // What is written, the object after all of it, and that object without what is not needed.
    pub first: Write,
    pub later: &'static [Write],
    pub written: &'static [Part],
    pub compact: &'static [Part],
    // The object after the first write, whether a compaction gains by it, and what it leaves.
    pub first_written: &'static [Part],
    pub first_gains: bool,
    pub first_compact: &'static [Part],
    // The object for another codec.
    pub resharded: &'static [Part],
}

// 4 by 4 elements in subchunks of 2 by 2, with the fill value 255 and the index at the start. The write straddles two subchunks.
const START: Worked = Worked {
    shape: &[4, 4],
    whole: &[0..4, 0..4],
    elements: &[0, 1, 2, 3, 4, 5, 6, 7, 8, 9, 10, 11, 12, 13, 14, 15],
    object: &[
        Index(&[64, 4, 68, 4, 72, 4, 76, 4]),
        Bytes(&[0, 1, 4, 5, 2, 3, 6, 7, 8, 9, 12, 13, 10, 11, 14, 15]),
    ],
    erased: &[255; 16],
    subset: &[1..3, 0..2],
    subset_elements: &[4, 5, 8, 9],
    target: &[7, 7, 7, 7, 4, 5, 7, 7, 8, 9, 7, 7, 7, 7, 7, 7],
    listed: &[3, 3, 0, 0, 3, 3],
    listed_elements: &[15, 0, 15],
    subchunk: &[1, 0],
    stored: ByteRange::FromStart(72, Some(4)),
    first: Write {
        subset: &[0..2, 1..3],
        elements: &[100, 101, 102, 103],
        left: &[0, 100, 101, 3, 4, 102, 103, 7, 8, 9, 10, 11, 12, 13, 14, 15],
    },
    later: &[],
    written: &START_WRITTEN,
    compact: &START_COMPACT,
    first_written: &START_WRITTEN,
    first_gains: true,
    first_compact: &START_COMPACT,
    resharded: &[
        Bytes(&[0, 1, 4, 5, 8, 9, 12, 13, 2, 3, 6, 7, 10, 11, 14, 15]),
        Index(&[0, 8, 8, 8]),
    ],
};

pub(crate) fn start() -> Worked {
    START
}

const START_WRITTEN: [Part; 3] = [
    Index(&[80, 4, 84, 4, 72, 4, 76, 4]),
    Bytes(&[0, 1, 4, 5, 2, 3, 6, 7, 8, 9, 12, 13, 10, 11, 14, 15]),
    Bytes(&[0, 100, 4, 102, 101, 3, 103, 7]),
];

const START_COMPACT: [Part; 2] = [
    Index(&[64, 4, 68, 4, 72, 4, 76, 4]),
    Bytes(&[0, 100, 4, 102, 101, 3, 103, 7, 8, 9, 12, 13, 10, 11, 14, 15]),
];

// 8 elements in subchunks of 2, with the fill value 0 and the index at the end. The writes leave two subchunks without an element
// to store, store one of these again, and straddle two.
const END: Worked = Worked {
    shape: &[8],
    whole: &[0..8],
    elements: &[1, 2, 3, 4, 5, 6, 7, 8],
    object: &[
        Bytes(&[1, 2, 3, 4, 5, 6, 7, 8]),
        Index(&[0, 2, 2, 2, 4, 2, 6, 2]),
    ],
    erased: &[0; 8],
    subset: &[1..4],
    subset_elements: &[2, 3, 4],
    target: &[7, 2, 3, 4, 7, 7, 7, 7],
    listed: &[3, 0, 3],
    listed_elements: &[4, 1, 4],
    subchunk: &[1],
    stored: ByteRange::FromStart(2, Some(2)),
    first: Write {
        subset: &[4..8],
        elements: &[0, 0, 0, 0],
        left: &[1, 2, 3, 4, 0, 0, 0, 0],
    },
    later: &[
        Write {
            subset: &[4..6],
            elements: &[9, 9],
            left: &[1, 2, 3, 4, 9, 9, 0, 0],
        },
        Write {
            subset: &[3..5],
            elements: &[40, 50],
            left: &[1, 2, 3, 40, 50, 9, 0, 0],
        },
    ],
    written: &[
        Bytes(&[1, 2, 3, 4, 5, 6, 7, 8, 9, 9, 3, 40, 50, 9]),
        Index(&[0, 2, 10, 2, 12, 2, ABSENT, ABSENT]),
    ],
    compact: &[
        Bytes(&[1, 2, 3, 40, 50, 9]),
        Index(&[0, 2, 2, 2, 4, 2, ABSENT, ABSENT]),
    ],
    first_written: &[
        Bytes(&[1, 2, 3, 4, 5, 6, 7, 8]),
        Index(&[0, 2, 2, 2, ABSENT, ABSENT, ABSENT, ABSENT]),
    ],
    first_gains: true,
    first_compact: &[
        Bytes(&[1, 2, 3, 4]),
        Index(&[0, 2, 2, 2, ABSENT, ABSENT, ABSENT, ABSENT]),
    ],
    resharded: &[Bytes(&[1, 2, 3, 4, 5, 6, 7, 8]), Index(&[0, 4, 4, 4])],
};

pub(crate) fn end() -> Worked {
    END
}

// 4 elements in subchunks of 2 that are shards with subchunks of 1. The first write makes the object anew.
const NESTED: Worked = Worked {
    shape: &[4],
    whole: &[0..4],
    elements: &[1, 0, 0, 0],
    object: &[
        Bytes(&[1]),
        Index(&[0, 1, ABSENT, ABSENT]),
        Index(&[0, 33, ABSENT, ABSENT]),
    ],
    erased: &[0; 4],
    subset: &[0..1],
    subset_elements: &[1],
    target: &[1, 7, 7, 7],
    listed: &[0, 3, 0],
    listed_elements: &[1, 0, 1],
    subchunk: &[0],
    stored: ByteRange::FromStart(0, Some(33)),
    first: Write {
        subset: &[1..3],
        elements: &[5, 7],
        left: &[1, 5, 7, 0],
    },
    later: &[Write {
        subset: &[2..3],
        elements: &[6],
        left: &[1, 5, 6, 0],
    }],
    written: &[
        Bytes(&[1, 5]),
        Index(&[0, 1, 1, 1]),
        Bytes(&[7]),
        Index(&[0, 1, ABSENT, ABSENT]),
        Bytes(&[6]),
        Index(&[0, 1, ABSENT, ABSENT]),
        Index(&[0, 34, 67, 33]),
    ],
    compact: &[
        Bytes(&[1, 5]),
        Index(&[0, 1, 1, 1]),
        Bytes(&[6]),
        Index(&[0, 1, ABSENT, ABSENT]),
        Index(&[0, 34, 34, 33]),
    ],
    first_written: &NESTED_FIRST,
    first_gains: false,
    first_compact: &NESTED_FIRST,
    resharded: &[Bytes(&[1, 0]), Index(&[0, 2, ABSENT, ABSENT])],
};

pub(crate) fn nested() -> Worked {
    NESTED
}

const NESTED_FIRST: [Part; 5] = [
    Bytes(&[1, 5]),
    Index(&[0, 1, 1, 1]),
    Bytes(&[7]),
    Index(&[0, 1, ABSENT, ABSENT]),
    Index(&[0, 34, 34, 33]),
];
