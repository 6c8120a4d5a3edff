// Objects that nobody wrote as a shard, with what each call owes them: for the tests that walk them.
//
// Each is to be a shard of four elements of one byte in two subchunks, with the fill value 0, whose inner codec and index codec
// are `bytes` in little endian.

use std::alloc::{AllocError, Global};
use zarr_parts::CodecError;

/// The number that stands twice in the index entry of a subchunk that is absent.
pub const ABSENT: u64 = u64::MAX;

/// Bytes, or a refusal.
pub type Wanted = Result<&'static [u8], CodecError>;

/// The slices of an object, and the numbers of its index.
#[derive(Clone, Copy)]
pub struct Stored {
    pub slices: &'static [u8],
    pub index: [u64; 4],
}

/// An object that nobody wrote as a shard, and the answers that are owed to whoever takes it for one.
#[derive(Clone, Copy)]
pub struct HostileObject {
    pub name: &'static str,
    /// Whether the index is at the start.
    pub at_start: bool,
    pub stored: Stored,
    /// The four elements.
    pub elements: Wanted,
    /// The elements of each subchunk.
    pub halves: [Wanted; 2],
    /// The elements 3, 0 and 3.
    pub listed: Wanted,
    /// The slice of each subchunk, which lies where the index says.
    pub slices: [Wanted; 2],
    /// Why it is not opened for writing.
    pub unopened: Option<CodecError>,
    /// The object without what no subchunk needs, or that there is nothing of it.
    pub compacted: Result<Option<Stored>, CodecError>,
}

const BAD_0: CodecError = CodecError::BadIndexEntry { number: 0 };

const BAD_1: CodecError = CodecError::BadIndexEntry { number: 1 };

const SECOND_BAD: [Wanted; 2] = [Ok(&[5, 6]), Err(BAD_1)];

const HOSTILE_OBJECTS: [HostileObject; 8] = [
    HostileObject {
        name: "the second entry is half absent",
        at_start: false,
        stored: Stored {
            slices: &[5, 6],
            index: [0, 2, ABSENT, 5],
        },
        elements: Err(BAD_1),
        halves: SECOND_BAD,
        listed: Err(BAD_1),
        slices: SECOND_BAD,
        unopened: Some(BAD_1),
        compacted: Err(BAD_1),
    },
    HostileObject {
        name: "the second slice passes 64 bits",
        at_start: false,
        stored: Stored {
            slices: &[5, 6],
            index: [0, 2, ABSENT - 1, 2],
        },
        elements: Err(BAD_1),
        halves: SECOND_BAD,
        listed: Err(BAD_1),
        slices: SECOND_BAD,
        unopened: Some(BAD_1),
        compacted: Err(BAD_1),
    },
    HostileObject {
        name: "the second entry has an offset alone",
        at_start: false,
        stored: Stored {
            slices: &[5, 6],
            index: [0, 2, 1, ABSENT],
        },
        elements: Err(BAD_1),
        halves: SECOND_BAD,
        listed: Err(BAD_1),
        slices: SECOND_BAD,
        unopened: Some(BAD_1),
        compacted: Err(BAD_1),
    },
    HostileObject {
        name: "two subchunks have one slice",
        at_start: false,
        stored: Stored {
            slices: &[5, 6],
            index: [0, 2, 0, 2],
        },
        elements: Ok(&[5, 6, 5, 6]),
        halves: [Ok(&[5, 6]), Ok(&[5, 6])],
        listed: Ok(&[6, 5, 6]),
        slices: [Ok(&[5, 6]), Ok(&[5, 6])],
        unopened: None,
        compacted: Ok(Some(Stored {
            slices: &[5, 6, 5, 6],
            index: [0, 2, 2, 2],
        })),
    },
    HostileObject {
        name: "the second slice lies in the index",
        at_start: false,
        stored: Stored {
            slices: &[5, 6],
            index: [0, 2, 2, 2],
        },
        elements: Ok(&[5, 6, 0, 0]),
        halves: [Ok(&[5, 6]), Ok(&[0, 0])],
        listed: Ok(&[0, 5, 0]),
        slices: [Ok(&[5, 6]), Ok(&[0, 0])],
        unopened: Some(BAD_1),
        compacted: Ok(Some(Stored {
            slices: &[5, 6, 0, 0],
            index: [0, 2, 2, 2],
        })),
    },
    HostileObject {
        name: "the second slice is empty, at the end",
        at_start: false,
        stored: Stored {
            slices: &[5, 6],
            index: [0, 2, 34, 0],
        },
        elements: Err(CodecError::Damaged),
        halves: [Ok(&[5, 6]), Err(CodecError::Damaged)],
        listed: Err(CodecError::Damaged),
        slices: [Ok(&[5, 6]), Ok(&[])],
        unopened: Some(BAD_1),
        compacted: Ok(None),
    },
    HostileObject {
        name: "the first slice lies in an index at the start",
        at_start: true,
        stored: Stored {
            slices: &[5, 6],
            index: [0, 2, 32, 2],
        },
        elements: Ok(&[0, 0, 5, 6]),
        halves: [Ok(&[0, 0]), Ok(&[5, 6])],
        listed: Ok(&[6, 0, 6]),
        slices: [Ok(&[0, 0]), Ok(&[5, 6])],
        unopened: Some(BAD_0),
        compacted: Ok(Some(Stored {
            slices: &[0, 0, 5, 6],
            index: [32, 2, 34, 2],
        })),
    },
    // The shard of 0, 7, 0, 0 without its last byte.
    HostileObject {
        name: "the last byte is missing",
        at_start: false,
        stored: Stored {
            slices: &[0],
            index: [7, 512, ABSENT - 255, ABSENT],
        },
        elements: Err(BAD_0),
        halves: [Err(BAD_0), Err(BAD_1)],
        listed: Err(BAD_0),
        slices: [Err(BAD_0), Err(BAD_1)],
        unopened: Some(BAD_0),
        compacted: Err(BAD_0),
    },
];

/// The objects. The table itself is private: a test that names it is proved over each of its values, and one that calls this is not.
pub fn hostile_table() -> [HostileObject; 8] {
    HOSTILE_OBJECTS
}

/// An object of these slices, and of an index of these numbers before or after them.
pub fn object_of(
    alloc: Global,
    at_start: bool,
    slices: &[u8],
    index: &[u64],
) -> Result<Vec<u8>, AllocError> {
    let mut numbers: Vec<u8> = Vec::new(alloc);
    for number in index {
        numbers.extend_from_slice(&number.to_le_bytes())?;
    }
    let (first, last) = if at_start {
        (numbers.as_slice(), slices)
    } else {
        (slices, numbers.as_slice())
    };
    let mut object = first.to_vec(alloc)?;
    object.extend_from_slice(last)?;
    Ok(object)
}

impl Stored {
    /// The bytes of the object, whose index is at the start or at the end.
    pub fn object(&self, alloc: Global, at_start: bool) -> Result<Vec<u8>, AllocError> {
        object_of(alloc, at_start, self.slices, &self.index)
    }
}

impl HostileObject {
    /// Its bytes.
    pub fn object(&self, alloc: Global) -> Result<Vec<u8>, AllocError> {
        self.stored.object(alloc, self.at_start)
    }
}
