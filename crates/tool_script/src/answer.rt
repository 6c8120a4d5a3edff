// What commands answer.
use zarr_parts::ArrayBytes;

/// What a command answers.
#[derive(Drop)]
pub enum Answer<'a> {
    /// It was done.
    Done,
    /// It was done, and the object has so many bytes; `None` where there is none.
    Stored(Option<usize>),
    /// The object was compacted to so many bytes; `None` where it stayed.
    Compacted(Option<usize>),
    /// There is no object.
    NoObject,
    /// The numbers of the object's index.
    Index(Vec<u64>),
    /// Elements: whole numbers, their least significant byte first, or bytes.
    Cells(ArrayBytes<'a>),
    /// The object's bytes.
    Object(&'a [u8]),
}

/// What became of a command.
#[derive(Clone, Copy)]
pub enum Outcome {
    /// It was answered.
    Answered,
    /// It was refused.
    Refused,
}
