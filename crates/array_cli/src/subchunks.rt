// Whether a subchunk is sound.
use crate::arrays::Array;
use crate::open_shard::OpenShard;
use parts_errors::CodecError;
use parts_row_major::unravel_index;

/// Reads a subchunk of a shard, or looks it up in the index alone, and says whether it is present.
pub fn check_subchunk(
    array: &Array<'_>,
    is_index_alone: bool,
    opened: &mut OpenShard<'_>,
    number: u64,
) -> Result<bool, CodecError> {
    let alloc = array.alloc();
    match unravel_index(alloc, number, array.subchunks.as_slice())? {
        Some(subchunk) if is_index_alone => Ok(opened.byte_range(&subchunk)?.is_some()),
        Some(subchunk) => opened.test_subchunk(alloc, array.metadata, &subchunk),
        None => Ok(false),
    }
}
