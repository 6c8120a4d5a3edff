// What is sound of a part of a subset, where its shard or a subchunk is refused.
use array_cli::{Array, OpenShard, Place, Progress, Refusal, Shard, Stop};
use array_grid::{ShardPart, SharedElements, SubsetElements, shared_elements};
use parts_errors::CodecError;
use parts_row_major::unravel_index;
use std::alloc::AllocError;

// Puts what a subchunk of a shard that is open has of a part of a subset, and says whether it is sound. Refused where it could not be
// read.
fn put_subchunk<'a>(
    array: &Array<'a>,
    part: &ShardPart,
    opened: &mut OpenShard<'a>,
    subchunk: &[u64],
    cells: &mut SubsetElements,
) -> Result<Option<CodecError>, CodecError> {
    let shape = array.metadata.subchunk.as_slice();
    match shared_elements(array.alloc(), part, subchunk, shape)? {
        Some(shared) => put_shared(array, &shared, opened, cells),
        None => Ok(None),
    }
}

// Puts elements that a subchunk of a shard that is open shares with a subset, as `put_subchunk` says.
fn put_shared<'a>(
    array: &Array<'a>,
    shared: &SharedElements,
    opened: &mut OpenShard<'a>,
    cells: &mut SubsetElements,
) -> Result<Option<CodecError>, CodecError> {
    match opened.read_subset(array.alloc(), array.metadata, &shared.in_shard) {
        Ok(found) => {
            cells.put(&shared.in_subset, &found)?;
            Ok(None)
        }
        Err(error) if matches!(error, CodecError::Fault | CodecError::OutOfMemory) => Err(error),
        Err(error) => Ok(Some(error)),
    }
}

// Tells on a line that elements are filled, since something is refused.
fn tell_filled(progress: &mut Progress, refusal: &Refusal) {
    progress.tell_filled(&refusal.key, &refusal.reason());
}

// Tells that the elements of a subchunk are filled, since it is refused.
fn tell_refused(
    array: &Array<'_>,
    shard: &Shard<'_>,
    error: CodecError,
    number: u64,
    progress: &mut Progress,
) -> Result<(), AllocError> {
    let refusal = array.refusal_at(shard, error, Place::Subchunk(number))?;
    tell_filled(progress, &refusal);
    Ok(())
}

// Puts what the subchunk with a number has of a part of a subset, as `put_subchunk` does.
fn put_numbered<'a>(
    array: &Array<'a>,
    part: &ShardPart,
    opened: &mut OpenShard<'a>,
    number: u64,
    cells: &mut SubsetElements,
) -> Result<Option<CodecError>, CodecError> {
    match unravel_index(array.alloc(), number, array.subchunks.as_slice())? {
        Some(subchunk) => put_subchunk(array, part, opened, &subchunk, cells),
        None => Ok(None),
    }
}

// Puts what each subchunk of a shard that is open has of a part of a subset, and tells which ones are refused.
fn put_each<'a>(
    array: &Array<'a>,
    part: &ShardPart,
    shard: &Shard<'_>,
    opened: &mut OpenShard<'a>,
    cells: &mut SubsetElements,
    progress: &mut Progress,
) -> Result<(), Stop> {
    for number in 0..array.subchunks.num_elements().unwrap_or(0) {
        if let Some(error) = put_numbered(array, part, opened, number, cells)? {
            tell_refused(array, shard, error, number, progress)?;
        }
    }
    Ok(())
}

/// Puts the sound elements of a part of a subset, of which a shard or a subchunk is refused, and leaves the others as they are; tells
/// which ones these are.
pub fn put_sound(
    array: &Array<'_>,
    part: &ShardPart,
    shard: &Shard<'_>,
    cells: &mut SubsetElements,
    progress: &mut Progress,
) -> Result<(), Stop> {
    match array.open_shard(shard, array.file(shard.key)?)? {
        Ok(mut opened) => {
            let put = put_each(array, part, shard, &mut opened, cells, progress);
            let _ = opened.close();
            put
        }
        Err(refusal) => {
            tell_filled(progress, &refusal);
            Ok(())
        }
    }
}
