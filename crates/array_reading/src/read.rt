// The elements of a subset of an array.
use crate::sound::put_sound;
use array_cli::{
    Array, Ending, GridShard, OpenShard, Place, Progress, Shard, ShardFile, Stop, shard_of_grid,
    shards_of,
};
use array_grid::{ShardGrid, ShardPart, ShardParts, SubsetElements, shared_elements};
use parts_arrays::ArrayBytes;
use parts_errors::CodecError;
use parts_row_major::unravel_index;
use parts_subsets::ArraySubset;

// What is read so far.
#[derive(Drop)]
struct Answer {
    // the elements of the subset, once a part is read
    cells: Option<SubsetElements>,
    // whether what is refused is filled
    fills: bool,
    // whether something was
    is_filled: bool,
}

impl Answer {
    // Nothing is read so far.
    fn new(fills: bool) -> Self {
        Answer {
            cells: None,
            fills,
            is_filled: false,
        }
    }
}

// The cells of a subset as they are held, or fill values where none are.
fn held_cells(
    array: &Array<'_>,
    requested: &ArraySubset,
    held: Option<SubsetElements>,
) -> Result<SubsetElements, CodecError> {
    let (alloc, metadata) = (array.alloc(), array.metadata);
    match held {
        Some(held) => Ok(held),
        None => SubsetElements::new(alloc, requested, &metadata.data_type, &metadata.fill_value),
    }
}

// Has the cells of a subset held: fill values where none are.
fn hold_cells(
    array: &Array<'_>,
    requested: &ArraySubset,
    cells: &mut Option<SubsetElements>,
) -> Result<(), CodecError> {
    if cells.is_none() {
        *cells = Some(held_cells(array, requested, None)?);
    }
    Ok(())
}

// Puts the cells of a part into those of a subset, for which memory is asked with the first part.
fn put_shard_part(
    array: &Array<'_>,
    requested: &ArraySubset,
    part: &ShardPart,
    found: &ArrayBytes,
    cells: &mut Option<SubsetElements>,
) -> Result<(), CodecError> {
    hold_cells(array, requested, cells)?;
    match cells {
        Some(held) => held.put(&part.in_subset, found),
        None => Ok(()),
    }
}

// Whether a subchunk of a shard that is open does not decode.
fn is_refused<'a>(array: &Array<'a>, opened: &mut OpenShard<'a>, subchunk: &[u64]) -> bool {
    let read = opened.test_subchunk(array.alloc(), array.metadata, subchunk);
    matches!(read, Err(CodecError::Damaged))
}

// Whether a subchunk of a shard that is open has elements of a part of a subset, and does not decode.
fn is_damaged<'a>(
    array: &Array<'a>,
    part: &ShardPart,
    opened: &mut OpenShard<'a>,
    number: u64,
) -> Result<bool, CodecError> {
    let (alloc, shape) = (array.alloc(), array.metadata.subchunk.as_slice());
    match unravel_index(alloc, number, array.subchunks.as_slice())? {
        Some(subchunk) => {
            let shared = shared_elements(alloc, part, &subchunk, shape)?;
            Ok(shared.is_some() && is_refused(array, opened, &subchunk))
        }
        None => Ok(false),
    }
}

// Where a refusal of a read of a part of a subset lies, of a shard that is open: the lowest subchunk that does not decode.
fn place_of<'a>(
    array: &Array<'a>,
    part: &ShardPart,
    opened: &mut OpenShard<'a>,
    error: CodecError,
) -> Result<Place, CodecError> {
    if error != CodecError::Damaged {
        return Ok(Place::reading(&error));
    }
    for number in 0..array.subchunks.num_elements().unwrap_or(0) {
        if is_damaged(array, part, opened, number)? {
            return Ok(Place::Subchunk(number));
        }
    }
    Ok(Place::Shard)
}

// Closes a shard of which a part of a subset was read. Why the command stops, with its place, where that was refused.
fn closed<'a, T>(
    array: &Array<'a>,
    part: &ShardPart,
    shard: &Shard<'_>,
    mut opened: OpenShard<'a>,
    read: Result<T, CodecError>,
) -> Result<T, Stop> {
    let error = match read {
        Ok(found) => {
            let _ = opened.close();
            return Ok(found);
        }
        Err(error) => error,
    };
    let place = match place_of(array, part, &mut opened, error) {
        Ok(place) => place,
        Err(_) => Place::reading(&error),
    };
    Err(array.stop(shard, &opened.close(), error, place))
}

// The file of the shard in which a part of a subset lies.
fn file_of<'a>(
    array: &Array<'a>,
    part: &ShardPart,
    shard: &Shard<'_>,
) -> Result<ShardFile<'a>, Stop> {
    if part.in_shard.shape() == array.metadata.shard.as_slice() {
        array.whole_file(shard.key)
    } else {
        array.file(shard.key)
    }
}

// Reads a part of a subset, which lies in a shard.
fn read_shard<'a, 'e>(
    array: &Array<'a>,
    part: &ShardPart,
    shard: &Shard<'_>,
) -> Result<ArrayBytes<'e>, Stop> {
    let mut opened = array.opened(shard, file_of(array, part, shard)?)?;
    let read = opened.read_subset(array.alloc(), array.metadata, &part.in_shard);
    closed(array, part, shard, opened, read)
}

// Reads a part of a subset, which lies in a shard; `None` where it is refused and is to be filled.
fn read_or_fill<'a, 'e>(
    array: &Array<'a>,
    part: &ShardPart,
    shard: &Shard<'_>,
    fills: bool,
) -> Result<Option<ArrayBytes<'e>>, Stop> {
    match read_shard(array, part, shard) {
        Ok(found) => Ok(Some(found)),
        Err(Stop::Refused(_)) if fills => Ok(None),
        Err(stop) => Err(stop),
    }
}

// A part of a subset, the shard in which it lies, and its elements; `None` where these are refused and are to be filled.
#[derive(Drop)]
struct PartRead<'e> {
    part: ShardPart,
    shard: GridShard,
    found: Option<ArrayBytes<'e>>,
}

// Reads a part of a subset.
fn read_part<'a, 'e>(
    array: &Array<'a>,
    grid: &ShardGrid,
    part: ShardPart,
    fills: bool,
) -> Result<PartRead<'e>, Stop> {
    let shard = shard_of_grid(array, grid, part.shard)?;
    let found = read_or_fill(array, &part, &shard.shard(), fills)?;
    Ok(PartRead { part, shard, found })
}

// Reads the part of a subset with this number, which is to be filled where it is refused, if `fills`; nothing past the last one.
fn read_numbered<'a, 'e>(
    array: &Array<'a>,
    grid: &ShardGrid,
    parts: &ShardParts,
    number: u64,
    fills: bool,
) -> Result<Option<PartRead<'e>>, Stop> {
    match parts.part(array.alloc(), number)? {
        Some(part) => Ok(Some(read_part(array, grid, part, fills)?)),
        None => Ok(None),
    }
}

// Reads what is sound of a part of a subset that is refused, where the rest is to be filled.
fn fill_part(
    array: &Array<'_>,
    requested: &ArraySubset,
    part: &ShardPart,
    shard: &Shard<'_>,
    answer: &mut Answer,
    progress: &mut Progress,
) -> Result<(), Stop> {
    hold_cells(array, requested, &mut answer.cells)?;
    answer.is_filled = true;
    match &mut answer.cells {
        Some(held) => put_sound(array, part, shard, held, progress),
        None => Ok(()),
    }
}

// Puts a part that was read into the answer.
fn put_read(
    array: &Array<'_>,
    requested: &ArraySubset,
    read: &PartRead<'_>,
    answer: &mut Answer,
    progress: &mut Progress,
) -> Result<(), Stop> {
    let part = &read.part;
    match &read.found {
        Some(found) => Ok(put_shard_part(array, requested, part, found, &mut answer.cells)?),
        None => fill_part(
            array,
            requested,
            part,
            &read.shard.shard(),
            answer,
            progress,
        ),
    }
}

// Reads the part of a subset with a number into the answer.
fn read_next(
    array: &Array<'_>,
    requested: &ArraySubset,
    grid: &ShardGrid,
    parts: &ShardParts,
    number: u64,
    answer: &mut Answer,
    progress: &mut Progress,
) -> Result<(), Stop> {
    match read_numbered(array, grid, parts, number, answer.fills)? {
        Some(read) => put_read(array, requested, &read, answer, progress),
        None => Ok(()),
    }
}

// Reads the elements of the parts of a subset.
fn read_parts(
    array: &Array<'_>,
    requested: &ArraySubset,
    grid: &ShardGrid,
    parts: &ShardParts,
    answer: &mut Answer,
    progress: &mut Progress,
) -> Result<(), Stop> {
    for number in 0..parts.len() {
        progress.step(number, parts.len());
        read_next(array, requested, grid, parts, number, answer, progress)?;
    }
    Ok(())
}

// The elements of a subset that are read, or fill values where none are, and how the command ends.
fn ended(
    array: &Array<'_>,
    requested: &ArraySubset,
    answer: Answer,
) -> Result<(SubsetElements, Ending), Stop> {
    let ending = if answer.is_filled {
        Ending::Refused
    } else {
        Ending::Done
    };
    Ok((held_cells(array, requested, answer.cells)?, ending))
}

// The elements of a subset of an array whose shards lie in a grid, and how the command ends.
fn read_in_grid(
    array: &Array<'_>,
    requested: &ArraySubset,
    grid: &ShardGrid,
    fills: bool,
    progress: &mut Progress,
) -> Result<(SubsetElements, Ending), Stop> {
    let parts = grid.parts(array.alloc(), requested)?;
    let mut answer = Answer::new(fills);
    read_parts(array, requested, grid, &parts, &mut answer, progress)?;
    ended(array, requested, answer)
}

/// The elements of a subset, from each shard that it overlaps, and fill values of those that are absent. Memory for them is
/// allocated once a part is read, so that a subset in one shard takes less. Where `fills` is true, what is refused has fill values too,
/// the messages say which shards and subchunks that are, and the command ends as `Ending::Refused`.
pub fn read_array(
    array: &Array<'_>,
    requested: &ArraySubset,
    fills: bool,
    progress: &mut Progress,
) -> Result<(SubsetElements, Ending), Stop> {
    let grid = shards_of(array)?;
    read_in_grid(array, requested, &grid, fills, progress)
}
