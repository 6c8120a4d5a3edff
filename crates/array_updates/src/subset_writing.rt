// Elements that are written into an array.
use crate::elements::{ElementsFile, elements_of_file};
use array_cli::{
    Array, Ending, OpenShard, Output, Place, Progress, Shard, Stop, chunk_of_fill_values,
    elements_of, shard_of_grid, shards_of, turned, whole_of, written,
};
use array_folder::{Counted, save};
use array_grid::{Requested, ShardGrid, ShardPart, ShardParts, SubsetCells, subset_of};
use array_metadata::ArrayMetadata;
use parts_arrays::ArrayBytes;
use parts_errors::CodecError;
use parts_subsets::ArraySubset;
use std::alloc::{AllocError, Global};
use std::borrow::CowSlice;
use std::fs;
use std::io::{ErrorKind, Write};
use storage_files::path_beside;

// The elements that are written, and the subset that they are.
#[derive(Clone, Copy)]
struct Update<'u> {
    subset: &'u ArraySubset,
    elements: &'u ArrayBytes<'u>,
}

// Puts all elements of a shard that is open into cells of its shape.
fn put_all(
    alloc: Global,
    metadata: &ArrayMetadata,
    opened: &mut OpenShard<'_>,
    whole: &ArraySubset,
    cells: &mut SubsetCells,
) -> Result<(), CodecError> {
    let elements = opened.read_subset(alloc, metadata, whole)?;
    cells.put(whole, &elements)
}

// Puts all elements of a shard into cells of its shape.
fn put_shard(
    array: &Array<'_>,
    shard: &Shard<'_>,
    whole: &ArraySubset,
    cells: &mut SubsetCells,
) -> Result<(), Stop> {
    let mut opened = array.opened(shard, array.file(shard.key)?)?;
    let put = put_all(array.alloc(), array.metadata, &mut opened, whole, cells);
    let file = opened.close();
    match put {
        Ok(()) => Ok(()),
        Err(error) => Err(array.stop(shard, &file, error, Place::reading(&error))),
    }
}

// Whether a part of a shard is all that the shard has of the array.
fn is_whole(array: &Array<'_>, shard: &Shard<'_>, part: &ShardPart) -> Result<bool, AllocError> {
    let metadata = array.metadata;
    let found = elements_of(
        array.alloc(),
        shard.coordinates,
        &metadata.shard,
        &metadata.shape,
    )?;
    match found {
        Some(elements) => Ok(elements.shape() == part.in_shard.shape()),
        None => Ok(false),
    }
}

// Puts the elements of a shard, of which a part is to be written, where another element of the array stays.
fn put_old(
    array: &Array<'_>,
    shard: &Shard<'_>,
    part: &ShardPart,
    cells: &mut SubsetCells,
) -> Result<(), Stop> {
    if is_whole(array, shard, part)? {
        return Ok(());
    }
    let whole = whole_of(array.alloc(), array.metadata.shard.as_slice())?;
    put_shard(array, shard, &whole, cells)
}

// The elements of a shard, of which a part is to be written: as they are, or fill values where no other element of the array stays.
fn old_cells(array: &Array<'_>, shard: &Shard<'_>, part: &ShardPart) -> Result<SubsetCells, Stop> {
    let mut cells = chunk_of_fill_values(array.alloc(), array.metadata)?;
    put_old(array, shard, part, &mut cells)?;
    Ok(cells)
}

// Puts the part of an update that lies in a shard into the shard's elements.
fn put_update(
    alloc: Global,
    metadata: &ArrayMetadata,
    part: &ShardPart,
    update: &Update<'_>,
    cells: &mut SubsetCells,
) -> Result<(), CodecError> {
    let elements = update.elements.extract_array_subset(
        alloc,
        &part.in_subset,
        update.subset.shape(),
        &metadata.data_type,
    )?;
    cells.put(&part.in_shard, &elements)
}

// The bytes of a shard of these elements; `None` where each of them is the fill value.
fn encoded(array: &Array<'_>, cells: &SubsetCells) -> Result<Option<Vec<u8>>, CodecError> {
    let size = array.metadata.fill_value.as_ne_bytes().len();
    match ArrayBytes::new_flen(CowSlice::Borrowed(cells.bytes()), size) {
        Some(elements) => array.codec.encode(array.alloc(), &elements, array.metadata),
        None => Err(CodecError::WrongElementKind),
    }
}

// The bytes of a shard of which a part is written; `None` where each of its elements is the fill value then.
fn new_shard(
    array: &Array<'_>,
    shard: &Shard<'_>,
    part: &ShardPart,
    update: &Update<'_>,
) -> Result<Option<Vec<u8>>, Stop> {
    let mut cells = old_cells(array, shard, part)?;
    put_update(array.alloc(), array.metadata, part, update, &mut cells)?;
    Ok(encoded(array, &cells)?)
}

// Removes the file at a path, if it is there.
fn remove(rt: &HostRuntime, path: &str) -> Result<(), Stop> {
    match fs::remove_file(rt, path) {
        Ok(()) => Ok(()),
        Err(error) if error.kind() == ErrorKind::NotFound => Ok(()),
        Err(error) => Err(Stop::system(rt.alloc(), path, error)),
    }
}

// Puts a shard of these bytes at a path, by a new file beside it.
fn save_shard(rt: &HostRuntime, path: &str, bytes: &[u8], out: &mut Output) -> Result<(), Stop> {
    match path_beside(rt.alloc(), rt, path) {
        Ok(beside) => Ok(save(rt, path, &beside, &[], bytes, out)?),
        Err(error) => Err(Stop::system(rt.alloc(), path, error)),
    }
}

// Puts a shard of these bytes in the place of the one with a key, or removes its file where there are none. Writes a line that says it.
fn replace(
    array: &Array<'_>,
    key: &str,
    bytes: Option<&[u8]>,
    out: &mut Output,
) -> Result<(), Stop> {
    let path = array.path_of(key)?;
    // a line that nobody reads stops nothing
    let _ = match bytes {
        Some(bytes) => {
            save_shard(array.rt, &path, bytes, out)?;
            writeln!(out, "{key}: {} bytes", bytes.len())
        }
        None => {
            remove(array.rt, &path)?;
            writeln!(out, "{key}: no file: all its elements are the fill value")
        }
    };
    Ok(())
}

// Writes a part of an update into the shard in which it lies.
fn write_part(
    array: &Array<'_>,
    grid: &ShardGrid,
    part: &ShardPart,
    update: &Update<'_>,
    out: &mut Output,
) -> Result<(), Stop> {
    let shard = shard_of_grid(array, grid, part.shard)?;
    let bytes = new_shard(array, &shard.shard(), part, update)?;
    replace(array, &shard.key, bytes.as_ref().map(Vec::as_slice), out)
}

// Writes the parts of an update, one of each shard in which it lies.
fn write_parts(
    array: &Array<'_>,
    grid: &ShardGrid,
    parts: &ShardParts,
    update: &Update<'_>,
    out: &mut Output,
    progress: &mut Progress,
) -> Result<(), Stop> {
    for number in 0..parts.len() {
        progress.step(number, parts.len());
        if let Some(part) = parts.part(array.alloc(), number)? {
            progress.clear();
            write_part(array, grid, &part, update, out)?;
        }
    }
    progress.clear();
    Ok(())
}

// Writes an update into the shards of a grid in which it lies, and says how many these are.
fn write_in_grid(
    array: &Array<'_>,
    grid: &ShardGrid,
    update: &Update<'_>,
    out: &mut Output,
    progress: &mut Progress,
) -> Result<u64, Stop> {
    let parts = grid.parts(array.alloc(), update.subset)?;
    write_parts(array, grid, &parts, update, out, progress)?;
    Ok(parts.len())
}

// Writes an update into the shards of an array in which it lies, and says how many these are.
fn write_in_shards(
    array: &Array<'_>,
    update: &Update<'_>,
    out: &mut Output,
    progress: &mut Progress,
) -> Result<u64, Stop> {
    let grid = shards_of(array)?;
    write_in_grid(array, &grid, update, out, progress)
}

// Writes elements, as they are stored, into a subset of an array.
fn write_update(
    array: &Array<'_>,
    subset: &ArraySubset,
    elements: &[u8],
    out: &mut Output,
    progress: &mut Progress,
) -> Result<u64, Stop> {
    let size = array.metadata.fill_value.as_ne_bytes().len();
    match ArrayBytes::new_flen(CowSlice::Borrowed(elements), size) {
        Some(elements) => {
            let elements = &elements;
            write_in_shards(array, &Update { subset, elements }, out, progress)
        }
        None => Err(CodecError::WrongElementKind.into()),
    }
}

// Writes elements into a subset of an array, and says how many shards these lie in.
fn write_elements(
    array: &Array<'_>,
    subset: &ArraySubset,
    elements: &[u8],
    out: &mut Output,
    progress: &mut Progress,
) -> Result<u64, Stop> {
    match turned(array.alloc(), array.metadata, elements)? {
        Some(stored) => write_update(array, subset, &stored, out, progress),
        None => write_update(array, subset, elements, out, progress),
    }
}

// Writes the elements of a file into a subset of an array, and says how many shards these lie in.
fn write_file(
    array: &Array<'_>,
    requested: &Requested,
    file: ElementsFile<'_>,
    out: &mut Output,
    progress: &mut Progress,
) -> Result<u64, Stop> {
    let found = elements_of_file(array, requested, file)?;
    write_elements(array, &requested.subset, found.as_slice(), out, progress)
}

/// Writes the elements of a file into a subset of an array, which a text as `0..2,3` names, or into all of it. Each shard in which the
/// subset lies is replaced as a whole once its new file is written, in the order of the grid, or its file is removed where all of its
/// elements are the fill value then; a line tells of it. Refused, in this order, as `Stop::Metadata` where elements are not read, as
/// `Stop::Subset` where the text names no subset, as `elements_of_file` refuses, and as a shard is refused that is to keep some of its
/// elements: those before it are written then, and none behind it.
pub fn write_subset(
    array: &Array<'_>,
    requested: Option<&str>,
    file: ElementsFile<'_>,
    out: &mut Output,
    progress: &mut Progress,
) -> Result<Ending, Stop> {
    array.test_sized()?;
    let requested = subset_of(array.alloc(), requested, &array.metadata.shape)?;
    let shards = write_file(array, &requested, file, out, progress)?;
    let shards = Counted(shards, "shard");
    written(writeln!(out, "{shards} written"), Ending::Done)?;
    Ok(Ending::Done)
}
