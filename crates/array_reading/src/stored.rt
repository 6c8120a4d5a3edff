// The elements of a subset of an array, by the array over the store of its files.
use crate::read::read_array;
use array_cli::{Array, Progress, Stop};
use array_grid::{SubsetCells, SubsetElements};
use array_metadata::ArrayCodec;
use array_store::{ArrayError, FileStore};
use parts_subsets::ArraySubset;
use std::alloc::AllocError;

/// An array over a store whose objects are its files.
pub type ArrayOfFiles<'a> = array_store::Array<'a, FileStore<'a, HostRuntime>, ArrayCodec>;

/// The array over the store of its files.
pub fn files_of<'a>(array: &Array<'a>) -> Result<ArrayOfFiles<'a>, AllocError> {
    let store = FileStore::new(array.alloc(), array.rt, array.path)?;
    Ok(array_store::Array::of(store, array.metadata))
}

/// The elements of a subset as `read_array` gives them, where nothing is refused and nothing shows how far it is.
pub fn read_silently(array: &Array<'_>, requested: &ArraySubset) -> Result<SubsetElements, Stop> {
    let (elements, _) = read_array(array, requested, false, &mut Progress::silent())?;
    Ok(elements)
}

/// Why the elements of a subset are refused, which the array over the store of its files refuses: as `read_array` refuses them, with the
/// shard and the subchunk.
pub fn why_refused(array: &Array<'_>, requested: &ArraySubset, error: ArrayError) -> Stop {
    match read_silently(array, requested) {
        Err(stop) => stop,
        Ok(_) => match error {
            ArrayError::Whole(error) => error.into(),
            ArrayError::Chunk { error, .. } => error.into(),
        },
    }
}

/// Reads the elements of a subset, which have one size, into cells that are there: they become those of the subset, in their memory as far as
/// it reaches. Refused as `read_array` refuses; the cells are then any.
pub fn read_into_cells(
    array: &Array<'_>,
    requested: &ArraySubset,
    cells: &mut SubsetCells,
) -> Result<(), Stop> {
    match files_of(array)?.read_into(array.alloc(), requested, cells) {
        Ok(()) => Ok(()),
        Err(error) => Err(why_refused(array, requested, error)),
    }
}
