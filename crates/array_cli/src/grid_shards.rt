// The shards of an array's grid, and subsets that are whole.
ghost use Rattle.std.specs.Prelude.{◌≡◌, ◌<◌, ◌*◌, IfOk, MatchOption};
ghost use Rattle.array_cli.specs.ChunkParts.{IsBehind, IsClipped, LiesInChunk};
ghost use Rattle.array_cli.specs.Padded.{at_start};

use crate::arrays::{Array, Shard};
use crate::stop::Stop;
use array_grid::{ShardGrid, SubsetCells};
use array_metadata::ArrayMetadata;
use parts_errors::CodecError;
use parts_subsets::{ArraySubset, ChunkShape};
use std::alloc::{AllocError, Global};

/// The subset of an array of a shape that is all of it.
pub fn whole_of(alloc: Global, shape: &[u64]) -> Result<ArraySubset, AllocError>
    ensures { IfOk result (λ whole. whole ≡ at_start shape.now) }
{
    ArraySubset::new_with_shape(alloc, Vec::from_slice(alloc, shape)?)
}

/// The elements of a chunk of an array with this metadata, each of which is the fill value.
pub fn chunk_of_fill_values(
    alloc: Global,
    metadata: &ArrayMetadata,
) -> Result<SubsetCells, CodecError> {
    let whole = whole_of(alloc, metadata.shard.as_slice())?;
    SubsetCells::new(alloc, &whole, &metadata.fill_value)
}

// Along an axis: where the chunk with a coordinate begins whose size this is, and how many of its elements an array has that ends there.
// `None` where it begins behind that end.
fn clipped(coordinate: u64, size: u64, end: u64) -> Option<(u64, u64)>
    ensures { MatchOption result (end < coordinate * size) (λ found. IsClipped coordinate size end found.0 found.1) }
{
    let start = coordinate.checked_mul(size)?;
    let left = end.checked_sub(start)?;
    Some((start, if left < size { left } else { size }))
}

/// The part of an array of a shape that lies in the chunk at some coordinates of the chunk grid: it begins where the chunk does, and ends where
/// the chunk does or the array, whichever comes first (Zarr V3 core, "Regular grids"). `None` where the chunk begins behind the end of
/// the array, or has other axes.
pub fn elements_of(
    alloc: Global,
    coordinates: &[u64],
    chunk: &ChunkShape,
    shape: &[u64],
) -> Result<Option<ArraySubset>, AllocError>
    ensures { IfOk result (λ found. MatchOption found (IsBehind coordinates.now chunk.now shape.now) (LiesInChunk coordinates.now chunk.now shape.now)) }
{
    let sizes = chunk.as_slice();
    if coordinates.len() != shape.len() || sizes.len() != shape.len() {
        return Ok(None);
    }
    let (mut starts, mut counts) = (Vec::new(alloc), Vec::new(alloc));
    for axis in 0..shape.len() {
        let Some((start, count)) = clipped(coordinates[axis], sizes[axis], shape[axis]) else {
            return Ok(None);
        };
        starts.push(start)?;
        counts.push(count)?;
    }
    let Some(part) = ArraySubset::new_with_start_shape(starts, counts) else {
        unreachable!()
    };
    Ok(Some(part))
}

/// A shard of a grid: its key and its coordinates.
#[derive(Drop)]
pub struct GridShard {
    pub key: String,
    coordinates: Vec<u64>,
}

impl GridShard {
    /// The shard.
    pub fn shard(&self) -> Shard<'_> {
        Shard {
            key: &self.key,
            coordinates: &self.coordinates,
        }
    }
}

/// The shard of a grid with this number. Refused as `OutOfBounds` where it has none.
pub fn shard_of_grid(array: &Array<'_>, grid: &ShardGrid, number: u64) -> Result<GridShard, Stop> {
    let Some(coordinates) = grid.coordinates(array.alloc(), number)? else {
        return Err(CodecError::OutOfBounds.into());
    };
    let key = array.metadata.keys.key_of(array.alloc(), &coordinates)?;
    Ok(GridShard { key, coordinates })
}

/// The shards of an array whose elements have numbers. Refused as `Stop::TooManyElements` where they have not.
pub fn shards_of(array: &Array<'_>) -> Result<ShardGrid, Stop> {
    match ShardGrid::new(array.alloc(), &array.metadata.shape, &array.metadata.shard) {
        Ok(grid) => Ok(grid),
        Err(CodecError::TooLarge) => Err(Stop::TooManyElements),
        Err(error) => Err(error.into()),
    }
}
