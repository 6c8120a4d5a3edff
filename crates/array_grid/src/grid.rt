// The shards that an array is cut into. Those at the edge may reach beyond its shape.
ghost use Rattle.std.specs.Prelude.{◌≡◌, ◌^◌, ◌<◌, IsTrue, ◌↔◌, IfOk, IfErr, OnOk, SomeIff, MatchOption, length};
ghost use Rattle.std.specs.List.{All};
ghost use Rattle.parts_errors.specs.Order.{RefusedBy, done};
ghost use Rattle.parts_row_major.specs.Numbering.{AllPositive, count_of, point_of, HasPoint};
ghost use Rattle.parts_subsets.specs.Grid.{grid_of};
ghost use Rattle.sharding_plans.specs.Chunks.{whole_chunks};
ghost use Rattle.array_grid.specs.Shards.{ShardingRefusals};

use parts_errors::CodecError;
use parts_row_major::unravel_index;
use parts_subsets::{Axes, ChunkShape};
use sharding_format::calculate_chunks_per_shard;
use sharding_plans::whole_axes;
use std::alloc::{AllocError, Global};
use std::marker::Model;

/// The shards of an array of a regular chunk grid (Zarr V3 core, "Regular grids"), numbered in row-major order of the grid.
/// Along an axis there are as many as hold all its cells, so that those at the edge may reach beyond the shape; an array
/// without cells has none.
pub struct ShardGrid {
    pub(crate) shape: Vec<u64>,
    pub(crate) shard: ChunkShape,
    // the shape, rounded up to whole shards
    pub(crate) whole: ChunkShape,
    // how many shards there are along each axis
    pub(crate) grid: ChunkShape,
    len: u64,
}

impl Drop for ShardGrid {
    fn drop(self) {
        let ShardGrid {
            shape: _,
            shard: _,
            whole: _,
            grid: _,
            len: _,
        } = self;
    }
}

impl Model for ShardGrid {
    ghost use Rattle.array_grid.specs.Shards.{ShardedArray, IsSharded};

    // the shapes of the array and of a shard
    ghost Value = { ShardedArray };

    ghost view = { λ grid. record { shape = grid.shape.items; shard = grid.shard } };

    ghost invariant = { λ grid. IsSharded grid.shape.items grid.shard grid.whole grid.grid grid.len };
}

// Whether an array of a shape has cells.
fn has_cells(shape: &[u64]) -> bool
    ensures { IsTrue result ↔ AllPositive shape.now }
{
    shape.iter().all(|axis| *axis > 0)
}

impl ShardGrid {
    /// The shards of an array of a shape, of which no axis need be divided evenly. Refused, in this order, as
    /// `IncompatibleDimensionality` where the numbers of axes differ, and as `TooLarge` where the cells of all shards are
    /// more than `u64::MAX`; or as `OutOfMemory`.
    pub fn new(alloc: Global, shape: &[u64], shard: &ChunkShape) -> Result<Self, CodecError>
        ensures grid { IfOk result (λ grid. grid ≡ record { shape = shape.now; shard = shard.now }) }
        ensures served { OnOk result ((length shape.now ≡ length shard.now) × (count_of (whole_chunks shape.now shard.now) < 2 ^ 64)) }
        ensures axes { OnOk result (All (λ axis. axis < 2 ^ 64) (whole_chunks shape.now shard.now)) }
        ensures refused { IfErr result (RefusedBy (ShardingRefusals shape.now shard.now)) }
    {
        let whole = ChunkShape::from_positive(whole_axes(alloc, shape, shard.as_slice())?);
        let Some(_cells) = whole.num_elements() else {
            return Err(CodecError::TooLarge);
        };
        let grid = calculate_chunks_per_shard(alloc, &whole, shard)?;
        let Some(count) = grid.num_elements() else {
            unreachable!()
        };
        let len = if has_cells(shape) { count } else { 0 };
        Ok(ShardGrid {
            shape: Vec::from_slice(alloc, shape)?,
            shard: shard.try_clone(alloc)?,
            whole,
            grid,
            len,
        })
    }

    /// How many shards there are.
    pub fn len(&self) -> u64
        ensures some { AllPositive self.now.shape → result ≡ count_of (grid_of (whole_chunks self.now.shape self.now.shard) self.now.shard) }
        ensures none { ¬ AllPositive self.now.shape → result ≡ 0 }
    {
        self.len
    }

    /// The coordinates of a shard in the grid, of which its key is made (Zarr V3 core, "Chunk key encoding"); `None` past the
    /// last one. In an array without cells an axis that has none counts as one that a single shard holds. Refused only as out of memory.
    pub fn coordinates(&self, alloc: Global, number: u64) -> Result<Option<Vec<u64>>, AllocError>
        ensures { let grid = grid_of (whole_chunks self.now.shape self.now.shard) self.now.shard in
            IfOk result (λ found. MatchOption found (¬ HasPoint number grid) (λ point. HasPoint number grid × (point.items ≡ point_of number grid))) }
    {
        unravel_index(alloc, number, self.grid.as_slice())
    }
}
