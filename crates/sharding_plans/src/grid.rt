// A shard that is cut into subchunks.
ghost use Rattle.std.specs.Prelude.{◌≡◌, ◌↔◌, ◌+◌, ◌*◌, ◌^◌, ◌<◌, IsTrue, IfOk, IfErr, OnOk, length};
ghost use Rattle.parts_errors.specs.Order.{RefusedBy};
ghost use Rattle.parts_row_major.specs.Numbering.{count_of};
ghost use Rattle.parts_subsets.specs.Grid.{Divides, grid_of};
ghost use Rattle.sharding_format.specs.Index.{slot_at};
ghost use Rattle.sharding_plans.specs.ReadPlans.{CutRefusals, HasEntries, IsCutEvenly};
ghost use Rattle.sharding_plans.specs.CutLaws.{divides-prop};

use parts_errors::CodecError;
use parts_subsets::ChunkShape;
use sharding_format::{Slot, calculate_chunks_per_shard, slot_of};
use std::alloc::Global;

/// A shard whose reads and writes are planned: its shape, that of a subchunk, and the grid of the subchunks (Zarr V3 `sharding_indexed`,
/// "chunk_shape").
#[derive(Drop)]
pub struct PlannedShard {
    pub(crate) shape: ChunkShape,
    pub(crate) subchunk_shape: ChunkShape,
    pub(crate) grid: ChunkShape,
    subchunks: u64,
    ghost fits: { count_of shape < 2 ^ 64 },
    ghost divides: { Divides subchunk_shape shape } by { divides-prop subchunk_shape shape },
    ghost cut: { grid ≡ grid_of shape subchunk_shape },
    ghost counted: { subchunks ≡ count_of (grid_of shape subchunk_shape) },
    ghost index_fits: { 16 * subchunks < 2 ^ 64 },
}

/// The index of a shard of `len` bytes: two numbers for each subchunk, in row-major order, its offset and its size, both 2^64 - 1
/// where it is absent.
#[derive(Clone, Copy)]
pub struct IndexNumbers<'a> {
    pub len: u64,
    pub numbers: &'a [u64],
}

impl IndexNumbers<'_> {
    // What the entry of a subchunk says.
    #[tactic(auto, unfolding(sharding_format::specs::Index::slot_at))]
    pub(crate) fn slot(&self, subchunk: usize) -> Slot
        requires { 2 * subchunk + 1 < length self.now.numbers.now }
        ensures { result ≡ slot_at self.now.len self.now.numbers.now subchunk }
    {
        slot_of(
            self.len,
            self.numbers[2 * subchunk],
            self.numbers[2 * subchunk + 1],
        )
    }
}

impl PlannedShard {
    /// The subchunks of a shard. Refused, in this order, as `IncompatibleDimensionality` where the numbers of axes differ,
    /// `InvalidSubchunkShape` where an axis is not divided evenly, `TooLarge` where the shard has 2^64 elements or more, or the numbers of
    /// its index 2^64 bytes or more; or as `OutOfMemory`.
    pub fn new(
        alloc: Global,
        shape: ChunkShape,
        subchunk_shape: ChunkShape,
    ) -> Result<PlannedShard, CodecError>
        ensures shape { IfOk result (λ made. made.shape ≡ shape) }
        ensures subchunk_shape { IfOk result (λ made. made.subchunk_shape ≡ subchunk_shape) }
        ensures served { OnOk result (IsCutEvenly shape subchunk_shape) }
        ensures refused { IfErr result (RefusedBy (CutRefusals shape subchunk_shape)) }
    {
        let grid = calculate_chunks_per_shard(alloc, &shape, &subchunk_shape)?;
        let Some(_) = shape.num_elements() else {
            return Err(CodecError::TooLarge);
        };
        let Some(subchunks) = grid.num_elements() else {
            return Err(CodecError::TooLarge);
        };
        let Some(_) = subchunks.checked_mul(16) else {
            return Err(CodecError::TooLarge);
        };
        Ok(PlannedShard {
            shape,
            subchunk_shape,
            grid,
            subchunks,
        })
    }

    /// How many elements the shard has.
    pub fn elements(&self) -> u64
        ensures { result ≡ count_of self.now.shape }
    {
        match self.shape.num_elements() {
            Some(elements) => elements,
            None => unreachable!(),
        }
    }

    /// How many subchunks the shard has.
    pub fn subchunks(&self) -> u64
        ensures value { result ≡ count_of (grid_of self.now.shape self.now.subchunk_shape) }
        ensures fits { 16 * result < 2 ^ 64 }
    {
        self.subchunks
    }

    // Whether an index has two numbers for each subchunk.
    pub(crate) fn has_entries(&self, index: &IndexNumbers) -> bool
        ensures { IsTrue result ↔ HasEntries self.now.shape self.now.subchunk_shape index.now.numbers.now }
    {
        let numbers = index.numbers.len() as u64;
        numbers % 2 == 0 && numbers / 2 == self.subchunks
    }
}
