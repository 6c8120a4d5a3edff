// The tests of a shard's shape and of its index codec, and what they find.
ghost use Rattle.std.specs.Prelude.{IfOk, IfErr, OnOk};
ghost use Rattle.parts_errors.specs.Order.{done, RefusedBy};
ghost use Rattle.parts_row_major.specs.Numbering.{AllPositive};
ghost use Rattle.parts_subsets.specs.Grid.{grid_of};
ghost use Rattle.sharding_format.specs.Serves.{PlanRefusals, HasPlan};
ghost use Rattle.sharding_index.specs.Indexes.{index_meaning};
ghost use Rattle.sharding_index.specs.steps.Plans.{IsPlan};

use crate::index::{IndexCodec, IndexPlan};
use codec_traits::ArrayToBytesCodecTraits;
use parts_errors::CodecError;
use parts_subsets::ChunkShape;
use sharding_format::calculate_chunks_per_shard;
use std::alloc::Global;

/// What is known of a shard before its bytes are looked at: how many cells and subchunks it has, and its index.
#[derive(Drop)]
pub struct Plan {
    pub cells: u64,
    pub subchunks: u64,
    pub index: IndexPlan,
}

impl Plan {
    /// Makes the tests of a shard's shape, for elements of so many bytes, and of the index codec. Refused, in this order, as
    /// `IncompatibleDimensionality`, `InvalidSubchunkShape`, `TooLarge` (the count of cells, their bytes, or 16 bytes for each
    /// subchunk), as the index codec's `check` refuses, and as `TooLarge` or `VariableIndexSize` where the index has no fixed
    /// size; or as `OutOfMemory`.
    pub fn new<X: ArrayToBytesCodecTraits>(
        alloc: Global,
        index_codec: &IndexCodec<'_, X>,
        shape: &ChunkShape,
        subchunk_shape: &ChunkShape,
        element_size: u64,
    ) -> Result<Plan, CodecError>
        ensures positive { AllPositive shape.now }
        ensures served { let index = index_meaning X.meaning index_codec.now.codec.now (grid_of shape.now subchunk_shape.now) in
            OnOk result (HasPlan index shape.now subchunk_shape.now element_size) }
        ensures plan { IfOk result (IsPlan (index_meaning X.meaning index_codec.now.codec.now) shape.now subchunk_shape.now) }
        ensures refused { let index = index_meaning X.meaning index_codec.now.codec.now (grid_of shape.now subchunk_shape.now) in
            IfErr result (RefusedBy (PlanRefusals index shape.now subchunk_shape.now element_size done)) }
    {
        let count = shape.num_elements();
        let grid = calculate_chunks_per_shard(alloc, shape, subchunk_shape)?;
        let Some(cells) = count else {
            return Err(CodecError::TooLarge);
        };
        let Some(_) = cells.checked_mul(element_size) else {
            return Err(CodecError::TooLarge);
        };
        let Some(subchunks) = grid.num_elements() else {
            return Err(CodecError::TooLarge);
        };
        let Some(_) = subchunks.checked_mul(16) else {
            return Err(CodecError::TooLarge);
        };
        let index = index_codec.plan(alloc, grid)?;
        Ok(Plan {
            cells,
            subchunks,
            index,
        })
    }
}
