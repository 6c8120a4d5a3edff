// The chunks that an array is cut into, and which of them a subset meets.
ghost use Rattle.std.specs.Prelude.{◌≡◌, ◌<◌, ◌^◌, SomeIff, IfOk, IfErr, OnOk, length};
ghost use Rattle.std.specs.List.{All};
ghost use Rattle.parts_errors.specs.Order.{done, RefusedBy};
ghost use Rattle.parts_errors.specs.declared.error.CodecError.TheVariants.{OutOfMemory};
ghost use Rattle.parts_row_major.specs.Numbering.{AllPositive, count_of};
ghost use Rattle.parts_row_major.specs.Subsets.{LiesIn};
ghost use Rattle.parts_subsets.specs.Grid.{grid_of};
ghost use Rattle.parts_subsets.specs.Touched.{AreTouched, Touches};
ghost use Rattle.sharding_plans.specs.ReadPlans.{IsWithin, WithinRefusals};
ghost use Rattle.sharding_plans.specs.Chunks.{AxesRefusals, ChunkRefusals, IsChunked, IsMeeting, IsPartOfChunk, rounded_up, whole_chunks};

use crate::grid::PlannedShard;
use crate::read_plan::{ReadPart, ReadPlan};
use parts_errors::CodecError;
use parts_subsets::{ArraySubset, Axes, ChunkShape};
use sharding_format::Slot;
use sharding_gather::subchunk_overlap;
use std::alloc::Global;

/// An array that is cut into chunks (Zarr V3 core, "Regular grids"), of which those at the edge may reach beyond its shape.
#[derive(Drop)]
pub struct PlannedArray {
    pub(crate) shape: Vec<u64>,
    // the chunks as those of a shard, whose shape is the array's, rounded up to whole chunks
    pub(crate) chunks: PlannedShard,
    ghost positive: { AllPositive chunks.subchunk_shape },
    ghost axes: { length shape.items ≡ length chunks.subchunk_shape },
    ghost whole: { chunks.shape ≡ whole_chunks shape.items chunks.subchunk_shape },
}

// The elements along an axis, rounded up to whole chunks.
fn whole_axis(elements: u64, part: u64) -> Option<u64>
    requires { 0 < part }
    ensures { SomeIff result (rounded_up elements part < 2 ^ 64) (rounded_up elements part) }
{
    let before = elements.saturating_sub(1) / part;
    before.checked_add(1)?.checked_mul(part)
}

/// The shape of an array, rounded up to whole chunks (Zarr V3 core, "Regular grids"): an axis without elements to one. Refused, in this order,
/// as `IncompatibleDimensionality` where the numbers of axes differ, and as `TooLarge` where an axis passes `u64::MAX`; or as `OutOfMemory`.
pub fn whole_axes(alloc: Global, shape: &[u64], chunk: &[u64]) -> Result<Axes, CodecError>
    requires chunk { AllPositive chunk.now }
    ensures whole { IfOk result (λ whole. whole.items ≡ whole_chunks shape.now chunk.now) }
    ensures positive { IfOk result (λ whole. AllPositive whole.items) }
    ensures served { OnOk result ((length shape.now ≡ length chunk.now) × All (λ axis. axis < 2 ^ 64) (whole_chunks shape.now chunk.now)) }
    ensures refused { IfErr result (RefusedBy (AxesRefusals shape.now chunk.now done)) }
{
    if shape.len() != chunk.len() {
        return Err(CodecError::IncompatibleDimensionality);
    }
    let mut whole = Axes::new(alloc);
    for axis in 0..shape.len() {
        let Some(elements) = whole_axis(shape[axis], chunk[axis]) else {
            return Err(CodecError::TooLarge);
        };
        whole.push(elements)?;
    }
    Ok(whole)
}

impl PlannedArray {
    /// The chunks of an array of a shape, of which no axis need be divided evenly. Refused, in this order, as
    /// `IncompatibleDimensionality` where the numbers of axes differ, and as `TooLarge` where all chunks have 2^64 elements or more, or are
    /// 2^60 or more; or as `OutOfMemory`.
    pub fn new(
        alloc: Global,
        shape: &[u64],
        chunk_shape: ChunkShape,
    ) -> Result<PlannedArray, CodecError>
        ensures shape { IfOk result (λ made. made.shape.items ≡ shape.now) }
        ensures chunk_shape { IfOk result (λ made. made.chunks.subchunk_shape ≡ chunk_shape) }
        ensures served { OnOk result (IsChunked shape.now chunk_shape) }
        ensures refused { IfErr result (RefusedBy (ChunkRefusals shape.now chunk_shape)) }
    {
        let whole = whole_axes(alloc, shape, chunk_shape.as_slice())?;
        let whole = ChunkShape::from_positive(whole);
        let chunks = PlannedShard::new(alloc, whole, chunk_shape)?;
        Ok(PlannedArray {
            shape: Vec::from_slice(alloc, shape)?,
            chunks,
        })
    }

    /// The row-major numbers of the chunks that a subset meets, ascending. Refused, in this order, as `IncompatibleDimensionality` where the
    /// numbers of axes differ, `OutOfBounds` where the subset does not lie in the array; or as `OutOfMemory`.
    pub fn touched_chunks(
        &self,
        alloc: Global,
        subset: &ArraySubset,
    ) -> Result<Vec<u64>, CodecError>
        ensures touched { IfOk result (λ touched. AreTouched (whole_chunks self.now.shape.items self.now.chunks.subchunk_shape) self.now.chunks.subchunk_shape subset.now touched.items) }
        ensures below { IfOk result (λ touched. All (λ k. k < count_of (grid_of (whole_chunks self.now.shape.items self.now.chunks.subchunk_shape) self.now.chunks.subchunk_shape)) touched.items) }
        ensures passed { OnOk result (IsWithin self.now.shape.items subset.now) }
        ensures refused { IfErr result (RefusedBy (WithinRefusals self.now.shape.items subset.now done)) }
    {
        if subset.start().len() != self.shape.len() {
            return Err(CodecError::IncompatibleDimensionality);
        }
        if !subset.lies_in(&self.shape) {
            return Err(CodecError::OutOfBounds);
        }
        let touched = subset.touched_subchunks(
            alloc,
            &self.chunks.shape,
            &self.chunks.subchunk_shape,
        )?;
        Ok(touched)
    }

    // What a subset and a chunk that it meets have in common.
    fn part_of_chunk(
        &self,
        alloc: Global,
        subset: &ArraySubset,
        number: u64,
    ) -> Result<ReadPart, CodecError>
        requires inside { LiesIn subset.now self.now.shape.items }
        requires below { number < count_of (grid_of (whole_chunks self.now.shape.items self.now.chunks.subchunk_shape) self.now.chunks.subchunk_shape) }
        requires touches { Touches (whole_chunks self.now.shape.items self.now.chunks.subchunk_shape) self.now.chunks.subchunk_shape subset.now number }
        ensures number { IfOk result (λ part. part.number ≡ number) }
        ensures part { IfOk result (IsPartOfChunk (whole_chunks self.now.shape.items self.now.chunks.subchunk_shape) self.now.chunks.subchunk_shape subset.now) }
        ensures refused { IfErr result (λ e. e ≡ OutOfMemory) }
    {
        let chunks = &self.chunks;
        let overlap = subchunk_overlap(
            alloc,
            number,
            subset,
            &chunks.grid,
            &chunks.shape,
            &chunks.subchunk_shape,
        )?;
        Ok(ReadPart {
            number,
            slot: Slot::Absent,
            overlap,
        })
    }

    /// The parts of a subset that lies in the array, one of each chunk that it meets, by the numbers that `touched_chunks` returns: a plan of a
    /// read in which nothing is said of the bytes of the chunks, whose slots are all absent. Refused only as `OutOfMemory`.
    pub fn plan_chunks(
        &self,
        alloc: Global,
        subset: &ArraySubset,
        touched: &[u64],
    ) -> Result<ReadPlan, CodecError>
        requires inside { LiesIn subset.now self.now.shape.items }
        requires touched { AreTouched (whole_chunks self.now.shape.items self.now.chunks.subchunk_shape) self.now.chunks.subchunk_shape subset.now touched.now }
        requires below { All (λ k. k < count_of (grid_of (whole_chunks self.now.shape.items self.now.chunks.subchunk_shape) self.now.chunks.subchunk_shape)) touched.now }
        ensures plan { IfOk result (IsMeeting (whole_chunks self.now.shape.items self.now.chunks.subchunk_shape) self.now.chunks.subchunk_shape subset.now touched.now) }
        ensures refused { IfErr result (λ e. e ≡ OutOfMemory) }
    {
        let mut parts = Vec::with_capacity(alloc, touched.len())?;
        for j in 0..touched.len() {
            let part = self.part_of_chunk(alloc, subset, touched[j])?;
            parts.push(part)?;
        }
        Ok(ReadPlan { parts, bad: None })
    }
}
