// Plans of reads of a subset.
ghost use Rattle.std.specs.Prelude.{◌≡◌, ◌*◌, ◌<◌, MatchOption, IfOk, IfErr, OnOk, length};
ghost use Rattle.std.specs.List.{All};
ghost use Rattle.parts_errors.specs.Order.{◌or◌then◌, done, RefusedBy};
ghost use Rattle.parts_errors.specs.declared.error.CodecError.TheVariants.{OutOfMemory, InvalidNumberOfElements};
ghost use Rattle.parts_row_major.specs.Numbering.{count_of};
ghost use Rattle.parts_row_major.specs.Subsets.{LiesIn};
ghost use Rattle.parts_subsets.specs.Grid.{grid_of};
ghost use Rattle.parts_subsets.specs.Touched.{AreTouched, Touches};
ghost use Rattle.sharding_format.specs.Index.{slot_at};
ghost use Rattle.sharding_format.specs.declared.slot.Slot.TheVariants.{Bad};
ghost use Rattle.sharding_plans.specs.ReadPlans.{HasEntries, IsPlanOf, IsReadPart, IsReadPlan, IsWithin, PlanRefusals, WithinRefusals};

use crate::grid::{IndexNumbers, PlannedShard};
use parts_errors::CodecError;
use parts_subsets::{ArraySubset, check_subset};
use sharding_format::Slot;
use sharding_gather::{SubchunkOverlap, subchunk_overlap};
use std::alloc::Global;

/// What a read of a subset takes from one subchunk: the subchunk's row-major number in the grid, what the index says of it, and
/// where the subset and the subchunk meet, seen from either's start.
#[derive(Drop)]
pub struct ReadPart {
    pub number: u64,
    pub slot: Slot,
    pub overlap: SubchunkOverlap,
}

/// A read of a subset: a part of each subchunk that the subset touches, ascending by their numbers. Where the index entry of such a
/// subchunk is bad, `bad` is the lowest of their numbers, and the parts are those before it.
#[derive(Drop)]
pub struct ReadPlan {
    pub parts: Vec<ReadPart>,
    pub bad: Option<u64>,
}

impl PlannedShard {
    // What a read takes from a subchunk that its subset touches; `None` where the subchunk's index entry is bad.
    fn read_part(
        &self,
        alloc: Global,
        index: &IndexNumbers,
        subset: &ArraySubset,
        number: u64,
    ) -> Result<Option<ReadPart>, CodecError>
        requires inside { LiesIn subset.now self.now.shape }
        requires entries { length index.now.numbers.now ≡ 2 * count_of (grid_of self.now.shape self.now.subchunk_shape) }
        requires below { number < count_of (grid_of self.now.shape self.now.subchunk_shape) }
        requires touches { Touches self.now.shape self.now.subchunk_shape subset.now number }
        ensures part { IfOk result (λ found. MatchOption found (slot_at index.now.len index.now.numbers.now number ≡ Bad)
            (λ part. (part.number ≡ number) × IsReadPart self.now.shape self.now.subchunk_shape index.now.len index.now.numbers.now subset.now part)) }
        ensures refused { IfErr result (λ e. e ≡ OutOfMemory) }
    {
        let slot = index.slot(number as usize);
        if slot == Slot::Bad {
            return Ok(None);
        }
        let overlap = subchunk_overlap(
            alloc,
            number,
            subset,
            &self.grid,
            &self.shape,
            &self.subchunk_shape,
        )?;
        Ok(Some(ReadPart {
            number,
            slot,
            overlap,
        }))
    }

    // The parts of the subchunks that a subset touches, by an index that has an entry of each subchunk.
    fn read_parts(
        &self,
        alloc: Global,
        index: &IndexNumbers,
        subset: &ArraySubset,
        touched: &[u64],
    ) -> Result<ReadPlan, CodecError>
        requires inside { LiesIn subset.now self.now.shape }
        requires entries { length index.now.numbers.now ≡ 2 * count_of (grid_of self.now.shape self.now.subchunk_shape) }
        requires touched { AreTouched self.now.shape self.now.subchunk_shape subset.now touched.now }
        requires below { All (λ k. k < count_of (grid_of self.now.shape self.now.subchunk_shape)) touched.now }
        ensures plan { IfOk result (IsPlanOf self.now.shape self.now.subchunk_shape index.now.len index.now.numbers.now subset.now touched.now) }
        ensures refused { IfErr result (λ e. e ≡ OutOfMemory) }
    {
        let mut parts = Vec::with_capacity(alloc, touched.len())?;
        for j in 0..touched.len() {
            let number = touched[j];
            let Some(part) = self.read_part(alloc, index, subset, number)? else {
                return Ok(ReadPlan {
                    parts,
                    bad: Some(number),
                });
            };
            parts.push(part)?;
        }
        Ok(ReadPlan { parts, bad: None })
    }

    /// The row-major numbers of the subchunks that a subset touches, ascending. Refused, in this order, as
    /// `IncompatibleDimensionality` where the numbers of axes differ, `OutOfBounds` where the subset does not lie in the shard; or as
    /// `OutOfMemory`.
    pub fn touched_subchunks(
        &self,
        alloc: Global,
        subset: &ArraySubset,
    ) -> Result<Vec<u64>, CodecError>
        ensures touched { IfOk result (λ touched. AreTouched self.now.shape self.now.subchunk_shape subset.now touched.items) }
        ensures below { IfOk result (λ touched. All (λ k. k < count_of (grid_of self.now.shape self.now.subchunk_shape)) touched.items) }
        ensures passed { OnOk result (IsWithin self.now.shape subset.now) }
        ensures refused { IfErr result (RefusedBy (WithinRefusals self.now.shape subset.now done)) }
    {
        let _axes = subset.shape();
        check_subset(subset, self.shape.as_slice())?;
        let touched = subset.touched_subchunks(alloc, &self.shape, &self.subchunk_shape)?;
        Ok(touched)
    }

    /// The plan of a read of a subset that lies in the shard, by the subchunks that it touches, as `touched_subchunks` returns them.
    /// Refused as `InvalidNumberOfElements` where the index has an entry of other than each subchunk; or as `OutOfMemory`.
    pub fn plan_touched(
        &self,
        alloc: Global,
        index: &IndexNumbers,
        subset: &ArraySubset,
        touched: &[u64],
    ) -> Result<ReadPlan, CodecError>
        requires inside { LiesIn subset.now self.now.shape }
        requires touched { AreTouched self.now.shape self.now.subchunk_shape subset.now touched.now }
        requires below { All (λ k. k < count_of (grid_of self.now.shape self.now.subchunk_shape)) touched.now }
        ensures plan { IfOk result (IsPlanOf self.now.shape self.now.subchunk_shape index.now.len index.now.numbers.now subset.now touched.now) }
        ensures passed { OnOk result (HasEntries self.now.shape self.now.subchunk_shape index.now.numbers.now) }
        ensures refused { IfErr result (RefusedBy (HasEntries self.now.shape self.now.subchunk_shape index.now.numbers.now or InvalidNumberOfElements then done)) }
    {
        if !self.has_entries(index) {
            return Err(CodecError::InvalidNumberOfElements);
        }
        let plan = self.read_parts(alloc, index, subset, touched)?;
        Ok(plan)
    }

    /// The plan of a read of a subset, by the shard's index. Memory grows by the subchunks that the subset touches. Refused, in this
    /// order, as `IncompatibleDimensionality` where the numbers of axes differ, `OutOfBounds` where the subset does not lie in the
    /// shard, `InvalidNumberOfElements` where the index has an entry of other than each subchunk; or as `OutOfMemory`. A bad entry is
    /// no refusal: the plan tells it.
    pub fn plan_read(
        &self,
        alloc: Global,
        index: &IndexNumbers,
        subset: &ArraySubset,
    ) -> Result<ReadPlan, CodecError>
        ensures plan { IfOk result (IsReadPlan self.now.shape self.now.subchunk_shape index.now.len index.now.numbers.now subset.now) }
        ensures within { OnOk result (IsWithin self.now.shape subset.now) }
        ensures entries { OnOk result (HasEntries self.now.shape self.now.subchunk_shape index.now.numbers.now) }
        ensures refused { IfErr result (RefusedBy (PlanRefusals self.now.shape self.now.subchunk_shape index.now.numbers.now subset.now)) }
    {
        let touched = self.touched_subchunks(alloc, subset)?;
        let plan = self.plan_touched(alloc, index, subset, &touched)?;
        Ok(plan)
    }
}
