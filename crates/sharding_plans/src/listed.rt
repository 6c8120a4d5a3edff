// Plans of reads of listed elements.
ghost use Rattle.std.specs.Prelude.{◌≡◌, ◌*◌, ◌+◌, ◌<◌, IfOk, IfErr, OnOk, length, map};
ghost use Rattle.std.specs.List.{All};
ghost use Rattle.parts_errors.specs.Order.{RefusedBy};
ghost use Rattle.parts_subsets.specs.Grid.{Divides};
ghost use Rattle.parts_subsets.specs.Selections.{IsSelectionOf};
ghost use Rattle.sharding_format.specs.Index.{slot_at};
ghost use Rattle.sharding_format.specs.ReadRefusals.{numbers_of};
ghost use Rattle.sharding_plans.specs.ReadPlans.{HasEntries};
ghost use Rattle.sharding_plans.specs.ListedPlans.{IsListedPlan, ListRefusals, ListedLaw};

use crate::grid::{IndexNumbers, PlannedShard};
use parts_errors::CodecError;
use parts_subsets::{Indexer, check_selection, point_numbers};
use sharding_format::Slot;
use sharding_gather::{Grouping, grouped};
use std::alloc::{AllocError, Global};

/// A read of listed elements: the subchunks in which they lie, ascending, with the positions of theirs in each, and where each element of the
/// list stands among these; and what the index says of each of these subchunks, also where its entry is bad.
#[derive(Drop)]
pub struct ListedPlan {
    pub elements: Grouping,
    pub slots: Vec<Slot>,
}

// What the index says of some subchunks.
fn slots_of(alloc: Global, index: &IndexNumbers, subchunks: &[u64]) -> Result<Vec<Slot>, AllocError>
    requires { All (λ k. 2 * k + 1 < length index.now.numbers.now) subchunks.now }
    ensures { IfOk result (λ slots. slots.items ≡ map (slot_at index.now.len index.now.numbers.now) subchunks.now) }
{
    let mut slots = Vec::with_capacity(alloc, subchunks.len())?;
    for number in subchunks {
        slots.push(index.slot(*number as usize))?;
    }
    Ok(slots)
}

impl PlannedShard {
    /// The plan of a read of listed elements, in any order and also twice. Memory grows by their number. Refused, in this order, as
    /// `IncompatibleDimensionality` where a coordinate has another number of axes, `OutOfBounds` where one does not lie in the shard,
    /// `TooLarge` where they are 2^64 or more, `InvalidNumberOfElements` where the index has an entry of other than each subchunk; or as
    /// `OutOfMemory`. A bad entry is no refusal: the plan tells it.
    pub fn plan_listed<N: Indexer>(
        &self,
        alloc: Global,
        index: &IndexNumbers,
        listed: &N,
    ) -> Result<ListedPlan, CodecError>
        ensures plan { let numbers = numbers_of self.now.shape (N.selection listed.now).points in
            IfOk result (IsListedPlan self.now.shape self.now.subchunk_shape index.now.len index.now.numbers.now numbers) }
        ensures inside { OnOk result (IsSelectionOf self.now.shape (N.selection listed.now)) }
        ensures entries { OnOk result (HasEntries self.now.shape self.now.subchunk_shape index.now.numbers.now) }
        ensures refused { IfErr result (RefusedBy (ListRefusals self.now.shape self.now.subchunk_shape index.now.numbers.now (N.selection listed.now))) }
    {
        let count = check_selection(listed, &self.shape)?;
        if !self.has_entries(index) {
            return Err(CodecError::InvalidNumberOfElements);
        }
        let numbers = point_numbers(alloc, listed, count, &self.shape)?;
        let elements = grouped(
            alloc,
            &numbers,
            self.elements(),
            self.subchunks(),
            self.shape.as_slice(),
            self.subchunk_shape.as_slice(),
        )?;
        let slots = slots_of(alloc, index, &elements.subchunks)?;
        Ok(ListedPlan { elements, slots })
    }
}

/// The law of reads of listed elements: whoever decodes the subchunks of a plan, in any order, has each element where the plan says.
pub fn listed_law(_shape: &[u64], _subchunk_shape: &[u64])
    requires { Divides _subchunk_shape.now _shape.now }
    ensures { ListedLaw _shape.now _subchunk_shape.now }
{}
