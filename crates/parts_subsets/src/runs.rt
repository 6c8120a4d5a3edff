// Runs of neighbouring elements in a subset.
ghost use Rattle.std.specs.Prelude.{◌≡◌, ℕ, ◌+◌, ◌^◌, ◌<◌, ◌≤◌, ◌++◌, List, All, [], IfOk, IfErr, OnOk};
ghost use Rattle.std.specs.List.{range_with_len};
ghost use Rattle.parts_errors.specs.Order.{done};
ghost use Rattle.parts_row_major.specs.Numbering.{count_of};
ghost use Rattle.parts_row_major.specs.Subsets.{IsSubset, IsServed, numbers_in};
ghost use Rattle.parts_row_major.specs.Runs.{IsRunLength, runs_end_to_end};
ghost use Rattle.parts_subsets.specs.SubsetRefusals.{SubsetRefusals};

use crate::subset::{ArraySubset, check_subset};
use parts_errors::CodecError;
use parts_row_major::ContiguousRuns;
use std::alloc::{AllocError, Global};

impl ArraySubset {
    /// The numbers of the subset's elements in an array of a shape, in runs of neighbours: pairs of the first number and how many
    /// follow from it. Each run is as long as the product of the subset's axes from the first behind which it spans the shape on
    /// every axis; an empty subset has none. Refused, in this order, as `IncompatibleDimensionality`, `OutOfBounds`, and
    /// `TooLarge` where the shape's count passes `u64::MAX`. Takes no memory.
    pub fn contiguous_runs<'a>(&'a self, shape: &'a [u64]) -> Result<ContiguousRuns<'a>, CodecError>
        ensures runs { IfOk result (λ runs. runs_end_to_end runs ≡ numbers_in self.now shape.now) }
        ensures long { IfOk result (λ runs. All (λ run. IsRunLength self.now.shape shape.now run.1) runs) }
        ensures none { IfOk result (λ runs. count_of self.now.shape ≡ 0 → runs ≡ []) }
        ensures served { OnOk result (IsServed self.now shape.now) }
        ensures refused { IfErr result (SubsetRefusals self.now shape.now done) }
    {
        check_subset(self, shape)?;
        Ok(self.runs_in(shape))
    }

    /// The numbers of the subset's elements in an array of a shape that it lies in, in runs of neighbours.
    pub fn runs_in<'a>(&'a self, shape: &'a [u64]) -> ContiguousRuns<'a>
        requires { IsServed self.now shape.now }
        ensures runs { runs_end_to_end result ≡ numbers_in self.now shape.now }
        ensures long { All (λ run. IsRunLength self.now.shape shape.now run.1) result }
        ensures within { All (λ run. run.0 + run.1 ≤ count_of shape.now) result }
        ensures none { count_of self.now.shape ≡ 0 → result ≡ [] }
        ensures fits { count_of self.now.shape < 2 ^ 64 }
        ensures well_formed { IsSubset self.now.start self.now.shape }
    {
        ContiguousRuns::of_subset(self.start(), self.shape(), shape)
    }
}

// Puts as many numbers that follow from a first on behind those that are there. Refused only as out of memory.
fn push_run(numbers: &mut Vec<u64>, first: u64, len: u64) -> Result<(), AllocError>
    requires { first + len < 2 ^ 64 }
    ensures { OnOk result (numbers.new.items ≡ numbers.old.items ++ range_with_len first len) }
{
    for i in 0..len {
        numbers.push(first + i)?;
    }
    Ok(())
}

/// The row-major numbers in a shape of the points of a subset, run by run. `count` is how many there are. Refused only as
/// out of memory.
pub fn subset_numbers(
    alloc: Global,
    subset: &ArraySubset,
    count: u64,
    shape: &[u64],
) -> Result<Vec<u64>, AllocError>
    requires { IsServed subset.now shape.now }
    ensures { IfOk result (λ numbers. numbers.items ≡ numbers_in subset.now shape.now) }
{
    let mut numbers = Vec::with_capacity(alloc, count as usize)?;
    for (first, len) in subset.runs_in(shape) {
        push_run(&mut numbers, first, len)?;
    }
    Ok(numbers)
}
