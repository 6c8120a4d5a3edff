// Where subsets meet, and subsets seen from another origin.
ghost use Rattle.std.specs.Prelude.{◌≡◌, ◌-◌, ◌≤◌, ◌↔◌, IsTrue, IfOk, IfErr, OnOk, length, max};
ghost use Rattle.std.specs.List.{AllZip};
ghost use Rattle.parts_errors.specs.Order.{◌or◌then◌, done, RefusedBy};
ghost use Rattle.parts_row_major.specs.Numbering.{zip_with};
ghost use Rattle.parts_row_major.specs.Subsets.{IsSubset};
ghost use Rattle.parts_subsets.specs.Overlaps.{overlap_of, relative_subset, OriginRefusals};
ghost use Rattle.parts_errors.specs.declared.error.CodecError.TheVariants.{IncompatibleDimensionality};

use super::ArraySubset;
use crate::axes::Axes;
use parts_errors::CodecError;
use std::alloc::{AllocError, Global};

// Where the subset starts where two subsets meet.
fn overlap_starts(alloc: Global, start: &[u64], other_start: &[u64]) -> Result<Axes, AllocError>
    requires { length start.now ≡ length other_start.now }
    ensures { IfOk result (λ starts. starts.items ≡ zip_with max start.now other_start.now) }
{
    let mut starts = Axes::new(alloc);
    for axis in 0..start.len() {
        starts.push(start[axis].max(other_start[axis]))?;
    }
    Ok(starts)
}

// How long the subset is where two subsets meet, along each axis.
fn overlap_lengths(
    alloc: Global,
    start: &[u64],
    shape: &[u64],
    other_start: &[u64],
    other_shape: &[u64],
) -> Result<Axes, AllocError>
    requires well_formed { IsSubset start.now shape.now }
    requires other_well_formed { IsSubset other_start.now other_shape.now }
    requires same_axes { length start.now ≡ length other_start.now }
    ensures { IfOk result (λ lengths. lengths.items
        ≡ (overlap_of (record { start = start.now; shape = shape.now }) (record { start = other_start.now; shape = other_shape.now })).shape) }
{
    let mut lengths = Axes::new(alloc);
    for axis in 0..start.len() {
        let first = start[axis].max(other_start[axis]);
        let end = (start[axis] + shape[axis]).min(other_start[axis] + other_shape[axis]);
        lengths.push(end.saturating_sub(first))?;
    }
    Ok(lengths)
}

// Whether a start lies below an origin on no axis.
fn is_at_or_after(start: &[u64], origin: &[u64]) -> bool
    requires { length start.now ≡ length origin.now }
    ensures { IsTrue result ↔ AllZip ◌≤◌ origin.now start.now }
{
    for axis in 0..start.len() {
        if start[axis] < origin[axis] {
            return false;
        }
    }
    true
}

// A start counted from an origin, below which it lies on no axis.
fn start_from(alloc: Global, start: &[u64], origin: &[u64]) -> Result<Axes, AllocError>
    requires axes { length start.now ≡ length origin.now }
    requires not_below { AllZip ◌≤◌ origin.now start.now }
    ensures { IfOk result (λ moved. moved.items ≡ zip_with ◌-◌ start.now origin.now) }
{
    let mut moved = Axes::new(alloc);
    for axis in 0..start.len() {
        moved.push(start[axis] - origin[axis])?;
    }
    Ok(moved)
}

impl ArraySubset {
    /// The subset of the coordinates that both subsets have. On an axis where the subsets don't meet it has size 0 at the
    /// larger start. Refused as `IncompatibleDimensionality` where their numbers of axes differ, or as `OutOfMemory`.
    pub fn overlap(&self, alloc: Global, other: &ArraySubset) -> Result<ArraySubset, CodecError>
        ensures overlap { IfOk result (λ overlap. overlap ≡ overlap_of self.now other.now) }
        ensures same_axes { OnOk result (length self.now.start ≡ length other.now.start) }
        ensures refused { IfErr result (RefusedBy (length self.now.start ≡ length other.now.start or IncompatibleDimensionality then done)) }
    {
        if self.start.len() != other.start.len() {
            return Err(CodecError::IncompatibleDimensionality);
        }
        let start = overlap_starts(alloc, &self.start, &other.start)?;
        let shape = overlap_lengths(alloc, &self.start, &self.shape, &other.start, &other.shape)?;
        Ok(ArraySubset { start, shape })
    }

    /// The subset with its coordinates counted from an origin. Refused, in this order, as `IncompatibleDimensionality`
    /// where their numbers of axes differ, `OutOfBounds` where the subset starts below the origin on an axis; or as
    /// `OutOfMemory`.
    pub fn relative_to(&self, alloc: Global, origin: &[u64]) -> Result<ArraySubset, CodecError>
        ensures relative { IfOk result (λ relative. relative ≡ relative_subset self.now origin.now) }
        ensures same_axes { OnOk result (length self.now.start ≡ length origin.now) }
        ensures within { OnOk result (AllZip ◌≤◌ origin.now self.now.start) }
        ensures refused { IfErr result (RefusedBy (OriginRefusals self.now origin.now done)) }
    {
        if self.start.len() != origin.len() {
            return Err(CodecError::IncompatibleDimensionality);
        }
        if !is_at_or_after(&self.start, origin) {
            return Err(CodecError::OutOfBounds);
        }
        let start = start_from(alloc, &self.start, origin)?;
        let shape = Axes::from_slice(alloc, &self.shape)?;
        Ok(ArraySubset { start, shape })
    }
}
