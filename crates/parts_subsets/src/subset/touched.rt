// The subchunks that a subset touches.
ghost use Rattle.std.specs.Prelude.{◌≡◌, ◌+◌, ◌-◌, ◌/◌, ◌^◌, ◌<◌, ℕ, [], ◌∷◌, IsTrue, IfOk, IfSome, All, length, slice_index_or};
ghost use Rattle.parts_row_major.specs.Numbering.{AllPositive, IsInside, count_of, number_of};
ghost use Rattle.parts_row_major.specs.Subsets.{IsSubset, LiesIn};
ghost use Rattle.parts_subsets.specs.Grid.{Divides, grid_of};
ghost use Rattle.parts_subsets.specs.Touched.{AreTouched, IsOneAlong, IsTouchedSubset};

use super::{ArraySubset, points_in};
use crate::axes::Axes;
use crate::runs::subset_numbers;
use crate::shape::ChunkShape;
use std::alloc::{AllocError, Global};

// How many subchunks of a length the cells of a range along an axis lie in.
fn touched_along(first: u64, len: u64, part: u64) -> u64
    requires some { 0 < part }
    requires fits { first + len < 2 ^ 64 }
    ensures none { len ≡ 0 → result ≡ 0 }
    ensures ends { 0 < len → first / part + result ≡ (first + (len - 1)) / part + 1 }
{
    if len == 0 {
        return 0;
    }
    let last = (first + (len - 1)) / part;
    last - first / part + 1
}

// The quotients of each axis by the subchunk's.
fn quotients(alloc: Global, shape: &[u64], sub: &[u64]) -> Result<Axes, AllocError>
    requires sub { AllPositive sub.now }
    requires axes { length shape.now ≡ length sub.now }
    ensures { IfOk result (λ grid. grid.items ≡ grid_of shape.now sub.now) }
{
    let mut grid = Axes::new(alloc);
    for axis in 0..shape.len() {
        grid.push(shape[axis] / sub[axis])?;
    }
    Ok(grid)
}

// In how many subchunks the cells of a subset lie along each axis.
fn touched_lengths(
    alloc: Global,
    start: &[u64],
    len: &[u64],
    sub: &[u64],
) -> Result<Axes, AllocError>
    requires well_formed { IsSubset start.now len.now }
    requires sub { AllPositive sub.now }
    requires axes { length start.now ≡ length sub.now }
    ensures { IfOk result (λ lengths. IsTouchedSubset (record { start = start.now; shape = len.now }) sub.now (record { start = grid_of start.now sub.now; shape = lengths.items })) }
{
    let mut lengths = Axes::new(alloc);
    for axis in 0..start.len() {
        lengths.push(touched_along(start[axis], len[axis], sub[axis]))?;
    }
    Ok(lengths)
}

/// The subset of the grid of subchunks that has those in which points of a subset of the shape lie, given by its start and its
/// shape. Refused only as out of memory.
pub fn touched_subset(
    alloc: Global,
    start: &[u64],
    len: &[u64],
    shape: &[u64],
    sub: &[u64],
) -> Result<ArraySubset, AllocError>
    requires well_formed { IsSubset start.now len.now }
    requires inside { LiesIn (record { start = start.now; shape = len.now }) shape.now }
    requires sub { AllPositive sub.now }
    requires divides { Divides sub.now shape.now }
    ensures { IfOk result (λ touched. IsTouchedSubset (record { start = start.now; shape = len.now }) sub.now touched) }
{
    let starts = quotients(alloc, start, sub)?;
    let lengths = touched_lengths(alloc, start, len, sub)?;
    Ok(ArraySubset {
        start: starts,
        shape: lengths,
    })
}

// The row-major numbers in the grid of the subchunks in which points of a subset lie, ascending.
fn touched_numbers(
    alloc: Global,
    start: &[u64],
    len: &[u64],
    shape: &[u64],
    sub: &[u64],
) -> Result<Vec<u64>, AllocError>
    requires well_formed { IsSubset start.now len.now }
    requires inside { LiesIn (record { start = start.now; shape = len.now }) shape.now }
    requires shape { AllPositive shape.now }
    requires sub { AllPositive sub.now }
    requires divides { Divides sub.now shape.now }
    requires fits { count_of shape.now < 2 ^ 64 }
    ensures touched { IfOk result (λ touched. AreTouched shape.now sub.now (record { start = start.now; shape = len.now }) touched.items) }
    ensures below { IfOk result (λ touched. All (λ k. k < count_of (grid_of shape.now sub.now)) touched.items) }
{
    let grid = quotients(alloc, shape, sub)?;
    let touched = touched_subset(alloc, start, len, shape, sub)?;
    let numbers = subset_numbers(alloc, &touched, points_in(&touched, &grid), &grid)?;
    Ok(numbers)
}

// Whether a subset has points, all of which lie in one subchunk along each axis.
fn is_in_one(start: &[u64], len: &[u64], sub: &[u64]) -> bool
    requires well_formed { IsSubset start.now len.now }
    requires sub { AllPositive sub.now }
    requires axes { length start.now ≡ length sub.now }
    ensures { IsTrue result → (k : ℕ) → k < length start.now → IsOneAlong (slice_index_or start.now k 0) (slice_index_or len.now k 0) (slice_index_or sub.now k 0) }
{
    for axis in 0..start.len() {
        if touched_along(start[axis], len[axis], sub[axis]) != 1 {
            return false;
        }
    }
    true
}

// The row-major number in the grid of the subchunk that a point lies in.
fn number_in_grid(point: &[u64], sub: &[u64], grid: &[u64]) -> u64
    requires sub { AllPositive sub.now }
    requires axes { length point.now ≡ length sub.now }
    requires inside { IsInside (grid_of point.now sub.now) grid.now }
    requires fits { count_of grid.now < 2 ^ 64 }
    ensures { result ≡ number_of (grid_of point.now sub.now) grid.now }
{
    let mut stride = 1;
    let mut number = 0;
    for axis in (0..grid.len()).rev() {
        number += point[axis] / sub[axis] * stride;
        stride *= grid[axis];
    }
    number
}

impl ArraySubset {
    /// The row-major number in the grid of the one subchunk in which all points of the subset lie; `None` where they lie in more, or
    /// there are none. Takes no memory.
    pub fn only_subchunk(
        &self,
        shape: &ChunkShape,
        sub: &ChunkShape,
        grid: &ChunkShape,
    ) -> Option<u64>
        requires inside { LiesIn self.now shape.now }
        requires divides { Divides sub.now shape.now }
        requires fits { count_of shape.now < 2 ^ 64 }
        requires grid { grid.now ≡ grid_of shape.now sub.now }
        ensures touched { IfSome result (λ number. AreTouched shape.now sub.now self.now (number ∷ [])) }
        ensures below { IfSome result (λ number. number < count_of (grid_of shape.now sub.now)) }
    {
        let (_axes, parts) = (shape.as_slice(), sub.as_slice());
        let start = self.start();
        let len = self.shape();
        if !is_in_one(start, len, parts) {
            return None;
        }
        Some(number_in_grid(start, parts, grid.as_slice()))
    }

    /// The row-major numbers in the grid of the subchunks in which points of the subset lie, ascending; none for an empty
    /// subset. Refused only as out of memory.
    pub fn touched_subchunks(
        &self,
        alloc: Global,
        shape: &ChunkShape,
        sub: &ChunkShape,
    ) -> Result<Vec<u64>, AllocError>
        requires inside { LiesIn self.now shape.now }
        requires divides { Divides sub.now shape.now }
        requires fits { count_of shape.now < 2 ^ 64 }
        ensures touched { IfOk result (λ touched. AreTouched shape.now sub.now self.now touched.items) }
        ensures below { IfOk result (λ touched. All (λ k. k < count_of (grid_of shape.now sub.now)) touched.items) }
    {
        touched_numbers(
            alloc,
            &self.start,
            &self.shape,
            shape.as_slice(),
            sub.as_slice(),
        )
    }
}
