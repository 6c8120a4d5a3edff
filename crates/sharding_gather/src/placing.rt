// Where a subchunk lies of an array that is itself a subset of another array.
ghost use Rattle.std.specs.Prelude.{◌≡◌, ◌+◌, ◌^◌, ◌<◌, ℕ, IfOk, IfErr, length, replicate, slice_index_or};
ghost use Rattle.parts_row_major.specs.Numbering.{count_of, zip_with};
ghost use Rattle.parts_row_major.specs.Subsets.{IsSubset, LiesIn};
ghost use Rattle.parts_subsets.specs.Grid.{Divides, grid_of, grid_subset};
ghost use Rattle.parts_errors.specs.declared.error.CodecError.TheVariants.{OutOfMemory};
ghost use Rattle.sharding_gather.specs.steps.Placings.{shifted_subset, no_subset};

use parts_errors::CodecError;
use parts_subsets::{ArraySubset, Axes, ChunkShape};
use sharding_format::subchunk_subset;
use std::alloc::{AllocError, Global};

// The starts of a subset, counted from an origin's own origin.
fn moved(alloc: Global, start: &[u64], origin: &[u64]) -> Result<Axes, AllocError>
    requires { IsSubset origin.now start.now }
    ensures { IfOk result (λ axes. axes.items ≡ zip_with ◌+◌ origin.now start.now) }
{
    let mut axes = Axes::new(alloc);
    for axis in 0..origin.len() {
        axes.push(origin[axis] + start[axis])?;
    }
    Ok(axes)
}

/// The subset of all coordinates of a shape. Refused only as out of memory.
pub fn whole_subset(alloc: Global, shape: &[u64]) -> Result<ArraySubset, AllocError>
    ensures { IfOk result (λ whole. whole ≡ record { start = replicate (length shape.now) 0; shape = shape.now }) }
{
    let start = Axes::from_elem(alloc, 0, shape.len())?;
    let lengths = Axes::from_slice(alloc, shape)?;
    match ArraySubset::new_with_axes(start, lengths) {
        Some(whole) => Ok(whole),
        None => unreachable!(),
    }
}

// A subset of an array that is itself a subset of another array, as a subset of this one. Refused only as out of memory.
fn placed_part(
    alloc: Global,
    within: &ArraySubset,
    part: &ArraySubset,
) -> Result<ArraySubset, CodecError>
    requires { LiesIn part.now within.now.shape }
    ensures placed { IfOk result (λ placed. placed ≡ shifted_subset within.now part.now) }
    ensures refused { IfErr result (λ e. e ≡ OutOfMemory) }
{
    let _lengths = within.shape();
    let start = moved(alloc, part.start(), within.start())?;
    let lengths = Axes::from_slice(alloc, part.shape())?;
    match ArraySubset::new_with_axes(start, lengths) {
        Some(placed) => Ok(placed),
        None => unreachable!(),
    }
}

// The subset of a subchunk of a shape, where this is the shape of a subset of another array: the subchunk's subset there. Refused only
// as out of memory.
fn placed_subset(
    alloc: Global,
    number: u64,
    shape: &ChunkShape,
    grid: &ChunkShape,
    sub: &ChunkShape,
    within: &ArraySubset,
) -> Result<ArraySubset, CodecError>
    requires fits { count_of shape.now < 2 ^ 64 }
    requires divides { Divides sub.now shape.now }
    requires grid { grid.now ≡ grid_of shape.now sub.now }
    requires below { number < count_of grid.now }
    requires same { within.now.shape ≡ shape.now }
    ensures placed { IfOk result (λ placed. placed ≡ shifted_subset within.now (grid_subset grid.now sub.now number)) }
    ensures refused { IfErr result (λ e. e ≡ OutOfMemory) }
{
    let _axes = shape.as_slice();
    let Some(part) = subchunk_subset(alloc, number, grid, sub)? else {
        unreachable!()
    };
    let placed = placed_part(alloc, within, &part)?;
    Ok(placed)
}

/// The subset of each subchunk of a shape, which is that of a subset of another array, in this array. Refused only as out of memory.
pub fn placed_subsets(
    alloc: Global,
    count: usize,
    shape: &ChunkShape,
    grid: &ChunkShape,
    sub: &ChunkShape,
    within: &ArraySubset,
) -> Result<Vec<ArraySubset>, CodecError>
    requires count { count ≡ count_of grid.now }
    requires fits { count_of shape.now < 2 ^ 64 }
    requires divides { Divides sub.now shape.now }
    requires grid { grid.now ≡ grid_of shape.now sub.now }
    requires same { within.now.shape ≡ shape.now }
    ensures counted { IfOk result (λ subsets. length subsets.items ≡ count) }
    ensures each { IfOk result (λ subsets. (k : ℕ) → k < count → slice_index_or subsets.items k no_subset ≡ shifted_subset within.now (grid_subset grid.now sub.now k)) }
    ensures refused { IfErr result (λ e. e ≡ OutOfMemory) }
{
    let mut subsets = Vec::with_capacity(alloc, count)?;
    for k in 0..count {
        let placed = placed_subset(alloc, k as u64, shape, grid, sub, within)?;
        subsets.push(placed)?;
    }
    Ok(subsets)
}
