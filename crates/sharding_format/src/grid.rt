// The grid of subchunks that a shard is cut into.
ghost use Rattle.std.specs.Prelude.{IsTrue, ◌↔◌, ◌≡◌, ◌<◌, ◌^◌, IfOk, IfErr, OnOk, SomeIff, MatchOption, length};
ghost use Rattle.parts_errors.specs.Order.{RefusedBy};
ghost use Rattle.parts_row_major.specs.Numbering.{AllPositive, count_of};
ghost use Rattle.parts_row_major.specs.Subsets.{IsSubset};
ghost use Rattle.parts_subsets.specs.Grid.{Divides, grid_of, grid_subset};
ghost use Rattle.sharding_format.specs.Index.{index_shape};
ghost use Rattle.sharding_format.specs.Grids.{GridRefusals, SubchunkSubsetRefusals, EndsFit, IsCut, ConcurrencyRefusals};

use parts_errors::CodecError;
use parts_row_major::number_along;
use parts_subsets::{ArraySubset, Axes, ChunkShape};
use std::alloc::{AllocError, Global};

/// How many subchunks a shard has along each axis (Zarr V3 codec `sharding_indexed`, "chunk_shape").
/// Refused, in this order, as `IncompatibleDimensionality` where the numbers of axes differ and as
/// `InvalidSubchunkShape` where an axis is not divided evenly; or as `OutOfMemory`.
pub fn calculate_chunks_per_shard(
    alloc: Global,
    shard_shape: &ChunkShape,
    subchunk_shape: &ChunkShape,
) -> Result<ChunkShape, CodecError>
    ensures grid { IfOk result (λ grid. grid ≡ grid_of shard_shape.now subchunk_shape.now) }
    ensures served { OnOk result ((length shard_shape.now ≡ length subchunk_shape.now) × Divides subchunk_shape.now shard_shape.now) }
    ensures refused { IfErr result (RefusedBy (GridRefusals shard_shape.now subchunk_shape.now)) }
{
    let axes = quotients(alloc, shard_shape.as_slice(), subchunk_shape.as_slice())?;
    Ok(ChunkShape::from_positive(axes))
}

// The quotients of a shard's axes by the subchunk's.
fn quotients(alloc: Global, shape: &[u64], sub: &[u64]) -> Result<Axes, CodecError>
    requires shape { AllPositive shape.now }
    requires sub { AllPositive sub.now }
    ensures grid { IfOk result (λ grid. grid.items ≡ grid_of shape.now sub.now) }
    ensures served { OnOk result ((length shape.now ≡ length sub.now) × Divides sub.now shape.now) }
    ensures positive { IfOk result (λ grid. AllPositive grid.items) }
    ensures refused { IfErr result (RefusedBy (GridRefusals shape.now sub.now)) }
{
    if shape.len() != sub.len() {
        return Err(CodecError::IncompatibleDimensionality);
    }
    let mut axes = Axes::new(alloc);
    for i in 0..shape.len() {
        if shape[i] % sub[i] != 0 {
            return Err(CodecError::InvalidSubchunkShape);
        }
        axes.push(shape[i] / sub[i])?;
    }
    Ok(axes)
}

// Whether a subchunk shape divides a shape with as many axes evenly.
fn divides(shape: &[u64], sub: &[u64]) -> bool
    requires axes { length shape.now ≡ length sub.now }
    requires sub { AllPositive sub.now }
    ensures { IsTrue result ↔ Divides sub.now shape.now }
{
    for axis in 0..shape.len() {
        if shape[axis] % sub[axis] != 0 {
            return false;
        }
    }
    true
}

// The product of the quotients of a shard's axes by the subchunk's, if it fits.
fn count_quotients(shape: &[u64], sub: &[u64]) -> Option<u64>
    requires shape { AllPositive shape.now }
    requires sub { AllPositive sub.now }
    requires axes { length shape.now ≡ length sub.now }
    requires divides { Divides sub.now shape.now }
    ensures { SomeIff result (count_of (grid_of shape.now sub.now) < 2 ^ 64) (count_of (grid_of shape.now sub.now)) }
{
    let mut product = 1u64;
    for axis in 0..shape.len() {
        product = product.checked_mul(shape[axis] / sub[axis])?;
    }
    Some(product)
}

// How many subchunks a shard has. Takes no memory.
pub fn count_subchunks(shape: &[u64], sub: &[u64]) -> Result<u64, CodecError>
    requires shape { AllPositive shape.now }
    requires sub { AllPositive sub.now }
    ensures count { IfOk result (λ count. count ≡ count_of (grid_of shape.now sub.now)) }
    ensures served { OnOk result (IsCut shape.now sub.now) }
    ensures refused { IfErr result (ConcurrencyRefusals shape.now sub.now) }
{
    if shape.len() != sub.len() {
        return Err(CodecError::IncompatibleDimensionality);
    }
    if !divides(shape, sub) {
        return Err(CodecError::InvalidSubchunkShape);
    }
    count_quotients(shape, sub).ok_or(CodecError::TooLarge)
}

/// The shape of the index of a grid of subchunks: the grid with one more axis of length 2, for offset and size.
/// Refused only as out of memory.
pub fn sharding_index_shape(
    alloc: Global,
    chunks_per_shard: &ChunkShape,
) -> Result<ChunkShape, AllocError>
    ensures { IfOk result (λ shape. shape ≡ index_shape chunks_per_shard.now) }
{
    let mut axes = Axes::from_slice(alloc, chunks_per_shard.as_slice())?;
    axes.push(2)?;
    Ok(ChunkShape::from_positive(axes))
}

// The first cell of a subchunk along each axis. `None` where an end of its subset passes `u64::MAX`.
fn first_cell(
    alloc: Global,
    number: u64,
    grid: &[u64],
    sub: &[u64],
) -> Result<Option<Axes>, AllocError>
    requires axes { length grid.now ≡ length sub.now }
    requires below { number < count_of grid.now }
    ensures { IfOk result (λ found. MatchOption found
        (¬ (IsSubset (grid_subset grid.now sub.now number).start sub.now))
        (λ start. start.items ≡ (grid_subset grid.now sub.now number).start)) }
{
    let mut start = Axes::new(alloc);
    for axis in 0..sub.len() {
        let point = number_along(number, grid, axis);
        let Some(first) = point.checked_mul(sub[axis]) else {
            return Ok(None);
        };
        start.push(first)?;
    }
    Ok(Some(start))
}

/// The subset of the cells of a subchunk, by its number in the grid; `None` where the grid has no such number.
/// Refused, in this order, as `IncompatibleDimensionality` where grid and subchunk shape differ in their number
/// of axes, as `TooLarge` where the grid's count or an end of the subset passes `u64::MAX`; or as `OutOfMemory`.
pub fn subchunk_subset(
    alloc: Global,
    number: u64,
    grid: &ChunkShape,
    sub: &ChunkShape,
) -> Result<Option<ArraySubset>, CodecError>
    ensures subset { IfOk result (λ found. SomeIff found (number < count_of grid.now) (grid_subset grid.now sub.now number)) }
    ensures served { OnOk result ((length grid.now ≡ length sub.now) × (count_of grid.now < 2 ^ 64) × EndsFit grid.now sub.now number) }
    ensures refused { IfErr result (RefusedBy (SubchunkSubsetRefusals grid.now sub.now number)) }
{
    if grid.as_slice().len() != sub.as_slice().len() {
        return Err(CodecError::IncompatibleDimensionality);
    }
    let Some(count) = grid.num_elements() else {
        return Err(CodecError::TooLarge);
    };
    if number >= count {
        return Ok(None);
    }
    let Some(start) = first_cell(alloc, number, grid.as_slice(), sub.as_slice())? else {
        return Err(CodecError::TooLarge);
    };
    let shape = Axes::from_slice(alloc, sub.as_slice())?;
    match ArraySubset::new_with_axes(start, shape) {
        Some(subset) => Ok(Some(subset)),
        None => Err(CodecError::TooLarge),
    }
}
