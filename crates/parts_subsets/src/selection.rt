// What is asked of an array, tested against its shape and numbered in it.
ghost use Rattle.std.specs.Prelude.{◌≡◌, ℕ, ◌^◌, ◌<◌, List, [], IfOk, IfErr, OnOk, IsTrue, ◌↔◌, All, length, map, slice_index_or};
ghost use Rattle.parts_errors.specs.Order.{done};
ghost use Rattle.parts_row_major.specs.Numbering.{count_of, number_of, IsInside};
ghost use Rattle.parts_row_major.specs.Subsets.{numbers_in};
ghost use Rattle.parts_subsets.specs.Selections.{IsSelectionOf, LiesWithin, SelectionRefusals};

use crate::indexer::Indexer;
use crate::runs::subset_numbers;
use crate::shape::ChunkShape;
use parts_errors::CodecError;
use std::alloc::{AllocError, Global};

// Whether a coordinate that is asked is inside a shape.
fn is_inside<N: Indexer>(indexer: &N, i: u64, shape: &[u64]) -> bool
    requires axes { (N.selection indexer.now).axes ≡ length shape.now }
    requires position { i < length (N.selection indexer.now).points }
    requires whole { length (slice_index_or (N.selection indexer.now).points i []) ≡ length shape.now }
    ensures { IsTrue result ↔ IsInside (slice_index_or (N.selection indexer.now).points i []) shape.now }
{
    for axis in 0..shape.len() {
        if indexer.index_at(i, axis) >= shape[axis] {
            return false;
        }
    }
    true
}

// Whether what is asked lies in a shape: a subset by its ends, other coordinates one by one. A shape of no axes has every
// coordinate of no numbers inside: these take no memory, so there may be more than can be looked at.
fn lies_within<N: Indexer>(indexer: &N, shape: &[u64]) -> bool
    requires axes { (N.selection indexer.now).axes ≡ length shape.now }
    requires each { (i : ℕ) → i < length (N.selection indexer.now).points → length (slice_index_or (N.selection indexer.now).points i []) ≡ length shape.now }
    ensures { IsTrue result ↔ LiesWithin (N.selection indexer.now).subset (N.selection indexer.now).points shape.now }
{
    if let Some(subset) = indexer.as_array_subset() {
        return subset.lies_in(shape);
    }
    if shape.is_empty() {
        return true;
    }
    for i in 0..indexer.len().unwrap() {
        if !is_inside(indexer, i, shape) {
            return false;
        }
    }
    true
}

/// How many coordinates an indexer asks of a shape. Refused, in this order, as `IncompatibleDimensionality`, as
/// `OutOfBounds` where a coordinate is not inside the shape or a subset, also an empty one, ends outside it, and
/// as `TooLarge` where their count passes `u64::MAX`. Takes no memory.
pub fn check_selection<N: Indexer>(indexer: &N, shape: &ChunkShape) -> Result<u64, CodecError>
    ensures count { IfOk result (λ count. count ≡ length (N.selection indexer.now).points) }
    ensures selection { OnOk result (IsSelectionOf shape.now (N.selection indexer.now)) }
    ensures inside { OnOk result (All (λ point. IsInside point shape.now) (N.selection indexer.now).points) }
    ensures refused { IfErr result (SelectionRefusals shape.now (N.selection indexer.now) done) }
{
    let shape = shape.as_slice();
    if indexer.dimensionality() != shape.len() {
        return Err(CodecError::IncompatibleDimensionality);
    }
    if !lies_within(indexer, shape) {
        return Err(CodecError::OutOfBounds);
    }
    indexer.len().ok_or(CodecError::TooLarge)
}

/// The row-major (C order) number in a shape of one of the coordinates that an indexer requests, which are inside it; the place is
/// below `len`.
pub fn requested_number<N: Indexer>(indexer: &N, i: u64, shape: &[u64]) -> u64
    requires axes { (N.selection indexer.now).axes ≡ length shape.now }
    requires position { i < length (N.selection indexer.now).points }
    requires inside { IsInside (slice_index_or (N.selection indexer.now).points i []) shape.now }
    requires fits { count_of shape.now < 2 ^ 64 }
    ensures value { result ≡ number_of (slice_index_or (N.selection indexer.now).points i []) shape.now }
    ensures below { result < count_of shape.now }
{
    let mut stride = 1;
    let mut number = 0;
    for axis in (0..shape.len()).rev() {
        number += indexer.index_at(i, axis) * stride;
        stride *= shape[axis];
    }
    number
}

/// The row-major (C order) numbers in a shape of the coordinates that an indexer requests, in its order. `count` is
/// how many there are. Refused only as out of memory.
pub fn point_numbers<N: Indexer>(
    alloc: Global,
    indexer: &N,
    count: u64,
    shape: &ChunkShape,
) -> Result<Vec<u64>, AllocError>
    requires selection { IsSelectionOf shape.now (N.selection indexer.now) }
    requires count { count ≡ length (N.selection indexer.now).points }
    requires fits { count_of shape.now < 2 ^ 64 }
    ensures numbers { IfOk result (λ numbers. numbers.items ≡ map (λ point. number_of point shape.now) (N.selection indexer.now).points) }
    ensures below { IfOk result (λ numbers. All (λ number. number < count_of shape.now) numbers.items) }
{
    let shape = shape.as_slice();
    if let Some(subset) = indexer.as_array_subset() {
        return subset_numbers(alloc, subset, count, shape);
    }
    let mut numbers = Vec::with_capacity(alloc, count as usize)?;
    for i in 0..count {
        numbers.push(requested_number(indexer, i, shape))?;
    }
    Ok(numbers)
}
