// The elements of an array by those of the transposed one, row by row.
ghost use Rattle.std.specs.Prelude.{◌≡◌, ◌+◌, ◌*◌, ◌<◌, ◌≤◌, ◌^◌, ◌++◌, ℕ, [], IfOk, IfErr, OnOk, drop, length, map, slice_index};
ghost use Rattle.std.specs.List.{range_with_len};
ghost use Rattle.parts_errors.specs.declared.error.CodecError.TheVariants.{OutOfMemory};
ghost use Rattle.parts_row_major.specs.Numbering.{AllPositive, count_of, point_of};
ghost use Rattle.parts_row_major.specs.Pieces.{piece};
ghost use Rattle.parts_arrays.specs.Arrays.{element_of};
ghost use Rattle.parts_arrays.specs.declared.data_type.DataTypeSize.TheVariants.{Fixed};
ghost use Rattle.array_codecs.specs.AxisOrders.{number_moved, permuted, transposed};
ghost use Rattle.array_codecs.specs.AxisOrderLaws.{IsPermutation, IsUndone};

use crate::moved_points::MovedPoints;
use parts_arrays::{ArrayBuilder, ArrayBytes, DataTypeSize};
use parts_errors::CodecError;
use parts_row_major::{count, number_along};
use parts_subsets::{ChunkShape, requested_number};
use std::alloc::{AllocError, Global};

// Adds elements of one size, which lie one step apart in an array, behind others.
fn push_pieces(
    moved: &mut ArrayBuilder,
    bytes: &[u8],
    size: usize,
    first: u64,
    step: u64,
    run: u64,
) -> Result<(), AllocError>
    requires some { 0 < size }
    requires kind { moved.old.kind ≡ Fixed size }
    requires within { (k : ℕ) → k < run → (first + k * step) * size + size ≤ length bytes.now }
    ensures kind { moved.new.kind ≡ moved.old.kind }
    ensures ok { OnOk result (moved.new.elements ≡ moved.old.elements ++ map (λ k. piece size bytes.now (first + k * step)) (range_with_len 0 run)) }
{
    for k in 0..run {
        let number = first + k * step;
        moved.push_first(&bytes[number as usize * size..], size)?;
    }
    Ok(())
}

// Adds elements that lie one step apart in an array behind others.
fn push_elements(
    moved: &mut ArrayBuilder,
    inner: &ArrayBytes,
    first: u64,
    step: u64,
    run: u64,
) -> Result<(), AllocError>
    requires kind { moved.old.kind ≡ inner.now.kind }
    requires within { (k : ℕ) → k < run → first + k * step < length inner.now.elements }
    ensures kind { moved.new.kind ≡ moved.old.kind }
    ensures ok { OnOk result (moved.new.elements ≡ moved.old.elements ++ map (λ k. element_of inner.now (first + k * step)) (range_with_len 0 run)) }
{
    let _kind = inner.kind();
    let _count = inner.len();
    for k in 0..run {
        let number = first + k * step;
        moved.push(inner.element(number as usize))?;
    }
    Ok(())
}

// The same: elements of one size are copied as pieces of the array's bytes, which is quicker.
fn push_row(
    moved: &mut ArrayBuilder,
    inner: &ArrayBytes,
    first: u64,
    step: u64,
    run: u64,
) -> Result<(), AllocError>
    requires kind { moved.old.kind ≡ inner.now.kind }
    requires within { (k : ℕ) → k < run → first + k * step < length inner.now.elements }
    ensures kind { moved.new.kind ≡ moved.old.kind }
    ensures ok { OnOk result (moved.new.elements ≡ moved.old.elements ++ map (λ k. element_of inner.now (first + k * step)) (range_with_len 0 run)) }
{
    if let DataTypeSize::Fixed(size) = inner.kind() {
        if let Some(bytes) = inner.fixed_bytes() {
            return push_pieces(moved, bytes, size, first, step, run);
        }
    }
    push_elements(moved, inner, first, step, run)
}

// How many elements stand in a row from the one with a number on: to the end of the last axis, or one where there is no axis.
fn rest_of_row(axes: &[u64], number: u64) -> u64
    requires { number < count_of axes.now }
    ensures none { axes.now ≡ [] → result ≡ 1 }
    ensures rest { (l : ℕ) → length axes.now ≡ l + 1 → slice_index (point_of number axes.now) l + result ≡ slice_index axes.now l }
    ensures some { 0 < result }
{
    if axes.is_empty() {
        return 1;
    }
    let last = axes.len() - 1;
    axes[last] - number_along(number, axes, last)
}

// How far apart neighbours of a row stand in the transposed array.
fn step_of(inverse: &[u64], inner_axes: &[u64]) -> u64
    requires within { (l : ℕ) → l < length inverse.now → slice_index inverse.now l < length inner_axes.now }
    requires positive { AllPositive inner_axes.now }
    requires fits { count_of inner_axes.now < 2 ^ 64 }
    ensures { (l : ℕ) → length inverse.now ≡ l + 1 → result ≡ count_of (drop (slice_index inverse.now l + 1) inner_axes.now) }
{
    if inverse.is_empty() {
        return 1;
    }
    let place = inverse[inverse.len() - 1] as usize;
    count(&inner_axes[place + 1..]).unwrap()
}

// Where the element with a number stands in the transposed array.
fn moved_number(points: &MovedPoints, inner_axes: &[u64], number: u64) -> u64
    requires permutation { IsPermutation points.now.order.now }
    requires shape { inner_axes.now ≡ permuted points.now.order.now points.now.shape.now }
    requires below { number < count_of points.now.shape.now }
    requires fits { count_of inner_axes.now < 2 ^ 64 }
    ensures { result ≡ number_moved points.now.order.now points.now.shape.now number }
{
    requested_number(points, number, inner_axes)
}

// The elements of an array of a shape, by those of the array that is transposed by an order of axes, which another order undoes.
pub fn moved_elements(
    alloc: Global,
    inner: &ArrayBytes,
    order: &[u64],
    inverse: &[u64],
    shape: &ChunkShape,
    inner_shape: &ChunkShape,
) -> Result<ArrayBytes<'static>, CodecError>
    requires undone { IsUndone order.now inverse.now }
    requires undoes { IsUndone inverse.now order.now }
    requires axes { length shape.now ≡ length order.now }
    requires shape { inner_shape.now ≡ permuted order.now shape.now }
    requires counted { length inner.now.elements ≡ count_of inner_shape.now }
    ensures moved { IfOk result (λ array. array ≡ record { kind = inner.now.kind; elements = transposed order.now shape.now [] inner.now.elements }) }
    ensures refused { IfErr result (λ e. e ≡ OutOfMemory) }
{
    let (axes, inner_axes) = (shape.as_slice(), inner_shape.as_slice());
    let count = inner.len() as u64;
    let points = MovedPoints {
        shape: axes,
        order,
        count,
    };
    let mut moved = ArrayBuilder::new(alloc, inner.kind())?;
    moved.reserve(inner.len(), inner.byte_len())?;
    let step = step_of(inverse, inner_axes);
    let mut done = 0;
    while done < count {
        let first = moved_number(&points, inner_axes, done);
        let run = rest_of_row(axes, done);
        push_row(&mut moved, inner, first, step, run)?;
        done += run;
    }
    Ok(moved.finish())
}
