// An array with the elements at the points of a subset replaced.
ghost use Rattle.std.specs.Prelude.{◌≡◌, ℕ, ◌+◌, ◌/◌, ◌<◌, Option, Some, None, IfOk, IfErr, IfSome, OnOk, length, slice_index_or};
ghost use Rattle.parts_errors.specs.Order.{done, RefusedBy};
ghost use Rattle.parts_row_major.specs.Numbering.{count_of};
ghost use Rattle.parts_row_major.specs.Subsets.{IsServed};
ghost use Rattle.parts_arrays.specs.Arrays.{fixed_array, variable_array, IsWhole, AreOffsets, IsOverlaid, SourcesAre, chosen};
ghost use Rattle.parts_subsets.specs.SubsetRefusals.{SubsetRefusals};
ghost use Rattle.parts_arrays.specs.Refusals.{ValidRefusals, IsValid};

use super::extract::check_whole;
use super::{ArrayBytes, Held, part_at};
use crate::data_type::DataType;
use parts_errors::CodecError;
use parts_strided_copy::scatter;
use parts_subsets::{ArraySubset, points_in};
use std::alloc::{AllocError, Global};
use std::borrow::CowSlice;

// The update's elements written over those of one size at the points of a subset.
fn update_fixed(
    alloc: Global,
    bytes: &[u8],
    size: usize,
    subset: &ArraySubset,
    shape: &[u64],
    update: &[u8],
) -> Result<ArrayBytes<'static>, AllocError>
    requires whole { IsWhole size bytes.now }
    requires all { length bytes.now / size ≡ count_of shape.now }
    requires served { IsServed subset.now shape.now }
    requires whole_update { IsWhole size update.now }
    requires all_update { length update.now / size ≡ count_of subset.now.shape }
    ensures { IfOk result (λ new. IsOverlaid subset.now shape.now
        (fixed_array size bytes.now) (fixed_array size update.now) new) }
{
    let mut output = Vec::from_slice(alloc, bytes)?;
    scatter(&mut output, size, subset, shape, update);
    Ok(ArrayBytes {
        bytes: CowSlice::Owned(output),
        held: Held::Fixed(size),
    })
}

// Which of the update's elements goes to each place of an array, where any does.
fn sources(
    alloc: Global,
    subset: &ArraySubset,
    shape: &[u64],
    count: usize,
) -> Result<Vec<Option<usize>>, AllocError>
    requires served { IsServed subset.now shape.now }
    requires all { count ≡ count_of shape.now }
    ensures sources { IfOk result (λ made. SourcesAre subset.now shape.now made.items) }
    ensures all { IfOk result (λ made. length made.items ≡ count) }
    ensures below { IfOk result (λ made. (i k : ℕ) → slice_index_or made.items i None ≡ Some k → k < count_of subset.now.shape) }
{
    let total = points_in(subset, shape);
    let mut made = Vec::from_elem(alloc, None, count)?;
    for position in 0..total {
        made[subset.number_at(position, shape) as usize] = Some(position as usize);
    }
    Ok(made)
}

// The update's part of a source, or else the array's own part.
fn chosen_part<'a>(
    bytes: &'a [u8],
    offsets: &[usize],
    update: &'a [u8],
    update_offsets: &[usize],
    source: Option<usize>,
    i: usize,
) -> &'a [u8]
    requires offsets { AreOffsets offsets.now (length bytes.now) }
    requires update_offsets { AreOffsets update_offsets.now (length update.now) }
    requires below { i + 1 < length offsets.now }
    requires source_below { IfSome source (λ k. k + 1 < length update_offsets.now) }
    ensures { result.now ≡ chosen bytes.now offsets.now update.now update_offsets.now source i }
{
    match source {
        Some(k) => part_at(update, update_offsets, k),
        None => part_at(bytes, offsets, i),
    }
}

// The update's elements put in at the points of a subset, of arrays whose elements lie between offsets.
fn update_variable(
    alloc: Global,
    bytes: &[u8],
    offsets: &[usize],
    subset: &ArraySubset,
    shape: &[u64],
    update: &[u8],
    update_offsets: &[usize],
) -> Result<ArrayBytes<'static>, AllocError>
    requires offsets { AreOffsets offsets.now (length bytes.now) }
    requires all { length offsets.now ≡ count_of shape.now + 1 }
    requires served { IsServed subset.now shape.now }
    requires update_offsets { AreOffsets update_offsets.now (length update.now) }
    requires all_update { length update_offsets.now ≡ count_of subset.now.shape + 1 }
    ensures { IfOk result (λ new. IsOverlaid subset.now shape.now
        (variable_array offsets.now bytes.now) (variable_array update_offsets.now update.now) new) }
{
    let count = offsets.len() - 1;
    let made = sources(alloc, subset, shape, count)?;
    let mut taken = Vec::new(alloc);
    let mut ends = Vec::new(alloc);
    ends.push(0)?;
    for i in 0..count {
        taken.extend_from_slice(chosen_part(bytes, offsets, update, update_offsets, made[i], i))?;
        ends.push(taken.len())?;
    }
    Ok(ArrayBytes {
        bytes: CowSlice::Owned(taken),
        held: Held::Variable(ends),
    })
}

// The update's elements put in at the points of a subset.
fn update_elements(
    alloc: Global,
    output: &ArrayBytes,
    shape: &[u64],
    subset: &ArraySubset,
    update: &ArrayBytes,
) -> Result<ArrayBytes<'static>, AllocError>
    requires all { length output.now.elements ≡ count_of shape.now }
    requires served { IsServed subset.now shape.now }
    requires all_update { length update.now.elements ≡ count_of subset.now.shape }
    requires same_kind { update.now.kind ≡ output.now.kind }
    ensures { IfOk result (IsOverlaid subset.now shape.now output.now update.now) }
{
    match (&output.held, &update.held) {
        (Held::Fixed(size), Held::Fixed(_)) => update_fixed(
            alloc,
            &output.bytes,
            *size,
            subset,
            shape,
            &update.bytes,
        ),
        (Held::Variable(offsets), Held::Variable(update_offsets)) => update_variable(
            alloc,
            &output.bytes,
            offsets,
            subset,
            shape,
            &update.bytes,
            update_offsets,
        ),
        _ => unreachable!(),
    }
}

/// The array `output` of a shape with the elements at the points of a subset replaced by those of `update`,
/// which come in row-major order of the subset. Refused, in this order, as `IncompatibleDimensionality`,
/// `OutOfBounds`, `TooLarge` (the shape's count), as `validate` refuses `output`, as it refuses `update`; or as
/// `OutOfMemory`.
pub fn update_array_bytes(
    alloc: Global,
    output: &ArrayBytes,
    shape: &[u64],
    subset: &ArraySubset,
    update: &ArrayBytes,
    data_type: &DataType,
) -> Result<ArrayBytes<'static>, CodecError>
    ensures updated { IfOk result (IsOverlaid subset.now shape.now output.now update.now) }
    ensures served { OnOk result (IsServed subset.now shape.now) }
    ensures valid { OnOk result (IsValid output.now (count_of shape.now) data_type.now) }
    ensures valid_update { OnOk result (IsValid update.now (count_of subset.now.shape) data_type.now) }
    ensures refused { IfErr result (RefusedBy (SubsetRefusals subset.now shape.now
        (ValidRefusals output.now (count_of shape.now) data_type.now
        (ValidRefusals update.now (count_of subset.now.shape) data_type.now done)))) }
{
    check_whole(output, subset, shape, data_type)?;
    update.validate(points_in(subset, shape), data_type)?;
    Ok(update_elements(alloc, output, shape, subset, update)?)
}
