// The elements at the points of a subset.
ghost use Rattle.std.specs.Prelude.{◌≡◌, ◌+◌, ◌/◌, IfOk, IfErr, OnOk, length};
ghost use Rattle.parts_errors.specs.Order.{done, RefusedBy};
ghost use Rattle.parts_row_major.specs.Numbering.{count_of};
ghost use Rattle.parts_row_major.specs.Subsets.{IsServed};
ghost use Rattle.parts_arrays.specs.Arrays.{fixed_array, variable_array, IsWhole, AreOffsets, extracted};
ghost use Rattle.parts_subsets.specs.SubsetRefusals.{SubsetRefusals};
ghost use Rattle.parts_arrays.specs.Refusals.{ValidRefusals, IsValid};

use super::builder::push_parts;
use super::{ArrayBytes, Held};
use crate::data_type::DataType;
use parts_errors::CodecError;
use parts_strided_copy::gather;
use parts_subsets::{ArraySubset, check_subset};
use std::alloc::{AllocError, Global};
use std::borrow::CowSlice;

// The elements of one size at the points of a subset.
fn extract_fixed(
    alloc: Global,
    bytes: &[u8],
    size: usize,
    subset: &ArraySubset,
    shape: &[u64],
) -> Result<ArrayBytes<'static>, AllocError>
    requires whole { IsWhole size bytes.now }
    requires all { length bytes.now / size ≡ count_of shape.now }
    requires served { IsServed subset.now shape.now }
    ensures { IfOk result (λ part. part ≡ extracted (fixed_array size bytes.now) subset.now shape.now) }
{
    let part = gather(alloc, bytes, size, subset, shape)?;
    Ok(ArrayBytes {
        bytes: CowSlice::Owned(part),
        held: Held::Fixed(size),
    })
}

// The elements at the points of a subset, of an array whose elements lie between offsets.
fn extract_variable(
    alloc: Global,
    bytes: &[u8],
    offsets: &[usize],
    subset: &ArraySubset,
    shape: &[u64],
) -> Result<ArrayBytes<'static>, AllocError>
    requires offsets { AreOffsets offsets.now (length bytes.now) }
    requires all { length offsets.now ≡ count_of shape.now + 1 }
    requires served { IsServed subset.now shape.now }
    ensures { IfOk result (λ part. part ≡ extracted (variable_array offsets.now bytes.now) subset.now shape.now) }
{
    let mut taken = Vec::new(alloc);
    let mut ends = Vec::new(alloc);
    ends.push(0)?;
    for (first, len) in subset.runs_in(shape) {
        push_parts(
            &mut taken,
            &mut ends,
            bytes,
            offsets,
            first as usize,
            len as usize,
        )?;
    }
    Ok(ArrayBytes {
        bytes: CowSlice::Owned(taken),
        held: Held::Variable(ends),
    })
}

// Tests that a subset lies in a shape, and that an array has the shape's elements.
pub(super) fn check_whole(
    array: &ArrayBytes,
    subset: &ArraySubset,
    shape: &[u64],
    data_type: &DataType,
) -> Result<(), CodecError>
    ensures served { OnOk result (IsServed subset.now shape.now) }
    ensures same_axes { OnOk result (length subset.now.start ≡ length shape.now) }
    ensures valid { OnOk result (IsValid array.now (count_of shape.now) data_type.now) }
    ensures refused { IfErr result (SubsetRefusals subset.now shape.now (ValidRefusals array.now (count_of shape.now) data_type.now done)) }
{
    let total = check_subset(subset, shape)?;
    prove_eq!(subset.start().len(), shape.len());
    array.validate(total, data_type)
}

// The elements at the points of a subset.
fn extract_elements(
    alloc: Global,
    array: &ArrayBytes,
    subset: &ArraySubset,
    shape: &[u64],
) -> Result<ArrayBytes<'static>, AllocError>
    requires all { length array.now.elements ≡ count_of shape.now }
    requires served { IsServed subset.now shape.now }
    ensures { IfOk result (λ part. part ≡ extracted array.now subset.now shape.now) }
{
    match &array.held {
        Held::Fixed(size) => extract_fixed(alloc, &array.bytes, *size, subset, shape),
        Held::Variable(offsets) => extract_variable(alloc, &array.bytes, offsets, subset, shape),
    }
}

impl ArrayBytes<'_> {
    /// The elements at the points of a subset of an array of a shape, in row-major order of the subset.
    /// Refused, in this order, as `IncompatibleDimensionality`, `OutOfBounds`, `TooLarge` (the shape's count),
    /// or as `validate` refuses this array of the shape's count; or as `OutOfMemory`.
    pub fn extract_array_subset(
        &self,
        alloc: Global,
        subset: &ArraySubset,
        shape: &[u64],
        data_type: &DataType,
    ) -> Result<ArrayBytes<'static>, CodecError>
        ensures extracted { IfOk result (λ part. part ≡ extracted self.now subset.now shape.now) }
        ensures served { OnOk result (IsServed subset.now shape.now) }
        ensures valid { OnOk result (IsValid self.now (count_of shape.now) data_type.now) }
        ensures refused { IfErr result (RefusedBy (SubsetRefusals subset.now shape.now (ValidRefusals self.now (count_of shape.now) data_type.now done))) }
    {
        check_whole(self, subset, shape, data_type)?;
        Ok(extract_elements(alloc, self, subset, shape)?)
    }
}
