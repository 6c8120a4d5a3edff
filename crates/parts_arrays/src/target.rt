// A subset of borrowed bytes to write elements into.
ghost use Rattle.std.specs.Prelude.{◌≡◌, ℕ, ◌+◌, ◌*◌, ◌^◌, ◌<◌, ◌≤◌, IsTrue, IfOk, IfErr, OnOk, OnErr, IsSome, IfSome, ◌↔◌, length};
ghost use Rattle.parts_errors.specs.Order.{◌or◌then◌, done};
ghost use Rattle.parts_row_major.specs.Numbering.{count_of};
ghost use Rattle.parts_row_major.specs.Subsets.{Subset, number_in, IsServed, IsTarget};
ghost use Rattle.parts_arrays.specs.TargetLaws.{target-prop};
ghost use Rattle.parts_row_major.specs.Pieces.{piece};
ghost use Rattle.parts_strided_copy.specs.Paired.{elements_in_rows, from_at, AreRowsWithin, AreRowsOf};
ghost use Rattle.parts_arrays.specs.Arrays.{element_of};
ghost use Rattle.parts_arrays.specs.declared.data_type.DataTypeSize.TheVariants.{Fixed};
ghost use Rattle.parts_errors.specs.declared.error.CodecError.TheVariants.{InvalidNumberOfElements, WrongElementKind};

use crate::array_bytes::ArrayBytes;
use crate::data_type::DataTypeSize;
use crate::fill_value::FillValue;
use parts_errors::CodecError;
use parts_strided_copy::{PairedRows, copy_subset, fill_subset, scatter};
use parts_subsets::{ArraySubset, check_subset, points_in};

/// A subset of borrowed bytes to write elements into: the bytes are an array of a shape in row-major order, whose elements
/// have one size, and the subset is a subset of that shape. Bytes outside the subset stay as they are.
#[derive(Drop)]
pub struct FixedTarget<'a> {
    bytes: &'a mut [u8],
    element_size: usize,
    shape: &'a [u64],
    subset: &'a ArraySubset,
    pub ghost is_target: { IsTarget (length bytes.now) element_size shape.now subset.now } by { target-prop (length bytes.now) element_size shape.now subset.now },
}

// The bytes of an array whose elements have this size.
fn whole_elements<'a>(array: &'a ArrayBytes, size: usize) -> &'a [u8]
    requires { array.now.kind ≡ Fixed size }
    ensures whole { length result.now ≡ length array.now.elements * size }
    ensures elements { (k : ℕ) → k < length array.now.elements → piece size result.now k ≡ element_of array.now k }
{
    let _kind = array.kind();
    array.bytes()
}

// The bytes of an array that has so many elements of a size, or the first reason to refuse it.
fn elements_of_size<'a>(
    array: &'a ArrayBytes,
    size: usize,
    count: u64,
) -> Result<&'a [u8], CodecError>
    ensures kind { OnOk result (array.now.kind ≡ Fixed size) }
    ensures counted { OnOk result (count ≡ length array.now.elements) }
    ensures whole { IfOk result (λ bytes. length bytes.now ≡ count * size) }
    ensures elements { IfOk result (λ bytes. (k : ℕ) → k < count → piece size bytes.now k ≡ element_of array.now k) }
    ensures refused { IfErr result (
        array.now.kind ≡ Fixed size or WrongElementKind then
        count ≡ length array.now.elements or InvalidNumberOfElements then
        done) }
{
    if array.kind() != DataTypeSize::Fixed(size) {
        return Err(CodecError::WrongElementKind);
    }
    if array.len() as u64 != count {
        return Err(CodecError::InvalidNumberOfElements);
    }
    Ok(whole_elements(array, size))
}

impl<'a> FixedTarget<'a> {
    ghost use Rattle.parts_arrays.specs.Targets.{target_bytes, target_element_size, target_shape, target_subset, IsWritten, IsPartWritten, TargetRefusals};

    /// Whether so many bytes are an array of a shape with elements of a size that isn't 0, in which the subset lies.
    /// Takes no memory.
    pub fn fits(len: usize, element_size: usize, shape: &[u64], subset: &ArraySubset) -> bool
        ensures { IsTrue result ↔ IsTarget len element_size shape.now subset.now }
    {
        let Ok(total) = check_subset(subset, shape) else {
            return false;
        };
        let Some(wanted) = total.checked_mul(element_size as u64) else {
            return false;
        };
        element_size != 0 && len as u64 == wanted
    }

    /// The target over bytes that fit it. Takes no memory.
    pub fn over(
        bytes: &'a mut [u8],
        element_size: usize,
        shape: &'a [u64],
        subset: &'a ArraySubset,
    ) -> Self
        requires { IsTarget (length bytes.old) element_size shape.now subset.now }
        ensures bytes { target_bytes result ≡ bytes.entry }
        ensures element_size { target_element_size result ≡ element_size }
        ensures shape { target_shape result ≡ shape.now }
        ensures subset { target_subset result ≡ subset.now }
    {
        FixedTarget {
            bytes,
            element_size,
            shape,
            subset,
        }
    }

    /// The target over bytes. `None` unless the size isn't 0, the length is the shape's count times it and the
    /// subset lies in the shape. Takes no memory.
    pub fn new(
        bytes: &'a mut [u8],
        element_size: usize,
        shape: &'a [u64],
        subset: &'a ArraySubset,
    ) -> Option<Self>
        ensures made { IsSome result ↔ IsTarget (length bytes.old) element_size shape.now subset.now }
        ensures bytes { IfSome result (λ target. target_bytes target ≡ bytes.entry) }
        ensures element_size { IfSome result (λ target. target_element_size target ≡ element_size) }
        ensures shape { IfSome result (λ target. target_shape target ≡ shape.now) }
        ensures subset { IfSome result (λ target. target_subset target ≡ subset.now) }
    {
        if !FixedTarget::fits(bytes.len(), element_size, shape, subset) {
            return None;
        }
        Some(FixedTarget::over(bytes, element_size, shape, subset))
    }

    /// How many elements the subset has.
    pub fn num_elements(&self) -> u64
        ensures { result ≡ count_of (target_subset self.now).shape }
    {
        points_in(self.subset, self.shape)
    }

    /// How many bytes each element has, which is never 0.
    pub fn element_size(&self) -> usize
        ensures { result ≡ target_element_size self.now }
    {
        self.element_size
    }

    /// The shape of the array that the bytes are.
    pub fn shape(&self) -> &[u64]
        ensures { result.now ≡ target_shape self.now }
    {
        self.shape
    }

    /// The subset that elements are written into.
    pub fn subset(&self) -> &ArraySubset
        ensures { result.now ≡ target_subset self.now }
    {
        self.subset
    }

    /// Writes the fill value at each point of the subset. Refused only as `WrongElementKind`, where its length isn't
    /// the element size; the bytes are then as they were. Takes no memory.
    pub fn fill(&mut self, fill_value: &FillValue) -> Result<(), CodecError>
        ensures written { OnOk result (IsWritten self.old self.new (λ k. fill_value.now)) }
        ensures fits { OnOk result (length fill_value.now ≡ target_element_size self.old) }
        ensures kept { OnErr result (self.new ≡ self.old) }
        ensures refused { IfErr result (length fill_value.now ≡ target_element_size self.old or WrongElementKind then done) }
    {
        let element = fill_value.as_ne_bytes();
        if element.len() != self.element_size {
            return Err(CodecError::WrongElementKind);
        }
        fill_subset(
            self.bytes,
            self.element_size,
            self.subset,
            self.shape,
            element,
        );
        Ok(())
    }

    /// Writes the elements of an array at the points of the subset, in row-major order of the subset. Refused, in
    /// this order, as `WrongElementKind` (variable elements, or another element size), `InvalidNumberOfElements`;
    /// the bytes are then as they were. Takes no memory.
    pub fn copy_from(&mut self, array: &ArrayBytes) -> Result<(), CodecError>
        ensures written { OnOk result (IsWritten self.old self.new (element_of array.now)) }
        ensures kind { OnOk result (array.now.kind ≡ Fixed (target_element_size self.old)) }
        ensures counted { OnOk result (count_of (target_subset self.old).shape ≡ length array.now.elements) }
        ensures kept { OnErr result (self.new ≡ self.old) }
        ensures refused { IfErr result (TargetRefusals array.now.kind (length array.now.elements) self.old done) }
    {
        let update = elements_of_size(array, self.element_size, self.num_elements())?;
        scatter(
            self.bytes,
            self.element_size,
            self.subset,
            self.shape,
            update,
        );
        Ok(())
    }

    /// Writes the elements at the points of a subset of an array into the target's subset, both in row-major order: the array has
    /// the shape and elements of the target's size, and its subset as many points as the target's. Takes no memory.
    pub fn copy_subset_from(&mut self, array: &ArrayBytes, subset: &ArraySubset, shape: &[u64])
        requires kind { array.now.kind ≡ Fixed (target_element_size self.old) }
        requires all { length array.now.elements ≡ count_of shape.now }
        requires served { IsServed subset.now shape.now }
        requires counted { count_of subset.now.shape ≡ count_of (target_subset self.old).shape }
        ensures { IsWritten self.old self.new (λ k. element_of array.now (number_in subset.now shape.now k)) }
    {
        let update = whole_elements(array, self.element_size);
        copy_subset(
            self.bytes,
            self.element_size,
            self.subset,
            self.shape,
            update,
            subset,
            shape,
        );
    }

    /// Writes elements that come one after the other at the points of a subset of the target's array, in row-major order of this
    /// subset. Takes no memory.
    pub fn copy_part(&mut self, position: &ArraySubset, elements: &[u8])
        requires served { IsServed position.now (target_shape self.old) }
        requires whole { length elements.now ≡ count_of position.now.shape * target_element_size self.old }
        ensures { IsPartWritten self.old self.new position.now (piece (target_element_size self.old) elements.now) }
    {
        scatter(
            self.bytes,
            self.element_size,
            position,
            self.shape,
            elements,
        );
    }

    /// Writes one element at each point of a subset of the target's array. Takes no memory.
    pub fn fill_part(&mut self, position: &ArraySubset, element: &[u8])
        requires served { IsServed position.now (target_shape self.old) }
        requires whole { length element.now ≡ target_element_size self.old }
        ensures { IsPartWritten self.old self.new position.now (λ k. element.now) }
    {
        fill_subset(self.bytes, self.element_size, position, self.shape, element);
    }

    /// Writes elements of bytes where their rows lie in the target's array. Takes no memory.
    pub fn copy_rows(&mut self, rows: &PairedRows, elements: &[u8])
        requires rows { AreRowsWithin rows.now (count_of (target_shape self.old)) }
        requires from { (k : ℕ) → k < elements_in_rows rows.now → from_at rows.now k * target_element_size self.old + target_element_size self.old ≤ length elements.now }
        ensures { (position : Subset) → AreRowsOf rows.now position (target_shape self.old)
            → IsPartWritten self.old self.new position (λ k. piece (target_element_size self.old) elements.now (from_at rows.now k)) }
    {
        rows.copy(self.bytes, self.element_size, elements);
    }

    /// Writes one element over each of the rows in the target's array. Takes no memory.
    pub fn fill_rows(&mut self, rows: &PairedRows, element: &[u8])
        requires rows { AreRowsWithin rows.now (count_of (target_shape self.old)) }
        requires from { (k : ℕ) → k < elements_in_rows rows.now → from_at rows.now k < 2 ^ 64 }
        requires whole { length element.now ≡ target_element_size self.old }
        ensures { (position : Subset) → AreRowsOf rows.now position (target_shape self.old) → IsPartWritten self.old self.new position (λ k. element.now) }
    {
        rows.fill(self.bytes, self.element_size, element);
    }
}
