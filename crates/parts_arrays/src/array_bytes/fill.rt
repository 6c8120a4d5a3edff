// Arrays of fill values, made and told.
ghost use Rattle.std.specs.Prelude.{◌≡◌, ℕ, ◌+◌, ◌-◌, ◌*◌, ◌/◌, ◌^◌, ◌<◌, IfOk, IfErr, OnOk, IsTrue, All, ◌↔◌, length, map, replicate};
ghost use Rattle.std.specs.List.{range_with_len};
ghost use Rattle.parts_errors.specs.Order.{done, RefusedBy};
ghost use Rattle.parts_arrays.specs.Types.{size_of, HasElements, FitsKind};
ghost use Rattle.parts_row_major.specs.Pieces.{piece, pieces};
ghost use Rattle.parts_arrays.specs.Arrays.{IsWhole, AreOffsets, part};
ghost use Rattle.parts_arrays.specs.Refusals.{FillFits, FillRefusals};
ghost use Rattle.parts_arrays.specs.declared.data_type.DataTypeSize.TheVariants.{Fixed, Variable};

use super::{ArrayBytes, Held, part_at};
use crate::data_type::{DataType, DataTypeSize};
use crate::fill_value::FillValue;
use parts_errors::CodecError;
use parts_strided_copy::fill_run;
use std::alloc::{AllocError, Global};
use std::borrow::CowSlice;

// Whether an element's length is the one that its kind asks.
fn fits_kind(kind: DataTypeSize, element: &[u8]) -> bool
    ensures { IsTrue result ↔ FitsKind kind element.now }
{
    match kind {
        DataTypeSize::Fixed(size) => element.len() == size,
        DataTypeSize::Variable => true,
    }
}

// Whether the bytes of so many fill values, and the offsets between them, can be addressed.
fn fill_fits(kind: DataTypeSize, count: u64, fill: &[u8]) -> bool
    requires { FitsKind kind fill.now }
    ensures { IsTrue result ↔ FillFits kind count fill.now }
{
    if count.checked_mul(fill.len() as u64).is_none() {
        return false;
    }
    match kind {
        DataTypeSize::Fixed(_) => true,
        DataTypeSize::Variable => count < u64::MAX,
    }
}

// Tests a fill value of a type, and that so many of them can be addressed.
fn check_fill(data_type: &DataType, count: u64, fill: &[u8]) -> Result<(), CodecError>
    ensures supported { OnOk result (HasElements data_type.now) }
    ensures fits { OnOk result (FitsKind (size_of data_type.now) fill.now) }
    ensures room { OnOk result (FillFits (size_of data_type.now) count fill.now) }
    ensures refused { IfErr result (FillRefusals data_type.now count fill.now done) }
{
    let kind = data_type.size();
    if kind == DataTypeSize::Fixed(0) {
        return Err(CodecError::UnsupportedDataType);
    }
    if !fits_kind(kind, fill) {
        return Err(CodecError::BadFillValue);
    }
    if !fill_fits(kind, count, fill) {
        return Err(CodecError::TooLarge);
    }
    Ok(())
}

/// One element so many times, end to end. Refused only as out of memory.
pub fn repeated(alloc: Global, count: usize, element: &[u8]) -> Result<Vec<u8>, AllocError>
    requires { count * length element.now < 2 ^ 64 }
    ensures len { IfOk result (λ bytes. length bytes.items ≡ count * length element.now) }
    ensures each { IfOk result (λ bytes. pieces (length element.now) count bytes.items ≡ replicate count element.now) }
{
    let size = element.len();
    let mut bytes = Vec::from_elem(alloc, 0, count * size)?;
    fill_run(&mut bytes, size, 0, count, element);
    Ok(bytes)
}

// The offsets between so many elements of one size.
fn even_offsets(alloc: Global, count: usize, size: usize) -> Result<Vec<usize>, AllocError>
    requires room { count * size < 2 ^ 64 }
    requires fits { count + 1 < 2 ^ 64 }
    ensures { IfOk result (λ offsets. offsets.items ≡ map (λ k. k * size) (range_with_len 0 (count + 1))) }
{
    let mut offsets = Vec::with_capacity(alloc, count + 1)?;
    for i in 0..count + 1 {
        offsets.push(i * size)?;
    }
    Ok(offsets)
}

// So many fill values of one size.
fn filled_fixed(alloc: Global, count: usize, fill: &[u8]) -> Result<ArrayBytes<'static>, AllocError>
    requires some { 0 < length fill.now }
    requires room { count * length fill.now < 2 ^ 64 }
    ensures { IfOk result (λ array. array ≡ record { kind = Fixed (length fill.now); elements = replicate count fill.now }) }
{
    Ok(ArrayBytes {
        bytes: CowSlice::Owned(repeated(alloc, count, fill)?),
        held: Held::Fixed(fill.len()),
    })
}

// So many fill values, each with a length of its own.
fn filled_variable(
    alloc: Global,
    count: usize,
    fill: &[u8],
) -> Result<ArrayBytes<'static>, AllocError>
    requires room { count * length fill.now < 2 ^ 64 }
    requires fits { count + 1 < 2 ^ 64 }
    ensures { IfOk result (λ array. array ≡ record { kind = Variable; elements = replicate count fill.now }) }
{
    let offsets = even_offsets(alloc, count, fill.len())?;
    Ok(ArrayBytes {
        bytes: CowSlice::Owned(repeated(alloc, count, fill)?),
        held: Held::Variable(offsets),
    })
}

// Whether elements of one size are all the same given one: the first is, and each is the one before it.
fn is_repeated(bytes: &[u8], size: usize, element: &[u8]) -> bool
    requires { IsWhole size bytes.now }
    ensures { IsTrue result ↔ ((k : ℕ) → k < length bytes.now / size → piece size bytes.now k ≡ element.now) }
{
    if bytes.is_empty() {
        return true;
    }
    let (first, later) = bytes.split_at(size);
    first == element && later == &bytes[..later.len()]
}

// Whether the parts between neighbouring offsets are all the same given one.
fn are_parts_alike(bytes: &[u8], offsets: &[usize], element: &[u8]) -> bool
    requires { AreOffsets offsets.now (length bytes.now) }
    ensures { IsTrue result ↔ ((k : ℕ) → k < length offsets.now - 1 → part bytes.now offsets.now k ≡ element.now) }
{
    for i in 0..offsets.len() - 1 {
        if part_at(bytes, offsets, i) != element {
            return false;
        }
    }
    true
}

impl ArrayBytes<'_> {
    /// Whether each element is the fill value, byte for byte.
    pub fn is_fill_value(&self, fill_value: &FillValue) -> bool
        ensures { IsTrue result ↔ All (λ element. element ≡ fill_value.now) self.now.elements }
    {
        let fill = fill_value.as_ne_bytes();
        match &self.held {
            Held::Fixed(size) => is_repeated(&self.bytes, *size, fill),
            Held::Variable(offsets) => are_parts_alike(&self.bytes, offsets, fill),
        }
    }

    /// So many elements of a type, each the fill value. Refused, in this order, as `UnsupportedDataType`
    /// (`Optional`, `Raw(0)`), `BadFillValue`, `TooLarge`; or as `OutOfMemory`.
    pub fn new_fill_value(
        alloc: Global,
        data_type: &DataType,
        count: u64,
        fill_value: &FillValue,
    ) -> Result<ArrayBytes<'static>, CodecError>
        ensures filled { IfOk result (λ array. array ≡ record { kind = size_of data_type.now; elements = replicate count fill_value.now }) }
        ensures supported { OnOk result (HasElements data_type.now) }
        ensures fits { OnOk result (FitsKind (size_of data_type.now) fill_value.now) }
        ensures refused { IfErr result (RefusedBy (FillRefusals data_type.now count fill_value.now done)) }
    {
        let fill = fill_value.as_ne_bytes();
        check_fill(data_type, count, fill)?;
        let array = match data_type.size() {
            DataTypeSize::Fixed(_) => filled_fixed(alloc, count as usize, fill)?,
            DataTypeSize::Variable => filled_variable(alloc, count as usize, fill)?,
        };
        Ok(array)
    }
}
