// Shapes, subsets, coordinates and arrays that the tests are worked on.
use std::alloc::Global;
use std::borrow::CowSlice;
use std::ops::Range;
use std::process::Abort;
use zarr_parts::{ArrayBytes, ArraySubset, ChunkShape, CodecError, Coordinates, FillValue};

pub fn shape(alloc: Global, axes: &[u64]) -> Result<ChunkShape, CodecError> {
    ChunkShape::new(alloc, axes)?.ok_or(CodecError::Fault)
}

pub fn subset(alloc: Global, ranges: &[Range<u64>]) -> Result<ArraySubset, CodecError> {
    ArraySubset::new_with_ranges(alloc, ranges)?.ok_or(CodecError::Fault)
}

pub fn listed<R: Abort>(
    rt: &R,
    alloc: Global,
    dimensionality: usize,
    count: u64,
    flat: &[u64],
) -> Result<Coordinates, CodecError> {
    Coordinates::new(
        dimensionality,
        count,
        flat.to_vec(alloc).expect(rt, "refused"),
    )
    .ok_or(CodecError::Fault)
}

pub fn fill<R: Abort>(rt: &R, alloc: Global, bytes: &[u8]) -> FillValue {
    FillValue::new(bytes.to_vec(alloc).expect(rt, "refused"))
}

// The bytes of an array, with the size of each element or with the offsets of elements of any length.
#[derive(Clone, Copy)]
pub enum Elements<'a> {
    Fixed(usize, &'a [u8]),
    Variable(&'a [usize], &'a [u8]),
}

pub fn fixed<'a, R: Abort>(rt: &R, size: usize, bytes: &'a [u8]) -> ArrayBytes<'a> {
    ArrayBytes::new_flen(CowSlice::Borrowed(bytes), size).expect(rt, "does not fit")
}

fn variable<'a, R: Abort>(
    rt: &R,
    alloc: Global,
    offsets: &[usize],
    bytes: &'a [u8],
) -> ArrayBytes<'a> {
    let offsets = offsets.to_vec(alloc).expect(rt, "refused");
    ArrayBytes::new_vlen(CowSlice::Borrowed(bytes), offsets).expect(rt, "does not fit")
}

pub fn array_of<'a, R: Abort>(rt: &R, alloc: Global, elements: Elements<'a>) -> ArrayBytes<'a> {
    match elements {
        Elements::Fixed(size, bytes) => fixed(rt, size, bytes),
        Elements::Variable(offsets, bytes) => variable(rt, alloc, offsets, bytes),
    }
}

// Whether an array has these elements.
pub fn has<R: Abort>(rt: &R, alloc: Global, array: &ArrayBytes, elements: Elements) -> bool {
    *array == array_of(rt, alloc, elements)
}

// Whether a subset has these ranges.
pub fn is_subset(
    alloc: Global,
    found: &ArraySubset,
    ranges: &[Range<u64>],
) -> Result<bool, CodecError> {
    Ok(*found == subset(alloc, ranges)?)
}
