// What codecs make of arrays of two bytes.
use crate::examples::{ArraySpec, decoded, encoded, fixed, read_range_of, spec_of};
use std::alloc::Global;
use std::process::Abort;
use zarr_codecs::{ArrayToBytesCodecTraits, Interval};
use zarr_parts::{ArrayBytes, CodecError, DataType};

pub fn two_cells<R: Abort>(rt: &R, alloc: Global) -> ArraySpec {
    spec_of(rt, alloc, &[2], DataType::UInt8, &[0])
}

// The encoding of such an array.
pub fn encoded_pair<R: Abort, C: ArrayToBytesCodecTraits>(
    rt: &R,
    alloc: Global,
    codec: &C,
    elements: &[u8],
) -> Result<Vec<u8>, CodecError> {
    let two = two_cells(rt, alloc);
    encoded(alloc, codec, &two, &fixed(rt, elements, 1))
}

// The array that bytes are decoded to.
pub fn decoded_pair<'a, R: Abort, C: ArrayToBytesCodecTraits>(
    rt: &R,
    alloc: Global,
    codec: &C,
    bytes: &'a [u8],
) -> Result<ArrayBytes<'a>, CodecError> {
    let two = two_cells(rt, alloc);
    decoded(alloc, codec, &two, bytes)
}

// The second cell, read of an interval of an object.
pub fn second_of<R: Abort, C: ArrayToBytesCodecTraits>(
    rt: &R,
    alloc: Global,
    codec: &C,
    object: &[u8],
    interval: Interval,
) -> Result<ArrayBytes<'static>, CodecError> {
    let two = two_cells(rt, alloc);
    read_range_of(rt, alloc, codec, &two, object, interval, 1..2)
}

// The array of these elements of one byte, for a comparison, or the refusal.
pub fn wanted<'a, R: Abort>(
    rt: &R,
    answer: Result<&'a [u8], CodecError>,
) -> Result<ArrayBytes<'a>, CodecError> {
    match answer {
        Ok(elements) => Ok(fixed(rt, elements, 1)),
        Err(error) => Err(error),
    }
}
