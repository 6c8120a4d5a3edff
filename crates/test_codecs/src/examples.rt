// Shapes, fill values, arrays and answers that the tests are worked on. What sets the scene is made, or the test ends.
use std::alloc::Global;
use std::borrow::CowSlice;
use std::ops::Range;
use std::process::Abort;
use zarr_codecs::{
    ArrayToBytesCodecTraits, ByteRange, BytesPartialDecoderTraits, BytesRepresentation, Interval,
    MemoryHandle, StoredArray, copy_range, read_range,
};
use zarr_parts::{
    ArrayBytes, ArraySubset, ChunkShape, CodecError, CodecOptions, Coordinates, DataType,
    FillValue, FixedTarget, Indexer,
};

pub fn shape<R: Abort>(rt: &R, alloc: Global, axes: &[u64]) -> ChunkShape {
    ChunkShape::new(alloc, axes)
        .expect(rt, "memory")
        .expect(rt, "a shape")
}

pub fn fixed<'a, R: Abort>(rt: &R, bytes: &'a [u8], size: usize) -> ArrayBytes<'a> {
    ArrayBytes::new_flen(CowSlice::Borrowed(bytes), size).expect(rt, "whole elements")
}

// The elements that lie between offsets.
pub fn variable<'a, R: Abort>(
    rt: &R,
    alloc: Global,
    bytes: &'a [u8],
    offsets: &[usize],
) -> ArrayBytes<'a> {
    let offsets = offsets.to_vec(alloc).expect(rt, "memory");
    ArrayBytes::new_vlen(CowSlice::Borrowed(bytes), offsets).expect(rt, "offsets in order")
}

pub fn subset<R: Abort>(rt: &R, alloc: Global, ranges: &[Range<u64>]) -> ArraySubset {
    ArraySubset::from_ranges(alloc, ranges).expect(rt, "a subset")
}

pub fn coordinates<R: Abort>(
    rt: &R,
    alloc: Global,
    axes: usize,
    count: u64,
    flat: &[u64],
) -> Coordinates {
    let flat = flat.to_vec(alloc).expect(rt, "memory");
    Coordinates::new(axes, count, flat).expect(rt, "coordinates")
}

// Arrays that a codec is asked to serve.
pub struct ArraySpec {
    pub axes: ChunkShape,
    pub data_type: DataType,
    pub none: FillValue,
}

impl Drop for ArraySpec {
    fn drop(self) {
        let ArraySpec {
            axes: _,
            data_type: _,
            none: _,
        } = self;
    }
}

pub fn spec_of<R: Abort>(
    rt: &R,
    alloc: Global,
    axes: &[u64],
    data_type: DataType,
    none: &[u8],
) -> ArraySpec {
    ArraySpec {
        axes: shape(rt, alloc, axes),
        data_type,
        none: FillValue::new(none.to_vec(alloc).expect(rt, "memory")),
    }
}

// How a codec serves such arrays.
pub fn checked<C: ArrayToBytesCodecTraits>(
    alloc: Global,
    codec: &C,
    spec: &ArraySpec,
) -> Result<(), CodecError> {
    codec.check(alloc, &spec.axes, &spec.data_type, &spec.none)
}

// What a codec tells of the encodings of such arrays.
pub fn told<C: ArrayToBytesCodecTraits>(
    alloc: Global,
    codec: &C,
    spec: &ArraySpec,
) -> Result<BytesRepresentation, CodecError> {
    codec.encoded_representation(alloc, &spec.axes, &spec.data_type, &spec.none)
}

// The encoding of such an array.
pub fn encoded<C: ArrayToBytesCodecTraits>(
    alloc: Global,
    codec: &C,
    spec: &ArraySpec,
    array: &ArrayBytes,
) -> Result<Vec<u8>, CodecError> {
    codec.encode(
        alloc,
        array,
        &spec.axes,
        &spec.data_type,
        &spec.none,
        &CodecOptions::default(),
    )
}

// The size of the encoding of such an array, where it is the elements as they are in memory.
pub fn plain_size<C: ArrayToBytesCodecTraits>(codec: &C, spec: &ArraySpec) -> Option<u64> {
    codec.plain_size(&spec.axes, &spec.data_type, &spec.none)
}

// The array that bytes are decoded to.
pub fn decoded<'a, C: ArrayToBytesCodecTraits>(
    alloc: Global,
    codec: &C,
    spec: &ArraySpec,
    bytes: &'a [u8],
) -> Result<ArrayBytes<'a>, CodecError> {
    codec.decode(
        alloc,
        bytes,
        &spec.axes,
        &spec.data_type,
        &spec.none,
        &CodecOptions::default(),
    )
}

// Decodes bytes into a target.
pub fn decoded_into<C: ArrayToBytesCodecTraits>(
    alloc: Global,
    codec: &C,
    spec: &ArraySpec,
    bytes: &[u8],
    target: &mut FixedTarget,
) -> Result<(), CodecError> {
    codec.decode_into(
        alloc,
        bytes,
        &spec.axes,
        &spec.data_type,
        &spec.none,
        target,
        &CodecOptions::default(),
    )
}

// The cells that an indexer requests, read of an interval of an object.
pub fn read<C: ArrayToBytesCodecTraits, N: Indexer>(
    alloc: Global,
    codec: &C,
    spec: &ArraySpec,
    handle: &mut MemoryHandle,
    interval: Interval,
    indexer: &N,
) -> Result<ArrayBytes<'static>, CodecError> {
    codec.partial_decode(
        alloc,
        handle,
        interval,
        &spec.axes,
        &spec.data_type,
        &spec.none,
        indexer,
        &CodecOptions::default(),
    )
}

// Reads the cells that an indexer asks of an interval of an object into a target.
pub fn read_into<C: ArrayToBytesCodecTraits, N: Indexer>(
    alloc: Global,
    codec: &C,
    spec: &ArraySpec,
    handle: &mut MemoryHandle,
    interval: Interval,
    indexer: &N,
    target: &mut FixedTarget,
) -> Result<(), CodecError> {
    let stored = StoredArray {
        interval,
        shape: &spec.axes,
        data_type: &spec.data_type,
        fill_value: &spec.none,
    };
    let options = CodecOptions::default();
    codec.partial_decode_into(alloc, handle, &stored, indexer, target, &options)
}

// The cells of a range of one axis, read of an interval of an object of these bytes.
pub fn read_range_of<R: Abort, C: ArrayToBytesCodecTraits>(
    rt: &R,
    alloc: Global,
    codec: &C,
    spec: &ArraySpec,
    object: &[u8],
    interval: Interval,
    range: Range<u64>,
) -> Result<ArrayBytes<'static>, CodecError> {
    let cells = subset(rt, alloc, &[range]);
    let mut handle = handle_over(rt, alloc, Some(object));
    read(alloc, codec, spec, &mut handle, interval, &cells)
}

// A handle over an object of these bytes, or over none.
pub fn handle_over<R: Abort>(rt: &R, alloc: Global, object: Option<&[u8]>) -> MemoryHandle {
    match object {
        Some(bytes) => MemoryHandle::new(Some(bytes.to_vec(alloc).expect(rt, "memory"))),
        None => MemoryHandle::new(None),
    }
}

// The bytes that a call answers, for a comparison, or the refusal.
pub fn said(answer: &Result<Vec<u8>, CodecError>) -> Result<&[u8], CodecError> {
    match answer {
        Ok(bytes) => Ok(bytes.as_slice()),
        Err(error) => Err(*error),
    }
}

// Whether a range of a handle's object is lent as these bytes, as no object, or refused so.
pub fn is_borrowed<H: BytesPartialDecoderTraits>(
    alloc: Global,
    handle: &mut H,
    range: ByteRange,
    want: Result<Option<&[u8]>, CodecError>,
) -> bool {
    let mut room = Vec::new(alloc);
    read_range(handle, &mut room, alloc, range) == want
}

// Whether a range of a handle's object is copied as these bytes, as no object, or refused so.
pub fn is_copied<H: BytesPartialDecoderTraits>(
    alloc: Global,
    handle: &mut H,
    range: ByteRange,
    want: Result<Option<&[u8]>, CodecError>,
) -> bool {
    match copy_range(handle, alloc, range) {
        Ok(Some(bytes)) => want == Ok(Some(bytes.as_slice())),
        Ok(None) => want == Ok(None),
        Err(error) => want == Err(error),
    }
}
