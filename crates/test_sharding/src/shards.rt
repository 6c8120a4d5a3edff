// Shards for the tests, of cells of one byte with the fill value 0.
use std::alloc::Global;
use std::borrow::CowSlice;
use std::ops::Range;
use std::process::Abort;
use zarr_codecs::{ArrayToBytesCodecTraits, BytesCodec, BytesPartialDecoderTraits, MemoryHandle};
use zarr_parts::{
    ArrayBytes, ArraySubset, ChunkShape, CodecError, CodecOptions, Coordinates, DataType,
    FillValue, Indexer,
};
use zarrs_sharding::{
    ShardingCodec, ShardingIndexLocation, ShardingPartialDecoder, SubchunkWriteOrder,
};

pub(crate) type Plain = ShardingCodec<BytesCodec, BytesCodec>;

pub(crate) const ABSENT: u64 = u64::MAX;

pub(crate) fn shape_of<R: Abort>(rt: &R, alloc: Global, axes: &[u64]) -> ChunkShape {
    ChunkShape::new(alloc, axes)
        .expect(rt, "refused")
        .expect(rt, "does not fit")
}

pub(crate) fn fill_of<R: Abort>(rt: &R, alloc: Global, bytes: &[u8]) -> FillValue {
    FillValue::new(bytes.to_vec(alloc).expect(rt, "refused"))
}

// The shape of an array of cells, and their fill value.
pub(crate) struct Cells {
    pub(crate) shape: ChunkShape,
    pub(crate) fill: FillValue,
}

impl Drop for Cells {
    fn drop(self) {
        let Cells { shape: _, fill: _ } = self;
    }
}

// Cells of one byte with the fill value 0.
pub(crate) fn cells_of<R: Abort>(rt: &R, alloc: Global, axes: &[u64]) -> Cells {
    let shape = shape_of(rt, alloc, axes);
    let fill = fill_of(rt, alloc, &[0]);
    Cells { shape, fill }
}

// What a call answers, without its value.
pub(crate) fn done<T: Drop>(answer: Result<T, CodecError>) -> Result<(), CodecError> {
    match answer {
        Ok(_) => Ok(()),
        Err(error) => Err(error),
    }
}

// A sharding codec around another codec, which writes subchunks in ascending number.
pub(crate) fn around<I: Drop, R: Abort>(
    rt: &R,
    alloc: Global,
    sub: &[u64],
    inner: I,
    location: ShardingIndexLocation,
) -> ShardingCodec<I, BytesCodec> {
    let codec = ShardingCodec::new(
        shape_of(rt, alloc, sub),
        inner,
        BytesCodec::little(),
        location,
    );
    codec.with_subchunk_write_order(SubchunkWriteOrder::C)
}

pub(crate) fn plain<R: Abort>(
    rt: &R,
    alloc: Global,
    sub: &[u64],
    location: ShardingIndexLocation,
) -> Plain {
    around(rt, alloc, sub, BytesCodec::little(), location)
}

pub(crate) fn array_of<R: Abort>(rt: &R, alloc: Global, bytes: &[u8]) -> ArrayBytes<'static> {
    let copy = bytes.to_vec(alloc).expect(rt, "refused");
    ArrayBytes::new_flen(CowSlice::Owned(copy), 1).expect(rt, "does not fit")
}

// The elements of an array, each of which has one size, or the refusal.
pub(crate) fn elements_of<R: Abort>(
    rt: &R,
    alloc: Global,
    answer: Result<ArrayBytes, CodecError>,
) -> Result<Vec<u8>, CodecError> {
    let array = answer?;
    let elements = array.fixed_bytes().ok_or(CodecError::WrongElementKind)?;
    Ok(elements.to_vec(alloc).expect(rt, "refused"))
}

// What an answer says, for a comparison.
pub(crate) fn said(answer: &Result<Vec<u8>, CodecError>) -> Result<&[u8], CodecError> {
    match answer {
        Ok(bytes) => Ok(bytes.as_slice()),
        Err(error) => Err(*error),
    }
}

pub(crate) fn encoded<C: ArrayToBytesCodecTraits, R: Abort>(
    rt: &R,
    alloc: Global,
    codec: &C,
    shape: &[u64],
    elements: &[u8],
) -> Vec<u8> {
    let array = array_of(rt, alloc, elements);
    let cells = cells_of(rt, alloc, shape);
    let options = CodecOptions::default();
    codec
        .encode(
            alloc,
            &array,
            &cells.shape,
            &DataType::UInt8,
            &cells.fill,
            &options,
        )
        .expect(rt, "refused")
}

// Whether a codec encodes cells as these bytes.
pub(crate) fn is_encoded_as<C: ArrayToBytesCodecTraits, R: Abort>(
    rt: &R,
    alloc: Global,
    codec: &C,
    shape: &[u64],
    cells: &[u8],
    want: &[u8],
) -> bool {
    encoded(rt, alloc, codec, shape, cells).as_slice() == want
}

pub(crate) fn decoded<C: ArrayToBytesCodecTraits, R: Abort>(
    rt: &R,
    alloc: Global,
    codec: &C,
    shape: &[u64],
    bytes: &[u8],
) -> Result<Vec<u8>, CodecError> {
    let cells = cells_of(rt, alloc, shape);
    let options = CodecOptions::default();
    let array = codec.decode(
        alloc,
        bytes,
        &cells.shape,
        &DataType::UInt8,
        &cells.fill,
        &options,
    );
    elements_of(rt, alloc, array)
}

// Whether a codec decodes bytes to these cells.
pub(crate) fn is_decoded_to<C: ArrayToBytesCodecTraits, R: Abort>(
    rt: &R,
    alloc: Global,
    codec: &C,
    shape: &[u64],
    bytes: &[u8],
    want: &[u8],
) -> bool {
    decoded(rt, alloc, codec, shape, bytes)
        .expect(rt, "refused")
        .as_slice()
        == want
}

// A shard of these slices before their index.
pub(crate) fn shard_of<R: Abort>(rt: &R, alloc: Global, slices: &[u8], index: &[u64]) -> Vec<u8> {
    let mut bytes = slices.to_vec(alloc).expect(rt, "refused");
    for number in index {
        bytes
            .extend_from_slice(&number.to_le_bytes())
            .expect(rt, "refused");
    }
    bytes
}

// A codec of four subchunks of 2 by 2, and its shard of the cells 0 to 15.
pub(crate) struct Sixteen {
    pub(crate) codec: Plain,
    pub(crate) shard: Vec<u8>,
}

impl Drop for Sixteen {
    fn drop(self) {
        let Sixteen { codec: _, shard: _ } = self;
    }
}

pub(crate) fn sixteen_cells<R: Abort>(rt: &R, alloc: Global) -> Sixteen {
    let cells = [0, 1, 2, 3, 4, 5, 6, 7, 8, 9, 10, 11, 12, 13, 14, 15];
    let codec = plain(rt, alloc, &[2, 2], ShardingIndexLocation::Start);
    let shard = encoded(rt, alloc, &codec, &[4, 4], &cells);
    Sixteen { codec, shard }
}

pub(crate) fn subset_of<R: Abort>(rt: &R, alloc: Global, ranges: &[Range<u64>]) -> ArraySubset {
    ArraySubset::new_with_ranges(alloc, ranges)
        .expect(rt, "refused")
        .expect(rt, "does not fit")
}

// Coordinates of so many numbers each.
pub(crate) fn listed<R: Abort>(rt: &R, alloc: Global, axes: usize, flat: &[u64]) -> Coordinates {
    let count = flat.len() as u64 / axes.max(1) as u64;
    Coordinates::new(axes, count, flat.to_vec(alloc).expect(rt, "refused")).expect(
        rt,
        "does not fit",
    )
}

// A decoder of a handle's object.
pub(crate) fn decoder_of<
    'a,
    I: ArrayToBytesCodecTraits,
    X: ArrayToBytesCodecTraits,
    H: BytesPartialDecoderTraits + Drop,
    R: Abort,
>(
    rt: &R,
    alloc: Global,
    codec: &'a ShardingCodec<I, X>,
    handle: H,
    shape: &[u64],
) -> Result<ShardingPartialDecoder<'a, I, X, H>, CodecError> {
    let cells = cells_of(rt, alloc, shape);
    let options = CodecOptions::default();
    match codec.partial_decoder(
        alloc,
        handle,
        &cells.shape,
        &DataType::UInt8,
        &cells.fill,
        &options,
    ) {
        Ok(decoder) => Ok(decoder),
        Err((_, error)) => Err(error),
    }
}

// The cells that a decoder of a handle's object reads.
pub(crate) fn read<
    I: ArrayToBytesCodecTraits,
    X: ArrayToBytesCodecTraits,
    H: BytesPartialDecoderTraits + Drop,
    N: Indexer,
    R: Abort,
>(
    rt: &R,
    alloc: Global,
    codec: &ShardingCodec<I, X>,
    handle: H,
    shape: &[u64],
    indexer: &N,
) -> Result<Vec<u8>, CodecError> {
    let mut decoder = decoder_of(rt, alloc, codec, handle, shape)?;
    let cells = decoder.partial_decode(alloc, indexer, &CodecOptions::default());
    elements_of(rt, alloc, cells)
}

// The cells of a subset that a decoder of an object reads.
pub(crate) fn read_subset<I: ArrayToBytesCodecTraits, X: ArrayToBytesCodecTraits, R: Abort>(
    rt: &R,
    alloc: Global,
    codec: &ShardingCodec<I, X>,
    object: Vec<u8>,
    shape: &[u64],
    ranges: &[Range<u64>],
) -> Result<Vec<u8>, CodecError> {
    let requested = subset_of(rt, alloc, ranges);
    read(
        rt,
        alloc,
        codec,
        MemoryHandle::new(Some(object)),
        shape,
        &requested,
    )
}

// The cells of a subset, of those that a codec encoded before.
pub(crate) fn read_back<I: ArrayToBytesCodecTraits, X: ArrayToBytesCodecTraits, R: Abort>(
    rt: &R,
    alloc: Global,
    codec: &ShardingCodec<I, X>,
    shape: &[u64],
    cells: &[u8],
    ranges: &[Range<u64>],
) -> Result<Vec<u8>, CodecError> {
    let object = encoded(rt, alloc, codec, shape, cells);
    read_subset(rt, alloc, codec, object, shape, ranges)
}
