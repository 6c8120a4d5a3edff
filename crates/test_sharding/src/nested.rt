// Shards whose subchunks are shards.
use crate::compared::{same, same_at};
use crate::shards::{
    ABSENT, Cells, Plain, around, array_of, cells_of, decoded, encoded, is_decoded_to,
    is_encoded_as, plain, read_back, read_subset, said, shard_of,
};
use std::alloc::Global;
use std::ops::Range;
use std::process::Abort;
use zarr_codecs::{ArrayToBytesCodecTraits, BytesCodec};
use zarr_parts::{ArrayBytes, CodecError, CodecOptions, DataType};
use zarrs_sharding::{ShardingCodec, ShardingIndexLocation};

// Four cells in two shards of two subchunks each, with all indices at this place.
fn nested_at<R: Abort>(
    rt: &R,
    alloc: Global,
    location: ShardingIndexLocation,
) -> ShardingCodec<Plain, BytesCodec> {
    let inner = plain(rt, alloc, &[1], location);
    around(rt, alloc, &[2], inner, location)
}

fn nested<R: Abort>(rt: &R, alloc: Global) -> ShardingCodec<Plain, BytesCodec> {
    nested_at(rt, alloc, ShardingIndexLocation::End)
}

// The shard of 1, 0, 0, 0, of which the first inner shard alone is stored; its indices may name another number of bytes.
fn object_of<R: Abort>(rt: &R, alloc: Global, inner_size: u64, outer_size: u64) -> Vec<u8> {
    let inner = shard_of(rt, alloc, &[1], &[0, inner_size, ABSENT, ABSENT]);
    shard_of(rt, alloc, &inner, &[0, outer_size, ABSENT, ABSENT])
}

fn decoded_nested<R: Abort>(
    rt: &R,
    alloc: Global,
    inner_size: u64,
    outer_size: u64,
) -> Result<Vec<u8>, CodecError> {
    let object = object_of(rt, alloc, inner_size, outer_size);
    decoded(rt, alloc, &nested(rt, alloc), &[4], &object)
}

fn read_nested<R: Abort>(
    rt: &R,
    alloc: Global,
    inner_size: u64,
    outer_size: u64,
    cells: Range<u64>,
) -> Result<Vec<u8>, CodecError> {
    let object = object_of(rt, alloc, inner_size, outer_size);
    read_subset(rt, alloc, &nested(rt, alloc), object, &[4], &[cells])
}

// An inner shard is damaged where an index names another number of bytes.
#[test]
fn nested_shards_are_decoded(rt: HostRuntime) {
    for (inner_size, outer_size, want) in [
        (1, 33, Ok([1u8, 0, 0, 0].as_slice())),
        (1, 31, Err(CodecError::Damaged)),
        (34, 33, Err(CodecError::Damaged)),
    ] {
        let cells = decoded_nested(&rt, rt.alloc(), inner_size, outer_size);
        same_at(&rt, (inner_size, outer_size), said(&cells), want);
    }
}

// A read looks no further than the inner subchunks in which cells are asked.
#[test]
fn nested_shards_are_read(rt: HostRuntime) {
    let damaged = Err(CodecError::Damaged);
    let zeros = Ok([0u8, 0].as_slice());
    for (inner_size, outer_size, cells, want) in [
        (1, 33, 0..1, Ok([1u8].as_slice())),
        (1, 33, 1..2, Ok(&[0])),
        (1, 33, 2..4, zeros),
        (1, 31, 0..1, damaged),
        (1, 31, 1..2, damaged),
        (1, 31, 2..4, zeros),
        (34, 33, 0..1, damaged),
        (34, 33, 1..2, Ok(&[0])),
        (34, 33, 2..4, zeros),
    ] {
        let answer = read_nested(&rt, rt.alloc(), inner_size, outer_size, cells);
        same_at(&rt, (inner_size, outer_size), said(&answer), want);
    }
}

fn is_encoded_at<R: Abort>(
    rt: &R,
    alloc: Global,
    location: ShardingIndexLocation,
    cells: &[u8],
    want: &[u8],
) -> bool {
    is_encoded_as(
        rt,
        alloc,
        &nested_at(rt, alloc, location),
        &[4],
        cells,
        want,
    )
}

// Whether the encoding of 1, 0, 0, 0 is that object, of 65 bytes.
fn is_encoded_so<R: Abort>(rt: &R, alloc: Global) -> bool {
    let object = object_of(rt, alloc, 1, 33);
    let cells = [1, 0, 0, 0];
    object.len() == 65 && is_encoded_at(rt, alloc, ShardingIndexLocation::End, &cells, &object)
}

// An inner shard of the fill value alone is not stored.
#[test]
fn nested_shards_are_encoded(rt: HostRuntime) {
    same(&rt, is_encoded_so(&rt, rt.alloc()), true);
}

// A shard of these slices and their index.
fn shard_at<R: Abort>(
    rt: &R,
    alloc: Global,
    location: ShardingIndexLocation,
    slices: &[u8],
    index: &[u64],
) -> Vec<u8> {
    if location == ShardingIndexLocation::End {
        return shard_of(rt, alloc, slices, index);
    }
    let mut shard = shard_of(rt, alloc, &[], index);
    shard.extend_from_slice(slices).expect(rt, "refused");
    shard
}

// The shard of 1, 0, 2, 3, of which both inner shards are stored: where each data part begins, and where what is behind the
// first cell and behind the first inner shard.
fn both_stored<R: Abort>(
    rt: &R,
    alloc: Global,
    location: ShardingIndexLocation,
    [place, after_one, after_first]: [u64; 3],
) -> Vec<u8> {
    let mut inner = shard_at(rt, alloc, location, &[1], &[place, 1, ABSENT, ABSENT]);
    let second = shard_at(rt, alloc, location, &[2, 3], &[place, 1, after_one, 1]);
    inner.extend_from_slice(&second).expect(rt, "refused");
    shard_at(rt, alloc, location, &inner, &[place, 33, after_first, 34])
}

// Puts the encoding of an array behind bytes.
fn put_onto<R: Abort>(
    rt: &R,
    alloc: Global,
    location: ShardingIndexLocation,
    array: &ArrayBytes,
    cells: &Cells,
    bytes: &mut Vec<u8>,
) -> Result<(), CodecError> {
    let codec = nested_at(rt, alloc, location);
    let options = CodecOptions::default();
    codec.encode_onto(
        alloc,
        array,
        &cells.shape,
        &DataType::UInt8,
        &cells.fill,
        bytes,
        &options,
    )
}

fn put_after<R: Abort>(
    rt: &R,
    alloc: Global,
    location: ShardingIndexLocation,
    elements: &[u8],
    bytes: &mut Vec<u8>,
) -> Result<(), CodecError> {
    let array = array_of(rt, alloc, elements);
    let cells = cells_of(rt, alloc, &[4]);
    put_onto(rt, alloc, location, &array, &cells, bytes)
}

// Whether the encoding of elements stands behind other bytes as these.
fn is_put_after<R: Abort>(
    rt: &R,
    alloc: Global,
    location: ShardingIndexLocation,
    elements: &[u8],
    want: &[u8],
) -> bool {
    let mut bytes = [5, 6].to_vec(alloc).expect(rt, "refused");
    put_after(rt, alloc, location, elements, &mut bytes).expect(rt, "refused");
    let (before, after) = (bytes.get(..2), bytes.get(2..));
    before == Some([5u8, 6].as_slice()) && after == Some(want)
}

const LOCATIONS: [(ShardingIndexLocation, [u64; 3]); 2] = [
    (ShardingIndexLocation::Start, [32, 33, 65]),
    (ShardingIndexLocation::End, [0, 1, 33]),
];

// Inner shards stand one after the other, and each index counts from where its own shard begins.
#[test]
fn inner_shards_stand_after_one_another(rt: HostRuntime) {
    let cells = [1u8, 0, 2, 3].as_slice();
    for (location, places) in LOCATIONS {
        let want = both_stored(&rt, rt.alloc(), location, places);
        let is_encoded = is_encoded_at(&rt, rt.alloc(), location, cells, &want);
        same(&rt, is_encoded, true);
        let is_after = is_put_after(&rt, rt.alloc(), location, cells, &want);
        same(&rt, is_after, true);
    }
}

// Where an array is refused, the bytes stay.
#[test]
fn a_refused_shard_is_not_put_after_bytes(rt: HostRuntime) {
    let mut bytes = [5, 6].to_vec(rt.alloc()).expect(&rt, "refused");
    let start = ShardingIndexLocation::Start;
    let answer = put_after(&rt, rt.alloc(), start, &[1, 0, 2], &mut bytes);
    same(&rt, answer, Err(CodecError::InvalidNumberOfElements));
    same(&rt, bytes.as_slice(), [5u8, 6].as_slice());
}

// The codec of eight cells in shards in shards in a shard.
fn thrice<R: Abort>(
    rt: &R,
    alloc: Global,
) -> ShardingCodec<ShardingCodec<Plain, BytesCodec>, BytesCodec> {
    let innermost = plain(rt, alloc, &[1], ShardingIndexLocation::Start);
    let inner = around(rt, alloc, &[2], innermost, ShardingIndexLocation::End);
    around(rt, alloc, &[4], inner, ShardingIndexLocation::End)
}

const EIGHT: [u8; 8] = [1, 2, 0, 4, 0, 0, 7, 8];

// Whether the cells are decoded from their shard.
fn are_decoded<C: ArrayToBytesCodecTraits, R: Abort>(rt: &R, alloc: Global, codec: &C) -> bool {
    let shard = encoded(rt, alloc, codec, &[8], &EIGHT);
    is_decoded_to(rt, alloc, codec, &[8], &shard, &EIGHT)
}

// Whether a part of them is read as these cells.
fn is_read_as<I: ArrayToBytesCodecTraits, X: ArrayToBytesCodecTraits, R: Abort>(
    rt: &R,
    alloc: Global,
    codec: &ShardingCodec<I, X>,
    cells: Range<u64>,
    want: &[u8],
) -> bool {
    read_back(rt, alloc, codec, &[8], &EIGHT, &[cells])
        .expect(rt, "refused")
        .as_slice()
        == want
}

// Whether all of them are decoded and read back, and those of a part.
fn are_read_back<I: ArrayToBytesCodecTraits, X: ArrayToBytesCodecTraits, R: Abort>(
    rt: &R,
    alloc: Global,
    codec: &ShardingCodec<I, X>,
) -> bool {
    are_decoded(rt, alloc, codec)
        && is_read_as(rt, alloc, codec, 0..8, &EIGHT)
        && is_read_as(rt, alloc, codec, 3..7, &[4, 0, 0, 7])
}

fn thrice_read_back<R: Abort>(rt: &R, alloc: Global) -> bool {
    are_read_back(rt, alloc, &thrice(rt, alloc))
}

// What is stored three shards deep is decoded and read.
#[test]
fn three_nested_shards_are_read_back(rt: HostRuntime) {
    same(&rt, thrice_read_back(&rt, rt.alloc()), true);
}
