// Refusals that no script can bring about, or of which it does not tell all.
use crate::compared::{same, same_at};
use crate::shards::{
    ABSENT, Plain, cells_of, decoded, done, fill_of, plain, read_subset, said, shape_of, shard_of,
};
use std::alloc::Global;
use std::ops::Range;
use std::process::Abort;
use zarr_codecs::{ArrayToBytesCodecTraits, BytesCodec};
use zarr_parts::CodecError::{
    BadFillValue, IncompatibleDimensionality, InvalidSubchunkShape, TooLarge, UnsupportedDataType,
};
use zarr_parts::{CodecError, CodecOptions, DataType};
use zarrs_sharding::{ShardingCodec, ShardingIndexLocation};

// A shard of four cells in two subchunks, whose slices are the bytes 5 and 6.
fn two_slices<R: Abort>(rt: &R, alloc: Global, index: [u64; 4]) -> Vec<u8> {
    shard_of(rt, alloc, &[5, 6], &index)
}

fn decoded_by<R: Abort>(rt: &R, alloc: Global, index: [u64; 4]) -> Result<(), CodecError> {
    let codec = plain(rt, alloc, &[2], ShardingIndexLocation::End);
    let shard = two_slices(rt, alloc, index);
    done(decoded(rt, alloc, &codec, &[4], &shard))
}

fn compacted_by<R: Abort>(rt: &R, alloc: Global, index: [u64; 4]) -> Result<(), CodecError> {
    let codec = plain(rt, alloc, &[2], ShardingIndexLocation::End);
    let shard = two_slices(rt, alloc, index);
    compacted(rt, alloc, &codec, &shard)
}

fn compacted<R: Abort>(
    rt: &R,
    alloc: Global,
    codec: &Plain,
    shard: &[u8],
) -> Result<(), CodecError> {
    let cells = cells_of(rt, alloc, &[4]);
    let options = CodecOptions::default();
    done(codec.compact(
        alloc,
        shard,
        &cells.shape,
        &DataType::UInt8,
        &cells.fill,
        &options,
    ))
}

fn read_by<R: Abort>(
    rt: &R,
    alloc: Global,
    index: [u64; 4],
    cells: Range<u64>,
) -> Result<Vec<u8>, CodecError> {
    let codec = plain(rt, alloc, &[2], ShardingIndexLocation::End);
    let shard = two_slices(rt, alloc, index);
    read_subset(rt, alloc, &codec, shard, &[4], &[cells])
}

// The second pair is half empty, passes 64 bits or has no size; or the first is half empty, before one that ends outside.
#[test]
fn the_lowest_bad_entry_is_named(rt: HostRuntime) {
    for (index, number) in [
        ([0, 2, ABSENT, 5], 1),
        ([0, 2, ABSENT - 1, 2], 1),
        ([0, 2, 1, ABSENT], 1),
        ([ABSENT, 0, 0, 3], 0),
    ] {
        let want = Err(CodecError::BadIndexEntry { number });
        let decoded = decoded_by(&rt, rt.alloc(), index);
        same_at(&rt, index, decoded, want);
        let compacted = compacted_by(&rt, rt.alloc(), index);
        same_at(&rt, index, compacted, want);
    }
}

#[test]
fn a_bad_entry_is_named_where_it_is_read(rt: HostRuntime) {
    for (cells, want) in [
        (0..2, Ok([5u8, 6].as_slice())),
        (2..3, Err(CodecError::BadIndexEntry { number: 1 })),
    ] {
        let answer = read_by(&rt, rt.alloc(), [0, 2, ABSENT, 5], cells);
        same(&rt, said(&answer), want);
    }
}

fn checked<C: ArrayToBytesCodecTraits, R: Abort>(
    rt: &R,
    alloc: Global,
    codec: &C,
    shape: &[u64],
    data_type: DataType,
    fill: &[u8],
) -> Result<(), CodecError> {
    let shape = shape_of(rt, alloc, shape);
    let fill = fill_of(rt, alloc, fill);
    codec.check(alloc, &shape, &data_type, &fill)
}

// Whether a codec of subchunks of so many cells serves a shape, a type and a fill value.
fn served<R: Abort>(
    rt: &R,
    alloc: Global,
    sub: u64,
    shape: &[u64],
    data_type: DataType,
    fill: &[u8],
) -> Result<(), CodecError> {
    let codec = plain(rt, alloc, &[sub], ShardingIndexLocation::End);
    checked(rt, alloc, &codec, shape, data_type, fill)
}

// The first test that fails gives the refusal.
#[test]
fn shapes_types_and_fill_values_are_tested_in_order(rt: HostRuntime) {
    let zero = [0u8].as_slice();
    for (sub, shape, data_type, fill, want) in [
        (2, [4u64].as_slice(), DataType::UInt8, zero, Ok(())),
        (2, &[5], DataType::UInt8, zero, Err(InvalidSubchunkShape)),
        (
            2,
            &[4, 4],
            DataType::UInt8,
            zero,
            Err(IncompatibleDimensionality),
        ),
        (2, &[5], DataType::UInt16, zero, Err(BadFillValue)),
        (2, &[5], DataType::Optional, zero, Err(UnsupportedDataType)),
        (2, &[4], DataType::Raw(0), &[], Err(UnsupportedDataType)),
        (2, &[4], DataType::Bytes, zero, Err(UnsupportedDataType)),
        (2, &[1 << 63], DataType::UInt8, zero, Err(TooLarge)),
        (u64::MAX, &[u64::MAX], DataType::UInt8, zero, Ok(())),
    ] {
        let answer = served(&rt, rt.alloc(), sub, shape, data_type, fill);
        same_at(&rt, (shape, sub, data_type), answer, want);
    }
}

// A sharding codec has encodings of several lengths, so that it cannot be the index codec.
fn with_a_variable_index<R: Abort>(rt: &R, alloc: Global) -> Result<(), CodecError> {
    let codec = ShardingCodec::new(
        shape_of(rt, alloc, &[2]),
        BytesCodec::little(),
        plain(rt, alloc, &[1, 2], ShardingIndexLocation::End),
        ShardingIndexLocation::End,
    );
    checked(rt, alloc, &codec, &[4], DataType::UInt8, &[0])
}

#[test]
fn an_index_has_a_fixed_size(rt: HostRuntime) {
    same(
        &rt,
        with_a_variable_index(&rt, rt.alloc()),
        Err(CodecError::VariableIndexSize),
    );
}
