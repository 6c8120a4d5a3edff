// Sixteen elements read where they lie, and shards with a mark after a slice or after the index.
use crate::compared::same;
use crate::hostile::shards::{Shards, in_squares, said, shape_of, squares};
use std::alloc::Global;
use std::process::Abort;
use test_helpers::{ABSENT, MarkedCodec, object_of};
use zarr_codecs::{ArrayToBytesCodecTraits, BytesChain, BytesCodec};
use zarr_parts::{ArrayBytes, ArraySubset, CodecError, CodecOptions, DataType, FillValue};
use zarrs_sharding::ShardingCodec;
use zarrs_sharding::ShardingIndexLocation::End;

// Shards of 4 by 4 elements in squares.
fn sixteen_elements<R: Abort>(rt: &R, alloc: Global) -> Shards<BytesCodec> {
    Shards {
        codec: squares(rt, alloc),
        shape: shape_of(rt, alloc, &[4, 4]),
        fill: FillValue::from_number(alloc, 0u8).expect(rt, "memory"),
    }
}

// A decoder holds eight bytes for each number of its index besides those that its handle holds.
#[test]
fn borrowed_bytes_are_cached_and_read(rt: HostRuntime) {
    let alloc = rt.alloc();
    let object = in_squares(&rt, alloc);
    let shards = sixteen_elements(&rt, alloc);
    let decoder = shards.decoder(alloc, &object);
    let mut decoder = decoder.expect(&rt, "a decoder");
    same(&rt, (object.len(), decoder.size_held()), (80, 80 + 64));
    let requested = ArraySubset::from_ranges(alloc, &[1..3, 0..1]).expect(&rt, "a subset");
    let found = decoder.partial_decode(alloc, &requested, &CodecOptions::default());
    same(&rt, said(&found), Ok([4u8, 8].as_slice()));
}

type Marked = BytesChain<BytesCodec, MarkedCodec>;

fn marked() -> Marked {
    BytesChain::new(BytesCodec::little(), MarkedCodec)
}

// The encoding of 1, 2, 0, 0, of which the first two are a subchunk with a mark after it.
fn encoded<R: Abort>(rt: &R, alloc: Global) -> Result<Vec<u8>, CodecError> {
    let codec = ShardingCodec::new(
        shape_of(rt, alloc, &[2]),
        marked(),
        BytesCodec::little(),
        End,
    );
    let array = ArrayBytes::from_numbers(alloc, &[1u8, 2, 0, 0]).expect(rt, "memory");
    let shape = shape_of(rt, alloc, &[4]);
    let fill = FillValue::from_number(alloc, 0u8).expect(rt, "memory");
    let options = CodecOptions::default();
    codec.encode(alloc, &array, &shape, &DataType::UInt8, &fill, &options)
}

#[test]
fn a_slice_has_its_mark_after_it(rt: HostRuntime) {
    let shard = encoded(&rt, rt.alloc()).expect(&rt, "a shard");
    let want = object_of(rt.alloc(), false, &[1, 2, 42], &[0, 3, ABSENT, ABSENT]);
    same(&rt, (shard.len(), shard), (35, want.expect(&rt, "memory")));
}

// The index of such a shard that has this byte after it.
fn index_before<R: Abort>(rt: &R, alloc: Global, last: u8) -> Result<Vec<u64>, CodecError> {
    let codec = ShardingCodec::new(shape_of(rt, alloc, &[2]), marked(), marked(), End);
    let shard = object_of(alloc, false, &[1, 2, 42], &[0, 3, ABSENT, ABSENT]);
    let mut shard = shard.expect(rt, "memory");
    shard.push(last).expect(rt, "memory");
    let grid = shape_of(rt, alloc, &[2]);
    codec.decode_index(alloc, &shard, &grid, &CodecOptions::default())
}

#[test]
fn an_index_has_its_mark_after_it(rt: HostRuntime) {
    let index = index_before(&rt, rt.alloc(), 42).expect(&rt, "an index");
    same(&rt, index.as_slice(), [0, 3, ABSENT, ABSENT].as_slice());
    let other = index_before(&rt, rt.alloc(), 41);
    same(&rt, other.err(), Some(CodecError::Damaged));
}
