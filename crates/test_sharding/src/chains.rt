// Shards with codecs behind the inner codec and the index codec.
use crate::compared::same;
use crate::shards::{
    ABSENT, around, decoded, done, is_decoded_to, is_encoded_as, read_back, shape_of, shard_of,
};
use codec_checksums::Crc32cCodec;
use std::alloc::Global;
use std::process::Abort;
use test_helpers::{MarkedCodec, UnboundedCodec};
use zarr_codecs::{ArrayToBytesCodecTraits, BytesChain, BytesCodec};
use zarr_parts::CodecError;
use zarrs_sharding::{ShardingCodec, ShardingIndexLocation};

type Marked = BytesChain<BytesCodec, MarkedCodec>;

type Checked = BytesChain<BytesCodec, Crc32cCodec>;

fn marked() -> Marked {
    BytesChain::new(BytesCodec::little(), MarkedCodec)
}

// Four cells in two subchunks, of which each that is stored has a mark behind it.
fn codec<X: Drop, R: Abort>(rt: &R, alloc: Global, index_codec: X) -> ShardingCodec<Marked, X> {
    let sub = shape_of(rt, alloc, &[2]);
    ShardingCodec::new(sub, marked(), index_codec, ShardingIndexLocation::End)
}

// The shard of 1, 2, 0, 0, of which the first subchunk alone is stored, with these bytes after its index.
fn object_of<R: Abort>(rt: &R, alloc: Global, tail: &[u8]) -> Vec<u8> {
    let mut object = shard_of(rt, alloc, &[1, 2, 42], &[0, 3, ABSENT, ABSENT]);
    object.extend_from_slice(tail).expect(rt, "refused");
    object
}

// Whether a codec encodes 1, 2, 0, 0 as this shard, and decodes it so; and finds that another is damaged.
fn is_shard<C: ArrayToBytesCodecTraits, R: Abort>(
    rt: &R,
    alloc: Global,
    codec: &C,
    shard: &[u8],
    other: &[u8],
) -> Result<bool, CodecError> {
    let cells = [1, 2, 0, 0];
    let refused = done(decoded(rt, alloc, codec, &[4], other)) == Err(CodecError::Damaged);
    Ok(
        refused
            && is_encoded_as(rt, alloc, codec, &[4], &cells, shard)
            && is_decoded_to(rt, alloc, codec, &[4], shard, &cells),
    )
}

fn is_marked<R: Abort>(rt: &R, alloc: Global, shard: &[u8], other: &[u8]) -> bool {
    is_shard(rt, alloc, &codec(rt, alloc, marked()), shard, other).expect(rt, "refused")
}

// An index with another mark behind it is damaged.
#[test]
fn marks_are_demanded(rt: HostRuntime) {
    let shard = object_of(&rt, rt.alloc(), &[42]);
    let other = object_of(&rt, rt.alloc(), &[41]);
    same(&rt, shard.len(), 36);
    same(&rt, is_marked(&rt, rt.alloc(), &shard, &other), true);
}

// The codec of shards with a checksum behind the index, and nothing behind the slices.
fn checked<R: Abort>(rt: &R, alloc: Global) -> ShardingCodec<BytesCodec, Checked> {
    let sub = shape_of(rt, alloc, &[2]);
    let index_codec = BytesChain::new(BytesCodec::little(), Crc32cCodec);
    ShardingCodec::new(
        sub,
        BytesCodec::little(),
        index_codec,
        ShardingIndexLocation::End,
    )
}

// The same shard with no mark, with this checksum behind its index.
fn checked_object<R: Abort>(rt: &R, alloc: Global, checksum: &[u8]) -> Vec<u8> {
    let mut object = shard_of(rt, alloc, &[1, 2], &[0, 2, ABSENT, ABSENT]);
    object.extend_from_slice(checksum).expect(rt, "refused");
    object
}

fn is_checked<R: Abort>(rt: &R, alloc: Global, shard: &[u8], other: &[u8]) -> bool {
    is_shard(rt, alloc, &checked(rt, alloc), shard, other).expect(rt, "refused")
}

// An index is written with its checksum behind it, and is damaged where that is another one.
#[test]
fn checksums_of_indices_are_written_and_compared(rt: HostRuntime) {
    let shard = checked_object(&rt, rt.alloc(), &[189, 19, 189, 86]);
    let other = checked_object(&rt, rt.alloc(), &[188, 19, 189, 86]);
    same(&rt, is_checked(&rt, rt.alloc(), &shard, &other), true);
}

// Whether two cells of an array of 4 by 4 that is one subchunk are read as these.
fn are_read_by<I: ArrayToBytesCodecTraits + Drop, R: Abort>(
    rt: &R,
    alloc: Global,
    inner: I,
    cells: &[u8],
    want: &[u8],
) -> bool {
    let codec = around(rt, alloc, &[4, 4], inner, ShardingIndexLocation::End);
    let found = read_back(rt, alloc, &codec, &[4, 4], cells, &[1..3, 0..1]).expect(rt, "refused");
    found.as_slice() == want
}

// The same, also where nothing tells how long the subchunk's encoding is.
fn are_read<R: Abort>(rt: &R, alloc: Global, cells: &[u8], want: &[u8]) -> bool {
    let plain = BytesCodec::little();
    let unbounded = BytesChain::new(BytesCodec::little(), UnboundedCodec);
    are_read_by(rt, alloc, plain, cells, want) && are_read_by(rt, alloc, unbounded, cells, want)
}

// A subchunk is read in part.
#[test]
fn one_subchunk_is_read_in_part(rt: HostRuntime) {
    for (cells, want) in [
        (
            [0, 1, 2, 3, 4, 5, 6, 7, 8, 9, 10, 11, 12, 13, 14, 15],
            [4, 8],
        ),
        ([0; 16], [0, 0]),
    ] {
        same(&rt, are_read(&rt, rt.alloc(), &cells, &want), true);
    }
}
