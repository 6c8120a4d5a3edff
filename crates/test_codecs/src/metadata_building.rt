// Sharding codecs that are put together part by part.
use crate::compared::same;
use crate::metadata_examples::shape_of;
use codec_checksums::Crc32cCodec;
use std::alloc::Global;
use std::borrow::CowSlice;
use std::process::Abort;
use std::sync::Arc;
use test_helpers::InvertedCodec;
use zarr_codecs::{
    ArrayToBytesCodecTraits, BytesCodec, BytesRepresentation, CodecTraitsV3,
    DefaultArrayToBytesCodec,
};
use zarr_parts::{ArrayBytes, CodecError, CodecOptions, DataType, FillValue};
use zarrs_sharding::{ShardingCodec, ShardingCodecBuilder, ShardingIndexLocation};

type Pairs = ShardingCodecBuilder<DefaultArrayToBytesCodec, BytesCodec>;

// A builder of shards of subchunks of two cells.
fn pairs<R: Abort>(rt: &R, alloc: Global) -> Pairs {
    ShardingCodecBuilder::new(shape_of(rt, alloc, &[2]), &DataType::UInt16)
}

// The shard that a codec makes of four cells.
fn encoded_cells<C: ArrayToBytesCodecTraits, R: Abort>(
    rt: &R,
    alloc: Global,
    codec: &C,
    cells: &ArrayBytes,
    data_type: &DataType,
    fill: &FillValue,
) -> Result<Vec<u8>, CodecError> {
    let four = shape_of(rt, alloc, &[4]);
    let options = CodecOptions::default();
    codec.encode(alloc, cells, &four, data_type, fill, &options)
}

// The shard that it makes of the cells 1 to 4.
fn encoded<C: ArrayToBytesCodecTraits, R: Abort>(
    rt: &R,
    alloc: Global,
    codec: &C,
) -> Result<Vec<u8>, CodecError> {
    let cells = ArrayBytes::from_numbers(alloc, &[1u16, 2, 3, 4])?;
    let fill = FillValue::from_number(alloc, 0u16)?;
    encoded_cells(rt, alloc, codec, &cells, &DataType::UInt16, &fill)
}

// The first byte of a shard, and how many it has in all.
fn start_of(shard: Vec<u8>) -> (u8, usize) {
    match shard.first() {
        Some(byte) => (*byte, shard.len()),
        None => (0, 0),
    }
}

fn plain<R: Abort>(rt: &R, alloc: Global) -> Result<Vec<u8>, CodecError> {
    encoded(rt, alloc, &pairs(rt, alloc).build())
}

fn index_first<R: Abort>(rt: &R, alloc: Global) -> Result<Vec<u8>, CodecError> {
    let builder = pairs(rt, alloc).index_location(ShardingIndexLocation::Start);
    encoded(rt, alloc, &builder.build())
}

fn with_checksums<R: Abort>(rt: &R, alloc: Global) -> Result<Vec<u8>, CodecError> {
    let builder = pairs(rt, alloc)
        .bytes_to_bytes_codecs(Crc32cCodec)
        .index_bytes_to_bytes_codecs(Crc32cCodec);
    encoded(rt, alloc, &builder.build())
}

// Four elements that have lengths of their own, of which the last two are the fill value.
fn words<R: Abort>(rt: &R, alloc: Global) -> ArrayBytes<'static> {
    let offsets = [0, 1, 1, 1, 1].to_vec(alloc).expect(rt, "refused");
    ArrayBytes::new_vlen(CowSlice::Borrowed(b"a"), offsets).expect(rt, "does not fit")
}

fn encoded_words<C: ArrayToBytesCodecTraits, R: Abort>(
    rt: &R,
    alloc: Global,
    codec: &C,
) -> Result<Vec<u8>, CodecError> {
    let words = words(rt, alloc);
    let none = FillValue::new(Vec::new(alloc));
    encoded_cells(rt, alloc, codec, &words, &DataType::Bytes, &none)
}

// Their shard.
fn shard_of_words<R: Abort>(rt: &R, alloc: Global) -> Result<Vec<u8>, CodecError> {
    let builder = ShardingCodecBuilder::new(shape_of(rt, alloc, &[2]), &DataType::Bytes);
    encoded_words(rt, alloc, &builder.build())
}

// The text of the first two words, then the index: its slice, and no other.
#[test]
fn the_type_chooses_the_codec(rt: HostRuntime) {
    let mut want = [0xFF; 45];
    want[..13].copy_from_slice(&[2, 0, 0, 0, 1, 0, 0, 0, 97, 0, 0, 0, 0]);
    want[13..29].copy_from_slice(&[0, 0, 0, 0, 0, 0, 0, 0, 13, 0, 0, 0, 0, 0, 0, 0]);
    let found = shard_of_words(&rt, rt.alloc());
    assert!(rt; found.is_ok_and(|shard| shard.as_slice() == want.as_slice()));
}

// Codecs that are replaced take along what was put after them.
fn replaced<R: Abort>(rt: &R, alloc: Global) -> Result<Vec<u8>, CodecError> {
    let builder = pairs(rt, alloc)
        .bytes_to_bytes_codecs(Crc32cCodec)
        .array_to_bytes_codec(BytesCodec::big())
        .index_bytes_to_bytes_codecs(Crc32cCodec)
        .index_array_to_bytes_codec(BytesCodec::little());
    encoded(rt, alloc, &*builder.build_arc(alloc)?)
}

// Eight bytes of cells, 32 of the index, and four of each checksum.
#[test]
fn a_codec_is_built_part_by_part(rt: HostRuntime) {
    same(&rt, plain(&rt, rt.alloc()).map(start_of), Ok((1, 40)));
    same(
        &rt,
        index_first(&rt, rt.alloc()).map(start_of),
        Ok((32, 40)),
    );
    same(
        &rt,
        with_checksums(&rt, rt.alloc()).map(start_of),
        Ok((1, 52)),
    );
    same(&rt, replaced(&rt, rt.alloc()).map(start_of), Ok((0, 40)));
}

// Each byte taken from 255 before it is stored.
fn inverted<R: Abort>(rt: &R, alloc: Global) -> Result<Vec<u8>, CodecError> {
    let builder = pairs(rt, alloc).array_to_array_codecs(InvertedCodec);
    encoded(rt, alloc, &builder.build())
}

// The cells 1 to 4, inverted, and the index of two slices of four bytes.
#[test]
fn a_codec_of_arrays_stands_before_the_inner_codec(rt: HostRuntime) {
    let mut want = [0; 40];
    want[..8].copy_from_slice(&[254, 255, 253, 255, 252, 255, 251, 255]);
    (want[16], want[24], want[32]) = (4, 4, 4);
    let found = inverted(&rt, rt.alloc());
    assert!(rt; found.is_ok_and(|shard| shard.as_slice() == want.as_slice()));
}

type Shared = Arc<ShardingCodec<DefaultArrayToBytesCodec, BytesCodec>>;

// A shared codec for subchunks of 2 by 2, its index at the start.
fn built<R: Abort>(rt: &R, alloc: Global, data_type: &DataType) -> Shared {
    let builder = ShardingCodecBuilder::new(shape_of(rt, alloc, &[2, 2]), data_type).index_location(
        ShardingIndexLocation::Start,
    );
    builder.build_arc(alloc).expect(rt, "refused")
}

fn configuration_of<R: Abort>(rt: &R, alloc: Global, data_type: &DataType) -> String {
    let codec = built(rt, alloc, data_type);
    codec
        .configuration(alloc)
        .expect(rt, "refused")
        .to_string(alloc)
        .expect(rt, "refused")
}

fn metadata_of<R: Abort>(rt: &R, alloc: Global, data_type: &DataType) -> String {
    let codec = built(rt, alloc, data_type);
    codec
        .metadata(alloc)
        .expect(rt, "refused")
        .to_string(alloc)
        .expect(rt, "refused")
}

#[test]
fn a_built_codec_has_metadata(rt: HostRuntime) {
    let little = r#"{"configuration":{"endian":"little"},"name":"bytes"}"#;
    for (data_type, inner) in [
        (DataType::UInt8, little),
        (DataType::Bytes, r#"{"name":"zarr_parts.vlen"}"#),
    ] {
        let configuration = configuration_of(&rt, rt.alloc(), &data_type);
        let wanted = format!(in rt.alloc();
            "{{\"chunk_shape\":[2,2],\"codecs\":[{inner}],\"index_codecs\":[{little}],\"index_location\":\"start\"}}"
        ).expect(&rt, "refused");
        same(&rt, configuration.as_str(), wanted.as_str());
        let whole = format!(in rt.alloc();
            "{{\"configuration\":{wanted},\"name\":\"sharding_indexed\"}}"
        ).expect(&rt, "refused");
        let metadata = metadata_of(&rt, rt.alloc(), &data_type);
        same(&rt, metadata.as_str(), whole.as_str());
    }
}

// What a codec encodes arrays of 4 by 4 to.
fn represented_by<C: ArrayToBytesCodecTraits, R: Abort>(
    rt: &R,
    alloc: Global,
    codec: &C,
    data_type: &DataType,
    fill: &[u8],
) -> BytesRepresentation {
    let shape = shape_of(rt, alloc, &[4, 4]);
    let fill = FillValue::new(fill.to_vec(alloc).expect(rt, "refused"));
    codec
        .encoded_representation(alloc, &shape, data_type, &fill)
        .expect(rt, "refused")
}

// What shards of 4 by 4 in subchunks of 2 by 2 are encoded to.
fn represented<R: Abort>(
    rt: &R,
    alloc: Global,
    data_type: &DataType,
    fill: &[u8],
) -> BytesRepresentation {
    let builder = ShardingCodecBuilder::new(shape_of(rt, alloc, &[2, 2]), data_type);
    represented_by(rt, alloc, &builder.build(), data_type, fill)
}

#[test]
fn elements_with_lengths_of_their_own_have_no_bound(rt: HostRuntime) {
    for (data_type, fill, wanted) in [
        (
            DataType::UInt16,
            [0, 0].as_slice(),
            BytesRepresentation::BoundedSize(96),
        ),
        (
            DataType::Bytes,
            [].as_slice(),
            BytesRepresentation::UnboundedSize,
        ),
    ] {
        same(&rt, represented(&rt, rt.alloc(), &data_type, fill), wanted);
    }
}
