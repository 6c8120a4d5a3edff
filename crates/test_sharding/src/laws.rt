// What callers learn from the codec's laws, each called once.
use crate::compared::same;
use crate::shards::{
    Cells, Plain, cells_of, elements_of, encoded, fill_of, plain, shape_of, shard_of,
};
use std::alloc::Global;
use std::borrow::CowSlice;
use std::process::Abort;
use zarr_codecs::{ArrayToBytesCodecTraits, BytesCodec};
use zarr_parts::{ArrayBytes, ChunkShape, CodecError, CodecOptions, DataType};
use zarrs_sharding::{
    ArraySpecRef, ShardingCodec, ShardingIndexLocation, SubchunkWriteOrder, compact_again,
    compact_encoded, decode_served, decode_sound, encode_functional,
};

// Two subchunks of two cells, of which the first is all fill.
const CELLS: [u8; 4] = [0, 0, 7, 9];

fn array<R: Abort>(rt: &R, alloc: Global) -> ArrayBytes<'static> {
    let cells = CELLS.as_slice().to_vec(alloc).expect(rt, "refused");
    ArrayBytes::new_flen(CowSlice::Owned(cells), 1).expect(rt, "does not fit")
}

// The encoding of the cells behind their index, which is big endian.
fn one_encoding<R: Abort>(rt: &R, alloc: Global, array: &ArrayBytes, cells: &Cells) -> Vec<u8> {
    let codec = ShardingCodec::new(
        shape_of(rt, alloc, &[2]),
        BytesCodec::big(),
        BytesCodec::big(),
        ShardingIndexLocation::Start,
    )
    .with_subchunk_write_order(SubchunkWriteOrder::C);
    let options = CodecOptions::default();
    encode_functional(
        &codec,
        alloc,
        array,
        &cells.shape,
        &DataType::UInt8,
        &cells.fill,
        &options,
    )
    .expect(rt, "refused")
}

#[test]
fn a_shard_has_one_encoding(rt: HostRuntime) {
    let array = array(&rt, rt.alloc());
    let cells = cells_of(&rt, rt.alloc(), &[4]);
    let shard = one_encoding(&rt, rt.alloc(), &array, &cells);
    let want = [
        255, 255, 255, 255, 255, 255, 255, 255, 255, 255, 255, 255, 255, 255, 255, 255, 0, 0, 0, 0,
        0, 0, 0, 32, 0, 0, 0, 0, 0, 0, 0, 2, 7, 9,
    ];
    same(&rt, shard.as_slice(), want.as_slice());
}

// What the encoding of the cells before their index, in any order, is compacted to.
fn compacted_encoding(
    alloc: Global,
    sub: ChunkShape,
    array: &ArrayBytes,
    cells: &Cells,
) -> Result<Option<Vec<u8>>, CodecError> {
    let codec = ShardingCodec::new(
        sub,
        BytesCodec::big(),
        BytesCodec::big(),
        ShardingIndexLocation::End,
    );
    let (shape, bytes, fill) = (&cells.shape, &DataType::UInt8, &cells.fill);
    let options = CodecOptions::default();
    let shard = codec.encode(alloc, array, shape, bytes, fill, &options)?;
    let spec = ArraySpecRef {
        shape,
        data_type: bytes,
        fill_value: fill,
    };
    compact_encoded(&codec, alloc, &shard, array, &spec, &options)
}

// Nothing stands in an encoding that a compaction leaves out.
#[test]
fn an_encoding_is_compact(rt: HostRuntime) {
    let array = array(&rt, rt.alloc());
    let cells = cells_of(&rt, rt.alloc(), &[4]);
    let sub = shape_of(&rt, rt.alloc(), &[2]);
    let compacted = compacted_encoding(rt.alloc(), sub, &array, &cells);
    same(&rt, compacted, Ok(None));
}

// The cells of a shard that the codec serves.
fn served_cells<R: Abort>(rt: &R, alloc: Global, codec: &Plain, shard: &[u8]) -> Vec<u8> {
    let shape = shape_of(rt, alloc, &[4]);
    let zero = fill_of(rt, alloc, &[0]);
    codec
        .check(alloc, &shape, &DataType::UInt8, &zero)
        .expect(rt, "refused");
    let options = CodecOptions::default();
    elements_of(
        rt,
        alloc,
        decode_served(
            codec,
            alloc,
            shard,
            &shape,
            &DataType::UInt8,
            &zero,
            &options,
        ),
    )
    .expect(rt, "refused")
}

// The cells of a shard, decoded a second time.
fn sound_cells<'a>(
    alloc: Global,
    codec: &Plain,
    cells: &Cells,
    shard: &'a [u8],
) -> Result<ArrayBytes<'a>, CodecError> {
    let (shape, bytes, fill) = (&cells.shape, &DataType::UInt8, &cells.fill);
    let options = CodecOptions::default();
    let first = codec.decode(alloc, shard, shape, bytes, fill, &options)?;
    decode_sound(codec, alloc, shard, shape, bytes, fill, &options)
}

#[test]
fn an_encoding_is_decoded(rt: HostRuntime) {
    let codec = plain(&rt, rt.alloc(), &[2], ShardingIndexLocation::Start);
    let shard = encoded(&rt, rt.alloc(), &codec, &[4], &CELLS);
    let served = served_cells(&rt, rt.alloc(), &codec, &shard);
    same(&rt, served.as_slice(), CELLS.as_slice());
    let cells = cells_of(&rt, rt.alloc(), &[4]);
    let sound = sound_cells(rt.alloc(), &codec, &cells, &shard).expect(&rt, "refused");
    same(&rt, sound.fixed_bytes(), Some(CELLS.as_slice()));
}

// Whether a shard is compacted to one of so many bytes, which is compact.
fn is_compacted_to<R: Abort>(
    rt: &R,
    alloc: Global,
    codec: &Plain,
    cells: &Cells,
    shard: &[u8],
    len: usize,
) -> bool {
    let (shape, bytes, fill) = (&cells.shape, &DataType::UInt8, &cells.fill);
    codec.check(alloc, shape, bytes, fill).expect(rt, "refused");
    let options = CodecOptions::default();
    let compacted = codec
        .compact(alloc, shard, shape, bytes, fill, &options)
        .expect(rt, "refused");
    let Some(compacted) = compacted else {
        return false;
    };
    let spec = ArraySpecRef {
        shape,
        data_type: bytes,
        fill_value: fill,
    };
    let again = compact_again(codec, alloc, shard, &compacted, &spec, &options).expect(
        rt, "refused",
    );
    again.is_none() && compacted.len() == len
}

// Two dead bytes of six go, beside an index of 32 bytes, and then nothing.
#[test]
fn a_compacted_shard_is_compact(rt: HostRuntime) {
    let codec = plain(&rt, rt.alloc(), &[2], ShardingIndexLocation::End);
    let cells = cells_of(&rt, rt.alloc(), &[4]);
    let shard = shard_of(&rt, rt.alloc(), &[9, 9, 1, 2, 3, 4], &[2, 2, 4, 2]);
    let found = is_compacted_to(&rt, rt.alloc(), &codec, &cells, &shard, 36);
    same(&rt, found, true);
}
