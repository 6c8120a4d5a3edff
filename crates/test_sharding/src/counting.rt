// A read asks its handle for the index and for the slices in which cells are asked, and for no other bytes.
use crate::compared::same;
use crate::shards::{around, decoder_of, encoded, plain, sixteen_cells, subset_of};
use std::alloc::Global;
use std::ops::Range;
use std::process::Abort;
use zarr_codecs::{ArrayToBytesCodecTraits, CountingHandle};
use zarr_parts::{ArraySubset, CodecOptions};
use zarrs_sharding::{ShardingCodec, ShardingIndexLocation, ShardingPartialDecoder};

// How many bytes are read of an object where it is opened.
fn read_to_open<I: ArrayToBytesCodecTraits, X: ArrayToBytesCodecTraits, R: Abort>(
    rt: &R,
    alloc: Global,
    codec: &ShardingCodec<I, X>,
    object: Vec<u8>,
    shape: &[u64],
) -> u64 {
    let decoder = decoder_of(rt, alloc, codec, CountingHandle::new(object), shape).expect(
        rt, "refused",
    );
    decoder.close().bytes_read()
}

// Reads cells twice.
fn read_twice<I: ArrayToBytesCodecTraits, X: ArrayToBytesCodecTraits, R: Abort>(
    rt: &R,
    alloc: Global,
    decoder: &mut ShardingPartialDecoder<'_, I, X, CountingHandle>,
    cells: &ArraySubset,
) {
    let options = CodecOptions::default();
    for _ in 0..2 {
        let _ = decoder
            .partial_decode(alloc, cells, &options)
            .expect(rt, "refused");
    }
}

// How many bytes are read of an object where it is opened and cells are read twice.
fn read_in_all<I: ArrayToBytesCodecTraits, X: ArrayToBytesCodecTraits, R: Abort>(
    rt: &R,
    alloc: Global,
    codec: &ShardingCodec<I, X>,
    object: Vec<u8>,
    shape: &[u64],
    cells: &ArraySubset,
) -> u64 {
    let mut decoder = decoder_of(rt, alloc, codec, CountingHandle::new(object), shape).expect(
        rt, "refused",
    );
    read_twice(rt, alloc, &mut decoder, cells);
    decoder.close().bytes_read()
}

// How many bytes are read of an object where it is opened; and where cells are read twice, too.
fn counts<I: ArrayToBytesCodecTraits, X: ArrayToBytesCodecTraits, R: Abort>(
    rt: &R,
    alloc: Global,
    codec: &ShardingCodec<I, X>,
    object: &[u8],
    shape: &[u64],
    ranges: &[Range<u64>],
) -> (u64, u64) {
    let opening = read_to_open(
        rt,
        alloc,
        codec,
        object.to_vec(alloc).expect(rt, "refused"),
        shape,
    );
    let cells = subset_of(rt, alloc, ranges);
    let all = read_in_all(
        rt,
        alloc,
        codec,
        object.to_vec(alloc).expect(rt, "refused"),
        shape,
        &cells,
    );
    (opening, all)
}

// Those of a shard of four subchunks, of which the last cell is read.
fn corner_counts<R: Abort>(rt: &R, alloc: Global) -> (u64, u64) {
    let stored = sixteen_cells(rt, alloc);
    counts(
        rt,
        alloc,
        &stored.codec,
        &stored.shard,
        &[4, 4],
        &[3..4, 3..4],
    )
}

// An index of 64 bytes, and four slices of 4 elements of a byte, of which one is read twice.
#[test]
fn only_the_element_of_a_cell_is_read(rt: HostRuntime) {
    same(&rt, corner_counts(&rt, rt.alloc()), (64, 64 + 2));
}

// Those of a shard of two shards, of which a cell of the second is read; and how long it is.
fn nested_counts<R: Abort>(rt: &R, alloc: Global) -> (u64, u64, usize) {
    let inner = plain(rt, alloc, &[1], ShardingIndexLocation::Start);
    let codec = around(rt, alloc, &[4], inner, ShardingIndexLocation::End);
    let object = encoded(rt, alloc, &codec, &[8], &[1, 2, 3, 4, 5, 6, 7, 8]);
    let (opening, all) = counts(rt, alloc, &codec, &object, &[8], &[6..7]);
    (opening, all, object.len())
}

// Two shards of four subchunks of one byte behind an index of 64 bytes each, in a shard with an index of 32 bytes: no inner
// shard is read whole.
#[test]
fn no_inner_shard_is_read_whole(rt: HostRuntime) {
    let want = (32, 32 + 2 * (64 + 1), 2 * 68 + 32);
    same(&rt, nested_counts(&rt, rt.alloc()), want);
}
