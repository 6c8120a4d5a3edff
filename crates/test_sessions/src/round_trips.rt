// Arrays that are encoded and decoded again: with the index at either end, in either order, by one worker and by four, and with an
// inner codec that tells how long its encodings are or does not.
use crate::compared::same_at;
use std::alloc::Global;
use std::process::Abort;
use std::thread::Threads;
use test_helpers::UnboundedCodec;
use zarr_codecs::{ArrayToBytesCodecTraits, BytesChain, BytesCodec};
use zarr_parts::{ArrayBytes, ChunkShape, CodecOptions, DataType, FillValue};
use zarrs_sharding::{NoGate, ShardingCodec, ShardingIndexLocation, SubchunkWriteOrder};

const ABSENT: u64 = u64::MAX;

// What the 4,096 cells hold.
#[derive(Debug, Clone, Copy)]
enum Held {
    Zeros,
    Counted,
    TwoSubsets,
}

// How they are encoded.
#[derive(Debug, Clone, Copy)]
struct Way {
    location: ShardingIndexLocation,
    order: SubchunkWriteOrder,
    target: usize,
    unbounded: bool,
}

// What came of it.
struct Trip {
    cells: Vec<u16>,
    index: Vec<u64>,
    differs: bool,
}

impl Drop for Trip {
    fn drop(self) {
        let Trip {
            cells: _,
            index: _,
            differs: _,
        } = self;
    }
}

// The cell of this number.
fn cell(held: Held, number: u16) -> u16 {
    let (plane, row, column) = (number / 256, number / 16 % 16, number % 16);
    let inside = (plane < 2 || plane == 5 || plane == 6) && row < 2 && column < 2;
    match held {
        Held::Zeros => 0,
        Held::Counted => number.saturating_add(1),
        Held::TwoSubsets => u16::from(inside),
    }
}

fn cells<R: Abort>(rt: &R, alloc: Global, held: Held) -> Vec<u16> {
    let cells = (0..4096u16).map(|number| cell(held, number)).collect(alloc);
    cells.expect(rt, "memory")
}

fn shape_of<R: Abort>(rt: &R, alloc: Global, axes: &[u64]) -> ChunkShape {
    ChunkShape::new(alloc, axes)
        .expect(rt, "memory")
        .expect(rt, "a shape")
}

// A codec for 16 by 16 by 16 cells in subchunks of 2 by 2 by 2.
struct Shards<I> {
    codec: ShardingCodec<I, BytesCodec>,
    shape: ChunkShape,
    fill: FillValue,
}

impl<I: Drop> Drop for Shards<I> {
    fn drop(self) {
        let Shards {
            codec: _,
            shape: _,
            fill: _,
        } = self;
    }
}

impl<I: ArrayToBytesCodecTraits + Drop + Sync> Shards<I> {
    fn new<R: Abort>(rt: &R, alloc: Global, inner: I, way: Way) -> Self {
        let sub = shape_of(rt, alloc, &[2, 2, 2]);
        let codec = ShardingCodec::new(sub, inner, BytesCodec::little(), way.location);
        Shards {
            codec: codec.with_subchunk_write_order(way.order),
            shape: shape_of(rt, alloc, &[16, 16, 16]),
            fill: FillValue::from_number(alloc, 0u16).expect(rt, "memory"),
        }
    }

    fn encoded<R: Abort + Threads + Sync>(
        &self,
        rt: &R,
        alloc: Global,
        array: &ArrayBytes,
        target: usize,
    ) -> Vec<u8> {
        let options = CodecOptions::default().with_concurrent_target(target);
        let shard = self.codec.encode_by_workers(
            rt,
            alloc,
            array,
            &self.shape,
            &DataType::UInt16,
            &self.fill,
            &NoGate,
            &options,
        );
        shard.expect(rt, "a shard")
    }

    fn decoded<R: Abort + Threads + Sync>(
        &self,
        rt: &R,
        alloc: Global,
        shard: &[u8],
        target: usize,
    ) -> Vec<u16> {
        let options = CodecOptions::default().with_concurrent_target(target);
        let array = self.codec.decode_by_workers(
            rt,
            alloc,
            shard,
            &self.shape,
            &DataType::UInt16,
            &self.fill,
            &NoGate,
            &options,
        );
        let cells = array.expect(rt, "an array").to_numbers(alloc);
        cells.expect(rt, "numbers")
    }

    fn index<R: Abort>(&self, rt: &R, alloc: Global, shard: &[u8]) -> Vec<u64> {
        let (grid, options) = (shape_of(rt, alloc, &[8, 8, 8]), CodecOptions::default());
        let index = self.codec.decode_index(alloc, shard, &grid, &options);
        index.expect(rt, "an index")
    }
}

fn array_of<R: Abort>(rt: &R, alloc: Global, held: Held) -> ArrayBytes<'static> {
    let array = ArrayBytes::from_numbers(alloc, &cells(rt, alloc, held));
    array.expect(rt, "memory")
}

// Encodes cells, and decodes what came out.
fn travel<R: Abort + Threads + Sync, I: ArrayToBytesCodecTraits + Drop + Sync>(
    rt: &R,
    alloc: Global,
    shards: &Shards<I>,
    held: Held,
    target: usize,
) -> Trip {
    let array = array_of(rt, alloc, held);
    let shard = shards.encoded(rt, alloc, &array, target);
    Trip {
        cells: shards.decoded(rt, alloc, &shard, target),
        index: shards.index(rt, alloc, &shard),
        differs: array.fixed_bytes() != Some(shard.as_slice()),
    }
}

// How many numbers of an index are those of subchunks that are there, and whether the offsets of these ascend.
fn present(index: &[u64]) -> (usize, bool) {
    let (mut count, mut ascend, mut last) = (0usize, true, None);
    for entry in index.chunks_exact(2) {
        if entry[0] != ABSENT {
            count = count.saturating_add(2);
            ascend = ascend && last < Some(entry[0]);
            last = Some(entry[0]);
        }
    }
    (count, ascend)
}

// The trip with an inner codec that tells how long its encodings are, or with one that does not.
fn travel_by<R: Abort + Threads + Sync>(rt: &R, alloc: Global, held: Held, way: Way) -> Trip {
    let inner = BytesCodec::little();
    if way.unbounded {
        let inner = BytesChain::new(inner, UnboundedCodec);
        let shards = Shards::new(rt, alloc, inner, way);
        travel(rt, alloc, &shards, held, way.target)
    } else {
        let shards = Shards::new(rt, alloc, inner, way);
        travel(rt, alloc, &shards, held, way.target)
    }
}

// Every way in which they are encoded, by its number below 16.
fn way_of(number: u8) -> Way {
    Way {
        location: match number % 2 {
            0 => ShardingIndexLocation::Start,
            _ => ShardingIndexLocation::End,
        },
        order: match number / 2 % 2 {
            0 => SubchunkWriteOrder::C,
            _ => SubchunkWriteOrder::Unordered,
        },
        target: if number / 4 % 2 == 0 { 1 } else { 4 },
        unbounded: number / 8 == 1,
    }
}

#[test]
fn cells_come_back(rt: HostRuntime) {
    for (held, numbers) in [
        (Held::Zeros, 0),
        (Held::Counted, 1024),
        (Held::TwoSubsets, 6),
    ] {
        for way in (0..16u8).map(way_of) {
            let trip = travel_by(&rt, rt.alloc(), held, way);
            let (count, ascend) = present(&trip.index);
            let in_order = ascend || matches!(way.order, SubchunkWriteOrder::Unordered);
            let is_same = trip.cells == cells(&rt, rt.alloc(), held);
            let found = (trip.index.len(), count, in_order, is_same, trip.differs);
            same_at(&rt, (held, way), found, (1024, numbers, true, true, true));
        }
    }
}
