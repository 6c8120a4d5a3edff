// Shards along the Z-curve in parallel, against slices that were sorted by hand.
use crate::compared::same_at;
use crate::whole_shards::{Shards, add_entry, array_of, said};
use std::alloc::Global;
use std::process::Abort;
use zarr_parts::ArrayBytes;
use zarrs_sharding::NoGate;

const ABSENT: u64 = u64::MAX;

// An array of which each element is a subchunk, unless it is 255; the slices of its shard, and where each subchunk's is.
#[derive(Drop)]
struct Row {
    axes: &'static [u64],
    elements: &'static [u8],
    slices: &'static [u8],
    offsets: &'static [u64],
}

const ROWS: [Row; 4] = [
    Row {
        axes: &[4, 4],
        elements: &[0, 1, 2, 3, 4, 5, 6, 7, 8, 9, 10, 11, 12, 13, 14, 15],
        slices: &[0, 1, 4, 5, 2, 3, 6, 7, 8, 9, 12, 13, 10, 11, 14, 15],
        offsets: &[0, 1, 4, 5, 2, 3, 6, 7, 8, 9, 12, 13, 10, 11, 14, 15],
    },
    Row {
        axes: &[2, 3],
        elements: &[0, 1, 2, 3, 4, 5],
        slices: &[0, 1, 3, 4, 2, 5],
        offsets: &[0, 1, 4, 2, 3, 5],
    },
    Row {
        axes: &[2, 3],
        elements: &[0, 255, 2, 3, 4, 5],
        slices: &[0, 3, 4, 2, 5],
        offsets: &[0, ABSENT, 3, 1, 2, 4],
    },
    Row {
        axes: &[4, 2, 3],
        elements: &[
            0, 1, 2, 3, 4, 5, 6, 7, 8, 9, 10, 11, 12, 13, 14, 15, 16, 17, 18, 19, 20, 21, 22, 23,
        ],
        slices: &[
            0, 1, 3, 4, 6, 7, 9, 10, 2, 5, 8, 11, 12, 13, 15, 16, 18, 19, 21, 22, 14, 17, 20, 23,
        ],
        offsets: &[
            0, 1, 8, 2, 3, 9, 4, 5, 10, 6, 7, 11, 12, 13, 20, 14, 15, 21, 16, 17, 22, 18, 19, 23,
        ],
    },
];

fn rows() -> [Row; 4] {
    ROWS
}

const ONES: [u64; 3] = [1; 3];

fn shards_of<R: Abort>(rt: &R, alloc: Global, row: &Row) -> Shards {
    let sub = ONES.get(..row.axes.len()).expect(rt, "three axes at most");
    Shards::along_the_curve(rt, alloc, row.axes, sub)
}

// The slices, and then the index, in which each slice has one byte.
fn shard_of<R: Abort>(rt: &R, alloc: Global, row: &Row) -> Vec<u8> {
    let mut shard = row.slices.to_vec(alloc).expect(rt, "memory");
    for offset in row.offsets {
        let size = if *offset == ABSENT { ABSENT } else { 1 };
        add_entry(rt, &mut shard, *offset, size);
    }
    shard
}

fn elements_of<R: Abort>(rt: &R, alloc: Global, row: &Row) -> ArrayBytes<'static> {
    array_of(rt, row.elements.to_vec(alloc).expect(rt, "memory"), 1)
}

#[test]
fn slices_lie_along_the_curve_whoever_was_first(rt: HostRuntime) {
    let alloc = rt.alloc();
    for row in rows().iter() {
        let shards = shards_of(&rt, alloc, row);
        let array = elements_of(&rt, alloc, row);
        for target in [1, 2, 4] {
            let found = shards.encoded_by_workers(&rt, alloc, &array, &NoGate, target);
            let want = shard_of(&rt, alloc, row);
            same_at(&rt, (row.axes, target), found, Ok(want));
        }
    }
}

#[test]
fn slices_along_the_curve_are_decoded(rt: HostRuntime) {
    let alloc = rt.alloc();
    for row in rows().iter() {
        let shards = shards_of(&rt, alloc, row);
        let shard = shard_of(&rt, alloc, row);
        for target in [1, 2, 4] {
            let found = shards.decoded_by_workers(&rt, alloc, &shard, &NoGate, target);
            same_at(&rt, (row.axes, target), said(&found), Ok(row.elements));
        }
    }
}
