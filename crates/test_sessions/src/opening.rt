// Objects that are opened for writing, and those that are given back.
use crate::compared::same_at;
use crate::shards::{ABSENT, Shards, object_of};
use std::alloc::Global;
use std::process::Abort;
use zarr_codecs::{BytesPartialDecoderTraits, MemoryHandle};
use zarr_parts::CodecError;
use zarrs_sharding::ShardingIndexLocation;
use zarrs_sharding::ShardingIndexLocation::{End, Start};

// How many bytes the handle of an object that is not opened holds, and why it is not opened.
fn refused<R: Abort>(
    rt: &R,
    alloc: Global,
    location: ShardingIndexLocation,
    object: Vec<u8>,
) -> Option<(usize, CodecError)> {
    let shards = Shards::new(rt, alloc, location);
    match shards.open(alloc, MemoryHandle::new(Some(object))) {
        Ok(_) => None,
        Err((handle, error)) => Some((handle.size_held(), error)),
    }
}

// The second pair is half empty, passes 64 bits or has no size; lies on the slice of the first, on the index, or after it;
// has no byte at the end of the data part. Or the first lies on an index at the start, with bytes or without.
#[test]
fn the_lowest_entry_outside_the_data_part_is_named(rt: HostRuntime) {
    const ROWS: &[(ShardingIndexLocation, [u64; 4], Option<u64>)] = &[
        (End, [0, 2, ABSENT, 5], Some(1)),
        (End, [0, 2, ABSENT - 1, 2], Some(1)),
        (End, [0, 2, 1, ABSENT], Some(1)),
        (End, [0, 2, 0, 2], None),
        (End, [0, 2, 2, 2], Some(1)),
        (End, [0, 2, 34, 0], Some(1)),
        (End, [0, 2, 2, 0], None),
        (Start, [0, 2, 32, 2], Some(0)),
        (Start, [0, 0, 32, 2], Some(0)),
        (Start, [32, 2, 34, 0], None),
    ];
    for (location, index, number) in ROWS {
        let want = number.map(|number| (34, CodecError::BadIndexEntry { number }));
        let object = object_of(&rt, rt.alloc(), *location, &[5, 6], *index);
        let found = refused(&rt, rt.alloc(), *location, object);
        same_at(&rt, *index, found, want);
    }
}

// An object shorter than the index, of 32 bytes, is not opened; an index alone is.
#[test]
fn a_short_object_is_given_back(rt: HostRuntime) {
    const ROWS: &[(usize, Option<(usize, CodecError)>)] = &[
        (0, Some((0, CodecError::ShardTooShort))),
        (31, Some((31, CodecError::ShardTooShort))),
        (32, None),
    ];
    for (len, want) in ROWS {
        let object = Vec::from_elem(rt.alloc(), 255u8, *len).expect(&rt, "memory");
        same_at(&rt, *len, refused(&rt, rt.alloc(), End, object), *want);
    }
}
