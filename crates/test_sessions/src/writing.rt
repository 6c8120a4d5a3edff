// Writes in one session, and those that are refused.
use crate::compared::same;
use crate::shards::{ABSENT, Session, Shards, are_cells, object_of, seven, subset_of, write};
use std::alloc::Global;
use std::borrow::CowSlice;
use std::ops::Range;
use std::process::Abort;
use zarr_codecs::{BytesPartialDecoderTraits, MemoryHandle};
use zarr_parts::{ArrayBytes, CodecError, CodecOptions, Coordinates, Indexer};
use zarrs_sharding::ShardingIndexLocation;
use zarrs_sharding::ShardingIndexLocation::{End, Start};

type Memory<'a> = Session<'a, MemoryHandle>;

// The cells of a range, and what is written there.
type Step = (Range<u64>, &'static [u8]);

fn write_all<R: Abort>(rt: &R, alloc: Global, session: &mut Memory<'_>, steps: &[Step]) {
    for (range, bytes) in steps.iter() {
        let written = write(rt, alloc, session, range.start..range.end, bytes);
        written.expect(rt, "a write");
    }
}

// The object after these writes in one session of no object, which has these cells then.
fn written<R: Abort>(
    rt: &R,
    alloc: Global,
    shards: &Shards,
    steps: &[Step],
    cells: &[u8],
) -> Option<Vec<u8>> {
    let mut session = shards.opened(rt, alloc, MemoryHandle::new(None));
    write_all(rt, alloc, &mut session, steps);
    same(rt, are_cells(rt, alloc, &mut session, 0..4, cells), true);
    session.close().into_inner()
}

const STEPS: &[Step] = &[(1..2, &[7]), (2..4, &[1, 2]), (0..1, &[9])];

// Each write sees those before it: of the entry that it straddles the other cell stays, and its slice goes after all others.
#[test]
fn a_session_writes_more_than_once(rt: HostRuntime) {
    let alloc = rt.alloc();
    const ROWS: &[(ShardingIndexLocation, usize, &[u8], [u64; 4], [u8; 4])] = &[
        (End, 2, &[0, 7, 1, 2], [0, 2, 2, 2], [0, 7, 1, 2]),
        (End, 3, &[0, 7, 1, 2, 9, 7], [4, 2, 2, 2], [9, 7, 1, 2]),
        (Start, 2, &[0, 7, 1, 2], [32, 2, 34, 2], [0, 7, 1, 2]),
        (Start, 3, &[0, 7, 1, 2, 9, 7], [36, 2, 34, 2], [9, 7, 1, 2]),
    ];
    for (location, many, slices, index, cells) in ROWS {
        let steps = STEPS.get(..*many).expect(&rt, "three steps at most");
        let shards = Shards::new(&rt, alloc, *location);
        let found = written(&rt, alloc, &shards, steps, cells);
        let object = object_of(&rt, alloc, *location, slices, *index);
        same(&rt, found, Some(object));
    }
}

// An array of two bytes, in elements of this size.
fn two_bytes<R: Abort>(rt: &R, element_size: usize) -> ArrayBytes<'static> {
    let bytes = CowSlice::Borrowed([1, 1].as_slice());
    ArrayBytes::new_flen(bytes, element_size).expect(rt, "whole elements")
}

// How a write into an object of 34 bytes is refused, and how many it has then.
fn refused<R: Abort, N: Indexer>(
    rt: &R,
    alloc: Global,
    indexer: &N,
    update: &ArrayBytes,
) -> (Option<CodecError>, usize) {
    let shards = Shards::new(rt, alloc, End);
    let handle = MemoryHandle::new(Some(seven(rt, alloc)));
    let mut session = shards.opened(rt, alloc, handle);
    let answer = session.partial_encode(alloc, indexer, update, &CodecOptions::default());
    (answer.err(), session.close().size_held())
}

// Cells outside first, then elements of another size, and another number of them.
#[test]
fn a_write_is_refused_in_order(rt: HostRuntime) {
    const ROWS: &[(Range<u64>, usize, Option<CodecError>)] = &[
        (3..5, 2, Some(CodecError::OutOfBounds)),
        (0..4, 2, Some(CodecError::WrongElementKind)),
        (0..4, 1, Some(CodecError::InvalidNumberOfElements)),
        (0..2, 1, None),
    ];
    for (range, element_size, want) in ROWS {
        let subset = subset_of(&rt, rt.alloc(), range.start..range.end);
        let update = two_bytes(&rt, *element_size);
        let found = refused(&rt, rt.alloc(), &subset, &update);
        same(&rt, found, (*want, 34));
    }
}

// Also where they lie outside, and the elements have another size.
#[test]
fn listed_cells_are_not_written(rt: HostRuntime) {
    let numbers = [9].to_vec(rt.alloc()).expect(&rt, "memory");
    let list = Coordinates::new(1, 1, numbers).expect(&rt, "coordinates");
    let found = refused(&rt, rt.alloc(), &list, &two_bytes(&rt, 2));
    same(&rt, found, (Some(CodecError::UnsupportedIndexer), 34));
}
