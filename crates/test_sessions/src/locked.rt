// A session that threads share.
use crate::compared::same;
use crate::shards::{Answer, Shards, Shared, said, seven, subset_of};
use std::alloc::Global;
use std::ops::Range;
use std::process::Abort;
use std::sync::Wait;
use std::thread::{Threads, join};
use zarr_codecs::MemoryHandle;
use zarr_parts::{ArrayBytes, CodecError, CodecOptions, DataType};
use zarrs_sharding::ShardingIndexLocation::End;

type Memory<'a> = Shared<'a, MemoryHandle>;

// A session of the object of 0, 7, 0, 0.
fn opened<'a, R: Abort>(rt: &R, alloc: Global, shards: &'a Shards) -> Memory<'a> {
    let handle = MemoryHandle::new(Some(seven(rt, alloc)));
    shards.share(alloc, handle).ok().expect(rt, "a session")
}

// Writes one cell.
fn write<R: Abort + Wait>(
    rt: &R,
    alloc: Global,
    session: &Memory<'_>,
    place: u64,
    cell: u8,
) -> Result<(), CodecError> {
    let subset = subset_of(rt, alloc, place..place.saturating_add(1));
    let update = ArrayBytes::from_numbers(alloc, &[cell]).expect(rt, "memory");
    session.partial_encode(rt, alloc, &subset, &update, &CodecOptions::default())
}

// The cells of a range.
fn read<R: Abort + Wait>(rt: &R, alloc: Global, session: &Memory<'_>, range: Range<u64>) -> Answer {
    let subset = subset_of(rt, alloc, range);
    session.partial_decode(rt, alloc, &subset, &CodecOptions::default())
}

// Ends the test where the cells of a range are not these.
fn are_cells<R: Abort + Wait>(
    rt: &R,
    alloc: Global,
    session: &Memory<'_>,
    range: Range<u64>,
    want: &[u8],
) {
    let found = read(rt, alloc, session, range);
    same(rt, said(&found), Ok(want));
}

// Ends the test where it is told otherwise whether there is an object, or how many bytes are held of it.
fn tells<R: Abort + Wait>(rt: &R, session: &Memory<'_>, exists: bool, held: usize) {
    same(rt, session.exists(rt), Ok(exists));
    same(rt, session.size_held(rt), held);
}

#[test]
fn a_shared_session_writes_reads_and_erases(rt: HostRuntime) {
    let alloc = rt.alloc();
    let shards = Shards::new(&rt, alloc, End);
    let session = opened(&rt, alloc, &shards);
    same(&rt, write(&rt, alloc, &session, 0, 3), Ok(()));
    are_cells(&rt, alloc, &session, 0..4, &[3, 7, 0, 0]);
    tells(&rt, &session, true, 34 + 32);
    same(&rt, session.erase(&rt), Ok(()));
    tells(&rt, &session, false, 32);
    let left = session.into_inner().into_inner();
    same(&rt, left.is_some(), false);
}

#[test]
fn what_never_changes_is_told_without_a_runtime(rt: HostRuntime) {
    let shards = Shards::new(&rt, rt.alloc(), End);
    let session = opened(&rt, rt.alloc(), &shards);
    same(&rt, *session.data_type(), DataType::UInt8);
    same(&rt, session.supports_partial_decode(), true);
    same(&rt, session.supports_partial_encode(), true);
}

#[test]
fn a_refused_call_gives_the_lock_back(rt: HostRuntime) {
    let alloc = rt.alloc();
    let shards = Shards::new(&rt, alloc, End);
    let session = opened(&rt, alloc, &shards);
    let refused = read(&rt, alloc, &session, 3..5);
    same(&rt, said(&refused), Err(CodecError::OutOfBounds));
    are_cells(&rt, alloc, &session, 0..2, &[0, 7]);
}

// How the writes of two threads, of one cell each, are answered.
fn written_by_two<R: Abort + Threads + Wait + Sync>(
    rt: &R,
    alloc: Global,
    session: &Memory<'_>,
) -> (Result<(), CodecError>, Result<(), CodecError>) {
    join(
        rt,
        || write(rt, alloc, session, 0, 3),
        || write(rt, alloc, session, 3, 9),
    )
}

#[test]
fn two_threads_write_into_one_session(rt: HostRuntime) {
    let alloc = rt.alloc();
    let shards = Shards::new(&rt, alloc, End);
    let session = opened(&rt, alloc, &shards);
    let written = written_by_two(&rt, alloc, &session);
    same(&rt, written, (Ok(()), Ok(())));
    are_cells(&rt, alloc, &session, 0..4, &[3, 7, 0, 9]);
}
