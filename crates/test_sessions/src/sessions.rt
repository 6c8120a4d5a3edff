// What a session tells, reads and erases.
use crate::compared::same;
use crate::shards::{Answer, Session, Shards, read, said, seven, subset_of};
use std::alloc::Global;
use std::ops::Range;
use std::process::Abort;
use zarr_codecs::MemoryHandle;
use zarr_parts::{CodecError, DataType};
use zarrs_sharding::ShardingIndexLocation;

// What a session of an object tells: whether it is there, how many bytes are held of it, and whether a write failed.
type Told = (bool, usize, bool);

fn told<R: Abort>(rt: &R, session: &mut Session<'_, MemoryHandle>) -> Told {
    let exists = session.exists().expect(rt, "an answer");
    (exists, session.size_held(), session.is_failed())
}

// A session of an object of 34 bytes, or of none.
fn opened<'a, R: Abort>(
    rt: &R,
    alloc: Global,
    shards: &'a Shards,
    stored: bool,
) -> Session<'a, MemoryHandle> {
    let object = if stored { Some(seven(rt, alloc)) } else { None };
    shards.opened(rt, alloc, MemoryHandle::new(object))
}

// A session holds an index of four numbers besides what its handle holds, also where there is no object, as after an erasure.
#[test]
fn an_object_is_told_and_erased(rt: HostRuntime) {
    let none = (false, 32, false);
    for (stored, want) in [(true, (true, 34 + 32, false)), (false, none)] {
        let shards = Shards::new(&rt, rt.alloc(), ShardingIndexLocation::End);
        let mut session = opened(&rt, rt.alloc(), &shards, stored);
        same(&rt, told(&rt, &mut session), want);
        session.erase().expect(&rt, "an erasure");
        same(&rt, told(&rt, &mut session), none);
        same(&rt, session.close().into_inner(), None);
    }
}

// A session tells so of no object without looking at it.
#[test]
fn a_session_reads_and_writes_in_part(rt: HostRuntime) {
    let shards = Shards::new(&rt, rt.alloc(), ShardingIndexLocation::End);
    let session = opened(&rt, rt.alloc(), &shards, false);
    same(&rt, *session.data_type(), DataType::UInt8);
    same(&rt, session.supports_partial_decode(), true);
    same(&rt, session.supports_partial_encode(), true);
}

// The cells of a range, after so many erasures.
fn read_erased<R: Abort>(
    rt: &R,
    alloc: Global,
    session: &mut Session<'_, MemoryHandle>,
    erasures: u64,
    range: &Range<u64>,
) -> Answer {
    for _ in 0..erasures {
        session.erase().expect(rt, "an erasure");
    }
    let requested = subset_of(rt, alloc, range.start..range.end);
    read(alloc, session, &requested)
}

// Without an object each cell is the fill value, also after an erasure; cells outside are refused in both cases.
#[test]
fn cells_are_read_before_and_after_an_erasure(rt: HostRuntime) {
    let alloc = rt.alloc();
    let shards = Shards::new(&rt, alloc, ShardingIndexLocation::End);
    const ROWS: &[(bool, u64, Range<u64>, Result<&[u8], CodecError>)] = &[
        (true, 0, 0..4, Ok(&[0, 7, 0, 0])),
        (true, 0, 1..1, Ok(&[])),
        (true, 1, 0..4, Ok(&[0, 0, 0, 0])),
        (true, 2, 1..3, Ok(&[0, 0])),
        (false, 0, 0..4, Ok(&[0, 0, 0, 0])),
        (true, 0, 3..5, Err(CodecError::OutOfBounds)),
        (true, 1, 3..5, Err(CodecError::OutOfBounds)),
        (false, 0, 5..5, Err(CodecError::OutOfBounds)),
    ];
    for (stored, erasures, range, want) in ROWS {
        let mut session = opened(&rt, alloc, &shards, *stored);
        let cells = read_erased(&rt, alloc, &mut session, *erasures, range);
        same(&rt, said(&cells), *want);
    }
}
