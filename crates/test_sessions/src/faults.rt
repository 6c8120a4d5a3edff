// Handles of which one call fails: at each call in turn, until a run meets no failure.
use crate::compared::{same, same_at};
use crate::shards::{Session, Shards, read, seven, subset_of, write};
use std::alloc::Global;
use std::process::Abort;
use zarr_codecs::FaultingHandle;
use zarr_parts::{ArraySubset, CodecError};
use zarrs_sharding::ShardingIndexLocation;

// The number of a refusal, 0 where there is none.
fn number(refusal: Option<CodecError>) -> u8 {
    match refusal {
        Some(error) => error.number(),
        None => 0,
    }
}

// How the calls of a failed session that read or write are refused, where all are refused alike; 0 where it is not failed.
fn refused_by_all(
    alloc: Global,
    session: &mut Session<'_, FaultingHandle>,
    cells: &ArraySubset,
) -> u8 {
    if !session.is_failed() {
        return 0;
    }
    let exists = number(session.exists().err());
    let erase = number(session.erase().err());
    let read = number(read(alloc, session, cells).err());
    if exists == read && erase == read {
        read
    } else {
        0
    }
}

// Two cells that are read, or twice how the read is refused.
fn two_cells(
    alloc: Global,
    session: &mut Session<'_, FaultingHandle>,
    cells: &ArraySubset,
) -> [u8; 2] {
    match read(alloc, session, cells) {
        Ok(array) => {
            let bytes = array.fixed_bytes().unwrap_or(&[]);
            bytes.first_chunk::<2>().copied().unwrap_or([0; 2])
        }
        Err(error) => [error.number(); 2],
    }
}

// Writes 1 over the first cell and reads two, erases, and calls a session that failed once more: how these are refused, or which
// cells are read.
fn run_calls<R: Abort>(
    rt: &R,
    alloc: Global,
    session: &mut Session<'_, FaultingHandle>,
    cells: &ArraySubset,
) -> [u8; 5] {
    let write = number(write(rt, alloc, session, 0..1, &[1]).err());
    let [first, second] = two_cells(alloc, session, cells);
    let erase = number(session.erase().err());
    let again = refused_by_all(alloc, session, cells);
    [write, first, second, erase, again]
}

// Whether a handle has an object, whose call of a session's may have failed.
fn is_there(handle: FaultingHandle) -> u8 {
    u8::from(handle.into_inner().is_some())
}

// A run over a handle's object, which is opened, written, read and erased. How these are refused, with the cells that are read,
// and what comes after them in a session that failed; and whether there is an object then.
fn run_opened<R: Abort>(
    rt: &R,
    alloc: Global,
    shards: &Shards,
    cells: &ArraySubset,
    handle: FaultingHandle,
) -> [u8; 7] {
    match shards.open(alloc, handle) {
        Ok(mut session) => {
            let [write, first, second, erase, again] = run_calls(rt, alloc, &mut session, cells);
            let left = is_there(session.close());
            [0, write, first, second, erase, again, left]
        }
        Err((handle, error)) => [error.number(), 0, 0, 0, 0, 0, is_there(handle)],
    }
}

// The same over the object of 0, 7, 0, 0, of which the call with this number fails.
fn run<R: Abort>(rt: &R, alloc: Global, fails_at: u64) -> [u8; 7] {
    let shards = Shards::new(rt, alloc, ShardingIndexLocation::End);
    let cells = subset_of(rt, alloc, 0..2);
    let handle = FaultingHandle::new(Some(seven(rt, alloc)), fails_at);
    run_opened(rt, alloc, &shards, &cells, handle)
}

// A fault at the opening leaves the object. One where the write reads leaves the session and the cells 0 and 7, and where it writes
// the session fails. One at the read leaves the session; by one at the erasure it fails.
const STAGES: [[u8; 7]; 6] = [
    [16, 0, 0, 0, 0, 0, 1],
    [0, 16, 0, 7, 0, 0, 0],
    [0, 16, 17, 17, 17, 17, 1],
    [0, 0, 16, 16, 0, 0, 0],
    [0, 0, 1, 7, 16, 17, 1],
    [0, 0, 1, 7, 0, 0, 0],
];

fn stages() -> [[u8; 7]; 6] {
    STAGES
}

// Each run is one of these stages, which come in this order.
#[test]
fn a_fault_is_met_at_each_call(rt: HostRuntime) {
    let stages = stages();
    let mut stage = 0;
    for fails_at in 0..100 {
        let ran = run(&rt, rt.alloc(), fails_at);
        if stage < 5 && ran == stages[stage + 1] {
            stage += 1;
        }
        same_at(&rt, fails_at, ran, stages[stage]);
    }
    same(&rt, stage, 5);
}
