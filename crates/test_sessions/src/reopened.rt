// Sessions that failed: their handle is opened anew.
use crate::compared::same_at;
use crate::shards::{Shards, are_cells, seven, write};
use std::alloc::Global;
use std::process::Abort;
use zarr_codecs::FaultingHandle;
use zarrs_sharding::ShardingIndexLocation;

// The handle of a session that failed where it wrote 1 over the first cell, or erased; none where it did not fail.
fn failed_handle<R: Abort>(
    rt: &R,
    alloc: Global,
    shards: &Shards,
    handle: FaultingHandle,
    erases: bool,
) -> Option<FaultingHandle> {
    let mut session = shards.open(alloc, handle).ok()?;
    let _ = if erases {
        session.erase()
    } else {
        write(rt, alloc, &mut session, 0..1, &[1])
    };
    if session.is_failed() {
        Some(session.close())
    } else {
        None
    }
}

// Whether the cells are as they were in a session that a handle opens anew, and then as they are written.
fn written_afresh<R: Abort>(
    rt: &R,
    alloc: Global,
    shards: &Shards,
    handle: FaultingHandle,
) -> (bool, bool) {
    let mut session = shards.opened(rt, alloc, handle);
    let before = are_cells(rt, alloc, &mut session, 0..4, &[0, 7, 0, 0]);
    write(rt, alloc, &mut session, 0..1, &[1]).expect(rt, "a write");
    let after = are_cells(rt, alloc, &mut session, 0..4, &[1, 7, 0, 0]);
    (before && !session.is_failed(), after)
}

// The same of the object of 0, 7, 0, 0, of whose handle the call with this number fails; none where the session does not.
fn run<R: Abort>(rt: &R, alloc: Global, fails_at: u64, erases: bool) -> Option<(bool, bool)> {
    let shards = Shards::new(rt, alloc, ShardingIndexLocation::End);
    let handle = FaultingHandle::new(Some(seven(rt, alloc)), fails_at);
    let failed = failed_handle(rt, alloc, &shards, handle, erases)?;
    Some(written_afresh(rt, alloc, &shards, failed))
}

// A change makes one call that writes, by which the session may fail.
#[test]
fn a_failed_session_is_opened_anew(rt: HostRuntime) {
    for erases in [false, true] {
        let mut failed: u64 = 0;
        for fails_at in 0..100 {
            let found = run(&rt, rt.alloc(), fails_at, erases);
            if found.is_some() {
                failed = failed.saturating_add(1);
                same_at(&rt, (erases, fails_at), found, Some((true, true)));
            }
        }
        same_at(&rt, erases, failed, 1);
    }
}
