// Threads that share one recorded session, each by its own seat.
ghost use Rattle.std.specs.Prelude.{◌≡◌, Some};
ghost use Rattle.parts_arrays.specs.ArraySpec.{array_spec};
ghost use Rattle.parts_arrays.specs.declared.data_type.DataType.TheVariants.{UInt8};

use crate::compared::same;
use crate::shards::{
    Call, Encoder, Ended, Shards, called, how_it_ended, is_object, object_of, shards_of,
};
use shard_sessions::{Naming, Seat};
use std::alloc::Global;
use std::marker::Brand;
use std::process::Abort;
use std::sync::Wait;
use std::thread;
use std::thread::Threads;
use zarr_codecs::{ArrayToBytesCodecTraits, FaultingHandle};

// What the threads of a test do: so many of them, each in a cell of its own, write values from the first on, so many times, and
// read the cell after each. The first value of each thread is so far from that of the thread before it.
#[derive(Clone, Copy)]
struct Plan {
    threads: u8,
    times: u8,
    first: u8,
    apart: u8,
}

// What one thread does: it writes values from the first on into a cell, so many times, and reads the cell after each.
#[derive(Drop)]
struct Job {
    seat: Seat,
    cell: u64,
    first: u8,
    times: u8,
}

// The thread's seat, and how many reads gave what was written before.
fn work<I: ArrayToBytesCodecTraits, X: ArrayToBytesCodecTraits, J: Naming<I, X>, R: Wait>(
    rt: &R,
    alloc: Global,
    encoder: &Encoder<'_, I, X, J>,
    job: Job,
) -> (Seat, u64) {
    let Job {
        mut seat,
        cell,
        first,
        times,
    } = job;
    let mut right: u64 = 0;
    for k in 0..times {
        let value = first.wrapping_add(k);
        let (next, _) = called(rt, alloc, encoder, seat, Call::Write { cell, value });
        let own = Call::Read {
            first: cell,
            end: cell.saturating_add(1),
        };
        let (next, answer) = called(rt, alloc, encoder, next, own);
        seat = next;
        if let Ok((_, read)) = answer
            && read == value
        {
            right = right.saturating_add(1);
        }
    }
    (seat, right)
}

fn job_of(plan: Plan, seat: Seat, thread: u8) -> Job {
    Job {
        seat,
        cell: u64::from(thread),
        first: plan.first.wrapping_add(plan.apart.wrapping_mul(thread)),
        times: plan.times,
    }
}

// The jobs of a plan, each with a seat of its own: the last one has the seat that the session was opened with.
fn jobs_for<I: ArrayToBytesCodecTraits, X: ArrayToBytesCodecTraits, J: Naming<I, X>>(
    alloc: Global,
    encoder: &Encoder<'_, I, X, J>,
    seat: Seat,
    plan: Plan,
) -> Vec<Job> {
    let mut list = Vec::new(alloc);
    let mut rest = seat;
    for thread in 1..plan.threads {
        let (kept, seat) = encoder.split_seat(rest);
        rest = kept;
        let _ = list.push(job_of(plan, seat, thread));
    }
    let _ = list.push(job_of(plan, rest, 0));
    list
}

// All seats, and how many reads were right.
fn counted(alloc: Global, done: Vec<(Seat, u64)>) -> (Vec<Seat>, u64) {
    let mut seats = Vec::new(alloc);
    let mut right: u64 = 0;
    for (seat, count) in done {
        let _ = seats.push(seat);
        right = right.saturating_add(count);
    }
    (seats, right)
}

// The jobs of a plan, each in a thread; all seats, and how many reads were right.
fn worked<
    I: ArrayToBytesCodecTraits + Send + Sync,
    X: ArrayToBytesCodecTraits + Send + Sync,
    J: Naming<I, X> + Send + Sync,
    R: Threads + Wait + Sync,
>(
    rt: &R,
    alloc: Global,
    encoder: &Encoder<'_, I, X, J>,
    seat: Seat,
    plan: Plan,
) -> (Vec<Seat>, u64) {
    let list = jobs_for(alloc, encoder, seat, plan);
    match thread::map_vec(rt, list, &|job| work(rt, alloc, encoder, job)) {
        Ok(done) => counted(alloc, done),
        Err(_) => (Vec::new(alloc), 0),
    }
}

// A plan on one session; how many reads were right, and how the session ended.
fn shared<
    I: ArrayToBytesCodecTraits + Send + Sync,
    X: ArrayToBytesCodecTraits + Send + Sync,
    J: Naming<I, X> + Send + Sync,
    R: Threads + Wait + Sync,
>(rt: &R, alloc: Global, shards: &Shards<I, X>, object: Option<Vec<u8>>, plan: Plan) -> (u64, Ended)
    requires codec_named { Some shards.now.codec ≡ J.codec }
    requires spec_named { array_spec shards.now.shape UInt8 shards.now.fill ≡ J.array_spec }
{
    let handle = FaultingHandle::new(object, u64::MAX);
    match shards.recorded::<J>(alloc, handle) {
        Ok((encoder, seat)) => {
            let (seats, right) = worked(rt, alloc, &encoder, seat, plan);
            (right, how_it_ended(encoder.close(seats)))
        }
        Err((handle, error)) => (0, Ended::refused(handle, error)),
    }
}

// The object of the cells 1 to 8.
fn eight<R: Abort>(rt: &R, alloc: Global) -> Vec<u8> {
    object_of(
        rt,
        alloc,
        &[1, 2, 3, 4, 5, 6, 7, 8],
        &[0, 2, 2, 2, 4, 2, 6, 2],
    )
}

#[test]
fn two_threads_read_what_they_wrote(rt: HostRuntime) {
    let object = eight(&rt, rt.alloc());
    let shards = shards_of(&rt, rt.alloc(), 8);
    let plan = Plan {
        threads: 2,
        times: 1,
        first: 50,
        apart: 10,
    };
    let (right, end) = shared::<_, _, Brand, _>(&rt, rt.alloc(), &shards, Some(object), plan);
    same(&rt, right, 2);
    same(&rt, end.how, "closed");
    same(&rt, end.events, 4);
    same(
        &rt,
        end.opening_cells(),
        [1, 2, 3, 4, 5, 6, 7, 8].as_slice(),
    );
    let left = shards.are_cells(rt.alloc(), &end.object, &[50, 60, 3, 4, 5, 6, 7, 8]);
    same(&rt, left, Ok(true));
}

// Whether a compaction leaves this object.
fn compacts_to<I: ArrayToBytesCodecTraits, X: ArrayToBytesCodecTraits, R: Abort>(
    rt: &R,
    alloc: Global,
    shards: &Shards<I, X>,
    object: &Option<Vec<u8>>,
    slices: &[u8],
    index: &[u64],
) -> bool {
    let compacted = shards.compacted(alloc, object).expect(rt, "refused");
    is_object(rt, alloc, &compacted, slices, index)
}

// From no object each of four threads writes 1 to 50 into its cell: fifty slices of each subchunk, of which a compaction leaves one.
#[test]
fn four_threads_leave_one_history(rt: HostRuntime) {
    let shards = shards_of(&rt, rt.alloc(), 4);
    let plan = Plan {
        threads: 4,
        times: 50,
        first: 1,
        apart: 0,
    };
    let (right, end) = shared::<_, _, Brand, _>(&rt, rt.alloc(), &shards, None, plan);
    same(&rt, right, 200);
    same(&rt, end.how, "closed");
    same(&rt, end.events, 400);
    same(&rt, end.opening_cells(), [0, 0, 0, 0].as_slice());
    let left = compacts_to(
        &rt,
        rt.alloc(),
        &shards,
        &end.object,
        &[50, 50, 50, 50],
        &[0, 2, 2, 2],
    );
    same(&rt, left, true);
}
