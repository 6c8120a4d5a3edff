// Runs of which one call of the handle fails: at each call in turn, until a run meets no failure.
use crate::compared::{same, same_at};
use crate::orders::Answer::{Cells, Compacted, Done};
use crate::orders::Order::{Compact, Erase, Read, ReadCells, Reopen, Write};
use crate::orders::{Answer, Order, commands_of, say};
use crate::shards::{Shards, object_of, shards_of};
use shard_sessions::{CommandRun, run_commands};
use std::alloc::Global;
use std::process::Abort;
use zarr_codecs::{BytesCodec, FaultingHandle, MemoryHandle};
use zarr_parts::{ArraySubset, CodecError, CodecOptions, DataType};
use zarrs_sharding::ShardState;

const ORDERS: [Order; 6] = [
    Write(3, 5, &[9, 9]),
    Read(0, 8),
    Compact,
    ReadCells(&[7, 0]),
    Reopen,
    Erase,
];

const ANSWERS: [Answer; 6] = [
    Done,
    Cells(&[1, 2, 3, 9, 9, 6, 7, 8]),
    Compacted(true),
    Cells(&[8, 1]),
    Done,
    Done,
];

// The slices and the index of an object, and its cells; none, of which all cells are 0.
type Object = Option<(&'static [u8], &'static [u64], &'static [u8])>;

const BEFORE: Object = Some((
    &[1, 2, 3, 4, 5, 6, 7, 8],
    &[0, 2, 2, 2, 4, 2, 6, 2],
    &[1, 2, 3, 4, 5, 6, 7, 8],
));

const WRITTEN: Object = Some((
    &[1, 2, 3, 4, 5, 6, 7, 8, 3, 9, 9, 6],
    &[0, 2, 8, 2, 10, 2, 6, 2],
    &[1, 2, 3, 9, 9, 6, 7, 8],
));

const COMPACT: Object = Some((
    &[1, 2, 3, 9, 9, 6, 7, 8],
    &[0, 2, 2, 2, 4, 2, 6, 2],
    &[1, 2, 3, 9, 9, 6, 7, 8],
));

// The object after n replies.
const OBJECTS: [Object; 7] = [BEFORE, WRITTEN, WRITTEN, COMPACT, COMPACT, COMPACT, None];

// The answers, and the object after each number of them.
fn wanted() -> ([Answer; 6], [Object; 7]) {
    (ANSWERS, OBJECTS)
}

type Plain = Shards<BytesCodec, BytesCodec>;

// A run of the first orders over the object, of whose handle the call with this number fails.
fn ran<R: Abort>(
    rt: &R,
    alloc: Global,
    shards: &Plain,
    orders: &[Order],
    fails_at: u64,
) -> CommandRun<FaultingHandle> {
    let commands = commands_of(rt, alloc, orders);
    let before = bytes_of(rt, alloc, &BEFORE);
    let handle = FaultingHandle::new(before, fails_at);
    run_commands(
        alloc,
        &shards.codec,
        handle,
        &shards.shape,
        &DataType::UInt8,
        &shards.fill,
        &commands,
    )
}

fn bytes_of<R: Abort>(rt: &R, alloc: Global, object: &Object) -> Option<Vec<u8>> {
    match object {
        Some((slices, index, _)) => Some(object_of(rt, alloc, slices, index)),
        None => None,
    }
}

type Session<'a> = ShardState<'a, BytesCodec, BytesCodec, MemoryHandle>;

fn open(alloc: Global, shards: &Plain, object: Option<Vec<u8>>) -> Result<Session<'_>, CodecError> {
    let opened = shards.codec.open_state(
        alloc,
        MemoryHandle::new(object),
        &shards.shape,
        &DataType::UInt8,
        &shards.fill,
        &CodecOptions::default(),
    );
    match opened {
        Ok(session) => Ok(session),
        Err((_, error)) => Err(error),
    }
}

fn are_cells<R: Abort>(rt: &R, alloc: Global, session: &mut Session<'_>, cells: &[u8]) -> bool {
    let all = ArraySubset::from_ranges(alloc, &[0..8]).expect(rt, "refused");
    let array = session
        .partial_decode(alloc, &all, &CodecOptions::default())
        .expect(rt, "refused");
    array.fixed_bytes() == Some(cells)
}

// Whether a run left this object, which is opened anew and read.
fn is_left<R: Abort>(
    rt: &R,
    alloc: Global,
    shards: &Plain,
    left: Option<Vec<u8>>,
    object: &Object,
) -> bool {
    let cells = match object {
        Some((_, _, cells)) => *cells,
        None => &[0; 8],
    };
    let mut session = open(alloc, shards, left).expect(rt, "refused");
    let are_cells = are_cells(rt, alloc, &mut session, cells);
    let left = session.close().into_inner();
    are_cells && left == bytes_of(rt, alloc, object)
}

// How many replies a run gives, and whether a fault stops it. Damage where these are not the first answers, or the object is not
// the one after as many.
fn stage<R: Abort>(
    rt: &R,
    alloc: Global,
    shards: &Plain,
    orders: &[Order],
    fails_at: u64,
) -> Result<(usize, bool), CodecError> {
    let CommandRun {
        handle,
        replies,
        stop,
    } = ran(rt, alloc, shards, orders, fails_at);
    let count = replies.len();
    let (answers, objects) = wanted();
    let (Some(answers), Some(object)) = (answers.get(..count), objects.get(count)) else {
        return Err(CodecError::InvalidNumberOfElements);
    };
    if !say(&replies, answers) || !is_left(rt, alloc, shards, handle.into_inner(), object) {
        return Err(CodecError::Damaged);
    }
    match stop {
        None => Ok((count, false)),
        Some(CodecError::Fault) => Ok((count, true)),
        Some(error) => Err(error),
    }
}

// The stage of this number: faults stop runs after as many replies, up to the most, and then a run meets none.
fn stage_of(number: usize, most: usize, orders: usize) -> (usize, bool) {
    if number <= most {
        (number, true)
    } else {
        (orders, false)
    }
}

// A command that meets a fault has no reply, save a compaction that was done, whose object is not opened again.
#[test]
fn a_fault_stops_a_run(rt: HostRuntime) {
    let shards = shards_of(&rt, rt.alloc(), 8);
    for (orders, most) in [(3, 3), (6, 5)] {
        let mut number: usize = 0;
        for fails_at in 0..100 {
            let found = stage(&rt, rt.alloc(), &shards, &ORDERS[..orders], fails_at);
            if found == Ok(stage_of(number.saturating_add(1), most, orders)) {
                number = number.saturating_add(1);
            }
            same_at(
                &rt,
                (orders, fails_at),
                found,
                Ok(stage_of(number, most, orders)),
            );
        }
        same(&rt, number > most, true);
    }
}
