// Objects that nobody wrote as a shard, by recorded sessions and by runs of commands. They stand in test_helpers.
ghost use Rattle.std.specs.Prelude.{◌≡◌, Some};
ghost use Rattle.parts_arrays.specs.ArraySpec.{array_spec};
ghost use Rattle.parts_arrays.specs.declared.data_type.DataType.TheVariants.{UInt8};

use crate::compared::same_at;
use crate::orders::Answer::{Cells, Compacted, Done, Refused};
use crate::orders::Order::{Compact, Read, ReadCells, Reopen};
use crate::orders::{Answer, Order, commands_of, run, say, shape_of};
use crate::shards::{
    ABSENT, Call, Ended, Shards, alone, called, how_it_ended, object_of, shards_at,
};
use shard_sessions::{CommandRun, Naming, Reply};
use std::alloc::Global;
use std::marker::Brand;
use std::process::Abort;
use std::sync::Wait;
use test_helpers::{HostileObject, Wanted, hostile_table};
use zarr_codecs::{ArrayToBytesCodecTraits, BytesCodec, FaultingHandle, MemoryHandle};
use zarr_parts::CodecError;
use zarrs_sharding::{ShardingCodec, ShardingIndexLocation};

// Four elements with the index where that of the object is to be.
fn shards_for<R: Abort>(
    rt: &R,
    alloc: Global,
    hostile: &HostileObject,
) -> Shards<BytesCodec, BytesCodec> {
    let location = if hostile.at_start {
        ShardingIndexLocation::Start
    } else {
        ShardingIndexLocation::End
    };
    shards_at(rt, alloc, 4, location)
}

// How a recorded session of an object ends, in which 9 is written over the third element and the last two are read.
fn recorded_over<I: ArrayToBytesCodecTraits, X: ArrayToBytesCodecTraits, J: Naming<I, X>, R: Wait>(
    rt: &R,
    alloc: Global,
    shards: &Shards<I, X>,
    object: Vec<u8>,
) -> Ended
    requires codec_named { Some shards.now.codec ≡ J.codec }
    requires spec_named { array_spec shards.now.shape UInt8 shards.now.fill ≡ J.array_spec }
{
    match shards.recorded::<J>(alloc, FaultingHandle::new(Some(object), u64::MAX)) {
        Ok((encoder, seat)) => {
            let write = Call::Write { cell: 2, value: 9 };
            let (seat, _) = called(rt, alloc, &encoder, seat, write);
            let (seat, _) = called(rt, alloc, &encoder, seat, Call::Read { first: 2, end: 4 });
            how_it_ended(encoder.close(alone(alloc, seat)))
        }
        Err((handle, error)) => Ended::refused(handle, error),
    }
}

// The object then: one that is not opened stays, and by a write to one of two subchunks with one slice the other stays.
fn left<R: Abort>(rt: &R, alloc: Global, hostile: &HostileObject) -> Vec<u8> {
    match hostile.unopened {
        Some(_) => hostile.object(alloc).expect(rt, "refused"),
        None => object_of(rt, alloc, &[5, 6, 9, 6], &[0, 2, 2, 2]),
    }
}

#[test]
fn they_are_recorded_or_given_back(rt: HostRuntime) {
    for hostile in hostile_table().iter() {
        let shards = shards_for(&rt, rt.alloc(), hostile);
        let object = hostile.object(rt.alloc()).expect(&rt, "refused");
        let end = recorded_over::<_, _, Brand, _>(&rt, rt.alloc(), &shards, object);
        same_at(&rt, hostile.name, end.error, hostile.unopened);
        let (events, opening) = match (hostile.unopened, hostile.elements) {
            (None, Ok(elements)) => (2, elements),
            _ => (0, [].as_slice()),
        };
        same_at(&rt, hostile.name, end.events, events);
        same_at(&rt, hostile.name, end.opening_cells(), opening);
        let left = left(&rt, rt.alloc(), hostile);
        same_at(&rt, hostile.name, end.object, Some(left));
    }
}

const ORDERS: [Order; 4] = [Read(0, 2), Read(2, 4), ReadCells(&[3, 0, 3]), Compact];

fn ran<R: Abort>(rt: &R, alloc: Global, hostile: &HostileObject) -> CommandRun<MemoryHandle> {
    let shards = shards_for(rt, alloc, hostile);
    let object = hostile.object(alloc).expect(rt, "refused");
    let commands = commands_of(rt, alloc, &ORDERS);
    run(rt, alloc, &shards.codec, 4, Some(object), &commands)
}

fn reply_of(wanted: Wanted) -> Answer {
    match wanted {
        Ok(elements) => Cells(elements),
        Err(error) => Refused(error),
    }
}

// Whether a run replies as it should: not at all where the object is not opened.
fn are_wanted(replies: &[Reply], hostile: &HostileObject) -> bool {
    let [first, second] = hostile.halves;
    let rewrites = matches!(hostile.compacted, Ok(Some(_)));
    match hostile.unopened {
        Some(_) => replies.is_empty(),
        None => say(
            replies,
            &[
                reply_of(first),
                reply_of(second),
                reply_of(hostile.listed),
                Compacted(rewrites),
            ],
        ),
    }
}

// The object then: one that is not opened stays.
fn left_compact<R: Abort>(rt: &R, alloc: Global, hostile: &HostileObject) -> Vec<u8> {
    match (hostile.unopened, &hostile.compacted) {
        (None, Ok(Some(stored))) => stored.object(alloc, hostile.at_start).expect(rt, "refused"),
        _ => hostile.object(alloc).expect(rt, "refused"),
    }
}

#[test]
fn they_are_run_over_or_given_back(rt: HostRuntime) {
    for hostile in hostile_table().iter() {
        let end = ran(&rt, rt.alloc(), hostile);
        same_at(&rt, hostile.name, end.stop, hostile.unopened);
        same_at(&rt, hostile.name, are_wanted(&end.replies, hostile), true);
        let left = left_compact(&rt, rt.alloc(), hostile);
        same_at(&rt, hostile.name, end.handle.into_inner(), Some(left));
    }
}

// Eight elements in two shards of four.
type Nested = Shards<ShardingCodec<BytesCodec, BytesCodec>, BytesCodec>;

fn nested_for<R: Abort>(rt: &R, alloc: Global, hostile: &HostileObject) -> Nested {
    let Shards { codec, fill, .. } = shards_for(rt, alloc, hostile);
    let (sub, end) = (shape_of(rt, alloc, &[4]), ShardingIndexLocation::End);
    Shards {
        codec: ShardingCodec::new(sub, codec, BytesCodec::little(), end),
        shape: shape_of(rt, alloc, &[8]),
        fill,
    }
}

// An object as the first subchunk of a shard, whose second is absent.
fn put_into<R: Abort>(rt: &R, alloc: Global, hostile: &HostileObject) -> Vec<u8> {
    let object = hostile.object(alloc).expect(rt, "refused");
    let size = object.len() as u64;
    object_of(rt, alloc, &object, &[0, size, ABSENT, ABSENT])
}

// An inner shard that is refused is damaged.
fn damaged(wanted: Wanted) -> Option<CodecError> {
    match wanted {
        Ok(_) => None,
        Err(_) => Some(CodecError::Damaged),
    }
}

#[test]
fn shards_that_have_them_are_recorded_or_given_back(rt: HostRuntime) {
    for hostile in hostile_table().iter() {
        let shards = nested_for(&rt, rt.alloc(), hostile);
        let object = put_into(&rt, rt.alloc(), hostile);
        let end = recorded_over::<_, _, Brand, _>(&rt, rt.alloc(), &shards, object);
        let error = damaged(hostile.elements);
        let events = if error.is_some() { 0 } else { 2 };
        same_at(&rt, hostile.name, (end.error, end.events), (error, events));
    }
}

fn ran_nested<R: Abort>(
    rt: &R,
    alloc: Global,
    hostile: &HostileObject,
) -> CommandRun<MemoryHandle> {
    let shards = nested_for(rt, alloc, hostile);
    let object = put_into(rt, alloc, hostile);
    let commands = commands_of(rt, alloc, &[Read(0, 2), Read(2, 4), Reopen]);
    run(rt, alloc, &shards.codec, 8, Some(object), &commands)
}

// What a read of a subchunk of an inner shard is to reply.
fn inner_reply_of(wanted: Wanted) -> Answer {
    match wanted {
        Ok(elements) => Cells(elements),
        Err(_) => Refused(CodecError::Damaged),
    }
}

#[test]
fn shards_that_have_them_are_run_over(rt: HostRuntime) {
    for hostile in hostile_table().iter() {
        let end = ran_nested(&rt, rt.alloc(), hostile);
        let [first, second] = hostile.halves;
        let answers = [inner_reply_of(first), inner_reply_of(second), Done];
        same_at(&rt, hostile.name, say(&end.replies, &answers), true);
        let object = put_into(&rt, rt.alloc(), hostile);
        same_at(&rt, hostile.name, end.handle.into_inner(), Some(object));
    }
}
