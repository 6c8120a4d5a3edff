// Objects that are opened for writing, and those that are given back.
use crate::compared::{same, same_at};
use crate::hostile::shards::{
    Answer, Case, Session, Shards, case_of, listed, plain, said, seven, subset_of,
};
use std::alloc::Global;
use std::ops::Range;
use std::process::Abort;
use std::sync::Wait;
use test_helpers::{HostileObject, Wanted, hostile_table};
use zarr_codecs::{BytesCodec, MemoryHandle};
use zarr_parts::{ArrayBytes, CodecError, CodecOptions, DataType, Indexer};
use zarrs_sharding::{ShardingIndexLocation, ShardingPartialEncoder};

// Why an object is not opened, if so, and the object of the handle that comes back.
type Opened = (Option<CodecError>, Option<Vec<u8>>);

fn opened(alloc: Global, case: Case) -> Opened {
    let Case { object, shards } = case;
    match shards.open(alloc, object) {
        Ok(session) => (None, session.close().into_inner()),
        Err((handle, error)) => (Some(error), handle.into_inner()),
    }
}

#[test]
fn they_are_opened_or_given_back(rt: HostRuntime) {
    let alloc = rt.alloc();
    for hostile in hostile_table().iter() {
        let found = opened(alloc, case_of(&rt, alloc, hostile));
        let object = hostile.object(alloc).expect(&rt, "memory");
        same_at(&rt, hostile.name, found, (hostile.unopened, Some(object)));
    }
}

type Shared<'a> = ShardingPartialEncoder<'a, BytesCodec, BytesCodec, MemoryHandle>;

fn share(
    shards: &Shards<BytesCodec>,
    alloc: Global,
    object: Vec<u8>,
) -> Result<Shared<'_>, (MemoryHandle, CodecError)> {
    shards.codec.partial_encoder(
        alloc,
        MemoryHandle::new(Some(object)),
        &shards.shape,
        &DataType::UInt8,
        &shards.fill,
        &CodecOptions::default(),
    )
}

fn shared(alloc: Global, case: Case) -> Opened {
    let Case { object, shards } = case;
    match share(&shards, alloc, object) {
        Ok(encoder) => (None, encoder.into_inner().into_inner()),
        Err((handle, error)) => (Some(error), handle.into_inner()),
    }
}

#[test]
fn they_are_shared_or_given_back(rt: HostRuntime) {
    let alloc = rt.alloc();
    for hostile in hostile_table().iter() {
        let found = shared(alloc, case_of(&rt, alloc, hostile));
        let object = hostile.object(alloc).expect(&rt, "memory");
        same_at(&rt, hostile.name, found, (hostile.unopened, Some(object)));
    }
}

// What a session reads that a decoder reads so.
fn wanted(hostile: &HostileObject, read: Wanted) -> Wanted {
    match hostile.unopened {
        Some(error) => Err(error),
        None => read,
    }
}

// The elements of a subchunk that a session reads.
fn read_half<R: Abort>(
    rt: &R,
    alloc: Global,
    hostile: &HostileObject,
    half: &Range<u64>,
) -> Answer<'static> {
    let Case { object, shards } = case_of(rt, alloc, hostile);
    shards.read_opened(alloc, object, &subset_of(rt, alloc, half))
}

#[test]
fn sessions_read_subsets(rt: HostRuntime) {
    for hostile in hostile_table().iter() {
        for (range, half) in [0..2, 2..4].iter().zip(hostile.halves.iter()) {
            let found = read_half(&rt, rt.alloc(), hostile, range);
            let want = wanted(hostile, *half);
            same_at(&rt, (hostile.name, range.start), said(&found), want);
        }
    }
}

#[test]
fn sessions_read_listed_elements(rt: HostRuntime) {
    let alloc = rt.alloc();
    let requested = listed(&rt, alloc);
    for hostile in hostile_table().iter() {
        let Case { object, shards } = case_of(&rt, alloc, hostile);
        let found = shards.read_opened(alloc, object, &requested);
        let want = wanted(hostile, hostile.listed);
        same_at(&rt, hostile.name, said(&found), want);
    }
}

fn read_by<R: Wait, N: Indexer>(
    rt: &R,
    alloc: Global,
    case: Case,
    requested: &N,
) -> Answer<'static> {
    let Case { object, shards } = case;
    match share(&shards, alloc, object) {
        Ok(encoder) => encoder.partial_decode(rt, alloc, requested, &CodecOptions::default()),
        Err((_, error)) => Err(error),
    }
}

#[test]
fn shared_sessions_read_them(rt: HostRuntime) {
    let alloc = rt.alloc();
    for hostile in hostile_table().iter() {
        for (range, half) in [0..2, 2..4].iter().zip(hostile.halves.iter()) {
            let requested = subset_of(&rt, alloc, range);
            let case = case_of(&rt, alloc, hostile);
            let found = read_by(&rt, alloc, case, &requested);
            let want = wanted(hostile, *half);
            same_at(&rt, (hostile.name, range.start), said(&found), want);
        }
    }
}

// A session of the object of 0, 7, 0, 0.
fn opened_seven<'a, R: Abort>(
    rt: &R,
    alloc: Global,
    shards: &'a Shards<BytesCodec>,
) -> Session<'a, BytesCodec> {
    shards
        .open(alloc, seven(rt, alloc))
        .ok()
        .expect(rt, "a session")
}

// Writes 7 over the second element.
fn write_seven<R: Abort>(rt: &R, alloc: Global, session: &mut Session<'_, BytesCodec>) {
    let second = subset_of(rt, alloc, &(1..2));
    let update = ArrayBytes::from_numbers(alloc, &[7u8]).expect(rt, "memory");
    let written = session.partial_encode(alloc, &second, &update, &CodecOptions::default());
    written.expect(rt, "a write");
}

// In one session an object is erased, read and written again as it was.
#[test]
fn an_erased_shard_is_written_again(rt: HostRuntime) {
    let alloc = rt.alloc();
    let shards = plain(&rt, alloc, ShardingIndexLocation::End);
    let mut session = opened_seven(&rt, alloc, &shards);
    session.erase().expect(&rt, "an erasure");
    let all = subset_of(&rt, alloc, &(0..4));
    let found = session.partial_decode(alloc, &all, &CodecOptions::default());
    same(&rt, said(&found), Ok([0u8, 0, 0, 0].as_slice()));
    write_seven(&rt, alloc, &mut session);
    let left = session.close().into_inner();
    same(&rt, left, Some(seven(&rt, alloc)));
}
