// Objects that nobody wrote as a shard, as the bytes of inner shards: in one shard, and in three.
use crate::compared::same_at;
use crate::hostile::shards::{
    Answer, Plain, Shards, around, location_of, said, shards_of, subset_of,
};
use std::alloc::Global;
use std::process::Abort;
use std::thread::Threads;
use test_helpers::{ABSENT, HostileObject, Wanted, hostile_table, object_of};
use zarr_codecs::{ArrayToBytesCodecTraits, BytesCodec};
use zarr_parts::CodecError;
use zarrs_sharding::ShardingCodec;
use zarrs_sharding::ShardingIndexLocation::End;

type Twice = ShardingCodec<Plain, BytesCodec>;

type Thrice = ShardingCodec<Twice, BytesCodec>;

// The codec of an object that nobody wrote.
fn innermost<R: Abort>(rt: &R, alloc: Global, at_start: bool) -> Plain {
    around(rt, alloc, 2, BytesCodec::little(), location_of(at_start))
}

// Eight elements in two shards.
fn in_one<R: Abort>(rt: &R, alloc: Global, at_start: bool) -> Shards<Plain> {
    let codec = around(rt, alloc, 4, innermost(rt, alloc, at_start), End);
    shards_of(rt, alloc, 8, codec)
}

// Thirty-two elements in two shards of two shards of two shards.
fn in_three<R: Abort>(rt: &R, alloc: Global, at_start: bool) -> Shards<Thrice> {
    let twice = around(rt, alloc, 4, innermost(rt, alloc, at_start), End);
    let thrice = around(rt, alloc, 8, twice, End);
    let codec = around(rt, alloc, 16, thrice, End);
    shards_of(rt, alloc, 32, codec)
}

// An object as the first subchunk of a shard, whose second is absent; and that as one of another, n times.
fn put_deep<R: Abort>(rt: &R, alloc: Global, hostile: &HostileObject, n: u8) -> Vec<u8> {
    let mut object = hostile.object(alloc).expect(rt, "memory");
    for _ in 0..n {
        let index = [0, object.len() as u64, ABSENT, ABSENT];
        object = object_of(alloc, false, &object, &index).expect(rt, "memory");
    }
    object
}

// An inner shard that is refused is damaged.
fn wanted(answer: Wanted) -> Wanted {
    match answer {
        Ok(elements) => Ok(elements),
        Err(_) => Err(CodecError::Damaged),
    }
}

// What reads of the two elements of a subchunk answer.
fn one_by_one(half: Wanted) -> [Wanted; 2] {
    match half {
        Ok(elements) => [
            Ok(elements.get(..1).unwrap_or(&[])),
            Ok(elements.get(1..).unwrap_or(&[])),
        ],
        Err(_) => [Err(CodecError::Damaged); 2],
    }
}

// The first four elements, where all others are the fill value.
fn first_four<'a>(answer: &'a Answer) -> Result<&'a [u8], CodecError> {
    let elements = said(answer)?;
    let (Some(first), Some(others)) = (elements.get(..4), elements.get(4..)) else {
        return Err(CodecError::InvalidNumberOfElements);
    };
    if others.iter().all(|element| *element == 0) {
        Ok(first)
    } else {
        Err(CodecError::OutOfBounds)
    }
}

// Reads an element of an object in shards by a decoder and in a session.
fn is_read<R: Abort, I: ArrayToBytesCodecTraits + Drop>(
    rt: &R,
    case: (&str, u64),
    shards: &Shards<I>,
    object: &[u8],
    alloc: Global,
    want: Wanted,
) {
    let requested = subset_of(rt, alloc, &(case.1..case.1.saturating_add(1)));
    let found = shards.read(alloc, object, &requested);
    same_at(rt, case, said(&found), want);
    let object = object.to_vec(alloc).expect(rt, "memory");
    let found = shards.read_opened(alloc, object, &requested);
    same_at(rt, case, said(&found), want);
}

// Decodes an object in shards, also in parallel.
fn is_decoded<R: Abort + Threads + Sync, I: ArrayToBytesCodecTraits + Drop + Sync>(
    rt: &R,
    alloc: Global,
    hostile: &HostileObject,
    shards: &Shards<I>,
    object: &[u8],
) {
    let want = wanted(hostile.elements);
    let found = shards.decoded(alloc, object);
    same_at(rt, hostile.name, first_four(&found), want);
    let found = shards.decoded_by_workers(rt, alloc, object, 2);
    same_at(rt, hostile.name, first_four(&found), want);
}

// Reads each element of an object in shards, and decodes all of them.
fn is_answered<R: Abort + Threads + Sync, I: ArrayToBytesCodecTraits + Drop + Sync>(
    rt: &R,
    alloc: Global,
    hostile: &HostileObject,
    shards: &Shards<I>,
    object: &[u8],
) {
    for subchunk in 0..2usize {
        let wanted = one_by_one(hostile.halves[subchunk]);
        for within in 0..2usize {
            let element = (2 * subchunk + within) as u64;
            is_read(
                rt,
                (hostile.name, element),
                shards,
                object,
                alloc,
                wanted[within],
            );
        }
    }
    is_decoded(rt, alloc, hostile, shards, object);
}

#[test]
fn one_shard_has_them(rt: HostRuntime) {
    let alloc = rt.alloc();
    for hostile in hostile_table().iter() {
        let shards = in_one(&rt, alloc, hostile.at_start);
        let object = put_deep(&rt, alloc, hostile, 1);
        is_answered(&rt, alloc, hostile, &shards, &object);
    }
}

#[test]
fn shards_in_shards_have_them(rt: HostRuntime) {
    let alloc = rt.alloc();
    for hostile in hostile_table().iter() {
        let shards = in_three(&rt, alloc, hostile.at_start);
        let object = put_deep(&rt, alloc, hostile, 3);
        is_answered(&rt, alloc, hostile, &shards, &object);
    }
}
