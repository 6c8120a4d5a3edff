// A shard that was cut after each of its bytes.
use crate::compared::same_at;
use crate::hostile::shards::{Case, plain, seven};
use std::alloc::Global;
use std::process::Abort;
use std::thread::Threads;
use test_helpers::ABSENT;
use zarr_parts::CodecError;
use zarrs_sharding::ShardingIndexLocation::End;

// The first bytes of the shard of 0, 7, 0, 0, and the shards of which they are to be one.
fn cut_of<R: Abort>(rt: &R, alloc: Global, len: usize) -> Case {
    let mut object = seven(rt, alloc);
    object.truncate(len);
    Case {
        object,
        shards: plain(rt, alloc, End),
    }
}

// How it is refused where it is opened for writing, if so.
fn refusal_opened<R: Abort>(rt: &R, alloc: Global, case: &Case) -> Option<CodecError> {
    let object = case.object.to_vec(alloc).expect(rt, "memory");
    match case.shards.open(alloc, object) {
        Ok(_) => None,
        Err((_, error)) => Some(error),
    }
}

// How the calls that use its index refuse it: they decode it, also into a target and in parallel, compact, read or open it.
fn refusals<R: Abort + Threads + Sync>(
    rt: &R,
    alloc: Global,
    case: &Case,
) -> [Option<CodecError>; 6] {
    let Case { object, shards } = case;
    [
        shards.decoded(alloc, object).err(),
        case.decode_over(rt, alloc, &mut [77; 4]).err(),
        shards.decoded_by_workers(rt, alloc, object, 2).err(),
        shards.compacted(alloc, object).err(),
        case.read(rt, alloc, &(0..1)).err(),
        refusal_opened(rt, alloc, case),
    ]
}

// An object that is shorter than the index is too short; two that are not have an index that names slices outside them.
#[test]
fn a_shard_is_cut(rt: HostRuntime) {
    let short = Some(CodecError::ShardTooShort);
    let bad = Some(CodecError::BadIndexEntry { number: 0 });
    for len in 0..35 {
        let want = match len {
            0..32 => short,
            32..34 => bad,
            _ => None,
        };
        let case = cut_of(&rt, rt.alloc(), len);
        same_at(&rt, len, refusals(&rt, rt.alloc(), &case), [want; 6]);
    }
}

fn said_of(answer: &Result<Vec<u64>, CodecError>) -> Result<&[u64], CodecError> {
    match answer {
        Ok(numbers) => Ok(numbers.as_slice()),
        Err(error) => Err(*error),
    }
}

// The index is read as many bytes too early as are missing.
#[test]
fn the_index_of_a_cut_shard_is_read(rt: HostRuntime) {
    const ROWS: &[(usize, Result<&[u64], CodecError>)] = &[
        (0, Err(CodecError::ShardTooShort)),
        (31, Err(CodecError::ShardTooShort)),
        (32, Ok(&[7 << 8, 2 << 16, ABSENT - 65_535, ABSENT])),
        (33, Ok(&[7, 512, ABSENT - 255, ABSENT])),
        (34, Ok(&[0, 2, ABSENT, ABSENT])),
    ];
    for (len, want) in ROWS {
        let case = cut_of(&rt, rt.alloc(), *len);
        let found = case.index(&rt, rt.alloc());
        same_at(&rt, *len, said_of(&found), *want);
    }
}
