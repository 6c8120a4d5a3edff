// The plan of a compaction, made from the index and the length of a shard alone. The numbers are by hand.
use crate::compared::same_at;
use crate::shards::{ABSENT, plain, shape_of};
use std::alloc::Global;
use std::process::Abort;
use zarr_codecs::{Interval, MemoryHandle};
use zarr_parts::{CodecError, CodecOptions};
use zarrs_sharding::{CompactionPlan, ShardingIndexLocation};

// What is planned of a shard of two subchunks of two cells: its new length, where the old slices stand, and its new index.
#[derive(Debug, Clone, Copy, PartialEq)]
struct Planned {
    len: u64,
    slices: [Option<Interval>; 2],
    numbers: [u64; 4],
}

// The index of a shard, and how many bytes the shard has.
#[derive(Debug, Clone, Copy)]
struct Shard {
    location: ShardingIndexLocation,
    numbers: [u64; 4],
    length: u64,
}

// The bytes of an index.
fn index_of<R: Abort>(rt: &R, alloc: Global, numbers: &[u64; 4]) -> Vec<u8> {
    let mut bytes = Vec::new(alloc);
    for number in numbers {
        bytes
            .extend_from_slice(&number.to_le_bytes())
            .expect(rt, "refused");
    }
    bytes
}

// The plan of the compaction of a shard.
fn plan_of<R: Abort>(rt: &R, alloc: Global, shard: &Shard) -> Option<CompactionPlan> {
    let codec = plain(rt, alloc, &[2], shard.location);
    let index = index_of(rt, alloc, &shard.numbers);
    let options = CodecOptions::default();
    codec
        .plan_compaction(
            alloc,
            &index,
            shard.length,
            &shape_of(rt, alloc, &[4]),
            &options,
        )
        .expect(rt, "refused")
}

// Whether a plan is this.
fn says<R: Abort>(rt: &R, alloc: Global, plan: &CompactionPlan, want: &Planned) -> bool {
    let index = index_of(rt, alloc, &want.numbers);
    for k in 0..plan.subchunks() {
        if want.slices.get(k) != Some(&plan.slice(k)) {
            return false;
        }
    }
    plan.subchunks() == 2 && plan.len() == want.len && plan.index() == index.as_slice()
}

// The shard, whose bytes are 0 but for the index.
fn object_of<R: Abort>(rt: &R, alloc: Global, shard: &Shard) -> Vec<u8> {
    let index = index_of(rt, alloc, &shard.numbers);
    let mut object = vec![in alloc; 0u8; shard.length as usize].expect(rt, "refused");
    let start = match shard.location {
        ShardingIndexLocation::Start => 0,
        ShardingIndexLocation::End => object.len().saturating_sub(index.len()),
    };
    for (byte, place) in index.iter().zip(object.iter_mut().skip(start)) {
        *place = *byte;
    }
    object
}

// The plan of the compaction of a shard whose index is read through a handle.
fn plan_of_index<R: Abort>(rt: &R, alloc: Global, shard: &Shard) -> Option<CompactionPlan> {
    let codec = plain(rt, alloc, &[2], shard.location);
    let mut handle = MemoryHandle::new(Some(object_of(rt, alloc, shard)));
    let interval = Interval {
        offset: 0,
        size: shard.length,
    };
    let shape = shape_of(rt, alloc, &[4]);
    let options = CodecOptions::default();
    let index = codec
        .read_index(alloc, &mut handle, interval, &shape, &options)
        .expect(rt, "refused");
    codec
        .plan_compaction_of_index(alloc, index, &shape, &options)
        .expect(rt, "refused")
}

// Whether this is planned of a shard, or nothing is.
fn is_planned<R: Abort>(
    rt: &R,
    alloc: Global,
    shard: &Shard,
    plan: Option<CompactionPlan>,
    want: Option<Planned>,
) -> bool {
    match (plan, want) {
        (Some(plan), Some(want)) => {
            plan.index_location() == shard.location && says(rt, alloc, &plan, &want)
        }
        (None, None) => true,
        (Some(_), None) | (None, Some(_)) => false,
    }
}

// Whether this is planned of a shard by the bytes of its index, and by the index that a handle reads.
fn are_planned<R: Abort>(rt: &R, alloc: Global, shard: &Shard, want: Option<Planned>) -> bool {
    let plan = plan_of(rt, alloc, shard);
    let plan_of_index = plan_of_index(rt, alloc, shard);
    is_planned(rt, alloc, shard, plan, want) && is_planned(rt, alloc, shard, plan_of_index, want)
}

const fn slice(offset: u64) -> Option<Interval> {
    Some(Interval { offset, size: 2 })
}

// A gap of two bytes, an index in front, pairs that name the same bytes, and a shard without a gap.
#[test]
fn a_compaction_is_planned(rt: HostRuntime) {
    let end = ShardingIndexLocation::End;
    let start = ShardingIndexLocation::Start;
    let moved = |len, slices, numbers| Some(Planned {
        len,
        slices,
        numbers,
    });
    for (location, numbers, length, want) in [
        (
            end,
            [2, 2, 4, 2],
            38,
            moved(36, [slice(2), slice(4)], [0, 2, 2, 2]),
        ),
        (
            start,
            [ABSENT, ABSENT, 34, 2],
            36,
            moved(34, [None, slice(34)], [ABSENT, ABSENT, 32, 2]),
        ),
        (
            end,
            [0, 2, 0, 2],
            34,
            moved(36, [slice(0), slice(0)], [0, 2, 2, 2]),
        ),
        (end, [0, 2, 2, 2], 36, None),
    ] {
        let shard = Shard {
            location,
            numbers,
            length,
        };
        same_at(&rt, shard, are_planned(&rt, rt.alloc(), &shard, want), true);
    }
}

// Which bytes of a shard of this length are its index.
fn index_interval<R: Abort>(
    rt: &R,
    alloc: Global,
    location: ShardingIndexLocation,
    length: u64,
) -> Result<Interval, CodecError> {
    plain(rt, alloc, &[2], location).index_interval(alloc, length, &shape_of(rt, alloc, &[4]))
}

// The index of two subchunks has 32 bytes.
#[test]
fn an_index_has_a_position(rt: HostRuntime) {
    let end = ShardingIndexLocation::End;
    let start = ShardingIndexLocation::Start;
    let size = 32;
    for (location, length, want) in [
        (end, 38, Ok(Interval { offset: 6, size })),
        (start, 38, Ok(Interval { offset: 0, size })),
        (end, 32, Ok(Interval { offset: 0, size })),
        (end, 31, Err(CodecError::ShardTooShort)),
    ] {
        same_at(
            &rt,
            (location, length),
            index_interval(&rt, rt.alloc(), location, length),
            want,
        );
    }
}
