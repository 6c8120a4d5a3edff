// What is written is read back: the law, called once.
use crate::compared::same;
use crate::shards::{Shards, shards_of};
use shard_sessions::read_back;
use std::alloc::Global;
use std::process::Abort;
use zarr_codecs::ArrayToBytesCodecTraits;
use zarr_parts::{ArrayBytes, ArraySubset, DataType};

// The cells from the second to the third of four, once 7 and 9 were written over them.
fn second_and_third<I: ArrayToBytesCodecTraits, X: ArrayToBytesCodecTraits, R: Abort>(
    rt: &R,
    alloc: Global,
    shards: &Shards<I, X>,
) -> Option<ArrayBytes<'static>> {
    let subset = ArraySubset::from_ranges(alloc, &[1..3]).expect(rt, "refused");
    let bytes = ArrayBytes::from_numbers(alloc, &[7u8, 9]).expect(rt, "refused");
    read_back(
        alloc,
        &shards.codec,
        &shards.shape,
        &DataType::UInt8,
        &shards.fill,
        subset,
        bytes,
    )
    .expect(rt, "refused")
}

// Whether these are 7 and 9.
fn are_read_back<I: ArrayToBytesCodecTraits, X: ArrayToBytesCodecTraits, R: Abort>(
    rt: &R,
    alloc: Global,
    shards: &Shards<I, X>,
) -> bool {
    let found = second_and_third(rt, alloc, shards);
    let wanted = ArrayBytes::from_numbers(alloc, &[7u8, 9]).expect(rt, "refused");
    found == Some(wanted)
}

#[test]
fn what_is_written_is_read_back(rt: HostRuntime) {
    let shards = shards_of(&rt, rt.alloc(), 4);
    same(&rt, are_read_back(&rt, rt.alloc(), &shards), true);
}
