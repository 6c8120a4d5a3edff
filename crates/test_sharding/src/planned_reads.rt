// Reads of subsets by chance, as plans and puts in an order by chance, against `partial_decode`.
use crate::chances::Chance;
use crate::compared::same_at;
use crate::planned::{Layout, Object};
use crate::shards::{encoded, plain, read, shape_of, subset_of};
use codec_checksums::Crc32cCodec;
use std::alloc::Global;
use std::ops::Range;
use std::process::Abort;
use zarr_codecs::{ArrayToBytesCodecTraits, BytesChain, BytesCodec, SliceHandle};
use zarr_parts::{ArraySubset, CodecOptions};
use zarrs_sharding::{ShardingCodec, ShardingIndexLocation};

// An element by chance, or 0.
fn element_by_chance(is_zero: bool, chance: &mut Chance) -> u8 {
    if is_zero {
        return 0;
    }
    (chance.below(256) % 256) as u8
}

// Elements of which one in six ends or begins a run of zeros, so that some subchunks are absent.
fn elements_by_chance<R: Abort>(rt: &R, alloc: Global, count: u64, chance: &mut Chance) -> Vec<u8> {
    let mut elements = Vec::new(alloc);
    let mut is_zero = false;
    for _ in 0..count {
        if chance.below(6) == 0 {
            is_zero = !is_zero;
        }
        let element = element_by_chance(is_zero, chance);
        elements.push(element).expect(rt, "refused");
    }
    elements
}

fn subset_by_chance<R: Abort>(
    rt: &R,
    alloc: Global,
    shape: &[u64],
    chance: &mut Chance,
) -> ArraySubset {
    let mut ranges: Vec<Range<u64>> = Vec::new(alloc);
    for length in shape {
        let start = chance.below(length.saturating_add(1));
        let end = chance.below(length.saturating_sub(start).saturating_add(1));
        let end = end.saturating_add(start);
        ranges.push(start..end).expect(rt, "refused");
    }
    subset_of(rt, alloc, &ranges)
}

// A shard of elements by chance: its seed, where its index stands, its shape, that of a subchunk, and how many subchunks there are.
#[derive(Debug, Clone, Copy)]
struct Case {
    seed: u64,
    location: ShardingIndexLocation,
    shape: &'static [u64],
    sub: &'static [u64],
    grid: &'static [u64],
}

impl Case {
    fn elements<R: Abort>(&self, rt: &R, alloc: Global, chance: &mut Chance) -> Vec<u8> {
        let mut count = 1u64;
        for length in self.shape {
            count = count.saturating_mul(*length);
        }
        elements_by_chance(rt, alloc, count, chance)
    }

    // Whether a subset by chance has the elements that a decoder reads.
    fn agrees<C: ArrayToBytesCodecTraits, X: ArrayToBytesCodecTraits, R: Abort>(
        &self,
        rt: &R,
        alloc: Global,
        codec: &ShardingCodec<C, X>,
        object: &Object,
        chance: &mut Chance,
    ) -> bool {
        let subset = subset_by_chance(rt, alloc, self.shape, chance);
        let layout = Layout::new(rt, alloc, self.shape, self.sub);
        let found = layout.read(rt, alloc, object, &subset, chance);
        let handle = SliceHandle::new(object.bytes);
        let wanted = read(rt, alloc, codec, handle, self.shape, &subset);
        wanted.is_ok() && found == wanted
    }

    // Of how many of 1000 subsets that is so.
    fn agreeing<C: ArrayToBytesCodecTraits, X: ArrayToBytesCodecTraits, R: Abort>(
        &self,
        rt: &R,
        alloc: Global,
        codec: &ShardingCodec<C, X>,
    ) -> u64 {
        let mut chance = Chance { state: self.seed };
        let elements = self.elements(rt, alloc, &mut chance);
        let bytes = encoded(rt, alloc, codec, self.shape, &elements);
        let grid = shape_of(rt, alloc, self.grid);
        let numbers = codec.decode_index(alloc, &bytes, &grid, &CodecOptions::default());
        let numbers = numbers.expect(rt, "refused");
        let object = Object {
            bytes: &bytes,
            numbers: &numbers,
        };
        let mut count = 0u64;
        for _ in 0..1000 {
            if self.agrees(rt, alloc, codec, &object, &mut chance) {
                count = count.saturating_add(1);
            }
        }
        count
    }
}

type Checked = BytesChain<BytesCodec, Crc32cCodec>;

fn checked<R: Abort>(rt: &R, alloc: Global, case: &Case) -> ShardingCodec<BytesCodec, Checked> {
    let little = BytesCodec::little();
    let index_codec = BytesChain::new(little, Crc32cCodec);
    let sub = shape_of(rt, alloc, case.sub);
    ShardingCodec::new(sub, little, index_codec, case.location)
}

// The seed, whether the index is at the start, and the shapes.
const CASES: &[(u64, bool, &[u64], &[u64], &[u64])] = &[
    (1, false, &[12], &[3], &[4]),
    (2, true, &[6, 8], &[2, 4], &[3, 2]),
    (3, false, &[9, 9], &[3, 9], &[3, 1]),
    (4, true, &[4, 6, 4], &[2, 3, 1], &[2, 2, 4]),
    (5, false, &[5, 4, 3], &[1, 2, 3], &[5, 2, 1]),
];

// Without a checksum of the index, and with one: 10000 subsets in all.
#[test]
fn plans_and_puts_are_a_partial_decoding(rt: HostRuntime) {
    for (seed, at_start, shape, sub, grid) in CASES {
        let location = if *at_start {
            ShardingIndexLocation::Start
        } else {
            ShardingIndexLocation::End
        };
        let case = Case {
            seed: *seed,
            location,
            shape,
            sub,
            grid,
        };
        let codec = plain(&rt, rt.alloc(), sub, location);
        let agreed = case.agreeing(&rt, rt.alloc(), &codec);
        let codec = checked(&rt, rt.alloc(), &case);
        let checked = case.agreeing(&rt, rt.alloc(), &codec);
        same_at(&rt, case, (agreed, checked), (1000, 1000));
    }
}
