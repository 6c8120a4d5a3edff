// Objects that are read in part.
use crate::compared::same_at;
use crate::hostile::shards::{Case, Decoder, case_of, listed, over, said, subset_of};
use std::alloc::Global;
use std::ops::Range;
use std::process::Abort;
use test_helpers::{HostileObject, hostile_table};
use zarr_codecs::{ByteRange, BytesCodec};
use zarr_parts::{CodecError, CodecOptions, FixedTarget};

// The elements of each subchunk.
const HALVES: [Range<u64>; 2] = [0..2, 2..4];

#[test]
fn subsets_are_read(rt: HostRuntime) {
    for hostile in hostile_table().iter() {
        let case = case_of(&rt, rt.alloc(), hostile);
        for (range, want) in HALVES.iter().zip(hostile.halves.iter()) {
            let found = case.read(&rt, rt.alloc(), range);
            same_at(&rt, (hostile.name, range.start), said(&found), *want);
        }
    }
}

#[test]
fn listed_elements_are_read(rt: HostRuntime) {
    let alloc = rt.alloc();
    let requested = listed(&rt, alloc);
    for hostile in hostile_table().iter() {
        let case = case_of(&rt, alloc, hostile);
        let found = case.shards.read(alloc, &case.object, &requested);
        same_at(&rt, hostile.name, said(&found), hostile.listed);
    }
}

// A decoder of an object.
fn opened<'a, R: Abort>(rt: &R, alloc: Global, case: &'a Case) -> Decoder<'a, BytesCodec> {
    let decoder = case.shards.decoder(alloc, &case.object);
    decoder.expect(rt, "a decoder")
}

fn read_to<R: Abort>(
    rt: &R,
    alloc: Global,
    case: &Case,
    range: &Range<u64>,
    target: &mut FixedTarget,
) -> Result<(), CodecError> {
    let requested = subset_of(rt, alloc, range);
    let mut decoder = opened(rt, alloc, case);
    decoder.partial_decode_into(alloc, &requested, target, &CodecOptions::default())
}

// Reads two elements into these bytes.
fn read_over<R: Abort>(
    rt: &R,
    alloc: Global,
    case: &Case,
    range: &Range<u64>,
    bytes: &mut [u8],
) -> Result<(), CodecError> {
    let both = subset_of(rt, alloc, &(0..2));
    let mut target = FixedTarget::new(bytes, 1, &[2], &both).expect(rt, "a target");
    read_to(rt, alloc, case, range, &mut target)
}

#[test]
fn subsets_are_read_into_a_target(rt: HostRuntime) {
    for hostile in hostile_table().iter() {
        let case = case_of(&rt, rt.alloc(), hostile);
        for (range, want) in HALVES.iter().zip(hostile.halves.iter()) {
            let mut bytes = [77; 2];
            let answer = read_over(&rt, rt.alloc(), &case, range, &mut bytes);
            let found = (answer, bytes.as_slice());
            same_at(
                &rt,
                (hostile.name, range.start),
                found,
                over(*want, &[77; 2]),
            );
        }
    }
}

// The two numbers of the index, where they name a slice.
fn wanted_range(hostile: &HostileObject, subchunk: u64) -> Result<Option<ByteRange>, CodecError> {
    let [offset, size, second, second_size] = hostile.stored.index;
    let [first_slice, second_slice] = hostile.slices;
    let (slice, range) = if subchunk == 0 {
        (first_slice, ByteRange::FromStart(offset, Some(size)))
    } else {
        (
            second_slice,
            ByteRange::FromStart(second, Some(second_size)),
        )
    };
    match slice {
        Ok(_) => Ok(Some(range)),
        Err(error) => Err(error),
    }
}

#[test]
fn subchunks_have_byte_ranges(rt: HostRuntime) {
    for hostile in hostile_table().iter() {
        let case = case_of(&rt, rt.alloc(), hostile);
        for subchunk in [0, 1] {
            let found = opened(&rt, rt.alloc(), &case).subchunk_byte_range(&[subchunk]);
            same_at(
                &rt,
                (hostile.name, subchunk),
                found,
                wanted_range(hostile, subchunk),
            );
        }
    }
}

// Retrieves a subchunk, of which each object has a slice unless it is refused.
fn is_retrieved<R: Abort>(
    rt: &R,
    alloc: Global,
    case: &Case,
    at: (&str, u64),
    want: Result<&[u8], CodecError>,
) {
    let found = opened(rt, alloc, case).retrieve_subchunk_encoded(alloc, &[at.1]);
    match &found {
        Ok(Some(slice)) => same_at(rt, at, Ok(slice.as_slice()), want),
        Ok(None) => same_at(rt, at, Err(CodecError::OutOfBounds), want),
        Err(error) => same_at(rt, at, Err(*error), want),
    }
}

#[test]
fn subchunks_are_retrieved(rt: HostRuntime) {
    for hostile in hostile_table().iter() {
        let case = case_of(&rt, rt.alloc(), hostile);
        for (subchunk, want) in (0..2u64).zip(hostile.slices.iter()) {
            is_retrieved(&rt, rt.alloc(), &case, (hostile.name, subchunk), *want);
        }
    }
}
