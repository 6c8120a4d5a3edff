// Reads of the codec `bytes` into a target, on numbers worked by hand.
use crate::compared::{same, same_at};
use crate::examples::{coordinates, handle_over, read_into, spec_of, subset};
use std::alloc::Global;
use std::ops::Range;
use std::process::Abort;
use zarr_codecs::{BytesCodec, Interval};
use zarr_parts::{CodecError, DataType, FixedTarget, Indexer};

// One byte, and then 1 to 12 as 16-bit numbers, whose first byte is the last significant one.
const OBJECT: [u8; 25] = [
    9, 1, 0, 2, 0, 3, 0, 4, 0, 5, 0, 6, 0, 7, 0, 8, 0, 9, 0, 10, 0, 11, 0, 12, 0,
];

const NUMBERS: Interval = Interval {
    offset: 1,
    size: 24,
};

// Reads requested numbers of the object, three by four, into a target.
fn read_numbers<R: Abort, N: Indexer>(
    rt: &R,
    alloc: Global,
    codec: &BytesCodec,
    interval: Interval,
    indexer: &N,
    target: &mut FixedTarget,
) -> Result<(), CodecError> {
    let twelve = spec_of(rt, alloc, &[3, 4], DataType::UInt16, &[0, 0]);
    let mut handle = handle_over(rt, alloc, Some(&OBJECT));
    read_into(
        alloc,
        codec,
        &twelve,
        &mut handle,
        interval,
        indexer,
        target,
    )
}

// Reads them into a subset of an array of two by four.
fn read_into_subset<R: Abort, N: Indexer>(
    rt: &R,
    alloc: Global,
    codec: &BytesCodec,
    interval: Interval,
    indexer: &N,
    into: &[Range<u64>],
    output: &mut [u8],
) -> Result<(), CodecError> {
    let place = subset(rt, alloc, into);
    let mut target = FixedTarget::new(output, 2, &[2, 4], &place).expect(rt, "a target");
    read_numbers(rt, alloc, codec, interval, indexer, &mut target)
}

// Reads them there, where these bytes stand then, of which each was 77.
fn are_read<R: Abort, N: Indexer>(
    rt: &R,
    alloc: Global,
    codec: &BytesCodec,
    indexer: &N,
    into: &[Range<u64>],
    want: &[u8; 16],
) {
    let mut output = [77; 16];
    let answer = read_into_subset(rt, alloc, codec, NUMBERS, indexer, into, &mut output);
    same(rt, (answer, output), (Ok(()), *want));
}

// The numbers of a subset go where the target's subset lies, row by row of either: subsets of one shape, and of several.
#[test]
fn subsets_are_read_into_subsets(rt: HostRuntime) {
    const ROWS: &[(&[Range<u64>], &[Range<u64>], [u8; 16])] = &[
        (
            &[1..3, 1..3],
            &[0..2, 2..4],
            [77, 77, 77, 77, 6, 0, 7, 0, 77, 77, 77, 77, 10, 0, 11, 0],
        ),
        (
            &[0..1, 0..4],
            &[0..2, 1..3],
            [77, 77, 1, 0, 2, 0, 77, 77, 77, 77, 3, 0, 4, 0, 77, 77],
        ),
        (
            &[0..3, 1..2],
            &[0..1, 1..4],
            [77, 77, 2, 0, 6, 0, 10, 0, 77, 77, 77, 77, 77, 77, 77, 77],
        ),
        (
            &[0..3, 0..2],
            &[0..2, 0..3],
            [1, 0, 2, 0, 5, 0, 77, 77, 6, 0, 9, 0, 10, 0, 77, 77],
        ),
        (&[3..3, 0..4], &[1..1, 0..4], [77; 16]),
    ];
    for (requested, into, want) in ROWS {
        let requested = subset(&rt, rt.alloc(), requested);
        are_read(
            &rt,
            rt.alloc(),
            &BytesCodec::little(),
            &requested,
            into,
            &want,
        );
    }
}

// Listed numbers go there in their order.
#[test]
fn listed_numbers_are_read(rt: HostRuntime) {
    let want = [77, 77, 77, 77, 77, 77, 77, 77, 12, 0, 1, 0, 77, 77, 77, 77];
    let listed = coordinates(&rt, rt.alloc(), 2, 2, &[2, 3, 0, 0]);
    let little = BytesCodec::little();
    are_read(&rt, rt.alloc(), &little, &listed, &[1..2, 0..2], &want);
}

// Numbers that are stored the other way round are turned.
#[test]
fn reversed_numbers_are_read(rt: HostRuntime) {
    let want = [77, 77, 77, 77, 77, 77, 0, 5, 77, 77, 77, 77, 77, 77, 0, 9];
    let column = subset(&rt, rt.alloc(), &[1..3, 0..1]);
    let big = BytesCodec::big();
    are_read(&rt, rt.alloc(), &big, &column, &[0..2, 3..4], &want);
}

// How a read of a subset of an interval into a row of so many is answered, and the bytes then, of which each was 77.
fn read_row<R: Abort>(
    rt: &R,
    alloc: Global,
    interval: Interval,
    requested: &[Range<u64>],
    many: u64,
) -> (Result<(), CodecError>, [u8; 16]) {
    let requested = subset(rt, alloc, requested);
    let mut output = [77; 16];
    let (little, row) = (BytesCodec::little(), [0..1, 0..many]);
    let answer = read_into_subset(rt, alloc, &little, interval, &requested, &row, &mut output);
    (answer, output)
}

const PAST: Interval = Interval {
    offset: 2,
    size: 24,
};

const SHORT: Interval = Interval {
    offset: 1,
    size: 22,
};

// The count is tested before the cells, these before the interval, and it before the length of the bytes.
#[test]
fn reads_into_a_target_are_refused_in_order(rt: HostRuntime) {
    const ROWS: &[(Interval, &[Range<u64>], u64, CodecError)] = &[
        (PAST, &[2..4, 0..1], 1, CodecError::InvalidNumberOfElements),
        (PAST, &[2..4, 0..1], 2, CodecError::OutOfBounds),
        (PAST, &[0..1, 0..2], 2, CodecError::OutOfBounds),
        (SHORT, &[0..1, 0..2], 2, CodecError::Damaged),
    ];
    for (interval, requested, many, want) in ROWS {
        let found = read_row(&rt, rt.alloc(), *interval, requested, *many);
        same_at(&rt, (interval.size, *many), found, (Err(*want), [77; 16]));
    }
}
