// Reads of the codec `bytes`, on numbers worked by hand.
use crate::compared::{same, same_at};
use crate::examples::{coordinates, handle_over, read, spec_of, subset};
use std::alloc::Global;
use std::process::Abort;
use zarr_codecs::{BytesCodec, Interval};
use zarr_parts::{ArrayBytes, CodecError, DataType, Indexer};

// One byte, and then 1 to 4 as big-endian 16-bit numbers.
const OBJECT: [u8; 9] = [9, 0, 1, 0, 2, 0, 3, 0, 4];

fn read_numbers<R: Abort, N: Indexer>(
    rt: &R,
    alloc: Global,
    object: Option<&[u8]>,
    interval: Interval,
    indexer: &N,
) -> Result<ArrayBytes<'static>, CodecError> {
    let four = spec_of(rt, alloc, &[2, 2], DataType::UInt16, &[0, 0]);
    let mut handle = handle_over(rt, alloc, object);
    let big = BytesCodec::big();
    read(alloc, &big, &four, &mut handle, interval, indexer)
}

// Reads these elements after the first byte.
fn are_read<R: Abort, N: Indexer>(rt: &R, alloc: Global, indexer: &N, want: &[u8]) {
    let numbers = Interval { offset: 1, size: 8 };
    let found = read_numbers(rt, alloc, Some(&OBJECT), numbers, indexer);
    let array = found.expect(rt, "elements");
    same(rt, array.fixed_bytes(), Some(want));
}

// The elements that are requested are read, one of them twice, and those of a subset in row-major order.
#[test]
fn requested_elements_are_read(rt: HostRuntime) {
    let alloc = rt.alloc();
    let twice = coordinates(&rt, alloc, 2, 3, &[1, 1, 0, 0, 1, 1]);
    are_read(&rt, alloc, &twice, &[4, 0, 1, 0, 4, 0]);
    let column = subset(&rt, alloc, &[0..2, 1..2]);
    are_read(&rt, alloc, &column, &[2, 0, 4, 0]);
}

const OUTSIDE: Option<CodecError> = Some(CodecError::OutOfBounds);

// The cell is tested before the size, and this before the place in the object.
#[test]
fn reads_are_refused_in_order(rt: HostRuntime) {
    const ROWS: &[(Option<&[u8]>, u64, u64, &[u64], Option<CodecError>)] = &[
        (Some(&OBJECT), 1, 8, &[1, 1], None),
        (Some(&OBJECT), 2, 8, &[1, 1], OUTSIDE),
        (Some(&OBJECT), u64::MAX, 8, &[1, 1], OUTSIDE),
        (Some(&OBJECT), 1, 6, &[1, 1], Some(CodecError::Damaged)),
        (None, 0, 8, &[1, 1], OUTSIDE),
        (Some(&OBJECT), 1, 6, &[1, 2], OUTSIDE),
    ];
    for (object, offset, size, cell, want) in ROWS {
        let (offset, size) = (*offset, *size);
        let cell = coordinates(&rt, rt.alloc(), 2, 1, cell);
        let interval = Interval { offset, size };
        let answer = read_numbers(&rt, rt.alloc(), *object, interval, &cell);
        same_at(&rt, (size, offset), answer.err(), *want);
    }
}
