// Arrays of the codec `bytes`, decoded into a target.
use crate::compared::same_at;
use crate::examples::{decoded_into, spec_of, subset};
use std::alloc::Global;
use std::ops::Range;
use std::process::Abort;
use zarr_codecs::BytesCodec;
use zarr_parts::{CodecError, DataType, FixedTarget};

// Decodes two big-endian numbers of 16 bits into a target.
fn decode<R: Abort>(
    rt: &R,
    alloc: Global,
    bytes: &[u8],
    target: &mut FixedTarget,
) -> Result<(), CodecError> {
    let two = spec_of(rt, alloc, &[2], DataType::UInt16, &[0, 0]);
    decoded_into(alloc, &BytesCodec::big(), &two, bytes, target)
}

// Decodes them into a range of so many elements.
fn decode_into<R: Abort>(
    rt: &R,
    alloc: Global,
    bytes: &[u8],
    size: usize,
    axes: &[u64],
    range: &Range<u64>,
    output: &mut [u8],
) -> Result<(), CodecError> {
    let cells = subset(rt, alloc, &[range.start..range.end]);
    let mut target = FixedTarget::new(output, size, axes, &cells).expect(rt, "a target");
    decode(rt, alloc, bytes, &mut target)
}

const FEW: Result<(), CodecError> = Err(CodecError::InvalidNumberOfElements);

const WRITTEN: &[u8] = &[77, 77, 1, 0, 2, 0, 77, 77];

const KEPT: &[u8] = &[77; 8];

// A target is written where as many elements of its size are decoded, and is left as it was otherwise.
#[test]
fn a_target_is_written_or_left(rt: HostRuntime) {
    const ROWS: &[(
        &[u8],
        usize,
        &[u64],
        Range<u64>,
        Result<(), CodecError>,
        &[u8],
    )] = &[
        (&[0, 1, 0, 2], 2, &[4], 1..3, Ok(()), WRITTEN),
        (&[0, 1], 2, &[4], 1..3, Err(CodecError::Damaged), KEPT),
        (&[0, 1], 2, &[4], 1..2, FEW, KEPT),
        (
            &[0, 1],
            1,
            &[8],
            1..2,
            Err(CodecError::WrongElementKind),
            KEPT,
        ),
    ];
    for (bytes, size, axes, range, answer, want) in ROWS {
        let mut output = [77; 8];
        let found = decode_into(&rt, rt.alloc(), bytes, *size, axes, range, &mut output);
        same_at(&rt, *size, (found, output.as_slice()), (*answer, *want));
    }
}
