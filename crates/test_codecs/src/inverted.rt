// A codec from arrays to arrays before the codec `bytes`: one that takes each byte from 255.
use crate::compared::{same, same_at};
use crate::examples::{fixed, said};
use crate::pairs::{decoded_pair, encoded_pair, second_of, wanted};
use std::alloc::Global;
use std::process::Abort;
use test_helpers::InvertedCodec;
use zarr_codecs::{ArrayChain, BytesCodec, FunctionalCodec, Interval};
use zarr_parts::{ArrayBytes, CodecError};

fn inverted() -> ArrayChain<InvertedCodec, BytesCodec> {
    ArrayChain::new(InvertedCodec, BytesCodec::little())
}

// The first codec encodes first, and the second is not given what is no array of the shape.
#[test]
fn an_array_is_encoded_before_it_is_stored(rt: HostRuntime) {
    const ROWS: &[(&[u8], Result<&[u8], CodecError>)] = &[
        (&[1, 2], Ok(&[254, 253])),
        (&[1], Err(CodecError::InvalidNumberOfElements)),
    ];
    for (elements, want) in ROWS {
        let text = encoded_pair(&rt, rt.alloc(), &inverted(), elements);
        same(&rt, said(&text), *want);
    }
}

// An array has these elements, and so have its copy and what owns its bytes.
fn is_owned_as<R: Abort>(rt: &R, alloc: Global, array: ArrayBytes, want: &[u8]) {
    let want = fixed(rt, want, 1);
    same(rt, array == want, true);
    let copy = array.try_clone(alloc).expect(rt, "memory");
    same(rt, copy == want, true);
    let owned = array.into_owned(alloc).expect(rt, "memory");
    same(rt, owned == want, true);
}

#[test]
fn an_array_is_decoded_after_its_bytes(rt: HostRuntime) {
    let alloc = rt.alloc();
    for (bytes, want) in [([254, 253], [1, 2]), ([254, 254], [1, 1])] {
        let found = decoded_pair(&rt, alloc, &inverted(), &bytes);
        is_owned_as(&rt, alloc, found.expect(&rt, "an array"), &want);
    }
    for bytes in [[254].as_slice(), &[]] {
        let found = decoded_pair(&rt, alloc, &inverted(), bytes);
        same_at(&rt, bytes, found.err(), Some(CodecError::Damaged));
    }
}

// The bytes of an interval are decoded whole, also for the second cell alone.
#[test]
fn an_array_is_read_whole(rt: HostRuntime) {
    same(&rt, inverted().is_functional(), true);
    const ROWS: &[(u64, u64, Result<&[u8], CodecError>)] = &[
        (1, 2, Ok(&[2])),
        (2, 2, Ok(&[248])),
        (1, 3, Err(CodecError::Damaged)),
        (3, 2, Err(CodecError::OutOfBounds)),
    ];
    for (offset, size, want) in ROWS {
        let (offset, size) = (*offset, *size);
        let interval = Interval { offset, size };
        let found = second_of(&rt, rt.alloc(), &inverted(), &[7, 254, 253, 7], interval);
        same_at(&rt, (offset, size), found, wanted(&rt, *want));
    }
}
