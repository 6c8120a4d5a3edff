// Objects in memory, written in place.
use crate::compared::{same, same_at};
use crate::examples::{handle_over, is_copied};
use std::alloc::Global;
use std::process::Abort;
use zarr_codecs::{ByteRange, BytesPartialDecoderTraits, BytesPartialEncoderTraits, MemoryHandle};
use zarr_parts::CodecError;

// Bytes that are written, and where.
type Pieces<'a> = &'a [(u64, &'a [u8])];

// Writes pieces into an object, which has these bytes then, through the bound alone.
fn is_written<R: Abort, H: BytesPartialEncoderTraits>(
    rt: &R,
    alloc: Global,
    handle: &mut H,
    pieces: Pieces,
    want: &[u8],
) {
    let answer = handle.partial_encode_many(alloc, pieces);
    same_at(rt, pieces, answer, Ok(()));
    let whole = ByteRange::FromStart(0, None);
    same_at(
        rt,
        pieces,
        is_copied(alloc, handle, whole, Ok(Some(want))),
        true,
    );
}

const FOUR: Option<&[u8]> = Some(&[1, 2, 3, 4]);

// What is written into an object, and the bytes that it has then.
const WRITTEN: &[(Option<&[u8]>, Pieces, &[u8])] = &[
    (FOUR, &[(1, &[8, 9])], &[1, 8, 9, 4]),
    (
        FOUR,
        &[(0, &[7, 7, 7]), (2, &[8, 8]), (1, &[9])],
        &[7, 9, 8, 8],
    ),
    (FOUR, &[(3, &[5, 6])], &[1, 2, 3, 5, 6]),
    (FOUR, &[(6, &[9]), (5, &[8])], &[1, 2, 3, 4, 0, 8, 9]),
    (FOUR, &[(6, &[9]), (0, &[7])], &[7, 2, 3, 4, 0, 0, 9]),
    (FOUR, &[], &[1, 2, 3, 4]),
    (FOUR, &[(2, &[])], &[1, 2, 3, 4]),
    (FOUR, &[(6, &[])], &[1, 2, 3, 4, 0, 0]),
    (None, &[], &[]),
    (None, &[(2, &[1]), (0, &[5])], &[5, 0, 1]),
];

// Later pieces are written over earlier ones, and a gap before a piece is filled with zeros.
#[test]
fn pieces_are_written_in_their_order(rt: HostRuntime) {
    for (object, pieces, want) in WRITTEN {
        let mut handle = handle_over(&rt, rt.alloc(), *object);
        is_written(&rt, rt.alloc(), &mut handle, pieces, want);
    }
}

fn holds(object: &Option<Vec<u8>>, want: Option<&[u8]>) -> bool {
    match object {
        Some(bytes) => want == Some(bytes.as_slice()),
        None => want.is_none(),
    }
}

// Pieces past `usize::MAX`.
const TOO_LARGE: [Pieces; 4] = [
    &[(u64::MAX, &[])],
    &[(u64::MAX, &[1])],
    &[(u64::MAX - 1, &[1])],
    &[(0, &[7]), (u64::MAX, &[1, 2])],
];

// Pieces that need more memory than there is.
const NO_MEMORY: Pieces = &[(0, &[7]), (u64::MAX - 1, &[])];

// A handle over an object refuses pieces as too large, and then others as too much for the memory, and holds the object still.
fn are_refused<R: Abort>(rt: &R, alloc: Global, object: Option<&[u8]>, pieces: Pieces) {
    let mut handle = handle_over(rt, alloc, object);
    let answer = handle.partial_encode_many(alloc, pieces);
    same_at(rt, pieces, answer, Err(CodecError::TooLarge));
    let answer = handle.partial_encode_many(alloc, NO_MEMORY);
    same_at(rt, pieces, answer, Err(CodecError::OutOfMemory));
    same_at(rt, pieces, holds(&handle.into_inner(), object), true);
}

// An object past the largest size is refused, and what was there is left.
#[test]
fn an_object_of_the_largest_size_is_refused(rt: HostRuntime) {
    for object in [Some([1, 2].as_slice()), None] {
        for pieces in TOO_LARGE {
            are_refused(&rt, rt.alloc(), object, pieces);
        }
    }
}

// Replaces an object by two bytes.
fn is_replaced<R: Abort>(rt: &R, alloc: Global, handle: &mut MemoryHandle) {
    same(rt, handle.replace(alloc, &[8, 9]), Ok(()));
    same(rt, handle.len(), Ok(Some(2)));
    let whole = ByteRange::FromStart(0, None);
    same(rt, is_copied(alloc, handle, whole, Ok(Some(&[8, 9]))), true);
}

// Erases an object, and erases it again: none is left.
fn is_erased<R: Abort>(rt: &R, mut handle: MemoryHandle) {
    same(rt, handle.erase(), Ok(()));
    same(rt, handle.exists(), Ok(false));
    same(rt, handle.erase(), Ok(()));
    same(rt, handle.into_inner(), None);
}

// An object is there once it was replaced, whether there was one or not, and is gone once it was erased.
#[test]
fn an_object_is_replaced_and_erased(rt: HostRuntime) {
    for object in [Some([1, 2, 3].as_slice()), None] {
        let mut handle = handle_over(&rt, rt.alloc(), object);
        same(&rt, handle.supports_partial_encode(), true);
        is_replaced(&rt, rt.alloc(), &mut handle);
        is_erased(&rt, handle);
    }
}
