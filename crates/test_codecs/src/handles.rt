// Handles over bytes in memory, read.
use crate::compared::{same, same_at};
use crate::examples::{handle_over, is_copied};
use std::alloc::Global;
use std::borrow::CowSlice;
use std::process::Abort;
use zarr_codecs::{ByteRange, BytesPartialDecoderTraits, MemoryHandle, SliceHandle};
use zarr_parts::CodecError;

// Ranges of an object of the bytes 1 to 5, and how each is read.
const RANGES: &[(ByteRange, Result<Option<&[u8]>, CodecError>)] = &[
    (ByteRange::FromStart(1, Some(2)), Ok(Some(&[2, 3]))),
    (ByteRange::FromStart(3, None), Ok(Some(&[4, 5]))),
    (ByteRange::FromStart(5, Some(0)), Ok(Some(&[]))),
    (ByteRange::FromStart(5, None), Ok(Some(&[]))),
    (
        ByteRange::FromStart(4, Some(2)),
        Err(CodecError::OutOfBounds),
    ),
    (ByteRange::FromStart(6, None), Err(CodecError::OutOfBounds)),
    (
        ByteRange::FromStart(1, Some(u64::MAX)),
        Err(CodecError::OutOfBounds),
    ),
    (ByteRange::Suffix(2), Ok(Some(&[4, 5]))),
    (ByteRange::Suffix(0), Ok(Some(&[]))),
    (ByteRange::Suffix(6), Err(CodecError::OutOfBounds)),
];

// Reads these ranges.
fn read_ranges<H: BytesPartialDecoderTraits>(rt: &impl Abort, alloc: Global, handle: &mut H) {
    for (range, want) in RANGES {
        same_at(rt, range, is_copied(alloc, handle, *range, *want), true);
    }
}

// What else a handle tells of an object of 5 bytes.
fn tells_of_five<H: BytesPartialDecoderTraits>(rt: &impl Abort, handle: &mut H) {
    same(rt, handle.exists(), Ok(true));
    same(rt, handle.len(), Ok(Some(5)));
    same(rt, handle.size_held(), 5);
    same(rt, handle.supports_partial_decode(), true);
}

// Ranges of borrowed bytes are read where they lie inside.
#[test]
fn ranges_of_borrowed_bytes_are_read(rt: HostRuntime) {
    let bytes = [1, 2, 3, 4, 5].as_slice();
    let mut handle = SliceHandle::new(bytes);
    read_ranges(&rt, rt.alloc(), &mut handle);
    tells_of_five(&rt, &mut handle);
}

// Ranges of bytes of its own are read so, too, and change nothing.
#[test]
fn ranges_of_bytes_are_read(rt: HostRuntime) {
    let bytes = [1, 2, 3, 4, 5].as_slice();
    let mut handle = handle_over(&rt, rt.alloc(), Some(bytes));
    read_ranges(&rt, rt.alloc(), &mut handle);
    tells_of_five(&rt, &mut handle);
    let object = handle.into_inner().expect(&rt, "an object");
    same(&rt, object.as_slice(), bytes);
}

// Reads ranges where there is no object.
fn read_nothing(rt: &impl Abort, alloc: Global, handle: &mut MemoryHandle) {
    for range in [
        ByteRange::FromStart(1, None),
        ByteRange::FromStart(0, Some(1)),
        ByteRange::Suffix(1),
    ] {
        same_at(rt, range, is_copied(alloc, handle, range, Ok(None)), true);
    }
}

// Where there is no object, each range is read as none.
#[test]
fn nothing_is_read_where_there_is_no_object(rt: HostRuntime) {
    let mut handle = MemoryHandle::new(None);
    same(&rt, handle.exists(), Ok(false));
    same(&rt, handle.len(), Ok(None));
    same(&rt, handle.size_held(), 0);
    read_nothing(&rt, rt.alloc(), &mut handle);
    same(&rt, handle.into_inner(), None);
}

// Borrowed bytes are not copied where they are read.
#[test]
fn borrowed_bytes_are_borrowed_on(rt: HostRuntime) {
    let bytes = [1, 2, 3, 4, 5];
    let mut handle = SliceHandle::new(&bytes);
    let read = handle.partial_decode(rt.alloc(), ByteRange::Suffix(1));
    same(&rt, matches!(read, Ok(Some(CowSlice::Borrowed([5])))), true);
}
