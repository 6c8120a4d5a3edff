// A handle that counts what is read.
use crate::compared::{same, same_at};
use crate::examples::{is_borrowed, is_copied};
use std::alloc::Global;
use std::process::Abort;
use zarr_codecs::{ByteRange, CountingHandle};
use zarr_parts::CodecError;

// Lends ranges of an object of the bytes 1 to 5.
fn lend_ranges(rt: &impl Abort, alloc: Global, handle: &mut CountingHandle) {
    const ROWS: &[(ByteRange, Result<Option<&[u8]>, CodecError>)] = &[
        (ByteRange::FromStart(1, Some(2)), Ok(Some(&[2, 3]))),
        (ByteRange::Suffix(6), Err(CodecError::OutOfBounds)),
        (ByteRange::Suffix(1), Ok(Some(&[5]))),
        (ByteRange::FromStart(0, Some(1)), Ok(Some(&[1]))),
    ];
    for (range, want) in ROWS {
        same_at(rt, *range, is_borrowed(alloc, handle, *range, *want), true);
    }
}

// The bytes of each range that was read are counted, and none of a range that was refused.
#[test]
fn a_handle_counts_what_is_read(rt: HostRuntime) {
    let alloc = rt.alloc();
    let object = [1, 2, 3, 4, 5].to_vec(alloc).expect(&rt, "memory");
    let mut handle = CountingHandle::new(object);
    lend_ranges(&rt, alloc, &mut handle);
    same(&rt, handle.bytes_read(), 4);
    let last = Ok(Some([4, 5].as_slice()));
    let found = is_copied(alloc, &mut handle, ByteRange::Suffix(2), last);
    same(&rt, found, true);
    same(&rt, handle.bytes_read(), 6);
}
