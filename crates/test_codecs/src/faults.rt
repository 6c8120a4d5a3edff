// A handle that fails at a call.
use crate::compared::{same, same_at};
use crate::examples::is_borrowed;
use std::alloc::Global;
use std::ops::Range;
use std::process::Abort;
use zarr_codecs::{
    ByteRange, BytesPartialDecoderTraits, BytesPartialEncoderTraits, FaultingHandle, copy_range,
};
use zarr_parts::CodecError;

// How many calls a run makes, each of them by its number.
const CALLS: u64 = 6;

// A call that asks.
fn ask<H: BytesPartialEncoderTraits>(
    handle: &mut H,
    alloc: Global,
    number: u64,
) -> Result<(), CodecError> {
    match number {
        0 => handle.exists().map(|_| ()),
        2 => handle.len().map(|_| ()),
        _ => copy_range(handle, alloc, ByteRange::Suffix(1)).map(|_| ()),
    }
}

// A call that writes.
fn change<H: BytesPartialEncoderTraits>(
    handle: &mut H,
    alloc: Global,
    number: u64,
) -> Result<(), CodecError> {
    match number {
        1 => handle.partial_encode_many(alloc, &[(2, &[7, 8])]),
        3 => handle.replace(alloc, &[5]),
        _ => handle.erase(),
    }
}

// The calls of even numbers ask, and the others write.
fn call<H: BytesPartialEncoderTraits>(
    handle: &mut H,
    alloc: Global,
    number: u64,
) -> Result<(), CodecError> {
    if number % 2 == 0 {
        ask(handle, alloc, number)
    } else {
        change(handle, alloc, number)
    }
}

// Makes the calls of these numbers.
fn make_calls<R: Abort, H: BytesPartialEncoderTraits>(
    rt: &R,
    alloc: Global,
    handle: &mut H,
    numbers: Range<u64>,
) {
    for number in numbers {
        call(handle, alloc, number).expect(rt, "a call that does not fail");
    }
}

// A handle of which the call with a number fails.
fn failing<R: Abort>(rt: &R, alloc: Global, number: u64) -> FaultingHandle {
    let object = [1, 2, 3].to_vec(alloc).expect(rt, "memory");
    FaultingHandle::new(Some(object), number)
}

// Makes the calls from a number on to a handle, which failed so often then, and neither holds anything nor leaves an object.
fn is_ended<R: Abort>(rt: &R, alloc: Global, mut handle: FaultingHandle, from: u64, faults: u64) {
    make_calls(rt, alloc, &mut handle, from..CALLS);
    same(rt, (handle.faults(), handle.size_held()), (faults, 0));
    same(rt, handle.into_inner(), None);
}

// Makes a call that is the first that fails, after which the handle holds what is wanted.
fn is_refused<R: Abort>(
    rt: &R,
    alloc: Global,
    handle: &mut FaultingHandle,
    number: u64,
    want: &[u8],
) {
    same_at(rt, number, handle.faults(), 0);
    same_at(
        rt,
        number,
        call(handle, alloc, number),
        Err(CodecError::Fault),
    );
    let whole = ByteRange::FromStart(0, None);
    let found = is_borrowed(alloc, handle, whole, Ok(Some(want)));
    same_at(rt, number, found, true);
}

// What each call finds.
const FOUND: [&[u8]; 6] = [
    &[1, 2, 3],
    &[1, 2, 3],
    &[1, 2, 7, 8],
    &[1, 2, 7, 8],
    &[5],
    &[5],
];

// The call of the number is refused once, and changes nothing; it is made as the later ones where it is tried again.
#[test]
fn the_call_of_the_number_fails_once(rt: HostRuntime) {
    let alloc = rt.alloc();
    for (number, want) in (0..CALLS).zip(FOUND) {
        let mut handle = failing(&rt, alloc, number);
        make_calls(&rt, alloc, &mut handle, 0..number);
        is_refused(&rt, alloc, &mut handle, number, want);
        is_ended(&rt, alloc, handle, number, 1);
    }
}

// No call fails before the number.
#[test]
fn no_call_fails_before_its_number(rt: HostRuntime) {
    let handle = failing(&rt, rt.alloc(), CALLS);
    is_ended(&rt, rt.alloc(), handle, 0, 0);
}
