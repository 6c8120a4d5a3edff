// Recorded sessions of which one call of the handle fails: at each call in turn, until a run meets no failure.
ghost use Rattle.std.specs.Prelude.{◌≡◌, Some};
ghost use Rattle.parts_arrays.specs.ArraySpec.{array_spec};
ghost use Rattle.parts_arrays.specs.declared.data_type.DataType.TheVariants.{UInt8};

use crate::compared::{same, same_at};
use crate::shards::{
    ABSENT, Answer, Call, Encoder, Ended, Shards, alone, called, how_it_ended, is_object,
    object_of, shards_of,
};
use shard_sessions::{CloseError, Naming, Seat};
use std::alloc::Global;
use std::marker::Brand;
use std::process::Abort;
use std::sync::Wait;
use zarr_codecs::{ArrayToBytesCodecTraits, FaultingHandle};
use zarr_parts::{ArrayBytes, ArraySubset, CodecError, CodecOptions, DataType};

// What a run answers to a write and to a read after it, by the numbers of their refusals, 0 where there is none; how it ends, and
// by which refusal; and the first cell of the object that is left.
type Stage = (u8, u8, &'static str, u8, u8);

const INDEX: [u64; 4] = [0, 2, ABSENT, ABSENT];

fn number(answer: &Answer) -> u8 {
    match answer {
        Ok(_) => 0,
        Err(error) => error.number(),
    }
}

// The first cell of the object that is left, of two that are stored.
fn first_cell<R: Abort>(rt: &R, alloc: Global, left: &Option<Vec<u8>>) -> Result<u8, CodecError> {
    for cell in [0, 1] {
        if is_object(rt, alloc, left, &[cell, 7], &INDEX) {
            return Ok(cell);
        }
    }
    Err(CodecError::Damaged)
}

fn stage<R: Abort>(
    rt: &R,
    alloc: Global,
    written: u8,
    read: u8,
    end: Ended,
) -> Result<Stage, CodecError> {
    let cell = first_cell(rt, alloc, &end.object)?;
    let error = end.error.map_or(0, |error| error.number());
    Ok((written, read, end.how, error, cell))
}

// How a write and a read after it are refused, and how the session ends.
fn run_opened<
    I: ArrayToBytesCodecTraits,
    X: ArrayToBytesCodecTraits,
    J: Naming<I, X>,
    R: Wait + Abort,
>(rt: &R, alloc: Global, encoder: Encoder<'_, I, X, J>, seat: Seat) -> Result<Stage, CodecError> {
    let write = Call::Write { cell: 0, value: 1 };
    let (seat, written) = called(rt, alloc, &encoder, seat, write);
    let (seat, read) = called(rt, alloc, &encoder, seat, Call::Read { first: 0, end: 2 });
    let end = how_it_ended(encoder.close(alone(alloc, seat)));
    stage(rt, alloc, number(&written), number(&read), end)
}

fn run<I: ArrayToBytesCodecTraits, X: ArrayToBytesCodecTraits, J: Naming<I, X>, R: Wait + Abort>(
    rt: &R,
    alloc: Global,
    shards: &Shards<I, X>,
    fails_at: u64,
) -> Result<Stage, CodecError>
    requires codec_named { Some shards.now.codec ≡ J.codec }
    requires spec_named { array_spec shards.now.shape UInt8 shards.now.fill ≡ J.array_spec }
{
    let object = object_of(rt, alloc, &[0, 7], &INDEX);
    let handle = FaultingHandle::new(Some(object), fails_at);
    match shards.recorded::<J>(alloc, handle) {
        Ok((encoder, seat)) => run_opened(rt, alloc, encoder, seat),
        Err((handle, error)) => stage(rt, alloc, 0, 0, Ended::refused(handle, error)),
    }
}

// A fault at the opening refuses it, and the object comes back. One where the write reads, or where the read does, is no event, and
// the session ends as ever. By one where the write writes the session fails, and the handle comes back when it is closed.
const STAGES: [Stage; 5] = [
    (0, 0, "refused", 16, 0),
    (16, 0, "closed", 0, 0),
    (16, 17, "failed", 17, 0),
    (0, 16, "closed", 0, 1),
    (0, 0, "closed", 0, 1),
];

fn stages() -> [Stage; 5] {
    STAGES
}

#[test]
fn a_fault_is_no_event(rt: HostRuntime) {
    let shards = shards_of(&rt, rt.alloc(), 4);
    let stages = stages();
    let mut stage = 0;
    for fails_at in 0..100 {
        let ran = run::<_, _, Brand, _>(&rt, rt.alloc(), &shards, fails_at).expect(&rt, "refused");
        if stage < 4 && ran == stages[stage + 1] {
            stage += 1;
        }
        same_at(&rt, fails_at, ran, stages[stage]);
    }
    same(&rt, stage, 4);
}

// The cells of an object that is opened anew.
fn cells_anew<I: ArrayToBytesCodecTraits, X: ArrayToBytesCodecTraits>(
    alloc: Global,
    shards: &Shards<I, X>,
    handle: FaultingHandle,
    all: &ArraySubset,
) -> Result<ArrayBytes<'static>, CodecError> {
    let options = CodecOptions::default();
    match shards.codec.open_state(
        alloc,
        handle,
        &shards.shape,
        &DataType::UInt8,
        &shards.fill,
        &options,
    ) {
        Ok(mut session) => session.partial_decode(alloc, all, &options),
        Err((_, error)) => Err(error),
    }
}

// Whether an object is opened anew, with the cells that it had.
fn has_cells<I: ArrayToBytesCodecTraits, X: ArrayToBytesCodecTraits, R: Abort>(
    rt: &R,
    alloc: Global,
    shards: &Shards<I, X>,
    handle: FaultingHandle,
) -> bool {
    let all = ArraySubset::from_ranges(alloc, &[0..4]).expect(rt, "refused");
    let array = cells_anew(alloc, shards, handle, &all).expect(rt, "refused");
    array.fixed_bytes() == Some(&[0, 7, 0, 0])
}

// The same of the handle of a session that failed at a write; none where it did not fail.
fn has_cells_then<
    I: ArrayToBytesCodecTraits,
    X: ArrayToBytesCodecTraits,
    J: Naming<I, X>,
    R: Wait + Abort,
>(rt: &R, alloc: Global, shards: &Shards<I, X>, fails_at: u64) -> Result<Option<bool>, CodecError>
    requires codec_named { Some shards.now.codec ≡ J.codec }
    requires spec_named { array_spec shards.now.shape UInt8 shards.now.fill ≡ J.array_spec }
{
    let object = object_of(rt, alloc, &[0, 7], &INDEX);
    let handle = FaultingHandle::new(Some(object), fails_at);
    let Ok((encoder, seat)) = shards.recorded::<J>(alloc, handle) else {
        return Ok(None);
    };
    let write = Call::Write { cell: 0, value: 1 };
    let (seat, _) = called(rt, alloc, &encoder, seat, write);
    match encoder.close(alone(alloc, seat)) {
        Err(CloseError::Session(handle, _)) => Ok(Some(has_cells(rt, alloc, shards, handle))),
        _ => Ok(None),
    }
}

// A write makes one call that writes, by which the session may fail.
#[test]
fn the_handle_of_a_failed_session_is_opened_anew(rt: HostRuntime) {
    let shards = shards_of(&rt, rt.alloc(), 4);
    let mut failed: u64 = 0;
    for fails_at in 0..100 {
        let found = has_cells_then::<_, _, Brand, _>(&rt, rt.alloc(), &shards, fails_at).expect(
            &rt, "refused",
        );
        if found.is_some() {
            failed = failed.saturating_add(1);
            same_at(&rt, fails_at, found, Some(true));
        }
    }
    same(&rt, failed, 1);
}
