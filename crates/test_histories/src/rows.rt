// Worked examples of recorded sessions by two seats.
ghost use Rattle.std.specs.Prelude.{◌≡◌, Some};
ghost use Rattle.parts_arrays.specs.ArraySpec.{array_spec};
ghost use Rattle.parts_arrays.specs.declared.data_type.DataType.TheVariants.{UInt8};

use crate::compared::same;
use crate::shards::{
    ABSENT, Answer, Call, Encoder, Ended, Shards, alone, called, how_it_ended, is_object,
    object_of, shards_of,
};
use shard_sessions::{Naming, Seat};
use std::alloc::Global;
use std::marker::Brand;
use std::process::Abort;
use std::sync::Wait;
use zarr_codecs::{ArrayToBytesCodecTraits, FaultingHandle};
use zarr_parts::CodecError;

// A seat's calls, whose answers are put after these, and the seat.
fn answered<I: ArrayToBytesCodecTraits, X: ArrayToBytesCodecTraits, J: Naming<I, X>, R: Wait>(
    rt: &R,
    alloc: Global,
    encoder: &Encoder<'_, I, X, J>,
    seat: Seat,
    calls: &[Call],
    answers: &mut Vec<Answer>,
) -> Seat {
    let mut seat = seat;
    for call in calls {
        let (next, answer) = called(rt, alloc, encoder, seat, *call);
        seat = next;
        let _ = answers.push(answer);
    }
    seat
}

// Both seats, or the first alone; fewer, where there is no memory.
fn seats_of(alloc: Global, first: Seat, second: Seat, with_both: bool) -> Vec<Seat> {
    let mut seats = alone(alloc, first);
    if with_both {
        let _ = seats.push(second);
    }
    seats
}

// How a session ends with both of two seats or the first alone, whose calls come by the second.
fn played_to_the_end<
    I: ArrayToBytesCodecTraits,
    X: ArrayToBytesCodecTraits,
    J: Naming<I, X>,
    R: Wait,
>(
    rt: &R,
    alloc: Global,
    encoder: Encoder<'_, I, X, J>,
    seat: Seat,
    calls: &[Call],
    with_both: bool,
    answers: &mut Vec<Answer>,
) -> Ended {
    let (first, second) = encoder.split_seat(seat);
    let second = answered(rt, alloc, &encoder, second, calls, answers);
    let seats = seats_of(alloc, first, second, with_both);
    how_it_ended(encoder.close(seats))
}

// The object that a session opens, its calls, and whether both seats close it.
#[derive(Clone, Copy)]
struct Play<'a> {
    slices: &'a [u8],
    index: &'a [u64],
    calls: &'a [Call],
    with_both: bool,
}

// How it ends. What its calls answer is put after these answers.
fn played<I: ArrayToBytesCodecTraits, X: ArrayToBytesCodecTraits, J: Naming<I, X>, R: Wait + Abort>(
    rt: &R,
    alloc: Global,
    shards: &Shards<I, X>,
    play: &Play<'_>,
    answers: &mut Vec<Answer>,
) -> Result<Ended, CodecError>
    requires codec_named { Some shards.now.codec ≡ J.codec }
    requires spec_named { array_spec shards.now.shape UInt8 shards.now.fill ≡ J.array_spec }
{
    let object = object_of(rt, alloc, play.slices, play.index);
    let handle = FaultingHandle::new(Some(object), u64::MAX);
    match shards.recorded::<J>(alloc, handle) {
        Ok((encoder, seat)) => Ok(played_to_the_end(
            rt,
            alloc,
            encoder,
            seat,
            play.calls,
            play.with_both,
            answers,
        )),
        Err((handle, error)) => Ok(Ended::refused(handle, error)),
    }
}

// The index of an object of which the first subchunk is stored.
const FIRST: [u64; 4] = [0, 2, ABSENT, ABSENT];

#[test]
fn a_seat_that_is_missing_is_told_and_the_handle_comes_back(rt: HostRuntime) {
    let shards = shards_of(&rt, rt.alloc(), 4);
    let play = Play {
        slices: &[0, 7],
        index: &FIRST,
        calls: &[Call::Write { cell: 0, value: 3 }],
        with_both: false,
    };
    let mut answers = Vec::new(rt.alloc());
    let end = played::<_, _, Brand, _>(&rt, rt.alloc(), &shards, &play, &mut answers).expect(
        &rt, "refused",
    );
    same(&rt, answers.as_slice(), [Ok((0, 0))].as_slice());
    same(&rt, end.how, "seats missing");
    let left = is_object(&rt, rt.alloc(), &end.object, &[3, 7], &FIRST);
    same(&rt, left, true);
}

#[test]
fn a_refused_call_is_no_event(rt: HostRuntime) {
    let shards = shards_of(&rt, rt.alloc(), 4);
    let play = Play {
        slices: &[0, 7],
        index: &FIRST,
        calls: &[
            Call::Write { cell: 0, value: 3 },
            Call::Read { first: 3, end: 5 },
        ],
        with_both: true,
    };
    let mut answers = Vec::new(rt.alloc());
    let end = played::<_, _, Brand, _>(&rt, rt.alloc(), &shards, &play, &mut answers).expect(
        &rt, "refused",
    );
    same(
        &rt,
        answers.as_slice(),
        [Ok((0, 0)), Err(CodecError::OutOfBounds)].as_slice(),
    );
    same(&rt, end.how, "closed");
    same(&rt, end.events, 1);
    same(&rt, end.opening_cells(), [0, 7, 0, 0].as_slice());
}

#[test]
fn an_erased_shard_is_read_and_written_anew(rt: HostRuntime) {
    let shards = shards_of(&rt, rt.alloc(), 4);
    let play = Play {
        slices: &[0, 7],
        index: &FIRST,
        calls: &[
            Call::Erase,
            Call::Read { first: 1, end: 2 },
            Call::Write { cell: 1, value: 7 },
            Call::Read { first: 1, end: 2 },
        ],
        with_both: true,
    };
    let mut answers = Vec::new(rt.alloc());
    let end = played::<_, _, Brand, _>(&rt, rt.alloc(), &shards, &play, &mut answers).expect(
        &rt, "refused",
    );
    same(
        &rt,
        answers.as_slice(),
        [Ok((0, 0)), Ok((1, 0)), Ok((2, 0)), Ok((3, 7))].as_slice(),
    );
    same(&rt, end.how, "closed");
    same(&rt, end.events, 4);
    let left = is_object(&rt, rt.alloc(), &end.object, &[0, 7], &FIRST);
    same(&rt, left, true);
}

#[test]
fn a_damaged_object_is_refused_and_comes_back(rt: HostRuntime) {
    let shards = shards_of(&rt, rt.alloc(), 4);
    let index = [0, 1, ABSENT, ABSENT];
    let play = Play {
        slices: &[5],
        index: &index,
        calls: &[],
        with_both: true,
    };
    let mut answers = Vec::new(rt.alloc());
    let end = played::<_, _, Brand, _>(&rt, rt.alloc(), &shards, &play, &mut answers).expect(
        &rt, "refused",
    );
    same(&rt, answers.len(), 0);
    same(&rt, end.how, "refused");
    same(&rt, end.error, Some(CodecError::Damaged));
    let left = is_object(&rt, rt.alloc(), &end.object, &[5], &index);
    same(&rt, left, true);
}
