// Recorded sessions.
ghost use Rattle.std.specs.Prelude.{◌≡◌, Some};
ghost use Rattle.parts_arrays.specs.ArraySpec.{array_spec};
ghost use Rattle.parts_arrays.specs.declared.data_type.DataType.TheVariants.{UInt8};

use crate::shard::{Answer, Shard};
use crate::worked::is_object;
use shard_sessions::{Closed, Naming, RecordedPartialEncoder, Seat, recorded};
use std::alloc::Global;
use std::sync::Wait;
use zarr_codecs::{ArrayToBytesCodecTraits, BytesCodec, MemoryHandle};
use zarr_parts::{ArrayBytes, ArraySubset, CodecError, DataType};

type Recorded<'a, I, J> = RecordedPartialEncoder<'a, I, BytesCodec, MemoryHandle, J>;

type Opened<'a, I, J> = (Recorded<'a, I, J>, Seat);

fn open_once<I: ArrayToBytesCodecTraits, J: Naming<I, BytesCodec>>(
    alloc: Global,
    shard: &Shard<I>,
    handle: MemoryHandle,
) -> Result<Opened<'_, I, J>, (MemoryHandle, CodecError)>
    requires codec_named { Some shard.now.codec ≡ J.codec }
    requires spec_named { array_spec shard.now.shape UInt8 shard.now.fill ≡ J.array_spec }
{
    recorded(
        alloc,
        &shard.codec,
        handle,
        &shard.shape,
        &DataType::UInt8,
        &shard.fill,
    )
}

// Opens the object of a refused opening, which is as it was.
fn open_again<I: ArrayToBytesCodecTraits, J: Naming<I, BytesCodec>>(
    alloc: Global,
    shard: &Shard<I>,
    handle: MemoryHandle,
) -> Result<Opened<'_, I, J>, CodecError>
    requires codec_named { Some shard.now.codec ≡ J.codec }
    requires spec_named { array_spec shard.now.shape UInt8 shard.now.fill ≡ J.array_spec }
{
    let object = handle.into_inner();
    if !is_object(&object, shard.worked.object) {
        return Err(CodecError::Damaged);
    }
    match open_once::<I, J>(alloc, shard, MemoryHandle::new(object)) {
        Ok(opened) => Ok(opened),
        Err((_, error)) => Err(error),
    }
}

fn open<I: ArrayToBytesCodecTraits, J: Naming<I, BytesCodec>>(
    alloc: Global,
    shard: &Shard<I>,
) -> Result<Opened<'_, I, J>, CodecError>
    requires codec_named { Some shard.now.codec ≡ J.codec }
    requires spec_named { array_spec shard.now.shape UInt8 shard.now.fill ≡ J.array_spec }
{
    let object = again!(shard.object.clone())?;
    match open_once::<I, J>(alloc, shard, MemoryHandle::new(Some(object))) {
        Ok(opened) => Ok(opened),
        Err((handle, CodecError::OutOfMemory)) => open_again::<I, J>(alloc, shard, handle),
        Err((_, error)) => Err(error),
    }
}

// What is written.
struct Update {
    subset: ArraySubset,
    elements: ArrayBytes<'static>,
}

impl Drop for Update {
    fn drop(self) {
        let Update {
            subset: _,
            elements: _,
        } = self;
    }
}

fn update_of<I: ArrayToBytesCodecTraits>(
    alloc: Global,
    shard: &Shard<I>,
) -> Result<Update, CodecError> {
    Ok(Update {
        subset: ArraySubset::from_ranges(alloc, shard.worked.first.subset)?,
        elements: ArrayBytes::from_numbers(alloc, shard.worked.first.elements)?,
    })
}

fn write_once<I: ArrayToBytesCodecTraits, J: Naming<I, BytesCodec>, R: Wait>(
    rt: &R,
    alloc: Global,
    session: &Recorded<'_, I, J>,
    seat: Seat,
    update: &Update,
) -> (Seat, Result<u64, CodecError>) {
    session.write(rt, alloc, seat, &update.subset, &update.elements)
}

// A refused write gives no receipt.
fn writes<I: ArrayToBytesCodecTraits, J: Naming<I, BytesCodec>, R: Wait>(
    rt: &R,
    alloc: Global,
    session: &Recorded<'_, I, J>,
    seat: Seat,
    update: &Update,
) -> (Seat, Result<u64, CodecError>) {
    let (seat, answer) = write_once(rt, alloc, session, seat, update);
    if answer == Err(CodecError::OutOfMemory) && seat.receipts().is_empty() {
        return write_once(rt, alloc, session, seat, update);
    }
    (seat, answer)
}

// All elements after the write, which was the first event.
fn read_once<I: ArrayToBytesCodecTraits, J: Naming<I, BytesCodec>, R: Wait>(
    rt: &R,
    alloc: Global,
    shard: &Shard<I>,
    session: &Recorded<'_, I, J>,
    seat: Seat,
) -> (Seat, Answer) {
    let (seat, answer) = session.read(rt, alloc, seat, &shard.requested.whole);
    match answer {
        Ok((place, elements)) => {
            let are_left = elements.fixed_bytes() == Some(shard.worked.first.left);
            (seat, Ok(place == 1 && are_left))
        }
        Err(error) => (seat, Err(error)),
    }
}

fn reads<I: ArrayToBytesCodecTraits, J: Naming<I, BytesCodec>, R: Wait>(
    rt: &R,
    alloc: Global,
    shard: &Shard<I>,
    session: &Recorded<'_, I, J>,
    seat: Seat,
) -> (Seat, Answer) {
    let (seat, answer) = read_once(rt, alloc, shard, session, seat);
    if answer == Err(CodecError::OutOfMemory) && seat.receipts().len() == 1 {
        return read_once(rt, alloc, shard, session, seat);
    }
    (seat, answer)
}

// Two events, the elements that the session opened with, and the object that is left.
fn is_closed<I: ArrayToBytesCodecTraits>(shard: &Shard<I>, closed: Closed<MemoryHandle>) -> bool {
    let Closed {
        handle,
        opening,
        history,
    } = closed;
    let object = handle.into_inner();
    history.len() == 2
        && opening.fixed_bytes() == Some(shard.worked.elements)
        && is_object(&object, shard.worked.first_written)
}

// A seat is split, and the session closed. Takes no memory, where there is room for both seats.
fn ends<I: ArrayToBytesCodecTraits, J: Naming<I, BytesCodec>>(
    shard: &Shard<I>,
    session: Recorded<'_, I, J>,
    seat: Seat,
    mut seats: Vec<Seat>,
) -> bool {
    let (first, second) = session.split_seat(seat);
    let _ = seats.push(first);
    let _ = seats.push(second);
    match session.close(seats) {
        Ok(closed) => is_closed(shard, closed),
        Err(_) => false,
    }
}

fn room_for_two(alloc: Global) -> Result<Vec<Seat>, CodecError> {
    Ok(Vec::with_capacity(alloc, 2)?)
}

// What a recorded session answers to a write and to a read, and whether it ends as it must.
fn goes_on<I: ArrayToBytesCodecTraits, J: Naming<I, BytesCodec>, R: Wait>(
    rt: &R,
    alloc: Global,
    shard: &Shard<I>,
    opened: Opened<'_, I, J>,
    seats: Vec<Seat>,
    is_whole: bool,
) -> Answer {
    let update = again!(update_of(alloc, shard))?;
    let (session, seat) = opened;
    let (seat, written) = writes(rt, alloc, &session, seat, &update);
    let (seat, read) = reads(rt, alloc, shard, &session, seat);
    let ends = !is_whole || ends(shard, session, seat, seats);
    Ok(written? == 0 && read? && ends)
}

pub(crate) fn record<I: ArrayToBytesCodecTraits, J: Naming<I, BytesCodec>, R: Wait>(
    rt: &R,
    alloc: Global,
    shard: &Shard<I>,
    is_whole: bool,
) -> Answer
    requires codec_named { Some shard.now.codec ≡ J.codec }
    requires spec_named { array_spec shard.now.shape UInt8 shard.now.fill ≡ J.array_spec }
{
    let seats = again!(room_for_two(alloc))?;
    let opened = open::<I, J>(alloc, shard)?;
    goes_on(rt, alloc, shard, opened, seats, is_whole)
}
