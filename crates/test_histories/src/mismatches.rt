// A recorded session that is closed with a seat of another one.
ghost use Rattle.std.specs.Prelude.{◌≡◌, Some};
ghost use Rattle.parts_arrays.specs.ArraySpec.{array_spec};
ghost use Rattle.parts_arrays.specs.declared.data_type.DataType.TheVariants.{UInt8};

use crate::compared::same;
use crate::shards::{Call, Encoder, Ended, Shards, alone, called, how_it_ended, shards_of};
use shard_sessions::{Naming, Seat};
use std::alloc::Global;
use std::marker::Brand;
use std::process::Abort;
use std::sync::Wait;
use zarr_codecs::{ArrayToBytesCodecTraits, FaultingHandle};
use zarr_parts::CodecError;

// A session without an object, in which one value was written into the first cell, and its seat.
fn written<'a, I: ArrayToBytesCodecTraits, X: ArrayToBytesCodecTraits, J: Naming<I, X>, R: Wait>(
    rt: &R,
    alloc: Global,
    shards: &'a Shards<I, X>,
    value: u8,
) -> Result<(Encoder<'a, I, X, J>, Seat), CodecError>
    requires codec_named { Some shards.now.codec ≡ J.codec }
    requires spec_named { array_spec shards.now.shape UInt8 shards.now.fill ≡ J.array_spec }
{
    match shards.recorded::<J>(alloc, FaultingHandle::new(None, u64::MAX)) {
        Ok((encoder, seat)) => {
            let (seat, _) = called(rt, alloc, &encoder, seat, Call::Write { cell: 0, value });
            Ok((encoder, seat))
        }
        Err((_, error)) => Err(error),
    }
}

// The seat of such a session, alone.
fn seats_of<I: ArrayToBytesCodecTraits, X: ArrayToBytesCodecTraits, J: Naming<I, X>, R: Wait>(
    rt: &R,
    alloc: Global,
    shards: &Shards<I, X>,
    value: u8,
) -> Result<Vec<Seat>, CodecError>
    requires codec_named { Some shards.now.codec ≡ J.codec }
    requires spec_named { array_spec shards.now.shape UInt8 shards.now.fill ≡ J.array_spec }
{
    match written::<_, _, J, _>(rt, alloc, shards, value) {
        Ok((_, seat)) => Ok(alone(alloc, seat)),
        Err(error) => Err(error),
    }
}

// How a session ends in which 3 was written, with these seats.
fn closed_with<I: ArrayToBytesCodecTraits, X: ArrayToBytesCodecTraits, J: Naming<I, X>, R: Wait>(
    rt: &R,
    alloc: Global,
    shards: &Shards<I, X>,
    seats: Vec<Seat>,
) -> Result<Ended, CodecError>
    requires codec_named { Some shards.now.codec ≡ J.codec }
    requires spec_named { array_spec shards.now.shape UInt8 shards.now.fill ≡ J.array_spec }
{
    match written::<_, _, J, _>(rt, alloc, shards, 3) {
        Ok((encoder, _)) => Ok(how_it_ended(encoder.close(seats))),
        Err(error) => Err(error),
    }
}

// How it ends with the seat of one in which this value was written.
fn crossed<
    I: ArrayToBytesCodecTraits,
    X: ArrayToBytesCodecTraits,
    J: Naming<I, X>,
    R: Wait + Abort,
>(rt: &R, alloc: Global, shards: &Shards<I, X>, value: u8) -> Ended
    requires codec_named { Some shards.now.codec ≡ J.codec }
    requires spec_named { array_spec shards.now.shape UInt8 shards.now.fill ≡ J.array_spec }
{
    let seats = seats_of::<_, _, J, _>(rt, alloc, shards, value).expect(rt, "refused");
    closed_with::<_, _, J, _>(rt, alloc, shards, seats).expect(rt, "refused")
}

#[test]
fn a_receipt_of_another_write_is_told(rt: HostRuntime) {
    let shards = shards_of(&rt, rt.alloc(), 4);
    for (value, how, receipt) in [(3, "closed", None), (4, "mismatch", Some((0, 0)))] {
        let end = crossed::<_, _, Brand, _>(&rt, rt.alloc(), &shards, value);
        same(&rt, end.how, how);
        same(&rt, end.receipt, receipt);
        same(&rt, end.events, 1);
    }
}
