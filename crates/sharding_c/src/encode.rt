// A whole shard of encoded subchunks, which are copied.
ghost use Rattle.std.specs.Prelude.{◌≡◌, ◌≢◌, ◌≤◌, ◌+◌, ◌++◌, IfOk, IfErr, OnOk, OnErr, length};
ghost use Rattle.sharding_format.specs.Laying.{whole_shard};
ghost use Rattle.sharding_c.specs.Changes.{AreInFront};
ghost use Rattle.sharding_c.specs.Statuses.{IsRefusedChanging};
ghost use Rattle.sharding_c.specs.Encodings.{CanBeEncoded, EncodeTests, IsEncodingWritten};

use crate::change::Planned;
use crate::index::index_of_numbers;
use crate::layout::{Change, Layout, place_of, shard_of};
use crate::status::Refusal;
use parts_errors::CodecError;
use sharding_format::ShardingIndexLocation;
use std::alloc::Global;

// Writes some bytes, and others behind them, to the front of a room.
fn write_both(first: &[u8], second: &[u8], room: &mut [u8])
    requires { length first.now + length second.now ≤ length room.old }
    ensures { AreInFront (first.now ++ second.now) room.old room.new }
{
    let (front, rest) = room.split_at_mut(first.len());
    front.copy_from_slice(first);
    rest[..second.len()].copy_from_slice(second);
}

// Writes an index and slices to the front of a room, the index where it stands in a shard.
fn write_shard(location: ShardingIndexLocation, index: &[u8], slices: &[u8], room: &mut [u8])
    requires { length index.now + length slices.now ≤ length room.old }
    ensures { AreInFront (whole_shard location index.now slices.now) room.old room.new }
{
    match location {
        ShardingIndexLocation::Start => write_both(index, slices, room),
        ShardingIndexLocation::End => write_both(slices, index, room),
    }
}

/// Writes the object of encoded subchunks, which stand one behind the other, to the front of a room. Refused, in this order, as the layout is, as
/// `PlannedShard::lay_out` refuses, `RoomTooSmall`, and `InvalidNumberOfElements` where the encodings have other bytes than their sizes say; or as
/// `OutOfMemory`. Nothing is written then.
fn encode(
    alloc: Global,
    layout: &Layout,
    sizes: &[u64],
    encodings: &[u8],
    room: &mut [u8],
) -> Result<Planned, Refusal>
    ensures encoded { IfOk result (λ planned. IsEncodingWritten layout.now sizes.now encodings.now room.old room.new planned.object_size) }
    ensures told { IfOk result (λ planned. (planned.room ≡ planned.object_size) × (planned.kind ≡ 2)) }
    ensures passed { OnOk result (CanBeEncoded layout.now sizes.now (length encodings.now) (length room.old)) }
    ensures length { length room.new ≡ length room.old }
    ensures kept { OnErr result (room.new ≡ room.old) }
    ensures refused { IfErr result (EncodeTests layout.now sizes.now (length encodings.now) (length room.old)) }
{
    let shard = shard_of(alloc, layout)?;
    let place = place_of(layout, shard.index_size);
    let packed = shard.grid.lay_out(alloc, sizes, place)?;
    if packed.len > room.len() as u64 {
        return Err(Refusal::RoomTooSmall { room: packed.len });
    }
    if encodings.len() as u64 != packed.len - place.size {
        return Err(Refusal::Codec(CodecError::InvalidNumberOfElements));
    }
    let index = index_of_numbers(alloc, layout.index, &packed.numbers)?;
    write_shard(place.location, &index, encodings, room);
    Ok(Planned {
        room: packed.len,
        object_size: packed.len,
        kind: 2,
    })
}

/// Writes the object of a shard of encoded subchunks of these sizes, of which 2^64 - 1 stands for one that is not stored (Zarr V3
/// `sharding_indexed`, "Binary shard format"): the encodings, which stand one behind the other in row-major order, and the index of
/// `zs_lay_out`. `change.object_size` and `change.room` are how many bytes it has, `change.kind` is 2. Refused, in this order, as the layout
/// is, as `InvalidNumberOfElements` for the sizes, `TooLarge`, `RoomTooSmall`, and `InvalidNumberOfElements` where the encodings have other
/// bytes than their sizes say; or as `OutOfMemory`.
#[unsafe(no_mangle)]
pub extern "C" fn zs_encode(
    alloc: Global,
    layout: &Layout,
    sizes: &[u64],
    encodings: &[u8],
    object: &mut [u8],
    change: &mut Change,
) -> u32
    ensures encoded { result ≡ 0 → IsEncodingWritten layout.now sizes.now encodings.now object.old object.new change.new.object_size }
    ensures passed { result ≡ 0 → CanBeEncoded layout.now sizes.now (length encodings.now) (length object.old) }
    ensures told { result ≡ 0 → change.new ≡ record { room = change.new.object_size; subchunk = change.old.subchunk; object_size = change.new.object_size; kind = 2 } }
    ensures length { length object.new ≡ length object.old }
    ensures kept { result ≢ 0 → object.new ≡ object.old }
    ensures refused { result ≢ 0 → IsRefusedChanging (EncodeTests layout.now sizes.now (length encodings.now) (length object.old)) result change.old change.new }
{
    match encode(alloc, layout, sizes, encodings, object) {
        Ok(planned) => {
            planned.tell(change);
            0
        }
        Err(refusal) => {
            refusal.tell_change(change);
            refusal.status()
        }
    }
}
