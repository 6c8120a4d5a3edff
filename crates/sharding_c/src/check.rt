// What the entries of an index say.
ghost use Rattle.std.specs.Prelude.{◌≡◌, ◌≤◌, ◌*◌, IfOk, IfErr, OnOk, OnErr, length};
ghost use Rattle.sharding_format.specs.Index.{data_end};
ghost use Rattle.sharding_c.specs.Layouts.{subchunks_of};
ghost use Rattle.sharding_c.specs.Checks.{AreKinds, CheckTests, IsChecked, kind_of_entry};

use crate::layout::{Layout, Stored, place_of, shard_of};
use crate::status::Refusal;
use parts_errors::CodecError;
use sharding_format::ShardingIndexLocation;
use sharding_layout::fresh_offset;
use sharding_plans::IndexPlace;
use std::alloc::Global;

// What an entry says of a shard whose data part has these ends.
fn kind_of_entry(start: u64, end: u64, offset: u64, size: u64) -> u8
    ensures { result ≡ kind_of_entry start end offset size }
{
    if offset == u64::MAX && size == u64::MAX {
        return 0;
    }
    if offset == u64::MAX || size == u64::MAX {
        return 2;
    }
    if start <= offset && offset <= end && size <= end - offset {
        1
    } else {
        3
    }
}

// Where the data part ends.
fn end_of_data(place: IndexPlace, object_size: u64) -> u64
    ensures { result ≡ data_end place.location place.size object_size }
{
    match place.location {
        ShardingIndexLocation::Start => object_size,
        ShardingIndexLocation::End => object_size.saturating_sub(place.size),
    }
}

// Writes what each entry says.
fn write_kinds(start: u64, end: u64, numbers: &[u64], kinds: &mut [u8], count: usize)
    requires entries { 2 * count ≤ length numbers.now }
    requires room { count ≤ length kinds.old }
    ensures kinds { AreKinds start end numbers.now kinds.old kinds.new count }
    ensures length { length kinds.new ≡ length kinds.old }
{
    for k in 0..count {
        kinds[k] = kind_of_entry(start, end, numbers[2 * k], numbers[2 * k + 1]);
    }
}

/// Writes what each entry of an index says to the front of a room, and returns how many they are. Refused, in this order, as the layout is,
/// `InvalidNumberOfElements` where there are other than two numbers for each subchunk, and `RoomTooSmall`; nothing is written then.
pub(crate) fn check_index(
    alloc: Global,
    layout: &Layout,
    stored: &Stored,
    kinds: &mut [u8],
) -> Result<u64, Refusal>
    ensures count { IfOk result (λ count. count ≡ subchunks_of layout.now) }
    ensures checked { OnOk result (IsChecked layout.now stored.now kinds.old kinds.new) }
    ensures length { length kinds.new ≡ length kinds.old }
    ensures kept { OnErr result (kinds.new ≡ kinds.old) }
    ensures refused { IfErr result (CheckTests layout.now stored.now (length kinds.old)) }
{
    let shard = shard_of(alloc, layout)?;
    let count = shard.subchunks;
    if stored.numbers.len() as u64 != 2 * count {
        return Err(Refusal::Codec(CodecError::InvalidNumberOfElements));
    }
    if count > kinds.len() as u64 {
        return Err(Refusal::RoomTooSmall { room: count });
    }
    let place = place_of(layout, shard.index_size);
    let start = fresh_offset(place.location, place.size);
    let end = end_of_data(place, stored.object_size);
    write_kinds(start, end, stored.numbers, kinds, count as usize);
    Ok(count)
}
