// Where new slices go, and how long the object is with them.
ghost use Rattle.std.specs.Prelude.{◌≡◌, ◌+◌, ◌*◌, ◌/◌, ◌^◌, ◌<◌, SomeIff, length};
ghost use Rattle.sharding_format.specs.steps.Decoding.{FitsSlot};
ghost use Rattle.sharding_format.specs.Index.{slot_at, data_start};
ghost use Rattle.sharding_layout.specs.Offsets.{slot_end, last_end, offset_after, length_after, index_after};

use sharding_format::{ShardingIndexLocation, Slot, slot_of};

/// The index that is held of a shard: how long the shard is, and the numbers of its index.
#[derive(Clone, Copy)]
pub struct CachedIndex<'a> {
    pub len: u64,
    pub numbers: &'a [u64],
}

// What the entry of a subchunk says.
#[tactic(auto, unfolding(sharding_format::specs::Index::slot_at))]
pub fn slot_in(cached: &CachedIndex, subchunk: usize) -> Slot
    requires { 2 * subchunk + 1 < length cached.now.numbers.now }
    ensures slot { result ≡ slot_at cached.now.len cached.now.numbers.now subchunk }
    ensures fits { FitsSlot cached.now.len result }
{
    let numbers = cached.numbers;
    slot_of(cached.len, numbers[2 * subchunk], numbers[2 * subchunk + 1])
}

// Where a slot's slice ends in a shard of so many bytes, 0 where there is none.
fn end_in(len: u64, slot: Slot) -> u64
    requires { FitsSlot len slot }
    ensures { result ≡ slot_end slot }
{
    match slot {
        Slot::InRange { offset, size } => offset + size,
        _ => 0,
    }
}

// The greatest end of a slice, and no less than a number.
fn last_end(least: u64, cached: &CachedIndex) -> u64
    ensures { result ≡ last_end least cached.now.len cached.now.numbers.now (length cached.now.numbers.now / 2) }
{
    let mut last = least;
    for k in 0..cached.numbers.len() / 2 {
        let end = end_in(cached.len, slot_in(cached, k));
        last = last.max(end);
    }
    last
}

// Where new slices go after the old ones.
pub fn offset_after(location: ShardingIndexLocation, index_size: u64, cached: &CachedIndex) -> u64
    ensures { result ≡ offset_after location index_size cached.now.len cached.now.numbers.now (length cached.now.numbers.now / 2) }
{
    let len = cached.len;
    match location {
        ShardingIndexLocation::Start => last_end(index_size, cached),
        ShardingIndexLocation::End => len.saturating_sub(index_size),
    }
}

// How long the object is with so many bytes of new slices at a place behind the old ones, where that can be said.
pub fn length_after(
    location: ShardingIndexLocation,
    len: u64,
    write_offset: u64,
    total: u64,
) -> Option<u64>
    ensures { SomeIff result (length_after location len write_offset total < 2 ^ 64) (length_after location len write_offset total) }
{
    match location {
        ShardingIndexLocation::Start => {
            let end = write_offset.checked_add(total)?;
            Some(len.max(end))
        }
        ShardingIndexLocation::End => len.checked_add(total),
    }
}

// Where the data part begins.
pub fn fresh_offset(location: ShardingIndexLocation, index_size: u64) -> u64
    ensures { result ≡ data_start location index_size }
{
    match location {
        ShardingIndexLocation::Start => index_size,
        ShardingIndexLocation::End => 0,
    }
}

// Where the index goes when so many bytes of new slices stand at a place behind the old ones.
pub fn index_offset(location: ShardingIndexLocation, write_offset: u64, total: u64) -> u64
    requires { write_offset + total < 2 ^ 64 }
    ensures { result ≡ index_after location write_offset total }
{
    match location {
        ShardingIndexLocation::Start => 0,
        ShardingIndexLocation::End => write_offset + total,
    }
}
