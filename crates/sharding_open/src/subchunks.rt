// Subchunks of a shard that is open, by their coordinates in the grid.
ghost use Rattle.std.specs.Prelude.{◌≡◌, ◌+◌, ◌^◌, ◌<◌, ◌*◌, IfOk, IfErr, IfSome, OnOk, length};
ghost use Rattle.parts_errors.specs.Order.{done};
ghost use Rattle.parts_row_major.specs.Numbering.{count_of, number_of, IsInside};
ghost use Rattle.sharding_format.specs.steps.Decoding.{FitsSlot};
ghost use Rattle.sharding_open.specs.Cached.{cached_len, cached_numbers};
ghost use Rattle.sharding_open.specs.Slices.{cached_slot, IsRangeOf, SlotRefusals};

use crate::shard::OpenShard;
use parts_errors::CodecError;
use parts_row_major::ravel_indices;
use sharding_format::{ShardIndex, Slot};
use storage_handles::ByteRange;

// What the cached index says of a subchunk. Without an object each is absent.
fn cached_slot(cached: &Option<ShardIndex>, number: u64) -> Slot
    requires { IfSome (cached_numbers cached.now) (λ numbers. 2 * number + 1 < length numbers) }
    ensures slot { result ≡ cached_slot (cached_len cached.now) (cached_numbers cached.now) number }
    ensures fits { FitsSlot (cached_len cached.now) result }
{
    match cached {
        Some(index) => index.slot(number as usize),
        None => Slot::Absent,
    }
}

/// The range of the bytes of a subchunk, by its coordinate in the grid; `None` where it is absent. Refused, in this order, as
/// `IncompatibleDimensionality`, as `OutOfBounds`, and as `BadIndexEntry` with the subchunk's number. Takes no memory.
pub fn byte_range(shard: &OpenShard, subchunk: &[u64]) -> Result<Option<ByteRange>, CodecError>
    requires counted { IfSome (cached_numbers shard.now.cached) (λ numbers. length numbers ≡ 2 * count_of shard.now.grid) }
    requires fits { count_of shard.now.grid < 2 ^ 64 }
    ensures axes { OnOk result (length subchunk.now ≡ length shard.now.grid) }
    ensures inside { OnOk result (IsInside subchunk.now shard.now.grid) }
    ensures range { let cached = shard.now.cached in
        IfOk result (IsRangeOf (cached_slot (cached_len cached) (cached_numbers cached) (number_of subchunk.now shard.now.grid))) }
    ensures fits { let cached = shard.now.cached in
        OnOk result (FitsSlot (cached_len cached) (cached_slot (cached_len cached) (cached_numbers cached) (number_of subchunk.now shard.now.grid))) }
    ensures refused { let cached = shard.now.cached in
        IfErr result (SlotRefusals shard.now.grid subchunk.now
        (cached_slot (cached_len cached) (cached_numbers cached) (number_of subchunk.now shard.now.grid)) done) }
{
    let grid = shard.grid.as_slice();
    if subchunk.len() != grid.len() {
        return Err(CodecError::IncompatibleDimensionality);
    }
    let Some(number) = ravel_indices(subchunk, grid) else {
        return Err(CodecError::OutOfBounds);
    };
    match cached_slot(&shard.cached, number) {
        Slot::Absent => Ok(None),
        Slot::InRange { offset, size } => Ok(Some(ByteRange::FromStart(offset, Some(size)))),
        Slot::Bad => Err(CodecError::BadIndexEntry { number }),
    }
}
