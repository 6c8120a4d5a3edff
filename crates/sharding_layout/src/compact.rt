// The compaction of a shard.
ghost use Rattle.std.specs.Prelude.{◌≡◌, ◌<◌, ◌/◌, ℕ, IfOk, IfErr, IfSome, IfNone, OnOk, length};
ghost use Rattle.parts_errors.specs.Order.{RefusedBy};
ghost use Rattle.parts_row_major.specs.Numbering.{AllPositive};
ghost use Rattle.parts_subsets.specs.Grid.{grid_of};
ghost use Rattle.sharding_format.specs.Compacting.{IsGood, IsCompact, IsCompacted, CompactRefusals};
ghost use Rattle.sharding_format.specs.Index.{slot_at};
ghost use Rattle.sharding_format.specs.Serves.{HasPlan};
ghost use Rattle.sharding_index.specs.Indexes.{index_meaning};
ghost use Rattle.sharding_layout.specs.Layouts.{OfEachLayout};
ghost use Rattle.sharding_layout.specs.CompactionPlans.{executed};

use crate::packing::push_slices;
use crate::plan::{CompactionPlan, plan_compaction};
use codec_traits::ArrayToBytesCodecTraits;
use parts_errors::{CodecError, CodecOptions};
use parts_subsets::ChunkShape;
use sharding_format::ShardingIndexLocation;
use sharding_index::IndexCodec;
use std::alloc::{AllocError, Global};

// The shard that a plan makes of the shard that it was made for.
fn execute(alloc: Global, plan: &CompactionPlan, bytes: &[u8]) -> Result<Vec<u8>, AllocError>
    requires whole { length bytes.now ≡ plan.now.old_index.len }
    requires good { let old = plan.now.old_index in
        (k : ℕ) → k < length old.numbers.items / 2 → IsGood (slot_at (length bytes.now) old.numbers.items k) }
    ensures { IfOk result (λ shard. shard.items ≡ executed plan.now bytes.now) }
{
    let (numbers, new_index) = plan.parts();
    let mut shard = Vec::with_capacity(alloc, plan.len() as usize)?;
    let is_first = plan.index_location() == ShardingIndexLocation::Start;
    if is_first {
        shard.extend_from_slice(new_index)?;
    }
    push_slices(bytes, numbers, &mut shard)?;
    if !is_first {
        shard.extend_from_slice(new_index)?;
    }
    Ok(shard)
}

/// The index and the present slices of a shard, ascending and without gaps, or nothing where that has as many bytes. Refused, in this
/// order, as `Plan::new` refuses the shape, as `ShardTooShort`, as `Damaged` where the index does not decode, as `BadIndexEntry` for
/// the lowest bad entry, as `TooLarge` where no shard can have as many bytes, and as the index codec refuses; or as `OutOfMemory`.
pub fn compacted<X: ArrayToBytesCodecTraits>(
    alloc: Global,
    index_codec: &IndexCodec<'_, X>,
    bytes: &[u8],
    shape: &ChunkShape,
    subchunk_shape: &ChunkShape,
    options: &CodecOptions,
) -> Result<Option<Vec<u8>>, CodecError>
    ensures positive { AllPositive shape.now }
    ensures served { let index = index_meaning X.meaning index_codec.now.codec.now (grid_of shape.now subchunk_shape.now) in
        OnOk result (HasPlan index shape.now subchunk_shape.now 0) }
    ensures compacted { let index = index_meaning X.meaning index_codec.now.codec.now (grid_of shape.now subchunk_shape.now) in
        OfEachLayout shape.now subchunk_shape.now index_codec.now.location index (λ l.
        IfOk result (λ answer. IfSome answer (λ new. IsCompacted index l bytes.now new.items))) }
    ensures kept { let index = index_meaning X.meaning index_codec.now.codec.now (grid_of shape.now subchunk_shape.now) in
        OfEachLayout shape.now subchunk_shape.now index_codec.now.location index (λ l.
        IfOk result (λ answer. IfNone answer (IsCompact index.cells l bytes.now))) }
    ensures refused { let index = index_meaning X.meaning index_codec.now.codec.now (grid_of shape.now subchunk_shape.now) in
        OfEachLayout shape.now subchunk_shape.now index_codec.now.location index (λ l.
        IfErr result (RefusedBy (CompactRefusals index l bytes.now))) }
{
    let len = bytes.len() as u64;
    match plan_compaction(
        alloc,
        index_codec,
        bytes,
        len,
        shape,
        subchunk_shape,
        options,
    )? {
        Some(plan) => Ok(Some(execute(alloc, &plan, bytes)?)),
        None => Ok(None),
    }
}
