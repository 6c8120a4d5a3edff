// Reads of some cells of a shard that is open, into a target at whose subset nobody looks where the read is refused.
ghost use Rattle.std.specs.Prelude.{◌≡◌, IsTrue, IfOk, IfErr, OnOk, length};
ghost use Rattle.std.specs.List.{All};
ghost use Rattle.parts_errors.specs.Order.{done, RefusedBy};
ghost use Rattle.parts_row_major.specs.Numbering.{count_of, IsInside};
ghost use Rattle.parts_arrays.specs.Types.{size_of};
ghost use Rattle.parts_arrays.specs.Targets.{target_element_size, target_subset, TargetRefusals};
ghost use Rattle.parts_arrays.specs.declared.data_type.DataTypeSize.TheVariants.{Fixed};
ghost use Rattle.parts_subsets.specs.Selections.{IsSelectionOf};
ghost use Rattle.storage_handles.specs.Handles.{IsRead, IsCounted};
ghost use Rattle.storage_handles.specs.Objects.{ObjectRefusals};
ghost use Rattle.codec_traits.specs.Reads.{cells_at, IsDecodedInto, IsOverwritten, RequestRefusals};
ghost use Rattle.sharding_engine.specs.Meanings.{shard_layout, inner_of, index_of, meaning_of};
ghost use Rattle.sharding_open.specs.Cached.{object_cells, CachedCellsRefusals};
ghost use Rattle.sharding_open.specs.OpenShards.{shard_spec, numbers_by, IsKnown};

use crate::reads::stored;
use crate::shard::OpenShard;
use codec_traits::{ArrayToBytesCodecTraits, check_target};
use parts_arrays::FixedTarget;
use parts_errors::{CodecError, CodecOptions};
use parts_subsets::Indexer;
use sharding_engine::Sharding;
use sharding_gather::check_requested;
use sharding_subchunks::{StoredShard, Subchunks};
use std::alloc::Global;
use storage_handles::{BytesPartialDecoderTraits, Interval};

impl OpenShard {
    // Reads the cells that an indexer requests into a target, by the cached index, as `StoredShard::put_plain_requested`. False also without
    // an object. Whatever it answers, some elements of the target's subset may have changed, and no other.
    fn put_plain<
        I: ArrayToBytesCodecTraits,
        X: ArrayToBytesCodecTraits,
        H: BytesPartialDecoderTraits,
        N: Indexer,
    >(
        &self,
        sharding: &Sharding<'_, I, X>,
        alloc: Global,
        handle: &mut H,
        indexer: &N,
        target: &mut FixedTarget,
        options: &CodecOptions,
    ) -> Result<bool, CodecError>
        requires known { let s = sharding.now in
            IsKnown (meaning_of I.meaning X.meaning s) (numbers_by X.meaning s) s.subchunk_shape.now H.state handle.old self.now }
        requires selection { IsSelectionOf self.now.shape (N.selection indexer.now) }
        requires points { All (λ point. IsInside point self.now.shape) (N.selection indexer.now).points }
        requires kind { size_of self.now.data_type ≡ Fixed (target_element_size target.old) }
        ensures read { IsRead (H.state handle.old) (H.state handle.new) }
        ensures written { IsOverwritten target.old target.new }
        ensures cells { let g = shard_spec self.now in let shard = meaning_of I.meaning X.meaning sharding.now g in
            IfOk result (λ put. IsTrue put → IsTrue (H.state handle.old).transparent
            → IsDecodedInto target.old target.new (cells_at (object_cells shard.cells g (H.state handle.old).contents) g.shape (N.selection indexer.now).points)) }
        ensures fault { IfErr result (IsCounted (H.state handle.old) (H.state handle.new)) }
        ensures refused { IfErr result (RefusedBy (ObjectRefusals (H.state handle.old) (H.state handle.new) done)) }
    {
        let Some(index) = &self.cached else {
            return Ok(false);
        };
        let shard = stored!(self, sharding, index, options);
        let put = shard.put_plain_requested(alloc, handle, indexer, target)?;
        Ok(put)
    }
}

/// Reads the cells that an indexer requests into a target, as `read_indexer_into`, except that after a refusal the target's subset has
/// unspecified elements; nothing outside the subset changes. Where the inner codec stores elements as they are in memory, a subset goes
/// from the slices to the target with no copy between. Refused as `read_indexer_into`.
pub fn read_indexer_into_fresh<
    I: ArrayToBytesCodecTraits,
    X: ArrayToBytesCodecTraits,
    H: BytesPartialDecoderTraits,
    N: Indexer,
>(
    shard: &OpenShard,
    sharding: &Sharding<'_, I, X>,
    alloc: Global,
    handle: &mut H,
    indexer: &N,
    target: &mut FixedTarget,
    options: &CodecOptions,
) -> Result<(), CodecError>
    requires known { let s = sharding.now in
        IsKnown (meaning_of I.meaning X.meaning s) (numbers_by X.meaning s) s.subchunk_shape.now H.state handle.old shard.now }
    ensures read { IsRead (H.state handle.old) (H.state handle.new) }
    ensures kind { OnOk result (size_of shard.now.data_type ≡ Fixed (target_element_size target.old)) }
    ensures counted { OnOk result (count_of (target_subset target.old).shape ≡ length (N.selection indexer.now).points) }
    ensures selected { OnOk result (IsSelectionOf shard.now.shape (N.selection indexer.now)) }
    ensures answerable { OnOk result ((meaning_of I.meaning X.meaning sharding.now (shard_spec shard.now)).answerable (length (N.selection indexer.now).points)) }
    ensures written { IsOverwritten target.old target.new }
    ensures cells { let g = shard_spec shard.now in let meant = meaning_of I.meaning X.meaning sharding.now g in
        OnOk result (IsTrue (H.state handle.old).transparent
        → IsDecodedInto target.old target.new (cells_at (object_cells meant.cells g (H.state handle.old).contents) g.shape (N.selection indexer.now).points)) }
    ensures fault { IfErr result (IsCounted (H.state handle.old) (H.state handle.new)) }
    ensures refused { let s = sharding.now in let g = shard_spec shard.now in let index = index_of X.meaning s g in
        IfErr result (RefusedBy (TargetRefusals (size_of g.data_type) (length (N.selection indexer.now).points) target.old (
        RequestRefusals g (N.selection indexer.now) (meaning_of I.meaning X.meaning s g).answerable (
        ObjectRefusals (H.state handle.old) (H.state handle.new) (
        CachedCellsRefusals (inner_of I.meaning s g) index (shard_layout s index g) (H.state handle.old).contents (N.selection indexer.now).points))))) }
{
    check_target(target, indexer.len(), &shard.data_type)?;
    let count = check_requested(indexer, &shard.shape, &shard.data_type)?;
    if shard.put_plain(sharding, alloc, handle, indexer, target, options)? {
        return Ok(());
    }
    let array = shard.read(sharding, alloc, handle, count, indexer, options)?;
    target.copy_from(&array)
}
