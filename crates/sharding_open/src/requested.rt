// Reads of some cells of a shard that is open, with the tests of what is asked.
ghost use Rattle.std.specs.Prelude.{◌≡◌, ℕ, List, [], IsTrue, Some, IfOk, IfErr, OnOk, OnErr, map, length, slice_index_or};
ghost use Rattle.parts_errors.specs.Order.{RefusedBy};
ghost use Rattle.parts_row_major.specs.Numbering.{count_of};
ghost use Rattle.parts_arrays.specs.Types.{size_of};
ghost use Rattle.parts_subsets.specs.Selections.{IsSelectionOf};
ghost use Rattle.parts_arrays.specs.Targets.{IsWritten, TargetRefusals};
ghost use Rattle.parts_arrays.specs.declared.data_type.DataTypeSize.TheVariants.{Fixed};
ghost use Rattle.storage_handles.specs.Handles.{IsRead, IsCounted};
ghost use Rattle.storage_handles.specs.Objects.{ObjectRefusals};
ghost use Rattle.codec_traits.specs.Reads.{cells_at, IsAnswer, IsDecodedInto, RequestRefusals};
ghost use Rattle.sharding_engine.specs.Meanings.{shard_layout, inner_of, index_of, meaning_of};
ghost use Rattle.sharding_open.specs.Cached.{object_cells, CachedCellsRefusals};
ghost use Rattle.sharding_open.specs.OpenShards.{shard_spec, numbers_by, IsKnown};

use crate::shard::OpenShard;
use codec_traits::{ArrayToBytesCodecTraits, check_target};
use parts_arrays::{ArrayBytes, FixedTarget};
use parts_errors::{CodecError, CodecOptions};
use parts_subsets::Indexer;
use sharding_engine::Sharding;
use sharding_gather::check_requested;
use std::alloc::Global;
use storage_handles::BytesPartialDecoderTraits;

/// The cells that an indexer requests, in its order, by the cached index. Without an object each is the fill value. Refused, in this
/// order, as `IncompatibleDimensionality`, as `OutOfBounds` (also without an object), as `TooLarge` (the count of cells or, where
/// they have one size, their bytes), as the lowest refused subchunk is in which cells are asked (`BadIndexEntry` with its
/// number, `Damaged`, `TooLarge`), and as `TooLarge` where the lengths of the requested cells pass `usize::MAX`; or as `Fault`,
/// where the handle failed, or `OutOfMemory`.
pub fn read_indexer<
    I: ArrayToBytesCodecTraits,
    X: ArrayToBytesCodecTraits,
    H: BytesPartialDecoderTraits,
    N: Indexer,
>(
    shard: &OpenShard,
    sharding: &Sharding<'_, I, X>,
    alloc: Global,
    handle: &mut H,
    indexer: &N,
    options: &CodecOptions,
) -> Result<ArrayBytes<'static>, CodecError>
    requires known { let s = sharding.now in
        IsKnown (meaning_of I.meaning X.meaning s) (numbers_by X.meaning s) s.subchunk_shape.now H.state handle.old shard.now }
    ensures read { IsRead (H.state handle.old) (H.state handle.new) }
    ensures answer { IfOk result (IsAnswer (shard_spec shard.now) (N.selection indexer.now)) }
    ensures answerable { OnOk result ((meaning_of I.meaning X.meaning sharding.now (shard_spec shard.now)).answerable (length (N.selection indexer.now).points)) }
    ensures cells { let g = shard_spec shard.now in let meant = meaning_of I.meaning X.meaning sharding.now g in
        IfOk result (λ array. IsTrue (H.state handle.old).transparent
        → cells_at (object_cells meant.cells g (H.state handle.old).contents) g.shape (N.selection indexer.now).points ≡ map Some array.elements) }
    ensures fault { IfErr result (IsCounted (H.state handle.old) (H.state handle.new)) }
    ensures refused { let s = sharding.now in let g = shard_spec shard.now in let index = index_of X.meaning s g in
        IfErr result (RefusedBy (RequestRefusals g (N.selection indexer.now) (meaning_of I.meaning X.meaning s g).answerable (
        ObjectRefusals (H.state handle.old) (H.state handle.new) (
        CachedCellsRefusals (inner_of I.meaning s g) index (shard_layout s index g) (H.state handle.old).contents (N.selection indexer.now).points)))) }
{
    let count = check_requested(indexer, &shard.shape, &shard.data_type)?;
    let array = shard.read(sharding, alloc, handle, count, indexer, options)?;
    Ok(array)
}

/// Reads the cells that an indexer requests into a target: in the indexer's order they go to the target's subset, in row-major
/// order of this. A refusal leaves the target. Refused, in this order, as `WrongElementKind` (a type of another element size or
/// of none), as `InvalidNumberOfElements` (another number of elements in the target's subset), then as `read_indexer`.
pub fn read_indexer_into<
    I: ArrayToBytesCodecTraits,
    X: ArrayToBytesCodecTraits,
    H: BytesPartialDecoderTraits,
    N: Indexer,
>(
    shard: &OpenShard,
    sharding: &Sharding<'_, I, X>,
    alloc: Global,
    handle: &mut H,
    indexer: &N,
    target: &mut FixedTarget,
    options: &CodecOptions,
) -> Result<(), CodecError>
    requires known { let s = sharding.now in
        IsKnown (meaning_of I.meaning X.meaning s) (numbers_by X.meaning s) s.subchunk_shape.now H.state handle.old shard.now }
    ensures read { IsRead (H.state handle.old) (H.state handle.new) }
    ensures kind { OnOk result (size_of shard.now.data_type ≡ Fixed target.old.element_size) }
    ensures counted { OnOk result (count_of target.old.subset.now.shape ≡ length (N.selection indexer.now).points) }
    ensures selected { OnOk result (IsSelectionOf shard.now.shape (N.selection indexer.now)) }
    ensures answerable { OnOk result ((meaning_of I.meaning X.meaning sharding.now (shard_spec shard.now)).answerable (length (N.selection indexer.now).points)) }
    ensures written { OnOk result ((elements : List (List ℕ)) × IsWritten target.old target.new (λ k. slice_index_or elements k [])) }
    ensures cells { let g = shard_spec shard.now in let meant = meaning_of I.meaning X.meaning sharding.now g in
        OnOk result (IsTrue (H.state handle.old).transparent
        → IsDecodedInto target.old target.new (cells_at (object_cells meant.cells g (H.state handle.old).contents) g.shape (N.selection indexer.now).points)) }
    ensures kept { OnErr result (target.new ≡ target.old) }
    ensures fault { IfErr result (IsCounted (H.state handle.old) (H.state handle.new)) }
    ensures refused { let s = sharding.now in let g = shard_spec shard.now in let index = index_of X.meaning s g in
        IfErr result (RefusedBy (TargetRefusals (size_of g.data_type) (length (N.selection indexer.now).points) target.old (
        RequestRefusals g (N.selection indexer.now) (meaning_of I.meaning X.meaning s g).answerable (
        ObjectRefusals (H.state handle.old) (H.state handle.new) (
        CachedCellsRefusals (inner_of I.meaning s g) index (shard_layout s index g) (H.state handle.old).contents (N.selection indexer.now).points))))) }
{
    check_target(target, indexer.len(), &shard.data_type)?;
    let array = read_indexer(shard, sharding, alloc, handle, indexer, options)?;
    target.copy_from(&array)
}
