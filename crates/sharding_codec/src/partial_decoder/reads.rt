// Reads of some cells of a shard that is open.
ghost use Rattle.std.specs.Prelude.{◌≡◌, ℕ, List, [], IsTrue, Some, IfOk, IfErr, OnOk, OnErr, map, length, slice_index_or};
ghost use Rattle.parts_errors.specs.Order.{RefusedBy};
ghost use Rattle.parts_row_major.specs.Numbering.{count_of};
ghost use Rattle.parts_arrays.specs.Types.{size_of};
ghost use Rattle.parts_subsets.specs.Selections.{IsSelectionOf};
ghost use Rattle.parts_arrays.specs.Targets.{IsWritten, TargetRefusals};
ghost use Rattle.parts_arrays.specs.declared.data_type.DataTypeSize.TheVariants.{Fixed};
ghost use Rattle.storage_handles.specs.Handles.{IsCounted};
ghost use Rattle.codec_traits.specs.Reads.{cells_at, IsAnswer, IsDecodedInto, IsOverwritten, RequestRefusals};
ghost use Rattle.storage_handles.specs.Objects.{ObjectRefusals};
ghost use Rattle.sharding_open.specs.Cached.{object_cells};
ghost use Rattle.sharding_codec.specs.Decoders.{index_in, IsOpen, Unmoved, ObjectCellsRefusals};

use super::ShardingPartialDecoder;
use crate::codec::{ShardingCodec, borrowed};
use codec_traits::ArrayToBytesCodecTraits;
use parts_arrays::{ArrayBytes, FixedTarget};
use parts_errors::{CodecError, CodecOptions};
use parts_subsets::Indexer;
use sharding_open::{read_indexer, read_indexer_into, read_indexer_into_fresh};
use std::alloc::Global;
use storage_handles::BytesPartialDecoderTraits;

impl<
    'a,
    I: ArrayToBytesCodecTraits,
    X: ArrayToBytesCodecTraits,
    H: BytesPartialDecoderTraits,
> ShardingPartialDecoder<'a, I, X, H> {
    /// Reads the cells that an indexer requests, in its order; duplicates are kept. Of each subchunk in which cells are asked, these
    /// cells are read; the others are not looked at, and nor is the index. Refused, in this order, as
    /// `IncompatibleDimensionality`, as `OutOfBounds` (also without an object), as `TooLarge` (the count of cells or, where
    /// they have one size, their bytes), as the lowest refused subchunk is (`BadIndexEntry` with its number, `Damaged`,
    /// `TooLarge`), and as `TooLarge` where the lengths of the requested cells pass `usize::MAX`; or as `Fault`,
    /// where the handle failed, or `OutOfMemory`.
    pub fn partial_decode<N: Indexer>(
        &mut self,
        alloc: Global,
        indexer: &N,
        options: &CodecOptions,
    ) -> Result<ArrayBytes<'static>, CodecError>
        ensures unmoved { Unmoved H.state self.old self.new }
        ensures is_open { IsOpen ⟦<ShardingCodec<I, X> as ArrayToBytesCodecTraits>⟧.meaning (index_in X.meaning) H.state self.new }
        ensures answer { IfOk result (IsAnswer self.old.array_spec (N.selection indexer.now)) }
        ensures answerable { OnOk result ((⟦<ShardingCodec<I, X> as ArrayToBytesCodecTraits>⟧.meaning self.old.codec self.old.array_spec).answerable (length (N.selection indexer.now).points)) }
        ensures cells { let codec = ⟦<ShardingCodec<I, X> as ArrayToBytesCodecTraits>⟧ in let s = self.old.codec in let g = self.old.array_spec in
            IfOk result (λ array. IsTrue (H.state self.old.handle).transparent
            → cells_at (object_cells (codec.meaning s g).cells g (H.state self.old.handle).contents) g.shape (N.selection indexer.now).points ≡ map Some array.elements) }
        ensures fault { IfErr result (IsCounted (H.state self.old.handle) (H.state self.new.handle)) }
        ensures refused { let codec = ⟦<ShardingCodec<I, X> as ArrayToBytesCodecTraits>⟧ in let s = self.old.codec in let g = self.old.array_spec in
            IfErr result (RefusedBy (RequestRefusals g (N.selection indexer.now) (codec.meaning s g).answerable (
            ObjectRefusals (H.state self.old.handle) (H.state self.new.handle) (
            ObjectCellsRefusals I.meaning X.meaning s g (H.state self.old.handle).contents (N.selection indexer.now).points)))) }
    {
        read_indexer(
            &self.shard,
            &borrowed!(self.codec),
            alloc,
            &mut self.handle,
            indexer,
            options,
        )
    }

    /// Reads the cells that an indexer requests into a target: in the indexer's order they go to the target's subset, in row-major
    /// order of this. A refusal leaves the target. Refused, in this order, as `WrongElementKind` (a type of another element
    /// size or of none), as `InvalidNumberOfElements` (another number of elements in the target's subset), then as
    /// `partial_decode`.
    pub fn partial_decode_into<N: Indexer>(
        &mut self,
        alloc: Global,
        indexer: &N,
        target: &mut FixedTarget,
        options: &CodecOptions,
    ) -> Result<(), CodecError>
        ensures unmoved { Unmoved H.state self.old self.new }
        ensures is_open { IsOpen ⟦<ShardingCodec<I, X> as ArrayToBytesCodecTraits>⟧.meaning (index_in X.meaning) H.state self.new }
        ensures kind { OnOk result (size_of self.old.array_spec.data_type ≡ Fixed target.old.element_size) }
        ensures counted { OnOk result (count_of target.old.subset.now.shape ≡ length (N.selection indexer.now).points) }
        ensures selected { OnOk result (IsSelectionOf self.old.array_spec.shape (N.selection indexer.now)) }
        ensures answerable { OnOk result ((⟦<ShardingCodec<I, X> as ArrayToBytesCodecTraits>⟧.meaning self.old.codec self.old.array_spec).answerable (length (N.selection indexer.now).points)) }
        ensures written { OnOk result ((elements : List (List ℕ)) × IsWritten target.old target.new (λ k. slice_index_or elements k [])) }
        ensures cells { let codec = ⟦<ShardingCodec<I, X> as ArrayToBytesCodecTraits>⟧ in let s = self.old.codec in let g = self.old.array_spec in
            OnOk result (IsTrue (H.state self.old.handle).transparent
            → IsDecodedInto target.old target.new (cells_at (object_cells (codec.meaning s g).cells g (H.state self.old.handle).contents) g.shape (N.selection indexer.now).points)) }
        ensures kept { OnErr result (target.new ≡ target.old) }
        ensures fault { IfErr result (IsCounted (H.state self.old.handle) (H.state self.new.handle)) }
        ensures refused { let codec = ⟦<ShardingCodec<I, X> as ArrayToBytesCodecTraits>⟧ in let s = self.old.codec in let g = self.old.array_spec in
            IfErr result (RefusedBy (TargetRefusals (size_of g.data_type) (length (N.selection indexer.now).points) target.old (
            RequestRefusals g (N.selection indexer.now) (codec.meaning s g).answerable (
            ObjectRefusals (H.state self.old.handle) (H.state self.new.handle) (
            ObjectCellsRefusals I.meaning X.meaning s g (H.state self.old.handle).contents (N.selection indexer.now).points))))) }
    {
        read_indexer_into(
            &self.shard,
            &borrowed!(self.codec),
            alloc,
            &mut self.handle,
            indexer,
            target,
            options,
        )
    }

    /// Reads the cells that an indexer requests into a target, as `partial_decode_into`, except that after a refusal the target's subset
    /// has unspecified elements; nothing outside the subset changes. Where the inner codec stores elements as they are in memory, a subset
    /// goes from the slices to the target with no copy between. Refused as `partial_decode_into`.
    pub fn partial_decode_into_fresh<N: Indexer>(
        &mut self,
        alloc: Global,
        indexer: &N,
        target: &mut FixedTarget,
        options: &CodecOptions,
    ) -> Result<(), CodecError>
        ensures unmoved { Unmoved H.state self.old self.new }
        ensures is_open { IsOpen ⟦<ShardingCodec<I, X> as ArrayToBytesCodecTraits>⟧.meaning (index_in X.meaning) H.state self.new }
        ensures kind { OnOk result (size_of self.old.array_spec.data_type ≡ Fixed target.old.element_size) }
        ensures counted { OnOk result (count_of target.old.subset.now.shape ≡ length (N.selection indexer.now).points) }
        ensures selected { OnOk result (IsSelectionOf self.old.array_spec.shape (N.selection indexer.now)) }
        ensures answerable { OnOk result ((⟦<ShardingCodec<I, X> as ArrayToBytesCodecTraits>⟧.meaning self.old.codec self.old.array_spec).answerable (length (N.selection indexer.now).points)) }
        ensures written { IsOverwritten target.old target.new }
        ensures cells { let codec = ⟦<ShardingCodec<I, X> as ArrayToBytesCodecTraits>⟧ in let s = self.old.codec in let g = self.old.array_spec in
            OnOk result (IsTrue (H.state self.old.handle).transparent
            → IsDecodedInto target.old target.new (cells_at (object_cells (codec.meaning s g).cells g (H.state self.old.handle).contents) g.shape (N.selection indexer.now).points)) }
        ensures fault { IfErr result (IsCounted (H.state self.old.handle) (H.state self.new.handle)) }
        ensures refused { let codec = ⟦<ShardingCodec<I, X> as ArrayToBytesCodecTraits>⟧ in let s = self.old.codec in let g = self.old.array_spec in
            IfErr result (RefusedBy (TargetRefusals (size_of g.data_type) (length (N.selection indexer.now).points) target.old (
            RequestRefusals g (N.selection indexer.now) (codec.meaning s g).answerable (
            ObjectRefusals (H.state self.old.handle) (H.state self.new.handle) (
            ObjectCellsRefusals I.meaning X.meaning s g (H.state self.old.handle).contents (N.selection indexer.now).points))))) }
    {
        read_indexer_into_fresh(
            &self.shard,
            &borrowed!(self.codec),
            alloc,
            &mut self.handle,
            indexer,
            target,
            options,
        )
    }
}
