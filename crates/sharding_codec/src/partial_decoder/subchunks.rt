// Subchunks of a shard that is read in part, by their coordinates in the grid.
ghost use Rattle.std.specs.Prelude.{IfOk, IfErr, OnOk};
ghost use Rattle.parts_errors.specs.Order.{done, RefusedBy};
ghost use Rattle.parts_row_major.specs.Numbering.{number_of, IsInside};
ghost use Rattle.parts_subsets.specs.Grid.{grid_of};
ghost use Rattle.std.specs.Cow.{cow_slice_items};
ghost use Rattle.storage_handles.specs.Handles.{IsCounted, seen};
ghost use Rattle.storage_handles.specs.Objects.{ObjectRefusals};
ghost use Rattle.sharding_open.specs.Slices.{cached_slot, IsRangeOf, IsSliceRead, SlotRefusals};
ghost use Rattle.sharding_codec.specs.Decoders.{index_in, IsOpen, Unmoved};

use super::ShardingPartialDecoder;
use crate::codec::ShardingCodec;
use codec_traits::ArrayToBytesCodecTraits;
use parts_errors::CodecError;
use sharding_open::byte_range;
use std::alloc::Global;
use std::borrow::CowSlice;
use storage_handles::{ByteRange, BytesPartialDecoderTraits, copy_range};

impl<
    'a,
    I: ArrayToBytesCodecTraits,
    X: ArrayToBytesCodecTraits,
    H: BytesPartialDecoderTraits,
> ShardingPartialDecoder<'a, I, X, H> {
    /// The range of the bytes of a subchunk, by its coordinate in the grid of subchunks and by the cached index; `None` where
    /// it is absent, and so where there is no object. Refused, in this order, as `IncompatibleDimensionality`, as
    /// `OutOfBounds`, and as `BadIndexEntry` with the subchunk's number. Takes no memory.
    pub fn subchunk_byte_range(&self, subchunk: &[u64]) -> Result<Option<ByteRange>, CodecError>
        ensures inside { OnOk result (IsInside subchunk.now (grid_of self.now.array_spec.shape self.now.codec.subchunk_shape)) }
        ensures range { let grid = grid_of self.now.array_spec.shape self.now.codec.subchunk_shape in
            IfOk result (IsRangeOf (cached_slot self.now.len self.now.index (number_of subchunk.now grid))) }
        ensures refused { let grid = grid_of self.now.array_spec.shape self.now.codec.subchunk_shape in
            IfErr result (SlotRefusals grid subchunk.now (cached_slot self.now.len self.now.index (number_of subchunk.now grid)) done) }
        ensures is_open { IsOpen ⟦<ShardingCodec<I, X> as ArrayToBytesCodecTraits>⟧.meaning (index_in X.meaning) H.state self.now }
    {
        byte_range(&self.shard, subchunk)
    }

    /// The bytes of a subchunk as they are stored, by its coordinate in the grid of subchunks and by the cached index; `None`
    /// where it is absent, and so where there is no object. Refused, in this order, as `IncompatibleDimensionality`, as
    /// `OutOfBounds`, and as `BadIndexEntry` with the subchunk's number; or as `Fault`, where the handle failed, or
    /// `OutOfMemory`.
    pub fn retrieve_subchunk_encoded(
        &mut self,
        alloc: Global,
        subchunk: &[u64],
    ) -> Result<Option<CowSlice<'static, u8>>, CodecError>
        ensures unmoved { Unmoved H.state self.old self.new }
        ensures is_open { IsOpen ⟦<ShardingCodec<I, X> as ArrayToBytesCodecTraits>⟧.meaning (index_in X.meaning) H.state self.new }
        ensures inside { OnOk result (IsInside subchunk.now (grid_of self.old.array_spec.shape self.old.codec.subchunk_shape)) }
        ensures slice { let grid = grid_of self.old.array_spec.shape self.old.codec.subchunk_shape in
            IfOk result (λ o. IsSliceRead (cached_slot self.old.len self.old.index (number_of subchunk.now grid)) (H.state self.old.handle)
            (seen (λ bytes. cow_slice_items bytes) o)) }
        ensures fault { IfErr result (IsCounted (H.state self.old.handle) (H.state self.new.handle)) }
        ensures refused { let grid = grid_of self.old.array_spec.shape self.old.codec.subchunk_shape in
            IfErr result (RefusedBy (SlotRefusals grid subchunk.now (cached_slot self.old.len self.old.index (number_of subchunk.now grid)) (
            ObjectRefusals (H.state self.old.handle) (H.state self.new.handle) done))) }
    {
        let range = byte_range(&self.shard, subchunk)?;
        let Some(range) = range else {
            return Ok(None);
        };
        match copy_range(&mut self.handle, alloc, range)? {
            Some(bytes) => Ok(Some(CowSlice::Owned(bytes))),
            None => Ok(None),
        }
    }
}
