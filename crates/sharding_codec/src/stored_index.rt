// The index of a shard that is read through a handle, for callers.
ghost use Rattle.std.specs.Prelude.{◌≡◌, ◌*◌, IsTrue, Some, IfOk, IfErr, OnOk, length};
ghost use Rattle.parts_errors.specs.Order.{done, RefusedBy};
ghost use Rattle.parts_row_major.specs.Numbering.{count_of};
ghost use Rattle.parts_subsets.specs.Grid.{grid_of};
ghost use Rattle.storage_handles.specs.Handles.{IsRead, IsCounted};
ghost use Rattle.storage_handles.specs.Objects.{interval_part, HasInterval, ObjectRefusals, IntervalRefusals};
ghost use Rattle.sharding_format.specs.Index.{index_spec, numbers_in_index};
ghost use Rattle.sharding_format.specs.Serves.{fixed_size, HasPlan, PlanRefusals};
ghost use Rattle.sharding_format.specs.DecodeRefusals.{IndexRefusals};

use crate::codec::ShardingCodec;
use codec_traits::ArrayToBytesCodecTraits;
use parts_errors::{CodecError, CodecOptions};
use parts_subsets::ChunkShape;
use sharding_format::ShardIndex;
use sharding_index::{IndexCodec, Plan};
use std::alloc::Global;
use storage_handles::{BytesPartialDecoderTraits, Interval};

impl<I, X: ArrayToBytesCodecTraits> ShardingCodec<I, X> {
    /// The index of the shard that stands in an interval of an object: its numbers are those of `decode_index`, and its length is the
    /// interval's (Zarr V3 codec `sharding_indexed`, "Binary shard format"). Only the index is read. If the index codec stores numbers
    /// as they are, a long index is read in pieces, and is in memory once. Refused, in this order, as `compact` refuses the shape and
    /// the index codec, as `OutOfBounds` where no object has the interval, as `ShardTooShort`, and as `Damaged` where the index does not
    /// decode; or as `Fault`, where the handle failed, or `OutOfMemory`.
    pub fn read_index<H: BytesPartialDecoderTraits>(
        &self,
        alloc: Global,
        handle: &mut H,
        interval: Interval,
        shape: &ChunkShape,
        options: &CodecOptions,
    ) -> Result<ShardIndex, CodecError>
        ensures read { IsRead (H.state handle.old) (H.state handle.new) }
        ensures served { let s = self.now in
            OnOk result (HasPlan (X.meaning s.index_codec (index_spec (grid_of shape.now s.subchunk_shape))) shape.now s.subchunk_shape 0) }
        ensures inside { OnOk result (IsTrue (H.state handle.old).transparent → HasInterval interval (H.state handle.old).contents) }
        ensures len { IfOk result (λ index. index.len ≡ interval.size) }
        ensures counted { IfOk result (λ index. length index.numbers.items ≡ 2 * count_of (grid_of shape.now self.now.subchunk_shape)) }
        ensures numbers { let s = self.now in let index = X.meaning s.index_codec (index_spec (grid_of shape.now s.subchunk_shape)) in
            IfOk result (λ found. IsTrue (H.state handle.old).transparent
            → numbers_in_index index.cells s.location (fixed_size index.representation) (interval_part interval (H.state handle.old).contents) ≡ Some found.numbers.items) }
        ensures fault { IfErr result (IsCounted (H.state handle.old) (H.state handle.new)) }
        ensures refused { let s = self.now in let index = X.meaning s.index_codec (index_spec (grid_of shape.now s.subchunk_shape)) in
            IfErr result (RefusedBy (PlanRefusals index shape.now s.subchunk_shape 0 (ObjectRefusals (H.state handle.old) (H.state handle.new) (
            IntervalRefusals interval (H.state handle.old).contents (λ bytes.
            IndexRefusals index.decode_refusals index.cells s.location (fixed_size index.representation) bytes done))))) }
    {
        let index_codec = IndexCodec {
            codec: &self.index_codec,
            location: self.location,
        };
        let plan = Plan::new(alloc, &index_codec, shape, &self.subchunk_shape, 0)?;
        let index = sharding_index::read_index(
            alloc,
            &index_codec,
            handle,
            interval,
            &plan.index,
            options,
        )?;
        Ok(index)
    }
}
