// The compaction of a shard that need not be in memory, for callers.
ghost use Rattle.std.specs.Prelude.{◌≡◌, ◌≤◌, ◌+◌, ◌*◌, ℕ, List, IfOk, IfErr, IfSome, IfNone, OnOk, length};
ghost use Rattle.parts_errors.specs.Order.{◌or◌then◌, done, RefusedBy};
ghost use Rattle.parts_errors.specs.declared.error.CodecError.TheVariants.{ShardTooShort};
ghost use Rattle.parts_row_major.specs.Numbering.{count_of};
ghost use Rattle.parts_subsets.specs.Grid.{grid_of};
ghost use Rattle.storage_handles.specs.Objects.{interval_part};
ghost use Rattle.sharding_format.specs.Index.{index_spec, index_part, slice_at};
ghost use Rattle.sharding_format.specs.Serves.{fixed_size, HasPlan, PlanRefusals};
ghost use Rattle.sharding_format.specs.Compacting.{IsCompact, IsCompacted, CompactRefusals};
ghost use Rattle.sharding_layout.specs.CompactionPlans.{executed, IsPlanFor, PlannedRefusals, NumberedRefusals, HasGoodEntries, HasGoodIndex, OfEachObject, OfEachNumbered};
ghost use Rattle.sharding_layout.specs.Layouts.{OfEachLayout};

use crate::codec::ShardingCodec;
use codec_traits::ArrayToBytesCodecTraits;
use parts_errors::{CodecError, CodecOptions};
use parts_subsets::ChunkShape;
use sharding_format::{ShardIndex, ShardingIndexLocation};
use sharding_index::{IndexCodec, Plan};
use sharding_layout::CompactionPlan;
use std::alloc::Global;
use storage_handles::Interval;

impl<I, X: ArrayToBytesCodecTraits> ShardingCodec<I, X> {
    /// Which bytes of a shard of this length are its index (Zarr V3 codec `sharding_indexed`, "Binary shard format"). Refused, in this
    /// order, as `compact` refuses the shape and the index codec, and as `ShardTooShort` where the index is longer than the shard;
    /// or as `OutOfMemory`.
    pub fn index_interval(
        &self,
        alloc: Global,
        len: u64,
        shape: &ChunkShape,
    ) -> Result<Interval, CodecError>
        ensures served { let s = self.now in
            OnOk result (HasPlan (X.meaning s.index_codec (index_spec (grid_of shape.now s.subchunk_shape))) shape.now s.subchunk_shape 0) }
        ensures size { let s = self.now in
            IfOk result (λ interval. interval.size ≡ fixed_size (X.meaning s.index_codec (index_spec (grid_of shape.now s.subchunk_shape))).representation) }
        ensures inside { IfOk result (λ interval. interval.offset + interval.size ≤ len) }
        ensures index { IfOk result (λ interval. (object : List ℕ) → length object ≡ len
            → slice_at interval.offset interval.size object ≡ index_part self.now.location interval.size object) }
        ensures refused { let s = self.now in let index = X.meaning s.index_codec (index_spec (grid_of shape.now s.subchunk_shape)) in
            IfErr result (RefusedBy (PlanRefusals index shape.now s.subchunk_shape 0 (
            fixed_size index.representation ≤ len or ShardTooShort then
            done))) }
    {
        let index_codec = IndexCodec {
            codec: &self.index_codec,
            location: self.location,
        };
        let plan = Plan::new(alloc, &index_codec, shape, &self.subchunk_shape, 0)?;
        let size = plan.index.size;
        if len < size {
            return Err(CodecError::ShardTooShort);
        }
        let offset = match self.location {
            ShardingIndexLocation::Start => 0,
            ShardingIndexLocation::End => len - size,
        };
        Ok(Interval { offset, size })
    }

    /// The plan of what `compact` answers for a shard of this length, by the bytes of its index alone (or by bytes that begin or end
    /// with these, as the shard does): a new index, and which slices of the shard follow one another beside it, ascending. `None`
    /// exactly where `compact` answers `None`. Refused, in this order, as `compact`; as `ShardTooShort` also where `index` has fewer
    /// bytes than an index. The other bytes of the shard are not needed.
    pub fn plan_compaction(
        &self,
        alloc: Global,
        index: &[u8],
        len: u64,
        shape: &ChunkShape,
        options: &CodecOptions,
    ) -> Result<Option<CompactionPlan>, CodecError>
        ensures served { let s = self.now in
            OnOk result (HasPlan (X.meaning s.index_codec (index_spec (grid_of shape.now s.subchunk_shape))) shape.now s.subchunk_shape 0) }
        ensures planned { let s = self.now in let meaning = X.meaning s.index_codec (index_spec (grid_of shape.now s.subchunk_shape)) in
            OfEachObject shape.now s.subchunk_shape s.location meaning index.now len (λ l object.
            IfOk result (λ answer. IfSome answer (λ plan. IsPlanFor l len plan × IsCompacted meaning l object (executed plan object)
            × (length (executed plan object) ≡ plan.len)))) }
        ensures kept { let s = self.now in let meaning = X.meaning s.index_codec (index_spec (grid_of shape.now s.subchunk_shape)) in
            OfEachObject shape.now s.subchunk_shape s.location meaning index.now len (λ l object.
            IfOk result (λ answer. IfNone answer (IsCompact meaning.cells l object))) }
        ensures refused { let s = self.now in let meaning = X.meaning s.index_codec (index_spec (grid_of shape.now s.subchunk_shape)) in
            OfEachObject shape.now s.subchunk_shape s.location meaning index.now len (λ l object.
            IfErr result (RefusedBy (CompactRefusals meaning l object))) }
        ensures passed { let s = self.now in let meaning = X.meaning s.index_codec (index_spec (grid_of shape.now s.subchunk_shape)) in
            OfEachLayout shape.now s.subchunk_shape s.location meaning (λ l.
            OnOk result (HasGoodIndex meaning.cells l index.now len)) }
        ensures tested { let s = self.now in let meaning = X.meaning s.index_codec (index_spec (grid_of shape.now s.subchunk_shape)) in
            OfEachLayout shape.now s.subchunk_shape s.location meaning (λ l.
            IfErr result (RefusedBy (PlannedRefusals meaning l index.now len))) }
    {
        let index_codec = IndexCodec {
            codec: &self.index_codec,
            location: self.location,
        };
        sharding_layout::plan_compaction(
            alloc,
            &index_codec,
            index,
            len,
            shape,
            &self.subchunk_shape,
            options,
        )
    }

    /// The plan of what `compact` answers for a shard whose index was read, as by `read_index`: that of `plan_compaction` by the bytes
    /// of this index. The plan takes the index over, so that it is in memory once. Refused, in this order, as `compact` refuses the
    /// shape and the index codec, as `ShardTooShort` where the shard has fewer bytes than an index, as `BadIndexEntry` with the lowest
    /// bad entry, as `TooLarge` where the compacted shard would reach `usize::MAX` bytes, and as the index codec refuses; or as
    /// `OutOfMemory`.
    pub fn plan_compaction_of_index(
        &self,
        alloc: Global,
        index: ShardIndex,
        shape: &ChunkShape,
        options: &CodecOptions,
    ) -> Result<Option<CompactionPlan>, CodecError>
        requires { let s = self.now in length index.numbers.items ≡ 2 * count_of (grid_of shape.now s.subchunk_shape) }
        ensures served { let s = self.now in
            OnOk result (HasPlan (X.meaning s.index_codec (index_spec (grid_of shape.now s.subchunk_shape))) shape.now s.subchunk_shape 0) }
        ensures planned { let s = self.now in let meaning = X.meaning s.index_codec (index_spec (grid_of shape.now s.subchunk_shape)) in
            OfEachNumbered shape.now s.subchunk_shape s.location meaning index.numbers.items index.len (λ l object.
            IfOk result (λ answer. IfSome answer (λ plan. IsPlanFor l index.len plan × IsCompacted meaning l object (executed plan object)
            × (length (executed plan object) ≡ plan.len)))) }
        ensures kept { let s = self.now in let meaning = X.meaning s.index_codec (index_spec (grid_of shape.now s.subchunk_shape)) in
            OfEachNumbered shape.now s.subchunk_shape s.location meaning index.numbers.items index.len (λ l object.
            IfOk result (λ answer. IfNone answer (IsCompact meaning.cells l object))) }
        ensures passed { let s = self.now in let meaning = X.meaning s.index_codec (index_spec (grid_of shape.now s.subchunk_shape)) in
            OfEachLayout shape.now s.subchunk_shape s.location meaning (λ l.
            OnOk result (HasGoodEntries l index.numbers.items index.len)) }
        ensures refused { let s = self.now in let meaning = X.meaning s.index_codec (index_spec (grid_of shape.now s.subchunk_shape)) in
            OfEachLayout shape.now s.subchunk_shape s.location meaning (λ l.
            IfErr result (RefusedBy (NumberedRefusals meaning l index.numbers.items index.len))) }
    {
        let index_codec = IndexCodec {
            codec: &self.index_codec,
            location: self.location,
        };
        sharding_layout::plan_compaction_of_index(
            alloc,
            &index_codec,
            index,
            shape,
            &self.subchunk_shape,
            options,
        )
    }
}
