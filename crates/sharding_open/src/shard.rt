// A shard that is open.
ghost use Rattle.std.specs.Prelude.{◌≡◌, ◌≤◌, IfOk, IfErr, IfSome};
ghost use Rattle.parts_errors.specs.Order.{◌or_as◌then◌, done, RefusedBy};
ghost use Rattle.parts_subsets.specs.Grid.{grid_of};
ghost use Rattle.storage_handles.specs.Handles.{IsRead, IsCounted};
ghost use Rattle.storage_handles.specs.Objects.{ObjectRefusals};
ghost use Rattle.codec_traits.specs.Refusals.{RefusesUnserved};
ghost use Rattle.sharding_index.specs.Indexes.{index_meaning, IsIndexPlan};
ghost use Rattle.sharding_engine.specs.Meanings.{index_of, meaning_of};
ghost use Rattle.sharding_index.specs.steps.Plans.{spec_of};
ghost use Rattle.sharding_open.specs.Cached.{ObjectIndexRefusals};
ghost use Rattle.sharding_open.specs.OpenShards.{shard_spec, numbers_by, IsKnown};

use crate::cached::read_cached_index;
use codec_traits::ArrayToBytesCodecTraits;
use parts_arrays::{DataType, FillValue};
use parts_errors::{CodecError, CodecOptions};
use parts_subsets::ChunkShape;
use sharding_engine::Sharding;
use sharding_format::{ArraySpecRef, ShardIndex};
use sharding_index::{IndexPlan, Plan};
use std::alloc::Global;
use storage_handles::BytesPartialDecoderTraits;

/// What is known of a shard that is read in part.
#[derive(Drop)]
pub struct OpenShard {
    pub shape: ChunkShape,
    pub data_type: DataType,
    pub fill_value: FillValue,
    pub cells: u64,
    pub subchunks: u64,
    pub grid: ChunkShape,
    /// The index of the object, where there is one.
    pub cached: Option<ShardIndex>,
}

impl OpenShard {
    /// Tests what is asked, and reads what is held of a handle's object; beside it the plan of its index. Refused as a sharding
    /// codec's `check` refuses, then, in this order, as `TooLarge` where the object has `u64::MAX` bytes, as `ShardTooShort`, and
    /// as `Damaged` where the index does not decode; or as `Fault`, where the handle failed, or `OutOfMemory`.
    pub fn open<
        I: ArrayToBytesCodecTraits,
        X: ArrayToBytesCodecTraits,
        H: BytesPartialDecoderTraits,
    >(
        sharding: &Sharding<'_, I, X>,
        alloc: Global,
        handle: &mut H,
        spec: &ArraySpecRef,
        options: &CodecOptions,
    ) -> Result<(OpenShard, IndexPlan), CodecError>
        ensures read { IsRead (H.state handle.old) (H.state handle.new) }
        ensures spec { IfOk result (λ o. shard_spec o.0 ≡ spec_of spec.now) }
        ensures known { let s = sharding.now in
            IfOk result (λ o. IsKnown (meaning_of I.meaning X.meaning s) (numbers_by X.meaning s) s.subchunk_shape.now H.state handle.new o.0) }
        ensures plan { IfOk result (λ o. IsIndexPlan (index_meaning X.meaning sharding.now.index_codec.codec.now) o.1) }
        ensures grid { IfOk result (λ o. o.1.grid ≡ grid_of spec.now.shape.now sharding.now.subchunk_shape.now) }
        ensures enough { IfOk result (λ o. IfSome o.0.cached (λ index. o.1.size ≤ index.len)) }
        ensures fault { IfErr result (IsCounted (H.state handle.old) (H.state handle.new)) }
        ensures refused { let s = sharding.now in let g = spec_of spec.now in let shard = meaning_of I.meaning X.meaning s g in
            IfErr result (RefusedBy (
            shard.serves or_as RefusesUnserved shard then
            ObjectRefusals (H.state handle.old) (H.state handle.new) (
            ObjectIndexRefusals (index_of X.meaning s g) s.index_codec.location (H.state handle.old).contents (λ bytes. done)))) }
    {
        let plan = sharding.prepared(alloc, spec)?;
        let Plan {
            cells,
            subchunks,
            index,
        } = plan;
        let cached = read_cached_index(&sharding.index_codec, alloc, handle, &index, options)?;
        let shard = OpenShard {
            shape: spec.shape.try_clone(alloc)?,
            data_type: *spec.data_type,
            fill_value: spec.fill_value.try_clone(alloc)?,
            cells,
            subchunks,
            grid: index.grid.try_clone(alloc)?,
            cached,
        };
        Ok((shard, index))
    }
}
