// How shards are made, as a codec.
ghost use Rattle.std.specs.Prelude.{IfSome, IfNone, ◌≡◌, IfOk, IfErr, OnOk};
ghost use Rattle.parts_errors.specs.Order.{RefusedBy};
ghost use Rattle.parts_row_major.specs.Numbering.{count_of};
ghost use Rattle.parts_subsets.specs.Grid.{grid_of};
ghost use Rattle.parts_arrays.specs.ArraySpec.{array_spec};
ghost use Rattle.codec_traits.specs.Refusals.{MayRefuseCompact};
ghost use Rattle.sharding_format.specs.Index.{index_spec};
ghost use Rattle.sharding_format.specs.Serves.{HasPlan, subchunk_spec};
ghost use Rattle.sharding_format.specs.Grids.{IsCut, ConcurrencyRefusals};
ghost use Rattle.sharding_format.specs.Compacting.{IsCompact};
ghost use Rattle.sharding_engine.specs.Meanings.{shard_layout, inner_of, index_of, meaning_of};

use crate::plan::Planned;
use crate::read::PlannedShard;
use codec_traits::{
    ArrayToBytesCodecTraits, BytesRepresentation, RecommendedConcurrency, StoredArray, check_target,
};
use parts_arrays::{ArrayBytes, DataType, FillValue, FixedTarget};
use parts_errors::{CodecError, CodecOptions};
use parts_subsets::{ChunkShape, Indexer};
use sharding_format::{ArraySpecRef, SubchunkWriteOrder};
use sharding_gather::check_requested;
use sharding_index::{IndexCodec, recommended_workers, shard_bound, told_of_subchunks};
use sharding_layout::compacted;
use std::alloc::Global;
use storage_handles::{BytesPartialDecoderTraits, Interval};

/// How shards are made (Zarr V3 codec `sharding_indexed`): the shape of a subchunk and the codec that encodes it, the codec that
/// encodes the index and where it puts it, and in which order subchunks are written.
#[derive(Clone, Copy)]
pub struct Sharding<'a, I, X> {
    pub subchunk_shape: &'a ChunkShape,
    pub inner: &'a I,
    pub index_codec: IndexCodec<'a, X>,
    pub order: SubchunkWriteOrder,
}

impl<I: ArrayToBytesCodecTraits, X: ArrayToBytesCodecTraits> ArrayToBytesCodecTraits
    for Sharding<'_, I, X> {
    ghost meaning = { meaning_of I.meaning X.meaning };

    ghost concurrency = { λ s shape. record {
      served = IsCut shape s.subchunk_shape.now;
      workers = count_of (grid_of shape s.subchunk_shape.now);
      refusals = ConcurrencyRefusals shape s.subchunk_shape.now;
    } };

    ghost use Rattle.sharding_engine.specs.MeaningLaws.{sharded_lawful};

    ghost lawful = { λ s g. let index_g = index_spec (grid_of g.shape s.subchunk_shape.now) in
        sharded_lawful s.subchunk_shape.now s.index_codec.location s.order (inner_of I.meaning s g) (index_of X.meaning s g) g
        (I.lawful s.inner.now (subchunk_spec s.subchunk_shape.now g)) (X.lawful s.index_codec.codec.now index_g) };

    ghost use Rattle.sharding_format.specs.Faultless.{concurrency_refusals_faultless};

    ghost concurrency_faultless = { λ s shape e h. concurrency_refusals_faultless shape s.subchunk_shape.now e h };

    /// Makes the tests of shape, type and fill value, of the index codec, and of the inner codec.
    fn check(
        &self,
        alloc: Global,
        shape: &ChunkShape,
        data_type: &DataType,
        fill_value: &FillValue,
    ) -> Result<(), CodecError> {
        let spec = ArraySpecRef {
            shape,
            data_type,
            fill_value,
        };
        let _ = self.prepared(alloc, &spec)?;
        Ok(())
    }

    /// Stores each subchunk that is not wholly the fill value.
    fn encode(
        &self,
        alloc: Global,
        bytes: &ArrayBytes,
        shape: &ChunkShape,
        data_type: &DataType,
        fill_value: &FillValue,
        options: &CodecOptions,
    ) -> Result<Vec<u8>, CodecError> {
        let mut shard = Vec::new(alloc);
        self.encode_onto(
            alloc, bytes, shape, data_type, fill_value, &mut shard, options,
        )?;
        Ok(shard)
    }

    /// Stores the subchunks behind the bytes that are there, with no copy between. Where it is refused, what was put there is cut
    /// off.
    fn encode_onto(
        &self,
        alloc: Global,
        bytes: &ArrayBytes,
        shape: &ChunkShape,
        data_type: &DataType,
        fill_value: &FillValue,
        encoded: &mut Vec<u8>,
        options: &CodecOptions,
    ) -> Result<(), CodecError> {
        let spec = ArraySpecRef {
            shape,
            data_type,
            fill_value,
        };
        let plan = self.prepared(alloc, &spec)?;
        let planned = Planned {
            spec,
            plan: &plan,
            options,
        };
        self.encode_or_cut(alloc, bytes, &planned, encoded)
    }

    /// Decodes every subchunk: straight from the bytes where subchunks follow one another and their elements stand in these; where
    /// elements have one size and subchunks do not follow one another, each to where it lies; else it gathers them.
    fn decode<'a>(
        &self,
        alloc: Global,
        bytes: &'a [u8],
        shape: &ChunkShape,
        data_type: &DataType,
        fill_value: &FillValue,
        options: &CodecOptions,
    ) -> Result<ArrayBytes<'a>, CodecError> {
        let spec = ArraySpecRef {
            shape,
            data_type,
            fill_value,
        };
        let plan = self.prepared(alloc, &spec)?;
        let planned = Planned {
            spec,
            plan: &plan,
            options,
        };
        self.decoded(alloc, bytes, &planned)
    }

    /// Where the inner codec stores elements as they are in memory, each slice is copied to where it lies in the target; else all is
    /// decoded and copied then.
    fn decode_into(
        &self,
        alloc: Global,
        bytes: &[u8],
        shape: &ChunkShape,
        data_type: &DataType,
        fill_value: &FillValue,
        target: &mut FixedTarget,
        options: &CodecOptions,
    ) -> Result<(), CodecError> {
        let spec = ArraySpecRef {
            shape,
            data_type,
            fill_value,
        };
        let plan = self.prepared(alloc, &spec)?;
        check_target(target, shape.num_elements(), data_type)?;
        let planned = Planned {
            spec,
            plan: &plan,
            options,
        };
        self.decoded_into(alloc, bytes, &planned, target)
    }

    /// The index and the present slices, ascending and without gaps, or nothing where that has as many bytes.
    fn compact(
        &self,
        alloc: Global,
        bytes: &[u8],
        shape: &ChunkShape,
        data_type: &DataType,
        fill_value: &FillValue,
        options: &CodecOptions,
    ) -> Result<Option<Vec<u8>>, CodecError>
        ensures compacted { let g = array_spec shape.now data_type.now fill_value.now in
            IfOk result (λ answer. IfSome answer (λ new. (meaning_of I.meaning X.meaning self.now g).compacted bytes.now new.items)) }
        ensures kept { let g = array_spec shape.now data_type.now fill_value.now in let index = index_of X.meaning self.now g in
            IfOk result (λ answer. IfNone answer (IsCompact index.cells (shard_layout self.now index g) bytes.now)) }
        ensures served { let g = array_spec shape.now data_type.now fill_value.now in
            OnOk result (HasPlan (index_of X.meaning self.now g) shape.now self.now.subchunk_shape.now 0) }
        ensures lawful { let g = array_spec shape.now data_type.now fill_value.now in
            IfErr result (λ e. (meaning_of I.meaning X.meaning self.now g).serves → MayRefuseCompact ((meaning_of I.meaning X.meaning self.now g).cells bytes.now) e) }
        ensures refused { let g = array_spec shape.now data_type.now fill_value.now in
            IfErr result (RefusedBy ((meaning_of I.meaning X.meaning self.now g).compact_refusals bytes.now)) }
    {
        let sub = self.subchunk_shape;
        compacted(alloc, &self.index_codec, bytes, shape, sub, options)
    }

    /// As many workers as there are subchunks.
    fn recommended_concurrency(
        &self,
        shape: &ChunkShape,
        _data_type: &DataType,
    ) -> Result<RecommendedConcurrency, CodecError> {
        recommended_workers(shape, self.subchunk_shape)
    }

    /// Reads the index, and the requested cells of the subchunks in which there are any.
    fn partial_decode<H: BytesPartialDecoderTraits, N: Indexer>(
        &self,
        alloc: Global,
        handle: &mut H,
        interval: Interval,
        shape: &ChunkShape,
        data_type: &DataType,
        fill_value: &FillValue,
        indexer: &N,
        options: &CodecOptions,
    ) -> Result<ArrayBytes<'static>, CodecError> {
        let spec = ArraySpecRef {
            shape,
            data_type,
            fill_value,
        };
        let plan = self.prepared(alloc, &spec)?;
        let count = check_requested(indexer, shape, data_type)?;
        let shard = PlannedShard {
            interval,
            planned: Planned {
                spec,
                plan: &plan,
                options,
            },
        };
        let cells = self.read_planned(alloc, handle, &shard, indexer, count)?;
        Ok(cells)
    }

    /// Reads the index, and the requested cells of the subchunks in which there are any, into the target: straight from the slices where
    /// it can be.
    fn partial_decode_into_fresh<H: BytesPartialDecoderTraits, N: Indexer>(
        &self,
        alloc: Global,
        handle: &mut H,
        stored: &StoredArray,
        indexer: &N,
        target: &mut FixedTarget,
        options: &CodecOptions,
    ) -> Result<(), CodecError> {
        let spec = ArraySpecRef {
            shape: stored.shape,
            data_type: stored.data_type,
            fill_value: stored.fill_value,
        };
        let plan = self.prepared(alloc, &spec)?;
        check_target(target, indexer.len(), stored.data_type)?;
        let _count = check_requested(indexer, stored.shape, stored.data_type)?;
        let shard = PlannedShard {
            interval: stored.interval,
            planned: Planned {
                spec,
                plan: &plan,
                options,
            },
        };
        self.read_planned_into(alloc, handle, &shard, indexer, target)
    }

    /// As many times the inner codec's bound as there are subchunks, and the index.
    fn encoded_representation(
        &self,
        alloc: Global,
        shape: &ChunkShape,
        data_type: &DataType,
        fill_value: &FillValue,
    ) -> Result<BytesRepresentation, CodecError> {
        let spec = ArraySpecRef {
            shape,
            data_type,
            fill_value,
        };
        let plan = self.prepared(alloc, &spec)?;
        let told = told_of_subchunks(alloc, self.inner, self.subchunk_shape, &spec)?;
        shard_bound(told, plan.subchunks, plan.index.size)
    }
}
