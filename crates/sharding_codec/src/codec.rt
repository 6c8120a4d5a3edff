// The sharding codec, as a codec from arrays to bytes.
ghost use Rattle.std.specs.Prelude.{IfSome, IfNone, ◌≡◌, ◌<◌, ◌^◌, IfOk, IfErr, OnOk, SomeIff, length};
ghost use Rattle.parts_errors.specs.Order.{RefusedBy};
ghost use Rattle.parts_row_major.specs.Numbering.{count_of};
ghost use Rattle.parts_subsets.specs.Grid.{grid_of, grid_subset};
ghost use Rattle.parts_arrays.specs.ArraySpec.{array_spec};
ghost use Rattle.codec_traits.specs.Refusals.{MayRefuseCompact};
ghost use Rattle.sharding_format.specs.Index.{index_spec};
ghost use Rattle.sharding_format.specs.Serves.{HasPlan, subchunk_spec};
ghost use Rattle.sharding_format.specs.Grids.{SubchunkSubsetRefusals, EndsFit, IsCut, ConcurrencyRefusals};
ghost use Rattle.sharding_format.specs.Compacting.{IsCompact};
ghost use Rattle.sharding_format.specs.declared.order.SubchunkWriteOrder.TheVariants.{Unordered};
ghost use Rattle.sharding_codec.specs.Meanings.{layout_in, shard_meaning};

use codec_traits::{
    ArrayToBytesCodecTraits, BytesRepresentation, RecommendedConcurrency, StoredArray,
};
use parts_arrays::{ArrayBytes, DataType, FillValue, FixedTarget};
use parts_errors::{CodecError, CodecOptions};
use parts_subsets::{ArraySubset, ChunkShape, Indexer};
use sharding_format::{ShardingIndexLocation, SubchunkWriteOrder, subchunk_subset};
use std::alloc::Global;
use storage_handles::{BytesPartialDecoderTraits, Interval};

/// The codec `sharding_indexed` (Zarr V3): cuts an array into equal subchunks, encodes each that is not wholly the
/// fill value by the inner codec `I`, and lays them beside an index, which the index codec `X` encodes. Any values of its
/// fields make a codec: what it does not serve is refused by `check`.
#[derive(Debug, Drop)]
pub struct ShardingCodec<I, X> {
    /// The shape of each subchunk ("chunk_shape").
    pub subchunk_shape: ChunkShape,
    /// The codec that encodes each subchunk ("codecs").
    pub inner: I,
    /// The codec that encodes the index ("index_codecs").
    pub index_codec: X,
    /// Where the index stands ("index_location").
    pub location: ShardingIndexLocation,
    /// In which order subchunks are written; the standard leaves it open.
    pub order: SubchunkWriteOrder,
}

// The codec, lent to the steps: written out where it is lent, so that a proof sees what each field is.
macro_rules! borrowed {
    ($codec:expr) => {
        sharding_engine::Sharding {
            subchunk_shape: &$codec.subchunk_shape,
            inner: &$codec.inner,
            index_codec: sharding_index::IndexCodec {
                codec: &$codec.index_codec,
                location: $codec.location,
            },
            order: $codec.order,
        }
    };
}

pub(crate) use borrowed;

impl<I, X> ShardingCodec<I, X> {
    /// The codec of these parts, which writes subchunks in the order `Unordered`.
    pub fn new(
        subchunk_shape: ChunkShape,
        inner_codec: I,
        index_codec: X,
        index_location: ShardingIndexLocation,
    ) -> Self
        ensures { result ≡ record { subchunk_shape = subchunk_shape; inner = inner_codec; index_codec = index_codec; location = index_location; order = Unordered } }
    {
        ShardingCodec {
            subchunk_shape,
            inner: inner_codec,
            index_codec,
            location: index_location,
            order: SubchunkWriteOrder::Unordered,
        }
    }

    /// The same codec with another order in which subchunks are written.
    pub fn with_subchunk_write_order(self, order: SubchunkWriteOrder) -> Self
        ensures { result ≡ record self { order = order } }
    {
        let ShardingCodec {
            subchunk_shape,
            inner,
            index_codec,
            location,
            order: _,
        } = self;
        ShardingCodec {
            subchunk_shape,
            inner,
            index_codec,
            location,
            order,
        }
    }

    /// The subset of the cells of a subchunk of a shard, by the subchunk's number in the grid `chunks_per_shard`; `None`
    /// where the grid has no such number. Refused, in this order, as `IncompatibleDimensionality` where grid and
    /// subchunk shape differ in their number of axes, as `TooLarge` where the grid's count or an end of the subset passes
    /// `u64::MAX`; or as `OutOfMemory`.
    pub fn chunk_index_to_subset(
        &self,
        alloc: Global,
        chunk_index: u64,
        chunks_per_shard: &ChunkShape,
    ) -> Result<Option<ArraySubset>, CodecError>
        ensures subset { IfOk result (λ found. SomeIff found (chunk_index < count_of chunks_per_shard.now) (grid_subset chunks_per_shard.now self.now.subchunk_shape chunk_index)) }
        ensures served { OnOk result ((length chunks_per_shard.now ≡ length self.now.subchunk_shape)
            × (count_of chunks_per_shard.now < 2 ^ 64) × EndsFit chunks_per_shard.now self.now.subchunk_shape chunk_index) }
        ensures refused { IfErr result (RefusedBy (SubchunkSubsetRefusals chunks_per_shard.now self.now.subchunk_shape chunk_index)) }
    {
        subchunk_subset(alloc, chunk_index, chunks_per_shard, &self.subchunk_shape)
    }
}

impl<I: ArrayToBytesCodecTraits, X: ArrayToBytesCodecTraits> ArrayToBytesCodecTraits
    for ShardingCodec<I, X> {
    ghost meaning = { λ s g. shard_meaning s (I.meaning s.inner (subchunk_spec s.subchunk_shape g)) (X.meaning s.index_codec (index_spec (grid_of g.shape s.subchunk_shape))) g };

    ghost concurrency = { λ s shape. record {
      served = IsCut shape s.subchunk_shape;
      workers = count_of (grid_of shape s.subchunk_shape);
      refusals = ConcurrencyRefusals shape s.subchunk_shape;
    } };

    ghost use Rattle.sharding_codec.specs.ShardLaws.{shard_lawful};

    ghost lawful = { λ s g. let index_g = index_spec (grid_of g.shape s.subchunk_shape) in
        shard_lawful s (I.meaning s.inner (subchunk_spec s.subchunk_shape g)) (X.meaning s.index_codec index_g) g
        (I.lawful s.inner (subchunk_spec s.subchunk_shape g)) (X.lawful s.index_codec index_g) };

    ghost use Rattle.sharding_format.specs.Faultless.{concurrency_refusals_faultless};

    ghost concurrency_faultless = { λ s shape e h. concurrency_refusals_faultless shape s.subchunk_shape e h };

    /// Refused, in this order, as `UnsupportedDataType` (`Optional`, `Raw(0)`), `BadFillValue` (a fill value of another
    /// length than the fixed type), `IncompatibleDimensionality` (shape and subchunk shape), `InvalidSubchunkShape` (an
    /// axis is not divided evenly), `TooLarge` (the count of cells, their bytes, or 16 bytes for each subchunk), as the
    /// index codec's `check` refuses, as `TooLarge` or `VariableIndexSize` where the index has no fixed size, and as the
    /// inner codec's `check` refuses; or as `OutOfMemory`.
    fn check(
        &self,
        alloc: Global,
        shape: &ChunkShape,
        data_type: &DataType,
        fill_value: &FillValue,
    ) -> Result<(), CodecError> {
        borrowed!(self).check(alloc, shape, data_type, fill_value)
    }

    /// Stores each subchunk that is not wholly the fill value. Refused as `check` refuses, then as `WrongElementKind`,
    /// `InvalidNumberOfElements`, as the inner codec refuses the lowest refused subchunk (`CannotEncode`, `TooLarge`),
    /// as `TooLarge` where the shard would reach `usize::MAX` bytes, and as the index codec refuses; or as `OutOfMemory`.
    fn encode(
        &self,
        alloc: Global,
        bytes: &ArrayBytes,
        shape: &ChunkShape,
        data_type: &DataType,
        fill_value: &FillValue,
        options: &CodecOptions,
    ) -> Result<Vec<u8>, CodecError> {
        borrowed!(self).encode(alloc, bytes, shape, data_type, fill_value, options)
    }

    /// Encodes as `encode` does, behind bytes that are there, which stay: a nested shard so stands at once where it belongs. A
    /// refusal leaves them. Refused as `encode`.
    fn encode_onto(
        &self,
        alloc: Global,
        bytes: &ArrayBytes,
        shape: &ChunkShape,
        data_type: &DataType,
        fill_value: &FillValue,
        encoded: &mut Vec<u8>,
        options: &CodecOptions,
    ) -> Result<(), CodecError> {
        borrowed!(self).encode_onto(alloc, bytes, shape, data_type, fill_value, encoded, options)
    }

    /// Refused as `check` refuses, then as `ShardTooShort`, as `Damaged` where the index does not decode, as the lowest
    /// refused subchunk is (`BadIndexEntry` with its number, `Damaged`, `TooLarge`), and as `TooLarge` where the lengths of
    /// the cells pass `usize::MAX`; or as `OutOfMemory`.
    fn decode<'a>(
        &self,
        alloc: Global,
        bytes: &'a [u8],
        shape: &ChunkShape,
        data_type: &DataType,
        fill_value: &FillValue,
        options: &CodecOptions,
    ) -> Result<ArrayBytes<'a>, CodecError> {
        borrowed!(self).decode(alloc, bytes, shape, data_type, fill_value, options)
    }

    /// Decodes a shard into a target, where its elements go to the target's subset, in row-major order. Where the inner codec stores
    /// elements as they are in memory they are copied there straight. A refusal leaves the target. Refused as `check` refuses,
    /// then as `WrongElementKind` (a type of another element size or of none), `InvalidNumberOfElements` (another number of
    /// elements in the target's subset), then as `decode`.
    fn decode_into(
        &self,
        alloc: Global,
        bytes: &[u8],
        shape: &ChunkShape,
        data_type: &DataType,
        fill_value: &FillValue,
        target: &mut FixedTarget,
        options: &CodecOptions,
    ) -> Result<(), CodecError> {
        borrowed!(self).decode_into(alloc, bytes, shape, data_type, fill_value, target, options)
    }

    /// The index and the present slices in ascending subchunk number without gaps, each copied for itself; `None` exactly
    /// where the shard has as many bytes as its index and its present slices, whatever their order. Refused, in this order,
    /// as `IncompatibleDimensionality`, `InvalidSubchunkShape`, `TooLarge` (the count of cells, or 16 bytes for each
    /// subchunk), as the index codec's `check` refuses, as `TooLarge` or `VariableIndexSize` where the index has no fixed
    /// size, as `ShardTooShort`, as `Damaged` where the index does not decode, as `BadIndexEntry` with the lowest bad entry,
    /// as `TooLarge` where the compacted shard would reach `usize::MAX` bytes, and as the index codec refuses; or as
    /// `OutOfMemory`. The data type and the fill value are not looked at.
    fn compact(
        &self,
        alloc: Global,
        bytes: &[u8],
        shape: &ChunkShape,
        data_type: &DataType,
        fill_value: &FillValue,
        options: &CodecOptions,
    ) -> Result<Option<Vec<u8>>, CodecError>
        ensures compacted { let g = array_spec shape.now data_type.now fill_value.now in
            IfOk result (λ answer. IfSome answer (λ new. (⟦<Self as ArrayToBytesCodecTraits>⟧.meaning self.now g).compacted bytes.now new.items)) }
        ensures kept { let g = array_spec shape.now data_type.now fill_value.now in let s = self.now in
            let index_cells = (X.meaning s.index_codec (index_spec (grid_of g.shape s.subchunk_shape))).cells in
            IfOk result (λ answer. IfNone answer (IsCompact index_cells (layout_in s (X.meaning s.index_codec (index_spec (grid_of g.shape s.subchunk_shape))) g) bytes.now)) }
        ensures served { let s = self.now in
            OnOk result (HasPlan (X.meaning s.index_codec (index_spec (grid_of shape.now s.subchunk_shape))) shape.now s.subchunk_shape 0) }
        ensures lawful { let codec = ⟦<Self as ArrayToBytesCodecTraits>⟧ in let g = array_spec shape.now data_type.now fill_value.now in
            IfErr result (λ e. (codec.meaning self.now g).serves → MayRefuseCompact ((codec.meaning self.now g).cells bytes.now) e) }
        ensures refused { let g = array_spec shape.now data_type.now fill_value.now in
            IfErr result (RefusedBy ((⟦<Self as ArrayToBytesCodecTraits>⟧.meaning self.now g).compact_refusals bytes.now)) }
    {
        borrowed!(self).compact(alloc, bytes, shape, data_type, fill_value, options)
    }

    /// As many workers as the shard has subchunks. Refused, in this order, as `IncompatibleDimensionality`,
    /// `InvalidSubchunkShape`, and `TooLarge` where the count of subchunks passes `u64::MAX`.
    fn recommended_concurrency(
        &self,
        shape: &ChunkShape,
        data_type: &DataType,
    ) -> Result<RecommendedConcurrency, CodecError> {
        borrowed!(self).recommended_concurrency(shape, data_type)
    }

    /// Reads the index and, of each subchunk in which cells are asked, these cells; the others are not looked at. Refused as
    /// `check` refuses, then, in this order, as `IncompatibleDimensionality` (shape and indexer), as `OutOfBounds` (cells
    /// outside the shape), as `TooLarge` (their count or, where they have one size, their bytes), as `OutOfBounds` where no
    /// object has the interval, as `ShardTooShort`, as `Damaged` where the index does not decode, as the lowest refused
    /// subchunk is (`BadIndexEntry` with its number, `Damaged`, `TooLarge`), and as `TooLarge` where the
    /// lengths of the requested cells pass `usize::MAX`; or as `Fault`, where the handle failed, or `OutOfMemory`.
    fn partial_decode<H: BytesPartialDecoderTraits, N: Indexer>(
        &self,
        alloc: Global,
        handle: &mut H,
        interval: Interval,
        shape: &ChunkShape,
        data_type: &DataType,
        fill_value: &FillValue,
        indexer: &N,
        options: &CodecOptions,
    ) -> Result<ArrayBytes<'static>, CodecError> {
        borrowed!(self).partial_decode(
            alloc, handle, interval, shape, data_type, fill_value, indexer, options,
        )
    }

    /// Reads the index and the requested elements, as `partial_decode`, into a target, whose subset has unspecified elements after
    /// a refusal. If the inner codec stores elements as they are in memory, those of a subset are copied once, from each slice.
    fn partial_decode_into_fresh<H: BytesPartialDecoderTraits, N: Indexer>(
        &self,
        alloc: Global,
        handle: &mut H,
        stored: &StoredArray,
        indexer: &N,
        target: &mut FixedTarget,
        options: &CodecOptions,
    ) -> Result<(), CodecError> {
        borrowed!(self).partial_decode_into_fresh(alloc, handle, stored, indexer, target, options)
    }

    /// `BoundedSize` of as many times the inner codec's size as there are subchunks, and the index; `UnboundedSize`
    /// where the inner codec says so. Refused as `check` refuses, then as `TooLarge`.
    fn encoded_representation(
        &self,
        alloc: Global,
        shape: &ChunkShape,
        data_type: &DataType,
        fill_value: &FillValue,
    ) -> Result<BytesRepresentation, CodecError> {
        borrowed!(self).encoded_representation(alloc, shape, data_type, fill_value)
    }
}
