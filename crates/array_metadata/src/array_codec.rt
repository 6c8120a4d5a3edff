// The codec of an array's chunks.
use crate::codecs::ShardsCodec;
use array_codecs::{ArrangedCodec, TransposeCodec};
use codec_traits::{
    ArrayToBytesCodecTraits, BytesRepresentation, RecommendedConcurrency, StoredArray,
};
use parts_arrays::{ArrayBytes, DataType, FillValue, FixedTarget};
use parts_errors::{CodecError, CodecOptions};
use parts_subsets::{ChunkShape, Indexer};
use std::alloc::Global;
use storage_handles::{BytesPartialDecoderTraits, Interval};

/// The codec of an array's chunks: of shards, of shards with `transpose` before them, behind which no subchunk is looked into, or of
/// elements. It gives what the codec that it holds gives; the call that appends and those that leave a target where they are refused are
/// the trait's own, since an array over a store makes none of them.
#[derive(Debug, Drop)]
pub enum ArrayCodec {
    Sharded(ShardsCodec),
    Transposed(TransposeCodec<ShardsCodec>),
    Unsharded(ArrangedCodec),
}

// A call of the codec that is held.
macro_rules! of_held {
    ($codec:expr, $held:ident, $call:expr) => {
        match $codec {
            ArrayCodec::Sharded($held) => $call,
            ArrayCodec::Transposed($held) => $call,
            ArrayCodec::Unsharded($held) => $call,
        }
    };
}

impl ArrayToBytesCodecTraits for ArrayCodec {
    ghost use Rattle.array_metadata.specs.CodecMeanings.{chunk_meaning, chunk_concurrency, chunk_lawful, chunk_faultless};

    ghost meaning = { chunk_meaning };

    ghost concurrency = { chunk_concurrency };

    ghost lawful = { chunk_lawful };

    ghost concurrency_faultless = { chunk_faultless };

    /// As `check` of the codec that it holds.
    fn check(
        &self,
        alloc: Global,
        shape: &ChunkShape,
        data_type: &DataType,
        fill_value: &FillValue,
    ) -> Result<(), CodecError> {
        of_held!(self, held, held.check(alloc, shape, data_type, fill_value))
    }

    /// As `encode` of the codec that it holds.
    fn encode(
        &self,
        alloc: Global,
        bytes: &ArrayBytes,
        shape: &ChunkShape,
        data_type: &DataType,
        fill_value: &FillValue,
        options: &CodecOptions,
    ) -> Result<Vec<u8>, CodecError> {
        of_held!(
            self,
            held,
            held.encode(alloc, bytes, shape, data_type, fill_value, options)
        )
    }

    /// As `decode` of the codec that it holds.
    fn decode<'a>(
        &self,
        alloc: Global,
        bytes: &'a [u8],
        shape: &ChunkShape,
        data_type: &DataType,
        fill_value: &FillValue,
        options: &CodecOptions,
    ) -> Result<ArrayBytes<'a>, CodecError> {
        of_held!(
            self,
            held,
            held.decode(alloc, bytes, shape, data_type, fill_value, options)
        )
    }

    /// As `compact` of the codec that it holds.
    fn compact(
        &self,
        alloc: Global,
        bytes: &[u8],
        shape: &ChunkShape,
        data_type: &DataType,
        fill_value: &FillValue,
        options: &CodecOptions,
    ) -> Result<Option<Vec<u8>>, CodecError> {
        of_held!(
            self,
            held,
            held.compact(alloc, bytes, shape, data_type, fill_value, options)
        )
    }

    /// As `recommended_concurrency` of the codec that it holds.
    fn recommended_concurrency(
        &self,
        shape: &ChunkShape,
        data_type: &DataType,
    ) -> Result<RecommendedConcurrency, CodecError> {
        of_held!(self, held, held.recommended_concurrency(shape, data_type))
    }

    /// As `encoded_representation` of the codec that it holds.
    fn encoded_representation(
        &self,
        alloc: Global,
        shape: &ChunkShape,
        data_type: &DataType,
        fill_value: &FillValue,
    ) -> Result<BytesRepresentation, CodecError> {
        of_held!(
            self,
            held,
            held.encoded_representation(alloc, shape, data_type, fill_value)
        )
    }

    /// As `partial_decode` of the codec that it holds.
    fn partial_decode<H: BytesPartialDecoderTraits, N: Indexer>(
        &self,
        alloc: Global,
        handle: &mut H,
        interval: Interval,
        shape: &ChunkShape,
        data_type: &DataType,
        fill_value: &FillValue,
        indexer: &N,
        options: &CodecOptions,
    ) -> Result<ArrayBytes<'static>, CodecError> {
        of_held!(
            self,
            held,
            held.partial_decode(
                alloc, handle, interval, shape, data_type, fill_value, indexer, options,
            )
        )
    }

    /// As `partial_decode_into_fresh` of the codec that it holds.
    fn partial_decode_into_fresh<H: BytesPartialDecoderTraits, N: Indexer>(
        &self,
        alloc: Global,
        handle: &mut H,
        stored: &StoredArray,
        indexer: &N,
        target: &mut FixedTarget,
        options: &CodecOptions,
    ) -> Result<(), CodecError> {
        of_held!(
            self,
            held,
            held.partial_decode_into_fresh(alloc, handle, stored, indexer, target, options)
        )
    }
}
