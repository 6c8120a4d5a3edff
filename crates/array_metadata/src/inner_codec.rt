// The codec of a shard's subchunks.
use crate::codecs::IndexCodec;
use array_codecs::{ArrangedCodec, OpaqueCodec};
use codec_traits::{
    ArrayToBytesCodecTraits, BytesRepresentation, RecommendedConcurrency, StoredArray,
};
use parts_arrays::{ArrayBytes, DataType, FillValue, FixedTarget};
use parts_errors::{CodecError, CodecOptions};
use parts_subsets::{ChunkShape, Indexer};
use sharding_codec::ShardingCodec;
use std::alloc::Global;
use storage_handles::{BytesPartialDecoderTraits, Interval};

/// The codec of a shard's subchunks: of elements, of shards once more, or one that is not looked into. In each call it is the codec that it
/// holds.
#[derive(Debug, Drop)]
pub enum InnerCodec {
    Elements(ArrangedCodec),
    Shards(ShardingCodec<ArrangedCodec, IndexCodec>),
    Opaque(OpaqueCodec),
}

// A call of the codec that is held.
macro_rules! of_held {
    ($codec:expr, $held:ident, $call:expr) => {
        match $codec {
            InnerCodec::Elements($held) => $call,
            InnerCodec::Shards($held) => $call,
            InnerCodec::Opaque($held) => $call,
        }
    };
}

impl ArrayToBytesCodecTraits for InnerCodec {
    ghost use Rattle.array_metadata.specs.CodecMeanings.{inner_meaning, inner_concurrency, inner_lawful, inner_faultless};

    ghost meaning = { inner_meaning };

    ghost concurrency = { inner_concurrency };

    ghost lawful = { inner_lawful };

    ghost concurrency_faultless = { inner_faultless };

    /// As `check` of the codec that it holds.
    fn check(
        &self,
        alloc: Global,
        shape: &ChunkShape,
        data_type: &DataType,
        fill_value: &FillValue,
    ) -> Result<(), CodecError> {
        of_held!(self, held, held.check(alloc, shape, data_type, fill_value))
    }

    /// As `encode` of the codec that it holds.
    fn encode(
        &self,
        alloc: Global,
        bytes: &ArrayBytes,
        shape: &ChunkShape,
        data_type: &DataType,
        fill_value: &FillValue,
        options: &CodecOptions,
    ) -> Result<Vec<u8>, CodecError> {
        of_held!(
            self,
            held,
            held.encode(alloc, bytes, shape, data_type, fill_value, options)
        )
    }

    /// As `encode_onto` of the codec that it holds.
    fn encode_onto(
        &self,
        alloc: Global,
        bytes: &ArrayBytes,
        shape: &ChunkShape,
        data_type: &DataType,
        fill_value: &FillValue,
        encoded: &mut Vec<u8>,
        options: &CodecOptions,
    ) -> Result<(), CodecError> {
        of_held!(
            self,
            held,
            held.encode_onto(alloc, bytes, shape, data_type, fill_value, encoded, options)
        )
    }

    /// As `plain_size` of the codec that it holds.
    fn plain_size(
        &self,
        shape: &ChunkShape,
        data_type: &DataType,
        fill_value: &FillValue,
    ) -> Option<u64> {
        of_held!(self, held, held.plain_size(shape, data_type, fill_value))
    }

    /// As `decode` of the codec that it holds.
    fn decode<'a>(
        &self,
        alloc: Global,
        bytes: &'a [u8],
        shape: &ChunkShape,
        data_type: &DataType,
        fill_value: &FillValue,
        options: &CodecOptions,
    ) -> Result<ArrayBytes<'a>, CodecError> {
        of_held!(
            self,
            held,
            held.decode(alloc, bytes, shape, data_type, fill_value, options)
        )
    }

    /// As `decode_into` of the codec that it holds.
    fn decode_into(
        &self,
        alloc: Global,
        bytes: &[u8],
        shape: &ChunkShape,
        data_type: &DataType,
        fill_value: &FillValue,
        target: &mut FixedTarget,
        options: &CodecOptions,
    ) -> Result<(), CodecError> {
        of_held!(
            self,
            held,
            held.decode_into(alloc, bytes, shape, data_type, fill_value, target, options)
        )
    }

    /// As `compact` of the codec that it holds.
    fn compact(
        &self,
        alloc: Global,
        bytes: &[u8],
        shape: &ChunkShape,
        data_type: &DataType,
        fill_value: &FillValue,
        options: &CodecOptions,
    ) -> Result<Option<Vec<u8>>, CodecError> {
        of_held!(
            self,
            held,
            held.compact(alloc, bytes, shape, data_type, fill_value, options)
        )
    }

    /// As `recommended_concurrency` of the codec that it holds.
    fn recommended_concurrency(
        &self,
        shape: &ChunkShape,
        data_type: &DataType,
    ) -> Result<RecommendedConcurrency, CodecError> {
        of_held!(self, held, held.recommended_concurrency(shape, data_type))
    }

    /// As `encoded_representation` of the codec that it holds.
    fn encoded_representation(
        &self,
        alloc: Global,
        shape: &ChunkShape,
        data_type: &DataType,
        fill_value: &FillValue,
    ) -> Result<BytesRepresentation, CodecError> {
        of_held!(
            self,
            held,
            held.encoded_representation(alloc, shape, data_type, fill_value)
        )
    }

    /// As `partial_decode` of the codec that it holds.
    fn partial_decode<H: BytesPartialDecoderTraits, N: Indexer>(
        &self,
        alloc: Global,
        handle: &mut H,
        interval: Interval,
        shape: &ChunkShape,
        data_type: &DataType,
        fill_value: &FillValue,
        indexer: &N,
        options: &CodecOptions,
    ) -> Result<ArrayBytes<'static>, CodecError> {
        of_held!(
            self,
            held,
            held.partial_decode(
                alloc, handle, interval, shape, data_type, fill_value, indexer, options,
            )
        )
    }

    /// As `partial_decode_into` of the codec that it holds.
    fn partial_decode_into<H: BytesPartialDecoderTraits, N: Indexer>(
        &self,
        alloc: Global,
        handle: &mut H,
        stored: &StoredArray,
        indexer: &N,
        target: &mut FixedTarget,
        options: &CodecOptions,
    ) -> Result<(), CodecError> {
        of_held!(
            self,
            held,
            held.partial_decode_into(alloc, handle, stored, indexer, target, options)
        )
    }

    /// As `partial_decode_into_fresh` of the codec that it holds.
    fn partial_decode_into_fresh<H: BytesPartialDecoderTraits, N: Indexer>(
        &self,
        alloc: Global,
        handle: &mut H,
        stored: &StoredArray,
        indexer: &N,
        target: &mut FixedTarget,
        options: &CodecOptions,
    ) -> Result<(), CodecError> {
        of_held!(
            self,
            held,
            held.partial_decode_into_fresh(alloc, handle, stored, indexer, target, options)
        )
    }
}
