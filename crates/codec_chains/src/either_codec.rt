// One of two codecs.
use codec_traits::{
    ArrayToBytesCodecTraits, BytesRepresentation, RecommendedConcurrency, StoredArray,
};
use parts_arrays::{ArrayBytes, DataType, FillValue, FixedTarget};
use parts_errors::{CodecError, CodecOptions};
use parts_subsets::{ChunkShape, Indexer};
use std::alloc::Global;
use storage_handles::{BytesPartialDecoderTraits, Interval};

/// One of two codecs, which is chosen when the program runs. In each call it is the codec that it holds.
#[derive(Debug, Drop)]
pub enum EitherCodec<A, B> {
    First(A),
    Second(B),
}

impl<A: ArrayToBytesCodecTraits, B: ArrayToBytesCodecTraits> ArrayToBytesCodecTraits
    for EitherCodec<A, B> {
    ghost use Rattle.codec_chains.specs.EitherCodec.{either_meaning, either_concurrency, either_lawful, either_faultless};

    ghost meaning = { either_meaning A.meaning B.meaning };

    ghost concurrency = { either_concurrency A.concurrency B.concurrency };

    ghost lawful = { either_lawful A.meaning B.meaning A.lawful B.lawful };

    ghost concurrency_faultless = { either_faultless A.concurrency B.concurrency A.concurrency_faultless B.concurrency_faultless };

    /// As `check` of the codec that it holds.
    fn check(
        &self,
        alloc: Global,
        shape: &ChunkShape,
        data_type: &DataType,
        fill_value: &FillValue,
    ) -> Result<(), CodecError> {
        match self {
            EitherCodec::First(codec) => { codec.check(alloc, shape, data_type, fill_value) }
            EitherCodec::Second(codec) => { codec.check(alloc, shape, data_type, fill_value) }
        }
    }

    /// As `encode` of the codec that it holds.
    fn encode(
        &self,
        alloc: Global,
        bytes: &ArrayBytes,
        shape: &ChunkShape,
        data_type: &DataType,
        fill_value: &FillValue,
        options: &CodecOptions,
    ) -> Result<Vec<u8>, CodecError> {
        match self {
            EitherCodec::First(codec) => {
                codec.encode(alloc, bytes, shape, data_type, fill_value, options)
            }
            EitherCodec::Second(codec) => {
                codec.encode(alloc, bytes, shape, data_type, fill_value, options)
            }
        }
    }

    /// As `encode_onto` of the codec that it holds.
    fn encode_onto(
        &self,
        alloc: Global,
        bytes: &ArrayBytes,
        shape: &ChunkShape,
        data_type: &DataType,
        fill_value: &FillValue,
        encoded: &mut Vec<u8>,
        options: &CodecOptions,
    ) -> Result<(), CodecError> {
        match self {
            EitherCodec::First(codec) => {
                codec.encode_onto(alloc, bytes, shape, data_type, fill_value, encoded, options)
            }
            EitherCodec::Second(codec) => {
                codec.encode_onto(alloc, bytes, shape, data_type, fill_value, encoded, options)
            }
        }
    }

    /// As `plain_size` of the codec that it holds.
    fn plain_size(
        &self,
        shape: &ChunkShape,
        data_type: &DataType,
        fill_value: &FillValue,
    ) -> Option<u64> {
        match self {
            EitherCodec::First(codec) => codec.plain_size(shape, data_type, fill_value),
            EitherCodec::Second(codec) => codec.plain_size(shape, data_type, fill_value),
        }
    }

    /// As `decode` of the codec that it holds.
    fn decode<'a>(
        &self,
        alloc: Global,
        bytes: &'a [u8],
        shape: &ChunkShape,
        data_type: &DataType,
        fill_value: &FillValue,
        options: &CodecOptions,
    ) -> Result<ArrayBytes<'a>, CodecError> {
        match self {
            EitherCodec::First(codec) => {
                codec.decode(alloc, bytes, shape, data_type, fill_value, options)
            }
            EitherCodec::Second(codec) => {
                codec.decode(alloc, bytes, shape, data_type, fill_value, options)
            }
        }
    }

    /// As `decode_into` of the codec that it holds.
    fn decode_into(
        &self,
        alloc: Global,
        bytes: &[u8],
        shape: &ChunkShape,
        data_type: &DataType,
        fill_value: &FillValue,
        target: &mut FixedTarget,
        options: &CodecOptions,
    ) -> Result<(), CodecError> {
        match self {
            EitherCodec::First(codec) => {
                codec.decode_into(alloc, bytes, shape, data_type, fill_value, target, options)
            }
            EitherCodec::Second(codec) => {
                codec.decode_into(alloc, bytes, shape, data_type, fill_value, target, options)
            }
        }
    }

    /// As `compact` of the codec that it holds.
    fn compact(
        &self,
        alloc: Global,
        bytes: &[u8],
        shape: &ChunkShape,
        data_type: &DataType,
        fill_value: &FillValue,
        options: &CodecOptions,
    ) -> Result<Option<Vec<u8>>, CodecError> {
        match self {
            EitherCodec::First(codec) => {
                codec.compact(alloc, bytes, shape, data_type, fill_value, options)
            }
            EitherCodec::Second(codec) => {
                codec.compact(alloc, bytes, shape, data_type, fill_value, options)
            }
        }
    }

    /// As `recommended_concurrency` of the codec that it holds.
    fn recommended_concurrency(
        &self,
        shape: &ChunkShape,
        data_type: &DataType,
    ) -> Result<RecommendedConcurrency, CodecError> {
        match self {
            EitherCodec::First(codec) => codec.recommended_concurrency(shape, data_type),
            EitherCodec::Second(codec) => codec.recommended_concurrency(shape, data_type),
        }
    }

    /// As `encoded_representation` of the codec that it holds.
    fn encoded_representation(
        &self,
        alloc: Global,
        shape: &ChunkShape,
        data_type: &DataType,
        fill_value: &FillValue,
    ) -> Result<BytesRepresentation, CodecError> {
        match self {
            EitherCodec::First(codec) => {
                codec.encoded_representation(alloc, shape, data_type, fill_value)
            }
            EitherCodec::Second(codec) => {
                codec.encoded_representation(alloc, shape, data_type, fill_value)
            }
        }
    }

    /// As `partial_decode` of the codec that it holds.
    fn partial_decode<H: BytesPartialDecoderTraits, N: Indexer>(
        &self,
        alloc: Global,
        handle: &mut H,
        interval: Interval,
        shape: &ChunkShape,
        data_type: &DataType,
        fill_value: &FillValue,
        indexer: &N,
        options: &CodecOptions,
    ) -> Result<ArrayBytes<'static>, CodecError> {
        match self {
            EitherCodec::First(codec) => codec.partial_decode(
                alloc, handle, interval, shape, data_type, fill_value, indexer, options,
            ),
            EitherCodec::Second(codec) => codec.partial_decode(
                alloc, handle, interval, shape, data_type, fill_value, indexer, options,
            ),
        }
    }

    /// As `partial_decode_into` of the codec that it holds.
    fn partial_decode_into<H: BytesPartialDecoderTraits, N: Indexer>(
        &self,
        alloc: Global,
        handle: &mut H,
        stored: &StoredArray,
        indexer: &N,
        target: &mut FixedTarget,
        options: &CodecOptions,
    ) -> Result<(), CodecError> {
        match self {
            EitherCodec::First(codec) => {
                codec.partial_decode_into(alloc, handle, stored, indexer, target, options)
            }
            EitherCodec::Second(codec) => {
                codec.partial_decode_into(alloc, handle, stored, indexer, target, options)
            }
        }
    }

    /// As `partial_decode_into_fresh` of the codec that it holds.
    fn partial_decode_into_fresh<H: BytesPartialDecoderTraits, N: Indexer>(
        &self,
        alloc: Global,
        handle: &mut H,
        stored: &StoredArray,
        indexer: &N,
        target: &mut FixedTarget,
        options: &CodecOptions,
    ) -> Result<(), CodecError> {
        match self {
            EitherCodec::First(codec) => {
                codec.partial_decode_into_fresh(alloc, handle, stored, indexer, target, options)
            }
            EitherCodec::Second(codec) => {
                codec.partial_decode_into_fresh(alloc, handle, stored, indexer, target, options)
            }
        }
    }
}
