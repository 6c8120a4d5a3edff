// The codec that an array has where none is asked for: by the type of its elements.
ghost use Rattle.std.specs.Prelude.{◌≡◌};
ghost use Rattle.codec_vlen.specs.DefaultCodec.{default_codec_of};

use crate::vlen_codec::VlenCodec;
use codec_bytes::BytesCodec;
use codec_traits::{
    ArrayToBytesCodecTraits, BytesRepresentation, FunctionalCodec, RecommendedConcurrency,
    StoredArray,
};
use parts_arrays::{ArrayBytes, DataType, DataTypeSize, FillValue, FixedTarget};
use parts_errors::{CodecError, CodecOptions};
use parts_subsets::{ChunkShape, Indexer};
use std::alloc::Global;
use storage_handles::{BytesPartialDecoderTraits, Interval};

/// One of the codecs of this crate: `bytes`, or the one for elements that have lengths of their own. In each call it is the codec
/// that it holds.
#[derive(Debug, Clone, Copy, PartialEq, Eq)]
pub enum DefaultArrayToBytesCodec {
    Bytes(BytesCodec),
    Vlen(VlenCodec),
}

/// The codec for elements of a type: `VlenCodec` for `Bytes`, else `BytesCodec`, little endian.
pub fn default_array_to_bytes_codec(data_type: &DataType) -> DefaultArrayToBytesCodec
    ensures { result ≡ default_codec_of data_type.now }
{
    match data_type {
        DataType::Bytes => DefaultArrayToBytesCodec::Vlen(VlenCodec),
        _ => DefaultArrayToBytesCodec::Bytes(BytesCodec::little()),
    }
}

impl ArrayToBytesCodecTraits for DefaultArrayToBytesCodec {
    ghost use Rattle.std.specs.Prelude.{⊤};
    ghost use Rattle.parts_errors.specs.Order.{done};
    ghost use Rattle.codec_vlen.specs.DefaultCodec.{default_meaning, default_lawful};

    ghost meaning = { default_meaning };

    ghost concurrency = { λ _ _. record { served = ⊤; workers = 1; refusals = done } };

    ghost lawful = { default_lawful };

    ghost concurrency_faultless = { λ _ _ e h. absurd h };

    /// As `check` of the codec that it holds.
    fn check(
        &self,
        alloc: Global,
        shape: &ChunkShape,
        data_type: &DataType,
        fill_value: &FillValue,
    ) -> Result<(), CodecError> {
        match self {
            DefaultArrayToBytesCodec::Bytes(codec) => {
                codec.check(alloc, shape, data_type, fill_value)
            }
            DefaultArrayToBytesCodec::Vlen(codec) => {
                codec.check(alloc, shape, data_type, fill_value)
            }
        }
    }

    /// As `encode` of the codec that it holds.
    fn encode(
        &self,
        alloc: Global,
        bytes: &ArrayBytes,
        shape: &ChunkShape,
        data_type: &DataType,
        fill_value: &FillValue,
        options: &CodecOptions,
    ) -> Result<Vec<u8>, CodecError> {
        match self {
            DefaultArrayToBytesCodec::Bytes(codec) => {
                codec.encode(alloc, bytes, shape, data_type, fill_value, options)
            }
            DefaultArrayToBytesCodec::Vlen(codec) => {
                codec.encode(alloc, bytes, shape, data_type, fill_value, options)
            }
        }
    }

    /// As `encode_onto` of the codec that it holds.
    fn encode_onto(
        &self,
        alloc: Global,
        bytes: &ArrayBytes,
        shape: &ChunkShape,
        data_type: &DataType,
        fill_value: &FillValue,
        encoded: &mut Vec<u8>,
        options: &CodecOptions,
    ) -> Result<(), CodecError> {
        match self {
            DefaultArrayToBytesCodec::Bytes(codec) => {
                codec.encode_onto(alloc, bytes, shape, data_type, fill_value, encoded, options)
            }
            DefaultArrayToBytesCodec::Vlen(codec) => {
                codec.encode_onto(alloc, bytes, shape, data_type, fill_value, encoded, options)
            }
        }
    }

    /// As `plain_size` of the codec that it holds.
    fn plain_size(
        &self,
        shape: &ChunkShape,
        data_type: &DataType,
        fill_value: &FillValue,
    ) -> Option<u64> {
        match self {
            DefaultArrayToBytesCodec::Bytes(codec) => {
                codec.plain_size(shape, data_type, fill_value)
            }
            DefaultArrayToBytesCodec::Vlen(codec) => codec.plain_size(shape, data_type, fill_value),
        }
    }

    /// As `decode` of the codec that it holds.
    fn decode<'a>(
        &self,
        alloc: Global,
        bytes: &'a [u8],
        shape: &ChunkShape,
        data_type: &DataType,
        fill_value: &FillValue,
        options: &CodecOptions,
    ) -> Result<ArrayBytes<'a>, CodecError> {
        match self {
            DefaultArrayToBytesCodec::Bytes(codec) => {
                codec.decode(alloc, bytes, shape, data_type, fill_value, options)
            }
            DefaultArrayToBytesCodec::Vlen(codec) => {
                codec.decode(alloc, bytes, shape, data_type, fill_value, options)
            }
        }
    }

    /// One worker. Never refused.
    fn recommended_concurrency(
        &self,
        _shape: &ChunkShape,
        _data_type: &DataType,
    ) -> Result<RecommendedConcurrency, CodecError> {
        Ok(RecommendedConcurrency::new_maximum(1))
    }

    /// As `encoded_representation` of the codec that it holds.
    fn encoded_representation(
        &self,
        alloc: Global,
        shape: &ChunkShape,
        data_type: &DataType,
        fill_value: &FillValue,
    ) -> Result<BytesRepresentation, CodecError> {
        match self {
            DefaultArrayToBytesCodec::Bytes(codec) => {
                codec.encoded_representation(alloc, shape, data_type, fill_value)
            }
            DefaultArrayToBytesCodec::Vlen(codec) => {
                codec.encoded_representation(alloc, shape, data_type, fill_value)
            }
        }
    }

    /// As `partial_decode` of the codec that it holds.
    fn partial_decode<H: BytesPartialDecoderTraits, N: Indexer>(
        &self,
        alloc: Global,
        handle: &mut H,
        interval: Interval,
        shape: &ChunkShape,
        data_type: &DataType,
        fill_value: &FillValue,
        indexer: &N,
        options: &CodecOptions,
    ) -> Result<ArrayBytes<'static>, CodecError> {
        match self {
            DefaultArrayToBytesCodec::Bytes(codec) => codec.partial_decode(
                alloc, handle, interval, shape, data_type, fill_value, indexer, options,
            ),
            DefaultArrayToBytesCodec::Vlen(codec) => codec.partial_decode(
                alloc, handle, interval, shape, data_type, fill_value, indexer, options,
            ),
        }
    }

    /// As `partial_decode_into` of the codec that it holds.
    fn partial_decode_into<H: BytesPartialDecoderTraits, N: Indexer>(
        &self,
        alloc: Global,
        handle: &mut H,
        stored: &StoredArray,
        indexer: &N,
        target: &mut FixedTarget,
        options: &CodecOptions,
    ) -> Result<(), CodecError> {
        match self {
            DefaultArrayToBytesCodec::Bytes(codec) => {
                codec.partial_decode_into(alloc, handle, stored, indexer, target, options)
            }
            DefaultArrayToBytesCodec::Vlen(codec) => {
                codec.partial_decode_into(alloc, handle, stored, indexer, target, options)
            }
        }
    }

    /// As `partial_decode_into_fresh` of the codec that it holds.
    fn partial_decode_into_fresh<H: BytesPartialDecoderTraits, N: Indexer>(
        &self,
        alloc: Global,
        handle: &mut H,
        stored: &StoredArray,
        indexer: &N,
        target: &mut FixedTarget,
        options: &CodecOptions,
    ) -> Result<(), CodecError> {
        match self {
            DefaultArrayToBytesCodec::Bytes(codec) => {
                codec.partial_decode_into_fresh(alloc, handle, stored, indexer, target, options)
            }
            DefaultArrayToBytesCodec::Vlen(codec) => {
                codec.partial_decode_into_fresh(alloc, handle, stored, indexer, target, options)
            }
        }
    }
}

impl FunctionalCodec for DefaultArrayToBytesCodec {
    ghost use Rattle.std.specs.Prelude.{true};
    ghost use Rattle.codec_vlen.specs.DefaultCodec.{default_encoding, default_one_encoding};

    ghost functional = { λ _. true };

    ghost encoding = { default_encoding };

    /// Always.
    fn is_functional(&self) -> bool {
        true
    }

    ghost one_encoding = { λ codec g elements b functional serves array written. default_one_encoding codec g elements b written };
}
