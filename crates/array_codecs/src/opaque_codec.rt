// A codec that is not looked into.
use codec_traits::{ArrayToBytesCodecTraits, BytesRepresentation, RecommendedConcurrency};
use parts_arrays::{ArrayBytes, DataType, FillValue};
use parts_errors::{CodecError, CodecOptions};
use parts_subsets::{ChunkShape, Indexer, check_selection};
use std::alloc::Global;
use storage_handles::{BytesPartialDecoderTraits, Interval, check_interval};

/// A codec that this program does not look into: it serves each array, encodes none, and to it bytes stand for no cell. So what
/// works on stored bytes alone works on its arrays.
#[derive(Debug, Clone, Copy, PartialEq, Eq)]
pub struct OpaqueCodec;

impl ArrayToBytesCodecTraits for OpaqueCodec {
    ghost use Rattle.std.specs.Prelude.{⊤};
    ghost use Rattle.parts_errors.specs.Order.{done};
    ghost use Rattle.array_codecs.specs.OpaqueCodec.{opaque_meaning};
    ghost use Rattle.array_codecs.specs.OpaqueLaws.{opaque_lawful};

    ghost meaning = { λ _. opaque_meaning };

    ghost concurrency = { λ _ _. record { served = ⊤; workers = 1; refusals = done } };

    ghost lawful = { λ _. opaque_lawful };

    ghost concurrency_faultless = { λ _ _ e h. absurd h };

    /// Never refused.
    fn check(
        &self,
        _alloc: Global,
        _shape: &ChunkShape,
        _data_type: &DataType,
        _fill_value: &FillValue,
    ) -> Result<(), CodecError> {
        Ok(())
    }

    /// Always refused as `CannotEncode`.
    fn encode(
        &self,
        _alloc: Global,
        _bytes: &ArrayBytes,
        _shape: &ChunkShape,
        _data_type: &DataType,
        _fill_value: &FillValue,
        _options: &CodecOptions,
    ) -> Result<Vec<u8>, CodecError> {
        Err(CodecError::CannotEncode)
    }

    /// Always refused as `Damaged`.
    fn decode<'a>(
        &self,
        _alloc: Global,
        _bytes: &'a [u8],
        shape: &ChunkShape,
        _data_type: &DataType,
        _fill_value: &FillValue,
        _options: &CodecOptions,
    ) -> Result<ArrayBytes<'a>, CodecError> {
        let _axes = shape.as_slice();
        Err(CodecError::Damaged)
    }

    /// One worker. Never refused.
    fn recommended_concurrency(
        &self,
        _shape: &ChunkShape,
        _data_type: &DataType,
    ) -> Result<RecommendedConcurrency, CodecError> {
        Ok(RecommendedConcurrency::new_maximum(1))
    }

    /// Nothing is said of the length of encodings. Never refused.
    fn encoded_representation(
        &self,
        _alloc: Global,
        _shape: &ChunkShape,
        _data_type: &DataType,
        _fill_value: &FillValue,
    ) -> Result<BytesRepresentation, CodecError> {
        Ok(BytesRepresentation::UnboundedSize)
    }

    /// Always refused: as the trait says, and then as `Damaged`. Reads no byte.
    fn partial_decode<H: BytesPartialDecoderTraits, N: Indexer>(
        &self,
        _alloc: Global,
        handle: &mut H,
        interval: Interval,
        shape: &ChunkShape,
        _data_type: &DataType,
        _fill_value: &FillValue,
        indexer: &N,
        _options: &CodecOptions,
    ) -> Result<ArrayBytes<'static>, CodecError> {
        let _axes = shape.as_slice();
        let _ = check_selection(indexer, shape)?;
        check_interval(handle, interval)?;
        Err(CodecError::Damaged)
    }
}
