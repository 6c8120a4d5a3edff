// The codec for elements that have lengths of their own.
ghost use Rattle.std.specs.Prelude.{◌≡◌, ◌<◌, IfOk, IfErr, OnOk, OnErr};
ghost use Rattle.parts_row_major.specs.Numbering.{count_of};
ghost use Rattle.parts_arrays.specs.ArraySpec.{array_spec};
ghost use Rattle.codec_vlen.specs.VlenCodec.{VlenServes, VlenCheckRefusals};

use crate::text::{read_text, text_len, text_of};
use codec_traits::{
    ArrayToBytesCodecTraits, BytesRepresentation, FunctionalCodec, RecommendedConcurrency,
    requested_elements,
};
use parts_arrays::{ArrayBytes, DataType, DataTypeSize, FillValue};
use parts_errors::{CodecError, CodecOptions};
use parts_subsets::{ChunkShape, Indexer, check_selection};
use std::alloc::Global;
use storage_handles::{ByteRange, BytesPartialDecoderTraits, Interval, check_interval, read_range};

/// The codec of variable-length elements: a 4-byte count, then each element preceded by its 4-byte length. Count and lengths are
/// little endian. It serves the type `Bytes`.
#[derive(Debug, Clone, Copy, PartialEq, Eq)]
pub struct VlenCodec;

// The tests of `check` in their order, and how many elements there are. What fill value the array has is not looked at.
fn counted(
    shape: &ChunkShape,
    data_type: &DataType,
    _fill_value: &FillValue,
) -> Result<u64, CodecError>
    ensures serves { OnOk result (VlenServes (array_spec shape.now data_type.now _fill_value.now)) }
    ensures count { IfOk result (λ count. count ≡ count_of shape.now) }
    ensures some { OnOk result (0 < count_of shape.now) }
    ensures unserved { OnErr result (¬ VlenServes (array_spec shape.now data_type.now _fill_value.now)) }
    ensures refused { IfErr result (VlenCheckRefusals (array_spec shape.now data_type.now _fill_value.now)) }
{
    if data_type.size() != DataTypeSize::Variable {
        return Err(CodecError::UnsupportedDataType);
    }
    let Some(count) = shape.num_elements() else {
        return Err(CodecError::TooLarge);
    };
    Ok(count)
}

impl ArrayToBytesCodecTraits for VlenCodec {
    ghost use Rattle.std.specs.Prelude.{⊤};
    ghost use Rattle.parts_errors.specs.Order.{done};
    ghost use Rattle.codec_vlen.specs.VlenCodec.{vlen_meaning};
    ghost use Rattle.codec_vlen.specs.VlenLaws.{vlen_lawful};

    ghost meaning = { λ _. vlen_meaning };

    ghost concurrency = { λ _ _. record { served = ⊤; workers = 1; refusals = done } };

    ghost lawful = { λ _. vlen_lawful };

    ghost concurrency_faultless = { λ _ _ e h. absurd h };

    /// Tests whether the codec serves these arrays. Refused, in this order, as `UnsupportedDataType` (any type but `Bytes`) and as
    /// `TooLarge` where the count passes `u64::MAX`.
    fn check(
        &self,
        _alloc: Global,
        shape: &ChunkShape,
        data_type: &DataType,
        fill_value: &FillValue,
    ) -> Result<(), CodecError> {
        let _ = counted(shape, data_type, fill_value)?;
        Ok(())
    }

    /// The text of the elements. Refused as `check` refuses, then, in this order, as `WrongElementKind`, `InvalidNumberOfElements`,
    /// `CannotEncode` (a count or a length of 2^32 or more) and `TooLarge`; or as `OutOfMemory`.
    fn encode(
        &self,
        alloc: Global,
        bytes: &ArrayBytes,
        shape: &ChunkShape,
        data_type: &DataType,
        fill_value: &FillValue,
        _options: &CodecOptions,
    ) -> Result<Vec<u8>, CodecError> {
        let count = counted(shape, data_type, fill_value)?;
        if bytes.kind() != DataTypeSize::Variable {
            return Err(CodecError::WrongElementKind);
        }
        if bytes.len() as u64 != count {
            return Err(CodecError::InvalidNumberOfElements);
        }
        let len = text_len(bytes)?;
        let text = text_of(alloc, bytes, len)?;
        Ok(text)
    }

    /// One worker. Never refused.
    fn recommended_concurrency(
        &self,
        _shape: &ChunkShape,
        _data_type: &DataType,
    ) -> Result<RecommendedConcurrency, CodecError> {
        Ok(RecommendedConcurrency::new_maximum(1))
    }

    /// The elements that the encoding is of. No count grows anything that the encoding is too short for. Refused as `check`
    /// refuses, then as `Damaged` where it is no text of as many elements; or as `OutOfMemory`.
    fn decode<'a>(
        &self,
        alloc: Global,
        bytes: &'a [u8],
        shape: &ChunkShape,
        data_type: &DataType,
        fill_value: &FillValue,
        _options: &CodecOptions,
    ) -> Result<ArrayBytes<'a>, CodecError> {
        let count = counted(shape, data_type, fill_value)?;
        let array = read_text(alloc, bytes, count)?;
        Ok(array)
    }

    /// Reads the whole interval. Refused as the trait says, then as `Damaged` where its bytes are no text of as many elements as
    /// the shape has.
    fn partial_decode<H: BytesPartialDecoderTraits, N: Indexer>(
        &self,
        alloc: Global,
        handle: &mut H,
        interval: Interval,
        shape: &ChunkShape,
        data_type: &DataType,
        fill_value: &FillValue,
        indexer: &N,
        _options: &CodecOptions,
    ) -> Result<ArrayBytes<'static>, CodecError> {
        let count = counted(shape, data_type, fill_value)?;
        let many = check_selection(indexer, shape)?;
        check_interval(handle, interval)?;
        let mut room = Vec::new(alloc);
        let range = ByteRange::FromStart(interval.offset, Some(interval.size));
        let Some(bytes) = read_range(handle, &mut room, alloc, range)? else {
            return Err(CodecError::OutOfBounds);
        };
        let array = read_text(alloc, bytes, count)?;
        let requested = requested_elements(alloc, &array, indexer, many, shape, data_type)?;
        Ok(requested)
    }

    /// Nothing is said of the length of encodings. Refused as `check` refuses.
    fn encoded_representation(
        &self,
        _alloc: Global,
        shape: &ChunkShape,
        data_type: &DataType,
        fill_value: &FillValue,
    ) -> Result<BytesRepresentation, CodecError> {
        let _ = counted(shape, data_type, fill_value)?;
        Ok(BytesRepresentation::UnboundedSize)
    }
}

impl FunctionalCodec for VlenCodec {
    ghost use Rattle.std.specs.Prelude.{true};
    ghost use Rattle.codec_vlen.specs.Text.{vlen_text};

    ghost functional = { λ _. true };

    ghost encoding = { λ _ g elements. vlen_text elements };

    /// Always.
    fn is_functional(&self) -> bool {
        true
    }

    ghost one_encoding = { λ codec g elements b functional serves array written. written.text };
}
