// The codec `bytes`.
ghost use Rattle.std.specs.Prelude.{◌≡◌, Some, IfOk, IfErr, IfSome, IfNone, OnErr};
ghost use Rattle.parts_arrays.specs.ArraySpec.{array_spec};
ghost use Rattle.parts_arrays.specs.Types.{size_of, byte_size};
ghost use Rattle.codec_bytes.specs.BytesCodec.{is_whole_number, KnowsOrder, SwapsAs, IsMeasured, BytesServes, BytesCheckRefusals};
ghost use Rattle.codec_bytes.specs.declared.bytes_codec.Endianness.TheVariants.{Little, Big};

use crate::byte_order::{ElementOrder, append, array_of_bytes, put_in_memory, requested_in_memory};
use codec_traits::{
    ArrayToBytesCodecTraits, BytesRepresentation, FunctionalCodec, RecommendedConcurrency,
    StoredArray, check_target,
};
use parts_arrays::{ArrayBytes, DataType, DataTypeSize, FillValue, FixedTarget};
use parts_errors::{CodecError, CodecOptions};
use parts_subsets::{ChunkShape, Indexer, check_selection};
use std::alloc::Global;
use std::marker::Model;
use storage_handles::{ByteRange, BytesPartialDecoderTraits, Interval, check_interval, read_range};

/// In which order the bytes of a whole number are stored.
#[derive(Debug, Clone, Copy, PartialEq, Eq)]
pub enum Endianness {
    Little,
    Big,
}

/// Lays the elements one after the other (Zarr V3 codec `bytes`). With an endianness the bytes of whole
/// numbers are stored in that order; without one, whole-number types longer than one byte are refused. The
/// elements of `Bool` and `Raw` are stored as they are.
#[derive(Debug, Clone, Copy, PartialEq, Eq)]
pub struct BytesCodec {
    endianness: Option<Endianness>,
}

impl Model for BytesCodec {
    ghost use Rattle.std.specs.Prelude.{Option};
    ghost use Rattle.codec_bytes.specs.declared.bytes_codec.Endianness.{Endianness};

    // the byte order of whole numbers, where the codec has one
    ghost Value = { Option Endianness };

    ghost view = { λ codec. codec.endianness };

    ghost inverse = { λ endianness. record { endianness = endianness } };
}

impl Default for BytesCodec {
    ghost use Rattle.std.specs.Prelude.{◌≡◌, Some};
    ghost use Rattle.codec_bytes.specs.declared.bytes_codec.Endianness.TheVariants.{Little};

    ghost is_default = { λ codec. codec ≡ Some Little };

    /// The codec that stores whole numbers with their least significant byte first.
    fn default() -> Self {
        Self::little()
    }
}

impl BytesCodec {
    /// The codec with an endianness, or without one.
    pub fn new(endianness: Option<Endianness>) -> Self
        ensures { result ≡ endianness }
    {
        BytesCodec { endianness }
    }

    /// The codec that stores whole numbers with their least significant byte first.
    pub fn little() -> Self
        ensures { result ≡ Some Little }
    {
        BytesCodec::new(Some(Endianness::Little))
    }

    /// The codec that stores whole numbers with their most significant byte first.
    pub fn big() -> Self
        ensures { result ≡ Some Big }
    {
        BytesCodec::new(Some(Endianness::Big))
    }

    /// The byte order of whole numbers, where the codec has one.
    pub fn endianness(&self) -> Option<Endianness>
        ensures { result ≡ self.now }
    {
        self.endianness
    }

    // Whether the bytes of the type's elements are stored reversed. `None` where they have an order that
    // the codec doesn't know.
    fn reversal(&self, data_type: &DataType, size: usize) -> Option<bool>
        requires { size ≡ byte_size (size_of data_type.now) }
        ensures known { IfSome result (λ reversed. KnowsOrder self.now data_type.now) }
        ensures swaps { IfSome result (λ reversed. SwapsAs self.now data_type.now reversed) }
        ensures unknown { IfNone result (¬ KnowsOrder self.now data_type.now) }
    {
        let ordered = size > 1 && is_whole(data_type);
        match self.endianness {
            None if ordered => None,
            Some(Endianness::Big) => Some(ordered),
            _ => Some(false),
        }
    }

    // The tests of `check` in their order, and what they find.
    #[inline(always)]
    fn measured(
        &self,
        shape: &ChunkShape,
        data_type: &DataType,
        fill_value: &FillValue,
    ) -> Result<Measure, CodecError>
        ensures measured { IfOk result (λ m. IsMeasured self.now (array_spec shape.now data_type.now fill_value.now)
            m.size m.count m.total m.reversed) }
        ensures unserved { OnErr result (¬ BytesServes self.now (array_spec shape.now data_type.now fill_value.now)) }
        ensures refused { IfErr result (BytesCheckRefusals self.now (array_spec shape.now data_type.now fill_value.now)) }
    {
        let size = match data_type.size() {
            DataTypeSize::Fixed(size) => size,
            DataTypeSize::Variable => return Err(CodecError::UnsupportedDataType),
        };
        if size == 0 {
            return Err(CodecError::UnsupportedDataType);
        }
        let Some(reversed) = self.reversal(data_type, size) else {
            return Err(CodecError::UnsupportedDataType);
        };
        if fill_value.as_ne_bytes().len() != size {
            return Err(CodecError::BadFillValue);
        }
        let Some(count) = shape.num_elements() else {
            return Err(CodecError::TooLarge);
        };
        let Some(total) = count.checked_mul(size as u64) else {
            return Err(CodecError::TooLarge);
        };
        Ok(Measure {
            size,
            count,
            total,
            reversed,
        })
    }
}

// What a call needs to know of an array that is served.
#[derive(Drop)]
struct Measure {
    // the bytes of one element
    size: usize,
    // how many elements there are
    count: u64,
    // the bytes of all elements
    total: u64,
    // whether each element's bytes are stored reversed
    reversed: bool,
}

// Whether the elements of a type are whole numbers.
fn is_whole(data_type: &DataType) -> bool
    ensures { result ≡ is_whole_number data_type.now }
{
    !matches!(
        data_type,
        DataType::Bool | DataType::Raw(_) | DataType::Bytes | DataType::Optional
    )
}

impl ArrayToBytesCodecTraits for BytesCodec {
    ghost use Rattle.std.specs.Prelude.{⊤};
    ghost use Rattle.parts_errors.specs.Order.{done};
    ghost use Rattle.codec_bytes.specs.BytesCodec.{bytes_meaning};
    ghost use Rattle.codec_bytes.specs.BytesCodecLaws.{bytes_lawful};

    ghost meaning = { bytes_meaning };

    ghost concurrency = { λ _ _. record { served = ⊤; workers = 1; refusals = done } };

    ghost lawful = { bytes_lawful };

    ghost concurrency_faultless = { λ _ _ e h. absurd h };

    /// Tests whether the codec serves these arrays. Refused, in this order, as `UnsupportedDataType`
    /// (`Optional`, `Raw(0)`, `Bytes`, or without an endianness a whole number longer than one byte),
    /// `BadFillValue`, or `TooLarge` where the elements' bytes pass `u64::MAX`.
    fn check(
        &self,
        _alloc: Global,
        shape: &ChunkShape,
        data_type: &DataType,
        fill_value: &FillValue,
    ) -> Result<(), CodecError> {
        let _ = self.measured(shape, data_type, fill_value)?;
        Ok(())
    }

    /// Lays the elements one after the other. Refused as `check` refuses, then as `WrongElementKind` or
    /// `InvalidNumberOfElements`; or as `OutOfMemory`.
    fn encode(
        &self,
        alloc: Global,
        bytes: &ArrayBytes,
        shape: &ChunkShape,
        data_type: &DataType,
        fill_value: &FillValue,
        options: &CodecOptions,
    ) -> Result<Vec<u8>, CodecError> {
        let mut encoded = Vec::new(alloc);
        self.encode_onto(
            alloc,
            bytes,
            shape,
            data_type,
            fill_value,
            &mut encoded,
            options,
        )?;
        Ok(encoded)
    }

    /// Lays the elements one after the other behind the bytes that are there. Refused as `encode`.
    fn encode_onto(
        &self,
        _alloc: Global,
        bytes: &ArrayBytes,
        shape: &ChunkShape,
        data_type: &DataType,
        fill_value: &FillValue,
        encoded: &mut Vec<u8>,
        _options: &CodecOptions,
    ) -> Result<(), CodecError> {
        let Measure {
            size,
            count,
            reversed,
            ..
        } = self.measured(shape, data_type, fill_value)?;
        let Some(elements) = bytes.fixed_bytes() else {
            return Err(CodecError::WrongElementKind);
        };
        if bytes.kind() != DataTypeSize::Fixed(size) {
            return Err(CodecError::WrongElementKind);
        }
        if bytes.len() as u64 != count {
            return Err(CodecError::InvalidNumberOfElements);
        }
        append(encoded, elements, size, reversed)?;
        Ok(())
    }

    /// The bytes of all elements, where they are stored as in memory.
    fn plain_size(
        &self,
        shape: &ChunkShape,
        data_type: &DataType,
        fill_value: &FillValue,
    ) -> Option<u64> {
        match self.measured(shape, data_type, fill_value) {
            Ok(
                Measure {
                    total,
                    reversed,
                    ..
                },
            ) if !reversed => Some(total),
            _ => None,
        }
    }

    /// One worker. Never refused.
    fn recommended_concurrency(
        &self,
        _shape: &ChunkShape,
        _data_type: &DataType,
    ) -> Result<RecommendedConcurrency, CodecError> {
        Ok(RecommendedConcurrency::new_maximum(1))
    }

    /// The elements that the bytes are, which are lent on where they are stored as in memory. Refused as
    /// `check` refuses, then as `Damaged` where the bytes have another length; or as `OutOfMemory`.
    fn decode<'a>(
        &self,
        alloc: Global,
        bytes: &'a [u8],
        shape: &ChunkShape,
        data_type: &DataType,
        fill_value: &FillValue,
        _options: &CodecOptions,
    ) -> Result<ArrayBytes<'a>, CodecError> {
        let Measure {
            size,
            total,
            reversed,
            ..
        } = self.measured(shape, data_type, fill_value)?;
        if bytes.len() as u64 != total {
            return Err(CodecError::Damaged);
        }
        let array = array_of_bytes(alloc, bytes, size, reversed)?;
        Ok(array)
    }

    /// Reads the whole interval. Refused as the trait says, then as `Damaged` where the interval has another length, and as
    /// `TooLarge` where the bytes of the requested elements pass `u64::MAX`.
    fn partial_decode<H: BytesPartialDecoderTraits, N: Indexer>(
        &self,
        alloc: Global,
        handle: &mut H,
        interval: Interval,
        shape: &ChunkShape,
        data_type: &DataType,
        fill_value: &FillValue,
        indexer: &N,
        _options: &CodecOptions,
    ) -> Result<ArrayBytes<'static>, CodecError> {
        let Measure {
            size,
            total,
            reversed,
            ..
        } = self.measured(shape, data_type, fill_value)?;
        let count = check_selection(indexer, shape)?;
        check_interval(handle, interval)?;
        if interval.size != total {
            return Err(CodecError::Damaged);
        }
        let Some(_) = count.checked_mul(size as u64) else {
            return Err(CodecError::TooLarge);
        };
        let mut room = Vec::new(alloc);
        let range = ByteRange::FromStart(interval.offset, Some(total));
        let Some(bytes) = read_range(handle, &mut room, alloc, range)? else {
            return Err(CodecError::OutOfBounds);
        };
        let element = ElementOrder { size, reversed };
        let requested = requested_in_memory(
            alloc, bytes, element, indexer, count, shape, data_type,
        )?;
        Ok(requested)
    }

    /// As `partial_decode`, with the tests of a target before those of what is asked. Where the bytes are stored as in memory, the
    /// elements of a subset go from there to the target with no copy between.
    fn partial_decode_into<H: BytesPartialDecoderTraits, N: Indexer>(
        &self,
        alloc: Global,
        handle: &mut H,
        stored: &StoredArray,
        indexer: &N,
        target: &mut FixedTarget,
        _options: &CodecOptions,
    ) -> Result<(), CodecError> {
        let StoredArray {
            interval,
            shape,
            data_type,
            fill_value,
        } = *stored;
        let Measure {
            size,
            total,
            reversed,
            ..
        } = self.measured(shape, data_type, fill_value)?;
        check_target(target, indexer.len(), data_type)?;
        let count = check_selection(indexer, shape)?;
        check_interval(handle, interval)?;
        if interval.size != total {
            return Err(CodecError::Damaged);
        }
        let Some(_) = count.checked_mul(size as u64) else {
            return Err(CodecError::TooLarge);
        };
        let mut room = Vec::new(alloc);
        let range = ByteRange::FromStart(interval.offset, Some(total));
        let Some(bytes) = read_range(handle, &mut room, alloc, range)? else {
            return Err(CodecError::OutOfBounds);
        };
        let element = ElementOrder { size, reversed };
        put_in_memory(alloc, bytes, element, stored, indexer, count, target)
    }

    /// Each encoding has this length. Refused as `check` refuses.
    fn encoded_representation(
        &self,
        _alloc: Global,
        shape: &ChunkShape,
        data_type: &DataType,
        fill_value: &FillValue,
    ) -> Result<BytesRepresentation, CodecError> {
        let Measure { total, .. } = self.measured(shape, data_type, fill_value)?;
        Ok(BytesRepresentation::FixedSize(total))
    }
}

impl FunctionalCodec for BytesCodec {
    ghost use Rattle.std.specs.Prelude.{true};
    ghost use Rattle.codec_bytes.specs.BytesCodec.{bytes_of};

    ghost functional = { λ _. true };

    ghost encoding = { λ endianness g a. bytes_of endianness g a };

    /// Always.
    fn is_functional(&self) -> bool {
        true
    }

    ghost one_encoding = { λ endianness g a b functional s h e. e };
}
