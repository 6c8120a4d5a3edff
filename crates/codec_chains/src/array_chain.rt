// A codec with a codec from arrays to arrays before it.
ghost use Rattle.std.specs.Prelude.{◌≡◌, ◌<◌, ◌^◌, Some, IfOk, IfErr, OnOk, length};
ghost use Rattle.parts_errors.specs.Order.{done, RefusedBy};
ghost use Rattle.parts_row_major.specs.Numbering.{count_of};
ghost use Rattle.parts_arrays.specs.ArraySpec.{array_spec, IsArrayOf};
ghost use Rattle.parts_arrays.specs.Types.{size_of};
ghost use Rattle.parts_arrays.specs.Refusals.{IsValid};
ghost use Rattle.codec_traits.specs.Refusals.{MayRefuseDecode};
ghost use Rattle.codec_chains.specs.ArrayChains.{chain_elements, array_chain_cells, ArrayElementRefusals, ArrayChainDecodeRefusals};

use crate::array_to_array::ArrayToArrayCodecTraits;
use codec_traits::{
    ArrayToBytesCodecTraits, BytesRepresentation, FunctionalCodec, RecommendedConcurrency,
    requested_elements,
};
use parts_arrays::{ArrayBytes, DataType, FillValue};
use parts_errors::{CodecError, CodecOptions};
use parts_subsets::{ChunkShape, Indexer, check_selection};
use std::alloc::Global;
use storage_handles::{ByteRange, BytesPartialDecoderTraits, Interval, check_interval, read_range};

/// A codec from arrays to bytes with a codec from arrays to arrays before it. It serves what `C` serves, and gives it the same
/// shape, data type and fill value.
#[derive(Debug, Drop)]
pub struct ArrayChain<A, C> {
    /// The codec from arrays to arrays, which is the first to encode.
    pub array_to_array: A,
    /// The codec from arrays to bytes after it.
    pub array_to_bytes: C,
}

impl<A, C> ArrayChain<A, C> {
    /// The second codec with the first one before it.
    pub fn new(array_to_array: A, array_to_bytes: C) -> Self
        ensures { result ≡ record { array_to_array = array_to_array; array_to_bytes = array_to_bytes } }
    {
        ArrayChain {
            array_to_array,
            array_to_bytes,
        }
    }
}

// Tests that these are as many elements as a shape has cells, of a type's kind.
fn check_elements(
    array: &ArrayBytes,
    shape: &ChunkShape,
    data_type: &DataType,
) -> Result<(), CodecError>
    ensures kind { OnOk result (array.now.kind ≡ size_of data_type.now) }
    ensures counted { OnOk result (length array.now.elements ≡ count_of shape.now) }
    ensures refused { IfErr result (ArrayElementRefusals (size_of data_type.now) (count_of shape.now) array.now done) }
{
    if array.kind() != data_type.size() {
        return Err(CodecError::WrongElementKind);
    }
    if shape.num_elements() != Some(array.len() as u64) {
        return Err(CodecError::InvalidNumberOfElements);
    }
    Ok(())
}

// Decodes bytes that are served by the second codec, and the array by the first.
fn decode_both<A: ArrayToArrayCodecTraits, C: ArrayToBytesCodecTraits>(
    chain: &ArrayChain<A, C>,
    alloc: Global,
    bytes: &[u8],
    shape: &ChunkShape,
    data_type: &DataType,
    fill_value: &FillValue,
    options: &CodecOptions,
) -> Result<ArrayBytes<'static>, CodecError>
    requires { (C.meaning chain.now.array_to_bytes (array_spec shape.now data_type.now fill_value.now)).serves }
    ensures valid { IfOk result (λ array. IsValid array (count_of shape.now) data_type.now) }
    ensures array { IfOk result (λ array. IsArrayOf (array_spec shape.now data_type.now fill_value.now) array.elements) }
    ensures fits { OnOk result (count_of shape.now < 2 ^ 64) }
    ensures elements { let m = C.meaning chain.now.array_to_bytes (array_spec shape.now data_type.now fill_value.now) in
        IfOk result (λ array. chain_elements (A.coding chain.now.array_to_array) m bytes.now ≡ Some array.elements) }
    ensures lawful { let g = array_spec shape.now data_type.now fill_value.now in let m = C.meaning chain.now.array_to_bytes g in
        IfErr result (MayRefuseDecode (array_chain_cells (A.coding chain.now.array_to_array) m g bytes.now)) }
    ensures refused { let m = C.meaning chain.now.array_to_bytes (array_spec shape.now data_type.now fill_value.now) in
        IfErr result (RefusedBy (ArrayChainDecodeRefusals (A.coding chain.now.array_to_array) m bytes.now)) }
{
    let _axes = shape.as_slice();
    let encoded = chain
        .array_to_bytes
        .decode(alloc, bytes, shape, data_type, fill_value, options)?;
    let array = chain.array_to_array.decode(alloc, &encoded)?;
    let _kind = encoded.kind();
    let _count = encoded.len();
    Ok(array)
}

impl<A: ArrayToArrayCodecTraits, C: ArrayToBytesCodecTraits> ArrayToBytesCodecTraits
    for ArrayChain<A, C> {
    ghost use Rattle.codec_chains.specs.ArrayChains.{array_chain_meaning};
    ghost use Rattle.codec_chains.specs.ArrayChainLaws.{array_chain_lawful};

    ghost meaning = { λ s g. array_chain_meaning (A.coding s.array_to_array) (C.meaning s.array_to_bytes g) g };

    ghost concurrency = { λ s shape. C.concurrency s.array_to_bytes shape };

    ghost lawful = { λ s g. array_chain_lawful (A.coding s.array_to_array) (C.meaning s.array_to_bytes g) g
        (A.keeps_lengths s.array_to_array) (C.lawful s.array_to_bytes g) (A.invertible s.array_to_array) };

    ghost concurrency_faultless = { λ s shape e h. C.concurrency_faultless s.array_to_bytes shape e h };

    /// Refused as `check` of the second codec.
    fn check(
        &self,
        alloc: Global,
        shape: &ChunkShape,
        data_type: &DataType,
        fill_value: &FillValue,
    ) -> Result<(), CodecError> {
        self.array_to_bytes
            .check(alloc, shape, data_type, fill_value)
    }

    /// Encodes by the first codec, and its array by the second. Refused as `check` refuses, then, in this order, as
    /// `WrongElementKind`, as `InvalidNumberOfElements` and as the second codec refuses the array that it is given; or as
    /// `OutOfMemory`.
    fn encode(
        &self,
        alloc: Global,
        bytes: &ArrayBytes,
        shape: &ChunkShape,
        data_type: &DataType,
        fill_value: &FillValue,
        options: &CodecOptions,
    ) -> Result<Vec<u8>, CodecError> {
        self.array_to_bytes
            .check(alloc, shape, data_type, fill_value)?;
        check_elements(bytes, shape, data_type)?;
        let _kind = bytes.kind();
        let inner = self.array_to_array.encode(alloc, bytes)?;
        let encoded = self
            .array_to_bytes
            .encode(alloc, &inner, shape, data_type, fill_value, options)?;
        Ok(encoded)
    }

    /// Decodes by the second codec, and its array by the first. Refused as `decode` of the second codec, then as `Damaged` where
    /// the first has no inverse of the array.
    fn decode<'a>(
        &self,
        alloc: Global,
        bytes: &'a [u8],
        shape: &ChunkShape,
        data_type: &DataType,
        fill_value: &FillValue,
        options: &CodecOptions,
    ) -> Result<ArrayBytes<'a>, CodecError> {
        self.array_to_bytes
            .check(alloc, shape, data_type, fill_value)?;
        let array = decode_both(self, alloc, bytes, shape, data_type, fill_value, options)?;
        Ok(array)
    }

    /// As many as the second codec tells, and refused as it refuses.
    fn recommended_concurrency(
        &self,
        shape: &ChunkShape,
        data_type: &DataType,
    ) -> Result<RecommendedConcurrency, CodecError> {
        self.array_to_bytes
            .recommended_concurrency(shape, data_type)
    }

    /// How long encodings are by the second codec. Refused as it refuses.
    fn encoded_representation(
        &self,
        alloc: Global,
        shape: &ChunkShape,
        data_type: &DataType,
        fill_value: &FillValue,
    ) -> Result<BytesRepresentation, CodecError> {
        self.array_to_bytes
            .encoded_representation(alloc, shape, data_type, fill_value)
    }

    /// Reads the whole interval, and decodes all of it, since the first codec may need every element. Refused as the trait says,
    /// then as `decode` refuses its bytes.
    fn partial_decode<H: BytesPartialDecoderTraits, N: Indexer>(
        &self,
        alloc: Global,
        handle: &mut H,
        interval: Interval,
        shape: &ChunkShape,
        data_type: &DataType,
        fill_value: &FillValue,
        indexer: &N,
        options: &CodecOptions,
    ) -> Result<ArrayBytes<'static>, CodecError> {
        self.array_to_bytes
            .check(alloc, shape, data_type, fill_value)?;
        let many = check_selection(indexer, shape)?;
        check_interval(handle, interval)?;
        let mut room = Vec::new(alloc);
        let range = ByteRange::FromStart(interval.offset, Some(interval.size));
        let Some(bytes) = read_range(handle, &mut room, alloc, range)? else {
            return Err(CodecError::OutOfBounds);
        };
        let array = decode_both(self, alloc, bytes, shape, data_type, fill_value, options)?;
        let requested = requested_elements(alloc, &array, indexer, many, shape, data_type)?;
        Ok(requested)
    }
}

impl<A: ArrayToArrayCodecTraits, C: FunctionalCodec> FunctionalCodec for ArrayChain<A, C> {
    ghost use Rattle.codec_chains.specs.ArrayChainLaws.{same_array_of};

    ghost functional = { λ s. C.functional s.array_to_bytes };

    ghost encoding = { λ s g elements. C.encoding s.array_to_bytes g ((A.coding s.array_to_array).encoding elements) };

    /// Where the second codec is.
    fn is_functional(&self) -> bool {
        self.array_to_bytes.is_functional()
    }

    ghost one_encoding = { λ s g elements b functional serves array written.
        C.one_encoding s.array_to_bytes g ((A.coding s.array_to_array).encoding elements) b functional serves
        (same_array_of g elements ((A.coding s.array_to_array).encoding elements) ((A.keeps_lengths s.array_to_array).encoded elements) array) written };
}
