// A codec with the codec `transpose` before it.
ghost use Rattle.std.specs.Prelude.{◌≡◌, ◌<◌, ◌^◌, Some, None, IfOk, IfErr, OnOk, length, map};
ghost use Rattle.parts_errors.specs.Order.{done, RefusedBy};
ghost use Rattle.parts_row_major.specs.Numbering.{count_of};
ghost use Rattle.parts_arrays.specs.ArraySpec.{array_spec, IsArrayOf};
ghost use Rattle.parts_arrays.specs.Types.{size_of};
ghost use Rattle.parts_arrays.specs.Refusals.{IsValid};
ghost use Rattle.codec_traits.specs.Refusals.{RefusesUnserved, MayRefuseDecode};
ghost use Rattle.codec_chains.specs.ArrayChains.{ArrayElementRefusals};
ghost use Rattle.array_codecs.specs.AxisOrders.{permuted, transposed};
ghost use Rattle.array_codecs.specs.TransposeCodec.{TransposeServes, transpose_meaning, transposed_spec};

use crate::axis_order::AxisOrder;
use crate::moved_rows::moved_elements;
use codec_traits::{
    ArrayToBytesCodecTraits, BytesRepresentation, RecommendedConcurrency, requested_elements,
};
use parts_arrays::{ArrayBytes, DataType, FillValue};
use parts_errors::{CodecError, CodecOptions};
use parts_subsets::{ChunkShape, Indexer, check_selection};
use std::alloc::Global;
use storage_handles::{ByteRange, BytesPartialDecoderTraits, Interval, check_interval, read_range};

/// A codec from arrays to bytes, with the codec `transpose` before it (Zarr V3, codec `transpose`). It serves the arrays of as many axes as
/// the order has, whose transposed ones `C` serves.
#[derive(Debug, Drop)]
pub struct TransposeCodec<C> {
    /// The axes of an array in the order of the transposed one.
    pub order: AxisOrder,
    /// The codec of transposed arrays.
    pub codec: C,
}

// Tests that these are as many elements as a shape has cells, of a type's kind.
fn check_elements(
    array: &ArrayBytes,
    shape: &ChunkShape,
    data_type: &DataType,
) -> Result<(), CodecError>
    ensures kind { OnOk result (array.now.kind ≡ size_of data_type.now) }
    ensures counted { OnOk result (length array.now.elements ≡ count_of shape.now) }
    ensures refused { IfErr result (ArrayElementRefusals (size_of data_type.now) (count_of shape.now) array.now done) }
{
    if array.kind() != data_type.size() {
        return Err(CodecError::WrongElementKind);
    }
    if shape.num_elements() != Some(array.len() as u64) {
        return Err(CodecError::InvalidNumberOfElements);
    }
    Ok(())
}

impl<C: ArrayToBytesCodecTraits> TransposeCodec<C> {
    // The shape of the transposed array, where these arrays are served.
    fn served_shape(
        &self,
        alloc: Global,
        shape: &ChunkShape,
        data_type: &DataType,
        fill_value: &FillValue,
    ) -> Result<ChunkShape, CodecError>
        ensures axes { OnOk result (length shape.now ≡ length self.now.order) }
        ensures shape { IfOk result (λ inner. inner ≡ permuted self.now.order shape.now) }
        ensures serves { let g = array_spec shape.now data_type.now fill_value.now in
            OnOk result (TransposeServes self.now.order (C.meaning self.now.codec (transposed_spec self.now.order g)) g) }
        ensures refused { let g = array_spec shape.now data_type.now fill_value.now in
            IfErr result (RefusedBy (RefusesUnserved (transpose_meaning self.now.order (C.meaning self.now.codec (transposed_spec self.now.order g)) g))) }
    {
        let order = self.order.as_slice();
        if shape.as_slice().len() != order.len() {
            return Err(CodecError::IncompatibleDimensionality);
        }
        let inner_shape = self.order.transposed_shape(alloc, shape)?;
        self.codec
            .check(alloc, &inner_shape, data_type, fill_value)?;
        Ok(inner_shape)
    }

    // Decodes bytes that are served.
    fn decode_served(
        &self,
        alloc: Global,
        bytes: &[u8],
        shape: &ChunkShape,
        data_type: &DataType,
        fill_value: &FillValue,
        options: &CodecOptions,
    ) -> Result<ArrayBytes<'static>, CodecError>
        requires axes { length shape.now ≡ length self.now.order }
        requires serves { let g = array_spec shape.now data_type.now fill_value.now in
            (C.meaning self.now.codec (transposed_spec self.now.order g)).serves }
        ensures valid { IfOk result (λ array. IsValid array (count_of shape.now) data_type.now) }
        ensures array { IfOk result (λ array. IsArrayOf (array_spec shape.now data_type.now fill_value.now) array.elements) }
        ensures fits { OnOk result (count_of shape.now < 2 ^ 64) }
        ensures cells { let g = array_spec shape.now data_type.now fill_value.now in let m = C.meaning self.now.codec (transposed_spec self.now.order g) in
            IfOk result (λ array. transposed self.now.order shape.now None (m.cells bytes.now) ≡ map Some array.elements) }
        ensures lawful { let g = array_spec shape.now data_type.now fill_value.now in let m = C.meaning self.now.codec (transposed_spec self.now.order g) in
            IfErr result (MayRefuseDecode (transposed self.now.order shape.now None (m.cells bytes.now))) }
        ensures refused { let g = array_spec shape.now data_type.now fill_value.now in let m = C.meaning self.now.codec (transposed_spec self.now.order g) in
            IfErr result (RefusedBy (m.decode_refusals bytes.now)) }
    {
        let order = self.order.as_slice();
        let inner_shape = self.order.transposed_shape(alloc, shape)?;
        let inner = self
            .codec
            .decode(alloc, bytes, &inner_shape, data_type, fill_value, options)?;
        let _kind = inner.kind();
        let _count = inner.len();
        let inverse = self.order.inverse();
        let array = moved_elements(alloc, &inner, order, inverse, shape, &inner_shape)?;
        Ok(array)
    }
}

impl<C: ArrayToBytesCodecTraits> ArrayToBytesCodecTraits for TransposeCodec<C> {
    ghost use Rattle.array_codecs.specs.TransposeCodec.{transpose_meaning, transposed_spec, one_worker};
    ghost use Rattle.array_codecs.specs.TransposeLaws.{transpose_lawful};

    ghost meaning = { λ s g. transpose_meaning s.order (C.meaning s.codec (transposed_spec s.order g)) g };

    ghost concurrency = { λ _ _. one_worker };

    ghost lawful = { λ s g. transpose_lawful s.order (C.meaning s.codec (transposed_spec s.order g)) g (C.lawful s.codec (transposed_spec s.order g)) };

    ghost concurrency_faultless = { λ _ _ e h. absurd h };

    /// Refused as `IncompatibleDimensionality` where the shape has other axes than the order, then as `check` of the codec refuses the
    /// transposed arrays.
    fn check(
        &self,
        alloc: Global,
        shape: &ChunkShape,
        data_type: &DataType,
        fill_value: &FillValue,
    ) -> Result<(), CodecError> {
        let _shape = self.served_shape(alloc, shape, data_type, fill_value)?;
        Ok(())
    }

    /// Encodes the transposed array. Refused as `check` refuses, then, in this order, as `WrongElementKind`, as
    /// `InvalidNumberOfElements` and as the codec refuses the transposed array; or as `OutOfMemory`.
    fn encode(
        &self,
        alloc: Global,
        bytes: &ArrayBytes,
        shape: &ChunkShape,
        data_type: &DataType,
        fill_value: &FillValue,
        options: &CodecOptions,
    ) -> Result<Vec<u8>, CodecError> {
        let inner_shape = self.served_shape(alloc, shape, data_type, fill_value)?;
        check_elements(bytes, shape, data_type)?;
        let _kind = bytes.kind();
        let (order, inverse) = (self.order.as_slice(), self.order.inverse());
        let inner = moved_elements(alloc, bytes, inverse, order, &inner_shape, shape)?;
        let encoded = self.codec.encode(
            alloc,
            &inner,
            &inner_shape,
            data_type,
            fill_value,
            options,
        )?;
        Ok(encoded)
    }

    /// Decodes the transposed array. Refused as `check` refuses, and as `decode` of the codec.
    fn decode<'a>(
        &self,
        alloc: Global,
        bytes: &'a [u8],
        shape: &ChunkShape,
        data_type: &DataType,
        fill_value: &FillValue,
        options: &CodecOptions,
    ) -> Result<ArrayBytes<'a>, CodecError> {
        let _shape = self.served_shape(alloc, shape, data_type, fill_value)?;
        let array = self.decode_served(alloc, bytes, shape, data_type, fill_value, options)?;
        Ok(array)
    }

    /// One worker. Never refused.
    fn recommended_concurrency(
        &self,
        _shape: &ChunkShape,
        _data_type: &DataType,
    ) -> Result<RecommendedConcurrency, CodecError> {
        Ok(RecommendedConcurrency::new_maximum(1))
    }

    /// How long encodings of the transposed array are. Refused as `check` refuses, and as the codec.
    fn encoded_representation(
        &self,
        alloc: Global,
        shape: &ChunkShape,
        data_type: &DataType,
        fill_value: &FillValue,
    ) -> Result<BytesRepresentation, CodecError> {
        let inner_shape = self.served_shape(alloc, shape, data_type, fill_value)?;
        self.codec
            .encoded_representation(alloc, &inner_shape, data_type, fill_value)
    }

    /// Reads the whole interval, and decodes all of it. Refused as the trait says, then as `decode` refuses its bytes.
    fn partial_decode<H: BytesPartialDecoderTraits, N: Indexer>(
        &self,
        alloc: Global,
        handle: &mut H,
        interval: Interval,
        shape: &ChunkShape,
        data_type: &DataType,
        fill_value: &FillValue,
        indexer: &N,
        options: &CodecOptions,
    ) -> Result<ArrayBytes<'static>, CodecError> {
        let _shape = self.served_shape(alloc, shape, data_type, fill_value)?;
        let many = check_selection(indexer, shape)?;
        check_interval(handle, interval)?;
        let mut room = Vec::new(alloc);
        let range = ByteRange::FromStart(interval.offset, Some(interval.size));
        let Some(bytes) = read_range(handle, &mut room, alloc, range)? else {
            return Err(CodecError::OutOfBounds);
        };
        let array = self.decode_served(alloc, bytes, shape, data_type, fill_value, options)?;
        let requested = requested_elements(alloc, &array, indexer, many, shape, data_type)?;
        Ok(requested)
    }
}
