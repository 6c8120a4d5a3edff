// What the laws of codecs give to callers that are generic in the codec.
ghost use Rattle.std.specs.Prelude.{◌≡◌, Some, IfOk, IfErr, map, length};
ghost use Rattle.parts_errors.specs.Order.{RefusedBy};
ghost use Rattle.parts_row_major.specs.Numbering.{number_of};
ghost use Rattle.parts_arrays.specs.Arrays.{element_of};
ghost use Rattle.parts_arrays.specs.ArraySpec.{array_spec, IsArrayOf};
ghost use Rattle.parts_arrays.specs.Types.{size_of};
ghost use Rattle.codec_traits.specs.RoundTrip.{MayRefuseRoundTrip};
ghost use Rattle.codec_traits.specs.Reads.{IsAnswer, RequestRefusals};

use crate::codec::ArrayToBytesCodecTraits;
use parts_arrays::{ArrayBytes, DataType, FillValue};
use parts_errors::{CodecError, CodecOptions};
use parts_subsets::{ChunkShape, Indexer};
use std::alloc::Global;
use storage_handles::{Interval, SliceHandle};

/// Decodes bytes that any codec's `encode` made of an array, which it serves: the bytes stand for the array's elements, and
/// the answer is equal to the array. Refused as `decode` refuses after the tests of `check`: only as `OutOfMemory`, or as
/// `TooLarge` where the elements' bytes pass what can be addressed.
pub fn decode_after_encode<'a, C: ArrayToBytesCodecTraits>(
    codec: &C,
    alloc: Global,
    _array: &ArrayBytes,
    encoded: &'a [u8],
    shape: &ChunkShape,
    data_type: &DataType,
    fill_value: &FillValue,
    options: &CodecOptions,
) -> Result<ArrayBytes<'a>, CodecError>
    requires serves { (C.meaning codec.now (array_spec shape.now data_type.now fill_value.now)).serves }
    requires kind { _array.now.kind ≡ size_of data_type.now }
    requires array { IsArrayOf (array_spec shape.now data_type.now fill_value.now) _array.now.elements }
    requires written { (C.meaning codec.now (array_spec shape.now data_type.now fill_value.now)).written _array.now.elements encoded.now }
    ensures cells { (C.meaning codec.now (array_spec shape.now data_type.now fill_value.now)).cells encoded.now ≡ map Some _array.now.elements }
    ensures same { IfOk result (λ decoded. decoded ≡ _array.now) }
    ensures lawful { IfErr result (MayRefuseRoundTrip _array.now.elements) }
    ensures refused { IfErr result (RefusedBy ((C.meaning codec.now (array_spec shape.now data_type.now fill_value.now)).decode_refusals encoded.now)) }
{
    codec.decode(alloc, encoded, shape, data_type, fill_value, options)
}

/// Reads some cells of bytes that any codec's `decode` made an array of, which it serves: the cells are the array's elements
/// at the requested coordinates, in their order. Refused as `partial_decode` refuses, after the tests of `check`, what is asked
/// and what it finds in bytes that are all there.
pub fn read_after_decode<C: ArrayToBytesCodecTraits, N: Indexer>(
    codec: &C,
    alloc: Global,
    bytes: &[u8],
    _decoded: &ArrayBytes,
    shape: &ChunkShape,
    data_type: &DataType,
    fill_value: &FillValue,
    indexer: &N,
) -> Result<ArrayBytes<'static>, CodecError>
    requires serves { (C.meaning codec.now (array_spec shape.now data_type.now fill_value.now)).serves }
    requires array { IsArrayOf (array_spec shape.now data_type.now fill_value.now) _decoded.now.elements }
    requires cells { (C.meaning codec.now (array_spec shape.now data_type.now fill_value.now)).cells bytes.now ≡ map Some _decoded.now.elements }
    ensures answer { IfOk result (IsAnswer (array_spec shape.now data_type.now fill_value.now) (N.selection indexer.now)) }
    ensures agree { IfOk result (λ cells. cells.elements ≡ map (λ point. element_of _decoded.now (number_of point shape.now)) (N.selection indexer.now).points) }
    ensures refused { let g = array_spec shape.now data_type.now fill_value.now in let m = C.meaning codec.now g in
        IfErr result (RefusedBy (
        RequestRefusals g (N.selection indexer.now) m.answerable (
        m.read_refusals bytes.now (N.selection indexer.now).points))) }
{
    let mut handle = SliceHandle::new(bytes);
    let interval = Interval {
        offset: 0,
        size: bytes.len() as u64,
    };
    codec.partial_decode(
        alloc,
        &mut handle,
        interval,
        shape,
        data_type,
        fill_value,
        indexer,
        &CodecOptions::default(),
    )
}
