// An array that is encoded anew by another codec.
ghost use Rattle.std.specs.Prelude.{IfOk, IfErr, OnOk};
ghost use Rattle.parts_errors.specs.Order.{RefusedBy};
ghost use Rattle.parts_arrays.specs.ArraySpec.{array_spec};
ghost use Rattle.zarrs_sharding.specs.Resharding.{IsResharded, MayRefuseReshard, ReshardRefusals};

use codec_traits::ArrayToBytesCodecTraits;
use parts_arrays::{DataType, FillValue};
use parts_errors::{CodecError, CodecOptions};
use parts_subsets::ChunkShape;
use std::alloc::Global;

/// Encodes anew, by the codec `to`, the array that bytes are by the codec `from`: one of another subchunk shape, place of the
/// index, order or nesting (Zarr V3 core, "Codecs"). What the old bytes had beside the array is not kept. Refused, in this
/// order, as `check` of `from` refuses, as `check` of `to` does, as `from` refuses to decode the bytes, and as `to` refuses
/// to encode the array that they are; or as `OutOfMemory`.
pub fn reshard<C: ArrayToBytesCodecTraits, D: ArrayToBytesCodecTraits>(
    alloc: Global,
    from: &C,
    to: &D,
    encoded: &[u8],
    shape: &ChunkShape,
    data_type: &DataType,
    fill_value: &FillValue,
) -> Result<Vec<u8>, CodecError>
    ensures from_serves { OnOk result (C.meaning from.now (array_spec shape.now data_type.now fill_value.now)).serves }
    ensures to_serves { OnOk result (D.meaning to.now (array_spec shape.now data_type.now fill_value.now)).serves }
    ensures resharded { let g = array_spec shape.now data_type.now fill_value.now in
        IfOk result (λ new. IsResharded g (C.meaning from.now g) (D.meaning to.now g) encoded.now new.items) }
    ensures lawful { let g = array_spec shape.now data_type.now fill_value.now in let m = C.meaning from.now g in let n = D.meaning to.now g in
        IfErr result (λ e. m.serves → n.serves → MayRefuseReshard m n encoded.now e) }
    ensures refused { let g = array_spec shape.now data_type.now fill_value.now in
        IfErr result (RefusedBy (ReshardRefusals g (C.meaning from.now g) (D.meaning to.now g) encoded.now)) }
{
    let options = CodecOptions::default();
    from.check(alloc, shape, data_type, fill_value)?;
    to.check(alloc, shape, data_type, fill_value)?;
    let array = from.decode(alloc, encoded, shape, data_type, fill_value, &options)?;
    to.encode(alloc, &array, shape, data_type, fill_value, &options)
}
