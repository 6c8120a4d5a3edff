// What a reshard tells, as contracts of calls.
ghost use Rattle.std.specs.Prelude.{◌≡◌, Some, IfOk, IfErr, IsTrue, map};
ghost use Rattle.parts_errors.specs.Order.{RefusedBy};
ghost use Rattle.parts_arrays.specs.ArraySpec.{array_spec};
ghost use Rattle.parts_arrays.specs.Types.{size_of};
ghost use Rattle.sharding_index.specs.steps.Plans.{spec_of};
ghost use Rattle.zarrs_sharding.specs.Resharding.{IsResharded, IsReshardedTo, MayRefuseDecodeAgain, ReshardRefusals};

use crate::encode_anew::reshard;
use codec_traits::{ArrayToBytesCodecTraits, FunctionalCodec};
use parts_arrays::{ArrayBytes, DataType, FillValue};
use parts_errors::{CodecError, CodecOptions};
use parts_subsets::ChunkShape;
use sharding_format::ArraySpecRef;
use std::alloc::Global;

/// Reshards to a codec of which each array has one encoding (`is_functional`): the answer is the encoding of the array that
/// the bytes are by `from`. Refused as `reshard`.
pub fn reshard_functional<C: ArrayToBytesCodecTraits, D: FunctionalCodec>(
    alloc: Global,
    from: &C,
    to: &D,
    encoded: &[u8],
    shape: &ChunkShape,
    data_type: &DataType,
    fill_value: &FillValue,
) -> Result<Vec<u8>, CodecError>
    requires functional { IsTrue (D.functional to.now) }
    ensures encoding { let g = array_spec shape.now data_type.now fill_value.now in
        IfOk result (λ new. IsReshardedTo g (C.meaning from.now g) (D.encoding to.now g) encoded.now new.items) }
    ensures refused { let g = array_spec shape.now data_type.now fill_value.now in
        IfErr result (RefusedBy (ReshardRefusals g (C.meaning from.now g) (D.meaning to.now g) encoded.now)) }
{
    reshard(alloc, from, to, encoded, shape, data_type, fill_value)
}

/// Decodes, by `to`, what `reshard` made of bytes: the answer is the array that the old bytes are by `from`. Refused only as
/// `OutOfMemory`, or as `TooLarge` where the elements' bytes pass what can be addressed.
pub fn decode_after_reshard<'a, C: ArrayToBytesCodecTraits, D: ArrayToBytesCodecTraits>(
    alloc: Global,
    _from: &C,
    to: &D,
    _encoded: &[u8],
    resharded: &'a [u8],
    spec: &ArraySpecRef<'_>,
) -> Result<ArrayBytes<'a>, CodecError>
    requires serves { (D.meaning to.now (spec_of spec.now)).serves }
    requires resharded { let g = spec_of spec.now in
        IsResharded g (C.meaning _from.now g) (D.meaning to.now g) _encoded.now resharded.now }
    ensures same { let g = spec_of spec.now in
        (D.meaning to.now g).cells resharded.now ≡ (C.meaning _from.now g).cells _encoded.now }
    ensures kind { IfOk result (λ array. array.kind ≡ size_of spec.now.data_type.now) }
    ensures cells { let m = C.meaning _from.now (spec_of spec.now) in
        IfOk result (λ array. m.cells _encoded.now ≡ map Some array.elements) }
    ensures lawful { let m = C.meaning _from.now (spec_of spec.now) in
        IfErr result (MayRefuseDecodeAgain (m.cells _encoded.now)) }
    ensures refused { IfErr result (RefusedBy ((D.meaning to.now (spec_of spec.now)).decode_refusals resharded.now)) }
{
    let (shape, data_type) = (spec.shape, spec.data_type);
    let options = CodecOptions::default();
    to.decode(
        alloc,
        resharded,
        shape,
        data_type,
        spec.fill_value,
        &options,
    )
}
