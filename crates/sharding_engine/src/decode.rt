// From the bytes of a shard to the elements of an array.
ghost use Rattle.std.specs.Prelude.{◌≡◌, Some, IfOk, IfErr, map};
ghost use Rattle.parts_errors.specs.Order.{RefusedBy};
ghost use Rattle.parts_arrays.specs.ArraySpec.{IsArrayOf};
ghost use Rattle.parts_arrays.specs.Types.{size_of};
ghost use Rattle.codec_traits.specs.Refusals.{MayRefuseDecode};
ghost use Rattle.sharding_index.specs.Indexes.{index_meaning};
ghost use Rattle.sharding_index.specs.steps.Plans.{spec_of, IsPlan};
ghost use Rattle.sharding_engine.specs.Meanings.{meaning_of};

use crate::plan::{Planned, subchunks};
use crate::sharding::Sharding;
use crate::whole::decode_shard;
use codec_traits::ArrayToBytesCodecTraits;
use parts_arrays::ArrayBytes;
use parts_errors::CodecError;
use std::alloc::Global;

impl<I: ArrayToBytesCodecTraits, X: ArrayToBytesCodecTraits> Sharding<'_, I, X> {
    /// The elements of a shard that is served. Refused as `decode_shard`.
    pub(crate) fn decoded<'a>(
        &self,
        alloc: Global,
        bytes: &'a [u8],
        planned: &Planned,
    ) -> Result<ArrayBytes<'a>, CodecError>
        requires serves { (meaning_of I.meaning X.meaning self.now (spec_of planned.now.spec)).serves }
        requires plan { IsPlan (index_meaning X.meaning self.now.index_codec.codec.now) planned.now.spec.shape.now self.now.subchunk_shape.now planned.now.plan.now }
        ensures array { IfOk result (λ array. (array.kind ≡ size_of planned.now.spec.data_type.now) × IsArrayOf (spec_of planned.now.spec) array.elements) }
        ensures cells { let m = meaning_of I.meaning X.meaning self.now (spec_of planned.now.spec) in IfOk result (λ array. m.cells bytes.now ≡ map Some array.elements) }
        ensures lawful { let m = meaning_of I.meaning X.meaning self.now (spec_of planned.now.spec) in IfErr result (MayRefuseDecode (m.cells bytes.now)) }
        ensures refused { let m = meaning_of I.meaning X.meaning self.now (spec_of planned.now.spec) in IfErr result (RefusedBy (m.decode_refusals bytes.now)) }
    {
        let subchunks = subchunks!(self, planned);
        decode_shard(
            alloc,
            &subchunks,
            &self.index_codec,
            bytes,
            planned.spec.shape,
            planned.plan,
        )
    }
}
