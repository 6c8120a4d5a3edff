// A whole shard, put into a target.
ghost use Rattle.std.specs.Prelude.{◌≡◌, IsTrue, IfOk, IfErr, OnOk, OnErr};
ghost use Rattle.parts_errors.specs.Order.{RefusedBy};
ghost use Rattle.parts_row_major.specs.Numbering.{count_of};
ghost use Rattle.parts_arrays.specs.Types.{size_of};
ghost use Rattle.parts_arrays.specs.declared.data_type.DataTypeSize.TheVariants.{Fixed};
ghost use Rattle.parts_arrays.specs.Targets.{target_element_size, target_subset};
ghost use Rattle.codec_traits.specs.Reads.{IsDecodedInto};
ghost use Rattle.codec_traits.specs.Refusals.{MayRefuseDecode};
ghost use Rattle.sharding_index.specs.Indexes.{index_meaning};
ghost use Rattle.sharding_engine.specs.Meanings.{meaning_of};
ghost use Rattle.sharding_index.specs.steps.Plans.{spec_of, IsPlan};

use crate::plan::{Planned, subchunks};
use crate::sharding::Sharding;
use codec_traits::ArrayToBytesCodecTraits;
use parts_arrays::FixedTarget;
use parts_errors::CodecError;
use sharding_subchunks::HeldShard;
use std::alloc::Global;

impl<I: ArrayToBytesCodecTraits, X: ArrayToBytesCodecTraits> Sharding<'_, I, X> {
    /// Copies the slices of a shard that is served into a target, where the inner codec stores elements as they are in memory.
    /// False where it does not, or where it can't be done so; the target is then as it was. Refused, in this order, as
    /// `ShardTooShort` and as `Damaged` where the index does not decode; or as `OutOfMemory`. A refusal leaves the target.
    pub(crate) fn copied_into(
        &self,
        alloc: Global,
        bytes: &[u8],
        planned: &Planned,
        target: &mut FixedTarget,
    ) -> Result<bool, CodecError>
        requires serves { (meaning_of I.meaning X.meaning self.now (spec_of planned.now.spec)).serves }
        requires plan { IsPlan (index_meaning X.meaning self.now.index_codec.codec.now) planned.now.spec.shape.now self.now.subchunk_shape.now planned.now.plan.now }
        requires kind { size_of planned.now.spec.data_type.now ≡ Fixed (target_element_size target.old) }
        ensures put { IfOk result (λ done. IsTrue done → IsDecodedInto target.old target.new ((meaning_of I.meaning X.meaning self.now (spec_of planned.now.spec)).cells bytes.now)) }
        ensures kept { IfOk result (λ done. (¬ (IsTrue done)) → target.new ≡ target.old) }
        ensures left { OnErr result (target.new ≡ target.old) }
        ensures lawful { let m = meaning_of I.meaning X.meaning self.now (spec_of planned.now.spec) in IfErr result (MayRefuseDecode (m.cells bytes.now)) }
        ensures refused { let m = meaning_of I.meaning X.meaning self.now (spec_of planned.now.spec) in IfErr result (RefusedBy (m.decode_refusals bytes.now)) }
    {
        let (spec, plan, options) = (&planned.spec, planned.plan, planned.options);
        let shape = self.subchunk_shape;
        let Some(size) = self
            .inner
            .plain_size(shape, spec.data_type, spec.fill_value)
        else {
            return Ok(false);
        };
        let index = self.index_codec.decode(alloc, bytes, &plan.index, options)?;
        let inner = subchunks!(self, planned);
        let held = HeldShard {
            subchunks: &inner,
            bytes,
            index: &index,
            shape: spec.shape,
            cells: plan.cells,
        };
        let done = held.put_plain(alloc, size, target)?;
        Ok(done)
    }

    /// The cells of a shard that is served, put into a target with as many elements, of the type's size: as `copied_into` where it
    /// can be, and else decoded and copied then. Refused as `decoded`; a refusal leaves the target.
    pub(crate) fn decoded_into(
        &self,
        alloc: Global,
        bytes: &[u8],
        planned: &Planned,
        target: &mut FixedTarget,
    ) -> Result<(), CodecError>
        requires serves { (meaning_of I.meaning X.meaning self.now (spec_of planned.now.spec)).serves }
        requires plan { IsPlan (index_meaning X.meaning self.now.index_codec.codec.now) planned.now.spec.shape.now self.now.subchunk_shape.now planned.now.plan.now }
        requires kind { size_of planned.now.spec.data_type.now ≡ Fixed (target_element_size target.old) }
        requires counted { count_of (target_subset target.old).shape ≡ count_of planned.now.spec.shape.now }
        ensures cells { OnOk result (IsDecodedInto target.old target.new ((meaning_of I.meaning X.meaning self.now (spec_of planned.now.spec)).cells bytes.now)) }
        ensures kept { OnErr result (target.new ≡ target.old) }
        ensures lawful { let m = meaning_of I.meaning X.meaning self.now (spec_of planned.now.spec) in IfErr result (MayRefuseDecode (m.cells bytes.now)) }
        ensures refused { let m = meaning_of I.meaning X.meaning self.now (spec_of planned.now.spec) in IfErr result (RefusedBy (m.decode_refusals bytes.now)) }
    {
        if self.copied_into(alloc, bytes, planned, target)? {
            return Ok(());
        }
        let array = self.decoded(alloc, bytes, planned)?;
        target.copy_from(&array)
    }
}
