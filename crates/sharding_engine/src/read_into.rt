// Some cells of a shard that stands in an interval of an object, read into a target.
ghost use Rattle.std.specs.Prelude.{◌≡◌, IsTrue, IfErr, OnOk, length};
ghost use Rattle.std.specs.List.{All};
ghost use Rattle.parts_errors.specs.Order.{RefusedBy};
ghost use Rattle.parts_row_major.specs.Numbering.{count_of, IsInside};
ghost use Rattle.parts_subsets.specs.Selections.{IsSelectionOf};
ghost use Rattle.parts_arrays.specs.Types.{size_of};
ghost use Rattle.parts_arrays.specs.declared.data_type.DataTypeSize.TheVariants.{Fixed};
ghost use Rattle.parts_arrays.specs.Targets.{target_element_size, target_subset};
ghost use Rattle.storage_handles.specs.Handles.{IsRead, IsCounted};
ghost use Rattle.storage_handles.specs.Objects.{interval_part, HasInterval, ObjectRefusals, IntervalRefusals};
ghost use Rattle.codec_traits.specs.Reads.{cells_at, IsDecodedInto, IsOverwritten};
ghost use Rattle.sharding_index.specs.Indexes.{index_meaning};
ghost use Rattle.sharding_engine.specs.Meanings.{meaning_of};
ghost use Rattle.sharding_index.specs.steps.Plans.{spec_of, IsPlan};

use crate::read::{PlannedShard, stored};
use crate::sharding::Sharding;
use codec_traits::ArrayToBytesCodecTraits;
use parts_arrays::FixedTarget;
use parts_errors::CodecError;
use parts_subsets::Indexer;
use sharding_index::read_index;
use std::alloc::Global;
use storage_handles::BytesPartialDecoderTraits;

impl<I: ArrayToBytesCodecTraits, X: ArrayToBytesCodecTraits> Sharding<'_, I, X> {
    /// The cells that `read_planned` answers, read into a target whose subset has as many elements, of the type's size: of a subset of
    /// the subset's shape straight from the slices, where the inner codec stores elements as they are in memory, and else from
    /// what is read. Refused as `read_planned`; whatever it answers, some elements of the subset may have changed, and no other.
    pub(crate) fn read_planned_into<H: BytesPartialDecoderTraits, N: Indexer>(
        &self,
        alloc: Global,
        handle: &mut H,
        shard: &PlannedShard,
        indexer: &N,
        target: &mut FixedTarget,
    ) -> Result<(), CodecError>
        requires serves { (meaning_of I.meaning X.meaning self.now (spec_of shard.now.planned.spec)).serves }
        requires plan { IsPlan (index_meaning X.meaning self.now.index_codec.codec.now) shard.now.planned.spec.shape.now self.now.subchunk_shape.now shard.now.planned.plan.now }
        requires selection { IsSelectionOf shard.now.planned.spec.shape.now (N.selection indexer.now) }
        requires points { All (λ point. IsInside point shard.now.planned.spec.shape.now) (N.selection indexer.now).points }
        requires kind { size_of shard.now.planned.spec.data_type.now ≡ Fixed (target_element_size target.old) }
        requires counted { count_of (target_subset target.old).shape ≡ length (N.selection indexer.now).points }
        ensures read { IsRead (H.state handle.old) (H.state handle.new) }
        ensures written { IsOverwritten target.old target.new }
        ensures cells { let m = meaning_of I.meaning X.meaning self.now (spec_of shard.now.planned.spec) in
            OnOk result (IsTrue (H.state handle.old).transparent
            → HasInterval shard.now.interval (H.state handle.old).contents
            × IsDecodedInto target.old target.new (cells_at (m.cells (interval_part shard.now.interval (H.state handle.old).contents)) shard.now.planned.spec.shape.now (N.selection indexer.now).points)) }
        ensures fault { IfErr result (IsCounted (H.state handle.old) (H.state handle.new)) }
        ensures refused { let g = spec_of shard.now.planned.spec in
            IfErr result (RefusedBy (ObjectRefusals (H.state handle.old) (H.state handle.new) (
            IntervalRefusals shard.now.interval (H.state handle.old).contents (λ b. (meaning_of I.meaning X.meaning self.now g).read_refusals b (N.selection indexer.now).points)))) }
    {
        let index = read_index(
            alloc,
            &self.index_codec,
            handle,
            shard.interval,
            &shard.planned.plan.index,
            shard.planned.options,
        )?;
        let stored = stored!(self, shard, &index);
        if stored.put_plain_requested(alloc, handle, indexer, target)? {
            return Ok(());
        }
        let count = target.num_elements();
        let array = stored.read_requested(alloc, handle, indexer, count)?;
        target.copy_from(&array)
    }
}
