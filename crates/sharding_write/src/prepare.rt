// All of a write that stands before its one writing call.
ghost use Rattle.std.specs.Prelude.{◌≡◌, ◌<◌, IsTrue, IfOk, IfErr, All};
ghost use Rattle.parts_errors.specs.Order.{RefusedBy};
ghost use Rattle.parts_row_major.specs.Numbering.{count_of};
ghost use Rattle.parts_row_major.specs.Subsets.{LiesIn};
ghost use Rattle.parts_arrays.specs.Types.{size_of};
ghost use Rattle.storage_handles.specs.Handles.{IsRead, IsCounted};
ghost use Rattle.storage_handles.specs.Objects.{ObjectRefusals};
ghost use Rattle.storage_handles.specs.Writes.{bytes_of};
ghost use Rattle.sharding_format.specs.Index.{numbers_in_index};
ghost use Rattle.sharding_subchunks.specs.steps.Inner.{spec_of_subchunks, inner_meaning};
ghost use Rattle.sharding_index.specs.Indexes.{index_meaning, IsIndexPlan};
ghost use Rattle.sharding_write.specs.Writing.{IsHeldIndex, IsMade, IsWriteOf, layout_from};
ghost use Rattle.sharding_write.specs.WriteRefusals.{WriteRefusals};
ghost use Rattle.sharding_write.specs.steps.Changes.{object_after};

use crate::change::Prepared;
use crate::writing::{Update, Writing};
use codec_traits::ArrayToBytesCodecTraits;
use parts_errors::CodecError;
use sharding_layout::CachedIndex;
use std::alloc::Global;
use storage_handles::BytesPartialDecoderTraits;

impl<I: ArrayToBytesCodecTraits, X: ArrayToBytesCodecTraits> Writing<'_, I, X> {
    /// All of a write of an update over the cells of a subset that stands before the one writing call, of a shard with this index: the
    /// old subchunks that straddle the subset's edge read, the new ones encoded, and the index.
    pub fn prepare<H: BytesPartialDecoderTraits>(
        &self,
        alloc: Global,
        handle: &mut H,
        cached: &CachedIndex,
        update: &Update,
    ) -> Result<Prepared, CodecError>
        requires plan { IsIndexPlan (index_meaning X.meaning self.now.index_codec.codec.now) self.now.plan.now }
        requires inside { LiesIn update.now.subset.now self.now.shape.now }
        requires held { let index = index_meaning X.meaning self.now.index_codec.codec.now self.now.plan.now.grid in let location = self.now.index_codec.location in let size = self.now.plan.now.size in let state = H.state handle.old in
            IsHeldIndex (numbers_in_index index.cells location size) location size (count_of self.now.plan.now.grid) state.transparent state.contents cached.now.len cached.now.numbers.now }
        requires serves { (inner_meaning I.meaning self.now.subchunks).serves }
        requires kind { update.now.elements.now.kind ≡ size_of self.now.subchunks.data_type.now }
        ensures read { IsRead (H.state handle.old) (H.state handle.new) }
        ensures made { let s = self.now.subchunks in let inner = inner_meaning I.meaning s in let index = index_meaning X.meaning self.now.index_codec.codec.now self.now.plan.now.grid in
            IfOk result (λ p. IsTrue (H.state handle.old).transparent
            → IsMade inner index.written self.now.shape.now (spec_of_subchunks s) self.now.index_codec.location self.now.plan.now.size update.now.subset.now update.now.elements.now.elements cached.now.numbers.now
            (H.state handle.old).contents (object_after p.change (H.state handle.old).contents) p.numbers.items p.len) }
        ensures written { let s = self.now.subchunks in let inner = inner_meaning I.meaning s in let index = index_meaning X.meaning self.now.index_codec.codec.now self.now.plan.now.grid in
            IfOk result (λ p. IsTrue (H.state handle.old).transparent
            → IsWriteOf inner index (layout_from self.now.shape.now (spec_of_subchunks s) self.now.index_codec.location self.now.plan.now.size) (spec_of_subchunks s) update.now.subset.now update.now.elements.now.elements
            (H.state handle.old).contents cached.now.numbers.now (object_after p.change (H.state handle.old).contents) p.numbers.items) }
        ensures held { let index = index_meaning X.meaning self.now.index_codec.codec.now self.now.plan.now.grid in let location = self.now.index_codec.location in let size = self.now.plan.now.size in let state = H.state handle.old in
            IfOk result (λ p. IsHeldIndex (numbers_in_index index.cells location size) location size (count_of self.now.plan.now.grid) state.transparent (object_after p.change state.contents) p.len p.numbers.items) }
        ensures fault { IfErr result (IsCounted (H.state handle.old) (H.state handle.new)) }
        ensures refused { let s = self.now.subchunks in let inner = inner_meaning I.meaning s in let index = index_meaning X.meaning self.now.index_codec.codec.now self.now.plan.now.grid in
            IfErr result (RefusedBy (ObjectRefusals (H.state handle.old) (H.state handle.new) (
            WriteRefusals inner index (layout_from self.now.shape.now (spec_of_subchunks s) self.now.index_codec.location self.now.plan.now.size) (spec_of_subchunks s) update.now.subset.now update.now.elements.now.elements
            (bytes_of (H.state handle.old).contents) cached.now.numbers.now))) }
    {
        let subset = update.subset;
        let touched = subset.touched_subchunks(alloc, self.shape, self.subchunks.shape)?;
        let stored_slices = self.new_slices(alloc, handle, cached, &touched, update)?;
        let prepared = self.settle(alloc, cached, &touched, stored_slices)?;
        Ok(prepared)
    }
}
