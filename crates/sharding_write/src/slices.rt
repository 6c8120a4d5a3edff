// The new slices of all subchunks that a subset touches.
ghost use Rattle.std.specs.Prelude.{◌≡◌, ◌<◌, ℕ, IsTrue, IfOk, IfErr, OnOk, All, length};
ghost use Rattle.parts_errors.specs.Order.{done, RefusedBy};
ghost use Rattle.parts_row_major.specs.Numbering.{count_of};
ghost use Rattle.parts_row_major.specs.Subsets.{LiesIn};
ghost use Rattle.parts_subsets.specs.Touched.{AreTouched};
ghost use Rattle.parts_arrays.specs.Types.{size_of};
ghost use Rattle.storage_handles.specs.Handles.{IsRead, IsCounted};
ghost use Rattle.storage_handles.specs.Objects.{ObjectRefusals};
ghost use Rattle.storage_handles.specs.Writes.{bytes_of};
ghost use Rattle.sharding_subchunks.specs.steps.Inner.{spec_of_subchunks, inner_meaning};
ghost use Rattle.sharding_write.specs.Writing.{layout_from};
ghost use Rattle.sharding_write.specs.steps.NewCells.{HoldsSlices};
ghost use Rattle.sharding_write.specs.WriteRefusals.{HasOldCells, OldRefusals, NewRefusals};
ghost use Rattle.sharding_write.specs.Slices.{AreNewSlices};

use crate::encoded::stored_in_row;
use crate::writing::{Update, Writing};
use codec_traits::ArrayToBytesCodecTraits;
use parts_errors::CodecError;
use sharding_layout::{CachedIndex, StoredSlices};
use std::alloc::Global;
use storage_handles::BytesPartialDecoderTraits;

impl<I: ArrayToBytesCodecTraits, X> Writing<'_, I, X> {
    // Each subchunk that a subset touches and that isn't all fill with its new cells, encoded, one after the other in ascending order.
    // Where the inner codec stores elements as they are in memory they are laid with no array of their own. The lowest whose old
    // cells are refused gives the refusal: `Damaged`, `TooLarge`; then the lowest that the inner codec refuses: `CannotEncode`,
    // `TooLarge`; or `Fault`, where the handle failed, or `OutOfMemory`.
    pub fn new_slices<H: BytesPartialDecoderTraits>(
        &self,
        alloc: Global,
        handle: &mut H,
        cached: &CachedIndex,
        touched: &[u64],
        update: &Update,
    ) -> Result<StoredSlices, CodecError>
        requires inside { LiesIn update.now.subset.now self.now.shape.now }
        requires touched { AreTouched self.now.shape.now self.now.subchunks.shape.now update.now.subset.now touched.now }
        requires below { All (λ k. k < count_of self.now.plan.now.grid) touched.now }
        requires serves { (inner_meaning I.meaning self.now.subchunks).serves }
        requires kind { update.now.elements.now.kind ≡ size_of self.now.subchunks.data_type.now }
        requires held { HoldsSlices (H.state handle.old) (count_of self.now.plan.now.grid) cached.now.len cached.now.numbers.now }
        ensures read { IsRead (H.state handle.old) (H.state handle.new) }
        ensures stored_slices { let s = self.now.subchunks in let inner = inner_meaning I.meaning s in let state = H.state handle.old in
            IfOk result (λ stored_slices. AreNewSlices inner self.now.shape.now (spec_of_subchunks s) update.now.subset.now update.now.elements.now.elements state.transparent (bytes_of state.contents) cached.now.numbers.now touched.now
            stored_slices.bytes.items stored_slices.slots.items (length touched.now)) }
        ensures passed { let s = self.now.subchunks in let inner = inner_meaning I.meaning s in let bytes = bytes_of (H.state handle.old).contents in
            OnOk result (IsTrue (H.state handle.old).transparent → (k : ℕ) → k < count_of self.now.plan.now.grid
            → HasOldCells inner self.now.shape.now s.shape.now update.now.subset.now bytes cached.now.numbers.now k) }
        ensures fault { IfErr result (IsCounted (H.state handle.old) (H.state handle.new)) }
        ensures refused { let s = self.now.subchunks in let inner = inner_meaning I.meaning s in let bytes = bytes_of (H.state handle.old).contents in
            IfErr result (RefusedBy (ObjectRefusals (H.state handle.old) (H.state handle.new) (
            OldRefusals inner self.now.shape.now s.shape.now s.fill_value.now update.now.subset.now bytes cached.now.numbers.now (
            NewRefusals inner (layout_from self.now.shape.now (spec_of_subchunks s) self.now.index_codec.location self.now.plan.now.size) (spec_of_subchunks s) update.now.subset.now update.now.elements.now.elements
            bytes cached.now.numbers.now done)))) }
    {
        if let Some(stored_slices) = self.plain_slices(alloc, handle, cached, touched, update)? {
            return Ok(stored_slices);
        }
        let arrays = self.changed(alloc, handle, cached, touched, update)?;
        let stored_slices = stored_in_row(&self.subchunks, alloc, &arrays)?;
        Ok(stored_slices)
    }
}
