// The new cells of all subchunks that a subset touches.
ghost use Rattle.std.specs.Prelude.{◌≡◌, ◌<◌, ℕ, IsTrue, IfOk, IfErr, OnOk, All};
ghost use Rattle.parts_errors.specs.Order.{done, RefusedBy};
ghost use Rattle.parts_row_major.specs.Numbering.{count_of};
ghost use Rattle.parts_row_major.specs.Subsets.{LiesIn};
ghost use Rattle.parts_subsets.specs.Touched.{AreTouched};
ghost use Rattle.parts_arrays.specs.Types.{size_of};
ghost use Rattle.storage_handles.specs.Handles.{IsRead, IsCounted};
ghost use Rattle.storage_handles.specs.Objects.{ObjectRefusals};
ghost use Rattle.storage_handles.specs.Writes.{bytes_of};
ghost use Rattle.sharding_subchunks.specs.steps.Inner.{spec_of_subchunks, inner_meaning};
ghost use Rattle.sharding_write.specs.steps.NewCells.{HoldsSlices, AreNewArrays};
ghost use Rattle.sharding_write.specs.WriteRefusals.{HasOldCells, OldRefusals};

use crate::writing::{OldEntry, Update, Writing};
use codec_traits::ArrayToBytesCodecTraits;
use parts_arrays::ArrayBytes;
use parts_errors::CodecError;
use sharding_layout::{CachedIndex, slot_in};
use std::alloc::Global;
use storage_handles::BytesPartialDecoderTraits;

impl<I: ArrayToBytesCodecTraits, X> Writing<'_, I, X> {
    // The new cells of each subchunk that a subset touches, in ascending order. The lowest whose old cells are refused gives the
    // refusal: `Damaged`, `TooLarge`; or `Fault`, where the handle failed, or `OutOfMemory`.
    pub fn changed<H: BytesPartialDecoderTraits>(
        &self,
        alloc: Global,
        handle: &mut H,
        cached: &CachedIndex,
        touched: &[u64],
        update: &Update,
    ) -> Result<Vec<ArrayBytes<'static>>, CodecError>
        requires inside { LiesIn update.now.subset.now self.now.shape.now }
        requires touched { AreTouched self.now.shape.now self.now.subchunks.shape.now update.now.subset.now touched.now }
        requires below { All (λ k. k < count_of self.now.plan.now.grid) touched.now }
        requires serves { (inner_meaning I.meaning self.now.subchunks).serves }
        requires kind { update.now.elements.now.kind ≡ size_of self.now.subchunks.data_type.now }
        requires held { HoldsSlices (H.state handle.old) (count_of self.now.plan.now.grid) cached.now.len cached.now.numbers.now }
        ensures read { IsRead (H.state handle.old) (H.state handle.new) }
        ensures new { let s = self.now.subchunks in let state = H.state handle.old in
            IfOk result (λ arrays. AreNewArrays (inner_meaning I.meaning s) self.now.shape.now (spec_of_subchunks s) update.now.subset.now update.now.elements.now.elements
            state.transparent (bytes_of state.contents) cached.now.numbers.now touched.now arrays.items) }
        ensures passed { let s = self.now.subchunks in let inner = inner_meaning I.meaning s in let bytes = bytes_of (H.state handle.old).contents in
            OnOk result (IsTrue (H.state handle.old).transparent → (k : ℕ) → k < count_of self.now.plan.now.grid
            → HasOldCells inner self.now.shape.now s.shape.now update.now.subset.now bytes cached.now.numbers.now k) }
        ensures fault { IfErr result (IsCounted (H.state handle.old) (H.state handle.new)) }
        ensures refused { let s = self.now.subchunks in let inner = inner_meaning I.meaning s in let bytes = bytes_of (H.state handle.old).contents in
            IfErr result (RefusedBy (ObjectRefusals (H.state handle.old) (H.state handle.new) (
            OldRefusals inner self.now.shape.now s.shape.now s.fill_value.now update.now.subset.now bytes cached.now.numbers.now done))) }
    {
        let mut arrays = Vec::with_capacity(alloc, touched.len())?;
        for j in 0..touched.len() {
            let number = touched[j];
            let slot = slot_in(cached, number as usize);
            let array = self.new_cells(alloc, handle, OldEntry { number, slot }, update)?;
            arrays.push(array)?;
        }
        Ok(arrays)
    }
}
