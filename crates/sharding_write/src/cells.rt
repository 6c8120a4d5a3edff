// The new cells of a subchunk that a subset touches.
ghost use Rattle.std.specs.Prelude.{◌≡◌, ◌<◌, IsTrue, IfOk, IfErr, OnOk};
ghost use Rattle.parts_errors.specs.Order.{RefusedBy};
ghost use Rattle.parts_row_major.specs.Numbering.{count_of};
ghost use Rattle.parts_row_major.specs.Subsets.{LiesIn};
ghost use Rattle.parts_subsets.specs.Touched.{Touches};
ghost use Rattle.parts_arrays.specs.Types.{size_of};
ghost use Rattle.storage_handles.specs.Handles.{IsRead, IsCounted};
ghost use Rattle.storage_handles.specs.Objects.{ObjectRefusals};
ghost use Rattle.storage_handles.specs.Writes.{bytes_of};
ghost use Rattle.sharding_format.specs.DecodeRefusals.{HasArray};
ghost use Rattle.sharding_subchunks.specs.steps.Inner.{spec_of_subchunks, inner_meaning};
ghost use Rattle.sharding_write.specs.Writing.{HasSlice};
ghost use Rattle.sharding_write.specs.steps.NewCells.{IsNewArray};
ghost use Rattle.sharding_write.specs.WriteRefusals.{Straddles, RefusesOld};

use crate::old::old_cells;
use crate::overlay::overlaid;
use crate::writing::{OldEntry, Update, Writing};
use codec_traits::ArrayToBytesCodecTraits;
use parts_arrays::ArrayBytes;
use parts_errors::CodecError;
use sharding_gather::subchunk_overlap;
use sharding_layout::is_whole;
use std::alloc::Global;
use storage_handles::BytesPartialDecoderTraits;

impl<I: ArrayToBytesCodecTraits, X> Writing<'_, I, X> {
    // The new cells of a subchunk that a subset touches: where the subset has all of it the update's, and else the old ones, which are
    // read, with the update's written over them.
    pub fn new_cells<H: BytesPartialDecoderTraits>(
        &self,
        alloc: Global,
        handle: &mut H,
        entry: OldEntry,
        update: &Update,
    ) -> Result<ArrayBytes<'static>, CodecError>
        requires inside { LiesIn update.now.subset.now self.now.shape.now }
        requires below { entry.number < count_of self.now.plan.now.grid }
        requires touches { Touches self.now.shape.now self.now.subchunks.shape.now update.now.subset.now entry.number }
        requires serves { (inner_meaning I.meaning self.now.subchunks).serves }
        requires kind { update.now.elements.now.kind ≡ size_of self.now.subchunks.data_type.now }
        requires there { IsTrue (H.state handle.old).transparent → HasSlice (H.state handle.old).contents entry.slot }
        ensures read { IsRead (H.state handle.old) (H.state handle.new) }
        ensures new { let s = self.now.subchunks in let state = H.state handle.old in
            IfOk result (IsNewArray (inner_meaning I.meaning s) self.now.shape.now (spec_of_subchunks s) update.now.subset.now update.now.elements.now.elements
            state.transparent (bytes_of state.contents) entry.slot entry.number) }
        ensures passed { let s = self.now.subchunks in let inner = inner_meaning I.meaning s in let bytes = bytes_of (H.state handle.old).contents in
            OnOk result (IsTrue (H.state handle.old).transparent → Straddles self.now.shape.now s.shape.now update.now.subset.now entry.number → HasArray inner.cells bytes entry.slot) }
        ensures fault { IfErr result (IsCounted (H.state handle.old) (H.state handle.new)) }
        ensures refused { let s = self.now.subchunks in let inner = inner_meaning I.meaning s in let bytes = bytes_of (H.state handle.old).contents in
            IfErr result (RefusedBy (ObjectRefusals (H.state handle.old) (H.state handle.new) (λ e.
            Straddles self.now.shape.now s.shape.now update.now.subset.now entry.number × RefusesOld inner (count_of s.shape.now) s.fill_value.now bytes entry.slot entry.number e))) }
    {
        let grid = &self.plan.grid;
        let subset = update.subset;
        let overlap = subchunk_overlap(
            alloc,
            entry.number,
            subset,
            grid,
            self.shape,
            self.subchunks.shape,
        )?;
        let data_type = self.subchunks.data_type;
        let in_subchunk = &overlap.in_subchunk;
        let in_subset = &overlap.in_subset;
        let axes = subset.shape();
        if is_whole(in_subchunk, self.subchunks.shape) {
            let part = update
                .elements
                .extract_array_subset(alloc, in_subset, axes, data_type)?;
            return Ok(part);
        }
        let old = old_cells(
            &self.subchunks,
            alloc,
            handle,
            self.positions,
            entry.number,
            entry.slot,
        )?;
        let sub = self.subchunks.shape.as_slice();
        let new = overlaid(alloc, old, sub, &overlap, update, data_type)?;
        Ok(new)
    }
}
