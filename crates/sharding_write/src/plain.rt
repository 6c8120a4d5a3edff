// New subchunks of a codec that stores elements as they are in memory: each one's old bytes go to where the new ones are to stand,
// and the update is written over them there.
ghost use Rattle.std.specs.Prelude.{◌≡◌, ◌<◌, ℕ, IsTrue, IfOk, IfErr, IfSome, All, length};
ghost use Rattle.parts_errors.specs.Order.{done, RefusedBy};
ghost use Rattle.parts_row_major.specs.Numbering.{count_of};
ghost use Rattle.parts_row_major.specs.Subsets.{LiesIn};
ghost use Rattle.parts_row_major.specs.Pieces.{pieces};
ghost use Rattle.parts_subsets.specs.Touched.{Touches, AreTouched};
ghost use Rattle.parts_arrays.specs.Types.{size_of};
ghost use Rattle.storage_handles.specs.Handles.{IsRead, IsCounted};
ghost use Rattle.storage_handles.specs.Objects.{ObjectRefusals};
ghost use Rattle.storage_handles.specs.Writes.{bytes_of};
ghost use Rattle.codec_traits.specs.Encodings.{IsPlain};
ghost use Rattle.sharding_subchunks.specs.steps.Inner.{spec_of_subchunks, inner_meaning};
ghost use Rattle.sharding_write.specs.Writing.{HasSlice};
ghost use Rattle.sharding_write.specs.steps.NewCells.{HoldsSlices};
ghost use Rattle.sharding_write.specs.WriteRefusals.{HasOldCells};
ghost use Rattle.sharding_write.specs.Slices.{IsPutAfter, AreOldCells, IsNewAfter, AreNewSlices};

use crate::appended::{overlay_after, slice_after};
use crate::writing::{OldEntry, Update, Writing};
use codec_traits::ArrayToBytesCodecTraits;
use parts_arrays::repeated;
use parts_errors::CodecError;
use sharding_format::Slot;
use sharding_gather::subchunk_overlap;
use sharding_layout::{CachedIndex, StoredSlices, is_whole, slot_after, slot_in, zeros_after};
use sharding_subchunks::Subchunks;
use std::alloc::Global;
use storage_handles::BytesPartialDecoderTraits;

// Puts the old bytes of the subchunk that a slot names behind the slices: fill values where it is absent. `false` where it isn't
// stored in as many bytes as a subchunk has. Refused as `Fault`, where the handle failed, or `OutOfMemory`.
fn old_after<I: ArrayToBytesCodecTraits, H: BytesPartialDecoderTraits>(
    subchunks: &Subchunks<'_, I>,
    alloc: Global,
    handle: &mut H,
    slot: Slot,
    size: u64,
    slices: &mut Vec<u8>,
) -> Result<bool, CodecError>
    requires plain { IsPlain (spec_of_subchunks subchunks.now) (inner_meaning I.meaning subchunks.now) size }
    requires there { IsTrue (H.state handle.old).transparent → HasSlice (H.state handle.old).contents slot }
    ensures read { IsRead (H.state handle.old) (H.state handle.new) }
    ensures appended { let s = subchunks.now in let inner = inner_meaning I.meaning s in let fill = s.fill_value.now in let positions = count_of s.shape.now in
        IfOk result (λ there. IsTrue there → IsPutAfter slices.old.items slices.new.items size (λ part. IsTrue (H.state handle.old).transparent
        → AreOldCells inner.cells fill (bytes_of (H.state handle.old).contents) slot positions (pieces (length fill) positions part))) }
    ensures fault { IfErr result (IsCounted (H.state handle.old) (H.state handle.new)) }
    ensures refused { IfErr result (RefusedBy (ObjectRefusals (H.state handle.old) (H.state handle.new) done)) }
{
    match slot {
        Slot::Absent => {
            let fill = subchunks.fill_value.as_ne_bytes();
            let blank = repeated(alloc, size as usize / fill.len(), fill)?;
            slices.extend_from_slice(&blank)?;
            Ok(true)
        }
        Slot::InRange {
            offset,
            size: stored,
        } => {
            if stored != size {
                return Ok(false);
            }
            let there = slice_after(alloc, handle, offset, size, slices)?;
            Ok(there)
        }
        Slot::Bad => Ok(false),
    }
}

// Puts what a subchunk's new bytes are written over behind the slices: anything where they have all of it, and else its old bytes.
fn before_after<I: ArrayToBytesCodecTraits, H: BytesPartialDecoderTraits>(
    subchunks: &Subchunks<'_, I>,
    alloc: Global,
    handle: &mut H,
    whole: bool,
    slot: Slot,
    size: u64,
    slices: &mut Vec<u8>,
) -> Result<bool, CodecError>
    requires plain { IsPlain (spec_of_subchunks subchunks.now) (inner_meaning I.meaning subchunks.now) size }
    requires there { IsTrue (H.state handle.old).transparent → HasSlice (H.state handle.old).contents slot }
    ensures read { IsRead (H.state handle.old) (H.state handle.new) }
    ensures appended { let s = subchunks.now in let inner = inner_meaning I.meaning s in let fill = s.fill_value.now in let positions = count_of s.shape.now in
        IfOk result (λ there. IsTrue there → IsPutAfter slices.old.items slices.new.items size (λ part. IsTrue (H.state handle.old).transparent → ¬ (IsTrue whole)
        → AreOldCells inner.cells fill (bytes_of (H.state handle.old).contents) slot positions (pieces (length fill) positions part))) }
    ensures fault { IfErr result (IsCounted (H.state handle.old) (H.state handle.new)) }
    ensures refused { IfErr result (RefusedBy (ObjectRefusals (H.state handle.old) (H.state handle.new) done)) }
{
    if whole {
        zeros_after(slices, size as usize)?;
        return Ok(true);
    }
    let there = old_after(subchunks, alloc, handle, slot, size, slices)?;
    Ok(there)
}

impl<I: ArrayToBytesCodecTraits, X> Writing<'_, I, X> {
    // Puts a subchunk that a subset touches behind the slices with its new cells, where it isn't all fill, and tells where it stands.
    // `None` where it isn't stored in as many bytes as a subchunk has. Refused as `Fault`, where the handle failed, or
    // `OutOfMemory`.
    fn new_after<H: BytesPartialDecoderTraits>(
        &self,
        alloc: Global,
        handle: &mut H,
        entry: OldEntry,
        update: &Update,
        size: u64,
        slices: &mut Vec<u8>,
    ) -> Result<Option<Slot>, CodecError>
        requires inside { LiesIn update.now.subset.now self.now.shape.now }
        requires below { entry.number < count_of self.now.plan.now.grid }
        requires touches { Touches self.now.shape.now self.now.subchunks.shape.now update.now.subset.now entry.number }
        requires plain { IsPlain (spec_of_subchunks self.now.subchunks) (inner_meaning I.meaning self.now.subchunks) size }
        requires kind { update.now.elements.now.kind ≡ size_of self.now.subchunks.data_type.now }
        requires there { IsTrue (H.state handle.old).transparent → HasSlice (H.state handle.old).contents entry.slot }
        ensures read { IsRead (H.state handle.old) (H.state handle.new) }
        ensures stored_slices { let s = self.now.subchunks in let inner = inner_meaning I.meaning s in let state = H.state handle.old in
            IfOk result (λ o. IfSome o (λ new. IsNewAfter inner self.now.shape.now (spec_of_subchunks s) update.now.subset.now update.now.elements.now.elements state.transparent (bytes_of state.contents) entry.slot entry.number
            slices.old.items slices.new.items new)) }
        ensures fault { IfErr result (IsCounted (H.state handle.old) (H.state handle.new)) }
        ensures refused { IfErr result (RefusedBy (ObjectRefusals (H.state handle.old) (H.state handle.new) done)) }
    {
        let grid = &self.plan.grid;
        let sub = self.subchunks.shape;
        let subset = update.subset;
        let overlap = subchunk_overlap(alloc, entry.number, subset, grid, self.shape, sub)?;
        let from = slices.len();
        let whole = is_whole(&overlap.in_subchunk, sub);
        let there = before_after(
            &self.subchunks,
            alloc,
            handle,
            whole,
            entry.slot,
            size,
            slices,
        )?;
        if there {
            let fill = self.subchunks.fill_value;
            let len = fill.as_ne_bytes().len();
            overlay_after(slices, from, len, &overlap, sub.as_slice(), update);
            let new = slot_after(slices, from, fill);
            return Ok(Some(new));
        }
        Ok(None)
    }

    // The touched subchunks with their new cells, one after the other, where the codec stores elements as they are in memory.
    // `None` where it doesn't, or where an old one isn't stored in as many bytes as a subchunk has. Refused as `Fault`, where the
    // handle failed, or `OutOfMemory`.
    pub fn plain_slices<H: BytesPartialDecoderTraits>(
        &self,
        alloc: Global,
        handle: &mut H,
        cached: &CachedIndex,
        touched: &[u64],
        update: &Update,
    ) -> Result<Option<StoredSlices>, CodecError>
        requires inside { LiesIn update.now.subset.now self.now.shape.now }
        requires touched { AreTouched self.now.shape.now self.now.subchunks.shape.now update.now.subset.now touched.now }
        requires below { All (λ k. k < count_of self.now.plan.now.grid) touched.now }
        requires kind { update.now.elements.now.kind ≡ size_of self.now.subchunks.data_type.now }
        requires held { HoldsSlices (H.state handle.old) (count_of self.now.plan.now.grid) cached.now.len cached.now.numbers.now }
        ensures read { IsRead (H.state handle.old) (H.state handle.new) }
        ensures stored_slices { let s = self.now.subchunks in let inner = inner_meaning I.meaning s in let state = H.state handle.old in
            IfOk result (λ o. IfSome o (λ stored_slices. AreNewSlices inner self.now.shape.now (spec_of_subchunks s) update.now.subset.now update.now.elements.now.elements state.transparent (bytes_of state.contents) cached.now.numbers.now touched.now
            stored_slices.bytes.items stored_slices.slots.items (length touched.now))) }
        ensures passed { let s = self.now.subchunks in let inner = inner_meaning I.meaning s in let bytes = bytes_of (H.state handle.old).contents in
            IfOk result (λ o. IfSome o (λ stored_slices. IsTrue (H.state handle.old).transparent → (k : ℕ) → k < count_of self.now.plan.now.grid
            → HasOldCells inner self.now.shape.now s.shape.now update.now.subset.now bytes cached.now.numbers.now k)) }
        ensures fault { IfErr result (IsCounted (H.state handle.old) (H.state handle.new)) }
        ensures refused { IfErr result (RefusedBy (ObjectRefusals (H.state handle.old) (H.state handle.new) done)) }
    {
        let s = &self.subchunks;
        let Some(size) = s.codec.plain_size(s.shape, s.data_type, s.fill_value) else {
            return Ok(None);
        };
        let total = (size as usize).saturating_mul(touched.len());
        let mut bytes: Vec<u8> = Vec::with_capacity(alloc, total)?;
        let mut slots = Vec::with_capacity(alloc, touched.len())?;
        for j in 0..touched.len() {
            let number = touched[j];
            let slot = slot_in(cached, number as usize);
            let entry = OldEntry { number, slot };
            let Some(new) = self.new_after(alloc, handle, entry, update, size, &mut bytes)? else {
                return Ok(None);
            };
            slots.push(new)?;
        }
        Ok(Some(StoredSlices { bytes, slots }))
    }
}
