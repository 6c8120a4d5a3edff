// The cells of a subset of a shard, whose elements have one size: read subchunk by subchunk, each where the subset meets it.
ghost use Rattle.std.specs.Prelude.{◌≡◌, ◌+◌, ◌*◌, ◌^◌, ◌<◌, Some, IsTrue, IfOk, IfErr, OnOk, map, length};
ghost use Rattle.parts_errors.specs.Order.{RefusedBy};
ghost use Rattle.parts_row_major.specs.Numbering.{count_of};
ghost use Rattle.parts_row_major.specs.Subsets.{IsTarget, LiesIn, number_in, numbers_in};
ghost use Rattle.parts_subsets.specs.Selections.{subset_selection, IsSelectionOf};
ghost use Rattle.parts_row_major.specs.Pieces.{piece, pieces};
ghost use Rattle.parts_arrays.specs.Types.{size_of};
ghost use Rattle.parts_arrays.specs.declared.data_type.DataTypeSize.TheVariants.{Fixed};
ghost use Rattle.storage_handles.specs.Handles.{IsRead, IsCounted};
ghost use Rattle.storage_handles.specs.Objects.{interval_part, HasInterval, ObjectRefusals};
ghost use Rattle.sharding_format.specs.Index.{slot_at};
ghost use Rattle.sharding_format.specs.Cells.{indexed_cell};
ghost use Rattle.sharding_format.specs.ReadRefusals.{AnswerRefusals, RefusesPositions};
ghost use Rattle.sharding_format.specs.steps.Reading.{ReadByRefusals};
ghost use Rattle.sharding_subchunks.specs.steps.Inner.{inner_meaning};
ghost use Rattle.sharding_subchunks.specs.Reads.{HasElementsOf, IsReadInto};

use crate::stored_shard::StoredShard;
use codec_traits::{ArrayToBytesCodecTraits, StoredArray};
use parts_arrays::{ArrayBytes, FixedTarget};
use parts_errors::CodecError;
use parts_subsets::ArraySubset;
use sharding_format::{Slot, of_stored};
use sharding_gather::{SubchunkOverlap, room_for, subchunk_overlap};
use std::alloc::Global;
use std::borrow::CowSlice;
use storage_handles::{BytesPartialDecoderTraits, Interval};

impl<I: ArrayToBytesCodecTraits> StoredShard<'_, I> {
    // Reads the cells that a subset and the subchunk with a number both have to where they lie in the subset, whose elements have
    // these bytes; nothing where the subchunk is absent.
    fn read_into<H: BytesPartialDecoderTraits>(
        &self,
        alloc: Global,
        handle: &mut H,
        number: u64,
        overlap: &SubchunkOverlap,
        axes: &[u64],
        bytes: &mut [u8],
    ) -> Result<(), CodecError>
        requires below { 2 * number + 1 < length self.now.index.now.numbers.items }
        requires inside { IsTrue (H.state handle.old).transparent → HasInterval self.now.interval (H.state handle.old).contents }
        requires serves { (inner_meaning I.meaning self.now.subchunks).serves }
        requires selection { IsSelectionOf self.now.subchunks.shape.now (subset_selection overlap.now.in_subchunk) }
        requires some { 0 < count_of overlap.now.in_subchunk.shape }
        requires same { count_of overlap.now.in_subchunk.shape ≡ count_of overlap.now.in_subset.shape }
        requires fixed { size_of self.now.subchunks.data_type.now ≡ Fixed (length self.now.subchunks.fill_value.now) }
        requires target { IsTarget (length bytes.old) (length self.now.subchunks.fill_value.now) axes.now overlap.now.in_subset }
        ensures read { IsRead (H.state handle.old) (H.state handle.new) }
        ensures cells { let s = self.now.subchunks in let inner = inner_meaning I.meaning s in let size = length s.fill_value.now in
            let slot = slot_at self.now.interval.size self.now.index.now.numbers.items number in
            OnOk result (IsTrue (H.state handle.old).transparent
            → IsReadInto inner.cells (interval_part self.now.interval (H.state handle.old).contents) slot (numbers_in overlap.now.in_subchunk s.shape.now)
            (number_in overlap.now.in_subset axes.now) (piece size bytes.old) (piece size bytes.new)) }
        ensures fault { IfErr result (IsCounted (H.state handle.old) (H.state handle.new)) }
        ensures refused { let s = self.now.subchunks in let inner = inner_meaning I.meaning s in
            let slot = slot_at self.now.interval.size self.now.index.now.numbers.items number in
            IfErr result (RefusedBy (ObjectRefusals (H.state handle.old) (H.state handle.new) (
            RefusesPositions (AnswerRefusals inner.answerable inner.read_refusals) inner.cells s.shape.now
            (interval_part self.now.interval (H.state handle.old).contents) slot (numbers_in overlap.now.in_subchunk s.shape.now) number))) }
    {
        let slot = self.index.slot(number as usize);
        match slot {
            Slot::Absent => Ok(()),
            Slot::InRange { offset, size } => {
                let stored = StoredArray {
                    interval: Interval {
                        offset: self.interval.offset + offset,
                        size,
                    },
                    shape: self.subchunks.shape,
                    data_type: self.subchunks.data_type,
                    fill_value: self.subchunks.fill_value,
                };
                let element = self.subchunks.fill_value.as_ne_bytes();
                let mut target = FixedTarget::over(bytes, element.len(), axes, &overlap.in_subset);
                match self.subchunks.codec.partial_decode_into_fresh(
                    alloc,
                    handle,
                    &stored,
                    &overlap.in_subchunk,
                    &mut target,
                    self.subchunks.options,
                ) {
                    Ok(()) => Ok(()),
                    Err(error) => Err(of_stored(error)),
                }
            }
            Slot::Bad => Err(CodecError::BadIndexEntry { number }),
        }
    }

    // The bytes of the cells of a subset, of which there are so many.
    fn subset_bytes<H: BytesPartialDecoderTraits>(
        &self,
        alloc: Global,
        handle: &mut H,
        subset: &ArraySubset,
        count: u64,
    ) -> Result<Vec<u8>, CodecError>
        requires inside { IsTrue (H.state handle.old).transparent → HasInterval self.now.interval (H.state handle.old).contents }
        requires serves { (inner_meaning I.meaning self.now.subchunks).serves }
        requires lies { LiesIn subset.now self.now.shape.now }
        requires fixed { size_of self.now.subchunks.data_type.now ≡ Fixed (length self.now.subchunks.fill_value.now) }
        requires count { count ≡ count_of subset.now.shape }
        requires whole { count * length self.now.subchunks.fill_value.now < 2 ^ 64 }
        ensures read { IsRead (H.state handle.old) (H.state handle.new) }
        ensures counted { IfOk result (λ bytes. length bytes.items ≡ count * length self.now.subchunks.fill_value.now) }
        ensures cells { let s = self.now.subchunks in let inner = inner_meaning I.meaning s in let bytes = interval_part self.now.interval (H.state handle.old).contents in
            IfOk result (λ read. IsTrue (H.state handle.old).transparent
            → map (indexed_cell inner.cells self.now.shape.now s.shape.now s.fill_value.now bytes self.now.index.now.numbers.items) (numbers_in subset.now self.now.shape.now)
            ≡ map Some (pieces (length s.fill_value.now) count read.items)) }
        ensures fault { IfErr result (IsCounted (H.state handle.old) (H.state handle.new)) }
        ensures refused { let s = self.now.subchunks in let inner = inner_meaning I.meaning s in let bytes = interval_part self.now.interval (H.state handle.old).contents in
            IfErr result (RefusedBy (ObjectRefusals (H.state handle.old) (H.state handle.new) (
            ReadByRefusals inner self.now.shape.now s.shape.now s.fill_value.now bytes self.now.index.now.numbers.items (numbers_in subset.now self.now.shape.now)))) }
    {
        if let Some(bytes) = self.plain_subset(alloc, handle, subset, count)? {
            return Ok(bytes);
        }
        let fill = self.subchunks.fill_value.as_ne_bytes();
        let axes = subset.shape();
        let (shape, sub) = (self.shape, self.subchunks.shape);
        let touched = subset.touched_subchunks(alloc, shape, sub)?;
        let filled = self.index.any_absent_of(&touched);
        let mut bytes = room_for(alloc, filled, count as usize, fill)?;
        for j in 0..touched.len() {
            let number = touched[j];
            let overlap = subchunk_overlap(alloc, number, subset, self.grid, shape, sub)?;
            self.read_into(alloc, handle, number, &overlap, axes, &mut bytes)?;
        }
        Ok(bytes)
    }

    // The same. One cell alone is read where it stands, if it can be.
    fn cell_or_subset_bytes<H: BytesPartialDecoderTraits>(
        &self,
        alloc: Global,
        handle: &mut H,
        subset: &ArraySubset,
        count: u64,
    ) -> Result<Vec<u8>, CodecError>
        requires inside { IsTrue (H.state handle.old).transparent → HasInterval self.now.interval (H.state handle.old).contents }
        requires serves { (inner_meaning I.meaning self.now.subchunks).serves }
        requires lies { LiesIn subset.now self.now.shape.now }
        requires fixed { size_of self.now.subchunks.data_type.now ≡ Fixed (length self.now.subchunks.fill_value.now) }
        requires count { count ≡ count_of subset.now.shape }
        requires whole { count * length self.now.subchunks.fill_value.now < 2 ^ 64 }
        ensures read { IsRead (H.state handle.old) (H.state handle.new) }
        ensures counted { IfOk result (λ bytes. length bytes.items ≡ count * length self.now.subchunks.fill_value.now) }
        ensures cells { let s = self.now.subchunks in let inner = inner_meaning I.meaning s in let bytes = interval_part self.now.interval (H.state handle.old).contents in
            IfOk result (λ read. IsTrue (H.state handle.old).transparent
            → map (indexed_cell inner.cells self.now.shape.now s.shape.now s.fill_value.now bytes self.now.index.now.numbers.items) (numbers_in subset.now self.now.shape.now)
            ≡ map Some (pieces (length s.fill_value.now) count read.items)) }
        ensures fault { IfErr result (IsCounted (H.state handle.old) (H.state handle.new)) }
        ensures refused { let s = self.now.subchunks in let inner = inner_meaning I.meaning s in let bytes = interval_part self.now.interval (H.state handle.old).contents in
            IfErr result (RefusedBy (ObjectRefusals (H.state handle.old) (H.state handle.new) (
            ReadByRefusals inner self.now.shape.now s.shape.now s.fill_value.now bytes self.now.index.now.numbers.items (numbers_in subset.now self.now.shape.now)))) }
    {
        if count == 1 {
            if let Some(bytes) = self.plain_cell(alloc, handle, subset)? {
                return Ok(bytes);
            }
        }
        self.subset_bytes(alloc, handle, subset, count)
    }

    /// The cells of a subset, in row-major order of it; their elements have one size. The count is that of the subset's cells,
    /// whose bytes a number can say. Of each subchunk that the subset touches the inner codec reads the subset where both meet;
    /// nothing is kept for each cell. Refused as the lowest such subchunk is (`BadIndexEntry` with its number, `Damaged`,
    /// `TooLarge`); or as `Fault`, where the handle failed, or `OutOfMemory`.
    pub fn read_subset<H: BytesPartialDecoderTraits>(
        &self,
        alloc: Global,
        handle: &mut H,
        subset: &ArraySubset,
        count: u64,
    ) -> Result<ArrayBytes<'static>, CodecError>
        requires inside { IsTrue (H.state handle.old).transparent → HasInterval self.now.interval (H.state handle.old).contents }
        requires serves { (inner_meaning I.meaning self.now.subchunks).serves }
        requires lies { LiesIn subset.now self.now.shape.now }
        requires fixed { size_of self.now.subchunks.data_type.now ≡ Fixed (length self.now.subchunks.fill_value.now) }
        requires count { count ≡ count_of subset.now.shape }
        requires whole { count * length self.now.subchunks.fill_value.now < 2 ^ 64 }
        ensures read { IsRead (H.state handle.old) (H.state handle.new) }
        ensures elements { IfOk result (HasElementsOf (size_of self.now.subchunks.data_type.now) count) }
        ensures cells { let s = self.now.subchunks in let inner = inner_meaning I.meaning s in let bytes = interval_part self.now.interval (H.state handle.old).contents in
            IfOk result (λ array. IsTrue (H.state handle.old).transparent
            → map (indexed_cell inner.cells self.now.shape.now s.shape.now s.fill_value.now bytes self.now.index.now.numbers.items) (numbers_in subset.now self.now.shape.now) ≡ map Some array.elements) }
        ensures fault { IfErr result (IsCounted (H.state handle.old) (H.state handle.new)) }
        ensures refused { let s = self.now.subchunks in let inner = inner_meaning I.meaning s in let bytes = interval_part self.now.interval (H.state handle.old).contents in
            IfErr result (RefusedBy (ObjectRefusals (H.state handle.old) (H.state handle.new) (
            ReadByRefusals inner self.now.shape.now s.shape.now s.fill_value.now bytes self.now.index.now.numbers.items (numbers_in subset.now self.now.shape.now)))) }
    {
        let fill = self.subchunks.fill_value.as_ne_bytes();
        let bytes = self.cell_or_subset_bytes(alloc, handle, subset, count)?;
        match ArrayBytes::new_flen(CowSlice::Owned(bytes), fill.len()) {
            Some(array) => Ok(array),
            None => unreachable!(),
        }
    }
}
