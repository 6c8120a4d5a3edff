// A whole shard whose elements have one size, decoded subchunk by subchunk to where each lies in one piece of memory.
ghost use Rattle.std.specs.Prelude.{◌≡◌, ◌*◌, ◌/◌, ◌^◌, ◌<◌, Some, IfOk, IfErr, IfSome, OnOk, map, length};
ghost use Rattle.std.specs.List.{range_with_len};
ghost use Rattle.parts_errors.specs.Order.{done, RefusedBy};
ghost use Rattle.parts_row_major.specs.Numbering.{count_of};
ghost use Rattle.parts_row_major.specs.Pieces.{piece, pieces};
ghost use Rattle.parts_subsets.specs.Grid.{grid_of, cell_number};
ghost use Rattle.parts_arrays.specs.Types.{size_of};
ghost use Rattle.parts_arrays.specs.declared.data_type.DataTypeSize.TheVariants.{Fixed};
ghost use Rattle.sharding_format.specs.Cells.{indexed_cell};
ghost use Rattle.sharding_format.specs.DecodeRefusals.{RefusesSubchunk, SubchunkRefusals};
ghost use Rattle.sharding_format.specs.steps.Decoding.{FitsSlot};
ghost use Rattle.sharding_subchunks.specs.Reads.{HasElementsOf};
ghost use Rattle.sharding_subchunks.specs.steps.Inner.{spec_of_subchunks, inner_meaning};
ghost use Rattle.sharding_subchunks.specs.steps.PlainSubchunks.{ArePlainSubchunks};
ghost use Rattle.sharding_subchunks.specs.steps.Writes.{IsSlotWritten};

use crate::held_shard::HeldShard;
use crate::plain_subchunks::PlainSubchunks;
use codec_traits::ArrayToBytesCodecTraits;
use parts_arrays::{ArrayBytes, FixedTarget};
use parts_errors::CodecError;
use parts_subsets::ChunkShape;
use sharding_format::{Slot, calculate_chunks_per_shard, of_stored, subchunk_subset};
use sharding_gather::{first_subchunk, room_for};
use std::alloc::Global;
use std::borrow::CowSlice;

impl<I: ArrayToBytesCodecTraits> HeldShard<'_, '_, I> {
    // Decodes the subchunk that a slot names to the cells of its subset, in the shard's elements, which have these bytes; nothing where
    // it is absent.
    fn decode_to_subset(
        &self,
        alloc: Global,
        number: u64,
        slot: Slot,
        grid: &ChunkShape,
        output: &mut [u8],
    ) -> Result<(), CodecError>
        requires slot { FitsSlot (length self.now.bytes.now) slot }
        requires serves { (inner_meaning I.meaning self.now.subchunks.now).serves }
        requires some { 0 < length self.now.subchunks.now.fill_value.now }
        requires fixed { size_of self.now.subchunks.now.data_type.now ≡ Fixed (length self.now.subchunks.now.fill_value.now) }
        requires whole { length output.old ≡ count_of self.now.shape.now * length self.now.subchunks.now.fill_value.now }
        requires grid { grid.now ≡ grid_of self.now.shape.now self.now.subchunks.now.shape.now }
        requires below { number < count_of grid.now }
        ensures written { let s = self.now.subchunks.now in let inner = inner_meaning I.meaning s in let size = length s.fill_value.now in
            OnOk result (IsSlotWritten inner.cells s.fill_value.now self.now.bytes.now slot (count_of s.shape.now) (cell_number self.now.shape.now s.shape.now number)
            (piece size output.old) (piece size output.new)) }
        ensures refused { let inner = inner_meaning I.meaning self.now.subchunks.now in
            IfErr result (RefusedBy (RefusesSubchunk inner.decode_refusals inner.cells self.now.bytes.now slot number)) }
    {
        match slot {
            Slot::Absent => Ok(()),
            Slot::InRange { offset, size } => {
                let rest = &self.bytes[offset as usize..];
                let part = &rest[..size as usize];
                let axes = self.shape.as_slice();
                let inner = self.subchunks;
                let Some(subset) = subchunk_subset(alloc, number, grid, inner.shape)? else {
                    unreachable!()
                };
                let element = inner.fill_value.as_ne_bytes();
                let mut target = FixedTarget::over(output, element.len(), axes, &subset);
                match inner.codec.decode_into(
                    alloc,
                    part,
                    inner.shape,
                    inner.data_type,
                    inner.fill_value,
                    &mut target,
                    inner.options,
                ) {
                    Ok(()) => Ok(()),
                    Err(error) => Err(of_stored(error)),
                }
            }
            Slot::Bad => Err(CodecError::BadIndexEntry { number }),
        }
    }

    // The same; a slice of as many bytes as a plain subchunk has is copied.
    fn decode_to(
        &self,
        alloc: Global,
        number: u64,
        slot: Slot,
        plain: &Option<PlainSubchunks>,
        grid: &ChunkShape,
        output: &mut [u8],
    ) -> Result<(), CodecError>
        requires slot { FitsSlot (length self.now.bytes.now) slot }
        requires serves { (inner_meaning I.meaning self.now.subchunks.now).serves }
        requires some { 0 < length self.now.subchunks.now.fill_value.now }
        requires fixed { size_of self.now.subchunks.now.data_type.now ≡ Fixed (length self.now.subchunks.now.fill_value.now) }
        requires whole { length output.old ≡ count_of self.now.shape.now * length self.now.subchunks.now.fill_value.now }
        requires grid { grid.now ≡ grid_of self.now.shape.now self.now.subchunks.now.shape.now }
        requires below { number < count_of grid.now }
        requires plain { IfSome plain.now (ArePlainSubchunks (spec_of_subchunks self.now.subchunks.now) (inner_meaning I.meaning self.now.subchunks.now) self.now.shape.now) }
        ensures written { let s = self.now.subchunks.now in let inner = inner_meaning I.meaning s in let size = length s.fill_value.now in
            OnOk result (IsSlotWritten inner.cells s.fill_value.now self.now.bytes.now slot (count_of s.shape.now) (cell_number self.now.shape.now s.shape.now number)
            (piece size output.old) (piece size output.new)) }
        ensures refused { let inner = inner_meaning I.meaning self.now.subchunks.now in
            IfErr result (RefusedBy (RefusesSubchunk inner.decode_refusals inner.cells self.now.bytes.now slot number)) }
    {
        if let Some(plain) = plain {
            if self.put_plain_slice(number, slot, plain, output) {
                return Ok(());
            }
        }
        self.decode_to_subset(alloc, number, slot, grid, output)
    }

    // The bytes of the shard's elements.
    fn whole_bytes(&self, alloc: Global) -> Result<Vec<u8>, CodecError>
        requires serves { (inner_meaning I.meaning self.now.subchunks.now).serves }
        requires some { 0 < length self.now.subchunks.now.fill_value.now }
        requires fixed { size_of self.now.subchunks.now.data_type.now ≡ Fixed (length self.now.subchunks.now.fill_value.now) }
        requires whole { self.now.cells * length self.now.subchunks.now.fill_value.now < 2 ^ 64 }
        ensures counted { IfOk result (λ whole. length whole.items ≡ self.now.cells * length self.now.subchunks.now.fill_value.now) }
        ensures cells { let s = self.now.subchunks.now in let inner = inner_meaning I.meaning s in
            IfOk result (λ whole. map (indexed_cell inner.cells self.now.shape.now s.shape.now s.fill_value.now self.now.bytes.now self.now.index.now.numbers.items) (range_with_len 0 self.now.cells)
            ≡ map Some (pieces (length s.fill_value.now) self.now.cells whole.items)) }
        ensures refused { let inner = inner_meaning I.meaning self.now.subchunks.now in let numbers = self.now.index.now.numbers.items in
            IfErr result (RefusedBy (SubchunkRefusals inner.decode_refusals inner.cells self.now.bytes.now (Some numbers) (length numbers / 2) done)) }
    {
        let (index, sub) = (self.index, self.subchunks.shape);
        let fill = self.subchunks.fill_value.as_ne_bytes();
        let grid = calculate_chunks_per_shard(alloc, self.shape, sub)?;
        let mut whole = room_for(alloc, index.any_absent(), self.cells as usize, fill)?;
        let first = first_subchunk(alloc, self.shape, sub, &grid)?;
        let plain = self.subchunks.plain_in(self.shape, &grid, &first);
        for k in 0..index.subchunks() {
            let slot = index.slot(k);
            self.decode_to(alloc, k as u64, slot, &plain, &grid, &mut whole)?;
        }
        Ok(whole)
    }

    /// The cells of a whole shard, whose elements have one size, and whose bytes a number can say. The inner codec decodes each
    /// subchunk to where it lies among the others. The lowest that is refused gives the refusal: `BadIndexEntry` with its number,
    /// `Damaged`, `TooLarge`; or `OutOfMemory`.
    pub fn decode_whole(&self, alloc: Global) -> Result<ArrayBytes<'static>, CodecError>
        requires serves { (inner_meaning I.meaning self.now.subchunks.now).serves }
        requires some { 0 < length self.now.subchunks.now.fill_value.now }
        requires fixed { size_of self.now.subchunks.now.data_type.now ≡ Fixed (length self.now.subchunks.now.fill_value.now) }
        requires whole { self.now.cells * length self.now.subchunks.now.fill_value.now < 2 ^ 64 }
        ensures elements { IfOk result (HasElementsOf (size_of self.now.subchunks.now.data_type.now) self.now.cells) }
        ensures cells { let s = self.now.subchunks.now in let inner = inner_meaning I.meaning s in
            IfOk result (λ array. map (indexed_cell inner.cells self.now.shape.now s.shape.now s.fill_value.now self.now.bytes.now self.now.index.now.numbers.items) (range_with_len 0 self.now.cells)
            ≡ map Some array.elements) }
        ensures refused { let inner = inner_meaning I.meaning self.now.subchunks.now in let numbers = self.now.index.now.numbers.items in
            IfErr result (RefusedBy (SubchunkRefusals inner.decode_refusals inner.cells self.now.bytes.now (Some numbers) (length numbers / 2) done)) }
    {
        let fill = self.subchunks.fill_value.as_ne_bytes();
        let whole = self.whole_bytes(alloc)?;
        match ArrayBytes::new_flen(CowSlice::Owned(whole), fill.len()) {
            Some(array) => Ok(array),
            None => unreachable!(),
        }
    }
}
