// The listed cells of a shard: read subchunk by subchunk, each written where it stands if the elements have one size.
ghost use Rattle.std.specs.Prelude.{◌≡◌, ◌+◌, ◌*◌, ◌^◌, ◌<◌, Some, IsTrue, IfOk, IfErr, map, length};
ghost use Rattle.std.specs.List.{All};
ghost use Rattle.parts_errors.specs.Order.{RefusedBy};
ghost use Rattle.parts_row_major.specs.Numbering.{count_of};
ghost use Rattle.parts_row_major.specs.Pieces.{pieces};
ghost use Rattle.parts_arrays.specs.Types.{size_of};
ghost use Rattle.parts_arrays.specs.declared.data_type.DataTypeSize.TheVariants.{Fixed};
ghost use Rattle.storage_handles.specs.Handles.{IsRead, IsCounted};
ghost use Rattle.storage_handles.specs.Objects.{interval_part, HasInterval, ObjectRefusals};
ghost use Rattle.sharding_format.specs.Cells.{indexed_cell};
ghost use Rattle.sharding_format.specs.steps.Reading.{ReadByRefusals};
ghost use Rattle.sharding_gather.specs.steps.Sorting.{AreSorted};
ghost use Rattle.sharding_subchunks.specs.steps.Inner.{inner_meaning};
ghost use Rattle.sharding_subchunks.specs.Reads.{HasElementsOf};

use crate::stored_shard::StoredShard;
use codec_traits::ArrayToBytesCodecTraits;
use parts_arrays::ArrayBytes;
use parts_errors::CodecError;
use sharding_gather::{
    RequestedCell, grouped, list_positions, put_cells, put_together, room_for, run_length,
    sorted_cells,
};
use std::alloc::Global;
use std::borrow::CowSlice;
use storage_handles::BytesPartialDecoderTraits;

impl<I: ArrayToBytesCodecTraits> StoredShard<'_, I> {
    // The bytes of these cells, which are those with so many row-major numbers, each at its rank.
    fn sorted_bytes<H: BytesPartialDecoderTraits>(
        &self,
        alloc: Global,
        handle: &mut H,
        requested: &[RequestedCell],
        numbers: &[u64],
    ) -> Result<Vec<u8>, CodecError>
        requires inside { IsTrue (H.state handle.old).transparent → HasInterval self.now.interval (H.state handle.old).contents }
        requires serves { (inner_meaning I.meaning self.now.subchunks).serves }
        requires sorted { AreSorted self.now.shape.now self.now.subchunks.shape.now numbers.now requested.now }
        requires numbers { All (λ number. number < count_of self.now.shape.now) numbers.now }
        requires fixed { size_of self.now.subchunks.data_type.now ≡ Fixed (length self.now.subchunks.fill_value.now) }
        requires whole { length numbers.now * length self.now.subchunks.fill_value.now < 2 ^ 64 }
        ensures read { IsRead (H.state handle.old) (H.state handle.new) }
        ensures counted { IfOk result (λ bytes. length bytes.items ≡ length numbers.now * length self.now.subchunks.fill_value.now) }
        ensures cells { let s = self.now.subchunks in let inner = inner_meaning I.meaning s in let bytes = interval_part self.now.interval (H.state handle.old).contents in
            IfOk result (λ read. IsTrue (H.state handle.old).transparent
            → map (indexed_cell inner.cells self.now.shape.now s.shape.now s.fill_value.now bytes self.now.index.now.numbers.items) numbers.now
            ≡ map Some (pieces (length s.fill_value.now) (length numbers.now) read.items)) }
        ensures fault { IfErr result (IsCounted (H.state handle.old) (H.state handle.new)) }
        ensures refused { let s = self.now.subchunks in let inner = inner_meaning I.meaning s in let bytes = interval_part self.now.interval (H.state handle.old).contents in
            IfErr result (RefusedBy (ObjectRefusals (H.state handle.old) (H.state handle.new) (
            ReadByRefusals inner self.now.shape.now s.shape.now s.fill_value.now bytes self.now.index.now.numbers.items numbers.now))) }
    {
        let fill = self.subchunks.fill_value.as_ne_bytes();
        let mut bytes = room_for(alloc, true, numbers.len(), fill)?;
        let mut positions = Vec::new(alloc);
        let mut done = 0;
        while done < requested.len() {
            let rest = &requested[done..];
            let run = &rest[..run_length(rest)];
            list_positions(&mut positions, run)?;
            let number = run[0].subchunk;
            let slot = self.index.slot(number as usize);
            let part = self.read_slot(alloc, handle, number, slot, &positions)?;
            put_cells(&mut bytes, fill.len(), run, &part);
            drop(part);
            done += run.len();
        }
        Ok(bytes)
    }

    // The bytes of the cells with these row-major numbers, each at its rank: straight from the shard where it can be, and else
    // subchunk by subchunk.
    fn listed_bytes<H: BytesPartialDecoderTraits>(
        &self,
        alloc: Global,
        handle: &mut H,
        numbers: &[u64],
    ) -> Result<Vec<u8>, CodecError>
        requires inside { IsTrue (H.state handle.old).transparent → HasInterval self.now.interval (H.state handle.old).contents }
        requires serves { (inner_meaning I.meaning self.now.subchunks).serves }
        requires numbers { All (λ number. number < count_of self.now.shape.now) numbers.now }
        requires fixed { size_of self.now.subchunks.data_type.now ≡ Fixed (length self.now.subchunks.fill_value.now) }
        requires whole { length numbers.now * length self.now.subchunks.fill_value.now < 2 ^ 64 }
        ensures read { IsRead (H.state handle.old) (H.state handle.new) }
        ensures counted { IfOk result (λ bytes. length bytes.items ≡ length numbers.now * length self.now.subchunks.fill_value.now) }
        ensures cells { let s = self.now.subchunks in let inner = inner_meaning I.meaning s in let bytes = interval_part self.now.interval (H.state handle.old).contents in
            IfOk result (λ read. IsTrue (H.state handle.old).transparent
            → map (indexed_cell inner.cells self.now.shape.now s.shape.now s.fill_value.now bytes self.now.index.now.numbers.items) numbers.now
            ≡ map Some (pieces (length s.fill_value.now) (length numbers.now) read.items)) }
        ensures fault { IfErr result (IsCounted (H.state handle.old) (H.state handle.new)) }
        ensures refused { let s = self.now.subchunks in let inner = inner_meaning I.meaning s in let bytes = interval_part self.now.interval (H.state handle.old).contents in
            IfErr result (RefusedBy (ObjectRefusals (H.state handle.old) (H.state handle.new) (
            ReadByRefusals inner self.now.shape.now s.shape.now s.fill_value.now bytes self.now.index.now.numbers.items numbers.now))) }
    {
        if let Some(bytes) = self.read_plain(alloc, handle, numbers)? {
            return Ok(bytes);
        }
        let requested = sorted_cells(
            alloc,
            numbers,
            self.shape.as_slice(),
            self.subchunks.shape.as_slice(),
        )?;
        self.sorted_bytes(alloc, handle, &requested, numbers)
    }

    /// The cells with these row-major numbers, in their order; their elements have one size, and together take fewer than 2^64
    /// bytes. Refused as the lowest subchunk in which cells are asked is (`BadIndexEntry` with its number, `Damaged`,
    /// `TooLarge`); or as `Fault`, where the handle failed, or `OutOfMemory`.
    pub fn read_listed<H: BytesPartialDecoderTraits>(
        &self,
        alloc: Global,
        handle: &mut H,
        numbers: &[u64],
    ) -> Result<ArrayBytes<'static>, CodecError>
        requires inside { IsTrue (H.state handle.old).transparent → HasInterval self.now.interval (H.state handle.old).contents }
        requires serves { (inner_meaning I.meaning self.now.subchunks).serves }
        requires numbers { All (λ number. number < count_of self.now.shape.now) numbers.now }
        requires fixed { size_of self.now.subchunks.data_type.now ≡ Fixed (length self.now.subchunks.fill_value.now) }
        requires whole { length numbers.now * length self.now.subchunks.fill_value.now < 2 ^ 64 }
        ensures read { IsRead (H.state handle.old) (H.state handle.new) }
        ensures elements { IfOk result (HasElementsOf (size_of self.now.subchunks.data_type.now) (length numbers.now)) }
        ensures cells { let s = self.now.subchunks in let inner = inner_meaning I.meaning s in let bytes = interval_part self.now.interval (H.state handle.old).contents in
            IfOk result (λ array. IsTrue (H.state handle.old).transparent
            → map (indexed_cell inner.cells self.now.shape.now s.shape.now s.fill_value.now bytes self.now.index.now.numbers.items) numbers.now ≡ map Some array.elements) }
        ensures fault { IfErr result (IsCounted (H.state handle.old) (H.state handle.new)) }
        ensures refused { let s = self.now.subchunks in let inner = inner_meaning I.meaning s in let bytes = interval_part self.now.interval (H.state handle.old).contents in
            IfErr result (RefusedBy (ObjectRefusals (H.state handle.old) (H.state handle.new) (
            ReadByRefusals inner self.now.shape.now s.shape.now s.fill_value.now bytes self.now.index.now.numbers.items numbers.now))) }
    {
        let fill = self.subchunks.fill_value.as_ne_bytes();
        let bytes = self.listed_bytes(alloc, handle, numbers)?;
        match ArrayBytes::new_flen(CowSlice::Owned(bytes), fill.len()) {
            Some(array) => Ok(array),
            None => unreachable!(),
        }
    }

    /// The cells with these row-major numbers, in their order, of the shard. Refused, in this order, as the lowest subchunk in
    /// which cells are asked is (`BadIndexEntry` with its number, `Damaged`, `TooLarge`), and as `TooLarge` where the lengths
    /// of the cells pass `usize::MAX`; or as `Fault`, where the handle failed, or `OutOfMemory`.
    pub fn read_cells<H: BytesPartialDecoderTraits>(
        &self,
        alloc: Global,
        handle: &mut H,
        numbers: &[u64],
    ) -> Result<ArrayBytes<'static>, CodecError>
        requires inside { IsTrue (H.state handle.old).transparent → HasInterval self.now.interval (H.state handle.old).contents }
        requires serves { (inner_meaning I.meaning self.now.subchunks).serves }
        requires numbers { All (λ number. number < count_of self.now.shape.now) numbers.now }
        ensures read { IsRead (H.state handle.old) (H.state handle.new) }
        ensures elements { IfOk result (HasElementsOf (size_of self.now.subchunks.data_type.now) (length numbers.now)) }
        ensures cells { let s = self.now.subchunks in let inner = inner_meaning I.meaning s in let bytes = interval_part self.now.interval (H.state handle.old).contents in
            IfOk result (λ array. IsTrue (H.state handle.old).transparent
            → map (indexed_cell inner.cells self.now.shape.now s.shape.now s.fill_value.now bytes self.now.index.now.numbers.items) numbers.now ≡ map Some array.elements) }
        ensures fault { IfErr result (IsCounted (H.state handle.old) (H.state handle.new)) }
        ensures refused { let s = self.now.subchunks in let inner = inner_meaning I.meaning s in let bytes = interval_part self.now.interval (H.state handle.old).contents in
            IfErr result (RefusedBy (ObjectRefusals (H.state handle.old) (H.state handle.new) (
            ReadByRefusals inner self.now.shape.now s.shape.now s.fill_value.now bytes self.now.index.now.numbers.items numbers.now))) }
    {
        let groups = grouped(
            alloc,
            numbers,
            self.cells,
            self.index.subchunks() as u64,
            self.shape.as_slice(),
            self.subchunks.shape.as_slice(),
        )?;
        let parts = self.read_groups(alloc, handle, &groups)?;
        let array = put_together(
            alloc,
            &groups,
            &parts,
            self.subchunks.data_type.size(),
            self.subchunks.fill_value.as_ne_bytes(),
        )?;
        Ok(array)
    }
}
