// Subchunks of an array, encoded and laid end to end in an order.
ghost use Rattle.std.specs.Prelude.{◌≡◌, ◌<◌, IfOk, IfErr, IfSome, OnErr, IsPermutation, length, take, drop};
ghost use Rattle.std.specs.List.{range_with_len};
ghost use Rattle.parts_errors.specs.Order.{done, RefusedBy};
ghost use Rattle.parts_errors.specs.declared.error.CodecError.TheVariants.{OutOfMemory};
ghost use Rattle.parts_row_major.specs.Numbering.{count_of};
ghost use Rattle.parts_subsets.specs.Grid.{subchunk};
ghost use Rattle.parts_arrays.specs.ArraySpec.{IsArrayOf};
ghost use Rattle.parts_arrays.specs.Types.{size_of};
ghost use Rattle.sharding_format.specs.Encoding.{IsStored};
ghost use Rattle.sharding_format.specs.Laying.{IsStoredAfter, IsStoredInOrder};
ghost use Rattle.sharding_format.specs.EncodeRefusals.{RefusesToStore, StoreRefusals};
ghost use Rattle.sharding_layout.specs.steps.Cutting.{CanBeCut};
ghost use Rattle.sharding_subchunks.specs.steps.Inner.{spec_of_subchunks, inner_meaning};
ghost use Rattle.sharding_subchunks.specs.steps.PlainSubchunks.{IsPlainCut};

use crate::plain_subchunks::PlainCut;
use crate::subchunks::Subchunks;
use codec_traits::ArrayToBytesCodecTraits;
use parts_arrays::ArrayBytes;
use parts_errors::CodecError;
use sharding_format::{ArraySpecRef, Slot};
use sharding_gather::first_subchunk;
use sharding_layout::{
    CutArray, SubchunkSequence, absent_slots, gather_subchunk, placed, room_for_next, store_after,
};
use std::alloc::Global;

/// What is to be stored of a subchunk: nothing where it is all fill.
#[derive(Drop)]
pub struct Stored {
    pub present: bool,
    pub bytes: Vec<u8>,
}

impl<I: ArrayToBytesCodecTraits> Subchunks<'_, I> {
    /// Encodes a subchunk that isn't all fill. Refused as `CannotEncode` or `TooLarge`; or as `OutOfMemory`.
    pub fn stored_of(&self, alloc: Global, part: &ArrayBytes) -> Result<Stored, CodecError>
        requires serves { (inner_meaning I.meaning self.now).serves }
        requires kind { part.now.kind ≡ size_of self.now.data_type.now }
        requires array { IsArrayOf (spec_of_subchunks self.now) part.now.elements }
        ensures stored { let inner = inner_meaning I.meaning self.now in
            IfOk result (λ stored. IsStored inner.written self.now.fill_value.now part.now.elements stored.present stored.bytes.items) }
        ensures refused { let inner = inner_meaning I.meaning self.now in
            IfErr result (RefusedBy (RefusesToStore inner.encodable inner.fits self.now.fill_value.now part.now.elements)) }
    {
        let mut bytes = Vec::new(alloc);
        let slot = self.store_after(alloc, part, &mut bytes)?;
        Ok(Stored {
            present: slot != Slot::Absent,
            bytes,
        })
    }

    /// Puts the encoding of a subchunk that isn't all fill behind the slices that are there, and tells where it stands. A refusal
    /// leaves the slices. Refused as `CannotEncode` or `TooLarge`; or as `OutOfMemory`.
    pub fn store_after(
        &self,
        alloc: Global,
        part: &ArrayBytes,
        slices: &mut Vec<u8>,
    ) -> Result<Slot, CodecError>
        requires serves { (inner_meaning I.meaning self.now).serves }
        requires kind { part.now.kind ≡ size_of self.now.data_type.now }
        requires array { IsArrayOf (spec_of_subchunks self.now) part.now.elements }
        ensures stored { let inner = inner_meaning I.meaning self.now in
            IfOk result (IsStoredAfter inner.written self.now.fill_value.now part.now.elements slices.old.items slices.new.items) }
        ensures kept { OnErr result (slices.new.items ≡ slices.old.items) }
        ensures refused { let inner = inner_meaning I.meaning self.now in
            IfErr result (RefusedBy (RefusesToStore inner.encodable inner.fits self.now.fill_value.now part.now.elements)) }
    {
        let spec = ArraySpecRef {
            shape: self.shape,
            data_type: self.data_type,
            fill_value: self.fill_value,
        };
        store_after(self.codec, alloc, part, &spec, slices, self.options)
    }

    // The subchunk of an array with a number, as `gather_subchunk` gives it. Refused only as out of memory.
    fn cut_out<'a>(
        &self,
        alloc: Global,
        cut: &CutArray<'a, '_>,
        number: u64,
    ) -> Result<ArrayBytes<'a>, CodecError>
        requires cut { CanBeCut (spec_of_subchunks self.now) cut.now }
        requires below { number < count_of cut.now.grid.now }
        ensures refused { IfErr result (λ e. e ≡ OutOfMemory) }
        ensures kind { IfOk result (λ part. part.kind ≡ size_of self.now.data_type.now) }
        ensures array { IfOk result (λ part. IsArrayOf (spec_of_subchunks self.now) part.elements) }
        ensures elements { IfOk result (λ part. part.elements ≡ subchunk cut.now.shape.now self.now.shape.now cut.now.array.now.elements number) }
    {
        let spec = ArraySpecRef {
            shape: self.shape,
            data_type: self.data_type,
            fill_value: self.fill_value,
        };
        let part = gather_subchunk(alloc, cut, number, &spec)?;
        Ok(part)
    }

    /// What is to be stored of the subchunk of an array with a number. Refused as `CannotEncode` or `TooLarge`; or as `OutOfMemory`.
    pub fn stored_at(
        &self,
        alloc: Global,
        cut: &CutArray,
        number: u64,
    ) -> Result<Stored, CodecError>
        requires serves { (inner_meaning I.meaning self.now).serves }
        requires cut { CanBeCut (spec_of_subchunks self.now) cut.now }
        requires below { number < count_of cut.now.grid.now }
        ensures stored { let inner = inner_meaning I.meaning self.now in
            IfOk result (λ stored. IsStored inner.written self.now.fill_value.now
            (subchunk cut.now.shape.now self.now.shape.now cut.now.array.now.elements number) stored.present stored.bytes.items) }
        ensures refused { let inner = inner_meaning I.meaning self.now in
            IfErr result (RefusedBy (RefusesToStore inner.encodable inner.fits self.now.fill_value.now
            (subchunk cut.now.shape.now self.now.shape.now cut.now.array.now.elements number))) }
    {
        let part = self.cut_out(alloc, cut, number)?;
        let stored = self.stored_of(alloc, &part)?;
        Ok(stored)
    }

    // The refusal of the lowest subchunk that is refused, where that with a number is refused as `refusal` says. Those below it are
    // encoded once more, one at a time.
    fn lowest_refusal(
        &self,
        alloc: Global,
        cut: &CutArray,
        number: u64,
        refusal: CodecError,
    ) -> CodecError
        requires serves { (inner_meaning I.meaning self.now).serves }
        requires cut { CanBeCut (spec_of_subchunks self.now) cut.now }
        requires below { number < count_of cut.now.grid.now }
        requires refusal { let inner = inner_meaning I.meaning self.now in
            RefusedBy (RefusesToStore inner.encodable inner.fits self.now.fill_value.now
            (subchunk cut.now.shape.now self.now.shape.now cut.now.array.now.elements number)) refusal }
        ensures { let inner = inner_meaning I.meaning self.now in
            RefusedBy (StoreRefusals inner self.now.fill_value.now
            (subchunk cut.now.shape.now self.now.shape.now cut.now.array.now.elements) (count_of cut.now.grid.now) done) result }
    {
        if refusal == CodecError::OutOfMemory {
            return refusal;
        }
        for lower in 0..number {
            if let Err(error) = self.stored_at(alloc, cut, lower) {
                return error;
            }
        }
        refusal
    }

    // Puts the encoding of a subchunk that isn't all fill behind bytes that are there, and tells where it stands: its elements, where the
    // inner codec stores these as they are in memory. A refusal leaves the bytes, and is that of the lowest subchunk that is refused.
    fn store_number(
        &self,
        alloc: Global,
        cut: &CutArray,
        plain: &Option<PlainCut>,
        number: u64,
        bytes: &mut Vec<u8>,
    ) -> Result<Slot, CodecError>
        requires serves { (inner_meaning I.meaning self.now).serves }
        requires cut { CanBeCut (spec_of_subchunks self.now) cut.now }
        requires plain { IfSome plain.now (IsPlainCut (spec_of_subchunks self.now) (inner_meaning I.meaning self.now) cut.now) }
        requires below { number < count_of cut.now.grid.now }
        ensures stored { let inner = inner_meaning I.meaning self.now in
            IfOk result (IsStoredAfter inner.written self.now.fill_value.now
            (subchunk cut.now.shape.now self.now.shape.now cut.now.array.now.elements number) bytes.old.items bytes.new.items) }
        ensures kept { OnErr result (bytes.new.items ≡ bytes.old.items) }
        ensures refused { let inner = inner_meaning I.meaning self.now in
            IfErr result (RefusedBy (StoreRefusals inner self.now.fill_value.now
            (subchunk cut.now.shape.now self.now.shape.now cut.now.array.now.elements) (count_of cut.now.grid.now) done)) }
    {
        if let Some(plain) = plain {
            return self.store_gathered(cut, plain, number, bytes);
        }
        let part = self.cut_out(alloc, cut, number)?;
        match self.store_after(alloc, &part, bytes) {
            Ok(slot) => Ok(slot),
            Err(refusal) => Err(self.lowest_refusal(alloc, cut, number, refusal)),
        }
    }

    // Each subchunk of an array that isn't all fill encoded behind bytes that are there, which stay, in the order of a sequence. Where
    // one is refused, those before it may stand there.
    fn lay_out_each(
        &self,
        alloc: Global,
        cut: &CutArray,
        plain: &Option<PlainCut>,
        sequence: &SubchunkSequence,
        bytes: &mut Vec<u8>,
    ) -> Result<Vec<Slot>, CodecError>
        requires serves { (inner_meaning I.meaning self.now).serves }
        requires cut { CanBeCut (spec_of_subchunks self.now) cut.now }
        requires plain { IfSome plain.now (IsPlainCut (spec_of_subchunks self.now) (inner_meaning I.meaning self.now) cut.now) }
        requires order { IsPermutation (range_with_len 0 (count_of cut.now.grid.now)) sequence.now }
        ensures stay { take (length bytes.old.items) bytes.new.items ≡ bytes.old.items }
        ensures stored_slices { let inner = inner_meaning I.meaning self.now in
            IfOk result (λ slots. IsStoredInOrder inner.written self.now.fill_value.now cut.now.shape.now self.now.shape.now cut.now.array.now.elements
            (drop (length bytes.old.items) bytes.new.items) slots.items sequence.now (count_of cut.now.grid.now)) }
        ensures refused { let inner = inner_meaning I.meaning self.now in
            IfErr result (RefusedBy (StoreRefusals inner self.now.fill_value.now
            (subchunk cut.now.shape.now self.now.shape.now cut.now.array.now.elements) (count_of cut.now.grid.now) done)) }
    {
        let start = bytes.len();
        let many = sequence.len();
        let mut slots = absent_slots(alloc, many as usize)?;
        let mut longest = 0;
        for position in 0..many {
            room_for_next(
                bytes,
                start,
                position as usize,
                (many - position) as usize,
                longest,
            )?;
            let number = sequence.number_at(position);
            let from = bytes.len();
            let slot = self.store_number(alloc, cut, plain, number, bytes)?;
            let (offset, size) = (from - start, bytes.len() - from);
            longest = longest.max(size);
            slots[number as usize] = placed(slot != Slot::Absent, offset as u64, size as u64);
        }
        Ok(slots)
    }

    /// Each subchunk of an array that isn't all fill encoded, one after the other in the order of a sequence, behind bytes that are
    /// there, which stay; the slots, in ascending number, are counted from their end. The lowest that the inner codec refuses gives
    /// the refusal, and some may stand there: `CannotEncode`, `TooLarge`; or `OutOfMemory`.
    pub fn store_all_after(
        &self,
        alloc: Global,
        cut: &CutArray,
        sequence: &SubchunkSequence,
        bytes: &mut Vec<u8>,
    ) -> Result<Vec<Slot>, CodecError>
        requires serves { (inner_meaning I.meaning self.now).serves }
        requires cut { CanBeCut (spec_of_subchunks self.now) cut.now }
        requires order { IsPermutation (range_with_len 0 (count_of cut.now.grid.now)) sequence.now }
        ensures stay { take (length bytes.old.items) bytes.new.items ≡ bytes.old.items }
        ensures stored_slices { let inner = inner_meaning I.meaning self.now in
            IfOk result (λ slots. IsStoredInOrder inner.written self.now.fill_value.now cut.now.shape.now self.now.shape.now cut.now.array.now.elements
            (drop (length bytes.old.items) bytes.new.items) slots.items sequence.now (count_of cut.now.grid.now)) }
        ensures refused { let inner = inner_meaning I.meaning self.now in
            IfErr result (RefusedBy (StoreRefusals inner self.now.fill_value.now
            (subchunk cut.now.shape.now self.now.shape.now cut.now.array.now.elements) (count_of cut.now.grid.now) done)) }
    {
        if let Some(slots) = self.lay_out_rows(alloc, cut, sequence, bytes)? {
            return Ok(slots);
        }
        let first = first_subchunk(alloc, cut.shape, self.shape, cut.grid)?;
        let plain = self.plain_cut(cut, &first);
        self.lay_out_each(alloc, cut, &plain, sequence, bytes)
    }
}
