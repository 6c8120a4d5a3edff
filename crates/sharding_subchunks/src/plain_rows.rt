// Subchunks that are rows of an array's bytes, laid end to end where the inner codec stores elements as they are in memory.
ghost use Rattle.std.specs.Prelude.{◌≡◌, IfOk, IfSome, IfNone, IsPermutation, length, take, drop};
ghost use Rattle.std.specs.List.{range_with_len};
ghost use Rattle.parts_row_major.specs.Numbering.{count_of};
ghost use Rattle.sharding_format.specs.Laying.{IsStoredInOrder};
ghost use Rattle.sharding_layout.specs.steps.Cutting.{CanBeCut};
ghost use Rattle.sharding_subchunks.specs.steps.Inner.{spec_of_subchunks, inner_meaning};
ghost use Rattle.sharding_subchunks.specs.PlainRows.{ArePlainRows};

use crate::subchunks::Subchunks;
use codec_traits::ArrayToBytesCodecTraits;
use sharding_format::Slot;
use sharding_layout::{
    CutArray, SubchunkSequence, absent_slots, elements_in_run, is_blank, placed, push_rows,
    stored_row,
};
use std::alloc::{AllocError, Global};

impl<I: ArrayToBytesCodecTraits> Subchunks<'_, I> {
    // The rows that aren't all fill, one after the other behind the slices that are there, which stay; neighbours are copied
    // together. Refused only as out of memory, and then some rows may stand there.
    fn lay_out_bytes(
        &self,
        alloc: Global,
        bytes: &[u8],
        size: usize,
        rows: usize,
        _cut: &CutArray,
        slices: &mut Vec<u8>,
    ) -> Result<Vec<Slot>, AllocError>
        requires rows { let inner = inner_meaning I.meaning self.now in
            ArePlainRows inner.written self.now.fill_value.now _cut.now.shape.now self.now.shape.now _cut.now.array.now.elements bytes.now size rows }
        ensures stay { take (length slices.old.items) slices.new.items ≡ slices.old.items }
        ensures stored_slices { let inner = inner_meaning I.meaning self.now in
            IfOk result (λ slots. IsStoredInOrder inner.written self.now.fill_value.now _cut.now.shape.now self.now.shape.now _cut.now.array.now.elements
            (drop (length slices.old.items) slices.new.items) slots.items (range_with_len 0 rows) rows) }
    {
        let start = slices.len();
        let mut slots = Vec::with_capacity(alloc, rows)?;
        let mut copied = 0;
        for k in 0..rows {
            let first = k * size;
            if !is_blank(&bytes[first..first + size], self.fill_value) {
                slots.push(Slot::InRange {
                    offset: (slices.len() - start + (first - copied)) as u64,
                    size: size as u64,
                })?;
                continue;
            }
            push_rows(slices, start, k, rows - k, &bytes[copied..first])?;
            copied = first + size;
            slots.push(Slot::Absent)?;
        }
        push_rows(slices, start, rows, 0, &bytes[copied..])?;
        Ok(slots)
    }

    // The rows that aren't all fill, one after the other in the order of a sequence, behind the slices that are there, which stay.
    // Refused only as out of memory, and then some rows may stand there.
    fn lay_out_along(
        &self,
        alloc: Global,
        bytes: &[u8],
        size: usize,
        sequence: &SubchunkSequence,
        _cut: &CutArray,
        slices: &mut Vec<u8>,
    ) -> Result<Vec<Slot>, AllocError>
        requires order { IsPermutation (range_with_len 0 (length sequence.now)) sequence.now }
        requires rows { let inner = inner_meaning I.meaning self.now in
            ArePlainRows inner.written self.now.fill_value.now _cut.now.shape.now self.now.shape.now _cut.now.array.now.elements bytes.now size (length sequence.now) }
        ensures stay { take (length slices.old.items) slices.new.items ≡ slices.old.items }
        ensures stored_slices { let inner = inner_meaning I.meaning self.now in
            IfOk result (λ slots. IsStoredInOrder inner.written self.now.fill_value.now _cut.now.shape.now self.now.shape.now _cut.now.array.now.elements
            (drop (length slices.old.items) slices.new.items) slots.items sequence.now (length sequence.now)) }
    {
        let start = slices.len();
        let rows = sequence.len() as usize;
        let mut slots = absent_slots(alloc, rows)?;
        for position in 0..rows {
            let number = sequence.number_at(position as u64) as usize;
            let first = number * size;
            let run = stored_row(&bytes[first..first + size], self.fill_value);
            let offset = slices.len() - start;
            push_rows(slices, start, position, rows - position, run)?;
            slots[number] = placed(run.len() > 0, offset as u64, run.len() as u64);
        }
        Ok(slots)
    }

    /// The subchunks laid out as `store_all_after` does, where they follow one another in the array, as `elements_in_run` tells, and the
    /// inner codec stores their elements as they are in memory. Else `None`, and nothing is put there. Refused only as out of memory.
    pub(crate) fn lay_out_rows(
        &self,
        alloc: Global,
        cut: &CutArray,
        sequence: &SubchunkSequence,
        slices: &mut Vec<u8>,
    ) -> Result<Option<Vec<Slot>>, AllocError>
        requires cut { CanBeCut (spec_of_subchunks self.now) cut.now }
        requires order { IsPermutation (range_with_len 0 (count_of cut.now.grid.now)) sequence.now }
        ensures stay { take (length slices.old.items) slices.new.items ≡ slices.old.items }
        ensures none { IfOk result (λ rows. IfNone rows (slices.new.items ≡ slices.old.items)) }
        ensures stored_slices { let inner = inner_meaning I.meaning self.now in
            IfOk result (λ rows. IfSome rows (λ slots. IsStoredInOrder inner.written self.now.fill_value.now cut.now.shape.now self.now.shape.now
            cut.now.array.now.elements (drop (length slices.old.items) slices.new.items) slots.items sequence.now (count_of cut.now.grid.now))) }
    {
        let _axes = cut.shape.as_slice();
        let Some(_positions) = elements_in_run(cut.shape, self.shape) else {
            return Ok(None);
        };
        let Some(size) = self
            .codec
            .plain_size(self.shape, self.data_type, self.fill_value)
        else {
            return Ok(None);
        };
        let Some(bytes) = cut.array.fixed_bytes() else {
            return Ok(None);
        };
        if sequence.is_ascending() {
            let rows = sequence.len() as usize;
            let slots = self.lay_out_bytes(alloc, bytes, size as usize, rows, cut, slices)?;
            return Ok(Some(slots));
        }
        let slots = self.lay_out_along(alloc, bytes, size as usize, sequence, cut, slices)?;
        Ok(Some(slots))
    }
}
