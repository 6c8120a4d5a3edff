// New slices and an index, put into a shard.
ghost use Rattle.std.specs.Prelude.{◌≡◌, ◌≤◌, ◌*◌, ◌+◌, ◌^◌, ◌<◌, ℕ, Option, IfOk, IfErr, All, length, slice_index, slice_index_or};
ghost use Rattle.parts_errors.specs.Words.{Bytes};
ghost use Rattle.parts_errors.specs.Order.{◌or◌then◌, RefusedBy};
ghost use Rattle.parts_row_major.specs.Numbering.{count_of};
ghost use Rattle.parts_errors.specs.declared.error.CodecError.TheVariants.{TooLarge};
ghost use Rattle.storage_handles.specs.Writes.{bytes_of};
ghost use Rattle.sharding_format.specs.Index.{data_start};
ghost use Rattle.sharding_format.specs.EncodeRefusals.{RefusesIndex};
ghost use Rattle.sharding_format.specs.Packing.{LiesInShard};
ghost use Rattle.sharding_format.specs.declared.slot.Slot.TheVariants.{Bad};
ghost use Rattle.sharding_index.specs.Indexes.{index_meaning, IsIndexPlan};
ghost use Rattle.sharding_write.specs.Writing.{IsPut, KeepsSlices, GoesTo};
ghost use Rattle.sharding_write.specs.steps.Changes.{object_after};

use crate::change::{Change, Prepared};
use crate::numbers::with_entries;
use crate::writing::Writing;
use codec_traits::ArrayToBytesCodecTraits;
use parts_errors::CodecError;
use sharding_layout::{StoredSlices, fresh_offset, index_offset, joined_shard};
use std::alloc::Global;

impl<I, X: ArrayToBytesCodecTraits> Writing<'_, I, X> {
    // A shard of just these slices. Refused as `TooLarge` (its length), then as the index codec refuses; or as `OutOfMemory`.
    pub fn put_anew(
        &self,
        alloc: Global,
        touched: &[u64],
        stored_slices: StoredSlices,
        numbers: Vec<u64>,
    ) -> Result<Prepared, CodecError>
        requires plan { IsIndexPlan (index_meaning X.meaning self.now.index_codec.codec.now) self.now.plan.now }
        requires counted { length numbers.items ≡ 2 * count_of self.now.plan.now.grid }
        requires same { length stored_slices.slots.items ≡ length touched.now }
        requires below { All (λ k. 2 * k + 1 < length numbers.items) touched.now }
        requires rising { (i j : ℕ) → i < j → j < length touched.now → slice_index touched.now i < slice_index touched.now j }
        requires room { (i : ℕ) → i < length stored_slices.slots.items → LiesInShard (length stored_slices.bytes.items) (slice_index_or stored_slices.slots.items i Bad) }
        ensures put { let index = index_meaning X.meaning self.now.index_codec.codec.now self.now.plan.now.grid in let location = self.now.index_codec.location in let size = self.now.plan.now.size in
            IfOk result (λ p. (old : Option Bytes) → IsPut index.written location size touched.now stored_slices.slots.items stored_slices.bytes.items numbers.items (data_start location size)
            (object_after p.change old) p.numbers.items p.len) }
        ensures long { IfOk result (λ p. p.len ≡ self.now.plan.now.size + length stored_slices.bytes.items) }
        ensures refused { let index = index_meaning X.meaning self.now.index_codec.codec.now self.now.plan.now.grid in
            IfErr result (RefusedBy (
            self.now.plan.now.size + length stored_slices.bytes.items + 1 < 2 ^ 64 or TooLarge then
            RefusesIndex index (count_of self.now.plan.now.grid))) }
    {
        let total = stored_slices.bytes.len() as u64;
        if self.plan.size >= u64::MAX - total {
            return Err(CodecError::TooLarge);
        }
        let location = self.index_codec.location;
        let start = fresh_offset(location, self.plan.size);
        let numbers = with_entries(numbers, touched, &stored_slices.slots, start);
        let options = self.subchunks.options;
        let index = self
            .index_codec
            .encode_numbers(alloc, &numbers, self.plan, options)?;
        let shard = joined_shard(location, index, stored_slices.bytes)?;
        Ok(Prepared {
            change: Change::Replace(shard),
            len: self.plan.size + total,
            numbers,
        })
    }

    // These slices at a place behind the old ones of a shard, and the index where it belongs then. Refused as the index codec
    // refuses; or as `OutOfMemory`.
    pub fn put_after(
        &self,
        alloc: Global,
        touched: &[u64],
        stored_slices: StoredSlices,
        numbers: Vec<u64>,
        write_offset: u64,
        len: u64,
    ) -> Result<Prepared, CodecError>
        requires plan { IsIndexPlan (index_meaning X.meaning self.now.index_codec.codec.now) self.now.plan.now }
        requires counted { length numbers.items ≡ 2 * count_of self.now.plan.now.grid }
        requires same { length stored_slices.slots.items ≡ length touched.now }
        requires below { All (λ k. 2 * k + 1 < length numbers.items) touched.now }
        requires rising { (i j : ℕ) → i < j → j < length touched.now → slice_index touched.now i < slice_index touched.now j }
        requires room { (i : ℕ) → i < length stored_slices.slots.items → LiesInShard (length stored_slices.bytes.items) (slice_index_or stored_slices.slots.items i Bad) }
        requires small { len + 1 < 2 ^ 64 }
        requires inside { write_offset + length stored_slices.bytes.items ≤ len }
        ensures put { let index = index_meaning X.meaning self.now.index_codec.codec.now self.now.plan.now.grid in let location = self.now.index_codec.location in let size = self.now.plan.now.size in
            IfOk result (λ p. (old : Option Bytes) → size ≤ length (bytes_of old) → GoesTo location size (length (bytes_of old)) write_offset (length stored_slices.bytes.items) len
            → IsPut index.written location size touched.now stored_slices.slots.items stored_slices.bytes.items numbers.items write_offset (object_after p.change old) p.numbers.items p.len
            × KeepsSlices (data_start location size) write_offset (bytes_of old) (bytes_of (object_after p.change old))) }
        ensures long { IfOk result (λ p. p.len ≡ len) }
        ensures refused { let index = index_meaning X.meaning self.now.index_codec.codec.now self.now.plan.now.grid in
            IfErr result (RefusedBy (RefusesIndex index (count_of self.now.plan.now.grid))) }
    {
        let numbers = with_entries(numbers, touched, &stored_slices.slots, write_offset);
        let options = self.subchunks.options;
        let index = self
            .index_codec
            .encode_numbers(alloc, &numbers, self.plan, options)?;
        let total = stored_slices.bytes.len() as u64;
        let index_offset = index_offset(self.index_codec.location, write_offset, total);
        Ok(Prepared {
            change: Change::Append {
                slices: stored_slices.bytes,
                write_offset,
                index,
                index_offset,
            },
            len,
            numbers,
        })
    }
}
