// What becomes of a shard with new slices.
ghost use Rattle.std.specs.Prelude.{◌≡◌, ◌*◌, ◌+◌, ◌<◌, ℕ, Option, IfOk, IfErr, All, length, slice_index, slice_index_or};
ghost use Rattle.parts_errors.specs.Words.{Bytes};
ghost use Rattle.parts_errors.specs.Order.{RefusedBy};
ghost use Rattle.parts_row_major.specs.Numbering.{count_of};
ghost use Rattle.storage_handles.specs.Writes.{bytes_of};
ghost use Rattle.sharding_format.specs.EncodeRefusals.{RefusesIndex};
ghost use Rattle.sharding_format.specs.Packing.{LiesInShard};
ghost use Rattle.sharding_format.specs.declared.slot.Slot.TheVariants.{Bad};
ghost use Rattle.sharding_index.specs.Indexes.{index_meaning, IsIndexPlan};
ghost use Rattle.sharding_write.specs.Writing.{IsSettled, RefusesToPut};
ghost use Rattle.sharding_write.specs.steps.Changes.{object_after};

use crate::change::{Change, Prepared};
use crate::numbers::{are_absent, cleared, none_stored};
use crate::writing::Writing;
use codec_traits::ArrayToBytesCodecTraits;
use parts_errors::CodecError;
use sharding_layout::{CachedIndex, StoredSlices, length_after, offset_after};
use std::alloc::Global;

impl<I, X: ArrayToBytesCodecTraits> Writing<'_, I, X> {
    // What becomes of a shard with this index, when its touched subchunks are these slices: it goes where none is stored any more,
    // starts anew where no other is stored, and else they go after the old ones. Refused as `TooLarge` (its length), then as the
    // index codec refuses; or as `OutOfMemory`.
    pub fn settle(
        &self,
        alloc: Global,
        cached: &CachedIndex,
        touched: &[u64],
        stored_slices: StoredSlices,
    ) -> Result<Prepared, CodecError>
        requires plan { IsIndexPlan (index_meaning X.meaning self.now.index_codec.codec.now) self.now.plan.now }
        requires counted { length cached.now.numbers.now ≡ 2 * count_of self.now.plan.now.grid }
        requires same { length stored_slices.slots.items ≡ length touched.now }
        requires below { All (λ k. 2 * k + 1 < length cached.now.numbers.now) touched.now }
        requires rising { (i j : ℕ) → i < j → j < length touched.now → slice_index touched.now i < slice_index touched.now j }
        requires room { (i : ℕ) → i < length stored_slices.slots.items → LiesInShard (length stored_slices.bytes.items) (slice_index_or stored_slices.slots.items i Bad) }
        ensures settled { let index = index_meaning X.meaning self.now.index_codec.codec.now self.now.plan.now.grid in let location = self.now.index_codec.location in let size = self.now.plan.now.size in
            IfOk result (λ p. (old : Option Bytes) → length (bytes_of old) ≡ cached.now.len
            → IsSettled index.written location size touched.now stored_slices.slots.items stored_slices.bytes.items cached.now.numbers.now old (object_after p.change old) p.numbers.items p.len) }
        ensures refused { let index = index_meaning X.meaning self.now.index_codec.codec.now self.now.plan.now.grid in
            IfErr result (RefusedBy (RefusesToPut self.now.index_codec.location self.now.plan.now.size touched.now cached.now.numbers.now cached.now.len (length stored_slices.bytes.items)
            (RefusesIndex index (count_of self.now.plan.now.grid)))) }
    {
        let new = cleared(alloc, cached.numbers, touched)?;
        if are_absent(&new) {
            if none_stored(&stored_slices.slots) {
                return Ok(Prepared {
                    change: Change::Erase,
                    len: 0,
                    numbers: new,
                });
            }
            let begun = self.put_anew(alloc, touched, stored_slices, new)?;
            return Ok(begun);
        }
        let location = self.index_codec.location;
        let total = stored_slices.bytes.len() as u64;
        let write_offset = offset_after(location, self.plan.size, cached);
        let Some(long) = length_after(location, cached.len, write_offset, total) else {
            return Err(CodecError::TooLarge);
        };
        if long == u64::MAX {
            return Err(CodecError::TooLarge);
        }
        let appended = self.put_after(alloc, touched, stored_slices, new, write_offset, long)?;
        Ok(appended)
    }
}
