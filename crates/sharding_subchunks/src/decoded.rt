// Subchunks of a shard, decoded.
ghost use Rattle.std.specs.Prelude.{◌≡◌, ◌<◌, ◌/◌, ℕ, Some, None, IfOk, IfErr, length, slice_index_or};
ghost use Rattle.parts_errors.specs.Order.{done, RefusedBy};
ghost use Rattle.sharding_format.specs.Index.{slot_at};
ghost use Rattle.sharding_format.specs.DecodeRefusals.{RefusesSubchunk, SubchunkRefusals};
ghost use Rattle.sharding_format.specs.steps.Decoding.{IsDecoded, FitsSlot};
ghost use Rattle.sharding_subchunks.specs.steps.Inner.{spec_of_subchunks, inner_meaning};

use crate::subchunks::Subchunks;
use codec_traits::ArrayToBytesCodecTraits;
use parts_arrays::ArrayBytes;
use parts_errors::CodecError;
use sharding_format::{ShardIndex, Slot, of_stored};
use std::alloc::Global;

impl<I: ArrayToBytesCodecTraits> Subchunks<'_, I> {
    /// The subchunk that a slot names, decoded, or nothing where it is absent. Refused as `BadIndexEntry` with the subchunk's
    /// number, `Damaged` or `TooLarge`; or as `OutOfMemory`.
    pub fn decode_slot<'a>(
        &self,
        alloc: Global,
        bytes: &'a [u8],
        number: u64,
        slot: Slot,
    ) -> Result<Option<ArrayBytes<'a>>, CodecError>
        requires fits { FitsSlot (length bytes.now) slot }
        requires serves { (inner_meaning I.meaning self.now).serves }
        ensures decoded { let inner = inner_meaning I.meaning self.now in
            IfOk result (IsDecoded inner.cells (spec_of_subchunks self.now) bytes.now slot) }
        ensures refused { let inner = inner_meaning I.meaning self.now in
            IfErr result (RefusedBy (RefusesSubchunk inner.decode_refusals inner.cells bytes.now slot number)) }
    {
        match slot {
            Slot::Absent => Ok(None),
            Slot::InRange { offset, size } => {
                let rest = &bytes[offset as usize..];
                let part = &rest[..size as usize];
                match self.codec.decode(
                    alloc,
                    part,
                    self.shape,
                    self.data_type,
                    self.fill_value,
                    self.options,
                ) {
                    Ok(array) => Ok(Some(array)),
                    Err(error) => Err(of_stored(error)),
                }
            }
            Slot::Bad => Err(CodecError::BadIndexEntry { number }),
        }
    }

    /// Each subchunk of a shard decoded, in ascending order; nothing of one that is absent. The lowest that is refused gives
    /// the refusal: `BadIndexEntry` with its number, `Damaged`, `TooLarge`; or `OutOfMemory`.
    pub fn decode<'a>(
        &self,
        alloc: Global,
        bytes: &'a [u8],
        index: &ShardIndex,
    ) -> Result<Vec<Option<ArrayBytes<'a>>>, CodecError>
        requires serves { (inner_meaning I.meaning self.now).serves }
        requires len { index.now.len ≡ length bytes.now }
        ensures counted { IfOk result (λ found. length found.items ≡ length index.now.numbers.items / 2) }
        ensures decoded { let inner = inner_meaning I.meaning self.now in
            IfOk result (λ found. (k : ℕ) → k < length found.items
            → IsDecoded inner.cells (spec_of_subchunks self.now) bytes.now (slot_at (length bytes.now) index.now.numbers.items k) (slice_index_or found.items k None)) }
        ensures refused { let inner = inner_meaning I.meaning self.now in
            IfErr result (RefusedBy (SubchunkRefusals inner.decode_refusals inner.cells bytes.now (Some index.now.numbers.items) (length index.now.numbers.items / 2) done)) }
    {
        let mut found = Vec::with_capacity(alloc, index.subchunks())?;
        for k in 0..index.subchunks() {
            let subchunk = self.decode_slot(alloc, bytes, k as u64, index.slot(k))?;
            found.push(subchunk)?;
        }
        Ok(found)
    }
}
