// A whole shard whose inner codec stores elements as they are in memory, copied slice by slice to where each lies in a target.
ghost use Rattle.std.specs.Prelude.{◌≡◌, ◌/◌, ◌<◌, IsTrue, IfOk, IfErr, OnErr, map, length};
ghost use Rattle.std.specs.List.{range_with_len};
ghost use Rattle.parts_row_major.specs.Numbering.{count_of};
ghost use Rattle.parts_row_major.specs.Subsets.{IsServed};
ghost use Rattle.parts_arrays.specs.Targets.{target_element_size, target_shape};
ghost use Rattle.parts_errors.specs.declared.error.CodecError.TheVariants.{OutOfMemory};
ghost use Rattle.codec_traits.specs.Encodings.{IsPlain};
ghost use Rattle.codec_traits.specs.Reads.{IsDecodedInto};
ghost use Rattle.sharding_format.specs.Cells.{indexed_cell};
ghost use Rattle.sharding_format.specs.steps.Decoding.{FitsSlot, IsOfSize};
ghost use Rattle.sharding_subchunks.specs.steps.Inner.{spec_of_subchunks, inner_meaning};
ghost use Rattle.sharding_subchunks.specs.steps.Writes.{IsSlotPut};

use crate::held_shard::HeldShard;
use crate::subchunks::Subchunks;
use codec_traits::ArrayToBytesCodecTraits;
use parts_arrays::FixedTarget;
use parts_errors::CodecError;
use parts_subsets::ArraySubset;
use sharding_format::{Slot, calculate_chunks_per_shard};
use sharding_gather::placed_subsets;
use std::alloc::Global;

// Whether a subset has as many coordinates along each axis as a shape.
pub(crate) fn same_axes(lengths: &[u64], shape: &[u64]) -> bool
    ensures { IsTrue result → lengths.now ≡ shape.now }
{
    lengths == shape
}

impl<I: ArrayToBytesCodecTraits> Subchunks<'_, I> {
    // Copies the slice that a slot names, or fill values where there is none, to a subset of a target's array.
    fn put_slot(
        &self,
        bytes: &[u8],
        slot: Slot,
        _size: u64,
        position: &ArraySubset,
        target: &mut FixedTarget,
    )
        requires fits { FitsSlot (length bytes.now) slot }
        requires plain { IsPlain (spec_of_subchunks self.now) (inner_meaning I.meaning self.now) _size }
        requires slot { IsOfSize _size slot }
        requires element { target_element_size target.old ≡ length self.now.fill_value.now }
        requires served { IsServed position.now (target_shape target.old) }
        requires counted { position.now.shape ≡ self.now.shape.now }
        ensures { let inner = inner_meaning I.meaning self.now in
            IsSlotPut inner.cells self.now.fill_value.now bytes.now slot (count_of self.now.shape.now) position.now target.old target.new }
    {
        match slot {
            Slot::InRange { offset, size } => {
                let rest = &bytes[offset as usize..];
                target.copy_part(position, &rest[..size as usize]);
            }
            Slot::Absent => target.fill_part(position, self.fill_value.as_ne_bytes()),
            Slot::Bad => unreachable!(),
        }
    }
}

impl<I: ArrayToBytesCodecTraits> HeldShard<'_, '_, I> {
    /// Copies a whole shard into a target, where the inner codec stores each subchunk as as many bytes that are its elements, the
    /// target's subset has the shard's shape, and each subchunk is absent or has a slice of as many bytes. False where it is not
    /// so; the target is then as it was. Refused only as out of memory, which leaves the target.
    pub fn put_plain(
        &self,
        alloc: Global,
        size: u64,
        target: &mut FixedTarget,
    ) -> Result<bool, CodecError>
        requires plain { IsPlain (spec_of_subchunks self.now.subchunks.now) (inner_meaning I.meaning self.now.subchunks.now) size }
        requires element { target_element_size target.old ≡ length self.now.subchunks.now.fill_value.now }
        ensures put { let s = self.now.subchunks.now in let inner = inner_meaning I.meaning s in
            IfOk result (λ done. IsTrue done → IsDecodedInto target.old target.new
            (map (indexed_cell inner.cells self.now.shape.now s.shape.now s.fill_value.now self.now.bytes.now self.now.index.now.numbers.items) (range_with_len 0 (count_of self.now.shape.now)))) }
        ensures kept { IfOk result (λ done. (¬ (IsTrue done)) → target.new ≡ target.old) }
        ensures left { OnErr result (target.new ≡ target.old) }
        ensures refused { IfErr result (λ e. e ≡ OutOfMemory) }
    {
        let (index, shape, sub) = (self.index, self.shape, self.subchunks.shape);
        if !same_axes(target.subset().shape(), shape.as_slice()) || !index.has_slices_of(size) {
            return Ok(false);
        }
        let grid = calculate_chunks_per_shard(alloc, shape, sub)?;
        let count = index.subchunks();
        let subsets = placed_subsets(alloc, count, shape, &grid, sub, target.subset())?;
        for k in 0..count {
            let slot = index.slot(k);
            self.subchunks
                .put_slot(self.bytes, slot, size, &subsets[k], target);
        }
        Ok(true)
    }
}
