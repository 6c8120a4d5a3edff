// New subchunks, encoded and laid end to end.
ghost use Rattle.std.specs.Prelude.{◌≡◌, ◌<◌, ℕ, IfOk, IfErr, length};
ghost use Rattle.parts_errors.specs.Order.{done, RefusedBy};
ghost use Rattle.parts_arrays.specs.Types.{size_of};
ghost use Rattle.parts_arrays.specs.ArraySpec.{IsArrayOf};
ghost use Rattle.sharding_format.specs.EncodeRefusals.{StoreRefusals};
ghost use Rattle.sharding_subchunks.specs.steps.Inner.{spec_of_subchunks, inner_meaning};
ghost use Rattle.sharding_write.specs.Writing.{AreStoredInRow, array_at};

use codec_traits::ArrayToBytesCodecTraits;
use parts_arrays::ArrayBytes;
use parts_errors::CodecError;
use sharding_layout::StoredSlices;
use sharding_subchunks::Subchunks;
use std::alloc::Global;

// How many bytes arrays have together, as far as a number can say it.
fn total_len(arrays: &[ArrayBytes<'static>]) -> usize {
    let mut total = 0usize;
    for array in arrays {
        total = total.saturating_add(array.byte_len());
    }
    total
}

// Each of these subchunks that isn't all fill encoded, one after the other. The first that the inner codec refuses gives the
// refusal: `CannotEncode`, `TooLarge`; or `OutOfMemory`.
pub fn stored_in_row<I: ArrayToBytesCodecTraits>(
    subchunks: &Subchunks<'_, I>,
    alloc: Global,
    arrays: &[ArrayBytes<'static>],
) -> Result<StoredSlices, CodecError>
    requires serves { (inner_meaning I.meaning subchunks.now).serves }
    requires arrays { (j : ℕ) → j < length arrays.now
        → ((array_at arrays.now j).kind ≡ size_of subchunks.now.data_type.now) × IsArrayOf (spec_of_subchunks subchunks.now) (array_at arrays.now j).elements }
    ensures stored_slices { let inner = inner_meaning I.meaning subchunks.now in
        IfOk result (λ stored_slices. AreStoredInRow inner.written subchunks.now.fill_value.now (λ j. (array_at arrays.now j).elements) stored_slices.bytes.items stored_slices.slots.items (length arrays.now)) }
    ensures refused { let inner = inner_meaning I.meaning subchunks.now in
        IfErr result (RefusedBy (StoreRefusals inner subchunks.now.fill_value.now (λ j. (array_at arrays.now j).elements) (length arrays.now) done)) }
{
    let mut bytes: Vec<u8> = Vec::with_capacity(alloc, total_len(arrays))?;
    let mut slots = Vec::with_capacity(alloc, arrays.len())?;
    for j in 0..arrays.len() {
        let slot = subchunks.store_after(alloc, &arrays[j], &mut bytes)?;
        slots.push(slot)?;
    }
    Ok(StoredSlices { bytes, slots })
}
