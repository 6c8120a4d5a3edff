// The present slices of a shard, one after the other: how many bytes they are, the entries that name them there, and their bytes.
ghost use Rattle.std.specs.Prelude.{◌≡◌, ◌≢◌, ◌<◌, ◌^◌, ◌+◌, ◌*◌, ◌/◌, ◌++◌, ℕ, IfOk, IfErr, OnOk, length, slice_index};
ghost use Rattle.parts_errors.specs.Order.{◌or◌then◌, Each, done};
ghost use Rattle.parts_errors.specs.declared.error.CodecError.TheVariants.{TooLarge, BadIndexEntry};
ghost use Rattle.sharding_format.specs.Index.{slot_at, absent_number};
ghost use Rattle.sharding_format.specs.Encoding.{slot_size};
ghost use Rattle.sharding_format.specs.Laying.{AreNumbersOf};
ghost use Rattle.sharding_format.specs.Compacting.{IsGood, present_size};
ghost use Rattle.sharding_format.specs.Packing.{slice_of};
ghost use Rattle.sharding_layout.specs.Repacking.{slices_of, packed_slots};

use parts_errors::CodecError;
use parts_strided_copy::push_front;
use sharding_format::{ShardIndex, Slot};
use std::alloc::{AllocError, Global};

// The bytes of a subchunk's slice, if its entry isn't bad.
fn good_size(index: &ShardIndex, subchunk: usize) -> Result<u64, CodecError>
    requires { 2 * subchunk + 1 < length index.now.numbers.items }
    ensures size { IfOk result (λ size. size ≡ slot_size (slot_at index.now.len index.now.numbers.items subchunk)) }
    ensures good { OnOk result (IsGood (slot_at index.now.len index.now.numbers.items subchunk)) }
    ensures refused { IfErr result (λ e. (¬ (IsGood (slot_at index.now.len index.now.numbers.items subchunk))) × (e ≡ BadIndexEntry subchunk)) }
{
    match index.slot(subchunk) {
        Slot::Absent => Ok(0),
        Slot::InRange { size, .. } => Ok(size),
        Slot::Bad => Err(CodecError::BadIndexEntry {
            number: subchunk as u64,
        }),
    }
}

/// The size of an index and of the slices that its entries name. Refused, in this order, as `BadIndexEntry` for the lowest bad entry,
/// and as `TooLarge` where no shard can have as many bytes.
pub fn compact_size(index: &ShardIndex, index_size: u64) -> Result<u64, CodecError>
    ensures size { let count = length index.now.numbers.items / 2 in
        IfOk result (λ total. total ≡ index_size + present_size (slot_at index.now.len index.now.numbers.items) count) }
    ensures small { IfOk result (λ total. total + 1 < 2 ^ 64) }
    ensures good { let count = length index.now.numbers.items / 2 in
        OnOk result ((k : ℕ) → k < count → IsGood (slot_at index.now.len index.now.numbers.items k)) }
    ensures refused { let count = length index.now.numbers.items / 2 in let slot = slot_at index.now.len index.now.numbers.items in
        IfErr result (Each count (λ k. IsGood (slot k)) (λ k. BadIndexEntry k) (index_size + present_size slot count + 1 < 2 ^ 64 or TooLarge then done)) }
{
    let mut total = index_size;
    for k in 0..index.subchunks() {
        let size = good_size(index, k)?;
        total = total.saturating_add(size);
    }
    if total < u64::MAX {
        Ok(total)
    } else {
        Err(CodecError::TooLarge)
    }
}

// Writes a place as the offset of a subchunk's slice, unless this is absent, and tells where the next slice is to stand.
#[inline(always)]
fn set_slice_offset(numbers: &mut [u64], subchunk: usize, write_offset: u64) -> u64
    requires inside { 2 * subchunk + 1 < length numbers.old }
    requires room { slice_index numbers.old (2 * subchunk) ≢ absent_number → write_offset + slice_index numbers.old (2 * subchunk + 1) < 2 ^ 64 }
    ensures absent { slice_index numbers.old (2 * subchunk) ≡ absent_number
        → (result ≡ write_offset) × (slice_index numbers.new (2 * subchunk) ≡ absent_number) }
    ensures present { slice_index numbers.old (2 * subchunk) ≢ absent_number
        → (result ≡ write_offset + slice_index numbers.old (2 * subchunk + 1)) × (slice_index numbers.new (2 * subchunk) ≡ write_offset) }
    ensures others { (j : ℕ) → j ≢ 2 * subchunk → slice_index numbers.new j ≡ slice_index numbers.old j }
    ensures counted { length numbers.new ≡ length numbers.old }
{
    if numbers[2 * subchunk] == u64::MAX {
        return write_offset;
    }
    numbers[2 * subchunk] = write_offset;
    write_offset + numbers[2 * subchunk + 1]
}

// Writes over the offsets of an index where its slices stand, packed in a data part that begins at `start`.
fn set_slice_offsets(numbers: &mut [u64], start: u64, _len: u64)
    requires entries { length numbers.old ≡ 2 * (length numbers.old / 2) }
    requires good { (k : ℕ) → k < length numbers.old / 2 → IsGood (slot_at _len numbers.old k) }
    requires small { start + present_size (slot_at _len numbers.old) (length numbers.old / 2) < 2 ^ 64 }
    ensures { let count = length numbers.old / 2 in AreNumbersOf start (packed_slots (slot_at _len numbers.old) count) numbers.new count }
{
    let mut write_offset = start;
    for k in 0..numbers.len() / 2 {
        write_offset = set_slice_offset(numbers, k, write_offset);
    }
}

/// The numbers of an index whose slices are packed in a data part that begins at `start`. Refused only as out of memory.
pub fn packed_numbers(alloc: Global, index: &ShardIndex, start: u64) -> Result<Vec<u64>, AllocError>
    requires entries { let count = length index.now.numbers.items / 2 in length index.now.numbers.items ≡ 2 * count }
    requires good { let count = length index.now.numbers.items / 2 in
        (k : ℕ) → k < count → IsGood (slot_at index.now.len index.now.numbers.items k) }
    requires small { let count = length index.now.numbers.items / 2 in
        start + present_size (slot_at index.now.len index.now.numbers.items) count < 2 ^ 64 }
    ensures { let count = length index.now.numbers.items / 2 in let slot = slot_at index.now.len index.now.numbers.items in
        IfOk result (λ numbers. AreNumbersOf start (packed_slots slot count) numbers.items count) }
{
    let mut numbers = Vec::from_slice(alloc, &index.numbers)?;
    set_slice_offsets(&mut numbers, start, index.len);
    Ok(numbers)
}

// Puts the slice that an entry names behind others.
#[inline(always)]
fn push_slice(
    bytes: &[u8],
    numbers: &[u64],
    subchunk: usize,
    shard: &mut Vec<u8>,
) -> Result<(), AllocError>
    requires inside { 2 * subchunk + 1 < length numbers.now }
    requires good { IsGood (slot_at (length bytes.now) numbers.now subchunk) }
    ensures { OnOk result (shard.new.items ≡ shard.old.items ++ slice_of bytes.now (slot_at (length bytes.now) numbers.now subchunk)) }
{
    let offset = numbers[2 * subchunk];
    if offset == u64::MAX {
        return Ok(());
    }
    push_front(
        shard,
        &bytes[offset as usize..],
        numbers[2 * subchunk + 1] as usize,
    )
}

/// Puts the slices that the numbers of a shard's index name behind bytes that are there, one after the other. Refused only as out of
/// memory.
pub fn push_slices(bytes: &[u8], numbers: &[u64], shard: &mut Vec<u8>) -> Result<(), AllocError>
    requires good { (k : ℕ) → k < length numbers.now / 2 → IsGood (slot_at (length bytes.now) numbers.now k) }
    ensures { let count = length numbers.now / 2 in
        OnOk result (shard.new.items ≡ shard.old.items ++ slices_of bytes.now (slot_at (length bytes.now) numbers.now) count) }
{
    for k in 0..numbers.len() / 2 {
        push_slice(bytes, numbers, k, shard)?;
    }
    Ok(())
}
