// The numbers of an index with new entries.
ghost use Rattle.std.specs.Prelude.{◌≡◌, ◌*◌, ◌+◌, ◌^◌, ◌<◌, ℕ, IsTrue, ◌↔◌, IfOk, IfErr, All, length, slice_index, slice_index_or};
ghost use Rattle.parts_errors.specs.declared.error.CodecError.TheVariants.{OutOfMemory};
ghost use Rattle.sharding_format.specs.Laying.{EndsBelow};
ghost use Rattle.sharding_format.specs.declared.slot.Slot.TheVariants.{Absent, Bad};
ghost use Rattle.sharding_write.specs.Writing.{AreAbsent, HasEntries};

use parts_errors::CodecError;
use sharding_format::Slot;
use sharding_index::entry_of;
use std::alloc::Global;

// Whether no subchunk is stored.
pub fn are_absent(numbers: &[u64]) -> bool
    ensures { IsTrue result ↔ AreAbsent numbers.now }
{
    numbers.iter().all(|n| *n == u64::MAX)
}

// The numbers with the entries of some subchunks absent.
pub fn cleared(alloc: Global, numbers: &[u64], touched: &[u64]) -> Result<Vec<u64>, CodecError>
    requires below { All (λ k. 2 * k + 1 < length numbers.now) touched.now }
    requires rising { (i j : ℕ) → i < j → j < length touched.now → slice_index touched.now i < slice_index touched.now j }
    ensures refused { IfErr result (λ e. e ≡ OutOfMemory) }
    ensures cleared { IfOk result (λ new. HasEntries touched.now (λ i. Absent) 0 numbers.now new.items (length touched.now)) }
{
    let mut new = Vec::from_slice(alloc, numbers)?;
    for j in 0..touched.len() {
        let k = touched[j] as usize;
        new[2 * k] = u64::MAX;
        new[2 * k + 1] = u64::MAX;
    }
    Ok(new)
}

// The numbers with the entries of some subchunks set to their slots, which stand in a data part that begins at `start`.
pub fn with_entries(mut numbers: Vec<u64>, touched: &[u64], slots: &[Slot], start: u64) -> Vec<u64>
    requires counted { length slots.now ≡ length touched.now }
    requires below { All (λ k. 2 * k + 1 < length numbers.items) touched.now }
    requires rising { (i j : ℕ) → i < j → j < length touched.now → slice_index touched.now i < slice_index touched.now j }
    requires room { (i : ℕ) → i < length slots.now → EndsBelow start (slice_index_or slots.now i Bad) }
    ensures entries { HasEntries touched.now (λ i. slice_index_or slots.now i Bad) start numbers.items result.items (length touched.now) }
    ensures below { All (λ n. n < 2 ^ 64) result.items }
{
    for j in 0..touched.len() {
        let k = touched[j] as usize;
        let (offset, size) = entry_of(slots[j], start);
        numbers[2 * k] = offset;
        numbers[2 * k + 1] = size;
    }
    numbers
}

// Whether none of these slots is a slice.
pub fn none_stored(slots: &[Slot]) -> bool
    ensures { IsTrue result ↔ All (λ slot. slot ≡ Absent) slots.now }
{
    for k in 0..slots.len() {
        let absent = is_absent(slots[k]);
        if !absent {
            return false;
        }
    }
    true
}

// Whether a slot names nothing.
fn is_absent(slot: Slot) -> bool
    ensures { IsTrue result ↔ (slot ≡ Absent) }
{
    match slot {
        Slot::Absent => true,
        _ => false,
    }
}
