// The pairs of an index: whether their slices lie in the data part, and an index of which each is absent.
ghost use Rattle.std.specs.Prelude.{◌≡◌, ◌↔◌, ◌<◌, ◌/◌, ℕ, IsTrue, Some, IfErr, OnOk, length, replicate};
ghost use Rattle.parts_errors.specs.Order.{done};
ghost use Rattle.parts_errors.specs.declared.error.CodecError.TheVariants.{BadIndexEntry};
ghost use Rattle.sharding_format.specs.Index.{absent_number, slot_at};
ghost use Rattle.sharding_index.specs.DataPart.{LiesBetween, IsInDataPart, EntryRefusals};

use crate::offsets::{end_of_data, start_of_data};
use parts_errors::CodecError;
use sharding_format::{ShardIndex, ShardingIndexLocation, Slot};

// Whether a slot is absent, or its slice lies between two places.
fn lies_between(slot: Slot, start: u64, end: u64) -> bool
    ensures { IsTrue result ↔ LiesBetween start end slot }
{
    match slot {
        Slot::Absent => true,
        Slot::InRange { offset, size } => {
            start <= offset && offset <= end && size <= end - offset
        }
        Slot::Bad => false,
    }
}

/// Tests the entries of an index of this size: each is absent, or its slice lies in the data part. The lowest that is neither
/// is refused, as `BadIndexEntry` with its number.
pub fn check_entries(
    location: ShardingIndexLocation,
    index_size: u64,
    index: &ShardIndex,
) -> Result<(), CodecError>
    ensures inside { OnOk result ((k : ℕ) → k < length index.now.numbers.items / 2
        → IsInDataPart location index_size index.now.len (slot_at index.now.len index.now.numbers.items k)) }
    ensures refused { IfErr result (EntryRefusals location index_size index.now.len (Some index.now.numbers.items) (length index.now.numbers.items / 2) done) }
{
    let start = start_of_data(location, index_size);
    let end = end_of_data(location, index_size, index.len);
    for k in 0..index.subchunks() {
        if !lies_between(index.slot(k), start, end) {
            return Err(CodecError::BadIndexEntry { number: k as u64 });
        }
    }
    Ok(())
}

/// An index with as many numbers, of which each subchunk is absent. Takes no memory.
pub fn without_entries(mut numbers: Vec<u64>) -> Vec<u64>
    ensures { result.items ≡ replicate (length numbers.items) absent_number }
{
    numbers.fill(u64::MAX);
    numbers
}
