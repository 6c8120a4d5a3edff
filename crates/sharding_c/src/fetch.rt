// Slices that are fetched together.
ghost use Rattle.std.specs.Prelude.{◌≡◌, ◌≤◌, ◌^◌, ◌-◌, ℕ, IfOk, IfErr, OnOk, OnErr, All, length, slice_index_or};
ghost use Rattle.std.specs.List.{AllAdjacentBelow};
ghost use Rattle.parts_errors.specs.Order.{done, RefusedBy};
ghost use Rattle.sharding_format.specs.steps.Decoding.{FitsSlot};
ghost use Rattle.sharding_format.specs.Compacting.{IsGood};
ghost use Rattle.sharding_format.specs.declared.slot.Slot.TheVariants.{Absent, InRange};
ghost use Rattle.sharding_plans.specs.Fetches.{AreApart, Fits, IsFetched, stored_slices};
ghost use Rattle.sharding_c.specs.Fetching.{AreFetchNumbers, AreFetchesWritten, AreRangesWritten, FetchTests, IsFetchOf, SliceRefusals, slot_of_range, slots_of_ranges};

use crate::layout::Range;
use crate::status::Refusal;
use parts_errors::CodecError;
use sharding_format::{Slot, slot_of};
use sharding_plans::{fetch_of, plan_fetches};
use std::alloc::Global;
use storage_handles::Interval;

// What a range says.
fn slot_of_range(range: Range) -> Slot
    ensures slot { result ≡ slot_of_range range }
    ensures fits { FitsSlot (2 ^ 64 - 1) result }
{
    slot_of(u64::MAX, range.offset, range.size)
}

// The slots of ranges. Refused as `BadIndexEntry` for the lowest that ends past 2^64; or as `OutOfMemory`.
fn slots_of_ranges(alloc: Global, ranges: &[Range]) -> Result<Vec<Slot>, CodecError>
    ensures slots { IfOk result (λ slots. slots.items ≡ slots_of_ranges ranges.now) }
    ensures good { IfOk result (λ slots. All IsGood slots.items) }
    ensures fits { IfOk result (λ slots. All Fits (stored_slices slots.items)) }
    ensures refused { IfErr result (RefusedBy (SliceRefusals ranges.now done)) }
{
    let mut slots = Vec::new(alloc);
    for i in 0..ranges.len() {
        let slot = slot_of_range(ranges[i]);
        if slot == Slot::Bad {
            return Err(CodecError::BadIndexEntry { number: i as u64 });
        }
        slots.push(slot)?;
    }
    Ok(slots)
}

// The number of the fetch in which a slot's slice lies, 2^64 - 1 where there is none.
fn number_of_slot(slot: Slot, fetches: &[Interval], gap: u64) -> u64
    requires fetched { (offset size : ℕ) → slot ≡ InRange offset size → IsFetched fetches.now (record { offset = offset; size = size }) }
    requires apart { AllAdjacentBelow (AreApart gap) fetches.now (length fetches.now) }
    requires good { IsGood slot }
    ensures { IsFetchOf fetches.now result slot }
{
    match slot {
        Slot::InRange { offset, size } => fetch_of(fetches, Interval { offset, size }, gap) as u64,
        _ => u64::MAX,
    }
}

// Numbers the slots by the fetches in which their slices lie.
fn number_slots(slots: &[Slot], fetches: &[Interval], gap: u64, numbers: &mut [u64])
    requires fetched { All (IsFetched fetches.now) (stored_slices slots.now) }
    requires apart { AllAdjacentBelow (AreApart gap) fetches.now (length fetches.now) }
    requires good { All IsGood slots.now }
    requires room { length numbers.old ≡ length slots.now }
    ensures numbers { AreFetchNumbers fetches.now slots.now numbers.new (length slots.now) }
    ensures length { length numbers.new ≡ length numbers.old }
{
    for i in 0..slots.len() {
        numbers[i] = number_of_slot(slots[i], fetches, gap);
    }
}

// Writes ranges to the front of a room.
fn write_ranges(fetches: &[Interval], room: &mut [Range])
    requires { length fetches.now ≤ length room.old }
    ensures written { AreRangesWritten fetches.now room.old room.new (length fetches.now) }
    ensures length { length room.new ≡ length room.old }
{
    for i in 0..fetches.len() {
        room[i] = Range {
            offset: fetches[i].offset,
            size: fetches[i].size,
        };
    }
}

/// Writes the ranges in which slices are fetched, and for each slice the number of its range. Refused, in this order, as `BadIndexEntry` for
/// the lowest slice that ends past 2^64, `InvalidNumberOfElements` where there is room for the numbers of other than each slice, and as
/// `RoomTooSmall`; nothing is written then.
pub(crate) fn fetch_slices(
    alloc: Global,
    slices: &[Range],
    gap: u64,
    room: &mut [Range],
    numbers: &mut [u64],
) -> Result<u64, Refusal>
    ensures fetches { IfOk result (AreFetchesWritten gap slices.now room.old room.new numbers.new) }
    ensures length { length room.new ≡ length room.old }
    ensures counted { length numbers.new ≡ length numbers.old }
    ensures kept { OnErr result (room.new ≡ room.old) }
    ensures unnumbered { OnErr result (numbers.new ≡ numbers.old) }
    ensures refused { IfErr result (FetchTests gap slices.now (length numbers.old) (length room.old)) }
{
    let slots = slots_of_ranges(alloc, slices)?;
    if numbers.len() != slices.len() {
        return Err(Refusal::Codec(CodecError::InvalidNumberOfElements));
    }
    let fetches = plan_fetches(alloc, &slots, gap)?;
    if fetches.len() > room.len() {
        return Err(Refusal::RoomTooSmall {
            room: fetches.len() as u64,
        });
    }
    number_slots(&slots, &fetches, gap, numbers);
    write_ranges(&fetches, room);
    Ok(fetches.len() as u64)
}
