// Slices of an object that are fetched together.
ghost use Rattle.std.specs.Prelude.{◌≡◌, ◌↔◌, ◌<◌, ◌≤◌, ◌+◌, ◌^◌, ℕ, max, IsTrue, IfOk, IfErr, OnOk, length, slice_index_or};
ghost use Rattle.std.specs.List.{All, AllAdjacentBelow};
ghost use Rattle.std.specs.List.Sorted.{IsNonDecreasingBy, IsPermutation};
ghost use Rattle.parts_errors.specs.declared.error.CodecError.TheVariants.{OutOfMemory};
ghost use Rattle.sharding_plans.specs.Fetches.{AreApart, AreFetches, IsFetched, IsHeldBy, end_of, stored_slices, Fits};

use parts_errors::CodecError;
use sharding_format::Slot;
use std::alloc::{AllocError, Global};
use storage_handles::Interval;

// Whether one range ends more than `gap` bytes before another begins.
fn are_apart(range: Interval, next: Interval, gap: u64) -> bool
    requires { Fits range }
    ensures { IsTrue result ↔ AreApart gap range next }
{
    let end = range.offset + range.size;
    end < next.offset && gap < next.offset - end
}

// The range of all bytes from where one begins to where one of the two ends.
fn joined(range: Interval, slice: Interval) -> Interval
    requires fits { Fits range }
    requires slice_fits { Fits slice }
    ensures offset { result.offset ≡ range.offset }
    ensures end { end_of result ≡ max (end_of range) (end_of slice) }
{
    let end = (range.offset + range.size).max(slice.offset + slice.size);
    Interval {
        offset: range.offset,
        size: end - range.offset,
    }
}

// The slices of those slots that are stored.
fn slices_of(alloc: Global, slots: &[Slot]) -> Result<Vec<Interval>, AllocError>
    ensures { IfOk result (λ slices. slices.items ≡ stored_slices slots.now) }
{
    let mut slices = Vec::new(alloc);
    for slot in slots {
        if let Slot::InRange { offset, size } = *slot {
            slices.push(Interval { offset, size })?;
        }
    }
    Ok(slices)
}

// Puts slices in the order of their offsets.
fn sort(slices: &mut Vec<Interval>)
    ensures sorted { IsNonDecreasingBy (λ slice. slice.offset) slices.new.items }
    ensures permutation { IsPermutation slices.old.items slices.new.items }
{
    slices.sort_unstable_by_key(|slice| slice.offset);
}

// The ranges in which slices are fetched that stand in the order of their offsets.
fn merge(alloc: Global, slices: &[Interval], gap: u64) -> Result<Vec<Interval>, AllocError>
    requires sorted { IsNonDecreasingBy (λ slice. slice.offset) slices.now }
    requires fits { All Fits slices.now }
    ensures { IfOk result (λ fetches. AreFetches gap slices.now fetches.items) }
{
    let mut fetches = Vec::new(alloc);
    if slices.len() == 0 {
        return Ok(fetches);
    }
    let mut current = slices[0];
    for i in 1..slices.len() {
        let slice = slices[i];
        if are_apart(current, slice, gap) {
            fetches.push(current)?;
            current = slice;
        } else {
            current = joined(current, slice);
        }
    }
    fetches.push(current)?;
    Ok(fetches)
}

/// The ranges of an object in which the slices of some slots are fetched: slices that lie within `gap` bytes of one another, or overlap,
/// are in one range. The ranges ascend, and have no bytes but those of the slices and of gaps between them. Refused only as out of memory.
pub fn plan_fetches(alloc: Global, slots: &[Slot], gap: u64) -> Result<Vec<Interval>, CodecError>
    requires { All Fits (stored_slices slots.now) }
    ensures fetches { IfOk result (λ fetches. AreFetches gap (stored_slices slots.now) fetches.items) }
    ensures refused { IfErr result (λ e. e ≡ OutOfMemory) }
{
    let mut slices = slices_of(alloc, slots)?;
    sort(&mut slices);
    let fetches = merge(alloc, &slices, gap)?;
    Ok(fetches)
}

// How many ranges do not begin behind an offset.
fn not_behind(fetches: &[Interval], offset: u64) -> usize
    requires { IsNonDecreasingBy (λ range. range.offset) fetches.now }
    ensures bound { result ≤ length fetches.now }
    ensures before { (k : ℕ) (d : Interval) → k < result → (slice_index_or fetches.now k d).offset ≤ offset }
    ensures behind { (k : ℕ) (d : Interval) → result ≤ k → k < length fetches.now → offset < (slice_index_or fetches.now k d).offset }
{
    fetches.partition_point(|range| range.offset <= offset)
}

/// The number of the range, of those that `plan_fetches` returned, in which a slice lies.
pub fn fetch_of(fetches: &[Interval], slice: Interval, _gap: u64) -> usize
    requires fetched { IsFetched fetches.now slice }
    requires apart { AllAdjacentBelow (AreApart _gap) fetches.now (length fetches.now) }
    ensures below { result < length fetches.now }
    ensures held { IsHeldBy slice (slice_index_or fetches.now result slice) }
{
    not_behind(fetches, slice.offset) - 1
}
