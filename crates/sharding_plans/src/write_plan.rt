// Plans of writes over a subset.
ghost use Rattle.std.specs.Prelude.{◌≡◌, ◌≢◌, ◌↔◌, ◌≤◌, ◌<◌, ◌+◌, ◌*◌, ◌/◌, ◌^◌, ℕ, IsTrue, IfOk, IfErr, OnOk, length, slice_index};
ghost use Rattle.std.specs.List.{All};
ghost use Rattle.parts_errors.specs.Order.{RefusedBy, ◌or◌then◌, done};
ghost use Rattle.parts_errors.specs.declared.error.CodecError.TheVariants.{OutOfMemory, TooLarge};
ghost use Rattle.parts_row_major.specs.Numbering.{count_of};
ghost use Rattle.parts_subsets.specs.Grid.{grid_of};
ghost use Rattle.parts_subsets.specs.Touched.{AreTouched};
ghost use Rattle.sharding_format.specs.Index.{absent_number, data_start, slot_at};
ghost use Rattle.sharding_format.specs.Encoding.{slot_size};
ghost use Rattle.sharding_format.specs.Laying.{offset_number, size_number};
ghost use Rattle.sharding_format.specs.Packing.{moved_slot};
ghost use Rattle.sharding_index.specs.DataPart.{IsInDataPart};
ghost use Rattle.sharding_index.specs.Indexes.{index_meaning};
ghost use Rattle.sharding_index.specs.steps.Plans.{spec_of};
ghost use Rattle.sharding_layout.specs.Offsets.{offset_after, length_after, index_after};
ghost use Rattle.sharding_plans.specs.declared.write_plan.Outcome.TheVariants.{Anew, Append};
ghost use Rattle.sharding_plans.specs.ReadPlans.{HasEntries, IsWithin};
ghost use Rattle.sharding_plans.specs.PackedShards.{slot_of_size, slots_of_sizes};
ghost use Rattle.sharding_plans.specs.StoredWrites.{WriteLaw};
ghost use Rattle.sharding_plans.specs.WritePlans.{AreAbsent, AreOthersAbsent, HasNewEntries, HasRoom, IsOther, AreCleared, HasLength, IsWritePlan, IsWritePlanOf, OpenRefusals, SizeRefusals, WriteRefusals, total_of};

use crate::grid::{IndexNumbers, PlannedShard};
use crate::packed::{IndexPlace, index_of_sizes};
use codec_traits::ArrayToBytesCodecTraits;
use parts_errors::CodecError;
use parts_subsets::{ArraySubset, ChunkShape};
use sharding_format::{ArraySpecRef, ShardIndex};
use sharding_index::check_entries;
use sharding_layout::{
    CachedIndex, compact_size, fresh_offset, index_offset, length_after, offset_after,
};
use std::alloc::Global;

/// What becomes of the object of a shard by a write.
#[derive(Debug, Clone, Copy, PartialEq, Eq)]
pub enum Outcome {
    /// No subchunk is stored any more: there is to be no object.
    Erase,
    /// No other subchunk is stored: the object is replaced by one of the new slices and the index.
    Anew,
    /// The new slices and the index are written into the object.
    Append,
}

/// A write: where its new slices begin, which follow one another in ascending number, where the index goes, and the index's numbers and
/// the length of the object then.
#[derive(Drop)]
pub struct WritePlan {
    pub outcome: Outcome,
    pub numbers: Vec<u64>,
    pub write_offset: u64,
    pub index_offset: u64,
    pub len: u64,
}

// Whether every number is the absent one.
fn are_absent(numbers: &[u64]) -> bool
    ensures { IsTrue result ↔ AreAbsent numbers.now }
{
    numbers.iter().all(|n| *n == u64::MAX)
}

// Sets the entry of a subchunk.
fn set_entry(numbers: &mut [u64], subchunk: usize, offset: u64, size: u64)
    requires { 2 * subchunk + 1 < length numbers.old }
    ensures offset { slice_index numbers.new (2 * subchunk) ≡ offset }
    ensures size { slice_index numbers.new (2 * subchunk + 1) ≡ size }
    ensures others { (i : ℕ) → subchunk ≢ i / 2 → slice_index numbers.new i ≡ slice_index numbers.old i }
    ensures counted { length numbers.new ≡ length numbers.old }
{
    numbers[2 * subchunk] = offset;
    numbers[2 * subchunk + 1] = size;
}

// How many bytes a slice of this size has, none where it is not stored.
fn bytes_of_size(size: u64) -> u64
    ensures { result ≡ slot_size (slot_of_size size) }
{
    if size == u64::MAX { 0 } else { size }
}

// The offset of a slice of this size, with this number of bytes between it and where the new slices begin.
fn offset_of(size: u64, write_offset: u64, before: u64) -> u64
    requires { write_offset + before < 2 ^ 64 }
    ensures offset { result ≡ offset_number write_offset (moved_slot (slot_of_size size) before) }
    ensures size { size ≡ size_number (slot_of_size size) }
{
    if size == u64::MAX {
        u64::MAX
    } else {
        write_offset + before
    }
}

// Sets the entries of touched subchunks, whose slices follow one another from a place on.
fn set_entries(numbers: &mut [u64], touched: &[u64], sizes: &[u64], write_offset: u64)
    requires counted { length sizes.now ≡ length touched.now }
    requires below { All (λ k. 2 * k + 1 < length numbers.old) touched.now }
    requires rising { (i j : ℕ) → i < j → j < length touched.now → slice_index touched.now i < slice_index touched.now j }
    requires room { write_offset + total_of sizes.now < 2 ^ 64 }
    ensures { HasNewEntries touched.now sizes.now write_offset numbers.old numbers.new (length touched.now) }
{
    let mut before = 0;
    for j in 0..touched.len() {
        let size = sizes[j];
        let offset = offset_of(size, write_offset, before);
        set_entry(numbers, touched[j] as usize, offset, size);
        before += bytes_of_size(size);
    }
}

// Makes the entries of touched subchunks absent.
fn clear(numbers: &mut [u64], touched: &[u64])
    requires below { All (λ k. 2 * k + 1 < length numbers.old) touched.now }
    ensures { AreCleared touched.now numbers.old numbers.new (length touched.now) }
{
    for j in 0..touched.len() {
        set_entry(numbers, touched[j] as usize, u64::MAX, u64::MAX);
    }
}

// The numbers of an index with the entries of touched subchunks absent.
fn cleared(mut numbers: Vec<u64>, touched: &[u64]) -> Vec<u64>
    requires { All (λ k. 2 * k + 1 < length numbers.items) touched.now }
    ensures { AreCleared touched.now numbers.items result.items (length touched.now) }
{
    clear(&mut numbers, touched);
    numbers
}

// The bytes of all new slices. Refused as `TooLarge` where no shard has as many; or as `OutOfMemory`.
fn total_size(alloc: Global, sizes: &[u64]) -> Result<u64, CodecError>
    ensures total { IfOk result (λ total. total ≡ total_of sizes.now) }
    ensures small { IfOk result (λ total. total + 1 < 2 ^ 64) }
    ensures refused { IfErr result (RefusedBy (total_of sizes.now + 1 < 2 ^ 64 or TooLarge then done)) }
{
    let index = index_of_sizes(alloc, sizes)?;
    let total = compact_size(&index, 0)?;
    Ok(total)
}

// A shard of these slices alone, of whose index the touched entries were cleared. Refused as `TooLarge`, where no number says its length.
fn begin(
    place: IndexPlace,
    mut numbers: Vec<u64>,
    touched: &[u64],
    sizes: &[u64],
    total: u64,
) -> Result<WritePlan, CodecError>
    requires counted { length sizes.now ≡ length touched.now }
    requires below { All (λ k. 2 * k + 1 < length numbers.items) touched.now }
    requires rising { (i j : ℕ) → i < j → j < length touched.now → slice_index touched.now i < slice_index touched.now j }
    requires total { total ≡ total_of sizes.now }
    ensures outcome { IfOk result (λ plan. plan.outcome ≡ Anew) }
    ensures entries { IfOk result (λ plan. HasNewEntries touched.now sizes.now plan.write_offset numbers.items plan.numbers.items (length touched.now)) }
    ensures write_offset { IfOk result (λ plan. plan.write_offset ≡ data_start place.location place.size) }
    ensures index_offset { IfOk result (λ plan. plan.index_offset ≡ index_after place.location plan.write_offset total) }
    ensures len { IfOk result (λ plan. plan.len ≡ place.size + total) }
    ensures small { IfOk result (λ plan. plan.len + 1 < 2 ^ 64) }
    ensures refused { IfErr result (λ e. (e ≡ TooLarge) × ¬ (place.size + total + 1 < 2 ^ 64)) }
{
    let write_offset = fresh_offset(place.location, place.size);
    if place.size >= u64::MAX - total {
        return Err(CodecError::TooLarge);
    }
    set_entries(&mut numbers, touched, sizes, write_offset);
    Ok(WritePlan {
        outcome: Outcome::Anew,
        numbers,
        write_offset,
        index_offset: index_offset(place.location, write_offset, total),
        len: place.size + total,
    })
}

// These slices behind the old ones of a shard of this index, of whose numbers the touched entries were cleared. Refused as `TooLarge`, where
// no number says its length.
fn append(
    index: &IndexNumbers,
    place: IndexPlace,
    mut numbers: Vec<u64>,
    touched: &[u64],
    sizes: &[u64],
    total: u64,
) -> Result<WritePlan, CodecError>
    requires counted { length sizes.now ≡ length touched.now }
    requires below { All (λ k. 2 * k + 1 < length numbers.items) touched.now }
    requires rising { (i j : ℕ) → i < j → j < length touched.now → slice_index touched.now i < slice_index touched.now j }
    requires total { total ≡ total_of sizes.now }
    requires room { place.size ≤ index.now.len }
    ensures outcome { IfOk result (λ plan. plan.outcome ≡ Append) }
    ensures entries { IfOk result (λ plan. HasNewEntries touched.now sizes.now plan.write_offset numbers.items plan.numbers.items (length touched.now)) }
    ensures write_offset { IfOk result (λ plan. plan.write_offset ≡ offset_after place.location place.size index.now.len index.now.numbers.now (length index.now.numbers.now / 2)) }
    ensures index_offset { IfOk result (λ plan. plan.index_offset ≡ index_after place.location plan.write_offset total) }
    ensures len { IfOk result (λ plan. plan.len ≡ length_after place.location index.now.len plan.write_offset total) }
    ensures small { IfOk result (λ plan. plan.len + 1 < 2 ^ 64) }
    ensures refused { let write_offset = offset_after place.location place.size index.now.len index.now.numbers.now (length index.now.numbers.now / 2) in
        IfErr result (λ e. (e ≡ TooLarge) × ¬ (length_after place.location index.now.len write_offset total + 1 < 2 ^ 64)) }
{
    let cached = CachedIndex {
        len: index.len,
        numbers: index.numbers,
    };
    let write_offset = offset_after(place.location, place.size, &cached);
    let Some(len) = length_after(place.location, index.len, write_offset, total) else {
        return Err(CodecError::TooLarge);
    };
    if len == u64::MAX {
        return Err(CodecError::TooLarge);
    }
    set_entries(&mut numbers, touched, sizes, write_offset);
    Ok(WritePlan {
        outcome: Outcome::Append,
        numbers,
        write_offset,
        index_offset: index_offset(place.location, write_offset, total),
        len,
    })
}

// What becomes of a shard of this index, of whose numbers these are a copy, where its touched subchunks have new slices of these sizes.
// Refused as `TooLarge`, where no number says how long the object is then.
fn settle(
    index: &IndexNumbers,
    place: IndexPlace,
    numbers: Vec<u64>,
    touched: &[u64],
    sizes: &[u64],
    total: u64,
) -> Result<WritePlan, CodecError>
    requires copied { numbers.items ≡ index.now.numbers.now }
    requires room { HasRoom place index.now.len index.now.numbers.now }
    requires counted { length sizes.now ≡ length touched.now }
    requires below { All (λ k. 2 * k + 1 < length index.now.numbers.now) touched.now }
    requires rising { (i j : ℕ) → i < j → j < length touched.now → slice_index touched.now i < slice_index touched.now j }
    requires total { total ≡ total_of sizes.now }
    ensures plan { IfOk result (IsWritePlan place index.now.len index.now.numbers.now touched.now sizes.now) }
    ensures refused { IfErr result (λ e. (e ≡ TooLarge) × ¬ (HasLength place index.now.len touched.now index.now.numbers.now total)) }
{
    let numbers = cleared(numbers, touched);
    let is_anew = are_absent(&numbers);
    if !is_anew {
        let plan = append(index, place, numbers, touched, sizes, total)?;
        return Ok(plan);
    }
    let is_erased = are_absent(sizes);
    if !is_erased {
        let plan = begin(place, numbers, touched, sizes, total)?;
        return Ok(plan);
    }
    Ok(WritePlan {
        outcome: Outcome::Erase,
        numbers,
        write_offset: 0,
        index_offset: 0,
        len: 0,
    })
}

impl PlannedShard {
    // The numbers of the index of a shard that is to be written to. Refused, in this order, as `InvalidNumberOfElements` where the index has
    // an entry of other than each subchunk, `ShardTooShort`, and as `BadIndexEntry` for the lowest entry that does not lie in the data part.
    fn numbers_to_write(
        &self,
        alloc: Global,
        index: &IndexNumbers,
        place: IndexPlace,
    ) -> Result<Vec<u64>, CodecError>
        ensures numbers { IfOk result (λ numbers. numbers.items ≡ index.now.numbers.now) }
        ensures entries { OnOk result (HasEntries self.now.shape self.now.subchunk_shape index.now.numbers.now) }
        ensures room { OnOk result (HasRoom place index.now.len index.now.numbers.now) }
        ensures inside { OnOk result ((k : ℕ) → k < count_of (grid_of self.now.shape self.now.subchunk_shape)
            → IsInDataPart place.location place.size index.now.len (slot_at index.now.len index.now.numbers.now k)) }
        ensures refused { IfErr result (RefusedBy (OpenRefusals self.now.shape self.now.subchunk_shape place index.now.len index.now.numbers.now done)) }
    {
        if !self.has_entries(index) {
            return Err(CodecError::InvalidNumberOfElements);
        }
        if index.len < place.size && (index.len != 0 || !are_absent(index.numbers)) {
            return Err(CodecError::ShardTooShort);
        }
        let old = ShardIndex {
            len: index.len,
            numbers: Vec::from_slice(alloc, index.numbers)?,
        };
        check_entries(place.location, place.size, &old)?;
        Ok(old.numbers)
    }

    /// The plan of a write over a subset, by the sizes of the new encodings of the subchunks that it touches, ascending; 2^64 - 1 stands for
    /// one that is all fill value, and is not stored. A shard without an object has no bytes, and an index of absent entries. Refused, in this
    /// order, as `InvalidNumberOfElements` where the index has an entry of other than each subchunk, `ShardTooShort`, `BadIndexEntry` for the
    /// lowest entry that does not lie in the data part, `IncompatibleDimensionality`, `OutOfBounds` where the subset does not lie in the shard,
    /// `InvalidNumberOfElements` where the sizes are of other than each touched subchunk, and as `TooLarge` where no shard can be as long; or
    /// as `OutOfMemory`.
    pub fn plan_write(
        &self,
        alloc: Global,
        index: &IndexNumbers,
        place: IndexPlace,
        subset: &ArraySubset,
        sizes: &[u64],
    ) -> Result<WritePlan, CodecError>
        ensures plan { IfOk result (IsWritePlanOf self.now.shape self.now.subchunk_shape place index.now.len index.now.numbers.now subset.now sizes.now) }
        ensures entries { OnOk result (HasEntries self.now.shape self.now.subchunk_shape index.now.numbers.now) }
        ensures room { OnOk result (HasRoom place index.now.len index.now.numbers.now) }
        ensures inside { OnOk result ((k : ℕ) → k < count_of (grid_of self.now.shape self.now.subchunk_shape)
            → IsInDataPart place.location place.size index.now.len (slot_at index.now.len index.now.numbers.now k)) }
        ensures within { OnOk result (IsWithin self.now.shape subset.now) }
        ensures refused { IfErr result (RefusedBy (WriteRefusals self.now.shape self.now.subchunk_shape place index.now.len index.now.numbers.now subset.now sizes.now)) }
    {
        let numbers = self.numbers_to_write(alloc, index, place)?;
        let touched = self.touched_subchunks(alloc, subset)?;
        if sizes.len() != touched.len() {
            return Err(CodecError::InvalidNumberOfElements);
        }
        let total = total_size(alloc, sizes)?;
        let plan = settle(index, place, numbers, &touched, sizes, total)?;
        Ok(plan)
    }
}

/// The law of writes: whoever carries out a plan of a write, with any encodings that the inner codec allows and in any order, has made a write
/// by the definition of `partial_encode`.
pub fn write_law<I: ArrayToBytesCodecTraits, X: ArrayToBytesCodecTraits>(
    _inner_codec: &I,
    _spec: &ArraySpecRef,
    _index_codec: &X,
    _grid: &ChunkShape,
)
    ensures { WriteLaw (I.meaning _inner_codec.now (spec_of _spec.now)) (index_meaning X.meaning _index_codec.now _grid.now) }
{}
