// The plan of a compaction, made from a shard's index and length alone.
ghost use Rattle.std.specs.Prelude.{◌≡◌, ◌≤◌, ◌<◌, ◌^◌, ◌+◌, ◌*◌, ◌/◌, ℕ, Some, IfOk, IfErr, IfSome, IfNone, OnOk, length};
ghost use Rattle.parts_errors.specs.Order.{◌or◌then◌, done, RefusedBy};
ghost use Rattle.parts_errors.specs.declared.error.CodecError.TheVariants.{ShardTooShort};
ghost use Rattle.parts_row_major.specs.Numbering.{AllPositive, count_of};
ghost use Rattle.parts_subsets.specs.Grid.{grid_of};
ghost use Rattle.sharding_format.specs.Index.{slot_at, data_start, index_part, numbers_in_index};
ghost use Rattle.sharding_format.specs.Laying.{IsIndexOf};
ghost use Rattle.sharding_format.specs.DecodeRefusals.{IndexRefusals};
ghost use Rattle.sharding_format.specs.EncodeRefusals.{RefusesIndex};
ghost use Rattle.sharding_format.specs.Compacting.{IsGood, IsCompact, IsCompacted, present_size, PresentRefusals, CompactRefusals};
ghost use Rattle.sharding_format.specs.Serves.{HasPlan, fixed_size};
ghost use Rattle.sharding_index.specs.Indexes.{index_meaning, IsIndexPlan};
ghost use Rattle.sharding_index.specs.steps.Plans.{IsPlan};
ghost use Rattle.sharding_layout.specs.Repacking.{packed_slots};
ghost use Rattle.sharding_layout.specs.CompactionPlans.{interval_of, executed, IsPlanFor, PlannedRefusals, NumberedRefusals, HasGoodEntries, HasGoodIndex, OfEachObject, OfEachNumbered};
ghost use Rattle.sharding_layout.specs.Layouts.{OfEachLayout};

use crate::packing::{compact_size, packed_numbers};
use codec_traits::ArrayToBytesCodecTraits;
use parts_errors::{CodecError, CodecOptions};
use parts_subsets::ChunkShape;
use sharding_format::{ShardIndex, ShardingIndexLocation, Slot};
use sharding_index::{IndexCodec, IndexPlan, Plan, start_of_data};
use std::alloc::Global;
use storage_handles::Interval;

/// How a shard is compacted: its new index, before or behind the present slices of the old shard, which follow one another in
/// ascending number.
#[derive(Drop)]
pub struct CompactionPlan {
    old_index: ShardIndex,
    new_index: Vec<u8>,
    location: ShardingIndexLocation,
    len: u64,
}

impl CompactionPlan {
    /// How many bytes the new shard has.
    pub fn len(&self) -> u64
        ensures { result ≡ self.now.len }
    {
        self.len
    }

    /// The bytes of the new index.
    pub fn index(&self) -> &[u8]
        ensures { result.now ≡ self.now.new_index.items }
    {
        &self.new_index
    }

    /// Where the new index stands.
    pub fn index_location(&self) -> ShardingIndexLocation
        ensures { result ≡ self.now.location }
    {
        self.location
    }

    /// How many subchunks the shard has, present or not.
    pub fn subchunks(&self) -> usize
        ensures { result ≡ length self.now.old_index.numbers.items / 2 }
    {
        self.old_index.subchunks()
    }

    /// Where the slice of a subchunk stands in the old shard, in bytes, or `None` where the subchunk is absent.
    pub fn slice(&self, subchunk: usize) -> Option<Interval>
        requires { subchunk < length self.now.old_index.numbers.items / 2 }
        ensures slice { result ≡ interval_of (slot_at self.now.old_index.len self.now.old_index.numbers.items subchunk) }
        ensures inside { IfSome result (λ slice. slice.offset + slice.size ≤ self.now.old_index.len) }
    {
        match self.old_index.slot(subchunk) {
            Slot::InRange { offset, size } => Some(Interval { offset, size }),
            Slot::Absent | Slot::Bad => None,
        }
    }

    // The old index's numbers, and the bytes of the new index.
    pub(crate) fn parts(&self) -> (&[u64], &[u8])
        ensures old { result.0.now ≡ self.now.old_index.numbers.items }
        ensures new { result.1.now ≡ self.now.new_index.items }
    {
        (&self.old_index.numbers, &self.new_index)
    }
}

// What is known of a stored shard: bytes that begin or end with its index, and its length.
#[derive(Clone, Copy)]
struct StoredIndex<'a> {
    bytes: &'a [u8],
    len: u64,
}

// The index of a shard, by the bytes of the index and the shard's length.
fn decoded<X: ArrayToBytesCodecTraits>(
    alloc: Global,
    index_codec: &IndexCodec<'_, X>,
    stored: &StoredIndex,
    plan: &IndexPlan,
    options: &CodecOptions,
) -> Result<ShardIndex, CodecError>
    requires { IsIndexPlan (index_meaning X.meaning index_codec.now.codec.now) plan.now }
    ensures len { IfOk result (λ index. index.len ≡ stored.now.len) }
    ensures enough { OnOk result (plan.now.size ≤ stored.now.len) }
    ensures numbers { let index = index_meaning X.meaning index_codec.now.codec.now plan.now.grid in
        IfOk result (λ found. numbers_in_index index.cells index_codec.now.location plan.now.size stored.now.bytes.now ≡ Some found.numbers.items) }
    ensures counted { IfOk result (λ index. length index.numbers.items ≡ 2 * count_of plan.now.grid) }
    ensures refused { let index = index_meaning X.meaning index_codec.now.codec.now plan.now.grid in
        IfErr result (RefusedBy (
        plan.now.size ≤ stored.now.len or ShardTooShort then
        IndexRefusals index.decode_refusals index.cells index_codec.now.location plan.now.size stored.now.bytes.now done)) }
{
    if stored.len < plan.size {
        return Err(CodecError::ShardTooShort);
    }
    let index = index_codec.decode(alloc, stored.bytes, plan, options)?;
    Ok(ShardIndex {
        len: stored.len,
        numbers: index.numbers,
    })
}

// The bytes of the index whose slices are packed. Refused as the index codec refuses, or as `OutOfMemory`.
fn packed_index<X: ArrayToBytesCodecTraits>(
    alloc: Global,
    index_codec: &IndexCodec<'_, X>,
    old: &ShardIndex,
    plan: &IndexPlan,
    options: &CodecOptions,
) -> Result<Vec<u8>, CodecError>
    requires plan { IsIndexPlan (index_meaning X.meaning index_codec.now.codec.now) plan.now }
    requires counted { length old.now.numbers.items ≡ 2 * count_of plan.now.grid }
    requires good { (k : ℕ) → k < count_of plan.now.grid → IsGood (slot_at old.now.len old.now.numbers.items k) }
    requires small { plan.now.size + present_size (slot_at old.now.len old.now.numbers.items) (count_of plan.now.grid) + 1 < 2 ^ 64 }
    ensures index { let index = index_meaning X.meaning index_codec.now.codec.now plan.now.grid in
        let slot = slot_at old.now.len old.now.numbers.items in
        IfOk result (λ bytes. IsIndexOf index.written (data_start index_codec.now.location plan.now.size) (packed_slots slot (count_of plan.now.grid)) bytes.items) }
    ensures size { IfOk result (λ bytes. length bytes.items ≡ plan.now.size) }
    ensures refused { let index = index_meaning X.meaning index_codec.now.codec.now plan.now.grid in
        IfErr result (RefusedBy (RefusesIndex index (count_of plan.now.grid))) }
{
    let start = start_of_data(index_codec.location, plan.size);
    let numbers = packed_numbers(alloc, old, start)?;
    let index = index_codec.encode_numbers(alloc, &numbers, plan, options)?;
    Ok(index)
}

// The plan of the compaction of a shard of this index, after the tests of its shape and of its length.
fn planned_of<X: ArrayToBytesCodecTraits>(
    alloc: Global,
    index_codec: &IndexCodec<'_, X>,
    old_index: ShardIndex,
    plan: &Plan,
    options: &CodecOptions,
    _shape: &ChunkShape,
    _subchunk_shape: &ChunkShape,
) -> Result<Option<CompactionPlan>, CodecError>
    requires plan { IsPlan (index_meaning X.meaning index_codec.now.codec.now) _shape.now _subchunk_shape.now plan.now }
    requires served { let index = index_meaning X.meaning index_codec.now.codec.now (grid_of _shape.now _subchunk_shape.now) in
        HasPlan index _shape.now _subchunk_shape.now 0 }
    requires counted { length old_index.numbers.items ≡ 2 * count_of (grid_of _shape.now _subchunk_shape.now) }
    requires long { let index = index_meaning X.meaning index_codec.now.codec.now (grid_of _shape.now _subchunk_shape.now) in
        fixed_size index.representation ≤ old_index.len }
    ensures planned { let index = index_meaning X.meaning index_codec.now.codec.now (grid_of _shape.now _subchunk_shape.now) in
        OfEachNumbered _shape.now _subchunk_shape.now index_codec.now.location index old_index.numbers.items old_index.len (λ l object.
        IfOk result (λ answer. IfSome answer (λ new. IsPlanFor l old_index.len new × IsCompacted index l object (executed new object)
        × (length (executed new object) ≡ new.len)))) }
    ensures kept { let index = index_meaning X.meaning index_codec.now.codec.now (grid_of _shape.now _subchunk_shape.now) in
        OfEachNumbered _shape.now _subchunk_shape.now index_codec.now.location index old_index.numbers.items old_index.len (λ l object.
        IfOk result (λ answer. IfNone answer (IsCompact index.cells l object))) }
    ensures passed { let index = index_meaning X.meaning index_codec.now.codec.now (grid_of _shape.now _subchunk_shape.now) in
        OfEachLayout _shape.now _subchunk_shape.now index_codec.now.location index (λ l.
        OnOk result (HasGoodEntries l old_index.numbers.items old_index.len)) }
    ensures refused { let index = index_meaning X.meaning index_codec.now.codec.now (grid_of _shape.now _subchunk_shape.now) in
        OfEachLayout _shape.now _subchunk_shape.now index_codec.now.location index (λ l.
        IfErr result (RefusedBy (PresentRefusals index l old_index.len (slot_at old_index.len old_index.numbers.items)))) }
{
    let len = compact_size(&old_index, plan.index.size)?;
    if len == old_index.len {
        return Ok(None);
    }
    let new_index = packed_index(alloc, index_codec, &old_index, &plan.index, options)?;
    Ok(Some(CompactionPlan {
        old_index,
        new_index,
        location: index_codec.location,
        len,
    }))
}

// The plan of the compaction of a stored shard, after the tests of its shape.
fn planned<X: ArrayToBytesCodecTraits>(
    alloc: Global,
    index_codec: &IndexCodec<'_, X>,
    stored: &StoredIndex,
    plan: &Plan,
    options: &CodecOptions,
    shape: &ChunkShape,
    subchunk_shape: &ChunkShape,
) -> Result<Option<CompactionPlan>, CodecError>
    requires plan { IsPlan (index_meaning X.meaning index_codec.now.codec.now) shape.now subchunk_shape.now plan.now }
    requires served { let index = index_meaning X.meaning index_codec.now.codec.now (grid_of shape.now subchunk_shape.now) in
        HasPlan index shape.now subchunk_shape.now 0 }
    ensures planned { let index = index_meaning X.meaning index_codec.now.codec.now (grid_of shape.now subchunk_shape.now) in
        OfEachObject shape.now subchunk_shape.now index_codec.now.location index stored.now.bytes.now stored.now.len (λ l object.
        IfOk result (λ answer. IfSome answer (λ new. IsPlanFor l stored.now.len new × IsCompacted index l object (executed new object)
        × (length (executed new object) ≡ new.len)))) }
    ensures kept { let index = index_meaning X.meaning index_codec.now.codec.now (grid_of shape.now subchunk_shape.now) in
        OfEachObject shape.now subchunk_shape.now index_codec.now.location index stored.now.bytes.now stored.now.len (λ l object.
        IfOk result (λ answer. IfNone answer (IsCompact index.cells l object))) }
    ensures passed { let index = index_meaning X.meaning index_codec.now.codec.now (grid_of shape.now subchunk_shape.now) in
        OfEachLayout shape.now subchunk_shape.now index_codec.now.location index (λ l.
        OnOk result (HasGoodIndex index.cells l stored.now.bytes.now stored.now.len)) }
    ensures refused { let index = index_meaning X.meaning index_codec.now.codec.now (grid_of shape.now subchunk_shape.now) in
        OfEachObject shape.now subchunk_shape.now index_codec.now.location index stored.now.bytes.now stored.now.len (λ l object.
        IfErr result (RefusedBy (CompactRefusals index l object))) }
    ensures tested { let index = index_meaning X.meaning index_codec.now.codec.now (grid_of shape.now subchunk_shape.now) in
        OfEachLayout shape.now subchunk_shape.now index_codec.now.location index (λ l.
        IfErr result (RefusedBy (PlannedRefusals index l stored.now.bytes.now stored.now.len))) }
{
    let old_index = decoded(alloc, index_codec, stored, &plan.index, options)?;
    planned_of(
        alloc,
        index_codec,
        old_index,
        plan,
        options,
        shape,
        subchunk_shape,
    )
}

/// The plan of the compaction of a shard of this length, by bytes that begin or end with its index, as it stands there; or nothing
/// if the index and the present slices have as many bytes as the shard. Refused, in this order, as `Plan::new` refuses the shape,
/// as `ShardTooShort` where the shard or `index` has fewer bytes than an index, as `Damaged` where the index does not decode, as
/// `BadIndexEntry` for the lowest bad entry, as `TooLarge` where no shard can have as many bytes, and as the index codec refuses; or
/// as `OutOfMemory`.
pub fn plan_compaction<X: ArrayToBytesCodecTraits>(
    alloc: Global,
    index_codec: &IndexCodec<'_, X>,
    index: &[u8],
    len: u64,
    shape: &ChunkShape,
    subchunk_shape: &ChunkShape,
    options: &CodecOptions,
) -> Result<Option<CompactionPlan>, CodecError>
    ensures positive { AllPositive shape.now }
    ensures served { let meaning = index_meaning X.meaning index_codec.now.codec.now (grid_of shape.now subchunk_shape.now) in
        OnOk result (HasPlan meaning shape.now subchunk_shape.now 0) }
    ensures planned { let meaning = index_meaning X.meaning index_codec.now.codec.now (grid_of shape.now subchunk_shape.now) in
        OfEachObject shape.now subchunk_shape.now index_codec.now.location meaning index.now len (λ l object.
        IfOk result (λ answer. IfSome answer (λ plan. IsPlanFor l len plan × IsCompacted meaning l object (executed plan object)
        × (length (executed plan object) ≡ plan.len)))) }
    ensures kept { let meaning = index_meaning X.meaning index_codec.now.codec.now (grid_of shape.now subchunk_shape.now) in
        OfEachObject shape.now subchunk_shape.now index_codec.now.location meaning index.now len (λ l object.
        IfOk result (λ answer. IfNone answer (IsCompact meaning.cells l object))) }
    ensures refused { let meaning = index_meaning X.meaning index_codec.now.codec.now (grid_of shape.now subchunk_shape.now) in
        OfEachObject shape.now subchunk_shape.now index_codec.now.location meaning index.now len (λ l object.
        IfErr result (RefusedBy (CompactRefusals meaning l object))) }
    ensures passed { let meaning = index_meaning X.meaning index_codec.now.codec.now (grid_of shape.now subchunk_shape.now) in
        OfEachLayout shape.now subchunk_shape.now index_codec.now.location meaning (λ l.
        OnOk result (HasGoodIndex meaning.cells l index.now len)) }
    ensures tested { let meaning = index_meaning X.meaning index_codec.now.codec.now (grid_of shape.now subchunk_shape.now) in
        OfEachLayout shape.now subchunk_shape.now index_codec.now.location meaning (λ l.
        IfErr result (RefusedBy (PlannedRefusals meaning l index.now len))) }
{
    let plan = Plan::new(alloc, index_codec, shape, subchunk_shape, 0)?;
    let stored = StoredIndex { bytes: index, len };
    planned(
        alloc,
        index_codec,
        &stored,
        &plan,
        options,
        shape,
        subchunk_shape,
    )
}

/// The plan of the compaction of a shard whose index was read; or nothing if the index and the present slices have as many bytes as
/// the shard. Refused, in this order, as `Plan::new` refuses the shape, as `ShardTooShort` where the shard has fewer bytes than an
/// index, as `BadIndexEntry` for the lowest bad entry, as `TooLarge` where no shard can have as many bytes, and as the index codec
/// refuses; or as `OutOfMemory`.
pub fn plan_compaction_of_index<X: ArrayToBytesCodecTraits>(
    alloc: Global,
    index_codec: &IndexCodec<'_, X>,
    index: ShardIndex,
    shape: &ChunkShape,
    subchunk_shape: &ChunkShape,
    options: &CodecOptions,
) -> Result<Option<CompactionPlan>, CodecError>
    requires { length index.numbers.items ≡ 2 * count_of (grid_of shape.now subchunk_shape.now) }
    ensures positive { AllPositive shape.now }
    ensures served { let meaning = index_meaning X.meaning index_codec.now.codec.now (grid_of shape.now subchunk_shape.now) in
        OnOk result (HasPlan meaning shape.now subchunk_shape.now 0) }
    ensures planned { let meaning = index_meaning X.meaning index_codec.now.codec.now (grid_of shape.now subchunk_shape.now) in
        OfEachNumbered shape.now subchunk_shape.now index_codec.now.location meaning index.numbers.items index.len (λ l object.
        IfOk result (λ answer. IfSome answer (λ plan. IsPlanFor l index.len plan × IsCompacted meaning l object (executed plan object)
        × (length (executed plan object) ≡ plan.len)))) }
    ensures kept { let meaning = index_meaning X.meaning index_codec.now.codec.now (grid_of shape.now subchunk_shape.now) in
        OfEachNumbered shape.now subchunk_shape.now index_codec.now.location meaning index.numbers.items index.len (λ l object.
        IfOk result (λ answer. IfNone answer (IsCompact meaning.cells l object))) }
    ensures passed { let meaning = index_meaning X.meaning index_codec.now.codec.now (grid_of shape.now subchunk_shape.now) in
        OfEachLayout shape.now subchunk_shape.now index_codec.now.location meaning (λ l.
        OnOk result (HasGoodEntries l index.numbers.items index.len)) }
    ensures refused { let meaning = index_meaning X.meaning index_codec.now.codec.now (grid_of shape.now subchunk_shape.now) in
        OfEachLayout shape.now subchunk_shape.now index_codec.now.location meaning (λ l.
        IfErr result (RefusedBy (NumberedRefusals meaning l index.numbers.items index.len))) }
{
    let tested = Plan::new(alloc, index_codec, shape, subchunk_shape, 0)?;
    if index.len < tested.index.size {
        return Err(CodecError::ShardTooShort);
    }
    planned_of(
        alloc,
        index_codec,
        index,
        &tested,
        options,
        shape,
        subchunk_shape,
    )
}
