// Shards that are written whole: encoded subchunks laid out, and compactions.
ghost use Rattle.std.specs.Prelude.{◌≡◌, ◌≢◌, ◌≤◌, ◌<◌, ◌+◌, ◌*◌, ◌/◌, ◌^◌, ◌-◌, ℕ, IfOk, IfErr, IfSome, IfNone, OnOk, length};
ghost use Rattle.parts_errors.specs.Order.{RefusedBy, ◌or◌then◌, Each, done};
ghost use Rattle.parts_errors.specs.declared.error.CodecError.TheVariants.{OutOfMemory, TooLarge, BadIndexEntry};
ghost use Rattle.parts_row_major.specs.Numbering.{count_of};
ghost use Rattle.parts_subsets.specs.Grid.{grid_of};
ghost use Rattle.sharding_format.specs.Index.{slot_at};
ghost use Rattle.sharding_format.specs.Laying.{offset_number, size_number};
ghost use Rattle.sharding_format.specs.Compacting.{IsGood, present_size};
ghost use Rattle.sharding_index.specs.Indexes.{index_meaning};
ghost use Rattle.sharding_index.specs.steps.Plans.{spec_of};
ghost use Rattle.sharding_plans.specs.ReadPlans.{HasEntries};
ghost use Rattle.sharding_plans.specs.PackedShards.{AreGood, CompactionLaw, CompactionRefusals, EncodeLaw, IsPackedShard, LayOutLaw, LayOutRefusals, slot_of_size, slots_of_sizes};

use crate::grid::{IndexNumbers, PlannedShard};
use codec_traits::ArrayToBytesCodecTraits;
use parts_errors::CodecError;
use parts_subsets::ChunkShape;
use sharding_format::{ArraySpecRef, ShardIndex, ShardingIndexLocation};
use sharding_layout::{compact_size, fresh_offset, packed_numbers};
use std::alloc::{AllocError, Global};

/// Where the index of a shard stands, and how many bytes it has.
#[derive(Clone, Copy)]
pub struct IndexPlace {
    pub location: ShardingIndexLocation,
    pub size: u64,
}

/// A shard that is to be written whole: the numbers of its index, and how many bytes it has with the index. The slices follow one another in
/// ascending number, from the start of the data part on.
#[derive(Drop)]
pub struct PackedShard {
    pub numbers: Vec<u64>,
    pub len: u64,
}

// The shard of the slices that an index names, one after the other.
fn packed(alloc: Global, index: &ShardIndex, place: IndexPlace) -> Result<PackedShard, CodecError>
    requires { length index.now.numbers.items ≡ 2 * (length index.now.numbers.items / 2) }
    ensures packed { let count = length index.now.numbers.items / 2 in
        IfOk result (IsPackedShard place count (slot_at index.now.len index.now.numbers.items)) }
    ensures good { let count = length index.now.numbers.items / 2 in
        OnOk result (AreGood count (slot_at index.now.len index.now.numbers.items)) }
    ensures refused { let count = length index.now.numbers.items / 2 in let slots = slot_at index.now.len index.now.numbers.items in
        IfErr result (RefusedBy (Each count (λ k. IsGood (slots k)) (λ k. BadIndexEntry k) (place.size + present_size slots count + 1 < 2 ^ 64 or TooLarge then done))) }
{
    let len = compact_size(index, place.size)?;
    let start = fresh_offset(place.location, place.size);
    let numbers = packed_numbers(alloc, index, start)?;
    Ok(PackedShard { numbers, len })
}

// The offset of a slice of this size in an index of slices that begin at 0.
fn offset_of_size(size: u64) -> u64
    ensures offset { result ≡ offset_number 0 (slot_of_size size) }
    ensures size { size ≡ size_number (slot_of_size size) }
{
    if size == u64::MAX { u64::MAX } else { 0 }
}

// An index of slices of these sizes, wherever they stand.
pub(crate) fn index_of_sizes(alloc: Global, sizes: &[u64]) -> Result<ShardIndex, AllocError>
    ensures counted { IfOk result (λ index. length index.numbers.items ≡ 2 * length sizes.now) }
    ensures slots { IfOk result (λ index. (k : ℕ) → k < length sizes.now → slot_at index.len index.numbers.items k ≡ slots_of_sizes sizes.now k) }
{
    let mut numbers = Vec::with_capacity(alloc, 2 * sizes.len())?;
    for k in 0..sizes.len() {
        let size = sizes[k];
        numbers.push_reserved(offset_of_size(size));
        numbers.push_reserved(size);
    }
    Ok(ShardIndex {
        len: u64::MAX - 1,
        numbers,
    })
}

impl PlannedShard {
    /// A shard of encoded subchunks of these sizes, of which 2^64 - 1 stands for one that is not stored. Refused, in this order, as
    /// `InvalidNumberOfElements` where there are sizes of other than each subchunk, and as `TooLarge` where no shard can be as long; or as
    /// `OutOfMemory`.
    pub fn lay_out(
        &self,
        alloc: Global,
        sizes: &[u64],
        place: IndexPlace,
    ) -> Result<PackedShard, CodecError>
        ensures laid { IfOk result (IsPackedShard place (count_of (grid_of self.now.shape self.now.subchunk_shape)) (slots_of_sizes sizes.now)) }
        ensures passed { OnOk result (length sizes.now ≡ count_of (grid_of self.now.shape self.now.subchunk_shape)) }
        ensures refused { IfErr result (RefusedBy (LayOutRefusals self.now.shape self.now.subchunk_shape place sizes.now)) }
    {
        if sizes.len() as u64 != self.subchunks() {
            return Err(CodecError::InvalidNumberOfElements);
        }
        let index = index_of_sizes(alloc, sizes)?;
        let shard = packed(alloc, &index, place)?;
        Ok(shard)
    }

    /// The compaction of a shard of this index, or nothing where the index and the slices have as many bytes as the shard. Refused, in this
    /// order, as `InvalidNumberOfElements` where the index has an entry of other than each subchunk, `ShardTooShort` where the shard has fewer
    /// bytes than an index, `BadIndexEntry` for the lowest bad entry, and `TooLarge` where no shard can be as long; or as `OutOfMemory`.
    pub fn plan_compaction(
        &self,
        alloc: Global,
        index: &IndexNumbers,
        place: IndexPlace,
    ) -> Result<Option<PackedShard>, CodecError>
        ensures planned { let count = count_of (grid_of self.now.shape self.now.subchunk_shape) in
            IfOk result (λ plan. IfSome plan (λ shard. IsPackedShard place count (slot_at index.now.len index.now.numbers.now) shard × (shard.len ≢ index.now.len))) }
        ensures kept { let count = count_of (grid_of self.now.shape self.now.subchunk_shape) in
            IfOk result (λ plan. IfNone plan (place.size + present_size (slot_at index.now.len index.now.numbers.now) count ≡ index.now.len)) }
        ensures good { OnOk result (AreGood (count_of (grid_of self.now.shape self.now.subchunk_shape)) (slot_at index.now.len index.now.numbers.now)) }
        ensures entries { OnOk result (HasEntries self.now.shape self.now.subchunk_shape index.now.numbers.now) }
        ensures long { OnOk result (place.size ≤ index.now.len) }
        ensures refused { IfErr result (RefusedBy (CompactionRefusals self.now.shape self.now.subchunk_shape place index.now.len index.now.numbers.now)) }
    {
        if !self.has_entries(index) {
            return Err(CodecError::InvalidNumberOfElements);
        }
        if index.len < place.size {
            return Err(CodecError::ShardTooShort);
        }
        let old = ShardIndex {
            len: index.len,
            numbers: Vec::from_slice(alloc, index.numbers)?,
        };
        let shard = packed(alloc, &old, place)?;
        if shard.len == index.len {
            return Ok(None);
        }
        Ok(Some(shard))
    }
}

/// The law of compactions: whoever copies each slice to where the plan says, in any order, and writes the index, has compacted the shard.
pub fn compaction_law<X: ArrayToBytesCodecTraits>(_index_codec: &X, _grid: &ChunkShape)
    ensures { CompactionLaw (index_meaning X.meaning _index_codec.now _grid.now) }
{}

/// The law of laying out: whoever puts each encoded subchunk to where the lay-out says, and writes the index, has encoded the array.
pub fn lay_out_law<I: ArrayToBytesCodecTraits, X: ArrayToBytesCodecTraits>(
    _inner_codec: &I,
    _spec: &ArraySpecRef,
    _index_codec: &X,
    _grid: &ChunkShape,
)
    ensures { LayOutLaw (I.meaning _inner_codec.now (spec_of _spec.now)) (index_meaning X.meaning _index_codec.now _grid.now) }
{}

/// The law of encoding: whoever puts the encoded subchunks one behind the other, in ascending number, and before or behind them the index of
/// their lay-out, has encoded the array.
pub fn encode_law<I: ArrayToBytesCodecTraits, X: ArrayToBytesCodecTraits>(
    _inner_codec: &I,
    _spec: &ArraySpecRef,
    _index_codec: &X,
    _grid: &ChunkShape,
)
    ensures { EncodeLaw (I.meaning _inner_codec.now (spec_of _spec.now)) (index_meaning X.meaning _index_codec.now _grid.now) }
{}
