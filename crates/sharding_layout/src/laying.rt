// Subchunks laid end to end in the data part of a shard.
ghost use Rattle.std.specs.Prelude.{◌≡◌, ◌<◌, IfOk, IfErr, IfSome, replicate};
ghost use Rattle.parts_row_major.specs.Numbering.{count_of};
ghost use Rattle.parts_subsets.specs.Grid.{subchunk};
ghost use Rattle.parts_arrays.specs.Types.{size_of};
ghost use Rattle.parts_errors.specs.declared.error.CodecError.TheVariants.{OutOfMemory};
ghost use Rattle.sharding_format.specs.Laying.{placed_slot, whole_shard};
ghost use Rattle.sharding_format.specs.declared.slot.Slot.TheVariants.{Absent};
ghost use Rattle.sharding_index.specs.steps.Plans.{spec_of};
ghost use Rattle.sharding_layout.specs.Rows.{FollowBy};
ghost use Rattle.sharding_layout.specs.steps.Cutting.{CanBeCut};

use parts_arrays::ArrayBytes;
use parts_errors::CodecError;
use parts_subsets::{ChunkShape, subchunks_follow};
use sharding_format::{ArraySpecRef, ShardingIndexLocation, Slot, subchunk_subset};
use std::alloc::{AllocError, Global};

/// Reserves room for at least `more` bytes after the slices of a shard, which begin at `start`. Doubles the capacity, but reserves
/// at most what the `left` subchunks will need if they are like the `stored_slices` ones that are written, plus 1/16. Refused only
/// as out of memory, which leaves the capacity as it was.
pub fn room_for_next(
    bytes: &mut Vec<u8>,
    start: usize,
    stored_slices: usize,
    left: usize,
    more: usize,
) -> Result<(), AllocError>
    ensures { bytes.new.items ≡ bytes.old.items }
{
    if more <= bytes.capacity() - bytes.len() {
        return Ok(());
    }
    let each = bytes.len().saturating_sub(start) / stored_slices.max(1);
    let rest = each.saturating_mul(left);
    let room = rest.saturating_add(rest / 16).min(bytes.len());
    bytes.reserve_exact(more.max(room))
}

/// How many elements each subchunk has, where the subchunks of a shape follow one another in it. Takes no memory.
pub fn elements_in_row(shape: &ChunkShape, sub: &ChunkShape) -> Option<u64>
    ensures { IfSome result (FollowBy shape.now sub.now) }
{
    if !subchunks_follow(shape.as_slice(), sub.as_slice()) {
        return None;
    }
    sub.num_elements()
}

/// An array that is cut into the subchunks of a shard: its elements, its shape, the grid of the subchunks, and how many elements each has
/// where they follow one another in the array, as `elements_in_row` tells.
#[derive(Clone, Copy)]
pub struct CutArray<'a, 'b> {
    pub array: &'a ArrayBytes<'b>,
    pub shape: &'a ChunkShape,
    pub grid: &'a ChunkShape,
    pub in_row: Option<u64>,
}

// A subchunk of an array in which subchunks follow one another, lent where its elements have one size.
fn borrowed_subchunk<'a>(
    cut: &CutArray<'a, '_>,
    number: u64,
    positions: u64,
    _spec: &ArraySpecRef,
) -> Option<ArrayBytes<'a>>
    requires cut { CanBeCut (spec_of _spec.now) cut.now }
    requires some { 0 < count_of cut.now.shape.now }
    requires follow { FollowBy cut.now.shape.now _spec.now.shape.now positions }
    requires below { number < count_of cut.now.grid.now }
    ensures kind { IfSome result (λ part. part.kind ≡ cut.now.array.now.kind) }
    ensures elements { IfSome result (λ part. part.elements ≡ subchunk cut.now.shape.now _spec.now.shape.now cut.now.array.now.elements number) }
{
    let first = (number * positions) as usize;
    let part = cut.array.borrowed_range(first, positions as usize)?;
    Some(part)
}

/// A subchunk of an array, of which the spec tells the shape and the type: lent where subchunks follow one another in the array and
/// its elements have one size, and else copied. Refused only as out of memory.
pub fn gather_subchunk<'a>(
    alloc: Global,
    cut: &CutArray<'a, '_>,
    number: u64,
    spec: &ArraySpecRef,
) -> Result<ArrayBytes<'a>, CodecError>
    requires cut { CanBeCut (spec_of spec.now) cut.now }
    requires below { number < count_of cut.now.grid.now }
    ensures refused { IfErr result (λ e. e ≡ OutOfMemory) }
    ensures kind { IfOk result (λ part. part.kind ≡ size_of spec.now.data_type.now) }
    ensures elements { IfOk result (λ part. part.elements ≡ subchunk cut.now.shape.now spec.now.shape.now cut.now.array.now.elements number) }
{
    let axes = cut.shape.as_slice();
    if let Some(positions) = cut.in_row {
        if let Some(part) = borrowed_subchunk(cut, number, positions, spec) {
            return Ok(part);
        }
    }
    let Some(subset) = subchunk_subset(alloc, number, cut.grid, spec.shape)? else {
        unreachable!()
    };
    let part = cut
        .array
        .extract_array_subset(alloc, &subset, axes, spec.data_type)?;
    Ok(part)
}

/// So many slots, of which none names a subchunk yet. Refused only as out of memory.
pub fn absent_slots(alloc: Global, many: usize) -> Result<Vec<Slot>, AllocError>
    ensures { IfOk result (λ slots. slots.items ≡ replicate many Absent) }
{
    let mut slots = Vec::with_capacity(alloc, many)?;
    slots.resize(many, Slot::Absent)?;
    Ok(slots)
}

/// The slot of what is stored.
pub fn placed(present: bool, offset: u64, size: u64) -> Slot
    ensures { result ≡ placed_slot present offset size }
{
    if present {
        Slot::InRange { offset, size }
    } else {
        Slot::Absent
    }
}

/// The data part, and where each subchunk stands in it.
#[derive(Drop)]
pub struct StoredSlices {
    pub bytes: Vec<u8>,
    pub slots: Vec<Slot>,
}

/// The shard of an index and a data part.
pub fn joined_shard(
    location: ShardingIndexLocation,
    mut index: Vec<u8>,
    mut slices: Vec<u8>,
) -> Result<Vec<u8>, CodecError>
    ensures refused { IfErr result (λ e. e ≡ OutOfMemory) }
    ensures bytes { IfOk result (λ shard. shard.items ≡ whole_shard location index.items slices.items) }
{
    match location {
        ShardingIndexLocation::Start => {
            index.extend_from_slice(&slices)?;
            Ok(index)
        }
        ShardingIndexLocation::End => {
            slices.extend_from_slice(&index)?;
            Ok(slices)
        }
    }
}
