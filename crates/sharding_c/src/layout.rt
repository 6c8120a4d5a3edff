// How C tells a shard's layout and a subset, and what it gets back.
ghost use Rattle.std.specs.Prelude.{◌≡◌, ◌<◌, ◌^◌, SomeIff, IfOk, IfErr, OnOk};
ghost use Rattle.parts_errors.specs.Order.{done, RefusedBy};
ghost use Rattle.parts_row_major.specs.Subsets.{IsSubset};
ghost use Rattle.sharding_c.specs.Statuses.{passed};
ghost use Rattle.sharding_c.specs.Exports.{LaidTests};
ghost use Rattle.sharding_c.specs.Layouts.{is_set, index_place, index_size, subchunks_of, IsLaidOut, LayoutRefusals, StartRefusals};

use crate::status::Refusal;
use parts_errors::CodecError;
use parts_subsets::{ArraySubset, Axes, ChunkShape};
use sharding_format::ShardingIndexLocation;
use sharding_plans::{IndexPlace, PlannedShard};
use std::alloc::Global;

/// How a shard is laid out, as `zs_layout` of the header: its shape, that of a subchunk, the bytes of an element, and flags that tell of
/// the index: 1 where it stands at the start, 2 where its numbers are big endian, 4 where a CRC-32C follows them.
#[repr(C)]
#[derive(Drop)]
pub struct Layout<'a> {
    pub shape: &'a [u64],
    pub subchunk_shape: &'a [u64],
    pub element_size: u64,
    pub index: u32,
}

/// A subset of an array's elements, as `zs_subset` of the header: its first element and how many it has along each axis.
#[repr(C)]
#[derive(Drop)]
pub struct Subset<'a> {
    pub start: &'a [u64],
    pub shape: &'a [u64],
}

/// A range of an object's bytes, as `zs_range` of the header.
#[repr(C)]
#[derive(Clone, Copy)]
pub struct Range {
    pub offset: u64,
    pub size: u64,
}

/// What a call tells beside its status, as `zs_told` of the header: how many numbers or rows were written or need room, and the subchunk
/// whose index entry is bad.
#[repr(C)]
#[derive(Clone, Copy)]
pub struct Told {
    pub room: u64,
    pub subchunk: u64,
}

/// A stored shard, as `zs_stored` of the header: how many bytes its object has, and the numbers of its index. Without an object it has no
/// bytes, and each number is 2^64 - 1.
#[repr(C)]
#[derive(Drop)]
pub struct Stored<'a> {
    pub object_size: u64,
    pub numbers: &'a [u64],
}

/// What becomes of an object, as `zs_change` of the header: beside what `Told` says, how many bytes it has then, and how it is written.
#[repr(C)]
#[derive(Clone, Copy)]
pub struct Change {
    pub room: u64,
    pub subchunk: u64,
    pub object_size: u64,
    pub kind: u32,
}

/// The flag of an index that stands at the start of its shard, of one whose numbers are big endian, and of one with a checksum.
pub(crate) const AT_START: u32 = 1;

pub(crate) const BIG_ENDIAN: u32 = 2;

pub(crate) const CRC32C: u32 = 4;

/// Whether a flag is set, which is a power of 2.
pub(crate) fn has(flags: u32, flag: u32) -> bool
    requires { 0 < flag }
    ensures { result ≡ is_set flags flag }
{
    flags / flag % 2 == 1
}

// How many bytes the index of these subchunks has, or `None` past 2^64.
fn size_of_index(flags: u32, subchunks: u64) -> Option<u64>
    ensures { SomeIff result (index_size flags subchunks < 2 ^ 64) (index_size flags subchunks) }
{
    let trailer = if has(flags, CRC32C) { 4 } else { 0 };
    subchunks.checked_mul(16)?.checked_add(trailer)
}

// A shard's grid and the size of its index.
#[derive(Drop)]
pub(crate) struct Shard {
    pub grid: PlannedShard,
    pub subchunks: u64,
    pub index_size: u64,
}

// The grid of the subchunks that a layout tells, and the size of its index. Refused, in this order, as `IncompatibleDimensionality` where
// the numbers of axes differ, `InvalidSubchunkShape` where an axis is 0 or not divided evenly, `TooLarge` where the shard has 2^64
// elements or its index 2^64 bytes or more; or as `OutOfMemory`.
fn cut_shard(alloc: Global, layout: &Layout) -> Result<Shard, CodecError>
    ensures laid { OnOk result (IsLaidOut layout.now) }
    ensures shape { IfOk result (λ shard. shard.grid.shape ≡ layout.now.shape.now) }
    ensures subchunk_shape { IfOk result (λ shard. shard.grid.subchunk_shape ≡ layout.now.subchunk_shape.now) }
    ensures subchunks { IfOk result (λ shard. shard.subchunks ≡ subchunks_of layout.now) }
    ensures index_size { IfOk result (λ shard. shard.index_size ≡ index_size layout.now.index (subchunks_of layout.now)) }
    ensures refused { IfErr result (RefusedBy (LayoutRefusals layout.now done)) }
{
    if layout.shape.len() != layout.subchunk_shape.len() {
        return Err(CodecError::IncompatibleDimensionality);
    }
    let Some(shape) = ChunkShape::new(alloc, layout.shape)? else {
        return Err(CodecError::InvalidSubchunkShape);
    };
    let Some(subchunk_shape) = ChunkShape::new(alloc, layout.subchunk_shape)? else {
        return Err(CodecError::InvalidSubchunkShape);
    };
    let grid = PlannedShard::new(alloc, shape, subchunk_shape)?;
    let subchunks = grid.subchunks();
    match size_of_index(layout.index, subchunks) {
        Some(index_size) => Ok(Shard {
            grid,
            subchunks,
            index_size,
        }),
        None => Err(CodecError::TooLarge),
    }
}

/// Where the index of a layout stands, and how many bytes it has.
pub(crate) fn place_of(layout: &Layout, index_bytes: u64) -> IndexPlace
    requires { index_bytes ≡ index_size layout.now.index (subchunks_of layout.now) }
    ensures { result ≡ index_place layout.now }
{
    let location = if has(layout.index, AT_START) {
        ShardingIndexLocation::Start
    } else {
        ShardingIndexLocation::End
    };
    IndexPlace {
        location,
        size: index_bytes,
    }
}

/// The grid of the subchunks that a layout tells, and the size of its index. Refused, in this order, as `BadFlags`,
/// `IncompatibleDimensionality` where the numbers of axes differ, `InvalidSubchunkShape` where an axis is 0 or not divided evenly, `TooLarge`
/// where the shard has 2^64 elements or its index 2^64 bytes or more; or as `OutOfMemory`.
pub(crate) fn shard_of(alloc: Global, layout: &Layout) -> Result<Shard, Refusal>
    ensures laid { OnOk result (IsLaidOut layout.now) }
    ensures flags { OnOk result (layout.now.index < 8) }
    ensures shape { IfOk result (λ shard. shard.grid.shape ≡ layout.now.shape.now) }
    ensures subchunk_shape { IfOk result (λ shard. shard.grid.subchunk_shape ≡ layout.now.subchunk_shape.now) }
    ensures subchunks { IfOk result (λ shard. shard.subchunks ≡ subchunks_of layout.now) }
    ensures index_size { IfOk result (λ shard. shard.index_size ≡ index_size layout.now.index (subchunks_of layout.now)) }
    ensures refused { IfErr result (LaidTests layout.now passed) }
{
    if layout.index >= 8 {
        return Err(Refusal::BadFlags);
    }
    let shard = cut_shard(alloc, layout)?;
    Ok(shard)
}

/// The subset that C tells. Refused, in this order, as `IncompatibleDimensionality` where start and shape differ in their number of axes,
/// and as `OutOfBounds` where an end passes 2^64; or as `OutOfMemory`.
pub(crate) fn subset_of(
    alloc: Global,
    start: &[u64],
    shape: &[u64],
) -> Result<ArraySubset, CodecError>
    ensures subset { IfOk result (λ made. made ≡ record { start = start.now; shape = shape.now }) }
    ensures passed { OnOk result (IsSubset start.now shape.now) }
    ensures refused { IfErr result (RefusedBy (StartRefusals start.now shape.now done)) }
{
    if start.len() != shape.len() {
        return Err(CodecError::IncompatibleDimensionality);
    }
    let start = Axes::from_slice(alloc, start)?;
    let shape = Axes::from_slice(alloc, shape)?;
    match ArraySubset::new_with_axes(start, shape) {
        Some(subset) => Ok(subset),
        None => Err(CodecError::OutOfBounds),
    }
}
