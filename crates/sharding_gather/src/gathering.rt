// The cells of a shard, gathered from its decoded subchunks.
ghost use Rattle.std.specs.Prelude.{◌≡◌, ◌≢◌, ◌≤◌, ◌<◌, ◌/◌, ◌*◌, ◌^◌, ◌+◌, ◌-◌, ◌++◌, ℕ, Option, None, SomeIff, IfOk, IfErr, IfSome, OnOk, map, length, replicate, slice_index_or};
ghost use Rattle.std.specs.List.{range_with_len};
ghost use Rattle.parts_errors.specs.Order.{◌or◌then◌};
ghost use Rattle.parts_row_major.specs.Numbering.{count_of};
ghost use Rattle.parts_subsets.specs.Grid.{Divides, grid_of};
ghost use Rattle.parts_arrays.specs.Types.{FitsKind};
ghost use Rattle.parts_arrays.specs.declared.data_type.DataTypeSize.TheVariants.{Fixed, Variable};
ghost use Rattle.parts_errors.specs.declared.error.CodecError.TheVariants.{OutOfMemory, TooLarge};
ghost use Rattle.sharding_format.specs.steps.Decoding.{AreChunks, IsChunkOf, element_at, element_in, bytes_in, bytes_gathered};
ghost use Rattle.sharding_gather.specs.steps.Gathering.{CanBeGathered, elements_of};

use crate::laying::{DecodedShard, written_rows};
use parts_arrays::{ArrayBuilder, ArrayBytes, DataTypeSize};
use parts_errors::CodecError;
use parts_subsets::{ChunkShape, Located, locate};
use std::alloc::{AllocError, Global};

// The element at a place of a decoded subchunk, which is the fill value where it is absent.
pub(crate) fn element_of<'a>(
    subchunk: &'a Option<ArrayBytes<'_>>,
    position: usize,
    _kind: DataTypeSize,
    fill: &'a [u8],
) -> &'a [u8]
    requires subchunk { IsChunkOf _kind position subchunk.now }
    requires fill { FitsKind _kind fill.now }
    ensures element { result.now ≡ element_at fill.now subchunk.now position }
    ensures fits { FitsKind _kind result.now }
{
    match subchunk {
        None => fill,
        Some(array) => array.element(position),
    }
}

// How many bytes the elements of a decoded subchunk of so many places have together, where a number can say it.
fn bytes_in(subchunk: &Option<ArrayBytes>, positions: u64, fill: &[u8]) -> Option<u64>
    ensures { SomeIff result (bytes_in fill.now positions subchunk.now < 2 ^ 64) (bytes_in fill.now positions subchunk.now) }
{
    match subchunk {
        None => positions.checked_mul(fill.len() as u64),
        Some(array) => Some(array.byte_len() as u64),
    }
}

/// The bytes that the variable-length elements of all decoded subchunks take together, or 0 if elements have a fixed size. Each
/// subchunk has `positions` elements. Refused only as `TooLarge`, if they take 2^64 bytes or more.
pub fn check_lengths(
    subchunks: &[Option<ArrayBytes>],
    positions: u64,
    kind: DataTypeSize,
    fill: &[u8],
) -> Result<u64, CodecError>
    ensures one_size { IfOk result (λ total. kind ≢ Variable → total ≡ 0) }
    ensures total { IfOk result (λ total. kind ≡ Variable → total ≡ bytes_gathered fill.now positions subchunks.now) }
    ensures fits { OnOk result (kind ≡ Variable → bytes_gathered fill.now positions subchunks.now < 2 ^ 64) }
    ensures refused { IfErr result (λ e. (e ≡ TooLarge) × (kind ≡ Variable) × (2 ^ 64 ≤ bytes_gathered fill.now positions subchunks.now)) }
{
    if kind != DataTypeSize::Variable {
        return Ok(0);
    }
    let mut total = 0u64;
    for subchunk in subchunks {
        let Some(bytes) = bytes_in(subchunk, positions, fill) else {
            return Err(CodecError::TooLarge);
        };
        let Some(sum) = total.checked_add(bytes) else {
            return Err(CodecError::TooLarge);
        };
        total = sum;
    }
    Ok(total)
}

// How many places of a subchunk follow one another along its last axis.
fn run_length(sub: &[u64]) -> u64
    ensures { result ≡ slice_index_or sub.now (length sub.now - 1) 1 }
{
    match sub.last() {
        Some(last) => *last,
        None => 1,
    }
}

// Adds a fill value for each of so many places.
fn push_filled(elements: &mut ArrayBuilder, fill: &[u8], count: u64) -> Result<(), AllocError>
    requires kind { elements.old.kind ≡ Variable }
    ensures kind { elements.new.kind ≡ Variable }
    ensures ok { OnOk result (elements.new.elements ≡ elements.old.elements ++ replicate count fill.now) }
{
    for i in 0..count {
        elements.push(fill)?;
    }
    Ok(())
}

// Adds the elements at neighbouring places of a decoded subchunk, which are fill values where it is absent.
fn push_positions(
    elements: &mut ArrayBuilder,
    subchunk: &Option<ArrayBytes>,
    position: u64,
    count: u64,
    fill: &[u8],
) -> Result<(), AllocError>
    requires kind { elements.old.kind ≡ Variable }
    requires within { IfSome subchunk.now (λ array. position + count ≤ length array.elements) }
    requires fits { position + count < 2 ^ 64 }
    ensures kind { elements.new.kind ≡ Variable }
    ensures ok { OnOk result (elements.new.elements ≡ elements.old.elements ++ map (element_at fill.now subchunk.now) (range_with_len position count)) }
{
    match subchunk {
        None => push_filled(elements, fill, count),
        Some(array) => elements.push_range(array, position as usize, count as usize),
    }
}

// The cells of a shard whose elements have lengths of their own and so many bytes together, run by run, each taken from its
// decoded subchunk.
fn listed(
    alloc: Global,
    shard: &DecodedShard,
    bytes: u64,
) -> Result<ArrayBytes<'static>, CodecError>
    requires shard { CanBeGathered Variable shard.now }
    ensures refused { IfErr result (λ e. e ≡ OutOfMemory) }
    ensures kind { IfOk result (λ array. array.kind ≡ Variable) }
    ensures elements { IfOk result (λ array. array.elements ≡ elements_of shard.now) }
{
    let subchunks = shard.subchunks;
    let many = subchunks.len() as u64;
    let axes = shard.shape.as_slice();
    let parts = shard.sub.as_slice();
    let (cells, positions) = (shard.cells, shard.positions);
    let run = run_length(parts);
    let mut elements = ArrayBuilder::new(alloc, DataTypeSize::Variable)?;
    elements.reserve(cells as usize, bytes as usize)?;
    for q in 0..cells / run {
        let Located { subchunk, position } = locate(q * run, cells, many, positions, axes, parts);
        push_positions(
            &mut elements,
            &subchunks[subchunk as usize],
            position,
            run,
            shard.fill,
        )?;
    }
    Ok(elements.finish())
}

/// The cells of a shard, gathered from its decoded subchunks. Refused as `TooLarge` where no number can say how many bytes
/// the elements have together; that is tested before any memory is asked.
pub fn gathered(
    alloc: Global,
    subchunks: &[Option<ArrayBytes>],
    cells: u64,
    shape: &ChunkShape,
    sub: &ChunkShape,
    kind: DataTypeSize,
    fill: &[u8],
) -> Result<ArrayBytes<'static>, CodecError>
    requires kind { kind ≢ Fixed 0 }
    requires fill { FitsKind kind fill.now }
    requires cells { cells ≡ count_of shape.now }
    requires divides { Divides sub.now shape.now }
    requires some { 0 < count_of (grid_of shape.now sub.now) }
    requires subchunks { AreChunks kind sub.now (count_of (grid_of shape.now sub.now)) subchunks.now }
    ensures refused { IfErr result (
        (kind ≡ Variable → bytes_gathered fill.now (count_of sub.now) subchunks.now < 2 ^ 64) or TooLarge then
        λ e. e ≡ OutOfMemory) }
    ensures fits { OnOk result (kind ≡ Variable → bytes_gathered fill.now (count_of sub.now) subchunks.now < 2 ^ 64) }
    ensures kind { IfOk result (λ array. array.kind ≡ kind) }
    ensures elements { IfOk result (λ array. array.elements ≡ map (element_in subchunks.now fill.now shape.now sub.now) (range_with_len 0 (count_of shape.now))) }
{
    let positions = cells / subchunks.len() as u64;
    let bytes = check_lengths(subchunks, positions, kind, fill)?;
    let shard = DecodedShard {
        subchunks,
        shape,
        sub,
        cells,
        positions,
        fill,
    };
    let array = match kind {
        DataTypeSize::Variable => listed(alloc, &shard, bytes)?,
        DataTypeSize::Fixed(_) => written_rows(alloc, &shard)?,
    };
    Ok(array)
}
