// The cells of a shard whose elements have one size, laid where they belong: subchunk by subchunk, in one piece of memory.
ghost use Rattle.std.specs.Prelude.{◌≡◌, ◌+◌, ◌*◌, ◌^◌, ◌<◌, ℕ, [], Option, None, IsTrue, IfOk, IfErr, OnOk, length, drop, replicate, slice_index_or};
ghost use Rattle.std.specs.List.{concat};
ghost use Rattle.parts_row_major.specs.Numbering.{count_of};
ghost use Rattle.parts_subsets.specs.Grid.{Divides, grid_of, cell_number};
ghost use Rattle.parts_row_major.specs.Pieces.{piece, IsUpdated};
ghost use Rattle.parts_arrays.specs.declared.data_type.DataTypeSize.TheVariants.{Fixed};
ghost use Rattle.parts_errors.specs.declared.error.CodecError.TheVariants.{OutOfMemory};
ghost use Rattle.sharding_format.specs.steps.Decoding.{IsPartOf, element_at};
ghost use Rattle.sharding_gather.specs.steps.Gathering.{CanBeGathered, elements_of, elements_in, positions_there};

use parts_arrays::{ArrayBytes, repeated};
use parts_errors::CodecError;
use parts_strided_copy::scatter;
use parts_subsets::{ChunkShape, subchunks_follow};
use sharding_format::{calculate_chunks_per_shard, subchunk_subset};
use std::alloc::{AllocError, Global};
use std::borrow::CowSlice;

/// The decoded subchunks of a shard whose cells are gathered from them, with the shapes of both, how many cells the shard has and how
/// many each subchunk, and the fill value.
#[derive(Clone, Copy)]
pub(crate) struct DecodedShard<'a, 'b> {
    pub(crate) subchunks: &'a [Option<ArrayBytes<'b>>],
    pub(crate) shape: &'a ChunkShape,
    pub(crate) sub: &'a ChunkShape,
    pub(crate) cells: u64,
    pub(crate) positions: u64,
    pub(crate) fill: &'a [u8],
}

// Whether some subchunk is absent.
fn any_absent(subchunks: &[Option<ArrayBytes>]) -> bool
    ensures { (k : ℕ) → k < length subchunks.now → slice_index_or subchunks.now k None ≡ None → IsTrue result }
{
    for k in 0..subchunks.len() {
        if subchunks[k].is_none() {
            return true;
        }
    }
    false
}

// The bytes of a decoded subchunk's elements, which are the blank's where it is absent.
fn bytes_of<'a>(
    subchunk: &'a Option<ArrayBytes<'_>>,
    blank: &'a [u8],
    _places: u64,
    _fill: &[u8],
) -> &'a [u8]
    requires { subchunk.now ≡ None → blank.now ≡ concat (replicate _places _fill.now) }
    ensures { result.now ≡ concat (elements_in _fill.now _places subchunk.now) }
{
    match subchunk {
        None => blank,
        Some(array) => array.bytes(),
    }
}

// The fill value for each of so many places, end to end, where a subchunk is absent.
fn blank(
    alloc: Global,
    subchunks: &[Option<ArrayBytes>],
    positions: usize,
    fill: &[u8],
) -> Result<Vec<u8>, AllocError>
    requires { positions * length fill.now < 2 ^ 64 }
    ensures { IfOk result (λ blank. (k : ℕ) → k < length subchunks.now → slice_index_or subchunks.now k None ≡ None → blank.items ≡ concat (replicate positions fill.now)) }
{
    if any_absent(subchunks) {
        let all = repeated(alloc, positions, fill)?;
        return Ok(all);
    }
    Ok(Vec::new(alloc))
}

// The bytes of a shard's elements where each subchunk is one run of it: the subchunks end to end.
fn appended(alloc: Global, shard: &DecodedShard) -> Result<Vec<u8>, AllocError>
    requires shard { CanBeGathered (Fixed (length shard.now.fill.now)) shard.now }
    requires fits { count_of shard.now.shape.now * length shard.now.fill.now < 2 ^ 64 }
    requires some { 0 < count_of shard.now.shape.now }
    requires axes { 0 < length shard.now.shape.now }
    requires contiguous { drop 1 shard.now.shape.now ≡ drop 1 shard.now.sub.now }
    ensures { IfOk result (λ bytes. bytes.items ≡ concat (elements_of shard.now)) }
{
    let (subchunks, fill) = (shard.subchunks, shard.fill);
    let absent = blank(alloc, subchunks, shard.positions as usize, fill)?;
    let mut bytes = Vec::with_capacity(alloc, shard.cells as usize * fill.len())?;
    for k in 0..subchunks.len() {
        let part = bytes_of(&subchunks[k], &absent, shard.positions, fill);
        bytes.extend_from_slice(part)?;
    }
    Ok(bytes)
}

// Writes the elements of a decoded subchunk of a shard at the cells of its subset, if it is there.
fn put_subchunk(
    alloc: Global,
    bytes: &mut [u8],
    shard: &DecodedShard,
    grid: &ChunkShape,
    number: u64,
    subchunk: &Option<ArrayBytes>,
) -> Result<(), CodecError>
    requires some { 0 < length shard.now.fill.now }
    requires part { IsPartOf (Fixed (length shard.now.fill.now)) (count_of shard.now.sub.now) subchunk.now }
    requires whole { length bytes.old ≡ count_of shard.now.shape.now * length shard.now.fill.now }
    requires fits { count_of shard.now.shape.now < 2 ^ 64 }
    requires divides { Divides shard.now.sub.now shard.now.shape.now }
    requires grid { grid.now ≡ grid_of shard.now.shape.now shard.now.sub.now }
    requires below { number < count_of grid.now }
    ensures written { let size = length shard.now.fill.now in
        OnOk result (IsUpdated (positions_there (count_of shard.now.sub.now) subchunk.now) (cell_number shard.now.shape.now shard.now.sub.now number)
        (piece size bytes.old) (element_at [] subchunk.now) (piece size bytes.new)) }
    ensures refused { IfErr result (λ e. e ≡ OutOfMemory) }
{
    let Some(array) = subchunk else {
        return Ok(());
    };
    let axes = shard.shape.as_slice();
    let Some(subset) = subchunk_subset(alloc, number, grid, shard.sub)? else {
        unreachable!()
    };
    scatter(bytes, shard.fill.len(), &subset, axes, array.bytes());
    Ok(())
}

/// Bytes for so many elements: fill values where they are asked.
pub fn room_for(
    alloc: Global,
    filled: bool,
    cells: usize,
    fill: &[u8],
) -> Result<Vec<u8>, AllocError>
    requires { cells * length fill.now < 2 ^ 64 }
    ensures whole { IfOk result (λ bytes. length bytes.items ≡ cells * length fill.now) }
    ensures filled { IsTrue filled → IfOk result (λ bytes. (i : ℕ) → i < cells → piece (length fill.now) bytes.items i ≡ fill.now) }
{
    if filled {
        let all = repeated(alloc, cells, fill)?;
        return Ok(all);
    }
    Vec::from_elem(alloc, 0, cells * fill.len())
}

// The bytes of a shard's elements, of which those of each subchunk are written at the cells of its subset.
fn bytes_by_subset(
    alloc: Global,
    shard: &DecodedShard,
    grid: &ChunkShape,
) -> Result<Vec<u8>, CodecError>
    requires some { 0 < length shard.now.fill.now }
    requires shard { CanBeGathered (Fixed (length shard.now.fill.now)) shard.now }
    requires fits { count_of shard.now.shape.now * length shard.now.fill.now < 2 ^ 64 }
    requires grid { grid.now ≡ grid_of shard.now.shape.now shard.now.sub.now }
    ensures refused { IfErr result (λ e. e ≡ OutOfMemory) }
    ensures bytes { IfOk result (λ bytes. bytes.items ≡ concat (elements_of shard.now)) }
{
    let subchunks = shard.subchunks;
    let filled = any_absent(subchunks);
    let mut bytes = room_for(alloc, filled, shard.cells as usize, shard.fill)?;
    for k in 0..subchunks.len() {
        put_subchunk(alloc, &mut bytes, shard, grid, k as u64, &subchunks[k])?;
    }
    Ok(bytes)
}

// The bytes of a shard's elements, which have one size. Where no number says how many these are, memory is asked that no
// machine has.
fn filled_bytes(alloc: Global, shard: &DecodedShard) -> Result<Vec<u8>, CodecError>
    requires some { 0 < length shard.now.fill.now }
    requires shard { CanBeGathered (Fixed (length shard.now.fill.now)) shard.now }
    ensures refused { IfErr result (λ e. e ≡ OutOfMemory) }
    ensures bytes { IfOk result (λ bytes. bytes.items ≡ concat (elements_of shard.now)) }
{
    let size = shard.fill.len() as u64;
    if shard.cells.checked_mul(size).is_none() {
        let _: Vec<u8> = Vec::with_capacity(alloc, usize::MAX)?;
        return Err(CodecError::OutOfMemory);
    }
    if subchunks_follow(shard.shape.as_slice(), shard.sub.as_slice()) {
        let bytes = appended(alloc, shard)?;
        return Ok(bytes);
    }
    let grid = calculate_chunks_per_shard(alloc, shard.shape, shard.sub)?;
    let bytes = bytes_by_subset(alloc, shard, &grid)?;
    Ok(bytes)
}

/// The cells of a shard whose elements have one size, that of the fill value. Refused only as out of memory.
pub(crate) fn written_rows(
    alloc: Global,
    shard: &DecodedShard,
) -> Result<ArrayBytes<'static>, CodecError>
    requires some { 0 < length shard.now.fill.now }
    requires shard { CanBeGathered (Fixed (length shard.now.fill.now)) shard.now }
    ensures refused { IfErr result (λ e. e ≡ OutOfMemory) }
    ensures kind { IfOk result (λ array. array.kind ≡ Fixed (length shard.now.fill.now)) }
    ensures elements { IfOk result (λ array. array.elements ≡ elements_of shard.now) }
{
    let bytes = filled_bytes(alloc, shard)?;
    match ArrayBytes::new_flen(CowSlice::Owned(bytes), shard.fill.len()) {
        Some(array) => Ok(array),
        None => unreachable!(),
    }
}
