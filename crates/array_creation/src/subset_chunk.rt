// The chunk of a new array that has elements of an old one.
ghost use Rattle.std.specs.Prelude.{◌≡◌, ◌+◌, ◌⊎◌, IfOk, IfErr, IfSome, IsTrue, OnOk};
ghost use Rattle.parts_errors.specs.declared.error.CodecError.TheVariants.{OutOfBounds};
ghost use Rattle.parts_row_major.specs.Numbering.{zip_with};
ghost use Rattle.parts_row_major.specs.Subsets.{LiesIn};
ghost use Rattle.parts_arrays.specs.ArraySpec.{array_spec};
ghost use Rattle.storage_handles.specs.Handles.{seen};
ghost use Rattle.array_metadata.specs.CodecMeanings.{chunk_meaning};
ghost use Rattle.array_store.specs.ArrayElements.{chunk_spec, element_at};
ghost use Rattle.array_store.specs.ReadRefusals.{IsReadRefusal};
ghost use Rattle.array_store.specs.declared.error.ArrayError.TheVariants.{Whole};
ghost use Rattle.array_creation.specs.NewChunkRefusals.{RefusesElements, IsRefusalOfPart};
ghost use Rattle.array_creation.specs.NewChunks.{IsChunkOfArray, IsChunkOfSubset, moved_by};

use array_cli::{elements_of, encode_padded};
use array_grid::SubsetCells;
use array_metadata::ArrayMetadata;
use array_store::{Array, ArrayError, Store};
use codec_traits::ArrayToBytesCodecTraits;
use parts_errors::CodecError;
use parts_subsets::ArraySubset;
use std::alloc::{AllocError, Global};

/// The bytes of a chunk of a new array with this metadata, at whose start the elements of a subset of an old array stand, in row-major order
/// of the subset, and which has fill values behind them, as a chunk that reaches past the end of the array (Zarr V3 core, "Regular grids");
/// `None` where each of its elements is the fill value: then it has no file ("Chunk keys"). The elements are read into cells that are
/// there. Refused as `Array::read_into` refuses, and then as `encode_padded`.
pub fn chunk_of_subset<S: Store, C: ArrayToBytesCodecTraits>(
    alloc: Global,
    old: &Array<'_, S, C>,
    subset: &ArraySubset,
    new: &ArrayMetadata,
    cells: &mut SubsetCells,
) -> Result<Option<Vec<u8>>, ArrayError>
    ensures inside { OnOk result (LiesIn subset.now old.now.format.shape.now) }
    ensures chunk { let f = old.now.format in
        let m = chunk_meaning new.now.codec (array_spec new.now.shard new.now.data_type new.now.fill_value) in
        IfOk result (λ chunk. IsTrue (S.state old.now.store).transparent
        → IsChunkOfSubset (element_at (S.state old.now.store).contents f (C.meaning old.now.codec.now (chunk_spec f)).cells) subset.now
        m.written new.now.fill_value new.now.shard (seen (λ bytes. bytes.items) chunk)) }
    ensures serves { let m = chunk_meaning new.now.codec (array_spec new.now.shard new.now.data_type new.now.fill_value) in
        IfOk result (λ chunk. IfSome chunk (λ bytes. m.serves)) }
    ensures refused { let f = old.now.format in let store = S.state old.now.store in
        let m = chunk_meaning new.now.codec (array_spec new.now.shard new.now.data_type new.now.fill_value) in
        IfErr result (λ error. IsReadRefusal f subset.now error
        ⊎ RefusesElements store.transparent (element_at store.contents f (C.meaning old.now.codec.now (chunk_spec f)).cells) subset.now m new.now.fill_value new.now.shard error) }
{
    old.read_into(alloc, subset, cells)?;
    let elements = cells.array();
    let chunk = encode_padded(alloc, &new.codec, subset.shape(), &elements, new)?;
    Ok(chunk)
}

// Where a subset starts that starts at a place counted from an origin; `None` where the origin has other axes, or a sum passes `u64::MAX`.
fn moved_start(alloc: Global, origin: &[u64], start: &[u64]) -> Result<Option<Vec<u64>>, AllocError>
    ensures { IfOk result (λ found. IfSome found (λ moved. moved.items ≡ zip_with ◌+◌ origin.now start.now)) }
{
    if origin.len() != start.len() {
        return Ok(None);
    }
    let mut moved = Vec::with_capacity(alloc, start.len())?;
    for axis in 0..start.len() {
        let Some(sum) = origin[axis].checked_add(start[axis]) else {
            return Ok(None);
        };
        moved.push(sum)?;
    }
    Ok(Some(moved))
}

/// A part of the subset of an array that starts at an origin, as a subset of the array. `None` where the origin has other axes, or an end
/// would pass `u64::MAX`.
pub fn moved_subset(
    alloc: Global,
    origin: &[u64],
    part: &ArraySubset,
) -> Result<Option<ArraySubset>, AllocError>
    ensures { IfOk result (λ found. IfSome found (λ moved. moved ≡ moved_by origin.now part.now)) }
{
    let Some(start) = moved_start(alloc, origin, part.start())? else {
        return Ok(None);
    };
    let shape = Vec::from_slice(alloc, part.shape())?;
    Ok(ArraySubset::new_with_start_shape(start, shape))
}

/// The bytes of the chunk at some coordinates of the chunk grid of a new array with this metadata, which has the elements of an old one from
/// an origin on: as `chunk_of_subset` of the part of the old array whose elements lie in the chunk. `None` also where the chunk begins
/// behind the end of the new array. Refused as `OutOfBounds` where that is no subset, and then as `chunk_of_subset`.
pub fn chunk_of_array<S: Store, C: ArrayToBytesCodecTraits>(
    alloc: Global,
    old: &Array<'_, S, C>,
    origin: &[u64],
    coordinates: &[u64],
    new: &ArrayMetadata,
    cells: &mut SubsetCells,
) -> Result<Option<Vec<u8>>, ArrayError>
    ensures chunk { let f = old.now.format in
        let m = chunk_meaning new.now.codec (array_spec new.now.shard new.now.data_type new.now.fill_value) in
        IfOk result (λ chunk. IsTrue (S.state old.now.store).transparent
        → IsChunkOfArray (λ point. element_at (S.state old.now.store).contents f (C.meaning old.now.codec.now (chunk_spec f)).cells (zip_with ◌+◌ origin.now point)) new.now.shape.items coordinates.now
        m.written new.now.fill_value new.now.shard (seen (λ bytes. bytes.items) chunk)) }
    ensures serves { let m = chunk_meaning new.now.codec (array_spec new.now.shard new.now.data_type new.now.fill_value) in
        IfOk result (λ chunk. IfSome chunk (λ bytes. m.serves)) }
    ensures refused { let f = old.now.format in let store = S.state old.now.store in
        let m = chunk_meaning new.now.codec (array_spec new.now.shard new.now.data_type new.now.fill_value) in
        IfErr result (IsRefusalOfPart (λ part error. (error ≡ Whole OutOfBounds)
        ⊎ (IsReadRefusal f (moved_by origin.now part) error
        ⊎ RefusesElements store.transparent (element_at store.contents f (C.meaning old.now.codec.now (chunk_spec f)).cells) (moved_by origin.now part) m new.now.fill_value new.now.shard error))
        new.now.shape.items coordinates.now new.now.shard) }
{
    let Some(part) = elements_of(alloc, coordinates, &new.shard, &new.shape)? else {
        return Ok(None);
    };
    let Some(subset) = moved_subset(alloc, origin, &part)? else {
        return Err(CodecError::OutOfBounds.into());
    };
    let chunk = chunk_of_subset(alloc, old, &subset, new, cells)?;
    Ok(chunk)
}
