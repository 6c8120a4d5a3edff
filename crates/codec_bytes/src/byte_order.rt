// The byte order of stored elements, and of those in memory.
ghost use Rattle.std.specs.Prelude.{◌≡◌, ◌++◌, ◌<◌, ◌^◌, [], IfOk, IfErr, OnOk, OnErr, length, map, reverse, slice_index_or, true};
ghost use Rattle.std.specs.List.{All, concat};
ghost use Rattle.std.specs.Cow.{cow_slice_items};
ghost use Rattle.parts_errors.specs.declared.error.CodecError.TheVariants.{OutOfMemory};
ghost use Rattle.parts_row_major.specs.Numbering.{count_of, number_of, IsInside};
ghost use Rattle.parts_subsets.specs.Selections.{IsSelectionOf};
ghost use Rattle.parts_arrays.specs.Arrays.{IsWhole, element_of, fixed_array};
ghost use Rattle.parts_arrays.specs.Refusals.{IsValid};
ghost use Rattle.parts_arrays.specs.Types.{size_of};
ghost use Rattle.parts_arrays.specs.Targets.{target_element_size, target_subset, IsWritten};
ghost use Rattle.parts_arrays.specs.declared.data_type.DataTypeSize.TheVariants.{Fixed};
ghost use Rattle.codec_bytes.specs.BytesCodec.{swapped};

use codec_traits::{StoredArray, put_requested, requested_elements};
use parts_arrays::{ArrayBytes, DataType, FixedTarget};
use parts_errors::CodecError;
use parts_subsets::{ChunkShape, Indexer};
use std::alloc::{AllocError, Global};
use std::borrow::CowSlice;

/// How elements are stored: the bytes of one, and whether they are reversed.
#[derive(Debug, Clone, Copy)]
pub(crate) struct ElementOrder {
    pub size: usize,
    pub reversed: bool,
}

// Reverses the bytes of each element.
fn reverse_each(bytes: &mut [u8], size: usize)
    requires { IsWhole size bytes.old }
    ensures { bytes.new ≡ concat (map reverse (fixed_array size bytes.old).elements) }
{
    for i in 0..bytes.len() / size {
        let from = i * size;
        bytes[from..from + size].reverse();
    }
}

// Reverses the bytes of each element, whose size the compiler knows: it reverses several at once.
fn reverse_sized<const N: usize>(bytes: &mut [u8])
    requires some { 0 < N }
    requires whole { IsWhole N bytes.old }
    ensures { bytes.new ≡ concat (map reverse (fixed_array N bytes.old).elements) }
{
    for i in 0..bytes.len() / N {
        let from = i * N;
        let (elements, _) = bytes.as_chunks::<N>();
        let mut turned = elements[i];
        turned.reverse();
        bytes[from..from + N].copy_from_slice(&turned);
    }
}

// Reverses the bytes of each element, for the sizes of whole numbers by a constant one.
fn reverse_elements(bytes: &mut [u8], size: usize)
    requires { IsWhole size bytes.old }
    ensures { bytes.new ≡ concat (map reverse (fixed_array size bytes.old).elements) }
{
    match size {
        2 => reverse_sized::<2>(bytes),
        4 => reverse_sized::<4>(bytes),
        8 => reverse_sized::<8>(bytes),
        _ => reverse_each(bytes, size),
    }
}

// A copy of the elements, with the bytes of each reversed where that is asked.
fn copied(alloc: Global, bytes: &[u8], size: usize, reversed: bool) -> Result<Vec<u8>, AllocError>
    requires { IsWhole size bytes.now }
    ensures { IfOk result (λ copy. copy.items ≡ concat (map (swapped reversed) (fixed_array size bytes.now).elements)) }
{
    let mut copy = Vec::from_slice(alloc, bytes)?;
    if reversed {
        reverse_elements(&mut copy, size);
    }
    Ok(copy)
}

// Puts a copy of the elements behind bytes that are there, with the bytes of each reversed where that is asked. A refusal
// leaves them.
pub(crate) fn append(
    encoded: &mut Vec<u8>,
    bytes: &[u8],
    size: usize,
    reversed: bool,
) -> Result<(), AllocError>
    requires { IsWhole size bytes.now }
    ensures appended { OnOk result (encoded.new.items ≡ encoded.old.items ++ concat (map (swapped reversed) (fixed_array size bytes.now).elements)) }
    ensures kept { OnErr result (encoded.new.items ≡ encoded.old.items) }
{
    let from = encoded.len();
    encoded.extend_from_slice(bytes)?;
    if reversed {
        reverse_elements(&mut encoded[from..], size);
    }
    Ok(())
}

// The elements as they are in memory, lent on where they are stored so.
fn in_memory<'a>(
    alloc: Global,
    bytes: &'a [u8],
    size: usize,
    reversed: bool,
) -> Result<CowSlice<'a, u8>, AllocError>
    requires { IsWhole size bytes.now }
    ensures { IfOk result (λ elements. cow_slice_items elements ≡ concat (map (swapped reversed) (fixed_array size bytes.now).elements)) }
{
    if !reversed {
        return Ok(CowSlice::Borrowed(bytes));
    }
    Ok(CowSlice::Owned(copied(alloc, bytes, size, reversed)?))
}

// The array that stored elements are.
pub(crate) fn array_of_bytes<'a>(
    alloc: Global,
    bytes: &'a [u8],
    size: usize,
    reversed: bool,
) -> Result<ArrayBytes<'a>, AllocError>
    requires { IsWhole size bytes.now }
    ensures { IfOk result (λ array. array ≡ fixed_array size (concat (map (swapped reversed) (fixed_array size bytes.now).elements))) }
{
    let elements = in_memory(alloc, bytes, size, reversed)?;
    match ArrayBytes::new_flen(elements, size) {
        Some(array) => Ok(array),
        None => unreachable!(),
    }
}

// Elements of one size with the bytes of each reversed, where they lie.
fn turned(
    alloc: Global,
    array: ArrayBytes<'static>,
    size: usize,
) -> Result<ArrayBytes<'static>, CodecError>
    requires kind { array.kind ≡ Fixed size }
    requires whole { IsWhole size (concat array.elements) }
    ensures turned { IfOk result (λ turned. turned ≡ fixed_array size (concat (map (swapped true) (fixed_array size (concat array.entry.elements)).elements))) }
    ensures refused { IfErr result (λ e. e ≡ OutOfMemory) }
{
    let bytes = array.into_fixed()?;
    let mut elements = bytes.into_owned(alloc)?;
    reverse_elements(&mut elements, size);
    match ArrayBytes::new_flen(CowSlice::Owned(elements), size) {
        Some(array) => Ok(array),
        None => unreachable!(),
    }
}

// The requested ones of stored elements, as they are in memory: only these are reversed.
pub(crate) fn requested_in_memory<N: Indexer>(
    alloc: Global,
    bytes: &[u8],
    element: ElementOrder,
    indexer: &N,
    count: u64,
    shape: &ChunkShape,
    data_type: &DataType,
) -> Result<ArrayBytes<'static>, CodecError>
    requires whole { IsWhole element.size bytes.now }
    requires selection { IsSelectionOf shape.now (N.selection indexer.now) }
    requires inside { All (λ point. IsInside point shape.now) (N.selection indexer.now).points }
    requires count { count ≡ length (N.selection indexer.now).points }
    requires fits { count_of shape.now < 2 ^ 64 }
    requires valid { IsValid (fixed_array element.size bytes.now) (count_of shape.now) data_type.now }
    ensures requested { let array = fixed_array element.size (concat (map (swapped element.reversed) (fixed_array element.size bytes.now).elements)) in
        IfOk result (λ requested. requested ≡ record {
          kind = array.kind;
          elements = map (element_of array) (map (λ point. number_of point shape.now) (N.selection indexer.now).points);
        }) }
    ensures refused { IfErr result (λ e. e ≡ OutOfMemory) }
{
    let stored = array_of_bytes(alloc, bytes, element.size, false)?;
    let requested = requested_elements(alloc, &stored, indexer, count, shape, data_type)?;
    if element.reversed {
        let turned = turned(alloc, requested, element.size)?;
        return Ok(turned);
    }
    Ok(requested)
}

// Writes the requested ones of stored elements into a target, as they are in memory. Where they are stored so, those of a subset go
// there with no copy between. A refusal leaves the target.
pub(crate) fn put_in_memory<N: Indexer>(
    alloc: Global,
    bytes: &[u8],
    element: ElementOrder,
    stored: &StoredArray,
    indexer: &N,
    count: u64,
    target: &mut FixedTarget,
) -> Result<(), CodecError>
    requires whole { IsWhole element.size bytes.now }
    requires selection { IsSelectionOf stored.now.shape.now (N.selection indexer.now) }
    requires inside { All (λ point. IsInside point stored.now.shape.now) (N.selection indexer.now).points }
    requires count { count ≡ length (N.selection indexer.now).points }
    requires fits { count_of stored.now.shape.now < 2 ^ 64 }
    requires valid { IsValid (fixed_array element.size bytes.now) (count_of stored.now.shape.now) stored.now.data_type.now }
    requires kind { size_of stored.now.data_type.now ≡ Fixed (target_element_size target.old) }
    requires counted { count_of (target_subset target.old).shape ≡ count }
    ensures written { let array = fixed_array element.size (concat (map (swapped element.reversed) (fixed_array element.size bytes.now).elements)) in
        let requested = map (element_of array) (map (λ point. number_of point stored.now.shape.now) (N.selection indexer.now).points) in
        OnOk result (IsWritten target.old target.new (λ k. slice_index_or requested k [])) }
    ensures kept { OnErr result (target.new ≡ target.old) }
    ensures refused { IfErr result (λ e. e ≡ OutOfMemory) }
{
    let StoredArray {
        shape,
        data_type,
        ..
    } = *stored;
    if element.reversed {
        let requested = requested_in_memory(
            alloc, bytes, element, indexer, count, shape, data_type,
        )?;
        return target.copy_from(&requested);
    }
    let array = array_of_bytes(alloc, bytes, element.size, false)?;
    put_requested(alloc, &array, indexer, count, shape, data_type, target)
}
