// Elements of a subset of an array, written over those of a subset of another.
ghost use Rattle.std.specs.Prelude.{◌≡◌, ◌<◌, IfOk, IfErr, length};
ghost use Rattle.std.specs.List.{All};
ghost use Rattle.std.specs.Cow.{cow_slice_items};
ghost use Rattle.parts_row_major.specs.Numbering.{count_of};
ghost use Rattle.parts_row_major.specs.Subsets.{IsSubset, IsServed};
ghost use Rattle.parts_arrays.specs.Arrays.{extracted, IsOverlaid};
ghost use Rattle.parts_arrays.specs.Types.{size_of, HasElements, FitsKind};
ghost use Rattle.parts_errors.specs.declared.error.CodecError.TheVariants.{OutOfMemory};
ghost use Rattle.parts_arrays.specs.declared.data_type.DataTypeSize.TheVariants.{Fixed};

use crate::writing::Update;
use parts_arrays::{ArrayBytes, DataType, DataTypeSize, update_array_bytes};
use parts_errors::CodecError;
use parts_strided_copy::copy_subset;
use sharding_gather::SubchunkOverlap;
use std::alloc::{AllocError, Global};
use std::borrow::CowSlice;

// Bytes of their own: lent ones are copied.
fn owned_bytes(alloc: Global, bytes: CowSlice<'static, u8>) -> Result<Vec<u8>, AllocError>
    ensures { IfOk result (λ owned. owned.items ≡ cow_slice_items bytes.entry) }
{
    match bytes {
        CowSlice::Owned(owned) => Ok(owned),
        CowSlice::Borrowed(borrowed) => Vec::from_slice(alloc, borrowed),
    }
}

// The elements of one size with those at the points of a subset of an update written over those where both meet: in place, but where the
// bytes are lent.
fn overlaid_in_place(
    alloc: Global,
    old: ArrayBytes<'static>,
    size: usize,
    shape: &[u64],
    overlap: &SubchunkOverlap,
    update: &Update,
) -> Result<ArrayBytes<'static>, AllocError>
    requires some { 0 < size }
    requires kind { old.kind ≡ Fixed size }
    requires update_kind { update.now.elements.now.kind ≡ Fixed size }
    requires fitting { All (FitsKind (Fixed size)) old.elements }
    requires all { length old.elements ≡ count_of shape.now }
    requires served { IsServed overlap.now.in_subchunk shape.now }
    requires part_served { IsServed overlap.now.in_subset update.now.subset.now.shape }
    requires same { count_of overlap.now.in_subset.shape ≡ count_of overlap.now.in_subchunk.shape }
    ensures { IfOk result (IsOverlaid overlap.now.in_subchunk shape.now old.entry (extracted update.now.elements.now overlap.now.in_subset update.now.subset.now.shape)) }
{
    let Ok(cached) = old.into_fixed() else {
        unreachable!()
    };
    let mut bytes = owned_bytes(alloc, cached)?;
    let subset = update.subset;
    let axes = subset.shape();
    let given = update.elements.bytes();
    let to = &overlap.in_subchunk;
    let from = &overlap.in_subset;
    copy_subset(&mut bytes, size, to, shape, given, from, axes);
    match ArrayBytes::new_flen(CowSlice::Owned(bytes), size) {
        Some(array) => Ok(array),
        None => unreachable!(),
    }
}

// The array of a subchunk's shape with the elements at the points of a subset of an update written over those where both meet: in place
// where they have one size. Refused only as out of memory.
pub fn overlaid(
    alloc: Global,
    old: ArrayBytes<'static>,
    shape: &[u64],
    overlap: &SubchunkOverlap,
    update: &Update,
    data_type: &DataType,
) -> Result<ArrayBytes<'static>, CodecError>
    requires supported { HasElements data_type.now }
    requires kind { old.kind ≡ size_of data_type.now }
    requires update_kind { update.now.elements.now.kind ≡ size_of data_type.now }
    requires all { length old.elements ≡ count_of shape.now }
    requires well_formed { IsSubset overlap.now.in_subchunk.start overlap.now.in_subchunk.shape }
    requires served { IsServed overlap.now.in_subchunk shape.now }
    requires part_well_formed { IsSubset overlap.now.in_subset.start overlap.now.in_subset.shape }
    requires part_served { IsServed overlap.now.in_subset update.now.subset.now.shape }
    requires same { count_of overlap.now.in_subset.shape ≡ count_of overlap.now.in_subchunk.shape }
    ensures updated { IfOk result (IsOverlaid overlap.now.in_subchunk shape.now old.entry (extracted update.now.elements.now overlap.now.in_subset update.now.subset.now.shape)) }
    ensures refused { IfErr result (λ e. e ≡ OutOfMemory) }
{
    let given = update.elements;
    let _update_kind = given.kind();
    if let DataTypeSize::Fixed(size) = old.kind() {
        let new = overlaid_in_place(alloc, old, size, shape, overlap, update)?;
        return Ok(new);
    }
    let subset = update.subset;
    let axes = subset.shape();
    let taken = given.extract_array_subset(alloc, &overlap.in_subset, axes, data_type)?;
    let updated = update_array_bytes(alloc, &old, shape, &overlap.in_subchunk, &taken, data_type)?;
    Ok(updated)
}
