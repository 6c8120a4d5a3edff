// Bytes put after slices: those of an old subchunk, and what an update writes over them.
ghost use Rattle.std.specs.Prelude.{◌≡◌, ◌≤◌, ◌<◌, ◌*◌, IsTrue, IfOk, IfErr, length, take, drop};
ghost use Rattle.parts_errors.specs.Order.{done, RefusedBy};
ghost use Rattle.parts_row_major.specs.Numbering.{count_of};
ghost use Rattle.parts_row_major.specs.Subsets.{IsServed};
ghost use Rattle.parts_arrays.specs.Arrays.{fixed_array, extracted, IsOverlaid};
ghost use Rattle.parts_arrays.specs.declared.data_type.DataTypeSize.TheVariants.{Fixed};
ghost use Rattle.storage_handles.specs.Handles.{IsRead, IsCounted};
ghost use Rattle.storage_handles.specs.Objects.{HasInterval, ObjectRefusals};
ghost use Rattle.storage_handles.specs.Writes.{bytes_of};
ghost use Rattle.sharding_format.specs.Index.{slice_at};
ghost use Rattle.sharding_write.specs.Slices.{IsPutAfter};

use crate::writing::Update;
use parts_errors::CodecError;
use parts_strided_copy::copy_subset;
use sharding_gather::SubchunkOverlap;
use std::alloc::Global;
use storage_handles::{ByteRange, BytesPartialDecoderTraits, read_range};

// Puts a slice of an object behind the slices that are there. `false` where there is no object. Refused as `Fault`, where the
// handle failed, or `OutOfMemory`.
pub fn slice_after<H: BytesPartialDecoderTraits>(
    alloc: Global,
    handle: &mut H,
    offset: u64,
    size: u64,
    slices: &mut Vec<u8>,
) -> Result<bool, CodecError>
    requires there { IsTrue (H.state handle.old).transparent → HasInterval (record { offset = offset; size = size }) (H.state handle.old).contents }
    ensures read { IsRead (H.state handle.old) (H.state handle.new) }
    ensures appended { IfOk result (λ there. IsTrue there → IsPutAfter slices.old.items slices.new.items size
        (λ part. IsTrue (H.state handle.old).transparent → part ≡ slice_at offset size (bytes_of (H.state handle.old).contents))) }
    ensures fault { IfErr result (IsCounted (H.state handle.old) (H.state handle.new)) }
    ensures refused { IfErr result (RefusedBy (ObjectRefusals (H.state handle.old) (H.state handle.new) done)) }
{
    let range = ByteRange::FromStart(offset, Some(size));
    let mut room = Vec::new(alloc);
    let Some(part) = read_range(handle, &mut room, alloc, range)? else {
        return Ok(false);
    };
    slices.extend_from_slice(part)?;
    Ok(true)
}

// Writes the elements at the points of a subset of an update over those of a subchunk where both meet.
fn overlay(part: &mut [u8], size: usize, overlap: &SubchunkOverlap, sub: &[u64], update: &Update)
    requires some { 0 < size }
    requires kind { update.now.elements.now.kind ≡ Fixed size }
    requires served { IsServed overlap.now.in_subchunk sub.now }
    requires subset_served { IsServed overlap.now.in_subset update.now.subset.now.shape }
    requires same { count_of overlap.now.in_subset.shape ≡ count_of overlap.now.in_subchunk.shape }
    requires whole { length part.old ≡ count_of sub.now * size }
    ensures { IsOverlaid overlap.now.in_subchunk sub.now (fixed_array size part.old) (extracted update.now.elements.now overlap.now.in_subset update.now.subset.now.shape) (fixed_array size part.new) }
{
    let subset = update.subset;
    let axes = subset.shape();
    let given = update.elements.bytes();
    let to = &overlap.in_subchunk;
    let from = &overlap.in_subset;
    copy_subset(part, size, to, sub, given, from, axes);
}

// The same of the subchunk that stands from a place of the slices on.
pub fn overlay_after(
    slices: &mut Vec<u8>,
    from: usize,
    size: usize,
    overlap: &SubchunkOverlap,
    sub: &[u64],
    update: &Update,
)
    requires some { 0 < size }
    requires kind { update.now.elements.now.kind ≡ Fixed size }
    requires served { IsServed overlap.now.in_subchunk sub.now }
    requires subset_served { IsServed overlap.now.in_subset update.now.subset.now.shape }
    requires same { count_of overlap.now.in_subset.shape ≡ count_of overlap.now.in_subchunk.shape }
    requires from { from ≤ length slices.old.items }
    requires whole { length (drop from slices.old.items) ≡ count_of sub.now * size }
    ensures kept { take from slices.new.items ≡ take from slices.old.items }
    ensures long { length slices.new.items ≡ length slices.old.items }
    ensures overlaid { IsOverlaid overlap.now.in_subchunk sub.now (fixed_array size (drop from slices.old.items))
        (extracted update.now.elements.now overlap.now.in_subset update.now.subset.now.shape) (fixed_array size (drop from slices.new.items)) }
{
    overlay(&mut slices[from..], size, overlap, sub, update);
}
