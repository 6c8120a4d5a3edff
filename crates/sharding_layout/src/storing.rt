// One array, or rows of one, stored behind bytes that are there, unless it is all fill.
ghost use Rattle.std.specs.Prelude.{◌≡◌, ◌<◌, ◌≤◌, ◌++◌, ◌⊎◌, [], IsTrue, ◌↔◌, IfOk, IfErr, OnOk, OnErr, length, take, drop, replicate};
ghost use Rattle.std.specs.List.{concat};
ghost use Rattle.parts_errors.specs.Order.{RefusedBy};
ghost use Rattle.parts_arrays.specs.ArraySpec.{IsArrayOf};
ghost use Rattle.parts_arrays.specs.Arrays.{IsWhole, fixed_array};
ghost use Rattle.parts_arrays.specs.Types.{size_of};
ghost use Rattle.parts_errors.specs.declared.error.CodecError.TheVariants.{OutOfMemory};
ghost use Rattle.sharding_format.specs.Encoding.{IsAllFill};
ghost use Rattle.sharding_format.specs.Laying.{IsStoredAfter};
ghost use Rattle.sharding_format.specs.EncodeRefusals.{RefusesToStore};
ghost use Rattle.sharding_index.specs.steps.Plans.{spec_of};

use crate::laying::room_for_next;
use codec_traits::ArrayToBytesCodecTraits;
use parts_arrays::{ArrayBytes, FillValue};
use parts_errors::{CodecError, CodecOptions};
use sharding_format::{ArraySpecRef, Slot};
use std::alloc::{AllocError, Global};
use std::borrow::CowSlice;

/// Puts the encoding of an array that isn't all fill behind the slices that are there, and tells where it stands. A refusal leaves
/// the slices. Refused as `CannotEncode` or `TooLarge`; or as `OutOfMemory`.
pub fn store_after<I: ArrayToBytesCodecTraits>(
    codec: &I,
    alloc: Global,
    part: &ArrayBytes,
    spec: &ArraySpecRef,
    slices: &mut Vec<u8>,
    options: &CodecOptions,
) -> Result<Slot, CodecError>
    requires serves { (I.meaning codec.now (spec_of spec.now)).serves }
    requires kind { part.now.kind ≡ size_of spec.now.data_type.now }
    requires array { IsArrayOf (spec_of spec.now) part.now.elements }
    ensures stored { let inner = I.meaning codec.now (spec_of spec.now) in
        IfOk result (IsStoredAfter inner.written spec.now.fill_value.now part.now.elements slices.old.items slices.new.items) }
    ensures kept { OnErr result (slices.new.items ≡ slices.old.items) }
    ensures refused { let inner = I.meaning codec.now (spec_of spec.now) in
        IfErr result (RefusedBy (RefusesToStore inner.encodable inner.fits spec.now.fill_value.now part.now.elements)) }
{
    if part.is_fill_value(spec.fill_value) {
        return Ok(Slot::Absent);
    }
    let offset = slices.len();
    codec.encode_onto(
        alloc,
        part,
        spec.shape,
        spec.data_type,
        spec.fill_value,
        slices,
        options,
    )?;
    Ok(Slot::InRange {
        offset: offset as u64,
        size: (slices.len() - offset) as u64,
    })
}

/// Puts so many zeros behind the slices. Refused only as out of memory, which leaves the slices.
pub fn zeros_after(slices: &mut Vec<u8>, size: usize) -> Result<(), CodecError>
    ensures appended { OnOk result (slices.new.items ≡ slices.old.items ++ replicate size 0) }
    ensures kept { OnErr result (slices.new.items ≡ slices.old.items) }
    ensures refused { IfErr result (λ e. e ≡ OutOfMemory) }
{
    let Some(end) = slices.len().checked_add(size) else {
        return Err(CodecError::OutOfMemory);
    };
    slices.resize(end, 0)?;
    Ok(())
}

/// Whether the elements that a subchunk's bytes are, of the size that the fill value has, are all fill. The first byte tells it of most
/// that aren't.
pub fn is_blank(bytes: &[u8], fill_value: &FillValue) -> bool
    requires { IsWhole (length fill_value.now) bytes.now }
    ensures { IsTrue result ↔ IsAllFill fill_value.now (fixed_array (length fill_value.now) bytes.now).elements }
{
    let fill = fill_value.as_ne_bytes();
    if bytes.len() > 0 && bytes[0] != fill[0] {
        return false;
    }
    if bytes.len() == fill.len() {
        return bytes == fill;
    }
    match ArrayBytes::new_flen(CowSlice::Borrowed(bytes), fill.len()) {
        Some(elements) => elements.is_fill_value(fill_value),
        None => unreachable!(),
    }
}

/// Where the subchunk stands that was put behind the slices from a position on: nowhere, and its bytes are taken back, where it is all
/// fill.
pub fn slot_after(slices: &mut Vec<u8>, from: usize, fill_value: &FillValue) -> Slot
    requires from { from ≤ length slices.old.items }
    requires whole { IsWhole (length fill_value.now) (drop from slices.old.items) }
    ensures stored { IsStoredAfter (λ elements bytes. bytes ≡ concat elements) fill_value.now (fixed_array (length fill_value.now) (drop from slices.old.items)).elements
        (take from slices.old.items) slices.new.items result }
{
    if is_blank(&slices[from..], fill_value) {
        slices.truncate(from);
        return Slot::Absent;
    }
    Slot::InRange {
        offset: from as u64,
        size: (slices.len() - from) as u64,
    }
}

/// What is to be stored of a row: nothing where each element is the fill value.
pub fn stored_row<'a>(row: &'a [u8], fill_value: &FillValue) -> &'a [u8]
    requires whole { IsWhole (length fill_value.now) row.now }
    requires some { 0 < length row.now }
    ensures { let elements = (fixed_array (length fill_value.now) row.now).elements in
        (IsAllFill fill_value.now elements × (result.now ≡ [])) ⊎ ((¬ (IsAllFill fill_value.now elements)) × (result.now ≡ row.now)) }
{
    if is_blank(row, fill_value) {
        return &row[..0];
    }
    row
}

/// Puts a run of rows behind the others, which begin at `start`, where some rows are laid out and some are left; one of none takes
/// no call. A refusal leaves them.
pub fn push_rows(
    slices: &mut Vec<u8>,
    start: usize,
    stored_slices: usize,
    left: usize,
    run: &[u8],
) -> Result<(), AllocError>
    ensures appended { OnOk result (slices.new.items ≡ slices.old.items ++ run.now) }
    ensures kept { OnErr result (slices.new.items ≡ slices.old.items) }
{
    if run.len() == 0 {
        return Ok(());
    }
    room_for_next(slices, start, stored_slices, left, run.len())?;
    slices.extend_from_slice(run)
}
