// The requested cells of a shard, put together from what is read of each subchunk.
ghost use Rattle.std.specs.Prelude.{◌≡◌, ◌≢◌, ◌*◌, ◌^◌, ◌<◌, ◌≤◌, IfOk, IfErr, OnOk, map, length};
ghost use Rattle.std.specs.List.{All, range_with_len};
ghost use Rattle.parts_errors.specs.Order.{◌or◌then◌, done, RefusedBy};
ghost use Rattle.parts_row_major.specs.Numbering.{IsInside};
ghost use Rattle.parts_subsets.specs.Selections.{IsSelectionOf, SelectionRefusals};
ghost use Rattle.parts_arrays.specs.Types.{size_of, byte_size, FitsKind};
ghost use Rattle.parts_arrays.specs.declared.data_type.DataTypeSize.TheVariants.{Fixed};
ghost use Rattle.parts_errors.specs.declared.error.CodecError.TheVariants.{TooLarge};
ghost use Rattle.sharding_gather.specs.steps.Gathering.{AreRead, element_read, bytes_read};

use crate::gathering::element_of;
use crate::grouping::{Grouping, Standing};
use parts_arrays::{ArrayBuilder, ArrayBytes, DataType, DataTypeSize};
use parts_errors::CodecError;
use parts_subsets::{ChunkShape, Indexer, check_selection};
use std::alloc::Global;

/// How many cells an indexer asks of an array. Tests that a number can say it and, where the elements have one size, how many
/// bytes they have together.
pub fn check_requested<N: Indexer>(
    indexer: &N,
    shape: &ChunkShape,
    data_type: &DataType,
) -> Result<u64, CodecError>
    ensures count { IfOk result (λ count. count ≡ length (N.selection indexer.now).points) }
    ensures selection { OnOk result (IsSelectionOf shape.now (N.selection indexer.now)) }
    ensures inside { OnOk result (All (λ point. IsInside point shape.now) (N.selection indexer.now).points) }
    ensures fits { OnOk result (length (N.selection indexer.now).points * byte_size (size_of data_type.now) < 2 ^ 64) }
    ensures refused { IfErr result (SelectionRefusals shape.now (N.selection indexer.now) (
        length (N.selection indexer.now).points * byte_size (size_of data_type.now) < 2 ^ 64 or TooLarge then
        done)) }
{
    let count = check_selection(indexer, shape)?;
    if let DataTypeSize::Fixed(size) = data_type.size() {
        count.checked_mul(size as u64).ok_or(CodecError::TooLarge)?;
    }
    Ok(count)
}

// The element of an asked cell, which is the fill value where its subchunk is absent.
fn requested_element<'a>(
    groups: &Grouping,
    parts: &'a [Option<ArrayBytes<'static>>],
    i: usize,
    kind: DataTypeSize,
    fill: &'a [u8],
) -> &'a [u8]
    requires position { i < length groups.now.standings.items }
    requires parts { AreRead kind groups.now parts.now }
    requires fill { FitsKind kind fill.now }
    ensures element { result.now ≡ element_read groups.now parts.now fill.now i }
    ensures fits { FitsKind kind result.now }
{
    let Standing { group, rank } = groups.standings[i];
    element_of(&parts[group], rank, kind, fill)
}

// Tests that the requested elements take fewer than 2^64 bytes together.
fn check_total<'a>(
    groups: &Grouping,
    parts: &'a [Option<ArrayBytes<'static>>],
    kind: DataTypeSize,
    fill: &'a [u8],
) -> Result<(), CodecError>
    requires parts { AreRead kind groups.now parts.now }
    requires fill { FitsKind kind fill.now }
    ensures fits { OnOk result (bytes_read groups.now parts.now fill.now (length groups.now.standings.items) < 2 ^ 64) }
    ensures refused { IfErr result (λ e. (e ≡ TooLarge) × (2 ^ 64 ≤ bytes_read groups.now parts.now fill.now (length groups.now.standings.items))) }
{
    let mut total = 0u64;
    for i in 0..groups.standings.len() {
        let element = requested_element(groups, parts, i, kind, fill);
        let Some(sum) = total.checked_add(element.len() as u64) else {
            return Err(CodecError::TooLarge);
        };
        total = sum;
    }
    Ok(())
}

/// The requested cells, put together from what was read of each group. Where elements have lengths of their own, the sum of
/// these is tested before any memory is asked.
pub fn put_together<'a>(
    alloc: Global,
    groups: &Grouping,
    parts: &'a [Option<ArrayBytes<'static>>],
    kind: DataTypeSize,
    fill: &'a [u8],
) -> Result<ArrayBytes<'static>, CodecError>
    requires kind { kind ≢ Fixed 0 }
    requires parts { AreRead kind groups.now parts.now }
    requires fill { FitsKind kind fill.now }
    ensures kind { IfOk result (λ array. array.kind ≡ kind) }
    ensures elements { IfOk result (λ array. array.elements ≡ map (element_read groups.now parts.now fill.now) (range_with_len 0 (length groups.now.standings.items))) }
    ensures refused { IfErr result (RefusedBy (λ e. (e ≡ TooLarge) × (2 ^ 64 ≤ bytes_read groups.now parts.now fill.now (length groups.now.standings.items)))) }
{
    if kind == DataTypeSize::Variable {
        check_total(groups, parts, kind, fill)?;
    }
    let mut elements = ArrayBuilder::new(alloc, kind)?;
    for i in 0..groups.standings.len() {
        let element = requested_element(groups, parts, i, kind, fill);
        elements.push(element)?;
    }
    Ok(elements.finish())
}
