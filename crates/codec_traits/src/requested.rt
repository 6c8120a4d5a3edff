// What is asked of an array.
ghost use Rattle.std.specs.Prelude.{◌≡◌, ◌^◌, ◌<◌, [], IfOk, IfErr, OnOk, OnErr, map, length, slice_index_or};
ghost use Rattle.parts_errors.specs.declared.error.CodecError.TheVariants.{OutOfMemory};
ghost use Rattle.parts_row_major.specs.Numbering.{count_of, number_of};
ghost use Rattle.parts_subsets.specs.Selections.{IsSelectionOf};
ghost use Rattle.parts_arrays.specs.Refusals.{IsValid};
ghost use Rattle.parts_arrays.specs.Types.{size_of};
ghost use Rattle.parts_arrays.specs.declared.data_type.DataTypeSize.TheVariants.{Fixed};
ghost use Rattle.parts_arrays.specs.Arrays.{element_of};
ghost use Rattle.parts_arrays.specs.Targets.{target_element_size, target_subset, IsWritten};

use parts_arrays::{ArrayBuilder, ArrayBytes, DataType, FixedTarget};
use parts_errors::CodecError;
use parts_subsets::{ChunkShape, Indexer, requested_number};
use std::alloc::Global;

/// The elements of an array at the cells that an indexer requests, of which there are so many: those of a subset row by row. Refused
/// only as out of memory.
pub fn requested_elements<N: Indexer>(
    alloc: Global,
    array: &ArrayBytes,
    indexer: &N,
    count: u64,
    shape: &ChunkShape,
    data_type: &DataType,
) -> Result<ArrayBytes<'static>, CodecError>
    requires selection { IsSelectionOf shape.now (N.selection indexer.now) }
    requires count { count ≡ length (N.selection indexer.now).points }
    requires fits { count_of shape.now < 2 ^ 64 }
    requires valid { IsValid array.now (count_of shape.now) data_type.now }
    ensures requested { IfOk result (λ requested. requested ≡ record {
      kind = array.now.kind;
      elements = map (element_of array.now) (map (λ point. number_of point shape.now) (N.selection indexer.now).points);
    }) }
    ensures refused { IfErr result (λ e. e ≡ OutOfMemory) }
{
    if let Some(subset) = indexer.as_array_subset() {
        return array.extract_array_subset(alloc, subset, shape.as_slice(), data_type);
    }
    let axes = shape.as_slice();
    let mut requested = ArrayBuilder::new(alloc, array.kind())?;
    for i in 0..count {
        let number = requested_number(indexer, i, axes);
        requested.push(array.element(number as usize))?;
    }
    Ok(requested.finish())
}

/// Writes the elements of an array at the cells that an indexer requests, of which there are so many, into a target: in the
/// indexer's order they go to the target's subset, in row-major order of this; those of a subset row by row, with no copy between.
/// A refusal leaves the target. Refused only as out of memory.
pub fn put_requested<N: Indexer>(
    alloc: Global,
    array: &ArrayBytes,
    indexer: &N,
    count: u64,
    shape: &ChunkShape,
    data_type: &DataType,
    target: &mut FixedTarget,
) -> Result<(), CodecError>
    requires selection { IsSelectionOf shape.now (N.selection indexer.now) }
    requires count { count ≡ length (N.selection indexer.now).points }
    requires fits { count_of shape.now < 2 ^ 64 }
    requires valid { IsValid array.now (count_of shape.now) data_type.now }
    requires kind { size_of data_type.now ≡ Fixed (target_element_size target.old) }
    requires whole { count_of (target_subset target.old).shape ≡ count }
    ensures written { let requested = map (element_of array.now) (map (λ point. number_of point shape.now) (N.selection indexer.now).points) in
        OnOk result (IsWritten target.old target.new (λ k. slice_index_or requested k [])) }
    ensures kept { OnErr result (target.new ≡ target.old) }
    ensures refused { IfErr result (λ e. e ≡ OutOfMemory) }
{
    if let Some(subset) = indexer.as_array_subset() {
        target.copy_subset_from(array, subset, shape.as_slice());
        return Ok(());
    }
    let requested = requested_elements(alloc, array, indexer, count, shape, data_type)?;
    target.copy_from(&requested)
}
