// The elements of a chunk that reaches past the end of the array.
ghost use Rattle.std.specs.Prelude.{◌≡◌, IfOk, IfErr, OnOk};
ghost use Rattle.parts_arrays.specs.Arrays.{fixed_array};
ghost use Rattle.array_cli.specs.ChunkRefusals.{HasRoom, FitAtStart, IsPaddedRefusal};
ghost use Rattle.array_cli.specs.Padded.{at_start, ArePadded};

use crate::grid_shards::whole_of;
use array_grid::SubsetCells;
use parts_arrays::{ArrayBytes, FillValue};
use parts_errors::CodecError;
use parts_subsets::ArraySubset;
use std::alloc::Global;

// The cells of a chunk, of which those of a part at its start are elements, and all others the fill value.
fn filled_around(
    alloc: Global,
    chunk: &ArraySubset,
    fill_value: &FillValue,
    part: &ArraySubset,
    elements: &ArrayBytes,
) -> Result<SubsetCells, CodecError>
    requires start { part.now ≡ at_start part.now.shape }
    ensures padded { IfOk result (λ cells. ArePadded fill_value.now part.now.shape chunk.now.shape elements.now (fixed_array cells.element_size cells.bytes)) }
    ensures passed { OnOk result (HasRoom chunk.now.shape fill_value.now × FitAtStart fill_value.now part.now.shape chunk.now.shape elements.now) }
    ensures refused { IfErr result (IsPaddedRefusal fill_value.now part.now.shape chunk.now.shape elements.now) }
{
    let mut cells = SubsetCells::new(alloc, chunk, fill_value)?;
    cells.put(part, elements)?;
    Ok(cells)
}

/// The elements of a chunk of this shape at whose start elements stand that have a shape: all others are the fill value (Zarr V3 core,
/// "Regular grids": a chunk may reach past the end of the array). Refused as `SubsetCells::new` refuses for the chunk, and then as
/// `SubsetCells::put` for the elements.
pub fn padded_chunk(
    alloc: Global,
    chunk: &[u64],
    fill_value: &FillValue,
    shape: &[u64],
    elements: &ArrayBytes,
) -> Result<SubsetCells, CodecError>
    ensures padded { IfOk result (λ cells. ArePadded fill_value.now shape.now chunk.now elements.now (fixed_array cells.element_size cells.bytes)) }
    ensures passed { OnOk result (HasRoom chunk.now fill_value.now × FitAtStart fill_value.now shape.now chunk.now elements.now) }
    ensures refused { IfErr result (IsPaddedRefusal fill_value.now shape.now chunk.now elements.now) }
{
    let whole = whole_of(alloc, chunk)?;
    let part = whole_of(alloc, shape)?;
    filled_around(alloc, &whole, fill_value, &part, elements)
}
