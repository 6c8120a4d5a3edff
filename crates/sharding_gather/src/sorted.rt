// Asked cells in the order of their subchunks, and what was read of each subchunk written where its cells stand.
ghost use Rattle.std.specs.Prelude.{◌≡◌, ◌≢◌, ◌+◌, ◌*◌, ◌^◌, ◌<◌, ◌≤◌, ℕ, [], IfOk, OnOk, map, length};
ghost use Rattle.std.specs.List.{All, range_with_len};
ghost use Rattle.parts_row_major.specs.Numbering.{AllPositive, count_of};
ghost use Rattle.parts_subsets.specs.Grid.{Divides, subchunk_number, position_number};
ghost use Rattle.parts_row_major.specs.Pieces.{piece};
ghost use Rattle.parts_arrays.specs.declared.data_type.DataTypeSize.TheVariants.{Fixed};
ghost use Rattle.sharding_format.specs.steps.Decoding.{IsPartOf, element_at};
ghost use Rattle.sharding_gather.specs.steps.Sorting.{requested_cell, requested_at, AreSorted, IsWritten};
ghost use Rattle.sharding_gather.specs.steps.Gathering.{positions_there};

use parts_arrays::ArrayBytes;
use parts_subsets::Located;
use std::alloc::{AllocError, Global};

/// An asked cell: where it lies, and its place among the requested ones.
#[derive(Clone, Copy)]
pub struct RequestedCell {
    /// The row-major number of its subchunk in the grid.
    pub subchunk: u64,
    /// The row-major number of its place in the subchunk.
    pub position: u64,
    /// Which of the requested cells it is.
    pub rank: usize,
}

/// Where the cell with a row-major number lies, told from the last axis to the first. Takes no memory.
pub fn located(number: u64, shape: &[u64], sub: &[u64]) -> Located
    requires inside { number < count_of shape.now }
    requires fits { count_of shape.now < 2 ^ 64 }
    requires sub { AllPositive sub.now }
    requires divides { Divides sub.now shape.now }
    ensures subchunk { result.subchunk ≡ subchunk_number shape.now sub.now number }
    ensures position { result.position ≡ position_number shape.now sub.now number }
{
    let mut rest = number;
    let mut subchunk = 0;
    let mut subchunks = 1;
    let mut position = 0;
    let mut positions = 1;
    for axis in (0..shape.len()).rev() {
        let index = rest % shape[axis];
        rest /= shape[axis];
        subchunk += index / sub[axis] * subchunks;
        subchunks *= shape[axis] / sub[axis];
        position += index % sub[axis] * positions;
        positions *= sub[axis];
    }
    Located { subchunk, position }
}

// The cells with these row-major numbers, in their order.
fn located_cells(
    alloc: Global,
    numbers: &[u64],
    shape: &[u64],
    sub: &[u64],
) -> Result<Vec<RequestedCell>, AllocError>
    requires inside { All (λ number. number < count_of shape.now) numbers.now }
    requires fits { count_of shape.now < 2 ^ 64 }
    requires sub { AllPositive sub.now }
    requires divides { Divides sub.now shape.now }
    ensures cells { IfOk result (λ requested. requested.items ≡ map (requested_cell shape.now sub.now numbers.now) (range_with_len 0 (length numbers.now))) }
{
    let mut requested = Vec::with_capacity(alloc, numbers.len())?;
    for rank in 0..numbers.len() {
        let Located { subchunk, position } = located(numbers[rank], shape, sub);
        requested.push(RequestedCell {
            subchunk,
            position,
            rank,
        })?;
    }
    Ok(requested)
}

/// The cells with these row-major numbers, by their subchunks in ascending order, those of one subchunk in the order in which
/// they are asked. Takes memory by the number of requested cells alone.
pub fn sorted_cells(
    alloc: Global,
    numbers: &[u64],
    shape: &[u64],
    sub: &[u64],
) -> Result<Vec<RequestedCell>, AllocError>
    requires inside { All (λ number. number < count_of shape.now) numbers.now }
    requires fits { count_of shape.now < 2 ^ 64 }
    requires sub { AllPositive sub.now }
    requires divides { Divides sub.now shape.now }
    ensures sorted { IfOk result (λ requested. AreSorted shape.now sub.now numbers.now requested.items) }
{
    let mut requested = located_cells(alloc, numbers, shape, sub)?;
    requested.sort_by_key(|cell| cell.subchunk)?;
    Ok(requested)
}

/// How many of these cells, from the first on, lie in the subchunk of the first.
pub fn run_length(requested: &[RequestedCell]) -> usize
    requires some { 0 < length requested.now }
    ensures some { 0 < result }
    ensures within { result ≤ length requested.now }
    ensures same { (i : ℕ) → i < result → (requested_at requested.now i).subchunk ≡ (requested_at requested.now 0).subchunk }
    ensures other { result < length requested.now → (requested_at requested.now result).subchunk ≢ (requested_at requested.now 0).subchunk }
{
    let subchunk = requested[0].subchunk;
    for i in 1..requested.len() {
        if requested[i].subchunk != subchunk {
            return i;
        }
    }
    requested.len()
}

/// The places of these cells, in place of what a list had.
pub fn list_positions(
    positions: &mut Vec<u64>,
    requested: &[RequestedCell],
) -> Result<(), AllocError>
    ensures { OnOk result (positions.new.items ≡ map (λ cell. cell.position) requested.now) }
{
    positions.clear();
    for cell in requested {
        positions.push(cell.position)?;
    }
    Ok(())
}

// Writes an element over the one at a place.
fn write_element(bytes: &mut [u8], size: usize, i: usize, element: &[u8])
    requires inside { i * size + size ≤ length bytes.old }
    requires whole { length element.now ≡ size }
    ensures written { piece size bytes.new i ≡ element.now }
    ensures others { (k : ℕ) → k ≢ i → piece size bytes.new k ≡ piece size bytes.old k }
{
    let from = i * size;
    bytes[from..from + size].copy_from_slice(element);
}

/// Writes what was read of these cells, which lie in one subchunk, at their ranks, if the subchunk is there.
pub fn put_cells(
    bytes: &mut [u8],
    size: usize,
    requested: &[RequestedCell],
    part: &Option<ArrayBytes>,
)
    requires inside { All (λ cell. cell.rank * size + size ≤ length bytes.old) requested.now }
    requires part { IsPartOf (Fixed size) (length requested.now) part.now }
    ensures { IsWritten requested.now (positions_there (length requested.now) part.now) (piece size bytes.old) (element_at [] part.now) (piece size bytes.new) }
{
    let Some(array) = part else {
        return;
    };
    for i in 0..requested.len() {
        write_element(bytes, size, requested[i].rank, array.element(i));
    }
}
