// Subchunks of an array whose elements have one size, copied to or from where they lie in it.
ghost use Rattle.std.specs.Prelude.{◌≡◌, ◌+◌, ◌*◌, ◌^◌, ◌<◌, ◌≤◌, ℕ, IfOk, IfErr, length, take, drop};
ghost use Rattle.parts_row_major.specs.Numbering.{AllPositive, count_of, number_of, point_of, zip_with};
ghost use Rattle.parts_row_major.specs.Pieces.{piece, IsUpdated};
ghost use Rattle.parts_subsets.specs.Grid.{Divides, grid_of, cell_number, subset_of_subchunk};
ghost use Rattle.parts_errors.specs.declared.error.CodecError.TheVariants.{OutOfMemory};

use parts_errors::CodecError;
use parts_strided_copy::StridedSubset;
use parts_subsets::{ArraySubset, ChunkShape};
use sharding_format::subchunk_subset;
use std::alloc::Global;
use std::marker::Model;

/// The subchunks of an array, by the rows of the first: the elements of each lie in rows that are as long and as far apart.
#[derive(Drop)]
pub struct SubchunkRows<'a> {
    shape: &'a [u64],
    sub: &'a [u64],
    grid: &'a [u64],
    many: u64,
    first: StridedSubset<'a>,
}

impl<'a> Model for SubchunkRows<'a> {
    ghost use Rattle.sharding_gather.specs.steps.SubchunkRows.{SubchunksIn, AreSubchunkRows};

    ghost Value = { SubchunksIn };

    ghost view = { λ s. record { shape = s.shape.now; sub = s.sub.now } };

    ghost invariant = { λ s. AreSubchunkRows s.shape.now s.sub.now s.grid.now s.many s.first };
}

/// The subset of the first subchunk of a shape. Refused only as out of memory.
pub fn first_subchunk(
    alloc: Global,
    shape: &ChunkShape,
    sub: &ChunkShape,
    grid: &ChunkShape,
) -> Result<ArraySubset, CodecError>
    requires divides { Divides sub.now shape.now }
    requires fits { count_of shape.now < 2 ^ 64 }
    requires grid { grid.now ≡ grid_of shape.now sub.now }
    ensures first { IfOk result (λ first. first ≡ subset_of_subchunk shape.now sub.now 0) }
    ensures refused { IfErr result (λ e. e ≡ OutOfMemory) }
{
    let (_axes, _grid) = (shape.as_slice(), grid.as_slice());
    let Some(first) = subchunk_subset(alloc, 0, grid, sub)? else {
        unreachable!()
    };
    Ok(first)
}

// The number in a shape of the first cell of a subchunk, by the subchunk's number in the grid, which has `many`. Takes no memory.
fn first_cell_of(number: u64, shape: &[u64], sub: &[u64], grid: &[u64], many: u64) -> u64
    requires axes { length sub.now ≡ length shape.now }
    requires grid_axes { length grid.now ≡ length shape.now }
    requires many { many ≡ count_of grid.now }
    requires below { number < many }
    requires positive { AllPositive shape.now }
    requires fits { number_of (zip_with ◌*◌ (point_of number grid.now) sub.now) shape.now < 2 ^ 64 }
    ensures { result ≡ number_of (zip_with ◌*◌ (point_of number grid.now) sub.now) shape.now }
{
    let mut first = 0;
    let mut rest = number;
    let mut left = many;
    for axis in 0..shape.len() {
        left /= grid[axis];
        first = first * shape[axis] + rest / left * sub[axis];
        rest %= left;
    }
    first
}

impl<'a> SubchunkRows<'a> {
    /// The subchunks of an array of a shape, by the subset of the first and the grid, which has `many`. Takes no memory.
    pub fn new(
        shape: &'a ChunkShape,
        sub: &'a ChunkShape,
        grid: &'a ChunkShape,
        many: u64,
        first: &'a ArraySubset,
    ) -> SubchunkRows<'a>
        requires divides { Divides sub.now shape.now }
        requires fits { count_of shape.now < 2 ^ 64 }
        requires grid { grid.now ≡ grid_of shape.now sub.now }
        requires many { many ≡ count_of grid.now }
        requires first { first.now ≡ subset_of_subchunk shape.now sub.now 0 }
        ensures { result ≡ record { shape = shape.now; sub = sub.now } }
    {
        let axes = shape.as_slice();
        SubchunkRows {
            shape: axes,
            sub: sub.as_slice(),
            grid: grid.as_slice(),
            many,
            first: StridedSubset::new(first, axes),
        }
    }
}

impl SubchunkRows<'_> {
    /// Writes the elements of the subchunk with a number, which come one after the other, to where they lie in the array. Takes no
    /// memory.
    pub fn scatter(&self, output: &mut [u8], size: usize, number: u64, elements: &[u8])
        requires some { 0 < size }
        requires below { number < count_of (grid_of self.now.shape self.now.sub) }
        requires whole { length output.old ≡ count_of self.now.shape * size }
        requires part { length elements.now ≡ count_of self.now.sub * size }
        ensures { IsUpdated (count_of self.now.sub) (cell_number self.now.shape self.now.sub number) (piece size output.old) (piece size elements.now) (piece size output.new) }
    {
        let first = first_cell_of(number, self.shape, self.sub, self.grid, self.many);
        self.first.scatter(output, size, first as usize, elements);
    }

    /// Writes the elements of the subchunk with a number, one after the other, as they lie in the array. Takes no memory.
    pub fn gather(&self, elements: &mut [u8], array: &[u8], size: usize, number: u64)
        requires some { 0 < size }
        requires below { number < count_of (grid_of self.now.shape self.now.sub) }
        requires whole { length array.now ≡ count_of self.now.shape * size }
        requires part { length elements.old ≡ count_of self.now.sub * size }
        ensures { (p : ℕ) → p < count_of self.now.sub → piece size elements.new p ≡ piece size array.now (cell_number self.now.shape self.now.sub number p) }
    {
        let first = first_cell_of(number, self.shape, self.sub, self.grid, self.many);
        self.first.gather(elements, array, size, first as usize);
    }

    /// The same, over the bytes that stand from a position of others on.
    pub fn gather_at(
        &self,
        bytes: &mut Vec<u8>,
        from: usize,
        array: &[u8],
        size: usize,
        number: u64,
    )
        requires some { 0 < size }
        requires below { number < count_of (grid_of self.now.shape self.now.sub) }
        requires whole { length array.now ≡ count_of self.now.shape * size }
        requires from { from ≤ length bytes.old.items }
        requires part { length (drop from bytes.old.items) ≡ count_of self.now.sub * size }
        ensures kept { take from bytes.new.items ≡ take from bytes.old.items }
        ensures long { length bytes.new.items ≡ length bytes.old.items }
        ensures gathered { (p : ℕ) → p < count_of self.now.sub
            → piece size (drop from bytes.new.items) p ≡ piece size array.now (cell_number self.now.shape self.now.sub number p) }
    {
        self.gather(&mut bytes[from..], array, size, number);
    }
}
