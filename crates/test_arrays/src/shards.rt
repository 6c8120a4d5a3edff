// The shards of an array, and the cells of a subset put together of their parts.
use crate::compared::same;
use array_grid::{ShardGrid, ShardPart, SubsetCells};
use std::alloc::Global;
use std::ops::Range;
use std::process::Abort;
use std::test::Fail;
use zarr_parts::{ArrayBytes, ArraySubset, ChunkShape, CodecError, FillValue};

// The parts of the subset 1..5, 3..7 of an array of 5 by 7 in shards of 4 by 4: where each starts in its shard and in the
// subset, and its shape.
const PARTS: [([u64; 2], [u64; 2], [u64; 2]); 4] = [
    ([1, 3], [0, 0], [3, 1]),
    ([1, 0], [0, 1], [3, 3]),
    ([0, 3], [3, 0], [1, 1]),
    ([0, 0], [3, 1], [1, 3]),
];

fn grid_of(alloc: Global, shape: &[u64], shard: &[u64]) -> Result<ShardGrid, CodecError> {
    let shard = ChunkShape::new(alloc, shard)?.ok_or(CodecError::InvalidSubchunkShape)?;
    ShardGrid::new(alloc, shape, &shard)
}

// Compares the coordinates of a shard, which an array without axes does not have.
fn compare_coordinates<R: Abort + AllocGlobal>(
    rt: &R,
    grid: &ShardGrid,
    number: u64,
    axes: usize,
    want: &[u64],
) -> Result<(), Fail> {
    match grid.coordinates(rt.alloc(), number)? {
        Some(coordinates) => same(rt, coordinates.as_slice(), want),
        None => same(rt, axes, 0),
    }
    Ok(())
}

// Compares how many shards an array of a shape in shards of another has, and the coordinates of the last one.
fn compare_grid<R: Abort + AllocGlobal>(
    rt: &R,
    shape: &[u64],
    shard: &[u64],
    len: u64,
    last: &[u64],
) -> Result<(), Fail> {
    let grid = grid_of(rt.alloc(), shape, shard)?;
    same(rt, grid.len(), len);
    compare_coordinates(rt, &grid, len.max(2) - 1, shape.len(), last)
}

#[test]
fn as_many_shards_as_hold_all_cells(rt: HostRuntime) -> Result<(), Fail> {
    compare_grid(&rt, &[8, 8], &[4, 4], 4, &[1, 1])?;
    compare_grid(&rt, &[5, 7], &[4, 4], 4, &[1, 1])?;
    compare_grid(&rt, &[9], &[4], 3, &[2])?;
    compare_grid(&rt, &[4, 1, 6], &[4, 2, 3], 2, &[0, 0, 1])?;
    compare_grid(&rt, &[], &[], 1, &[])?;
    compare_grid(&rt, &[0, 7], &[4, 4], 0, &[0, 1])
}

fn told<R: Abort>(rt: &R, alloc: Global, part: &ShardPart) -> String {
    let (inside, within) = (&part.in_shard, &part.in_subset);
    let told = format!(in alloc;
        "{} {:?} {:?} {:?} {:?}",
        part.shard,
        inside.start(),
        inside.shape(),
        within.start(),
        within.shape()
    )
    .expect(rt, "refused");
    told
}

fn wanted<R: Abort>(rt: &R, alloc: Global, number: usize) -> String {
    let (inside, within, shape) = &PARTS[number % 4];
    let wanted = format!(in alloc; "{number} {inside:?} {shape:?} {within:?} {shape:?}").expect(
        rt, "refused",
    );
    wanted
}

fn compare_part<R: Abort + AllocGlobal>(rt: &R, number: usize, part: &ShardPart) {
    let wanted = wanted(rt, rt.alloc(), number);
    let told = told(rt, rt.alloc(), part);
    same(rt, told, wanted);
}

// The part at a place of the subset 1..5, 3..7 of an array of 5 by 7 in shards of 4 by 4.
fn part_of_subset<R: Abort>(rt: &R, alloc: Global, position: u64) -> Option<ShardPart> {
    let grid = grid_of(alloc, &[5, 7], &[4, 4]).expect(rt, "refused");
    let requested = ArraySubset::from_ranges(alloc, &[1..5, 3..7]).expect(rt, "refused");
    grid.parts(alloc, &requested)
        .expect(rt, "refused")
        .part(alloc, position)
        .expect(rt, "refused")
}

#[test]
fn a_subset_is_made_of_a_part_of_each_shard(rt: HostRuntime) {
    for number in 0..4 {
        if let Some(part) = part_of_subset(&rt, rt.alloc(), number as u64) {
            compare_part(&rt, number, &part);
        }
    }
    same(&rt, part_of_subset(&rt, rt.alloc(), 3).is_some(), true);
    same(&rt, part_of_subset(&rt, rt.alloc(), 4).is_none(), true);
}

// How many parts a subset has, or why it is refused.
fn count_parts(alloc: Global, grid: &ShardGrid, ranges: &[Range<u64>]) -> Result<u64, CodecError> {
    let requested = ArraySubset::from_ranges(alloc, ranges)?;
    Ok(grid.parts(alloc, &requested)?.len())
}

#[test]
fn subsets_and_shapes_are_refused_in_order(rt: HostRuntime) {
    let alloc = rt.alloc();
    let grid = grid_of(alloc, &[5, 7], &[4, 4]).expect(&rt, "refused");
    let of_one = Some(CodecError::IncompatibleDimensionality);
    let out = Some(CodecError::OutOfBounds);
    for (ranges, want) in [
        (&[0..9][..], of_one),
        (&[0..5, 6..8], out),
        (&[3..2, 0..7], out),
    ] {
        same(&rt, count_parts(alloc, &grid, ranges).err(), want);
    }
    same(&rt, count_parts(alloc, &grid, &[2..2, 0..7]), Ok(0));
    same(&rt, count_parts(alloc, &grid, &[0..5, 0..7]), Ok(4));
    same(&rt, grid_of(alloc, &[8], &[4, 4]).err(), of_one);
    same(
        &rt,
        grid_of(alloc, &[u64::MAX], &[2]).err(),
        Some(CodecError::TooLarge),
    );
    let large: [u64; 2] = [1 << 40, 1 << 40];
    same(
        &rt,
        grid_of(alloc, &large, &[4, 4]).err(),
        Some(CodecError::TooLarge),
    );
}

fn put(
    alloc: Global,
    cells: &mut SubsetCells,
    ranges: &[Range<u64>],
    numbers: &[u16],
) -> Result<(), CodecError> {
    let at = ArraySubset::from_ranges(alloc, ranges)?;
    cells.put(&at, &ArrayBytes::from_numbers(alloc, numbers)?)
}

// A subset of two by three cells, which are all 258.
fn subset_of_cells<R: Abort>(rt: &R, alloc: Global) -> SubsetCells {
    let requested = ArraySubset::from_ranges(alloc, &[4..6, 1..4]).expect(rt, "refused");
    let fill = FillValue::from_number(alloc, 258u16).expect(rt, "refused");
    SubsetCells::new(alloc, &requested, &fill).expect(rt, "refused")
}

fn put_a_byte(alloc: Global, cells: &mut SubsetCells) -> Result<(), CodecError> {
    let at = ArraySubset::from_ranges(alloc, &[0..1, 0..1])?;
    cells.put(&at, &ArrayBytes::from_numbers(alloc, &[4u8])?)
}

#[test]
fn parts_are_put_into_a_subset(rt: HostRuntime) {
    let alloc = rt.alloc();
    let mut cells = subset_of_cells(&rt, alloc);
    for (ranges, numbers, put_there) in [
        ([0..2, 1..2], &[1, 2][..], Ok(())),
        ([1..2, 2..3], &[3], Ok(())),
        (
            [0..1, 0..1],
            &[4, 5],
            Err(CodecError::InvalidNumberOfElements),
        ),
        ([0..3, 0..1], &[4, 5, 6], Err(CodecError::OutOfBounds)),
    ] {
        same(&rt, put(alloc, &mut cells, &ranges, numbers), put_there);
    }
    let of_a_byte = put_a_byte(alloc, &mut cells);
    same(&rt, of_a_byte, Err(CodecError::WrongElementKind));
    same(
        &rt,
        cells.bytes(),
        [2, 1, 1, 0, 2, 1, 2, 1, 2, 0, 3, 0].as_slice(),
    );
}
