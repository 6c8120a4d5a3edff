// Rows of elements, copied from an array to another.
ghost use Rattle.std.specs.Prelude.{◌≡◌, ◌≢◌, ℕ, ◌+◌, ◌*◌, ◌<◌, ◌≤◌, IfOk, length};
ghost use Rattle.std.specs.List.{flat_map};
ghost use Rattle.parts_row_major.specs.Numbering.{count_of};
ghost use Rattle.parts_row_major.specs.Subsets.{number_in, numbers_in, IsServed};
ghost use Rattle.parts_row_major.specs.Pieces.{piece, IsUpdated};
ghost use Rattle.parts_row_major.specs.Runs.{row_position};

use crate::pieces::{copy_run, fill_run};
use crate::strided::StridedSubset;
use parts_subsets::{ArraySubset, points_in};
use std::alloc::{AllocError, Global};

// Where rows of elements begin: the first, and how far behind it each further one.
#[derive(Clone, Copy)]
pub(crate) struct Rows {
    pub first: usize,
    pub stride: usize,
}

// Copies so many rows of so many elements over others. The first number, where it isn't 0, is how many bytes a row has; the
// second, where it isn't 0, one that these are no fewer than, and at most twice as many.
#[inline(always)]
pub(crate) fn copy_rows_of<const N: usize, const M: usize>(
    output: &mut [u8],
    size: usize,
    to: Rows,
    update: &[u8],
    from: Rows,
    rows: usize,
    run: usize,
)
    requires some { 0 < size }
    requires inside { (k : ℕ) → k < rows → (to.first + k * to.stride + run) * size ≤ length output.old }
    requires inside_update { (k : ℕ) → k < rows → (from.first + k * from.stride + run) * size ≤ length update.now }
    requires apart { (i j : ℕ) → i < rows * run → j < rows * run → row_position to.first to.stride run i ≡ row_position to.first to.stride run j → i ≡ j }
    requires known { N ≢ 0 → run * size ≡ N }
    requires least { M ≤ run * size }
    requires most { M ≢ 0 → run * size ≤ 2 * M }
    ensures { IsUpdated (rows * run) (row_position to.first to.stride run) (piece size output.old) (λ j. piece size update.now (row_position from.first from.stride run j)) (piece size output.new) }
{
    for k in 0..rows {
        let into = to.first + k * to.stride;
        let taken = from.first + k * from.stride;
        copy_run::<N, M>(output, size, into, update, taken, run);
    }
}

// A call that knows how many bytes a row has, as `copy_rows_of` does.
macro_rules! by_length {
    ($bytes:expr, $($call:ident).+, ($($argument:expr),*)) => {
        match $bytes {
            1 => $($call).+::<1, 0>($($argument),*),
            2 => $($call).+::<2, 0>($($argument),*),
            4 => $($call).+::<4, 0>($($argument),*),
            8 => $($call).+::<8, 0>($($argument),*),
            16 => $($call).+::<16, 0>($($argument),*),
            32 => $($call).+::<32, 0>($($argument),*),
            64 => $($call).+::<64, 0>($($argument),*),
            3 => $($call).+::<0, 2>($($argument),*),
            5..=7 => $($call).+::<0, 4>($($argument),*),
            9..=15 => $($call).+::<0, 8>($($argument),*),
            17..=31 => $($call).+::<0, 16>($($argument),*),
            33..=63 => $($call).+::<0, 32>($($argument),*),
            65..=128 => $($call).+::<0, 64>($($argument),*),
            _ => $($call).+::<0, 0>($($argument),*),
        }
    };
}

pub(crate) use by_length;

// Copies so many rows of so many elements over others: short rows with a length that stands here, or with two copies of such a
// length from either end, which takes no call.
pub(crate) fn copy_rows(
    output: &mut [u8],
    size: usize,
    to: Rows,
    update: &[u8],
    from: Rows,
    rows: usize,
    run: usize,
)
    requires some { 0 < size }
    requires inside { (k : ℕ) → k < rows → (to.first + k * to.stride + run) * size ≤ length output.old }
    requires inside_update { (k : ℕ) → k < rows → (from.first + k * from.stride + run) * size ≤ length update.now }
    requires apart { (i j : ℕ) → i < rows * run → j < rows * run → row_position to.first to.stride run i ≡ row_position to.first to.stride run j → i ≡ j }
    ensures { IsUpdated (rows * run) (row_position to.first to.stride run) (piece size output.old) (λ j. piece size update.now (row_position from.first from.stride run j)) (piece size output.new) }
{
    let bytes = run.saturating_mul(size);
    by_length!(
        bytes,
        copy_rows_of,
        (output, size, to, update, from, rows, run)
    )
}

// Writes one element over each of so many rows of so many.
pub(crate) fn fill_rows(
    output: &mut [u8],
    size: usize,
    to: Rows,
    rows: usize,
    run: usize,
    element: &[u8],
)
    requires some { 0 < size }
    requires inside { (k : ℕ) → k < rows → (to.first + k * to.stride + run) * size ≤ length output.old }
    requires apart { (i j : ℕ) → i < rows * run → j < rows * run → row_position to.first to.stride run i ≡ row_position to.first to.stride run j → i ≡ j }
    requires whole { length element.now ≡ size }
    ensures { IsUpdated (rows * run) (row_position to.first to.stride run) (piece size output.old) (λ j. element.now) (piece size output.new) }
{
    for k in 0..rows {
        fill_run(output, size, to.first + k * to.stride, run, element);
    }
}

/// Writes elements that come one after the other at the points of a subset of an array of a shape, in row-major order of the
/// subset. Takes no memory.
pub fn scatter(output: &mut [u8], size: usize, subset: &ArraySubset, shape: &[u64], update: &[u8])
    requires some { 0 < size }
    requires served { IsServed subset.now shape.now }
    requires whole { length output.old ≡ count_of shape.now * size }
    requires whole_update { length update.now ≡ count_of subset.now.shape * size }
    ensures { IsUpdated (count_of subset.now.shape) (number_in subset.now shape.now) (piece size output.old) (piece size update.now) (piece size output.new) }
{
    let strided = StridedSubset::new(subset, shape);
    strided.scatter(output, size, 0, update);
}

/// The elements at the points of a subset of an array of a shape, one after the other, in row-major order of the subset.
pub fn gather(
    alloc: Global,
    bytes: &[u8],
    size: usize,
    subset: &ArraySubset,
    shape: &[u64],
) -> Result<Vec<u8>, AllocError>
    requires some { 0 < size }
    requires served { IsServed subset.now shape.now }
    requires whole { length bytes.now ≡ count_of shape.now * size }
    ensures { IfOk result (λ part. part.items ≡ flat_map (piece size bytes.now) (numbers_in subset.now shape.now)) }
{
    let room = points_in(subset, shape) as usize * size;
    let mut part = Vec::from_elem(alloc, 0, room)?;
    let strided = StridedSubset::new(subset, shape);
    strided.gather(&mut part, bytes, size, 0);
    Ok(part)
}
