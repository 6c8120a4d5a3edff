// The numbers of a grid along the Z-curve: the list of those whose coordinates have a few low bits is doubled, bit by bit and of each
// bit from the last axis to the first, by what lies one such bit further along the axis.
ghost use Rattle.std.specs.Prelude.{◌≡◌, ◌<◌, ◌≤◌, ◌+◌, ◌*◌, ◌/◌, ◌%◌, ◌^◌, ◌++◌, ℕ, OnOk, IfOk, length, slice_index};
ghost use Rattle.std.specs.List.{All};
ghost use Rattle.parts_row_major.specs.Numbering.{count_of, AllPositive};
ghost use Rattle.sharding_format.specs.WriteOrder.{numbers_in_order};
ghost use Rattle.sharding_format.specs.declared.order.SubchunkWriteOrder.TheVariants.{Morton};
ghost use Rattle.sharding_layout.specs.steps.Reached.{moved, AreReached};

use std::alloc::{AllocError, Global};

// Adds the numbers that lie `step` further along an axis, where that is inside the grid. `stride` is what a number grows by for each
// coordinate of the axis. Refused only as out of memory.
fn add_moved(numbers: &mut Vec<u64>, step: u64, stride: u64, length: u64) -> Result<(), AllocError>
    requires some { 0 < stride }
    requires room { step < length }
    requires near { All (λ k. (k / stride) % length < step) numbers.old.items }
    requires fits { All (λ k. (k / stride) % length + step < length → k + step * stride < 2 ^ 64) numbers.old.items }
    requires whole { step * stride < 2 ^ 64 }
    ensures { OnOk result (numbers.new.items ≡ numbers.old.items ++ moved step stride length numbers.old.items) }
{
    let all = step <= length / 2;
    let far = length - step;
    let distance = step * stride;
    let many = numbers.len();
    for i in 0..many {
        let number = numbers[i];
        if all || number / stride % length < far {
            numbers.push(number + distance)?;
        }
    }
    Ok(())
}

// Adds the numbers whose coordinates have one bit more. Refused only as out of memory.
fn add_bit(numbers: &mut Vec<u64>, grid: &[u64], bit: u32) -> Result<(), AllocError>
    requires bit { bit < 64 }
    requires positive { AllPositive grid.now }
    requires fits { count_of grid.now < 2 ^ 64 }
    requires reached { AreReached grid.now bit (length grid.now) numbers.old.items }
    ensures { OnOk result (AreReached grid.now (bit + 1) (length grid.now) numbers.new.items) }
{
    let step = 1 << bit;
    let mut stride = 1;
    for axis in (0..grid.len()).rev() {
        let length = grid[axis];
        if step < length {
            add_moved(numbers, step, stride, length)?;
        }
        stride *= length;
    }
    Ok(())
}

// So many bits that each coordinate of the grid has no more.
fn bits_of(grid: &[u64]) -> u32
    requires positive { AllPositive grid.now }
    ensures few { result ≤ 64 }
    ensures enough { (axis : ℕ) → axis < length grid.now → slice_index grid.now axis ≤ 2 ^ result }
{
    let mut bits = 0;
    for length in grid {
        let needed = 64 - (*length - 1).leading_zeros();
        if needed > bits {
            bits = needed;
        }
    }
    bits
}

/// The numbers of a grid along the Z-curve. Refused only as out of memory.
pub(crate) fn morton_numbers(
    alloc: Global,
    grid: &[u64],
    count: u64,
) -> Result<Vec<u64>, AllocError>
    requires positive { AllPositive grid.now }
    requires count { count ≡ count_of grid.now }
    ensures { IfOk result (λ numbers. numbers.items ≡ numbers_in_order Morton grid.now) }
{
    let mut numbers = Vec::with_capacity(alloc, count as usize)?;
    numbers.push(0)?;
    for bit in 0..bits_of(grid) {
        add_bit(&mut numbers, grid, bit)?;
    }
    Ok(numbers)
}
