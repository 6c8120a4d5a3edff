// Row-major numbers of coordinates.
ghost use Rattle.std.specs.Prelude.{◌≡◌, ℕ, ◌+◌, ◌*◌, ◌^◌, ◌<◌, List, SomeIff, IfOk, MatchOption, length, slice_index};
ghost use Rattle.parts_row_major.specs.Numbering.{count_of, IsInside, number_of, point_of, HasPoint};

use std::alloc::{AllocError, Global};

// The product of a shape's numbers, if it fits.
pub fn count(shape: &[u64]) -> Option<u64>
    ensures { SomeIff result (count_of shape.now < 2 ^ 64) (count_of shape.now) }
{
    if shape.contains(&0) {
        return Some(0);
    }
    let mut product = 1u64;
    for axis in shape {
        product = product.checked_mul(*axis)?;
    }
    Some(product)
}

/// The row-major (C order) number of a coordinate in a shape. `None` where their numbers of axes differ,
/// an index is not below its axis, or the shape's count passes `u64::MAX`. Takes no memory.
pub fn ravel_indices(indices: &[u64], shape: &[u64]) -> Option<u64>
    ensures { SomeIff result (IsInside indices.now shape.now × (count_of shape.now < 2 ^ 64))
        (number_of indices.now shape.now) }
{
    if indices.len() != shape.len() {
        return None;
    }
    let mut number = 0;
    let mut stride = 1u64;
    for axis in (0..shape.len()).rev() {
        let index = indices[axis];
        if index >= shape[axis] {
            return None;
        }
        let longer = stride.checked_mul(shape[axis])?;
        number += index * stride;
        stride = longer;
    }
    Some(number)
}

// Writes the coordinate of a shape with a row-major number. `total` is the shape's count.
fn write_point(point: &mut [u64], number: u64, total: u64, shape: &[u64])
    requires axes { length point.old ≡ length shape.now }
    requires total { total ≡ count_of shape.now }
    requires below { number < count_of shape.now }
    ensures { point.new ≡ point_of number shape.now }
{
    let mut rest = number;
    let mut stride = total;
    for axis in 0..shape.len() {
        stride /= shape[axis];
        point[axis] = rest / stride;
        rest %= stride;
    }
}

/// The coordinate of a shape with a row-major (C order) number. `None` where the number is not below the
/// shape's count, or the count passes `u64::MAX`. Refused only as out of memory.
pub fn unravel_index(
    alloc: Global,
    number: u64,
    shape: &[u64],
) -> Result<Option<Vec<u64>>, AllocError>
    ensures { IfOk result (λ found. MatchOption found
        (¬ HasPoint number shape.now)
        (λ point. HasPoint number shape.now × (point.items ≡ point_of number shape.now))) }
{
    let Some(total) = count(shape) else {
        return Ok(None);
    };
    if number >= total {
        return Ok(None);
    }
    let mut point = Vec::from_elem(alloc, 0, shape.len())?;
    write_point(&mut point, number, total, shape);
    Ok(Some(point))
}

/// The number along an axis of the coordinate of a shape with a row-major (C order) number. Takes no memory.
pub fn number_along(number: u64, shape: &[u64], axis: usize) -> u64
    requires inside { number < count_of shape.now }
    requires on_axis { axis < length shape.now }
    ensures { result ≡ slice_index (point_of number shape.now) axis }
{
    let mut rest = number;
    for later in (axis + 1..shape.len()).rev() {
        rest /= shape[later];
    }
    rest % shape[axis]
}
