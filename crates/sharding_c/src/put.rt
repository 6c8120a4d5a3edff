// Parts of a plan put into an answer, by their rows.
ghost use Rattle.std.specs.Prelude.{◌≡◌, ◌↔◌, ◌≤◌, ◌+◌, ◌*◌, IsTrue, IfOk, IfErr, OnOk, OnErr, length, take, drop};
ghost use Rattle.parts_errors.specs.Order.{RefusedBy, done};
ghost use Rattle.parts_row_major.specs.Subsets.{IsSubset};
ghost use Rattle.sharding_c.specs.Layouts.{StartRefusals};
ghost use Rattle.sharding_c.specs.Rows.{row_length, in_subchunk, in_answer};
ghost use Rattle.sharding_c.specs.Exports.{RowPutRefusals, RowFillRefusals, RowUpdateRefusals};
ghost use Rattle.sharding_plans.specs.Puts.{IsPut, IsFilled};

use crate::layout::{Layout, subset_of};
use parts_errors::CodecError;
use parts_subsets::ArraySubset;
use sharding_plans::{Part, fill_part, put_part};
use std::alloc::Global;

// The part that a row tells, whose start stands at a place of the row.
fn part_at(alloc: Global, row: &[u64], place: usize, axes: usize) -> Result<ArraySubset, CodecError>
    requires row { length row.now ≡ row_length axes }
    requires place { place ≤ 3 + axes }
    ensures part { IfOk result (λ part. part ≡ record { start = take axes (drop place row.now); shape = take axes (drop (3 + 2 * axes) row.now) }) }
    ensures passed { OnOk result (IsSubset (take axes (drop place row.now)) (take axes (drop (3 + 2 * axes) row.now))) }
    ensures refused { IfErr result (RefusedBy (StartRefusals (take axes (drop place row.now)) (take axes (drop (3 + 2 * axes) row.now)) done)) }
{
    let lengths = 3 + 2 * axes;
    subset_of(
        alloc,
        &row[place..place + axes],
        &row[lengths..lengths + axes],
    )
}

// Whether a row has the numbers of this number of axes.
fn has_axes(row: &[u64], axes: usize) -> bool
    ensures { IsTrue result ↔ (length row.now ≡ row_length axes) }
{
    row.len() >= 3 && (row.len() - 3) % 3 == 0 && (row.len() - 3) / 3 == axes
}

/// Puts a row's part of a decoded subchunk into an answer. Refused, in this order, as `IncompatibleDimensionality` where the row or the
/// answer's shape has other axes than the layout's subchunk shape, `OutOfBounds` where a part ends past 2^64, and as `put_part` refuses; or
/// as `OutOfMemory`.
pub(crate) fn put_row(
    alloc: Global,
    layout: &Layout,
    row: &[u64],
    decoded: &[u8],
    answer_shape: &[u64],
    answer: &mut [u8],
) -> Result<(), CodecError>
    ensures put { let axes = length answer_shape.now in
        OnOk result (IsPut layout.now.element_size (in_subchunk axes row.now) layout.now.subchunk_shape.now (in_answer axes row.now) answer_shape.now decoded.now answer.old answer.new) }
    ensures length { length answer.new ≡ length answer.old }
    ensures kept { OnErr result (answer.new ≡ answer.old) }
    ensures refused { IfErr result (RefusedBy (RowPutRefusals layout.now row.now (length decoded.now) answer_shape.now (length answer.old))) }
{
    let axes = answer_shape.len();
    if !has_axes(row, axes) {
        return Err(CodecError::IncompatibleDimensionality);
    }
    let from = part_at(alloc, row, 3, axes)?;
    let into = part_at(alloc, row, 3 + axes, axes)?;
    let from = Part {
        shape: layout.subchunk_shape,
        subset: &from,
    };
    let into = Part {
        shape: answer_shape,
        subset: &into,
    };
    put_part(answer, &into, decoded, &from, layout.element_size as usize)
}

/// Fills a row's part of an answer with an element. Refused, in this order, as `IncompatibleDimensionality` where the row has other axes
/// than the answer's shape, `OutOfBounds` where the part ends past 2^64, and as `fill_part` refuses; or as `OutOfMemory`.
pub(crate) fn fill_row(
    alloc: Global,
    row: &[u64],
    element: &[u8],
    answer_shape: &[u64],
    answer: &mut [u8],
) -> Result<(), CodecError>
    ensures filled { let axes = length answer_shape.now in
        OnOk result (IsFilled element.now (in_answer axes row.now) answer_shape.now answer.old answer.new) }
    ensures length { length answer.new ≡ length answer.old }
    ensures kept { OnErr result (answer.new ≡ answer.old) }
    ensures refused { IfErr result (RefusedBy (RowFillRefusals row.now (length element.now) answer_shape.now (length answer.old))) }
{
    let axes = answer_shape.len();
    if !has_axes(row, axes) {
        return Err(CodecError::IncompatibleDimensionality);
    }
    let into = part_at(alloc, row, 3 + axes, axes)?;
    let into = Part {
        shape: answer_shape,
        subset: &into,
    };
    fill_part(answer, &into, element)
}

/// Puts a row's part of an update, an array of `update_shape`, into a decoded subchunk. Refused, in this order, as `IncompatibleDimensionality`
/// where the row or the layout's subchunk shape has other axes than the update's shape, `OutOfBounds` where a part ends past 2^64, and as
/// `put_part` refuses; or as `OutOfMemory`.
pub(crate) fn update_row(
    alloc: Global,
    layout: &Layout,
    row: &[u64],
    update: &[u8],
    update_shape: &[u64],
    decoded: &mut [u8],
) -> Result<(), CodecError>
    ensures put { let axes = length update_shape.now in
        OnOk result (IsPut layout.now.element_size (in_answer axes row.now) update_shape.now (in_subchunk axes row.now) layout.now.subchunk_shape.now update.now decoded.old decoded.new) }
    ensures length { length decoded.new ≡ length decoded.old }
    ensures kept { OnErr result (decoded.new ≡ decoded.old) }
    ensures refused { IfErr result (RefusedBy (RowUpdateRefusals layout.now row.now (length update.now) update_shape.now (length decoded.old))) }
{
    let axes = update_shape.len();
    if !has_axes(row, axes) {
        return Err(CodecError::IncompatibleDimensionality);
    }
    let from = part_at(alloc, row, 3 + axes, axes)?;
    let into = part_at(alloc, row, 3, axes)?;
    let from = Part {
        shape: update_shape,
        subset: &from,
    };
    let into = Part {
        shape: layout.subchunk_shape,
        subset: &into,
    };
    put_part(decoded, &into, update, &from, layout.element_size as usize)
}
