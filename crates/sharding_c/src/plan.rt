// Plans of reads as rows of numbers.
ghost use Rattle.std.specs.Prelude.{◌≡◌, ◌≤◌, ◌*◌, ◌^◌, ◌<◌, ◌++◌, SomeIff, IfOk, IfErr, OnOk, OnErr, length, drop};
ghost use Rattle.sharding_c.specs.Layouts.{IsLaidOut};
ghost use Rattle.sharding_c.specs.Rows.{row_length};
ghost use Rattle.sharding_c.specs.Exports.{IsPlanWritten, PlanTests};

use crate::layout::{Layout, Subset, shard_of, subset_of};
use crate::rows::rows_of_plan;
use crate::status::Refusal;
use parts_errors::CodecError;
use sharding_plans::IndexNumbers;
use std::alloc::Global;

/// How many rows were written, and the lowest touched subchunk whose index entry is bad.
#[derive(Clone, Copy)]
pub(crate) struct Planned {
    pub rows: u64,
    pub bad: Option<u64>,
}

// How many numbers these rows have, or `None` past 2^64.
pub(crate) fn numbers_of_rows(rows: usize, axes: usize) -> Option<u64>
    ensures { SomeIff result (row_length axes < 2 ^ 64 × rows * row_length axes < 2 ^ 64) (rows * row_length axes) }
{
    let numbers = (axes as u64).checked_mul(3)?.checked_add(3)?;
    numbers.checked_mul(rows as u64)
}

// Writes numbers to the front of a room.
pub(crate) fn write_front(numbers: &[u64], room: &mut [u64])
    requires { length numbers.now ≤ length room.old }
    ensures { room.new ≡ numbers.now ++ drop (length numbers.now) room.old }
{
    room[..numbers.len()].copy_from_slice(numbers);
}

/// Writes the rows of a read of a subset, one for each subchunk that it touches, up to the first whose index entry is bad. Refused, in this
/// order, as the layout is, as the subset is (`IncompatibleDimensionality`, `OutOfBounds`), `TooLarge` where the rows have 2^64 numbers or
/// more, `RoomTooSmall`, and `InvalidNumberOfElements` where there are other than two numbers for each subchunk; nothing is written then.
pub(crate) fn plan_subset(
    alloc: Global,
    layout: &Layout,
    len: u64,
    numbers: &[u64],
    subset: &Subset,
    room: &mut [u64],
) -> Result<Planned, Refusal>
    ensures plan { IfOk result (λ planned. IsPlanWritten layout.now len numbers.now subset.now room.old room.new planned.rows planned.bad) }
    ensures laid { OnOk result (IsLaidOut layout.now) }
    ensures length { length room.new ≡ length room.old }
    ensures kept { OnErr result (room.new ≡ room.old) }
    ensures refused { IfErr result (PlanTests layout.now numbers.now subset.now (length room.old)) }
{
    let shard = shard_of(alloc, layout)?;
    let subset = subset_of(alloc, subset.start, subset.shape)?;
    let touched = shard.grid.touched_subchunks(alloc, &subset)?;
    let Some(needed) = numbers_of_rows(touched.len(), layout.shape.len()) else {
        return Err(Refusal::Codec(CodecError::TooLarge));
    };
    if needed > room.len() as u64 {
        return Err(Refusal::RoomTooSmall { room: needed });
    }
    let index = IndexNumbers { len, numbers };
    let plan = shard.grid.plan_touched(alloc, &index, &subset, &touched)?;
    let rows = rows_of_plan(alloc, &plan)?;
    write_front(&rows, room);
    Ok(Planned {
        rows: plan.parts.len() as u64,
        bad: plan.bad,
    })
}
