// The rows of a plan: numbers, so that C can walk them and languages above it can take them as a matrix.
ghost use Rattle.std.specs.Prelude.{◌≡◌, ◌++◌, IfOk, IfErr, OnOk};
ghost use Rattle.parts_errors.specs.declared.error.CodecError.TheVariants.{OutOfMemory};
ghost use Rattle.sharding_c.specs.Rows.{row_of, rows_of};

use parts_errors::CodecError;
use sharding_format::Slot;
use sharding_plans::{ReadPart, ReadPlan};
use std::alloc::{AllocError, Global};

// Adds the row of a part.
fn push_row(rows: &mut Vec<u64>, part: &ReadPart) -> Result<(), AllocError>
    ensures { OnOk result (rows.new.items ≡ rows.old.items ++ row_of part.now) }
{
    let (offset, size) = match part.slot {
        Slot::InRange { offset, size } => (offset, size),
        _ => (u64::MAX, u64::MAX),
    };
    rows.extend_from_slice(&[part.number, offset, size])?;
    rows.extend_from_slice(part.overlap.in_subchunk.start())?;
    rows.extend_from_slice(part.overlap.in_subset.start())?;
    rows.extend_from_slice(part.overlap.in_subset.shape())
}

/// The rows of a plan, one after the other. Refused only as out of memory.
pub(crate) fn rows_of_plan(alloc: Global, plan: &ReadPlan) -> Result<Vec<u64>, CodecError>
    ensures rows { IfOk result (λ rows. rows.items ≡ rows_of plan.now.parts.items) }
    ensures refused { IfErr result (λ e. e ≡ OutOfMemory) }
{
    let mut rows = Vec::new(alloc);
    for part in &plan.parts {
        push_row(&mut rows, part)?;
    }
    Ok(rows)
}
