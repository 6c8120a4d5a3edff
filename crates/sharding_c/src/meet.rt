// The chunks of an array that a subset meets, as rows of numbers.
ghost use Rattle.std.specs.Prelude.{◌≡◌, IfOk, IfErr, OnOk, OnErr, length};
ghost use Rattle.parts_errors.specs.Order.{RefusedBy};
ghost use Rattle.sharding_plans.specs.Chunks.{IsChunked};
ghost use Rattle.sharding_c.specs.Meetings.{ArrayRefusals, IsMeetingWritten, MeetTests};

use crate::layout::{Subset, subset_of};
use crate::plan::{numbers_of_rows, write_front};
use crate::rows::rows_of_plan;
use crate::status::Refusal;
use parts_errors::CodecError;
use parts_subsets::ChunkShape;
use sharding_plans::PlannedArray;
use std::alloc::Global;

// The chunks of an array. Refused, in this order, as `IncompatibleDimensionality` where the numbers of axes differ, `InvalidSubchunkShape`
// where an axis of a chunk is 0, `TooLarge` where all chunks have 2^64 elements or more, or are 2^60 or more; or as `OutOfMemory`.
fn array_of(alloc: Global, shape: &[u64], chunk_shape: &[u64]) -> Result<PlannedArray, CodecError>
    ensures shape { IfOk result (λ array. array.shape.items ≡ shape.now) }
    ensures chunk_shape { IfOk result (λ array. array.chunks.subchunk_shape ≡ chunk_shape.now) }
    ensures chunked { OnOk result (IsChunked shape.now chunk_shape.now) }
    ensures refused { IfErr result (RefusedBy (ArrayRefusals shape.now chunk_shape.now)) }
{
    if shape.len() != chunk_shape.len() {
        return Err(CodecError::IncompatibleDimensionality);
    }
    let Some(chunk_shape) = ChunkShape::new(alloc, chunk_shape)? else {
        return Err(CodecError::InvalidSubchunkShape);
    };
    let array = PlannedArray::new(alloc, shape, chunk_shape)?;
    Ok(array)
}

/// Writes the rows of the chunks that a subset of an array meets, and returns how many they are. Refused, in this order, as the chunks are
/// (`IncompatibleDimensionality`, `InvalidSubchunkShape`, `TooLarge`), as the subset is (`IncompatibleDimensionality`, `OutOfBounds`),
/// `TooLarge` where the rows have 2^64 numbers or more, and `RoomTooSmall`; nothing is written then.
pub(crate) fn meet_chunks(
    alloc: Global,
    shape: &[u64],
    chunk_shape: &[u64],
    subset: &Subset,
    room: &mut [u64],
) -> Result<u64, Refusal>
    ensures met { IfOk result (IsMeetingWritten shape.now chunk_shape.now subset.now room.old room.new) }
    ensures length { length room.new ≡ length room.old }
    ensures kept { OnErr result (room.new ≡ room.old) }
    ensures refused { IfErr result (MeetTests shape.now chunk_shape.now subset.now (length room.old)) }
{
    let array = array_of(alloc, shape, chunk_shape)?;
    let subset = subset_of(alloc, subset.start, subset.shape)?;
    let touched = array.touched_chunks(alloc, &subset)?;
    let Some(needed) = numbers_of_rows(touched.len(), shape.len()) else {
        return Err(Refusal::Codec(CodecError::TooLarge));
    };
    if needed > room.len() as u64 {
        return Err(Refusal::RoomTooSmall { room: needed });
    }
    let plan = array.plan_chunks(alloc, &subset, &touched)?;
    let rows = rows_of_plan(alloc, &plan)?;
    write_front(&rows, room);
    Ok(touched.len() as u64)
}
