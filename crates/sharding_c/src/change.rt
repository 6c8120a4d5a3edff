// How an object is written: whole shards, compactions, and writes over subsets.
ghost use Rattle.std.specs.Prelude.{◌≡◌, ◌≢◌, ◌+◌, ◌*◌, IfOk, IfErr, OnErr, length};
ghost use Rattle.sharding_format.specs.Index.{slot_at};
ghost use Rattle.sharding_format.specs.Compacting.{present_size};
ghost use Rattle.sharding_plans.specs.PackedShards.{slots_of_sizes};
ghost use Rattle.sharding_c.specs.Layouts.{index_size, subchunks_of};
ghost use Rattle.sharding_c.specs.Changes.{CompactionTests, IsPackedWritten, IsWriteWritten, LayOutTests, WriteTests, kind_of};

use crate::layout::{Change, Layout, Stored, Subset, place_of, shard_of, subset_of};
use crate::plan::write_front;
use crate::status::Refusal;
use sharding_plans::{IndexNumbers, Outcome};
use std::alloc::Global;

/// How many numbers the index has, how many bytes the object, and how it is written.
#[derive(Clone, Copy)]
pub(crate) struct Planned {
    pub room: u64,
    pub object_size: u64,
    pub kind: u32,
}

impl Planned {
    /// Tells what was planned.
    pub(crate) fn tell(&self, change: &mut Change)
        ensures { change.new ≡ record { room = self.now.room; subchunk = change.old.subchunk; object_size = self.now.object_size; kind = self.now.kind } }
    {
        change.room = self.room;
        change.object_size = self.object_size;
        change.kind = self.kind;
    }
}

// How an object is written, as a number.
fn kind_of(outcome: Outcome) -> u32
    ensures { result ≡ kind_of outcome }
{
    match outcome {
        Outcome::Erase => 1,
        Outcome::Anew => 2,
        Outcome::Append => 3,
    }
}

/// Writes the numbers of the index of a shard of encoded subchunks of these sizes. Refused, in this order, as the layout is, `RoomTooSmall`,
/// and as `PlannedShard::lay_out` refuses; nothing is written then.
pub(crate) fn lay_out(
    alloc: Global,
    layout: &Layout,
    sizes: &[u64],
    room: &mut [u64],
) -> Result<Planned, Refusal>
    ensures laid { IfOk result (λ planned. IsPackedWritten layout.now (slots_of_sizes sizes.now) room.old room.new planned.object_size) }
    ensures told { IfOk result (λ planned. (planned.room ≡ 2 * subchunks_of layout.now) × (planned.kind ≡ 2)) }
    ensures length { length room.new ≡ length room.old }
    ensures kept { OnErr result (room.new ≡ room.old) }
    ensures refused { IfErr result (LayOutTests layout.now sizes.now (length room.old)) }
{
    let shard = shard_of(alloc, layout)?;
    let many = 2 * shard.subchunks;
    if many > room.len() as u64 {
        return Err(Refusal::RoomTooSmall { room: many });
    }
    let place = place_of(layout, shard.index_size);
    let packed = shard.grid.lay_out(alloc, sizes, place)?;
    write_front(&packed.numbers, room);
    Ok(Planned {
        room: many,
        object_size: packed.len,
        kind: 2,
    })
}

/// Writes the numbers of the index of a compacted shard, or nothing where the shard is compact: the kind is 2, or 0. Refused, in this order, as
/// the layout is, `RoomTooSmall`, and as `PlannedShard::plan_compaction` refuses; nothing is written then.
pub(crate) fn compact(
    alloc: Global,
    layout: &Layout,
    stored: &Stored,
    room: &mut [u64],
) -> Result<Planned, Refusal>
    ensures planned { IfOk result (λ planned. planned.kind ≡ 2 → IsPackedWritten layout.now (slot_at stored.now.object_size stored.now.numbers.now) room.old room.new planned.object_size
        × (planned.object_size ≢ stored.now.object_size)) }
    ensures compact { IfOk result (λ planned. planned.kind ≢ 2 → (planned.kind ≡ 0) × (room.new ≡ room.old) × (planned.object_size ≡ stored.now.object_size)
        × (index_size layout.now.index (subchunks_of layout.now) + present_size (slot_at stored.now.object_size stored.now.numbers.now) (subchunks_of layout.now) ≡ stored.now.object_size)) }
    ensures told { IfOk result (λ planned. planned.room ≡ 2 * subchunks_of layout.now) }
    ensures length { length room.new ≡ length room.old }
    ensures kept { OnErr result (room.new ≡ room.old) }
    ensures refused { IfErr result (CompactionTests layout.now stored.now (length room.old)) }
{
    let shard = shard_of(alloc, layout)?;
    let many = 2 * shard.subchunks;
    if many > room.len() as u64 {
        return Err(Refusal::RoomTooSmall { room: many });
    }
    let place = place_of(layout, shard.index_size);
    let index = IndexNumbers {
        len: stored.object_size,
        numbers: stored.numbers,
    };
    let Some(packed) = shard.grid.plan_compaction(alloc, &index, place)? else {
        return Ok(Planned {
            room: many,
            object_size: stored.object_size,
            kind: 0,
        });
    };
    write_front(&packed.numbers, room);
    Ok(Planned {
        room: many,
        object_size: packed.len,
        kind: 2,
    })
}

/// Writes the numbers of the index after a write over a subset, of whose touched subchunks these are the sizes of the new encodings. Refused, in
/// this order, as the layout is, `RoomTooSmall`, `IncompatibleDimensionality` and `OutOfBounds` where start and shape are no subset, and as
/// `PlannedShard::plan_write` refuses; nothing is written then.
pub(crate) fn write(
    alloc: Global,
    layout: &Layout,
    stored: &Stored,
    subset: &Subset,
    sizes: &[u64],
    room: &mut [u64],
) -> Result<Planned, Refusal>
    ensures planned { IfOk result (λ planned. IsWriteWritten layout.now stored.now subset.now sizes.now room.old room.new planned.object_size planned.kind) }
    ensures told { IfOk result (λ planned. planned.room ≡ 2 * subchunks_of layout.now) }
    ensures length { length room.new ≡ length room.old }
    ensures kept { OnErr result (room.new ≡ room.old) }
    ensures refused { IfErr result (WriteTests layout.now stored.now subset.now sizes.now (length room.old)) }
{
    let shard = shard_of(alloc, layout)?;
    let many = 2 * shard.subchunks;
    if many > room.len() as u64 {
        return Err(Refusal::RoomTooSmall { room: many });
    }
    let place = place_of(layout, shard.index_size);
    let index = IndexNumbers {
        len: stored.object_size,
        numbers: stored.numbers,
    };
    let subset = subset_of(alloc, subset.start, subset.shape)?;
    let plan = shard.grid.plan_write(alloc, &index, place, &subset, sizes)?;
    write_front(&plan.numbers, room);
    Ok(Planned {
        room: many,
        object_size: plan.len,
        kind: kind_of(plan.outcome),
    })
}
