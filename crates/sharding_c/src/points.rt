// Plans of reads of listed elements as rows and places.
ghost use Rattle.std.specs.Prelude.{◌≡◌, ◌<◌, ◌/◌, ◌++◌, [], IfOk, IfErr, OnOk, OnErr, length, map, slice_index, slice_index_or};
ghost use Rattle.parts_errors.specs.Order.{◌or◌then◌, done, RefusedBy};
ghost use Rattle.parts_errors.specs.declared.error.CodecError.TheVariants.{InvalidNumberOfElements, OutOfMemory};
ghost use Rattle.parts_subsets.specs.Selections.{points_from};
ghost use Rattle.sharding_c.specs.Points.{HasPoints, HasStandings, IsListingWritten, PointTests, TellsBad, places_of, point_row, point_rows};

use crate::layout::{Layout, Stored, shard_of};
use crate::plan::{Planned, write_front};
use crate::status::Refusal;
use parts_errors::CodecError;
use parts_subsets::Coordinates;
use sharding_format::Slot;
use sharding_gather::{Grouping, Standing};
use sharding_plans::IndexNumbers;
use std::alloc::{AllocError, Global};

// The coordinates of points, for which there is this count of numbers of places. Refused as `InvalidNumberOfElements` where there are other than
// two numbers of places for each point; or as `OutOfMemory`.
fn points_of(
    alloc: Global,
    axes: usize,
    numbers: &[u64],
    places: usize,
) -> Result<Coordinates, CodecError>
    ensures points { IfOk result (λ points. points ≡ points_from axes (places / 2) numbers.now) }
    ensures counted { OnOk result (HasPoints axes (length numbers.now) places) }
    ensures refused { IfErr result (RefusedBy (HasPoints axes (length numbers.now) places or InvalidNumberOfElements then done)) }
{
    if places % 2 != 0 {
        return Err(CodecError::InvalidNumberOfElements);
    }
    let flat = Vec::from_slice(alloc, numbers)?;
    match Coordinates::new(axes, places as u64 / 2, flat) {
        Some(points) => Ok(points),
        None => Err(CodecError::InvalidNumberOfElements),
    }
}

// Adds the row of a subchunk.
fn push_point_row(rows: &mut Vec<u64>, number: u64, slot: Slot) -> Result<(), AllocError>
    ensures { OnOk result (rows.new.items ≡ rows.old.items ++ point_row number slot) }
{
    let (offset, size) = match slot {
        Slot::InRange { offset, size } => (offset, size),
        _ => (u64::MAX, u64::MAX),
    };
    rows.extend_from_slice(&[number, offset, size])
}

// The rows of some subchunks.
fn rows_of_points(alloc: Global, subchunks: &[u64], slots: &[Slot]) -> Result<Vec<u64>, CodecError>
    requires { length slots.now ≡ length subchunks.now }
    ensures refused { IfErr result (λ e. e ≡ OutOfMemory) }
    ensures rows { IfOk result (λ rows. rows.items ≡ point_rows subchunks.now slots.now (length subchunks.now)) }
{
    let mut rows = Vec::new(alloc);
    for j in 0..subchunks.len() {
        push_point_row(&mut rows, subchunks[j], slots[j])?;
    }
    Ok(rows)
}

// The lowest of some subchunks whose index entry is bad.
fn first_bad(subchunks: &[u64], slots: &[Slot]) -> Option<u64>
    requires { length slots.now ≡ length subchunks.now }
    ensures { TellsBad subchunks.now slots.now result }
{
    for j in 0..slots.len() {
        if slots[j] == Slot::Bad {
            return Some(subchunks[j]);
        }
    }
    None
}

// The position of an element in its subchunk.
fn position_of(positions: &[Vec<u64>], at: Standing) -> u64
    requires group { at.group < length positions.now }
    requires rank { at.rank < length (slice_index_or (map (λ list. list.items) positions.now) at.group []) }
    ensures { result ≡ slice_index (slice_index_or (map (λ list. list.items) positions.now) at.group []) at.rank }
{
    let list = &positions[at.group];
    list[at.rank]
}

// The places of listed elements: for each the place of its row, and its position in the subchunk.
fn places_of_elements(alloc: Global, elements: &Grouping) -> Result<Vec<u64>, CodecError>
    requires { HasStandings elements.now }
    ensures refused { IfErr result (λ e. e ≡ OutOfMemory) }
    ensures places { IfOk result (λ places. places.items ≡ places_of elements.now (length elements.now.standings.items)) }
{
    let mut places = Vec::new(alloc);
    for i in 0..elements.standings.len() {
        let at = elements.standings[i];
        let position = position_of(&elements.positions, at);
        places.extend_from_slice(&[at.group as u64, position])?;
    }
    Ok(places)
}

/// Writes the rows of the subchunks in which listed elements lie, and for each element two numbers of its place: that of its row, and its
/// row-major number in the subchunk. Refused, in this order, as the layout is, `InvalidNumberOfElements` where there are other than two
/// numbers of places for each element, `OutOfBounds`, `InvalidNumberOfElements` where there are other than two numbers for each subchunk, and
/// `RoomTooSmall`; nothing is written then.
pub(crate) fn plan_points(
    alloc: Global,
    layout: &Layout,
    stored: &Stored,
    points: &[u64],
    rows: &mut [u64],
    places: &mut [u64],
) -> Result<Planned, Refusal>
    ensures planned { IfOk result (λ planned. IsListingWritten layout.now stored.now points.now rows.old rows.new places.new planned.rows planned.bad) }
    ensures length { (length rows.new ≡ length rows.old) × (length places.new ≡ length places.old) }
    ensures kept { OnErr result ((rows.new ≡ rows.old) × (places.new ≡ places.old)) }
    ensures refused { IfErr result (PointTests layout.now stored.now points.now (length rows.old) (length places.old)) }
{
    let shard = shard_of(alloc, layout)?;
    let listed = points_of(alloc, layout.shape.len(), points, places.len())?;
    let index = IndexNumbers {
        len: stored.object_size,
        numbers: stored.numbers,
    };
    let plan = shard.grid.plan_listed(alloc, &index, &listed)?;
    let needed = 3 * plan.slots.len() as u64;
    if needed > rows.len() as u64 {
        return Err(Refusal::RoomTooSmall { room: needed });
    }
    let made = rows_of_points(alloc, &plan.elements.subchunks, &plan.slots)?;
    let placed = places_of_elements(alloc, &plan.elements)?;
    write_front(&made, rows);
    places.copy_from_slice(&placed);
    Ok(Planned {
        rows: plan.slots.len() as u64,
        bad: first_bad(&plan.elements.subchunks, &plan.slots),
    })
}
