// The calls of the C library. Each is one of this crate's own, whose refusal a status says; `zarr_sharding.h` says them in C's words.
ghost use Rattle.std.specs.Prelude.{◌≡◌, ◌≢◌, ◌<◌, ◌≤◌, ◌+◌, ◌*◌, ◌++◌, ◌∷◌, Some, None, length, drop};
ghost use Rattle.sharding_format.specs.Index.{slot_at};
ghost use Rattle.sharding_format.specs.Compacting.{present_size};
ghost use Rattle.sharding_c.specs.Statuses.{IsRefused, IsRefusedChanging, IsRefusedTelling, status_name};
ghost use Rattle.sharding_c.specs.Changes.{CompactionTests, IsPackedWritten, IsWriteWritten, LayOutTests, WriteTests};
ghost use Rattle.sharding_plans.specs.PackedShards.{slots_of_sizes};
ghost use Rattle.sharding_c.specs.Layouts.{AreIndexNumbers, IsIndex, IsIndexRange, IsLaidOut, index_bytes, index_size, subchunks_of};
ghost use Rattle.sharding_c.specs.Rows.{in_answer, in_subchunk};
ghost use Rattle.sharding_c.specs.Exports.{FillTests, IndexRangeTests, IndexReadTests, IndexWriteTests, IsPlanWritten, PlanTests, PutTests, UpdateTests};
ghost use Rattle.sharding_c.specs.Checks.{CheckTests, IsChecked};
ghost use Rattle.sharding_c.specs.Meetings.{IsMeetingWritten, MeetTests};
ghost use Rattle.sharding_c.specs.Points.{IsListingWritten, PointTests};
ghost use Rattle.sharding_c.specs.Fetching.{AreFetchesWritten, FetchTests};
ghost use Rattle.sharding_plans.specs.Puts.{IsFilled, IsPut};

use crate::change::{compact, lay_out, write};
use crate::check::check_index;
use crate::fetch::fetch_slices;
use crate::index::{index_range, read_index, write_index};
use crate::layout::{Change, Layout, Range, Stored, Subset, Told};
use crate::meet::meet_chunks;
use crate::plan::plan_subset;
use crate::points::plan_points;
use crate::put::{fill_row, put_row, update_row};
use crate::status::name_of;
use std::alloc::Global;

/// The version of the header's structs and signatures.
#[unsafe(no_mangle)]
pub extern "C" fn zs_version() -> u32
    ensures { result ≡ 1 }
{
    1
}

/// The bytes of an object of `object_size` bytes that are its index (Zarr V3 `sharding_indexed`, "Binary shard format"). Refused, in this order, as
/// `BadFlags`, `IncompatibleDimensionality`, `InvalidSubchunkShape`, `TooLarge` and `ShardTooShort`; or as `OutOfMemory`.
#[unsafe(no_mangle)]
pub extern "C" fn zs_index_range(
    alloc: Global,
    layout: &Layout,
    object_size: u64,
    range: &mut Range,
) -> u32
    ensures range { result ≡ 0 → IsIndexRange layout.now object_size range.new }
    ensures laid { result ≡ 0 → IsLaidOut layout.now }
    ensures kept { result ≢ 0 → range.new ≡ range.old }
    ensures refused { result ≢ 0 → IsRefused (IndexRangeTests layout.now object_size) result }
{
    match index_range(alloc, layout, object_size) {
        Ok(found) => {
            *range = found;
            0
        }
        Err(refusal) => refusal.status(),
    }
}

/// What each entry of an index says: 0 where the subchunk is absent, 1 where its slice lies in the data part, 2 where one of its numbers alone
/// is 2^64 - 1, and 3 where its slice does not lie in the data part. `told.room` is how many they are, also where the room is too small.
/// Refused, in this order, as the layout is, as `InvalidNumberOfElements`, and `RoomTooSmall`; or as `OutOfMemory`.
#[unsafe(no_mangle)]
pub extern "C" fn zs_check(
    alloc: Global,
    layout: &Layout,
    stored: &Stored,
    kinds: &mut [u8],
    told: &mut Told,
) -> u32
    ensures checked { result ≡ 0 → IsChecked layout.now stored.now kinds.old kinds.new }
    ensures told { result ≡ 0 → told.new ≡ record { room = subchunks_of layout.now; subchunk = told.old.subchunk } }
    ensures length { length kinds.new ≡ length kinds.old }
    ensures kept { result ≢ 0 → kinds.new ≡ kinds.old }
    ensures refused { result ≢ 0 → IsRefusedTelling (CheckTests layout.now stored.now (length kinds.old)) result told.old told.new }
{
    match check_index(alloc, layout, stored, kinds) {
        Ok(count) => {
            told.room = count;
            0
        }
        Err(refusal) => {
            refusal.tell(told);
            refusal.status()
        }
    }
}

/// The numbers of an index, two for each subchunk in row-major order, at the front of a room; `told.room` is how many they are, also where
/// the room is too small. Refused, in this order, as the layout is, as `RoomTooSmall`, and as `Damaged` where the bytes are no index.
#[unsafe(no_mangle)]
pub extern "C" fn zs_index_read(
    alloc: Global,
    layout: &Layout,
    index: &[u8],
    numbers: &mut [u64],
    told: &mut Told,
) -> u32
    ensures numbers { result ≡ 0 → AreIndexNumbers layout.now.index (2 * subchunks_of layout.now) index.now numbers.old numbers.new }
    ensures index { result ≡ 0 → IsIndex layout.now.index (subchunks_of layout.now) index.now }
    ensures told { result ≡ 0 → told.new ≡ record { room = 2 * subchunks_of layout.now; subchunk = told.old.subchunk } }
    ensures length { length numbers.new ≡ length numbers.old }
    ensures kept { result ≢ 0 → numbers.new ≡ numbers.old }
    ensures refused { result ≢ 0 → IsRefusedTelling (IndexReadTests layout.now index.now (length numbers.old)) result told.old told.new }
{
    match read_index(alloc, layout, index, numbers) {
        Ok(many) => {
            told.room = many;
            0
        }
        Err(refusal) => {
            refusal.tell(told);
            refusal.status()
        }
    }
}

/// The rows of a read of a subset: for each subchunk that it touches where its slice is, where its part starts in the subchunk and in the
/// answer, and the part's shape. `told.room` is the count of rows, or of the numbers that need room. Where the index entry of a touched
/// subchunk is bad the status is 9, `told.subchunk` is the lowest of their numbers, and the rows are those before it. Refused, in this
/// order, as the layout is, as the subset is, as `TooLarge`, `RoomTooSmall`, and `InvalidNumberOfElements`; or as `OutOfMemory`.
#[unsafe(no_mangle)]
pub extern "C" fn zs_plan_subset(
    alloc: Global,
    layout: &Layout,
    object_size: u64,
    numbers: &[u64],
    subset: &Subset,
    plan: &mut [u64],
    told: &mut Told,
) -> u32
    ensures planned { result ≡ 0 → IsPlanWritten layout.now object_size numbers.now subset.now plan.old plan.new told.new.room None }
    ensures bad { result ≡ 9 → IsPlanWritten layout.now object_size numbers.now subset.now plan.old plan.new told.new.room (Some told.new.subchunk) }
    ensures told { result ≡ 0 → told.new.subchunk ≡ told.old.subchunk }
    ensures length { length plan.new ≡ length plan.old }
    ensures kept { result ≢ 0 → result ≢ 9 → plan.new ≡ plan.old }
    ensures refused { result ≢ 0 → result ≢ 9 → IsRefusedTelling (PlanTests layout.now numbers.now subset.now (length plan.old)) result told.old told.new }
{
    match plan_subset(alloc, layout, object_size, numbers, subset, plan) {
        Ok(planned) => {
            told.room = planned.rows;
            match planned.bad {
                None => 0,
                Some(subchunk) => {
                    told.subchunk = subchunk;
                    9
                }
            }
        }
        Err(refusal) => {
            refusal.tell(told);
            refusal.status()
        }
    }
}

/// A read of listed elements, whose coordinates stand one after the other: for each subchunk in which one lies, ascending, a row of its number
/// and where its slice is; and for each element two numbers of its place: that of its row among these, and its row-major number in the subchunk.
/// `told.room` is the count of rows, or of the numbers that need room. Where the index entry of such a subchunk is bad the status is 9, and
/// `told.subchunk` the lowest of their numbers; all is written then. Refused, in this order, as the layout is, as `InvalidNumberOfElements`
/// where there are other than two numbers of places for each element, `OutOfBounds`, `InvalidNumberOfElements` for the index, and
/// `RoomTooSmall`; or as `OutOfMemory`.
#[unsafe(no_mangle)]
pub extern "C" fn zs_plan_points(
    alloc: Global,
    layout: &Layout,
    stored: &Stored,
    points: &[u64],
    rows: &mut [u64],
    places: &mut [u64],
    told: &mut Told,
) -> u32
    ensures planned { result ≡ 0 → IsListingWritten layout.now stored.now points.now rows.old rows.new places.new told.new.room None }
    ensures bad { result ≡ 9 → IsListingWritten layout.now stored.now points.now rows.old rows.new places.new told.new.room (Some told.new.subchunk) }
    ensures told { result ≡ 0 → told.new.subchunk ≡ told.old.subchunk }
    ensures length { (length rows.new ≡ length rows.old) × (length places.new ≡ length places.old) }
    ensures kept { result ≢ 0 → result ≢ 9 → (rows.new ≡ rows.old) × (places.new ≡ places.old) }
    ensures refused { result ≢ 0 → result ≢ 9 → IsRefusedTelling (PointTests layout.now stored.now points.now (length rows.old) (length places.old)) result told.old told.new }
{
    match plan_points(alloc, layout, stored, points, rows, places) {
        Ok(planned) => {
            told.room = planned.rows;
            match planned.bad {
                None => 0,
                Some(subchunk) => {
                    told.subchunk = subchunk;
                    9
                }
            }
        }
        Err(refusal) => {
            refusal.tell(told);
            refusal.status()
        }
    }
}

/// The rows of the chunks of an array that a subset meets: for each the chunk's row-major number in the grid, 2^64 - 1 twice, where its part
/// starts in the chunk and in the answer, and the part's shape. `told.room` is the count of rows, or of the numbers that need room. Refused, in
/// this order, as `IncompatibleDimensionality`, `InvalidSubchunkShape` and `TooLarge` for the chunks, as the subset is, as `TooLarge`, and
/// `RoomTooSmall`; or as `OutOfMemory`.
#[unsafe(no_mangle)]
pub extern "C" fn zs_meet(
    alloc: Global,
    shape: &[u64],
    chunk_shape: &[u64],
    subset: &Subset,
    rows: &mut [u64],
    told: &mut Told,
) -> u32
    ensures met { result ≡ 0 → IsMeetingWritten shape.now chunk_shape.now subset.now rows.old rows.new told.new.room }
    ensures told { result ≡ 0 → told.new.subchunk ≡ told.old.subchunk }
    ensures length { length rows.new ≡ length rows.old }
    ensures kept { result ≢ 0 → rows.new ≡ rows.old }
    ensures refused { result ≢ 0 → IsRefusedTelling (MeetTests shape.now chunk_shape.now subset.now (length rows.old)) result told.old told.new }
{
    match meet_chunks(alloc, shape, chunk_shape, subset, rows) {
        Ok(count) => {
            told.room = count;
            0
        }
        Err(refusal) => {
            refusal.tell(told);
            refusal.status()
        }
    }
}

/// Puts a row's part of a decoded subchunk into an answer, an array of `answer_shape`. Rows may be put in any order, and again. Refused, in
/// this order, as `IncompatibleDimensionality`, `OutOfBounds`, `TooLarge`, `InvalidNumberOfElements`, `WrongElementKind`, `Damaged` where
/// `decoded` is no subchunk, and `InvalidNumberOfElements` where the answer has another length; or as `OutOfMemory`.
#[unsafe(no_mangle)]
pub extern "C" fn zs_put(
    alloc: Global,
    layout: &Layout,
    row: &[u64],
    decoded: &[u8],
    answer_shape: &[u64],
    answer: &mut [u8],
) -> u32
    ensures put { let axes = length answer_shape.now in
        result ≡ 0 → IsPut layout.now.element_size (in_subchunk axes row.now) layout.now.subchunk_shape.now (in_answer axes row.now) answer_shape.now decoded.now answer.old answer.new }
    ensures length { length answer.new ≡ length answer.old }
    ensures kept { result ≢ 0 → answer.new ≡ answer.old }
    ensures refused { result ≢ 0 → IsRefused (PutTests layout.now row.now (length decoded.now) answer_shape.now (length answer.old)) result }
{
    match put_row(alloc, layout, row, decoded, answer_shape, answer) {
        Ok(()) => 0,
        Err(error) => error.number() as u32,
    }
}

/// Fills a row's part of an answer with the fill value. Refused, in this order, as `IncompatibleDimensionality`, `OutOfBounds`, `TooLarge`,
/// `WrongElementKind`, and `InvalidNumberOfElements` where the answer has another length; or as `OutOfMemory`.
#[unsafe(no_mangle)]
pub extern "C" fn zs_put_fill(
    alloc: Global,
    row: &[u64],
    fill_value: &[u8],
    answer_shape: &[u64],
    answer: &mut [u8],
) -> u32
    ensures filled { let axes = length answer_shape.now in
        result ≡ 0 → IsFilled fill_value.now (in_answer axes row.now) answer_shape.now answer.old answer.new }
    ensures length { length answer.new ≡ length answer.old }
    ensures kept { result ≢ 0 → answer.new ≡ answer.old }
    ensures refused { result ≢ 0 → IsRefused (FillTests row.now (length fill_value.now) answer_shape.now (length answer.old)) result }
{
    match fill_row(alloc, row, fill_value, answer_shape, answer) {
        Ok(()) => 0,
        Err(error) => error.number() as u32,
    }
}

/// The ranges of an object in which slices are fetched: slices within `gap` bytes of one another are in one. They stand in front of a room,
/// ascending, and `told.room` is how many they are, also where the room is too small; and for each slice the number of its range, 2^64 - 1
/// where it is absent. Refused, in this order, as `BadIndexEntry` where a slice ends past 2^64, `InvalidNumberOfElements` where there is room
/// for the numbers of other than each slice, and `RoomTooSmall`; or as `OutOfMemory`.
#[unsafe(no_mangle)]
pub extern "C" fn zs_fetch_plan(
    alloc: Global,
    slices: &[Range],
    gap: u64,
    fetches: &mut [Range],
    fetch_of: &mut [u64],
    told: &mut Told,
) -> u32
    ensures fetches { result ≡ 0 → AreFetchesWritten gap slices.now fetches.old fetches.new fetch_of.new told.new.room }
    ensures told { result ≡ 0 → told.new.subchunk ≡ told.old.subchunk }
    ensures length { (length fetches.new ≡ length fetches.old) × (length fetch_of.new ≡ length fetch_of.old) }
    ensures kept { result ≢ 0 → (fetches.new ≡ fetches.old) × (fetch_of.new ≡ fetch_of.old) }
    ensures refused { result ≢ 0 → IsRefusedTelling (FetchTests gap slices.now (length fetch_of.old) (length fetches.old)) result told.old told.new }
{
    match fetch_slices(alloc, slices, gap, fetches, fetch_of) {
        Ok(count) => {
            told.room = count;
            0
        }
        Err(refusal) => {
            refusal.tell(told);
            refusal.status()
        }
    }
}

/// Puts a row's part of an update, an array of `update_shape`, into a decoded subchunk. Refused, in this order, as
/// `IncompatibleDimensionality`, `OutOfBounds`, `TooLarge`, `InvalidNumberOfElements`, `WrongElementKind`, `Damaged` where the update has
/// another length, and `InvalidNumberOfElements` where `decoded` is no subchunk; or as `OutOfMemory`.
#[unsafe(no_mangle)]
pub extern "C" fn zs_put_update(
    alloc: Global,
    layout: &Layout,
    row: &[u64],
    update: &[u8],
    update_shape: &[u64],
    decoded: &mut [u8],
) -> u32
    ensures put { let axes = length update_shape.now in
        result ≡ 0 → IsPut layout.now.element_size (in_answer axes row.now) update_shape.now (in_subchunk axes row.now) layout.now.subchunk_shape.now update.now decoded.old decoded.new }
    ensures length { length decoded.new ≡ length decoded.old }
    ensures kept { result ≢ 0 → decoded.new ≡ decoded.old }
    ensures refused { result ≢ 0 → IsRefused (UpdateTests layout.now row.now (length update.now) update_shape.now (length decoded.old)) result }
{
    match update_row(alloc, layout, row, update, update_shape, decoded) {
        Ok(()) => 0,
        Err(error) => error.number() as u32,
    }
}

/// Writes the bytes of an index of these numbers, with its checksum if it has one, to the front of a room; `told.room` is how many they are,
/// also where the room is too small. Refused, in this order, as the layout is, as `InvalidNumberOfElements`, and `RoomTooSmall`; or as
/// `OutOfMemory`.
#[unsafe(no_mangle)]
pub extern "C" fn zs_index_write(
    alloc: Global,
    layout: &Layout,
    numbers: &[u64],
    index: &mut [u8],
    told: &mut Told,
) -> u32
    ensures written { result ≡ 0 → index.new ≡ index_bytes layout.now.index numbers.now ++ drop (length (index_bytes layout.now.index numbers.now)) index.old }
    ensures counted { result ≡ 0 → length numbers.now ≡ 2 * subchunks_of layout.now }
    ensures told { result ≡ 0 → told.new ≡ record { room = length (index_bytes layout.now.index numbers.now); subchunk = told.old.subchunk } }
    ensures length { length index.new ≡ length index.old }
    ensures kept { result ≢ 0 → index.new ≡ index.old }
    ensures refused { result ≢ 0 → IsRefusedTelling (IndexWriteTests layout.now numbers.now (length index.old)) result told.old told.new }
{
    match write_index(alloc, layout, numbers, index) {
        Ok(size) => {
            told.room = size;
            0
        }
        Err(refusal) => {
            refusal.tell(told);
            refusal.status()
        }
    }
}

/// Lays out a shard of encoded subchunks of these sizes, of which 2^64 - 1 stands for one that is not stored: writes the numbers of its index,
/// which say where each goes. `change.object_size` is how long the object is, `change.kind` 2. Refused, in this order, as the layout is, as
/// `RoomTooSmall`, `InvalidNumberOfElements`, and `TooLarge`; or as `OutOfMemory`.
#[unsafe(no_mangle)]
pub extern "C" fn zs_lay_out(
    alloc: Global,
    layout: &Layout,
    sizes: &[u64],
    numbers: &mut [u64],
    change: &mut Change,
) -> u32
    ensures laid { result ≡ 0 → IsPackedWritten layout.now (slots_of_sizes sizes.now) numbers.old numbers.new change.new.object_size }
    ensures told { result ≡ 0 → change.new ≡ record { room = 2 * subchunks_of layout.now; subchunk = change.old.subchunk; object_size = change.new.object_size; kind = 2 } }
    ensures length { length numbers.new ≡ length numbers.old }
    ensures kept { result ≢ 0 → numbers.new ≡ numbers.old }
    ensures refused { result ≢ 0 → IsRefusedChanging (LayOutTests layout.now sizes.now (length numbers.old)) result change.old change.new }
{
    match lay_out(alloc, layout, sizes, numbers) {
        Ok(planned) => {
            planned.tell(change);
            0
        }
        Err(refusal) => {
            refusal.tell_change(change);
            refusal.status()
        }
    }
}

/// Plans a compaction: writes the numbers of the new index, and `change.kind` is 2; or nothing where the shard is compact, and it is 0. Each
/// present slice is to be copied from where the old index says to where the new one does. Refused, in this order, as the layout is, as
/// `RoomTooSmall`, `InvalidNumberOfElements`, `ShardTooShort`, `BadIndexEntry` for the lowest bad entry, and `TooLarge`; or as `OutOfMemory`.
#[unsafe(no_mangle)]
pub extern "C" fn zs_compact_plan(
    alloc: Global,
    layout: &Layout,
    stored: &Stored,
    numbers: &mut [u64],
    change: &mut Change,
) -> u32
    ensures planned { result ≡ 0 → change.new.kind ≡ 2 → IsPackedWritten layout.now (slot_at stored.now.object_size stored.now.numbers.now) numbers.old numbers.new change.new.object_size
        × (change.new.object_size ≢ stored.now.object_size) }
    ensures compact { result ≡ 0 → change.new.kind ≢ 2 → (change.new.kind ≡ 0) × (numbers.new ≡ numbers.old) × (change.new.object_size ≡ stored.now.object_size)
        × (index_size layout.now.index (subchunks_of layout.now) + present_size (slot_at stored.now.object_size stored.now.numbers.now) (subchunks_of layout.now) ≡ stored.now.object_size) }
    ensures told { result ≡ 0 → (change.new.room ≡ 2 * subchunks_of layout.now) × (change.new.subchunk ≡ change.old.subchunk) }
    ensures length { length numbers.new ≡ length numbers.old }
    ensures kept { result ≢ 0 → numbers.new ≡ numbers.old }
    ensures refused { result ≢ 0 → IsRefusedChanging (CompactionTests layout.now stored.now (length numbers.old)) result change.old change.new }
{
    match compact(alloc, layout, stored, numbers) {
        Ok(planned) => {
            planned.tell(change);
            0
        }
        Err(refusal) => {
            refusal.tell_change(change);
            refusal.status()
        }
    }
}

/// Plans a write over a subset, by the sizes of the new encodings of the subchunks that it touches, ascending: writes the numbers of the new
/// index, which say where each new slice goes. `change.kind` is 1 where the object is to be erased, 2 where the new slices and the index are
/// the object, and 3 where they are written into it. Refused, in this order, as the layout is, as `RoomTooSmall`, `IncompatibleDimensionality`,
/// `OutOfBounds`, `InvalidNumberOfElements` for the index, `ShardTooShort`, `BadIndexEntry` for the lowest entry that does not lie in the data
/// part, as the subset is, as `InvalidNumberOfElements` for the sizes, and `TooLarge`; or as `OutOfMemory`.
#[unsafe(no_mangle)]
pub extern "C" fn zs_write_plan(
    alloc: Global,
    layout: &Layout,
    stored: &Stored,
    subset: &Subset,
    sizes: &[u64],
    numbers: &mut [u64],
    change: &mut Change,
) -> u32
    ensures planned { result ≡ 0 → IsWriteWritten layout.now stored.now subset.now sizes.now numbers.old numbers.new change.new.object_size change.new.kind }
    ensures told { result ≡ 0 → (change.new.room ≡ 2 * subchunks_of layout.now) × (change.new.subchunk ≡ change.old.subchunk) }
    ensures length { length numbers.new ≡ length numbers.old }
    ensures kept { result ≢ 0 → numbers.new ≡ numbers.old }
    ensures refused { result ≢ 0 → IsRefusedChanging (WriteTests layout.now stored.now subset.now sizes.now (length numbers.old)) result change.old change.new }
{
    match write(alloc, layout, stored, subset, sizes, numbers) {
        Ok(planned) => {
            planned.tell(change);
            0
        }
        Err(refusal) => {
            refusal.tell_change(change);
            refusal.status()
        }
    }
}

/// Writes the name of a status, ended by a zero, where there is room for both, and returns its length without the zero.
#[unsafe(no_mangle)]
pub extern "C" fn zs_error_name(status: u32, name: &mut [u8]) -> usize
    ensures value { result ≡ length (status_name status) }
    ensures written { (length (status_name status) < length name.old) → name.new ≡ status_name status ++ 0 ∷ drop (length (status_name status) + 1) name.old }
    ensures kept { (length name.old ≤ length (status_name status)) → name.new ≡ name.old }
{
    let text = name_of(status).as_bytes();
    let length = text.len();
    if length < name.len() {
        name[..length].copy_from_slice(text);
        name[length] = 0;
    }
    length
}
