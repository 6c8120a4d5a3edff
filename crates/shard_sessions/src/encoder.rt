// A recorded session behind a lock, which threads share.
ghost use Rattle.std.specs.Prelude.{◌≡◌, ◌++◌, ◌∷◌, [], false, Some, IsTrue, IfOk, IfErr, OnErr, MatchResult, length};
ghost use Rattle.parts_errors.specs.Order.{RefusedBy};
ghost use Rattle.parts_arrays.specs.ArraySpec.{array_spec};
ghost use Rattle.parts_subsets.specs.Selections.{subset_selection};
ghost use Rattle.storage_handles.specs.Handles.{IsRead, IsCounted};
ghost use Rattle.sharding_codec.specs.Sessions.{IsInStep, IsLeft};
ghost use Rattle.sharding_codec.specs.LockedSessions.{HasWritten, HasRefusedWrite, HasRead, HasRefusedRead, HasErased};
ghost use Rattle.session_runs.specs.Objects.{shards_of};
ghost use Rattle.session_runs.specs.Histories.{IsCellsOf, Replays};
ghost use Rattle.shard_sessions.specs.Recorded.{HoldsNamed, full_subset, WholeReadRefusals, RecordedRefusals};
ghost use Rattle.shard_sessions.specs.SharedRecords.{OfRecorded, ByRecorded, HasAdded, HasAddedNone, HasRefusedToErase};
ghost use Rattle.shard_sessions.specs.Receipts.{Agree, receipts_of};
ghost use Rattle.shard_sessions.specs.Closing.{IsRefusedClose, IsClosedOf, IsHandedBack};
ghost use Rattle.session_runs.specs.declared.event.Event.TheVariants.{Write, Read, Erase};

use crate::closing::{CloseError, Closed};
use crate::naming::Naming;
use crate::seat::Seat;
use crate::shard::RecordedShard;
use codec_traits::ArrayToBytesCodecTraits;
use parts_arrays::{ArrayBytes, DataType, FillValue};
use parts_errors::{CodecError, CodecOptions};
use parts_subsets::{ArraySubset, ChunkShape};
use session_runs::History;
use sharding_codec::{ShardState, ShardingCodec};
use std::alloc::{AllocError, Global};
use std::marker::Model;
use std::sync::{Mutex, Wait};
use storage_handles::BytesPartialEncoderTraits;

/// A recorded session that threads share: each call takes the lock for one whole call on the session. Contracts see it as the
/// cells that it opened with, which are also kept beside the lock.
#[derive(Drop)]
pub struct RecordedPartialEncoder<
    'a,
    I: ArrayToBytesCodecTraits,
    X: ArrayToBytesCodecTraits,
    H: BytesPartialEncoderTraits,
    J: Naming<I, X>,
> {
    lock: Mutex<RecordedShard<'a, I, X, H, J>>,
    opening: ArrayBytes<'static>,
    alloc: Global,
}

impl<
    'a,
    I: ArrayToBytesCodecTraits,
    X: ArrayToBytesCodecTraits,
    H: BytesPartialEncoderTraits,
    J: Naming<I, X>,
> Model for RecordedPartialEncoder<'a, I, X, H, J> {
    ghost use Rattle.parts_arrays.specs.Arrays.{Array};

    // the cells that it opened with
    ghost Value = { Array };

    ghost view = { λ encoder. encoder.opening };
}

// The subset of all cells of a shape.
fn whole_subset(alloc: Global, shape: &ChunkShape) -> Result<ArraySubset, AllocError>
    ensures { IfOk result (λ whole. whole ≡ full_subset shape.now) }
{
    ArraySubset::new_with_shape(alloc, shape.as_slice().to_vec(alloc)?)
}

// All cells of a session, twice.
fn opening_cells<
    I: ArrayToBytesCodecTraits,
    X: ArrayToBytesCodecTraits,
    H: BytesPartialEncoderTraits,
>(
    alloc: Global,
    state: &mut ShardState<'_, I, X, H>,
    shape: &ChunkShape,
) -> Result<(ArrayBytes<'static>, ArrayBytes<'static>), CodecError>
    requires shape { state.old.array_spec.shape ≡ shape.now }
    requires in_step { IsInStep ⟦<ShardingCodec<I, X> as ArrayToBytesCodecTraits>⟧.meaning X.meaning H.state state.old }
    ensures left { IsLeft H.state state.old state.new }
    ensures in_step { IsInStep ⟦<ShardingCodec<I, X> as ArrayToBytesCodecTraits>⟧.meaning X.meaning H.state state.new }
    ensures under { IfOk result (λ cells. IsTrue (H.state state.new.handle).transparent
        → IsCellsOf (shards_of I.meaning X.meaning state.new.codec state.new.array_spec) (H.state state.new.handle).contents cells.1.elements) }
    ensures cells { IfOk result (λ cells. IsTrue (H.state state.old.handle).transparent
        → IsCellsOf (shards_of I.meaning X.meaning state.old.codec state.old.array_spec) (H.state state.old.handle).contents cells.0.elements) }
    ensures fault { IfErr result (IsCounted (H.state state.old.handle) (H.state state.new.handle)) }
    ensures refused { state.old.failed ≡ false → IfErr result (RefusedBy (
        WholeReadRefusals I.meaning X.meaning state.old.codec state.old.array_spec (H.state state.old.handle) (H.state state.new.handle))) }
{
    let whole = whole_subset(alloc, shape)?;
    match state.partial_decode(alloc, &whole, &CodecOptions::default()) {
        Ok(cells) => {
            let copy = cells.try_clone(alloc)?;
            Ok((cells, copy))
        }
        Err(error) => Err(error),
    }
}

/// Opens a recorded session of the shard that is a handle's object, or of no object, and reads every cell, so that damage is
/// refused here. The first seat has no receipt. The name `J`, which a caller picks, names the codec and the arrays. A refusal gives
/// the handle back. Refused as `open_state`, and then as a read of all cells: as the lowest refused subchunk is (`Damaged`,
/// `TooLarge`), as `TooLarge` where their lengths are too large together; or as `Fault` or `OutOfMemory`.
pub fn recorded<
    'a,
    I: ArrayToBytesCodecTraits,
    X: ArrayToBytesCodecTraits,
    H: BytesPartialEncoderTraits,
    J: Naming<I, X>,
>(
    alloc: Global,
    codec: &'a ShardingCodec<I, X>,
    handle: H,
    shape: &ChunkShape,
    data_type: &DataType,
    fill_value: &FillValue,
) -> Result<(RecordedPartialEncoder<'a, I, X, H, J>, Seat), (H, CodecError)>
    requires codec_named { Some codec.now ≡ J.codec }
    requires spec_named { array_spec shape.now data_type.now fill_value.now ≡ J.array_spec }
    ensures opening { let s = shards_of I.meaning X.meaning codec.now (array_spec shape.now data_type.now fill_value.now) in
        IfOk result (λ opened. IsTrue (H.state handle).transparent → IsCellsOf s (H.state handle).contents opened.0.elements) }
    ensures seat { IfOk result (λ opened. opened.1 ≡ []) }
    ensures returned { IfErr result (λ e. IsRead (H.state handle) (H.state e.0)) }
    ensures fault { IfErr result (λ e. IsCounted (H.state handle) (H.state e.0) e.1) }
    ensures refused { let g = array_spec shape.now data_type.now fill_value.now in
        IfErr result (λ e. RecordedRefusals I.meaning X.meaning codec.now g (H.state handle) (H.state e.0) e.1) }
{
    let mut state = codec.open_state(
        alloc,
        handle,
        shape,
        data_type,
        fill_value,
        &CodecOptions::default(),
    )?;
    match opening_cells(alloc, &mut state, shape) {
        Ok((opening, under)) => {
            let encoder = RecordedPartialEncoder {
                lock: Mutex::new(RecordedShard::new(alloc, state, under)),
                opening,
                alloc,
            };
            Ok((encoder, Seat::new(alloc)))
        }
        Err(error) => Err((state.close(), error)),
    }
}

impl<
    'a,
    I: ArrayToBytesCodecTraits,
    X: ArrayToBytesCodecTraits,
    H: BytesPartialEncoderTraits,
    J: Naming<I, X>,
> RecordedPartialEncoder<'a, I, X, H, J> {
    /// A second seat, for another thread. The receipts stay with the first. Takes no lock and no memory.
    pub fn split_seat(&self, seat: Seat) -> (Seat, Seat)
        ensures first { result.0 ≡ seat }
        ensures second { result.1 ≡ [] }
    {
        (seat, Seat::new(self.alloc))
    }

    /// Writes elements over the cells of a subset, as `RecordedShard::write`, and waits for the lock before. Where it is accepted,
    /// the number is the event's place in the history, and the seat has a receipt more.
    pub fn write<R: Wait>(
        &self,
        rt: &R,
        alloc: Global,
        mut seat: Seat,
        subset: &ArraySubset,
        bytes: &ArrayBytes,
    ) -> (Seat, Result<u64, CodecError>)
        ensures receipt { IfOk result.1 (λ place. result.0 ≡ seat ++ record { place = place; event = Write subset.now bytes.now } ∷ []) }
        ensures kept { OnErr result.1 (result.0 ≡ seat) }
        ensures written { IfOk result.1 (λ place. ByRecorded I.meaning X.meaning H.state J.codec J.array_spec (
            HasAdded place (Write subset.now bytes.now) (HasWritten ⟦<ShardingCodec<I, X> as ArrayToBytesCodecTraits>⟧.meaning I.meaning X.meaning H.state (subset_selection subset.now) bytes.now))) }
        ensures refused { IfErr result.1 (λ e. ByRecorded I.meaning X.meaning H.state J.codec J.array_spec (
            HasAddedNone (HasRefusedWrite I.meaning X.meaning H.state (subset_selection subset.now) bytes.now e))) }
    {
        let answer = self.lock.lock(rt).write(alloc, &mut seat, subset, bytes);
        (seat, answer)
    }

    /// Reads the cells of a subset, as `RecordedShard::read`, and waits for the lock before. Where it is accepted, the number is
    /// the event's place in the history, and the seat has a receipt more.
    pub fn read<R: Wait>(
        &self,
        rt: &R,
        alloc: Global,
        mut seat: Seat,
        subset: &ArraySubset,
    ) -> (Seat, Result<(u64, ArrayBytes<'static>), CodecError>)
        ensures receipt { IfOk result.1 (λ answer. result.0 ≡ seat ++ record { place = answer.0; event = Read subset.now answer.1 } ∷ []) }
        ensures kept { OnErr result.1 (result.0 ≡ seat) }
        ensures read { IfOk result.1 (λ answer. ByRecorded I.meaning X.meaning H.state J.codec J.array_spec (
            HasAdded answer.0 (Read subset.now answer.1) (HasRead ⟦<ShardingCodec<I, X> as ArrayToBytesCodecTraits>⟧.meaning H.state (subset_selection subset.now) answer.1))) }
        ensures refused { IfErr result.1 (λ e. ByRecorded I.meaning X.meaning H.state J.codec J.array_spec (
            HasAddedNone (HasRefusedRead ⟦<ShardingCodec<I, X> as ArrayToBytesCodecTraits>⟧.meaning I.meaning X.meaning H.state (subset_selection subset.now) e))) }
    {
        let answer = self.lock.lock(rt).read(alloc, &mut seat, subset);
        (seat, answer)
    }

    /// Lets the object go, as `RecordedShard::erase`, and waits for the lock before. Where it is accepted, the number is the
    /// event's place in the history, and the seat has a receipt more.
    pub fn erase<R: Wait>(
        &self,
        rt: &R,
        _alloc: Global,
        mut seat: Seat,
    ) -> (Seat, Result<u64, CodecError>)
        ensures receipt { IfOk result.1 (λ place. result.0 ≡ seat ++ record { place = place; event = Erase } ∷ []) }
        ensures kept { OnErr result.1 (result.0 ≡ seat) }
        ensures erased { IfOk result.1 (λ place. ByRecorded I.meaning X.meaning H.state J.codec J.array_spec (HasAdded place Erase (HasErased H.state))) }
        ensures refused { IfErr result.1 (λ e. ByRecorded I.meaning X.meaning H.state J.codec J.array_spec (HasAddedNone (HasRefusedToErase H.state e))) }
    {
        let answer = self.lock.lock(rt).erase(&mut seat);
        (seat, answer)
    }

    /// Ends the session, and compares the receipts of all seats with the history. Where it is Ok, the opening cells are those that
    /// `recorded` read; the history is legal, and leads from them to the cells of the handle's object; each receipt's event stands
    /// in it at the receipt's place; and each event has just one receipt. Takes no memory, and each refusal hands the handle back.
    /// Refused, in this order, as `Session` where the session failed; as `SeatsMissing` where there are fewer receipts than events;
    /// as `ReceiptMismatch` with two zeros where the opening cells are others; and as `ReceiptMismatch` at the first receipt, seat
    /// by seat, that does not agree.
    pub fn close(self, seats: Vec<Seat>) -> Result<Closed<H>, CloseError<H>>
        ensures opening { IfOk result (λ closed. closed.opening ≡ self.entry) }
        ensures history { IfOk result (λ closed. IsTrue (H.state closed.handle).transparent → HoldsNamed I.meaning X.meaning J.codec J.array_spec
            (λ s. Replays s closed.opening.elements closed.history.items (H.state closed.handle).contents)) }
        ensures agree { IfOk result (λ closed. Agree closed.history.items seats.items) }
        ensures as_many { IfOk result (λ closed. length (receipts_of seats.items) ≡ length closed.history.items) }
        ensures refused { IfErr result (IsRefusedClose self.entry seats.items) }
        ensures left { OfRecorded I.meaning X.meaning H.state J.codec J.array_spec (λ r. MatchResult result (IsClosedOf r) (IsHandedBack r)) }
    {
        let RecordedPartialEncoder {
            lock,
            opening,
            alloc: _,
        } = self;
        let shard = lock.into_inner();
        let failed = shard.is_failed();
        let (handle, under, history) = shard.into_parts();
        let History { events, seen } = history;
        if failed {
            return Err(CloseError::Session(handle, CodecError::SessionFailed));
        }
        let closed = Closed {
            handle,
            opening: under,
            history: events,
        };
        closed.checked(&opening, seen, &seats)
    }
}
