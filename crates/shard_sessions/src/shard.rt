// A session with a history of what was done in it.
ghost use Rattle.std.specs.Prelude.{◌≡◌, ◌++◌, ◌∷◌, [], false, Some, IsTrue, IfOk, IfErr, OnOk, OnErr, length, replicate};
ghost use Rattle.parts_subsets.specs.Selections.{subset_selection};
ghost use Rattle.sharding_codec.specs.Sessions.{IsInStep};
ghost use Rattle.sharding_codec.specs.LockedSessions.{HasWritten, HasRefusedWrite, HasRead, HasRefusedRead, HasErased};
ghost use Rattle.session_runs.specs.Objects.{shards_of};
ghost use Rattle.session_runs.specs.Histories.{IsCellsOf};
ghost use Rattle.shard_sessions.specs.Recorded.{IsRecorded};
ghost use Rattle.shard_sessions.specs.SharedRecords.{HasRefusedToErase};
ghost use Rattle.session_runs.specs.declared.event.Event.TheVariants.{Write, Read, Erase};

use crate::calls::{record_erase, record_read, record_write};
use crate::naming::Naming;
use crate::seat::Seat;
use codec_traits::ArrayToBytesCodecTraits;
use parts_arrays::ArrayBytes;
use parts_errors::CodecError;
use parts_subsets::ArraySubset;
use session_runs::History;
use sharding_codec::{ShardState, ShardingCodec};
use std::alloc::Global;
use std::marker::{Model, PhantomData};
use storage_handles::BytesPartialEncoderTraits;

/// A session, the cells that it opened with, and what was done since, in order. Of a session that is not failed the history is
/// legal: it leads from the opening cells to those of the handle's object, where the handle is transparent. Codec and arrays
/// are those of the name `J`.
#[derive(Drop)]
pub struct RecordedShard<
    'a,
    I: ArrayToBytesCodecTraits,
    X: ArrayToBytesCodecTraits,
    H: BytesPartialEncoderTraits,
    J: Naming<I, X>,
> {
    state: ShardState<'a, I, X, H>,
    opening: ArrayBytes<'static>,
    history: History,
    of: PhantomData<J>,
}

impl<
    'a,
    I: ArrayToBytesCodecTraits,
    X: ArrayToBytesCodecTraits,
    H: BytesPartialEncoderTraits,
    J: Naming<I, X>,
> Model for RecordedShard<'a, I, X, H, J> {
    ghost use Rattle.std.specs.Prelude.{◌≡◌, length, replicate, false};
    ghost use Rattle.sharding_codec.specs.declared.codec.ShardingCodec.{ShardingCodec};
    ghost use Rattle.shard_sessions.specs.Recorded.{Recorded, IsRecorded, recorded_of};

    // the session, its opening cells, and its events
    ghost Value = { Recorded (ShardingCodec I X) H };

    ghost view = { λ s. recorded_of s.state s.opening s.history.events.items };

    ghost invariant = { λ s. IsRecorded I.meaning X.meaning H.state J.codec J.array_spec (recorded_of s.state s.opening s.history.events.items)
        × (s.history.seen.items ≡ replicate (length s.history.events.items) false) };
}

impl<
    'a,
    I: ArrayToBytesCodecTraits,
    X: ArrayToBytesCodecTraits,
    H: BytesPartialEncoderTraits,
    J: Naming<I, X>,
> RecordedShard<'a, I, X, H, J> {
    // A session in which nothing was done yet, with the cells of its object.
    #[tactic(auto, using(crate::proofs::HistoryLemmas::recorded_none))]
    pub(crate) fn new(
        alloc: Global,
        state: ShardState<'a, I, X, H>,
        opening: ArrayBytes<'static>,
    ) -> Self
        requires codec_named { Some state.codec ≡ J.codec }
        requires spec_named { state.array_spec ≡ J.array_spec }
        requires in_step { IsInStep ⟦<ShardingCodec<I, X> as ArrayToBytesCodecTraits>⟧.meaning X.meaning H.state state }
        requires opening { IsTrue (H.state state.handle).transparent
            → IsCellsOf (shards_of I.meaning X.meaning state.codec state.array_spec) (H.state state.handle).contents opening.elements }
        ensures opening { result.opening ≡ opening.entry }
        ensures none { result.events ≡ [] }
    {
        RecordedShard {
            state,
            opening,
            history: History::new(alloc),
            of: PhantomData,
        }
    }

    /// Whether a writing call of the handle failed.
    pub fn is_failed(&self) -> bool
        ensures failed { result ≡ self.now.state.failed }
        ensures recorded { IsRecorded I.meaning X.meaning H.state J.codec J.array_spec self.now }
    {
        self.state.is_failed()
    }

    /// Writes elements over the cells of a subset, in row-major order of this, as the session's `partial_encode`, and puts a
    /// receipt into the seat. The number is the event's place in the history. A refused call is no event. Refused as
    /// `partial_encode` refuses; room for the event and its receipt is taken before.
    pub fn write(
        &mut self,
        alloc: Global,
        seat: &mut Seat,
        subset: &ArraySubset,
        bytes: &ArrayBytes,
    ) -> Result<u64, CodecError>
        ensures was_recorded { IsRecorded I.meaning X.meaning H.state J.codec J.array_spec self.old }
        ensures recorded { IsRecorded I.meaning X.meaning H.state J.codec J.array_spec self.new }
        ensures opening { self.new.opening ≡ self.old.opening }
        ensures place { IfOk result (λ place. place ≡ length self.old.events) }
        ensures event { OnOk result (self.new.events ≡ self.old.events ++ Write subset.now bytes.now ∷ []) }
        ensures receipt { IfOk result (λ place. seat.new ≡ seat.old ++ record { place = place; event = Write subset.now bytes.now } ∷ []) }
        ensures written { OnOk result (HasWritten ⟦<ShardingCodec<I, X> as ArrayToBytesCodecTraits>⟧.meaning I.meaning X.meaning H.state (subset_selection subset.now) bytes.now self.old.state self.new.state) }
        ensures no_event { OnErr result ((self.new.events ≡ self.old.events) × (seat.new ≡ seat.old)) }
        ensures refused { IfErr result (λ e. HasRefusedWrite I.meaning X.meaning H.state (subset_selection subset.now) bytes.now e self.old.state self.new.state) }
    {
        record_write(
            alloc,
            &mut self.state,
            &mut self.history,
            &mut seat.receipts,
            subset,
            bytes,
        )
    }

    /// Reads the cells of a subset, in row-major order of this, as the session's `partial_decode`, and puts a receipt into the
    /// seat. The number is the event's place in the history. A refused call is no event. Refused as `partial_decode` refuses;
    /// room for the event and its receipt is taken before, that for copies of the cells after.
    pub fn read(
        &mut self,
        alloc: Global,
        seat: &mut Seat,
        subset: &ArraySubset,
    ) -> Result<(u64, ArrayBytes<'static>), CodecError>
        ensures was_recorded { IsRecorded I.meaning X.meaning H.state J.codec J.array_spec self.old }
        ensures recorded { IsRecorded I.meaning X.meaning H.state J.codec J.array_spec self.new }
        ensures opening { self.new.opening ≡ self.old.opening }
        ensures place { IfOk result (λ answer. answer.0 ≡ length self.old.events) }
        ensures event { IfOk result (λ answer. self.new.events ≡ self.old.events ++ Read subset.now answer.1 ∷ []) }
        ensures receipt { IfOk result (λ answer. seat.new ≡ seat.old ++ record { place = answer.0; event = Read subset.now answer.1 } ∷ []) }
        ensures read { IfOk result (λ answer. HasRead ⟦<ShardingCodec<I, X> as ArrayToBytesCodecTraits>⟧.meaning H.state (subset_selection subset.now) answer.1 self.old.state self.new.state) }
        ensures no_event { OnErr result ((self.new.events ≡ self.old.events) × (seat.new ≡ seat.old)) }
        ensures refused { IfErr result (λ e. HasRefusedRead ⟦<ShardingCodec<I, X> as ArrayToBytesCodecTraits>⟧.meaning I.meaning X.meaning H.state (subset_selection subset.now) e self.old.state self.new.state) }
    {
        record_read(
            alloc,
            &mut self.state,
            &mut self.history,
            &mut seat.receipts,
            subset,
        )
    }

    /// Lets the object go, as the session's `erase`, and puts a receipt into the seat. The number is the event's place in the
    /// history. A refused call is no event. Refused as `OutOfMemory`, where there is no room for the event and its receipt, which
    /// is taken before, or as `erase` refuses.
    pub fn erase(&mut self, seat: &mut Seat) -> Result<u64, CodecError>
        ensures was_recorded { IsRecorded I.meaning X.meaning H.state J.codec J.array_spec self.old }
        ensures recorded { IsRecorded I.meaning X.meaning H.state J.codec J.array_spec self.new }
        ensures opening { self.new.opening ≡ self.old.opening }
        ensures place { IfOk result (λ place. place ≡ length self.old.events) }
        ensures event { OnOk result (self.new.events ≡ self.old.events ++ Erase ∷ []) }
        ensures receipt { IfOk result (λ place. seat.new ≡ seat.old ++ record { place = place; event = Erase } ∷ []) }
        ensures erased { OnOk result (HasErased H.state self.old.state self.new.state) }
        ensures no_event { OnErr result ((self.new.events ≡ self.old.events) × (seat.new ≡ seat.old)) }
        ensures refused { IfErr result (λ e. HasRefusedToErase H.state e self.old.state self.new.state) }
    {
        record_erase(&mut self.state, &mut self.history, &mut seat.receipts)
    }

    // Ends the session: the handle, the opening cells, and the history, in which no mark is set.
    pub(crate) fn into_parts(self) -> (H, ArrayBytes<'static>, History)
        ensures handle { result.0 ≡ self.entry.state.handle }
        ensures opening { result.1 ≡ self.entry.opening }
        ensures events { result.2.events.items ≡ self.entry.events }
        ensures seen { result.2.seen.items ≡ replicate (length self.entry.events) false }
        ensures recorded { IsRecorded I.meaning X.meaning H.state J.codec J.array_spec self.entry }
    {
        let RecordedShard {
            state,
            opening,
            history,
            of: _,
        } = self;
        (state.close(), opening, history)
    }
}
