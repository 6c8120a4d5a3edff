// Calls on a session whose events are recorded: an accepted call is put at the end of the history, a refused one is no event.
ghost use Rattle.std.specs.Prelude.{◌≡◌, ◌++◌, ◌∷◌, [], false, IfOk, IfErr, OnOk, OnErr, length};
ghost use Rattle.parts_subsets.specs.Selections.{subset_selection};
ghost use Rattle.sharding_codec.specs.Sessions.{IsInStep};
ghost use Rattle.sharding_codec.specs.LockedSessions.{HasWritten, HasRefusedWrite, HasRead, HasRefusedRead, HasErased};
ghost use Rattle.shard_sessions.specs.RefusedErasures.{HasRefusedToErase};
ghost use Rattle.session_runs.specs.declared.event.Event.TheVariants.{Write, Read, Erase};

use codec_traits::ArrayToBytesCodecTraits;
use parts_arrays::ArrayBytes;
use parts_errors::{CodecError, CodecOptions};
use parts_subsets::ArraySubset;
use session_runs::{Event, History, Receipt};
use sharding_codec::{ShardState, ShardingCodec};
use std::alloc::Global;
use storage_handles::BytesPartialEncoderTraits;

/// Writes elements over the cells of a subset, as the session's `partial_encode`, with an event and a receipt; the number is the
/// event's place. A refused call is no event. Refused as `partial_encode` refuses; room for event and receipt is taken before.
pub fn record_write<
    I: ArrayToBytesCodecTraits,
    X: ArrayToBytesCodecTraits,
    H: BytesPartialEncoderTraits,
>(
    alloc: Global,
    state: &mut ShardState<'_, I, X, H>,
    history: &mut History,
    receipts: &mut Vec<Receipt>,
    subset: &ArraySubset,
    bytes: &ArrayBytes,
) -> Result<u64, CodecError>
    requires in_step { IsInStep ⟦<ShardingCodec<I, X> as ArrayToBytesCodecTraits>⟧.meaning X.meaning H.state state.old }
    ensures in_step { IsInStep ⟦<ShardingCodec<I, X> as ArrayToBytesCodecTraits>⟧.meaning X.meaning H.state state.new }
    ensures place { IfOk result (λ place. place ≡ length history.old.events.items) }
    ensures event { OnOk result (history.new.events.items ≡ history.old.events.items ++ Write subset.now bytes.now ∷ []) }
    ensures mark { OnOk result (history.new.seen.items ≡ history.old.seen.items ++ false ∷ []) }
    ensures receipt { IfOk result (λ place. receipts.new.items ≡ receipts.old.items ++ record { place = place; event = Write subset.now bytes.now } ∷ []) }
    ensures written { OnOk result (HasWritten ⟦<ShardingCodec<I, X> as ArrayToBytesCodecTraits>⟧.meaning I.meaning X.meaning H.state (subset_selection subset.now) bytes.now state.old state.new) }
    ensures no_event { OnErr result ((history.new.events.items ≡ history.old.events.items) × (receipts.new.items ≡ receipts.old.items)) }
    ensures no_mark { OnErr result (history.new.seen.items ≡ history.old.seen.items) }
    ensures refused { IfErr result (λ e. HasRefusedWrite I.meaning X.meaning H.state (subset_selection subset.now) bytes.now e state.old state.new) }
{
    history.take_room(receipts)?;
    let event = Event::of_write(alloc, subset, bytes)?;
    let told = Event::of_write(alloc, subset, bytes)?;
    let call = state.partial_encode(alloc, subset, bytes, &CodecOptions::default());
    history.put_accepted(receipts, call, event, told)
}

/// Reads the cells of a subset, as the session's `partial_decode`, with an event and a receipt; the number is the event's place. A
/// refused call is no event. Refused as `partial_decode` refuses; room for event and receipt is taken before, that for copies of
/// the cells after.
pub fn record_read<
    I: ArrayToBytesCodecTraits,
    X: ArrayToBytesCodecTraits,
    H: BytesPartialEncoderTraits,
>(
    alloc: Global,
    state: &mut ShardState<'_, I, X, H>,
    history: &mut History,
    receipts: &mut Vec<Receipt>,
    subset: &ArraySubset,
) -> Result<(u64, ArrayBytes<'static>), CodecError>
    requires in_step { IsInStep ⟦<ShardingCodec<I, X> as ArrayToBytesCodecTraits>⟧.meaning X.meaning H.state state.old }
    ensures in_step { IsInStep ⟦<ShardingCodec<I, X> as ArrayToBytesCodecTraits>⟧.meaning X.meaning H.state state.new }
    ensures place { IfOk result (λ answer. answer.0 ≡ length history.old.events.items) }
    ensures event { IfOk result (λ answer. history.new.events.items ≡ history.old.events.items ++ Read subset.now answer.1 ∷ []) }
    ensures mark { OnOk result (history.new.seen.items ≡ history.old.seen.items ++ false ∷ []) }
    ensures receipt { IfOk result (λ answer. receipts.new.items ≡ receipts.old.items ++ record { place = answer.0; event = Read subset.now answer.1 } ∷ []) }
    ensures read { IfOk result (λ answer. HasRead ⟦<ShardingCodec<I, X> as ArrayToBytesCodecTraits>⟧.meaning H.state (subset_selection subset.now) answer.1 state.old state.new) }
    ensures no_event { OnErr result ((history.new.events.items ≡ history.old.events.items) × (receipts.new.items ≡ receipts.old.items)) }
    ensures no_mark { OnErr result (history.new.seen.items ≡ history.old.seen.items) }
    ensures refused { IfErr result (λ e. HasRefusedRead ⟦<ShardingCodec<I, X> as ArrayToBytesCodecTraits>⟧.meaning I.meaning X.meaning H.state (subset_selection subset.now) e state.old state.new) }
{
    history.take_room(receipts)?;
    let cells = state.partial_decode(alloc, subset, &CodecOptions::default())?;
    let event = Event::of_read(alloc, subset, &cells)?;
    let told = Event::of_read(alloc, subset, &cells)?;
    Ok((history.put(receipts, event, told), cells))
}

/// Lets the object go, as the session's `erase`, with an event and a receipt; the number is the event's place. A refused call is no
/// event. Refused as `OutOfMemory`, where there is no room for event and receipt, which is taken before, or as `erase` refuses.
pub fn record_erase<
    I: ArrayToBytesCodecTraits,
    X: ArrayToBytesCodecTraits,
    H: BytesPartialEncoderTraits,
>(
    state: &mut ShardState<'_, I, X, H>,
    history: &mut History,
    receipts: &mut Vec<Receipt>,
) -> Result<u64, CodecError>
    requires in_step { IsInStep ⟦<ShardingCodec<I, X> as ArrayToBytesCodecTraits>⟧.meaning X.meaning H.state state.old }
    ensures in_step { IsInStep ⟦<ShardingCodec<I, X> as ArrayToBytesCodecTraits>⟧.meaning X.meaning H.state state.new }
    ensures place { IfOk result (λ place. place ≡ length history.old.events.items) }
    ensures event { OnOk result (history.new.events.items ≡ history.old.events.items ++ Erase ∷ []) }
    ensures mark { OnOk result (history.new.seen.items ≡ history.old.seen.items ++ false ∷ []) }
    ensures receipt { IfOk result (λ place. receipts.new.items ≡ receipts.old.items ++ record { place = place; event = Erase } ∷ []) }
    ensures erased { OnOk result (HasErased H.state state.old state.new) }
    ensures no_event { OnErr result ((history.new.events.items ≡ history.old.events.items) × (receipts.new.items ≡ receipts.old.items)) }
    ensures no_mark { OnErr result (history.new.seen.items ≡ history.old.seen.items) }
    ensures refused { IfErr result (λ e. HasRefusedToErase H.state e state.old state.new) }
{
    history.take_room(receipts)?;
    let call = state.erase();
    history.put_accepted(receipts, call, Event::Erase, Event::Erase)
}
