// Commands on a session that stays open: writes, reads and erases.
ghost use Rattle.std.specs.Prelude.{◌≡◌, ◌≢◌, false, IsTrue, IfOk, IfErr, OnOk, MatchResult};
ghost use Rattle.parts_errors.specs.declared.error.CodecError.TheVariants.{Fault};
ghost use Rattle.sharding_codec.specs.Sessions.{IsInStep, IsLeft, IsDone};
ghost use Rattle.session_runs.specs.Objects.{shards_of};
ghost use Rattle.session_runs.specs.Runs.{WriteStep, ReadStep, EraseStep};
ghost use Rattle.session_runs.specs.steps.Serving.{Leads, HasFaulted};
ghost use Rattle.session_runs.specs.declared.command.Reply.TheVariants.{Refused};

use crate::command::Reply;
use codec_traits::ArrayToBytesCodecTraits;
use parts_arrays::ArrayBytes;
use parts_errors::{CodecError, CodecOptions};
use parts_subsets::{ArraySubset, Indexer};
use sharding_codec::{ShardState, ShardingCodec};
use std::alloc::Global;
use storage_handles::BytesPartialEncoderTraits;

// A refusal is a reply; a fault is none.
pub(crate) fn refused(error: CodecError) -> Result<Reply, CodecError>
    ensures { MatchResult result (λ reply. (reply ≡ Refused error) × (error ≢ Fault)) (λ e. (e ≡ Fault) × (error ≡ Fault)) }
{
    match error {
        CodecError::Fault => Err(CodecError::Fault),
        _ => Ok(Reply::Refused(error)),
    }
}

// Writes elements over the cells of a subset. A refusal is a reply; an error is a fault.
pub(crate) fn write<
    I: ArrayToBytesCodecTraits,
    X: ArrayToBytesCodecTraits,
    H: BytesPartialEncoderTraits,
>(
    alloc: Global,
    state: &mut ShardState<'_, I, X, H>,
    subset: &ArraySubset,
    bytes: &ArrayBytes,
) -> Result<Reply, CodecError>
    requires usable { state.old.failed ≡ false }
    requires in_step { IsInStep ⟦<ShardingCodec<I, X> as ArrayToBytesCodecTraits>⟧.meaning X.meaning H.state state.old }
    ensures done { OnOk result (IsDone H.state state.old state.new) }
    ensures in_step { IsInStep ⟦<ShardingCodec<I, X> as ArrayToBytesCodecTraits>⟧.meaning X.meaning H.state state.new }
    ensures leads { let s = shards_of I.meaning X.meaning state.old.codec state.old.array_spec in
        let old = (H.state state.old.handle).contents in let new = (H.state state.new.handle).contents in
        IsTrue (H.state state.old.handle).transparent → IfOk result (λ reply. Leads s (λ m m'. WriteStep s subset.now bytes.now m old reply m' new) old new) }
    ensures fault { IfErr result (HasFaulted (H.state state.old.handle) (H.state state.new.handle)) }
{
    match state.partial_encode(alloc, subset, bytes, &CodecOptions::default()) {
        Ok(()) => Ok(Reply::Done),
        Err(error) => refused(error),
    }
}

// Reads the cells that an indexer requests. A refusal is a reply; an error is a fault.
pub(crate) fn read<
    I: ArrayToBytesCodecTraits,
    X: ArrayToBytesCodecTraits,
    H: BytesPartialEncoderTraits,
    N: Indexer,
>(alloc: Global, state: &mut ShardState<'_, I, X, H>, indexer: &N) -> Result<Reply, CodecError>
    requires usable { state.old.failed ≡ false }
    requires in_step { IsInStep ⟦<ShardingCodec<I, X> as ArrayToBytesCodecTraits>⟧.meaning X.meaning H.state state.old }
    ensures left { IsLeft H.state state.old state.new }
    ensures in_step { IsInStep ⟦<ShardingCodec<I, X> as ArrayToBytesCodecTraits>⟧.meaning X.meaning H.state state.new }
    ensures leads { let s = shards_of I.meaning X.meaning state.old.codec state.old.array_spec in
        let old = (H.state state.old.handle).contents in let new = (H.state state.new.handle).contents in
        IsTrue (H.state state.old.handle).transparent → IfOk result (λ reply. Leads s (λ m m'. ReadStep s (N.selection indexer.now) m old reply m' new) old new) }
    ensures fault { IfErr result (HasFaulted (H.state state.old.handle) (H.state state.new.handle)) }
{
    match state.partial_decode(alloc, indexer, &CodecOptions::default()) {
        Ok(cells) => Ok(Reply::Cells(cells)),
        Err(error) => refused(error),
    }
}

// Lets the object go. A refusal is a reply; an error is a fault.
pub(crate) fn erase<
    I: ArrayToBytesCodecTraits,
    X: ArrayToBytesCodecTraits,
    H: BytesPartialEncoderTraits,
>(state: &mut ShardState<'_, I, X, H>) -> Result<Reply, CodecError>
    requires usable { state.old.failed ≡ false }
    requires in_step { IsInStep ⟦<ShardingCodec<I, X> as ArrayToBytesCodecTraits>⟧.meaning X.meaning H.state state.old }
    ensures done { OnOk result (IsDone H.state state.old state.new) }
    ensures in_step { IsInStep ⟦<ShardingCodec<I, X> as ArrayToBytesCodecTraits>⟧.meaning X.meaning H.state state.new }
    ensures leads { let s = shards_of I.meaning X.meaning state.old.codec state.old.array_spec in
        let old = (H.state state.old.handle).contents in let new = (H.state state.new.handle).contents in
        IsTrue (H.state state.old.handle).transparent → IfOk result (λ reply. Leads s (λ m m'. EraseStep s reply m' new) old new) }
    ensures fault { IfErr result (HasFaulted (H.state state.old.handle) (H.state state.new.handle)) }
{
    match state.erase() {
        Ok(()) => Ok(Reply::Done),
        Err(error) => Err(error),
    }
}
