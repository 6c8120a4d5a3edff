// One command on a session that stays open.
ghost use Rattle.std.specs.Prelude.{◌≡◌, ◌≢◌, false, IsTrue, IfOk, IfErr, OnOk};
ghost use Rattle.sharding_codec.specs.Sessions.{IsInStep, IsDone};
ghost use Rattle.session_runs.specs.Objects.{shards_of};
ghost use Rattle.session_runs.specs.Runs.{Step};
ghost use Rattle.session_runs.specs.steps.Serving.{Leads, HasFaulted};
ghost use Rattle.session_runs.specs.declared.command.Command.TheVariants.{Compact, Reopen};

use crate::command::{Command, Reply};
use crate::replies::{erase, read, write};
use codec_traits::ArrayToBytesCodecTraits;
use parts_errors::CodecError;
use sharding_codec::{ShardState, ShardingCodec};
use std::alloc::Global;
use storage_handles::BytesPartialEncoderTraits;

/// Serves a command on a session that stays open. A refusal is a reply; an error is a fault.
pub fn serve<I: ArrayToBytesCodecTraits, X: ArrayToBytesCodecTraits, H: BytesPartialEncoderTraits>(
    alloc: Global,
    state: &mut ShardState<'_, I, X, H>,
    command: &Command,
) -> Result<Reply, CodecError>
    requires usable { state.old.failed ≡ false }
    requires in_step { IsInStep ⟦<ShardingCodec<I, X> as ArrayToBytesCodecTraits>⟧.meaning X.meaning H.state state.old }
    requires open { (command.now ≢ Compact) × (command.now ≢ Reopen) }
    ensures done { OnOk result (IsDone H.state state.old state.new) }
    ensures in_step { IsInStep ⟦<ShardingCodec<I, X> as ArrayToBytesCodecTraits>⟧.meaning X.meaning H.state state.new }
    ensures leads { let s = shards_of I.meaning X.meaning state.old.codec state.old.array_spec in
        let old = (H.state state.old.handle).contents in let new = (H.state state.new.handle).contents in
        IsTrue (H.state state.old.handle).transparent → IfOk result (λ reply. Leads s (λ m m'. Step s command.now m old reply m' new) old new) }
    ensures fault { IfErr result (HasFaulted (H.state state.old.handle) (H.state state.new.handle)) }
{
    match command {
        Command::Write { subset, bytes } => write(alloc, state, subset, bytes),
        Command::Read { subset } => read(alloc, state, subset),
        Command::ReadCells { coordinates } => read(alloc, state, coordinates),
        Command::Erase => erase(state),
        Command::Compact | Command::Reopen => unreachable!(),
    }
}
