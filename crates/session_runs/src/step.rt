// One command of a run.
ghost use Rattle.std.specs.Prelude.{◌≡◌, IsTrue, None, IsSome, IfOk, IfErr};
ghost use Rattle.storage_handles.specs.Handles.{IsRead};
ghost use Rattle.storage_handles.specs.Writes.{IsWriting};
ghost use Rattle.sharding_codec.specs.Sessions.{IsInStep};
ghost use Rattle.session_runs.specs.Objects.{shards_of};
ghost use Rattle.session_runs.specs.Runs.{Step, CompactStep};
ghost use Rattle.session_runs.specs.Ended.{StopsBy};
ghost use Rattle.session_runs.specs.Served.{served_spec};
ghost use Rattle.session_runs.specs.steps.Serving.{Leads, IsUsable};
ghost use Rattle.session_runs.specs.Halting.{Halts, IsSessionOf};
ghost use Rattle.session_runs.specs.declared.command.Command.TheVariants.{Compact};
ghost use Rattle.session_runs.specs.declared.command.Reply.TheVariants.{Done};

use crate::command::{Command, Reply};
use crate::served::Served;
use crate::session::serve;
use codec_traits::ArrayToBytesCodecTraits;
use parts_errors::CodecError;
use sharding_codec::{ShardState, ShardingCodec};
use std::alloc::Global;
use storage_handles::BytesPartialEncoderTraits;

// Where a run stops: the handle, the reply of the last command, where it has one, and why.
pub(crate) struct Halt<H> {
    pub handle: H,
    pub reply: Option<Reply>,
    pub error: CodecError,
}

// A compaction of a closed object, which is opened anew after it.
fn compact_and_open<
    'a,
    I: ArrayToBytesCodecTraits,
    X: ArrayToBytesCodecTraits,
    H: BytesPartialEncoderTraits,
>(
    served: &Served<'a, I, X>,
    alloc: Global,
    mut handle: H,
) -> Result<(ShardState<'a, I, X, H>, Reply), Halt<H>>
    requires serves { (⟦<ShardingCodec<I, X> as ArrayToBytesCodecTraits>⟧.meaning served.now.codec.now (served_spec served.now)).serves }
    requires usable { IsTrue (H.state handle).transparent → IsUsable (shards_of I.meaning X.meaning served.now.codec.now (served_spec served.now)) (H.state handle).contents }
    ensures session { IfOk result (λ next. IsSessionOf served.now.codec.now (served_spec served.now) next.0) }
    ensures in_step { IfOk result (λ next. IsInStep ⟦<ShardingCodec<I, X> as ArrayToBytesCodecTraits>⟧.meaning X.meaning H.state next.0) }
    ensures writing { IfOk result (λ next. IsWriting (H.state handle) (H.state next.0.handle)) }
    ensures leads { let s = shards_of I.meaning X.meaning served.now.codec.now (served_spec served.now) in let old = (H.state handle).contents in
        IsTrue (H.state handle).transparent → IfOk result (λ next. let new = (H.state next.0.handle).contents in
        Leads s (λ m m'. CompactStep s m old next.1 m' new) old new) }
    ensures left { IfErr result (λ halt. IsWriting (H.state handle) (H.state halt.handle)) }
    ensures halts { let s = shards_of I.meaning X.meaning served.now.codec.now (served_spec served.now) in let old = H.state handle in
        IsTrue old.transparent → IfErr result (λ halt. let new = H.state halt.handle in
        Halts (λ reply. Leads s (λ m m'. CompactStep s m old.contents reply m' new.contents) old.contents new.contents × IsUsable s new.contents)
        (new.contents ≡ old.contents) old new halt.reply halt.error) }
{
    match served.compact(alloc, &mut handle) {
        Ok(reply) => match served.open(alloc, handle) {
            Ok(state) => Ok((state, reply)),
            Err((handle, error)) => Err(Halt {
                handle,
                reply: Some(reply),
                error,
            }),
        },
        Err(error) => Err(Halt {
            handle,
            reply: None,
            error,
        }),
    }
}

// An object that is opened anew.
fn open_again<
    'a,
    I: ArrayToBytesCodecTraits,
    X: ArrayToBytesCodecTraits,
    H: BytesPartialEncoderTraits,
>(
    served: &Served<'a, I, X>,
    alloc: Global,
    handle: H,
) -> Result<(ShardState<'a, I, X, H>, Reply), Halt<H>>
    requires serves { (⟦<ShardingCodec<I, X> as ArrayToBytesCodecTraits>⟧.meaning served.now.codec.now (served_spec served.now)).serves }
    requires usable { IsTrue (H.state handle).transparent → IsUsable (shards_of I.meaning X.meaning served.now.codec.now (served_spec served.now)) (H.state handle).contents }
    ensures session { IfOk result (λ next. IsSessionOf served.now.codec.now (served_spec served.now) next.0) }
    ensures in_step { IfOk result (λ next. IsInStep ⟦<ShardingCodec<I, X> as ArrayToBytesCodecTraits>⟧.meaning X.meaning H.state next.0) }
    ensures read { IfOk result (λ next. IsRead (H.state handle) (H.state next.0.handle)) }
    ensures done { IfOk result (λ next. next.1 ≡ Done) }
    ensures left { IfErr result (λ halt. IsRead (H.state handle) (H.state halt.handle)) }
    ensures unanswered { IfErr result (λ halt. halt.reply ≡ None) }
    ensures halts { IsTrue (H.state handle).transparent → IfErr result (λ halt. (halt.reply ≡ None) × StopsBy (H.state handle) (H.state halt.handle) halt.error) }
{
    match served.open(alloc, handle) {
        Ok(state) => Ok((state, Reply::Done)),
        Err((handle, error)) => Err(Halt {
            handle,
            reply: None,
            error,
        }),
    }
}

// One command on an open session, which may close it and open it anew.
pub(crate) fn step<
    'a,
    I: ArrayToBytesCodecTraits,
    X: ArrayToBytesCodecTraits,
    H: BytesPartialEncoderTraits,
>(
    served: &Served<'a, I, X>,
    alloc: Global,
    mut state: ShardState<'a, I, X, H>,
    command: &Command,
) -> Result<(ShardState<'a, I, X, H>, Reply), Halt<H>>
    requires session { IsSessionOf served.now.codec.now (served_spec served.now) state }
    requires in_step { IsInStep ⟦<ShardingCodec<I, X> as ArrayToBytesCodecTraits>⟧.meaning X.meaning H.state state }
    ensures session { IfOk result (λ next. IsSessionOf served.now.codec.now (served_spec served.now) next.0) }
    ensures in_step { IfOk result (λ next. IsInStep ⟦<ShardingCodec<I, X> as ArrayToBytesCodecTraits>⟧.meaning X.meaning H.state next.0) }
    ensures writing { IfOk result (λ next. IsWriting (H.state state.entry.handle) (H.state next.0.handle)) }
    ensures leads { let s = shards_of I.meaning X.meaning served.now.codec.now (served_spec served.now) in let old = (H.state state.entry.handle).contents in
        IsTrue (H.state state.entry.handle).transparent → IfOk result (λ next. let new = (H.state next.0.handle).contents in
        Leads s (λ m m'. Step s command.now m old next.1 m' new) old new) }
    ensures left { IfErr result (λ halt. IsWriting (H.state state.entry.handle) (H.state halt.handle)) }
    ensures halts { let s = shards_of I.meaning X.meaning served.now.codec.now (served_spec served.now) in let old = H.state state.entry.handle in
        IsTrue old.transparent → IfErr result (λ halt. let new = H.state halt.handle in
        Halts (λ reply. Leads s (λ m m'. Step s command.now m old.contents reply m' new.contents) old.contents new.contents × IsUsable s new.contents)
        (new.contents ≡ old.contents) old new halt.reply halt.error) }
    ensures compacted { IfErr result (λ halt. IsSome halt.reply → command.now ≡ Compact) }
{
    match command {
        Command::Compact => compact_and_open(served, alloc, state.close()),
        Command::Reopen => open_again(served, alloc, state.close()),
        _ => match serve(alloc, &mut state, command) {
            Ok(reply) => Ok((state, reply)),
            Err(error) => Err(Halt {
                handle: state.close(),
                reply: None,
                error,
            }),
        },
    }
}
