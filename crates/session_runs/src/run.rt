// A run of commands, from an object that is opened to one that is left.
ghost use Rattle.std.specs.Prelude.{◌≡◌, ◌≤◌, ◌<◌, ◌⊎◌, IsTrue, None, Some, IfSome, IsSome, length, vec_len, vec_capacity};
ghost use Rattle.parts_errors.specs.Order.{◌or_as◌then◌};
ghost use Rattle.parts_arrays.specs.ArraySpec.{array_spec};
ghost use Rattle.storage_handles.specs.Objects.{ObjectRefusals};
ghost use Rattle.storage_handles.specs.Writes.{IsWriting};
ghost use Rattle.codec_traits.specs.Refusals.{RefusesUnserved};
ghost use Rattle.sharding_codec.specs.Sessions.{SessionRefusals};
ghost use Rattle.session_runs.specs.Served.{served_spec};
ghost use Rattle.session_runs.specs.Objects.{shards_of, IsSound};
ghost use Rattle.session_runs.specs.Ended.{Ended, IsShort, StopsBy, StopsAtOpening, MayStopLast};
ghost use Rattle.session_runs.specs.FromScratch.{LeavesScratch, LeavesUnwritten, LeavesUntouched};
ghost use Rattle.session_runs.specs.Halting.{with_reply};

use crate::command::{Command, Reply};
use crate::served::Served;
use crate::step::{Halt, step};
use codec_traits::ArrayToBytesCodecTraits;
use parts_arrays::{DataType, FillValue};
use parts_errors::CodecError;
use parts_subsets::ChunkShape;
use sharding_codec::ShardingCodec;
use std::alloc::Global;
use storage_handles::BytesPartialEncoderTraits;

/// A run of commands that has ended: the handle, a reply for each command that was run, and why the run stopped, where it did.
#[derive(Debug, Drop)]
pub struct CommandRun<H> {
    pub handle: H,
    pub replies: Vec<Reply>,
    pub stop: Option<CodecError>,
}

// The end of a run that stops at a command.
fn halted<H>(mut replies: Vec<Reply>, halt: Halt<H>) -> CommandRun<H>
    requires { vec_len replies < vec_capacity replies }
    ensures handle { result.handle ≡ halt.handle }
    ensures replies { result.replies.items ≡ with_reply replies.items halt.reply }
    ensures stop { result.stop ≡ Some halt.error }
{
    let Halt {
        handle,
        reply,
        error,
    } = halt;
    if let Some(reply) = reply {
        replies.push_reserved(reply);
    }
    CommandRun {
        handle,
        replies,
        stop: Some(error),
    }
}

// A run, as `run_commands`. Of what it leaves byte for byte it says nothing.
fn run_each<I: ArrayToBytesCodecTraits, X: ArrayToBytesCodecTraits, H: BytesPartialEncoderTraits>(
    alloc: Global,
    served: &Served<'_, I, X>,
    handle: H,
    commands: &[Command],
) -> CommandRun<H>
    ensures writing { IsWriting (H.state handle) (H.state result.handle) }
    ensures counted { length result.replies.items ≤ length commands.now }
    ensures run { let s = shards_of I.meaning X.meaning served.now.codec.now (served_spec served.now) in
        IsTrue (H.state handle).transparent → Ended s (H.state handle) (H.state result.handle) commands.now result.replies.items }
    ensures stops { let s = shards_of I.meaning X.meaning served.now.codec.now (served_spec served.now) in
        IsTrue (H.state handle).transparent → (⟦<ShardingCodec<I, X> as ArrayToBytesCodecTraits>⟧.meaning served.now.codec.now s.array_spec).serves
        → IsSound s (H.state handle).contents → IsShort (H.state handle).contents
        → IfSome result.stop (StopsBy (H.state handle) (H.state result.handle)) }
    ensures refused { let m = ⟦<ShardingCodec<I, X> as ArrayToBytesCodecTraits>⟧.meaning served.now.codec.now (served_spec served.now) in
        IsTrue (H.state handle).transparent → IfSome result.stop (λ e. StopsBy (H.state handle) (H.state result.handle) e
        ⊎ StopsAtOpening (H.state handle) (H.state result.handle) result.replies.items (
        m.serves or_as RefusesUnserved m then
        ObjectRefusals (H.state handle) (H.state result.handle) (
        SessionRefusals X.meaning served.now.codec.now (served_spec served.now) (H.state handle).contents)) e) }
    ensures all { result.stop ≡ None → length result.replies.items ≡ length commands.now }
    ensures last { length result.replies.items ≡ length commands.now → IsSome result.stop → MayStopLast commands.now }
{
    let mut replies = Vec::new(alloc);
    let mut state = match served.open(alloc, handle) {
        Ok(state) => state,
        Err((handle, error)) => {
            return CommandRun {
                handle,
                replies,
                stop: Some(error),
            };
        }
    };
    for command in commands {
        if replies.reserve(1).is_err() {
            return CommandRun {
                handle: state.close(),
                replies,
                stop: Some(CodecError::OutOfMemory),
            };
        }
        match step(served, alloc, state, command) {
            Ok((next, reply)) => {
                state = next;
                replies.push_reserved(reply);
            }
            Err(halt) => return halted(replies, halt),
        }
    }
    CommandRun {
        handle: state.close(),
        replies,
        stop: None,
    }
}

/// Runs commands on the shard that is a handle's object, or on no object, in their order: the session is opened first, each
/// command has its reply, and the handle comes back. A refused command is replied so, and changes nothing. The run stops, with
/// the replies so far, where the first opening is refused, as `open_state` refuses; where there is no room for a reply, which is
/// taken before its command; at a fault; and where a reopening is refused. A compaction closes the session, rewrites the object
/// where there is something to gain, and opens it anew; its reply stands before the reopening. Where the run starts from no object
/// or from an encoding, and each array has one encoding, what a last compaction rewrote is the shard of the map made from scratch.
pub fn run_commands<
    I: ArrayToBytesCodecTraits,
    X: ArrayToBytesCodecTraits,
    H: BytesPartialEncoderTraits,
>(
    alloc: Global,
    codec: &ShardingCodec<I, X>,
    handle: H,
    shape: &ChunkShape,
    data_type: &DataType,
    fill_value: &FillValue,
    commands: &[Command],
) -> CommandRun<H>
    ensures writing { IsWriting (H.state handle) (H.state result.handle) }
    ensures counted { length result.replies.items ≤ length commands.now }
    ensures run { let s = shards_of I.meaning X.meaning codec.now (array_spec shape.now data_type.now fill_value.now) in
        IsTrue (H.state handle).transparent → Ended s (H.state handle) (H.state result.handle) commands.now result.replies.items }
    ensures stops { let s = shards_of I.meaning X.meaning codec.now (array_spec shape.now data_type.now fill_value.now) in
        IsTrue (H.state handle).transparent → (⟦<ShardingCodec<I, X> as ArrayToBytesCodecTraits>⟧.meaning codec.now s.array_spec).serves
        → IsSound s (H.state handle).contents → IsShort (H.state handle).contents
        → IfSome result.stop (StopsBy (H.state handle) (H.state result.handle)) }
    ensures refused { let m = ⟦<ShardingCodec<I, X> as ArrayToBytesCodecTraits>⟧.meaning codec.now (array_spec shape.now data_type.now fill_value.now) in
        IsTrue (H.state handle).transparent → IfSome result.stop (λ e. StopsBy (H.state handle) (H.state result.handle) e
        ⊎ StopsAtOpening (H.state handle) (H.state result.handle) result.replies.items (
        m.serves or_as RefusesUnserved m then
        ObjectRefusals (H.state handle) (H.state result.handle) (
        SessionRefusals X.meaning codec.now (array_spec shape.now data_type.now fill_value.now) (H.state handle).contents)) e) }
    ensures all { result.stop ≡ None → length result.replies.items ≡ length commands.now }
    ensures scratch { let s = shards_of I.meaning X.meaning codec.now (array_spec shape.now data_type.now fill_value.now) in
        IsTrue (H.state handle).transparent → (⟦<ShardingCodec<I, X> as ArrayToBytesCodecTraits>⟧.meaning codec.now s.array_spec).serves
        → LeavesScratch s (H.state handle) (H.state result.handle) commands.now result.replies.items }
    ensures unwritten { let s = shards_of I.meaning X.meaning codec.now (array_spec shape.now data_type.now fill_value.now) in
        IsTrue (H.state handle).transparent → (⟦<ShardingCodec<I, X> as ArrayToBytesCodecTraits>⟧.meaning codec.now s.array_spec).serves
        → LeavesUnwritten s (H.state handle) commands.now result.replies.items }
    ensures untouched { let s = shards_of I.meaning X.meaning codec.now (array_spec shape.now data_type.now fill_value.now) in
        IsTrue (H.state handle).transparent → (⟦<ShardingCodec<I, X> as ArrayToBytesCodecTraits>⟧.meaning codec.now s.array_spec).serves
        → LeavesUntouched s (H.state handle) (H.state result.handle) commands.now result.replies.items }
    ensures last { length result.replies.items ≡ length commands.now → IsSome result.stop → MayStopLast commands.now }
{
    let served = Served {
        codec,
        shape,
        data_type,
        fill_value,
    };
    run_each(alloc, &served, handle, commands)
}
