// A compaction of the object that a handle has.
ghost use Rattle.std.specs.Prelude.{◌≡◌, IsTrue, IfOk, IfErr, OnOk, MatchOption};
ghost use Rattle.parts_errors.specs.Order.{RefusedBy};
ghost use Rattle.storage_handles.specs.Handles.{IsRead, IsCounted};
ghost use Rattle.storage_handles.specs.Objects.{ObjectRefusals};
ghost use Rattle.storage_handles.specs.Writes.{IsWriting};
ghost use Rattle.session_runs.specs.Objects.{shards_of, IsMinimal, IsRewritten};
ghost use Rattle.session_runs.specs.Runs.{CompactStep};
ghost use Rattle.session_runs.specs.Served.{served_spec};
ghost use Rattle.session_runs.specs.steps.Serving.{Leads, HasFaulted, ObjectCompactRefusals, IsUsable};
ghost use Rattle.session_runs.specs.steps.Replacing.{IsReplaced};

use crate::command::Reply;
use crate::replies::refused;
use crate::served::Served;
use codec_traits::ArrayToBytesCodecTraits;
use parts_errors::{CodecError, CodecOptions};
use sharding_codec::ShardingCodec;
use std::alloc::Global;
use storage_handles::{
    ByteRange, BytesPartialDecoderTraits, BytesPartialEncoderTraits, read_range,
};

// Puts compacted bytes in the place of a handle's object. An error is a fault.
fn replace<H: BytesPartialEncoderTraits>(
    alloc: Global,
    handle: &mut H,
    bytes: &[u8],
) -> Result<Reply, CodecError>
    ensures writing { IsWriting (H.state handle.old) (H.state handle.new) }
    ensures replaced { IsTrue (H.state handle.old).transparent → IfOk result (IsReplaced bytes.now (H.state handle.old).contents (H.state handle.new).contents) }
    ensures fault { IfErr result (HasFaulted (H.state handle.old) (H.state handle.new)) }
{
    match handle.replace(alloc, bytes) {
        Ok(()) => Ok(Reply::Compacted(true)),
        Err(error) => refused(error),
    }
}

impl<'a, I: ArrayToBytesCodecTraits, X: ArrayToBytesCodecTraits> Served<'a, I, X> {
    // The object of a handle without what is not needed, or `None` where there is nothing to gain.
    fn compaction<H: BytesPartialDecoderTraits>(
        &self,
        alloc: Global,
        handle: &mut H,
    ) -> Result<Option<Vec<u8>>, CodecError>
        ensures read { IsRead (H.state handle.old) (H.state handle.new) }
        ensures made { let s = shards_of I.meaning X.meaning self.now.codec.now (served_spec self.now) in let object = (H.state handle.old).contents in
            IsTrue (H.state handle.old).transparent → IfOk result (λ made. MatchOption made (IsMinimal s object) (λ new. IsRewritten s object (Some new.items))) }
        ensures fault { IfErr result (IsCounted (H.state handle.old) (H.state handle.new)) }
        ensures refused { let s = shards_of I.meaning X.meaning self.now.codec.now (served_spec self.now) in
            IfErr result (RefusedBy (ObjectRefusals (H.state handle.old) (H.state handle.new) (ObjectCompactRefusals s (H.state handle.old).contents))) }
    {
        let mut room = Vec::new(alloc);
        let Some(bytes) = read_range(handle, &mut room, alloc, ByteRange::FromStart(0, None))?
        else {
            return Ok(None);
        };
        self.codec.compact(
            alloc,
            bytes,
            self.shape,
            self.data_type,
            self.fill_value,
            &CodecOptions::default(),
        )
    }

    // Rewrites the object of a handle without what is not needed, where there is something to gain. An error is a fault.
    pub fn compact<H: BytesPartialEncoderTraits>(
        &self,
        alloc: Global,
        handle: &mut H,
    ) -> Result<Reply, CodecError>
        requires serves { (⟦<ShardingCodec<I, X> as ArrayToBytesCodecTraits>⟧.meaning self.now.codec.now (served_spec self.now)).serves }
        requires usable { IsTrue (H.state handle.old).transparent → IsUsable (shards_of I.meaning X.meaning self.now.codec.now (served_spec self.now)) (H.state handle.old).contents }
        ensures writing { IsWriting (H.state handle.old) (H.state handle.new) }
        ensures usable { OnOk result (IsTrue (H.state handle.old).transparent → IsUsable (shards_of I.meaning X.meaning self.now.codec.now (served_spec self.now)) (H.state handle.new).contents) }
        ensures leads { let s = shards_of I.meaning X.meaning self.now.codec.now (served_spec self.now) in
            let old = (H.state handle.old).contents in let new = (H.state handle.new).contents in
            IsTrue (H.state handle.old).transparent → IfOk result (λ reply. Leads s (λ m m'. CompactStep s m old reply m' new) old new) }
        ensures fault { IfErr result (HasFaulted (H.state handle.old) (H.state handle.new)) }
    {
        match self.compaction(alloc, handle) {
            Ok(made) => match made {
                None => Ok(Reply::Compacted(false)),
                Some(bytes) => replace(alloc, handle, &bytes),
            },
            Err(error) => refused(error),
        }
    }
}
