// A shard that is held open for reading and writing.
ghost use Rattle.std.specs.Prelude.{◌≡◌, true, false, IsTrue, None, IfOk, IfErr, OnOk, is_some, length};
ghost use Rattle.parts_errors.specs.Order.{◌or◌then◌, ◌or_as◌then◌, done, RefusedBy};
ghost use Rattle.parts_arrays.specs.ArraySpec.{array_spec};
ghost use Rattle.parts_errors.specs.declared.error.CodecError.TheVariants.{SessionFailed};
ghost use Rattle.storage_handles.specs.Handles.{IsRead, IsCounted, MayFault};
ghost use Rattle.storage_handles.specs.Objects.{ObjectRefusals};
ghost use Rattle.codec_traits.specs.Refusals.{RefusesUnserved};
ghost use Rattle.codec_traits.specs.Reads.{cells_at, IsAnswer, RequestRefusals};
ghost use Rattle.sharding_codec.specs.Sessions.{IsInStep, IsLeft, IsDone, IsLeftOrFailed, absent_index, subchunks_of, bytes_of_session, SessionRefusals};

mod opening;
mod reads;
mod writes;

use crate::codec::ShardingCodec;
use codec_traits::ArrayToBytesCodecTraits;
use parts_arrays::DataType;
use parts_errors::CodecError;
use sharding_open::OpenSession;
use std::marker::Model;
use storage_handles::BytesPartialEncoderTraits;

/// A shard that is held open for reading and writing: a session. It holds the shard's index, which was read when it was
/// opened and is the stored object's after each call. Without an object each cell is the fill value. Where a writing call of
/// the handle fails, nothing is known of the object: each call that reads or writes is `SessionFailed` from then on, until
/// the object is opened anew.
#[derive(Drop)]
pub struct ShardState<
    'a,
    I: ArrayToBytesCodecTraits,
    X: ArrayToBytesCodecTraits,
    H: BytesPartialEncoderTraits,
> {
    codec: &'a ShardingCodec<I, X>,
    handle: H,
    failed: bool,
    opened: OpenSession,
}

impl<'a, I: ArrayToBytesCodecTraits, X: ArrayToBytesCodecTraits, H: BytesPartialEncoderTraits> Model
    for ShardState<'a, I, X, H> {
    ghost use Rattle.sharding_codec.specs.declared.codec.ShardingCodec.{ShardingCodec};
    ghost use Rattle.parts_subsets.specs.Grid.{grid_of};
    ghost use Rattle.sharding_format.specs.Index.{index_spec};
    ghost use Rattle.sharding_format.specs.Serves.{subchunk_spec};
    ghost use Rattle.sharding_codec.specs.Meanings.{shard_meaning};
    ghost use Rattle.sharding_codec.specs.Sessions.{Session, session_of, IsCachedOpen};

    // its codec, what it is asked to serve, its handle, whether a write failed, and what it holds of the object
    ghost Value = { Session (ShardingCodec I X) H };

    ghost view = { λ s. session_of s.codec.now s.handle s.failed s.opened };

    ghost invariant = { λ s. IsCachedOpen (λ c g. shard_meaning c (I.meaning c.inner (subchunk_spec c.subchunk_shape g)) (X.meaning c.index_codec (index_spec (grid_of g.shape c.subchunk_shape))) g)
        X.meaning H.state s.codec.now s.handle s.failed s.opened };
}

impl<
    'a,
    I: ArrayToBytesCodecTraits,
    X: ArrayToBytesCodecTraits,
    H: BytesPartialEncoderTraits,
> ShardState<'a, I, X, H> {
    /// The data type of the cells.
    pub fn data_type(&self) -> &DataType
        ensures data_type { result.now ≡ self.now.array_spec.data_type }
        ensures in_step { IsInStep ⟦<ShardingCodec<I, X> as ArrayToBytesCodecTraits>⟧.meaning X.meaning H.state self.now }
    {
        &self.opened.shard.data_type
    }

    /// Whether a writing call of the handle failed.
    pub fn is_failed(&self) -> bool
        ensures failed { result ≡ self.now.failed }
        ensures in_step { IsInStep ⟦<ShardingCodec<I, X> as ArrayToBytesCodecTraits>⟧.meaning X.meaning H.state self.now }
    {
        self.failed
    }

    /// How many bytes the session holds in memory: the handle's, and 8 for each number of the index, also where there is no
    /// object; or `usize::MAX` where these are more.
    pub fn size_held(&self) -> usize
        ensures cached { result ≡ bytes_of_session (H.state self.now.handle).cached self.now.index }
        ensures in_step { IsInStep ⟦<ShardingCodec<I, X> as ArrayToBytesCodecTraits>⟧.meaning X.meaning H.state self.now }
    {
        let (_, numbers) = self.opened.cached_index();
        self.handle
            .size_held()
            .saturating_add(numbers.len().saturating_mul(8))
    }

    /// Whether the handle can be read in part.
    pub fn supports_partial_decode(&self) -> bool
        ensures supported { result ≡ (H.state self.now.handle).supports.decode }
        ensures in_step { IsInStep ⟦<ShardingCodec<I, X> as ArrayToBytesCodecTraits>⟧.meaning X.meaning H.state self.now }
    {
        self.handle.supports_partial_decode()
    }

    /// Whether the handle can be written in part.
    pub fn supports_partial_encode(&self) -> bool
        ensures supported { result ≡ (H.state self.now.handle).supports.encode }
        ensures in_step { IsInStep ⟦<ShardingCodec<I, X> as ArrayToBytesCodecTraits>⟧.meaning X.meaning H.state self.now }
    {
        self.handle.supports_partial_encode()
    }

    /// Whether there is an object. Refused only as `SessionFailed`, or as `Fault`, where the handle failed.
    pub fn exists(&mut self) -> Result<bool, CodecError>
        ensures left { IsLeft H.state self.old self.new }
        ensures was_in_step { IsInStep ⟦<ShardingCodec<I, X> as ArrayToBytesCodecTraits>⟧.meaning X.meaning H.state self.old }
        ensures in_step { IsInStep ⟦<ShardingCodec<I, X> as ArrayToBytesCodecTraits>⟧.meaning X.meaning H.state self.new }
        ensures usable { OnOk result (self.old.failed ≡ false) }
        ensures told { IfOk result (λ there. IsTrue (H.state self.old.handle).transparent → there ≡ is_some (H.state self.old.handle).contents) }
        ensures refused { IfErr result (
            self.old.failed ≡ false or SessionFailed then
            MayFault (H.state self.old.handle) (H.state self.new.handle)) }
    {
        if self.failed {
            return Err(CodecError::SessionFailed);
        }
        self.handle.exists()
    }

    /// Lets the object go; each subchunk is absent then. Takes no memory. Refused only as `SessionFailed`, or as `Fault`,
    /// where the handle failed, and then the session is failed.
    pub fn erase(&mut self) -> Result<(), CodecError>
        ensures was_in_step { IsInStep ⟦<ShardingCodec<I, X> as ArrayToBytesCodecTraits>⟧.meaning X.meaning H.state self.old }
        ensures in_step { IsInStep ⟦<ShardingCodec<I, X> as ArrayToBytesCodecTraits>⟧.meaning X.meaning H.state self.new }
        ensures done { OnOk result (IsDone H.state self.old self.new) }
        ensures erased { OnOk result (IsTrue (H.state self.old.handle).transparent → (H.state self.new.handle).contents ≡ None) }
        ensures absent { OnOk result ((self.new.len ≡ 0) × (self.new.index ≡ absent_index (subchunks_of self.new.codec self.new.array_spec))) }
        ensures failed { IfErr result (IsLeftOrFailed H.state self.old self.new) }
        ensures refused { IfErr result (
            self.old.failed ≡ false or SessionFailed then
            MayFault (H.state self.old.handle) (H.state self.new.handle)) }
    {
        if self.failed {
            return Err(CodecError::SessionFailed);
        }
        if let Err(error) = self.handle.erase() {
            self.failed = true;
            return Err(error);
        }
        self.opened.cache_none();
        Ok(())
    }

    /// Gives the handle back, also where the session is failed. Takes no memory.
    pub fn close(self) -> H
        ensures handle { result ≡ self.entry.handle }
        ensures in_step { IsInStep ⟦<ShardingCodec<I, X> as ArrayToBytesCodecTraits>⟧.meaning X.meaning H.state self.entry }
    {
        let ShardState { handle, .. } = self;
        handle
    }
}
