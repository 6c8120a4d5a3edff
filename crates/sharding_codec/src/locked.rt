// A session that threads share: a lock, and what is told without it.
ghost use Rattle.std.specs.Prelude.{◌≡◌, false, IfOk, IfErr, OnOk};
ghost use Rattle.parts_errors.specs.Order.{◌or_as◌then◌, RefusedBy};
ghost use Rattle.parts_arrays.specs.ArraySpec.{array_spec};
ghost use Rattle.storage_handles.specs.Handles.{IsRead, IsCounted};
ghost use Rattle.storage_handles.specs.Objects.{ObjectRefusals};
ghost use Rattle.codec_traits.specs.Refusals.{RefusesUnserved};
ghost use Rattle.sharding_codec.specs.Sessions.{bytes_of_session, SessionRefusals};
ghost use Rattle.sharding_codec.specs.LockedSessions.{OfSome, ByOne, HasTold, HasRefusedToTell, HasRead, HasRefusedRead, HasWritten, HasRefusedWrite, HasErased, HasRefusedErasure};

use crate::codec::ShardingCodec;
use crate::state::ShardState;
use codec_traits::ArrayToBytesCodecTraits;
use parts_arrays::{ArrayBytes, DataType, FillValue};
use parts_errors::{CodecError, CodecOptions};
use parts_subsets::{ChunkShape, Indexer};
use sharding_workers::SessionLock;
use std::alloc::Global;
use std::marker::Model;
use std::sync::Wait;
use storage_handles::BytesPartialEncoderTraits;

/// A session that threads share: each call that looks at the session takes the lock for one call of `ShardState`, and
/// gives it back. What never changes is told without the lock.
#[derive(Drop)]
pub struct ShardingPartialEncoder<
    'a,
    I: ArrayToBytesCodecTraits,
    X: ArrayToBytesCodecTraits,
    H: BytesPartialEncoderTraits,
> {
    session: SessionLock<ShardState<'a, I, X, H>>,
}

impl<'a, I: ArrayToBytesCodecTraits, X: ArrayToBytesCodecTraits, H: BytesPartialEncoderTraits> Model
    for ShardingPartialEncoder<'a, I, X, H> {
    ghost use Rattle.sharding_workers.specs.Told.{Told};

    // what is told without the lock
    ghost Value = { Told };

    ghost view = { λ s. s.session };
}

impl<I: ArrayToBytesCodecTraits, X: ArrayToBytesCodecTraits> ShardingCodec<I, X> {
    /// Opens a session that threads share. A refusal gives the handle back. Refused as `open_state` refuses.
    pub fn partial_encoder<'a, H: BytesPartialEncoderTraits>(
        &'a self,
        alloc: Global,
        handle: H,
        shape: &ChunkShape,
        data_type: &DataType,
        fill_value: &FillValue,
        options: &CodecOptions,
    ) -> Result<ShardingPartialEncoder<'a, I, X, H>, (H, CodecError)>
        ensures told { IfOk result (λ encoder. encoder ≡ record { data_type = data_type.now; supports = (H.state handle).supports }) }
        ensures opened { OnOk result (OfSome ⟦<Self as ArrayToBytesCodecTraits>⟧.meaning X.meaning H.state (λ s.
            (s.codec ≡ self.now) × (s.array_spec ≡ array_spec shape.now data_type.now fill_value.now) × (s.failed ≡ false) × IsRead (H.state handle) (H.state s.handle))) }
        ensures returned { IfErr result (λ e. IsRead (H.state handle) (H.state e.0)) }
        ensures fault { IfErr result (λ e. IsCounted (H.state handle) (H.state e.0) e.1) }
        ensures refused { let codec = ⟦<Self as ArrayToBytesCodecTraits>⟧ in let s = self.now in let g = array_spec shape.now data_type.now fill_value.now in
            IfErr result (λ e. RefusedBy (
            (codec.meaning s g).serves or_as RefusesUnserved (codec.meaning s g) then
            ObjectRefusals (H.state handle) (H.state e.0) (
            SessionRefusals X.meaning s g (H.state handle).contents)) e.1) }
    {
        let session = self.open_state(alloc, handle, shape, data_type, fill_value, options)?;
        let data_type = *session.data_type();
        let decode = session.supports_partial_decode();
        let encode = session.supports_partial_encode();
        Ok(ShardingPartialEncoder {
            session: SessionLock::new(session, data_type, decode, encode),
        })
    }
}

impl<
    'a,
    I: ArrayToBytesCodecTraits,
    X: ArrayToBytesCodecTraits,
    H: BytesPartialEncoderTraits,
> ShardingPartialEncoder<'a, I, X, H> {
    /// The data type of the cells. Takes no lock.
    pub fn data_type(&self) -> &DataType
        ensures { result.now ≡ self.now.data_type }
    {
        self.session.data_type()
    }

    /// Whether the handle can be read in part. Takes no lock.
    pub fn supports_partial_decode(&self) -> bool
        ensures { result ≡ self.now.supports.decode }
    {
        self.session.supports_partial_decode()
    }

    /// Whether the handle can be written in part. Takes no lock.
    pub fn supports_partial_encode(&self) -> bool
        ensures { result ≡ self.now.supports.encode }
    {
        self.session.supports_partial_encode()
    }

    /// Whether there is an object. Refused as `ShardState::exists`.
    pub fn exists<R: Wait>(&self, rt: &R) -> Result<bool, CodecError>
        ensures told { IfOk result (λ there. ByOne ⟦<ShardingCodec<I, X> as ArrayToBytesCodecTraits>⟧.meaning X.meaning H.state (HasTold H.state there)) }
        ensures refused { IfErr result (λ e. ByOne ⟦<ShardingCodec<I, X> as ArrayToBytesCodecTraits>⟧.meaning X.meaning H.state (HasRefusedToTell H.state e)) }
    {
        self.session.lock(rt).exists()
    }

    /// How many bytes the session holds in memory, as `ShardState::size_held`.
    pub fn size_held<R: Wait>(&self, rt: &R) -> usize
        ensures cached { OfSome ⟦<ShardingCodec<I, X> as ArrayToBytesCodecTraits>⟧.meaning X.meaning H.state (λ s. result ≡ bytes_of_session (H.state s.handle).cached s.index) }
    {
        self.session.lock(rt).size_held()
    }

    /// Reads the cells that an indexer requests. Refused as `ShardState::partial_decode`.
    pub fn partial_decode<R: Wait, N: Indexer>(
        &self,
        rt: &R,
        alloc: Global,
        indexer: &N,
        options: &CodecOptions,
    ) -> Result<ArrayBytes<'static>, CodecError>
        ensures read { let codec = ⟦<ShardingCodec<I, X> as ArrayToBytesCodecTraits>⟧ in IfOk result (λ array. ByOne codec.meaning X.meaning H.state (HasRead codec.meaning H.state (N.selection indexer.now) array)) }
        ensures refused { let codec = ⟦<ShardingCodec<I, X> as ArrayToBytesCodecTraits>⟧ in
            IfErr result (λ e. ByOne codec.meaning X.meaning H.state (HasRefusedRead codec.meaning I.meaning X.meaning H.state (N.selection indexer.now) e)) }
    {
        self.session
            .lock(rt)
            .partial_decode(alloc, indexer, options)
    }

    /// Writes elements over the cells of a subset. Refused as `ShardState::partial_encode`.
    pub fn partial_encode<R: Wait, N: Indexer>(
        &self,
        rt: &R,
        alloc: Global,
        indexer: &N,
        bytes: &ArrayBytes,
        options: &CodecOptions,
    ) -> Result<(), CodecError>
        ensures written { let codec = ⟦<ShardingCodec<I, X> as ArrayToBytesCodecTraits>⟧ in
            OnOk result (ByOne codec.meaning X.meaning H.state (HasWritten codec.meaning I.meaning X.meaning H.state (N.selection indexer.now) bytes.now)) }
        ensures refused { IfErr result (λ e. ByOne ⟦<ShardingCodec<I, X> as ArrayToBytesCodecTraits>⟧.meaning X.meaning H.state (HasRefusedWrite I.meaning X.meaning H.state (N.selection indexer.now) bytes.now e)) }
    {
        self.session
            .lock(rt)
            .partial_encode(alloc, indexer, bytes, options)
    }

    /// Lets the object go. Refused as `ShardState::erase`.
    pub fn erase<R: Wait>(&self, rt: &R) -> Result<(), CodecError>
        ensures erased { OnOk result (ByOne ⟦<ShardingCodec<I, X> as ArrayToBytesCodecTraits>⟧.meaning X.meaning H.state (HasErased H.state)) }
        ensures refused { IfErr result (λ e. ByOne ⟦<ShardingCodec<I, X> as ArrayToBytesCodecTraits>⟧.meaning X.meaning H.state (HasRefusedErasure H.state e)) }
    {
        self.session.lock(rt).erase()
    }

    /// Gives the handle back, also where the session is failed. Takes no lock and no memory.
    pub fn into_inner(self) -> H
        ensures handle { OfSome ⟦<ShardingCodec<I, X> as ArrayToBytesCodecTraits>⟧.meaning X.meaning H.state (λ s. result ≡ s.handle) }
    {
        let ShardingPartialEncoder { session } = self;
        session.into_inner().close()
    }
}
