// A shard that is read in part through a handle, by its index, which is read once.
ghost use Rattle.std.specs.Prelude.{◌≡◌, IsTrue, IfOk, IfErr, is_some};
ghost use Rattle.parts_errors.specs.Order.{◌or_as◌then◌, RefusedBy};
ghost use Rattle.parts_subsets.specs.Grid.{grid_of};
ghost use Rattle.parts_arrays.specs.ArraySpec.{array_spec};
ghost use Rattle.storage_handles.specs.Handles.{IsRead, IsCounted, MayFault};
ghost use Rattle.storage_handles.specs.Objects.{ObjectRefusals};
ghost use Rattle.codec_traits.specs.Refusals.{RefusesUnserved};
ghost use Rattle.sharding_codec.specs.Decoders.{index_in, IsOpen, OpenRefusals};

mod reads;
mod subchunks;

use crate::codec::{ShardingCodec, borrowed};
use codec_traits::ArrayToBytesCodecTraits;
use parts_arrays::{DataType, FillValue};
use parts_errors::{CodecError, CodecOptions};
use parts_subsets::ChunkShape;
use sharding_format::ArraySpecRef;
use sharding_open::OpenShard;
use std::alloc::Global;
use std::marker::Model;
use storage_handles::BytesPartialDecoderTraits;

/// A shard that is read in part through a handle. It holds the shard's index, which was read when it was opened, and
/// reads the index no more. Without an object each cell is the fill value.
#[derive(Drop)]
pub struct ShardingPartialDecoder<
    'a,
    I: ArrayToBytesCodecTraits,
    X: ArrayToBytesCodecTraits,
    H: BytesPartialDecoderTraits,
> {
    codec: &'a ShardingCodec<I, X>,
    handle: H,
    shard: OpenShard,
}

impl<'a, I: ArrayToBytesCodecTraits, X: ArrayToBytesCodecTraits, H: BytesPartialDecoderTraits> Model
    for ShardingPartialDecoder<'a, I, X, H> {
    ghost use Rattle.sharding_codec.specs.declared.codec.ShardingCodec.{ShardingCodec};
    ghost use Rattle.parts_subsets.specs.Grid.{grid_of};
    ghost use Rattle.sharding_format.specs.Index.{index_spec};
    ghost use Rattle.sharding_format.specs.Serves.{subchunk_spec, ShardServes};
    ghost use Rattle.sharding_codec.specs.Meanings.{shard_meaning};
    ghost use Rattle.sharding_codec.specs.Decoders.{Opened, opened, index_in, IsKnown};

    // its codec, what it is asked to serve, its handle, and what it holds of the object
    ghost Value = { Opened (ShardingCodec I X) H };

    ghost view = { λ d. opened d.codec.now d.handle d.shard };

    ghost invariant = { λ d. IsKnown (λ s g. shard_meaning s (I.meaning s.inner (subchunk_spec s.subchunk_shape g)) (X.meaning s.index_codec (index_spec (grid_of g.shape s.subchunk_shape))) g)
        (index_in X.meaning) H.state d.codec.now d.handle d.shard };
}

impl<I: ArrayToBytesCodecTraits, X: ArrayToBytesCodecTraits> ShardingCodec<I, X> {
    /// Opens a decoder of the shard that is a handle's object, or of no object, and reads its index. A refusal gives the
    /// handle back. Refused as `check` refuses, then, in this order, as `TooLarge` where the object has `u64::MAX` bytes, as
    /// `ShardTooShort`, and as `Damaged` where the index does not decode; or as `Fault`, where the handle failed, or
    /// `OutOfMemory`.
    pub fn partial_decoder<'a, H: BytesPartialDecoderTraits>(
        &'a self,
        alloc: Global,
        mut handle: H,
        shape: &ChunkShape,
        data_type: &DataType,
        fill_value: &FillValue,
        options: &CodecOptions,
    ) -> Result<ShardingPartialDecoder<'a, I, X, H>, (H, CodecError)>
        ensures codec { IfOk result (λ decoder. decoder.codec ≡ self.now) }
        ensures spec { IfOk result (λ decoder. decoder.array_spec ≡ array_spec shape.now data_type.now fill_value.now) }
        ensures read { IfOk result (λ decoder. IsRead (H.state handle) (H.state decoder.handle)) }
        ensures is_open { IfOk result (IsOpen ⟦<Self as ArrayToBytesCodecTraits>⟧.meaning (index_in X.meaning) H.state) }
        ensures returned { IfErr result (λ e. IsRead (H.state handle) (H.state e.0)) }
        ensures fault { IfErr result (λ e. IsCounted (H.state handle) (H.state e.0) e.1) }
        ensures refused { let codec = ⟦<Self as ArrayToBytesCodecTraits>⟧ in let s = self.now in let g = array_spec shape.now data_type.now fill_value.now in
            IfErr result (λ e. RefusedBy (
            (codec.meaning s g).serves or_as RefusesUnserved (codec.meaning s g) then
            ObjectRefusals (H.state handle) (H.state e.0) (
            OpenRefusals X.meaning s (grid_of g.shape s.subchunk_shape) (H.state handle).contents)) e.1) }
    {
        let spec = ArraySpecRef {
            shape,
            data_type,
            fill_value,
        };
        match OpenShard::open(&borrowed!(self), alloc, &mut handle, &spec, options) {
            Ok((shard, _)) => Ok(ShardingPartialDecoder {
                codec: self,
                handle,
                shard,
            }),
            Err(error) => Err((handle, error)),
        }
    }
}

impl<
    'a,
    I: ArrayToBytesCodecTraits,
    X: ArrayToBytesCodecTraits,
    H: BytesPartialDecoderTraits,
> ShardingPartialDecoder<'a, I, X, H> {
    ghost use Rattle.sharding_codec.specs.Decoders.{Unmoved, bytes_cached};

    /// The data type of the cells.
    pub fn data_type(&self) -> &DataType
        ensures data_type { result.now ≡ self.now.array_spec.data_type }
        ensures is_open { IsOpen ⟦<ShardingCodec<I, X> as ArrayToBytesCodecTraits>⟧.meaning (index_in X.meaning) H.state self.now }
    {
        &self.shard.data_type
    }

    /// Whether there is an object. Refused only as `Fault`, where the handle failed.
    pub fn exists(&mut self) -> Result<bool, CodecError>
        ensures unmoved { Unmoved H.state self.old self.new }
        ensures is_open { IsOpen ⟦<ShardingCodec<I, X> as ArrayToBytesCodecTraits>⟧.meaning (index_in X.meaning) H.state self.new }
        ensures told { IfOk result (λ there. IsTrue (H.state self.old.handle).transparent → there ≡ is_some (H.state self.old.handle).contents) }
        ensures refused { IfErr result (MayFault (H.state self.old.handle) (H.state self.new.handle)) }
    {
        self.handle.exists()
    }

    /// How many bytes the decoder holds in memory: the handle's, and 8 for each number of the index, or `usize::MAX` where
    /// these are more. Without an object it holds no index.
    pub fn size_held(&self) -> usize
        ensures cached { result ≡ bytes_cached (H.state self.now.handle).cached self.now.index }
        ensures is_open { IsOpen ⟦<ShardingCodec<I, X> as ArrayToBytesCodecTraits>⟧.meaning (index_in X.meaning) H.state self.now }
    {
        let cached = self.handle.size_held();
        match &self.shard.cached {
            Some(index) => cached.saturating_add(index.numbers.len().saturating_mul(8)),
            None => cached,
        }
    }

    /// Whether the handle can be read in part.
    pub fn supports_partial_decode(&self) -> bool
        ensures supported { result ≡ (H.state self.now.handle).supports.decode }
        ensures is_open { IsOpen ⟦<ShardingCodec<I, X> as ArrayToBytesCodecTraits>⟧.meaning (index_in X.meaning) H.state self.now }
    {
        self.handle.supports_partial_decode()
    }

    /// Gives the handle back. Takes no memory.
    pub fn close(self) -> H
        ensures handle { result ≡ self.entry.handle }
        ensures is_open { IsOpen ⟦<ShardingCodec<I, X> as ArrayToBytesCodecTraits>⟧.meaning (index_in X.meaning) H.state self.entry }
    {
        let ShardingPartialDecoder { handle, .. } = self;
        handle
    }
}
