// What the sharding codec can do with parts of an array.
ghost use Rattle.std.specs.Prelude.{◌≡◌, true};

use crate::codec::ShardingCodec;
use parts_subsets::ChunkShape;
use sharding_format::{PartialDecoderCapability, PartialEncoderCapability};

impl<I, X> ShardingCodec<I, X> {
    /// The least part of an array that is decoded by itself: the subchunk shape.
    pub fn partial_decode_granularity(&self) -> &ChunkShape
        ensures { result.now ≡ self.now.subchunk_shape }
    {
        &self.subchunk_shape
    }

    /// Only the index and the subchunks that are asked for are read and decoded.
    pub fn partial_decoder_capability() -> PartialDecoderCapability
        ensures { result ≡ record { partial_read = true; partial_decode = true } }
    {
        PartialDecoderCapability {
            partial_read: true,
            partial_decode: true,
        }
    }

    /// Only the subchunks that are written are encoded.
    pub fn partial_encoder_capability() -> PartialEncoderCapability
        ensures { result ≡ record { partial_encode = true } }
    {
        PartialEncoderCapability {
            partial_encode: true,
        }
    }
}
