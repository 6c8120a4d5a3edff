// The codecs from bytes to bytes that are served.
ghost use Rattle.std.specs.Prelude.{◌≡◌, Some, IfOk, IfErr, IsSome};
ghost use Rattle.std.specs.Cow.{cow_slice_items};
ghost use Rattle.parts_errors.specs.Order.{◌or◌then◌, done, RefusedBy};
ghost use Rattle.parts_errors.specs.declared.error.CodecError.TheVariants.{Damaged};
ghost use Rattle.array_codecs.specs.ByteCodec.{byte_coding};

use codec_chains::BytesToBytesCodecTraits;
use codec_checksums::Crc32cCodec;
use codec_gzip::{GzipCodec, ZlibCodec};
use codec_traits::BytesRepresentation;
use codec_zstd::ZstdCodec;
use parts_errors::CodecError;
use std::alloc::Global;
use std::borrow::CowSlice;

/// A codec from bytes to bytes that is served: in each call it is the codec that it holds.
#[derive(Debug, Clone, Copy, PartialEq, Eq)]
pub enum ByteCodec {
    Crc32c(Crc32cCodec),
    Gzip(GzipCodec),
    Zlib(ZlibCodec),
    Zstd(ZstdCodec),
}

impl ByteCodec {
    /// The bytes that these are an encoding of, for which about this much memory is taken at most. Refused as `Damaged` where these are no
    /// encoding; or as `OutOfMemory`, also where the bytes need more.
    pub fn decode_in_memory<'a>(
        &self,
        alloc: Global,
        bytes: &'a [u8],
        memory: usize,
    ) -> Result<CowSlice<'a, u8>, CodecError>
        ensures decoded { IfOk result (λ decoded. (byte_coding self.now).decoding bytes.now ≡ Some (cow_slice_items decoded)) }
        ensures refused { IfErr result (RefusedBy (
            IsSome ((byte_coding self.now).decoding bytes.now) or Damaged then
            done)) }
    {
        match self {
            // The bytes are lent on.
            ByteCodec::Crc32c(codec) => codec.decode(alloc, bytes),
            ByteCodec::Gzip(codec) => codec.decode_in_memory(alloc, bytes, memory),
            ByteCodec::Zlib(codec) => codec.decode_in_memory(alloc, bytes, memory),
            ByteCodec::Zstd(codec) => codec.decode_in_memory(alloc, bytes, memory),
        }
    }
}

impl BytesToBytesCodecTraits for ByteCodec {
    ghost use Rattle.array_codecs.specs.ByteCodec.{byte_coding, byte_invertible, byte_bounded};

    ghost coding = { byte_coding };

    ghost invertible = { byte_invertible };

    ghost bounded = { byte_bounded };

    fn encode(&self, alloc: Global, bytes: &[u8]) -> Result<Vec<u8>, CodecError> {
        match self {
            ByteCodec::Crc32c(codec) => codec.encode(alloc, bytes),
            ByteCodec::Gzip(codec) => codec.encode(alloc, bytes),
            ByteCodec::Zlib(codec) => codec.encode(alloc, bytes),
            ByteCodec::Zstd(codec) => codec.encode(alloc, bytes),
        }
    }

    fn decode<'a>(&self, alloc: Global, bytes: &'a [u8]) -> Result<CowSlice<'a, u8>, CodecError> {
        match self {
            ByteCodec::Crc32c(codec) => codec.decode(alloc, bytes),
            ByteCodec::Gzip(codec) => codec.decode(alloc, bytes),
            ByteCodec::Zlib(codec) => codec.decode(alloc, bytes),
            ByteCodec::Zstd(codec) => codec.decode(alloc, bytes),
        }
    }

    fn decode_within<'a>(
        &self,
        alloc: Global,
        bytes: &'a [u8],
        limit: usize,
    ) -> Result<CowSlice<'a, u8>, CodecError> {
        match self {
            ByteCodec::Crc32c(codec) => codec.decode_within(alloc, bytes, limit),
            ByteCodec::Gzip(codec) => codec.decode_within(alloc, bytes, limit),
            ByteCodec::Zlib(codec) => codec.decode_within(alloc, bytes, limit),
            ByteCodec::Zstd(codec) => codec.decode_within(alloc, bytes, limit),
        }
    }

    fn encoded_representation(&self, decoded: BytesRepresentation) -> BytesRepresentation {
        match self {
            ByteCodec::Crc32c(codec) => codec.encoded_representation(decoded),
            ByteCodec::Gzip(codec) => codec.encoded_representation(decoded),
            ByteCodec::Zlib(codec) => codec.encoded_representation(decoded),
            ByteCodec::Zstd(codec) => codec.encoded_representation(decoded),
        }
    }
}
