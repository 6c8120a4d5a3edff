// The codec `zlib`.
ghost use Rattle.std.specs.Prelude.{◌≡◌, ◌≤◌, Some, IfOk, IfErr, IsSome, length};
ghost use Rattle.std.specs.Cow.{cow_slice_items};
ghost use Rattle.parts_errors.specs.Order.{◌or◌then◌, done, RefusedBy};
ghost use Rattle.parts_errors.specs.declared.error.CodecError.TheVariants.{Damaged};
ghost use Rattle.codec_gzip.specs.Zlib.{zlib_content};

use crate::frame::{Frame, decoded_in_memory, decoded_within, representation};
use crate::zlib_streams::reading::unzlib;
use crate::zlib_streams::writing::zlib;
use codec_chains::BytesToBytesCodecTraits;
use codec_compression::DecompressError;
use codec_traits::BytesRepresentation;
use parts_errors::CodecError;
use std::alloc::Global;
use std::borrow::CowSlice;

/// The codec `numcodecs.zlib` (numcodecs): bytes, and any zlib stream (RFC 1950) whose content they are.
#[derive(Debug, Clone, Copy, PartialEq, Eq)]
pub struct ZlibCodec {
    /// The level of the configuration: 0 without compression, and from 1 to 9 slower and shorter.
    pub level: u8,
}

// A zlib stream.
struct ZlibStream;

impl Frame for ZlibStream {
    ghost use Rattle.codec_gzip.specs.Zlib.{zlib_content};
    ghost use Rattle.codec_gzip.specs.ZlibWritten.{zlib_bound};

    ghost content = { zlib_content };

    ghost bound = { zlib_bound };

    fn read(alloc: Global, bytes: &[u8], limit: usize) -> Result<Vec<u8>, DecompressError> {
        unzlib(alloc, bytes, limit)
    }

    fn longest(size: u64) -> Option<u64> {
        size.checked_add(5 * (size / 65535 + 1) + 6)
    }
}

impl ZlibCodec {
    /// The content of a stream, for which memory is asked for at most `memory` bytes and a little more. Refused as `Damaged` where the bytes
    /// are no stream; or as `OutOfMemory`, also where the content is longer than `memory`.
    pub fn decode_in_memory<'a>(
        &self,
        alloc: Global,
        bytes: &'a [u8],
        memory: usize,
    ) -> Result<CowSlice<'a, u8>, CodecError>
        ensures decoded { IfOk result (λ decoded. zlib_content bytes.now ≡ Some (cow_slice_items decoded)) }
        ensures within { IfOk result (λ decoded. length (cow_slice_items decoded) ≤ memory) }
        ensures refused { IfErr result (RefusedBy (
            IsSome (zlib_content bytes.now) or Damaged then
            done)) }
    {
        decoded_in_memory::<ZlibStream>(alloc, bytes, memory)
    }
}

impl BytesToBytesCodecTraits for ZlibCodec {
    ghost use Rattle.codec_gzip.specs.ZlibCoding.{zlib_coding};
    ghost use Rattle.codec_gzip.specs.ZlibLaws.{zlib_bounded};

    ghost coding = { λ _. zlib_coding };

    ghost invertible = { λ _ b encoded h. h.0 };

    ghost bounded = { λ _. zlib_bounded };

    /// A stream that is compressed as the level says, as `zlib` gives it. Refused only as `OutOfMemory`.
    fn encode(&self, alloc: Global, bytes: &[u8]) -> Result<Vec<u8>, CodecError> {
        let stream = zlib(alloc, bytes, self.level)?;
        Ok(stream)
    }

    /// The content of a stream. Refused as `Damaged` where the bytes are none; or as `OutOfMemory`.
    fn decode<'a>(&self, alloc: Global, bytes: &'a [u8]) -> Result<CowSlice<'a, u8>, CodecError> {
        self.decode_in_memory(alloc, bytes, usize::MAX)
    }

    /// The content of a stream, of at most `limit` bytes. Memory is asked for `limit` bytes and a little more. Refused as `Damaged` where
    /// the bytes are no stream, or one of more content; or as `OutOfMemory`.
    fn decode_within<'a>(
        &self,
        alloc: Global,
        bytes: &'a [u8],
        limit: usize,
    ) -> Result<CowSlice<'a, u8>, CodecError> {
        decoded_within::<ZlibStream>(alloc, bytes, limit)
    }

    /// At most as long as a stream without compression. Of `UnboundedSize` where that passes `u64::MAX`.
    fn encoded_representation(&self, decoded: BytesRepresentation) -> BytesRepresentation {
        representation::<ZlibStream>(decoded)
    }
}
