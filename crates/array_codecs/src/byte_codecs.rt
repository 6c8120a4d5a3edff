// Lists of codecs from bytes to bytes that are served.
ghost use Rattle.std.specs.Prelude.{◌≡◌, Some, IfOk, IfErr, length};
ghost use Rattle.std.specs.Cow.{cow_slice_items};
ghost use Rattle.parts_errors.specs.declared.error.CodecError.TheVariants.{OutOfMemory};
ghost use Rattle.array_codecs.specs.ByteCodec.{byte_coding};
ghost use Rattle.array_codecs.specs.ByteCodecs.{optional_coding, list_coding, is_checksum, are_checksums, IsAtMost, LimitsEncodings, RefusedOver};

use crate::byte_codec::ByteCodec;
use codec_chains::BytesToBytesCodecTraits;
use codec_traits::BytesRepresentation;
use parts_errors::CodecError;
use std::alloc::Global;
use std::borrow::CowSlice;

/// A list of codecs from bytes to bytes that is served: one to three, each of which encodes what the one before it gives.
#[derive(Debug, Clone, Copy, PartialEq, Eq)]
pub struct ByteCodecs {
    pub first: ByteCodec,
    pub second: Option<ByteCodec>,
    pub third: Option<ByteCodec>,
}

// An encoding by a codec. Refused only as `OutOfMemory`: no encoding of bytes in memory passes `usize::MAX`.
fn encode_by(alloc: Global, codec: &ByteCodec, bytes: &[u8]) -> Result<Vec<u8>, CodecError>
    ensures encoded { IfOk result (λ encoded. (byte_coding codec.now).written bytes.now encoded.items) }
    ensures refused { IfErr result (λ e. e ≡ OutOfMemory) }
{
    codec.encode(alloc, bytes)
}

// An encoding by a codec, or the bytes where there is none.
fn encode_behind(
    alloc: Global,
    codec: Option<ByteCodec>,
    bytes: Vec<u8>,
) -> Result<Vec<u8>, CodecError>
    ensures encoded { IfOk result (λ encoded. (optional_coding codec).written bytes.items encoded.items) }
    ensures refused { IfErr result (λ e. e ≡ OutOfMemory) }
{
    match codec {
        Some(codec) => encode_by(alloc, &codec, bytes.as_slice()),
        None => Ok(bytes),
    }
}

// How long the encodings are by a codec, or the bytes where there is none.
fn representation_behind(
    codec: Option<ByteCodec>,
    decoded: BytesRepresentation,
) -> BytesRepresentation
    ensures { result ≡ (optional_coding codec).representation decoded }
{
    match codec {
        Some(codec) => codec.encoded_representation(decoded),
        None => decoded,
    }
}

// How long encodings of at most `limit` bytes by a codec may be: those of a compressor have any length.
fn limit_by(codec: ByteCodec, limit: Option<usize>) -> Option<usize>
    ensures { LimitsEncodings (byte_coding codec) limit result }
{
    match codec {
        ByteCodec::Crc32c(_) => limit?.checked_add(4),
        ByteCodec::Gzip(_) | ByteCodec::Zlib(_) | ByteCodec::Zstd(_) => None,
    }
}

// The same, or the limit where there is no codec.
fn limit_behind(codec: Option<ByteCodec>, limit: Option<usize>) -> Option<usize>
    ensures { LimitsEncodings (optional_coding codec) limit result }
{
    match codec {
        Some(codec) => limit_by(codec, limit),
        None => limit,
    }
}

// How much memory is taken for what lies between two codecs where it may have any length: for twice as many bytes as the limit, and 64 KiB.
fn memory_between(limit: Option<usize>) -> usize {
    match limit {
        Some(limit) => limit.saturating_mul(2).saturating_add(65_536),
        None => usize::MAX,
    }
}

// The bytes of an encoding, where they are at most as many as a limit. Where there is none, about this much memory is taken at most.
fn decode_slice<'a>(
    alloc: Global,
    codec: &ByteCodec,
    bytes: &'a [u8],
    limit: Option<usize>,
    memory: usize,
) -> Result<CowSlice<'a, u8>, CodecError>
    ensures decoded { IfOk result (λ decoded. (byte_coding codec.now).decoding bytes.now ≡ Some (cow_slice_items decoded)) }
    ensures within { IfOk result (λ decoded. IsAtMost limit (length (cow_slice_items decoded))) }
    ensures refused { IfErr result (RefusedOver limit ((byte_coding codec.now).decoding bytes.now)) }
{
    match limit {
        Some(limit) => codec.decode_within(alloc, bytes, limit),
        None => codec.decode_in_memory(alloc, bytes, memory),
    }
}

// The same of an encoding in memory of its own.
fn decode_owned(
    alloc: Global,
    codec: &ByteCodec,
    bytes: Vec<u8>,
    limit: Option<usize>,
    memory: usize,
) -> Result<Vec<u8>, CodecError>
    ensures decoded { IfOk result (λ decoded. (byte_coding codec.now).decoding bytes.items ≡ Some decoded.items) }
    ensures within { IfOk result (λ decoded. IsAtMost limit (length decoded.items)) }
    ensures refused { IfErr result (RefusedOver limit ((byte_coding codec.now).decoding bytes.items)) }
{
    let decoded = decode_slice(alloc, codec, &bytes, limit, memory)?;
    let owned = decoded.into_owned(alloc)?;
    Ok(owned)
}

// The same of an encoding that is borrowed or owned.
fn decode_by<'a>(
    alloc: Global,
    codec: &ByteCodec,
    encoded: CowSlice<'a, u8>,
    limit: Option<usize>,
    memory: usize,
) -> Result<CowSlice<'a, u8>, CodecError>
    ensures decoded { IfOk result (λ decoded. (byte_coding codec.now).decoding (cow_slice_items encoded.entry) ≡ Some (cow_slice_items decoded)) }
    ensures within { IfOk result (λ decoded. IsAtMost limit (length (cow_slice_items decoded))) }
    ensures refused { IfErr result (RefusedOver limit ((byte_coding codec.now).decoding (cow_slice_items encoded.entry))) }
{
    match encoded {
        CowSlice::Borrowed(bytes) => decode_slice(alloc, codec, bytes, limit, memory),
        CowSlice::Owned(bytes) => {
            let decoded = decode_owned(alloc, codec, bytes, limit, memory)?;
            Ok(CowSlice::Owned(decoded))
        }
    }
}

// The same, or the encoding where there is no codec.
fn decode_behind<'a>(
    alloc: Global,
    codec: Option<ByteCodec>,
    encoded: CowSlice<'a, u8>,
    limit: Option<usize>,
    memory: usize,
) -> Result<CowSlice<'a, u8>, CodecError>
    ensures decoded { IfOk result (λ decoded. (optional_coding codec).decoding (cow_slice_items encoded.entry) ≡ Some (cow_slice_items decoded)) }
    ensures refused { IfErr result (RefusedOver limit ((optional_coding codec).decoding (cow_slice_items encoded.entry))) }
{
    match codec {
        Some(codec) => decode_by(alloc, &codec, encoded, limit, memory),
        None => Ok(encoded),
    }
}

// Whether a codec, if there is one, is `crc32c`.
fn is_checksum(codec: &Option<ByteCodec>) -> bool
    ensures { result ≡ is_checksum codec.now }
{
    matches!(codec, None | Some(ByteCodec::Crc32c(_)))
}

impl ByteCodecs {
    /// Whether each of the codecs is `crc32c`, so that all encodings of as many bytes have one length.
    pub fn are_checksums(&self) -> bool
        ensures { result ≡ are_checksums self.now }
    {
        matches!(self.first, ByteCodec::Crc32c(_))
            && is_checksum(&self.second)
            && is_checksum(&self.third)
    }

    // The bytes of an encoding by the list, where they are at most as many as a limit.
    fn decode_limited<'a>(
        &self,
        alloc: Global,
        bytes: &'a [u8],
        limit: Option<usize>,
    ) -> Result<CowSlice<'a, u8>, CodecError>
        ensures decoded { IfOk result (λ decoded. (list_coding self.now).decoding bytes.now ≡ Some (cow_slice_items decoded)) }
        ensures within { IfOk result (λ decoded. IsAtMost limit (length (cow_slice_items decoded))) }
        ensures refused { IfErr result (RefusedOver limit ((list_coding self.now).decoding bytes.now)) }
    {
        let by_first = limit_by(self.first, limit);
        let by_second = limit_behind(self.second, by_first);
        let memory = memory_between(limit);
        let encoded = CowSlice::Borrowed(bytes);
        let before_third = decode_behind(alloc, self.third, encoded, by_second, memory)?;
        let before_second = decode_behind(alloc, self.second, before_third, by_first, memory)?;
        decode_by(alloc, &self.first, before_second, limit, memory)
    }
}

impl BytesToBytesCodecTraits for ByteCodecs {
    ghost use Rattle.array_codecs.specs.ByteCodecs.{list_coding};
    ghost use Rattle.array_codecs.specs.ByteCodecsLaws.{list_invertible, list_bounded};

    ghost coding = { list_coding };

    ghost invertible = { list_invertible };

    ghost bounded = { list_bounded };

    fn encode(&self, alloc: Global, bytes: &[u8]) -> Result<Vec<u8>, CodecError> {
        let by_first = encode_by(alloc, &self.first, bytes)?;
        let by_second = encode_behind(alloc, self.second, by_first)?;
        encode_behind(alloc, self.third, by_second)
    }

    fn decode<'a>(&self, alloc: Global, bytes: &'a [u8]) -> Result<CowSlice<'a, u8>, CodecError> {
        self.decode_limited(alloc, bytes, None)
    }

    fn decode_within<'a>(
        &self,
        alloc: Global,
        bytes: &'a [u8],
        limit: usize,
    ) -> Result<CowSlice<'a, u8>, CodecError> {
        self.decode_limited(alloc, bytes, Some(limit))
    }

    fn encoded_representation(&self, decoded: BytesRepresentation) -> BytesRepresentation {
        let by_first = self.first.encoded_representation(decoded);
        let by_second = representation_behind(self.second, by_first);
        representation_behind(self.third, by_second)
    }
}
