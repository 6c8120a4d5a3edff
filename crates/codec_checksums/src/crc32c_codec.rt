// The codec `crc32c`.

use crate::crc32c_checksum::crc32c;
use codec_chains::{BytesToBytesCodecTraits, FunctionalBytesCodec};
use codec_traits::BytesRepresentation;
use parts_errors::CodecError;
use std::alloc::Global;
use std::borrow::CowSlice;

/// The codec `crc32c` (Zarr V3): bytes, and behind them the four bytes of their checksum CRC-32C, the least significant byte
/// first.
#[derive(Debug, Clone, Copy, PartialEq, Eq, Default)]
pub struct Crc32cCodec;

impl BytesToBytesCodecTraits for Crc32cCodec {
    ghost use Rattle.std.proofs.Common.{refl};
    ghost use Rattle.codec_chains.specs.TrailerLaws.{trailer_invertible, trailer_bounded};
    ghost use Rattle.codec_checksums.specs.Crc32c.{checksum_bytes, crc32c_coding};

    ghost coding = { λ _. crc32c_coding };

    ghost invertible = { λ _. trailer_invertible 4 checksum_bytes (λ _. refl) };

    ghost bounded = { λ _. trailer_bounded 4 checksum_bytes (λ _. refl) };

    /// The bytes with their checksum behind them. Refused as `TooLarge` where they pass `usize::MAX`; or as `OutOfMemory`.
    fn encode(&self, alloc: Global, bytes: &[u8]) -> Result<Vec<u8>, CodecError> {
        let Some(length) = bytes.len().checked_add(4) else {
            return Err(CodecError::TooLarge);
        };
        let mut encoded = Vec::with_capacity(alloc, length)?;
        encoded.extend_from_slice(bytes)?;
        encoded.extend_from_slice(&crc32c(bytes).to_le_bytes())?;
        Ok(encoded)
    }

    /// Lends the bytes before the checksum. Refused as `Damaged` where there are not four bytes, or where they are not the
    /// checksum of those before them. Takes no memory.
    fn decode<'a>(&self, _alloc: Global, bytes: &'a [u8]) -> Result<CowSlice<'a, u8>, CodecError> {
        if bytes.len() < 4 {
            return Err(CodecError::Damaged);
        }
        let place = bytes.len() - 4;
        let decoded = &bytes[..place];
        let stored = &bytes[place..];
        let checksum = crc32c(decoded).to_le_bytes();
        if stored != checksum.as_slice() {
            return Err(CodecError::Damaged);
        }
        Ok(CowSlice::Borrowed(decoded))
    }

    /// Four bytes longer. Of `UnboundedSize` where that passes `u64::MAX`.
    fn encoded_representation(&self, decoded: BytesRepresentation) -> BytesRepresentation {
        match decoded {
            BytesRepresentation::FixedSize(size) => match size.checked_add(4) {
                Some(longer) => BytesRepresentation::FixedSize(longer),
                None => BytesRepresentation::UnboundedSize,
            },
            BytesRepresentation::BoundedSize(size) => match size.checked_add(4) {
                Some(longer) => BytesRepresentation::BoundedSize(longer),
                None => BytesRepresentation::UnboundedSize,
            },
            BytesRepresentation::UnboundedSize => BytesRepresentation::UnboundedSize,
        }
    }
}

impl FunctionalBytesCodec for Crc32cCodec {
    ghost use Rattle.std.specs.Prelude.{true};
    ghost use Rattle.codec_chains.specs.Trailers.{with_trailer};
    ghost use Rattle.codec_checksums.specs.Crc32c.{checksum_bytes};

    ghost functional = { λ _. true };

    ghost encoding = { λ _ b. with_trailer checksum_bytes b };

    /// Always.
    fn is_functional(&self) -> bool {
        true
    }

    ghost one_encoding = { λ _ b encoded functional h. h };
}
