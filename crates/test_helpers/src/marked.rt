// A codec that marks bytes.
use codec_chains::{BytesToBytesCodecTraits, FunctionalBytesCodec};
use codec_traits::BytesRepresentation;
use std::alloc::Global;
use std::borrow::CowSlice;
use zarr_parts::CodecError;

/// A codec that puts the byte 42 behind bytes, and demands it where it decodes.
#[derive(Debug, Clone, Copy, PartialEq, Eq)]
pub struct MarkedCodec;

impl BytesToBytesCodecTraits for MarkedCodec {
    ghost use Rattle.std.proofs.Common.{refl};
    ghost use Rattle.codec_chains.specs.TrailerLaws.{trailer_invertible, trailer_bounded};
    ghost use Rattle.test_helpers.specs.Marked.{mark, marked_coding};

    ghost coding = { λ _. marked_coding };

    ghost invertible = { λ _. trailer_invertible 1 mark (λ _. refl) };

    ghost bounded = { λ _. trailer_bounded 1 mark (λ _. refl) };

    fn encode(&self, alloc: Global, bytes: &[u8]) -> Result<Vec<u8>, CodecError> {
        let mut encoded = bytes.to_vec(alloc)?;
        encoded.push(42)?;
        Ok(encoded)
    }

    fn decode<'a>(&self, _alloc: Global, bytes: &'a [u8]) -> Result<CowSlice<'a, u8>, CodecError> {
        if bytes.len() < 1 {
            return Err(CodecError::Damaged);
        }
        let place = bytes.len() - 1;
        let marks = [42];
        if &bytes[place..] != marks.as_slice() {
            return Err(CodecError::Damaged);
        }
        Ok(CowSlice::Borrowed(&bytes[..place]))
    }

    fn encoded_representation(&self, decoded: BytesRepresentation) -> BytesRepresentation {
        match decoded {
            BytesRepresentation::FixedSize(size) => match size.checked_add(1) {
                Some(longer) => BytesRepresentation::FixedSize(longer),
                None => BytesRepresentation::UnboundedSize,
            },
            BytesRepresentation::BoundedSize(size) => match size.checked_add(1) {
                Some(longer) => BytesRepresentation::BoundedSize(longer),
                None => BytesRepresentation::UnboundedSize,
            },
            BytesRepresentation::UnboundedSize => BytesRepresentation::UnboundedSize,
        }
    }
}

impl FunctionalBytesCodec for MarkedCodec {
    ghost use Rattle.std.specs.Prelude.{true};
    ghost use Rattle.codec_chains.specs.Trailers.{with_trailer};
    ghost use Rattle.test_helpers.specs.Marked.{mark};

    ghost functional = { λ _. true };

    ghost encoding = { λ _ b. with_trailer mark b };

    fn is_functional(&self) -> bool {
        true
    }

    ghost one_encoding = { λ _ b encoded functional h. h };
}
