// A codec that leaves bytes as they are, and does not tell how long they are.
use codec_chains::{BytesToBytesCodecTraits, FunctionalBytesCodec};
use codec_traits::BytesRepresentation;
use std::alloc::Global;
use std::borrow::CowSlice;
use zarr_parts::CodecError;

/// A codec that leaves bytes as they are, and says of none how long they are.
#[derive(Debug, Clone, Copy, PartialEq, Eq)]
pub struct UnboundedCodec;

impl BytesToBytesCodecTraits for UnboundedCodec {
    ghost use Rattle.test_helpers.specs.Unbounded.{unbounded_coding, unbounded_invertible, unbounded_bounded};

    ghost coding = { λ _. unbounded_coding };

    ghost invertible = { λ _. unbounded_invertible };

    ghost bounded = { λ _. unbounded_bounded };

    fn encode(&self, alloc: Global, bytes: &[u8]) -> Result<Vec<u8>, CodecError> {
        Ok(bytes.to_vec(alloc)?)
    }

    fn decode<'a>(&self, _alloc: Global, bytes: &'a [u8]) -> Result<CowSlice<'a, u8>, CodecError> {
        Ok(CowSlice::Borrowed(bytes))
    }

    fn encoded_representation(&self, _decoded: BytesRepresentation) -> BytesRepresentation {
        BytesRepresentation::UnboundedSize
    }
}

impl FunctionalBytesCodec for UnboundedCodec {
    ghost use Rattle.std.specs.Prelude.{true};

    ghost functional = { λ _. true };

    ghost encoding = { λ _ b. b };

    fn is_functional(&self) -> bool {
        true
    }

    ghost one_encoding = { λ _ b encoded functional h. h };
}
