// A codec whose bytes may have two encodings.
ghost use Rattle.std.specs.Prelude.{◌≡◌};
ghost use Rattle.test_helpers.specs.Packed.{counted_zeros};

use codec_chains::BytesToBytesCodecTraits;
use codec_traits::BytesRepresentation;
use std::alloc::Global;
use std::borrow::CowSlice;
use zarr_parts::CodecError;

// The zeros that a count of one stands for. No memory holds 255 times as many.
const ZEROS: usize = 1 << 52;

/// A codec that puts a 0 before bytes. Where it decodes, it takes besides a 1 and a number, which stand for very many zeros.
#[derive(Debug, Clone, Copy, PartialEq, Eq)]
pub struct PackedCodec;

// How many zeros an encoding stands for that counts them.
fn counted_zeros(bytes: &[u8]) -> Option<usize>
    ensures { result ≡ counted_zeros bytes.now }
{
    if bytes.len() == 2 && bytes[0] == 1 {
        return Some(bytes[1] as usize * ZEROS);
    }
    None
}

impl BytesToBytesCodecTraits for PackedCodec {
    ghost use Rattle.test_helpers.specs.Packed.{packed_coding, packed_bounded};

    ghost coding = { λ _. packed_coding };

    ghost invertible = { λ _ b encoded h. h };

    ghost bounded = { λ _. packed_bounded };

    #[tactic(auto, unfolding(crate::specs::Packed::unpacked))]
    fn encode(&self, alloc: Global, bytes: &[u8]) -> Result<Vec<u8>, CodecError> {
        let mut encoded = vec![in alloc; 0u8; 1]?;
        encoded.extend_from_slice(bytes)?;
        Ok(encoded)
    }

    #[tactic(auto, unfolding(crate::specs::Packed::unpacked))]
    fn decode<'a>(&self, alloc: Global, bytes: &'a [u8]) -> Result<CowSlice<'a, u8>, CodecError> {
        if let Some(count) = counted_zeros(bytes) {
            return Ok(CowSlice::Owned(vec![in alloc; 0u8; count]?));
        }
        let Some((first, rest)) = bytes.split_first() else {
            return Err(CodecError::Damaged);
        };
        if *first != 0 {
            return Err(CodecError::Damaged);
        }
        Ok(CowSlice::Borrowed(rest))
    }

    #[tactic(auto, unfolding(crate::specs::Packed::unpacked))]
    fn decode_within<'a>(
        &self,
        alloc: Global,
        bytes: &'a [u8],
        limit: usize,
    ) -> Result<CowSlice<'a, u8>, CodecError> {
        if let Some(count) = counted_zeros(bytes) {
            if count > limit {
                return Err(CodecError::Damaged);
            }
        }
        let decoded = self.decode(alloc, bytes)?;
        if decoded.len() > limit {
            return Err(CodecError::Damaged);
        }
        Ok(decoded)
    }

    fn encoded_representation(&self, _decoded: BytesRepresentation) -> BytesRepresentation {
        BytesRepresentation::UnboundedSize
    }
}
