// Codecs from bytes to bytes.
ghost use Rattle.std.specs.Prelude.{◌≡◌, ◌≤◌, ℕ, Bool, List, Some, IfOk, IfErr, IsSome, IsSomeAnd, IsTrue, length};
ghost use Rattle.std.specs.Cow.{cow_slice_items};
ghost use Rattle.parts_errors.specs.Order.{◌or◌then◌, done, RefusedBy};
ghost use Rattle.parts_errors.specs.declared.error.CodecError.TheVariants.{TooLarge, Damaged};
ghost use Rattle.codec_chains.specs.Codings.{Coding, IsInvertible, IsBounded, AreAddressable};

use codec_traits::BytesRepresentation;
use parts_errors::CodecError;
use std::alloc::Global;
use std::borrow::CowSlice;

/// A codec from bytes to bytes (Zarr V3 core, "Codecs"). Bytes may have many encodings, as those of a compressor have; each of
/// them gives the bytes back.
pub trait BytesToBytesCodecTraits {
    // when bytes are an encoding, what they are an encoding of, and how long encodings are
    ghost coding: { Self → Coding };

    /// An encoding of bytes. Refused as `TooLarge` only where some encoding of them passes `usize::MAX`; or as `OutOfMemory`.
    fn encode(&self, alloc: Global, bytes: &[u8]) -> Result<Vec<u8>, CodecError>
        ensures encoded { IfOk result (λ encoded. (coding self.now).written bytes.now encoded.items) }
        ensures refused { IfErr result (RefusedBy (
            AreAddressable (coding self.now) bytes.now or TooLarge then
            done)) };

    /// The bytes that these are an encoding of. The answer may lend the bytes on. Refused as `Damaged` where these are no
    /// encoding; or as `OutOfMemory`.
    fn decode<'a>(&self, alloc: Global, bytes: &'a [u8]) -> Result<CowSlice<'a, u8>, CodecError>
        ensures decoded { IfOk result (λ decoded. (coding self.now).decoding bytes.now ≡ Some (cow_slice_items decoded)) }
        ensures refused { IfErr result (RefusedBy (
            IsSome ((coding self.now).decoding bytes.now) or Damaged then
            done)) };

    /// The bytes that these are an encoding of, as `decode`, where they are at most as many as a limit. By default it decodes
    /// all and then counts; a codec whose encodings may be much shorter than the bytes stops at the limit. Refused as
    /// `Damaged` where these are no encoding, or one of more bytes; or as `OutOfMemory`.
    fn decode_within<'a>(
        &self,
        alloc: Global,
        bytes: &'a [u8],
        limit: usize,
    ) -> Result<CowSlice<'a, u8>, CodecError>
        ensures decoded { IfOk result (λ decoded. (coding self.now).decoding bytes.now ≡ Some (cow_slice_items decoded)) }
        ensures within { IfOk result (λ decoded. length (cow_slice_items decoded) ≤ limit) }
        ensures refused { IfErr result (RefusedBy (
            IsSomeAnd ((coding self.now).decoding bytes.now) (λ decoded. length decoded ≤ limit) or Damaged then
            done)) }
    {
        let decoded = self.decode(alloc, bytes)?;
        if decoded.len() > limit {
            return Err(CodecError::Damaged);
        }
        Ok(decoded)
    }

    /// How long the encodings are of bytes that are as long as is told. What is of `UnboundedSize` has encodings of
    /// `UnboundedSize`.
    fn encoded_representation(&self, decoded: BytesRepresentation) -> BytesRepresentation
        ensures { result ≡ (coding self.now).representation decoded };

    // an encoding gives the bytes back
    ghost invertible: { (x : Self) → IsInvertible (coding x) };

    // an encoding is as long as is told
    ghost bounded: { (x : Self) → IsBounded (coding x) };
}

/// A codec from bytes to bytes that can tell whether all bytes have one encoding.
pub trait FunctionalBytesCodec: BytesToBytesCodecTraits {
    // whether all bytes have one encoding
    ghost functional: { Self → Bool };

    // that encoding
    ghost encoding: { Self → List ℕ → List ℕ };

    /// Whether all bytes have one encoding: `true` only where any two encodings of the same bytes are the same. Never
    /// refused.
    fn is_functional(&self) -> bool
        ensures { result ≡ functional self.now };

    // an encoding of bytes is the one encoding
    ghost one_encoding: { (x : Self) (b encoded : List ℕ) → IsTrue (functional x) → (Self.coding x).written b encoded → encoded ≡ encoding x b };
}
