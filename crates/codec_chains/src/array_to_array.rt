// Codecs from arrays to arrays.
ghost use Rattle.std.specs.Prelude.{◌≡◌, Some, IfOk, IfErr, IsSome};
ghost use Rattle.parts_errors.specs.Order.{◌or◌then◌, done, RefusedBy};
ghost use Rattle.parts_errors.specs.declared.error.CodecError.TheVariants.{OutOfMemory, Damaged};
ghost use Rattle.codec_chains.specs.ArrayCodings.{ArrayCoding, IsInvertible, KeepsLengths, encoded_array};

use parts_arrays::ArrayBytes;
use parts_errors::CodecError;
use std::alloc::Global;

/// A codec from arrays to arrays (Zarr V3 core, "Codecs") that keeps shape, data type and the length of each element: a function of
/// the elements, and an inverse where there is one, which gives every input back.
pub trait ArrayToArrayCodecTraits {
    // the function and its inverse
    ghost coding: { Self → ArrayCoding };

    /// The encoding of an array. It has as many bytes, so it is refused only as `OutOfMemory`.
    fn encode(&self, alloc: Global, array: &ArrayBytes) -> Result<ArrayBytes<'static>, CodecError>
        ensures encoded { IfOk result (λ encoded. encoded ≡ encoded_array (coding self.now) array.now) }
        ensures refused { IfErr result (λ e. e ≡ OutOfMemory) };

    /// The array that this is the encoding of. Refused as `Damaged` where there is no inverse; or as `OutOfMemory`.
    fn decode(&self, alloc: Global, array: &ArrayBytes) -> Result<ArrayBytes<'static>, CodecError>
        ensures kind { IfOk result (λ decoded. decoded.kind ≡ array.now.kind) }
        ensures decoded { IfOk result (λ decoded. (coding self.now).decoding array.now.elements ≡ Some decoded.elements) }
        ensures refused { IfErr result (RefusedBy (
            IsSome ((coding self.now).decoding array.now.elements) or Damaged then
            done)) };

    // an encoding has an inverse, the elements that were encoded
    ghost invertible: { (x : Self) → IsInvertible (coding x) };

    // an encoding, and an inverse where there is one, has as many elements, each as long as before
    ghost keeps_lengths: { (x : Self) → KeepsLengths (coding x) };
}
