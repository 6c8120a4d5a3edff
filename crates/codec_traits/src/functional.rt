// Codecs of which each array has one encoding.
ghost use Rattle.std.specs.Prelude.{◌≡◌, ℕ, Bool, List, IsTrue};
ghost use Rattle.parts_arrays.specs.ArraySpec.{ArraySpec, IsArrayOf};

use crate::codec::ArrayToBytesCodecTraits;

/// A codec from arrays to bytes that can tell whether each array has one encoding.
pub trait FunctionalCodec: ArrayToBytesCodecTraits {
    // whether each array has one encoding
    ghost functional: { Self → Bool };

    // that encoding
    ghost encoding: { Self → ArraySpec → List (List ℕ) → List ℕ };

    /// Whether each array that the codec serves has one encoding: `true` only where any two encodings of an array are
    /// the same bytes. Never refused.
    fn is_functional(&self) -> bool
        ensures { result ≡ functional self.now };

    // an encoding of an array is the one encoding
    ghost one_encoding: { (x : Self) (g : ArraySpec) (a : List (List ℕ)) (b : List ℕ) → IsTrue (functional x) → (Self.meaning x g).serves → IsArrayOf g a → (Self.meaning x g).written a b → b ≡ encoding x g a };
}
