// Whether a write covers a subchunk, so that nothing of it need be read.
ghost use Rattle.std.specs.Prelude.{◌≡◌, IsTrue, ◌↔◌};
ghost use Rattle.parts_row_major.specs.Numbering.{AllPositive};
ghost use Rattle.parts_row_major.specs.Subsets.{IsSubset};

use parts_subsets::{ArraySubset, ChunkShape};

// Whether a part of a subchunk is all of it.
pub fn is_whole(part: &ArraySubset, sub: &ChunkShape) -> bool
    ensures whole { IsTrue result ↔ (part.now.shape ≡ sub.now) }
    ensures well_formed { IsSubset part.now.start part.now.shape }
    ensures positive { AllPositive sub.now }
{
    part.shape() == sub.as_slice()
}
