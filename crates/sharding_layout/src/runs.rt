// Subchunks that each are one run of the elements of their shape.
ghost use Rattle.std.specs.Prelude.{◌≡◌, ◌+◌, ◌*◌, ◌<◌, ◌≤◌, ℕ, IsTrue, IfSome, length, slice_index_or};
ghost use Rattle.parts_row_major.specs.Numbering.{count_of};
ghost use Rattle.parts_subsets.specs.Grid.{Divides, cell_number};

use parts_subsets::{ChunkShape, subchunks_follow};

// How many axes, of those before the last, have one element and have none before them that has several.
fn leading_ones(sub: &[u64]) -> usize
    ensures below { result ≤ length sub.now }
    ensures ones { (k : ℕ) → k < result → slice_index_or sub.now k 0 ≡ 1 }
{
    for axis in 1..sub.len() {
        if sub[axis - 1] != 1 {
            return axis - 1;
        }
    }
    sub.len().saturating_sub(1)
}

// Whether the subchunks of a shape follow one another in it, each one run of its elements: all axes are whole in the subchunk shape
// but the first on which it has several elements, and those before.
fn are_runs(shape: &[u64], sub: &[u64]) -> bool
    requires divides { Divides sub.now shape.now }
    requires some { 0 < count_of shape.now }
    ensures { IsTrue result → (k p : ℕ) → p < count_of sub.now → cell_number shape.now sub.now k p ≡ k * count_of sub.now + p }
{
    let ones = leading_ones(sub);
    subchunks_follow(&shape[ones..], &sub[ones..])
}

/// How many elements each subchunk has, where the subchunks of a shape follow one another in it, each one run of its elements. Takes no
/// memory.
pub fn elements_in_run(shape: &ChunkShape, sub: &ChunkShape) -> Option<u64>
    requires { Divides sub.now shape.now }
    ensures positions { IfSome result (λ positions. positions ≡ count_of sub.now) }
    ensures runs { IfSome result (λ positions. (k p : ℕ) → p < positions → cell_number shape.now sub.now k p ≡ k * positions + p) }
{
    if !are_runs(shape.as_slice(), sub.as_slice()) {
        return None;
    }
    sub.num_elements()
}
