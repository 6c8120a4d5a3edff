// The laws of the definitions, each as the contract of a function that does nothing.
ghost use Rattle.std.specs.Prelude.{◌≡◌, length};
ghost use Rattle.parts_row_major.specs.Subsets.{LiesIn};
ghost use Rattle.parts_subsets.specs.Grid.{Divides};
ghost use Rattle.parts_subsets.specs.Laws.{NumberingLaw, GridLaw, SubsetLaw, OverlapLaw};

use parts_subsets::ArraySubset;

/// Coordinates and numbers correspond one to one.
pub fn numbering_law(_shape: &[u64])
    ensures { NumberingLaw _shape.now }
{}

/// Coordinates and places in subchunks correspond one to one.
pub fn grid_law(_shape: &[u64], _sub: &[u64])
    requires { Divides _sub.now _shape.now }
    ensures { GridLaw _shape.now _sub.now }
{}

/// A subset of a shape misses the points that it misses on some axis.
pub fn subset_law(subset: &ArraySubset, _shape: &[u64])
    requires { LiesIn subset.now _shape.now }
    ensures { SubsetLaw subset.now _shape.now }
{
    let _len = subset.shape();
}

/// A point lies in the overlap of two subsets exactly where it lies in both.
pub fn overlap_law(subset: &ArraySubset, other: &ArraySubset)
    requires { length subset.now.start ≡ length other.now.start }
    ensures { OverlapLaw subset.now other.now }
{
    let _start = subset.start();
    let _other_start = other.start();
}
