// Rows of neighbouring elements in a subset, a stride apart.
ghost use Rattle.std.specs.Prelude.{◌≡◌, ℕ, ◌+◌, ◌-◌, ◌*◌, ◌^◌, ◌<◌, ◌≤◌, List, length, drop, slice_index_or};
ghost use Rattle.parts_row_major.specs.Numbering.{count_of};
ghost use Rattle.parts_row_major.specs.Subsets.{IsSubset, IsServed};
ghost use Rattle.parts_row_major.specs.Runs.{IsRowSet, AreSubsetRows};

use crate::subset::{ArraySubset, points_in};
use parts_row_major::{RowSet, row_set};

/// The rows of a subset in an array: sets of so many runs of neighbouring elements, each run a stride behind the one before it.
#[derive(Clone, Copy)]
pub struct SubsetRows {
    /// How many elements a run has.
    pub run: u64,
    /// How many runs a set has.
    pub rows: u64,
    /// How far apart the runs of a set begin.
    pub stride: u64,
    /// How many sets there are.
    pub sets: u64,
}

// The set of rows along the axis before those on which a subset, whose points are counted, has one element, if such axes stand
// before those of a run; else the set as it was.
fn past_ones(len: &[u64], shape: &[u64], set: RowSet, total: u64) -> RowSet
    requires same_axes { length len.now ≡ length shape.now }
    requires some { 0 < count_of len.now }
    requires fits { count_of len.now < 2 ^ 64 }
    requires some_around { 0 < count_of shape.now }
    requires fits_around { count_of shape.now < 2 ^ 64 }
    requires set { IsRowSet len.now shape.now set.run set.rows set.stride }
    ensures run { result.run ≡ set.run }
    ensures rows { (axis : ℕ) × (axis ≤ length len.now) × (set.run ≡ count_of (drop axis len.now)) × (result.stride ≡ count_of (drop axis shape.now))
        × (axis ≡ 0 → result.rows ≡ 1) × (0 < axis → result.rows ≡ slice_index_or len.now (axis - 1) 0) }
{
    if set.rows != 1 || set.run == total {
        return set;
    }
    let mut points = 1;
    let mut stride = 1;
    for axis in (0..len.len()).rev() {
        if points == set.run && len[axis] != 1 {
            return RowSet {
                run: set.run,
                rows: len[axis],
                stride,
            };
        }
        points *= len[axis];
        stride *= shape[axis];
    }
    set
}

impl ArraySubset {
    /// How the subset's elements lie in an array of a shape that it lies in. Takes no memory.
    pub fn rows_in(&self, shape: &[u64]) -> SubsetRows
        requires { IsServed self.now shape.now }
        ensures rows { AreSubsetRows self.now shape.now result.run result.rows result.stride result.sets }
        ensures well_formed { IsSubset self.now.start self.now.shape }
    {
        let len = self.shape();
        let total = points_in(self, shape);
        if total == 0 {
            return SubsetRows {
                run: 1,
                rows: 1,
                stride: 1,
                sets: 0,
            };
        }
        let RowSet { run, rows, stride } = past_ones(len, shape, row_set(len, shape), total);
        SubsetRows {
            run,
            rows,
            stride,
            sets: total / run / rows,
        }
    }
}
