// Where a subset meets a subchunk, by rows in the array that the subset is read into and in the subchunk.
ghost use Rattle.std.specs.Prelude.{◌≡◌, ◌^◌, ◌<◌, ℕ, OnOk};
ghost use Rattle.parts_row_major.specs.Numbering.{count_of};
ghost use Rattle.parts_row_major.specs.Subsets.{LiesIn, number_in};
ghost use Rattle.parts_subsets.specs.Grid.{Divides, grid_of};
ghost use Rattle.parts_subsets.specs.Touched.{Touches};
ghost use Rattle.parts_strided_copy.specs.Paired.{ArePairedRows, AreRowsOf, from_at};
ghost use Rattle.sharding_gather.specs.steps.OverlapRows.{shared_in_subchunk, shared_in_array, CanShare, AreOverlapRows};
ghost use Rattle.parts_arrays.specs.Targets.{target_shape, target_subset};

use crate::overlap::span_of;
use parts_arrays::FixedTarget;
use parts_strided_copy::{AxisStart, PairedRows};
use parts_subsets::{ArraySubset, ChunkShape};
use std::alloc::AllocError;

/// A subset of a shape, and the grid of subchunks that the shape is cut into.
#[derive(Clone, Copy)]
pub struct SubsetInGrid<'a> {
    pub subset: &'a ArraySubset,
    pub shape: &'a ChunkShape,
    pub sub: &'a ChunkShape,
    pub grid: &'a ChunkShape,
}

// The same by its numbers along each axis.
#[derive(Clone, Copy)]
struct GridAxes<'a> {
    start: &'a [u64],
    len: &'a [u64],
    grid: &'a [u64],
    sub: &'a [u64],
}

// The rows of what a subset and the subchunk with a number both have, where the subset stands at an origin in an array of a shape.
// Refused only as out of memory.
fn shared_rows(
    axes: &GridAxes,
    number: u64,
    origin: &[u64],
    around: &[u64],
    rows: &mut PairedRows,
) -> Result<(), AllocError>
    requires { CanShare axes.now.start.now axes.now.len.now axes.now.grid.now axes.now.sub.now origin.now around.now number }
    ensures are_rows { OnOk result (ArePairedRows rows.new) }
    ensures into { OnOk result (AreRowsOf rows.new (shared_in_array axes.now.start.now axes.now.len.now axes.now.grid.now axes.now.sub.now origin.now number) around.now) }
    ensures from { let part = shared_in_subchunk axes.now.start.now axes.now.len.now axes.now.grid.now axes.now.sub.now number in
        OnOk result ((r : ℕ) → r < count_of part.shape → from_at rows.new r ≡ number_in part axes.now.sub.now r) }
{
    rows.clear();
    let GridAxes {
        start,
        len,
        grid,
        sub,
    } = *axes;
    let mut rest = number;
    let mut into_stride = 1;
    let mut from_stride = 1;
    for axis in (0..sub.len()).rev() {
        let span = span_of(
            start[axis],
            len[axis],
            rest % grid[axis] * sub[axis],
            sub[axis],
        );
        rest /= grid[axis];
        let into = AxisStart {
            start: origin[axis] + span.in_subset,
            stride: into_stride,
        };
        let from = AxisStart {
            start: span.in_subchunk,
            stride: from_stride,
        };
        rows.add_axis(span.len, into, from)?;
        into_stride *= around[axis];
        from_stride *= sub[axis];
    }
    Ok(())
}

impl SubsetInGrid<'_> {
    /// The rows of the cells that the subset has of the subchunk with a number, which it touches, in the array of a target that the subset
    /// is read into, and in the subchunk. Refused only as out of memory.
    pub fn overlap_rows(
        &self,
        number: u64,
        target: &FixedTarget,
        rows: &mut PairedRows,
    ) -> Result<(), AllocError>
        requires fits { count_of self.now.shape.now < 2 ^ 64 }
        requires divides { Divides self.now.sub.now self.now.shape.now }
        requires grid { self.now.grid.now ≡ grid_of self.now.shape.now self.now.sub.now }
        requires inside { LiesIn self.now.subset.now self.now.shape.now }
        requires below { number < count_of self.now.grid.now }
        requires touches { Touches self.now.shape.now self.now.sub.now self.now.subset.now number }
        requires same { (target_subset target.now).shape ≡ self.now.subset.now.shape }
        ensures { OnOk result (AreOverlapRows self.now.shape.now self.now.sub.now self.now.subset.now number (target_subset target.now) (target_shape target.now) rows.new) }
    {
        let _axes = self.shape.as_slice();
        let axes = GridAxes {
            start: self.subset.start(),
            len: self.subset.shape(),
            grid: self.grid.as_slice(),
            sub: self.sub.as_slice(),
        };
        shared_rows(&axes, number, target.subset().start(), target.shape(), rows)?;
        Ok(())
    }
}
