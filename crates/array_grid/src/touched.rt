// The shards that a subset of an array meets, as a subset of the grid of shards.
ghost use Rattle.std.specs.Prelude.{◌≡◌, IfOk, IfErr};
ghost use Rattle.parts_row_major.specs.Numbering.{count_of};
ghost use Rattle.parts_row_major.specs.Subsets.{IsSubset, LiesIn};
ghost use Rattle.parts_subsets.specs.Touched.{IsTouchedSubset};
ghost use Rattle.parts_errors.specs.declared.error.CodecError.TheVariants.{OutOfMemory};

use crate::grid::ShardGrid;
use parts_errors::CodecError;
use parts_subsets::{ArraySubset, points_in, touched_subset};
use std::alloc::Global;

impl ShardGrid {
    // The shards that a subset of the array meets, as a subset of the grid.
    pub(crate) fn touched(
        &self,
        alloc: Global,
        subset: &ArraySubset,
    ) -> Result<ArraySubset, CodecError>
        requires { LiesIn subset.now self.now.shape }
        ensures touched { IfOk result (λ touched. IsTouchedSubset subset.now self.now.shard touched) }
        ensures refused { IfErr result (λ e. e ≡ OutOfMemory) }
    {
        let touched = touched_subset(
            alloc,
            subset.start(),
            subset.shape(),
            self.whole.as_slice(),
            self.shard.as_slice(),
        )?;
        Ok(touched)
    }

    // How many shards a subset of the array meets, which are a subset of the grid.
    pub(crate) fn count_touched(&self, subset: &ArraySubset, touched: &ArraySubset) -> u64
        requires inside { LiesIn subset.now self.now.shape }
        requires well_formed { IsSubset subset.now.start subset.now.shape }
        requires touched { IsTouchedSubset subset.now self.now.shard touched.now }
        ensures { result ≡ count_of touched.now.shape }
    {
        points_in(touched, self.grid.as_slice())
    }
}
