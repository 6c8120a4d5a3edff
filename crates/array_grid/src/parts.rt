// The parts of a subset that lie in a shard each.
ghost use Rattle.std.specs.Prelude.{◌≡◌, ◌≤◌, ◌<◌, IfOk, IfErr, OnOk, MatchOption};
ghost use Rattle.parts_errors.specs.Order.{RefusedBy};
ghost use Rattle.parts_row_major.specs.Numbering.{count_of};
ghost use Rattle.parts_row_major.specs.Subsets.{IsSubset, LiesIn};
ghost use Rattle.parts_subsets.specs.Touched.{IsTouchedSubset};
ghost use Rattle.parts_errors.specs.declared.error.CodecError.TheVariants.{OutOfMemory};
ghost use Rattle.array_grid.specs.Parts.{IsPartAt, MeetsShards, SubsetRefusals};

use crate::grid::ShardGrid;
use parts_errors::CodecError;
use parts_subsets::ArraySubset;
use sharding_gather::{SubchunkOverlap, subchunk_overlap};
use std::alloc::Global;
use std::marker::Model;

/// The cells that a subset of an array and one of its shards both have: the number of the shard, its coordinates in the grid,
/// where the cells lie in it, and where they lie in the subset, as either counts from its start.
#[derive(Drop)]
pub struct ShardPart {
    pub shard: u64,
    pub coordinates: Vec<u64>,
    pub in_shard: ArraySubset,
    pub in_subset: ArraySubset,
}

/// The parts that a subset of an array is made of, one of each shard that it meets, in the order of the shards' numbers. They are made
/// one at a time: what this holds does not grow with their number.
pub struct ShardParts<'a> {
    grid: &'a ShardGrid,
    subset: &'a ArraySubset,
    // the shards that the subset meets, as a subset of the grid
    touched: ArraySubset,
    len: u64,
}

impl Drop for ShardParts<'_> {
    fn drop(self) {
        let ShardParts {
            grid: _,
            subset: _,
            touched: _,
            len: _,
        } = self;
    }
}

impl<'a> Model for ShardParts<'a> {
    ghost use Rattle.array_grid.specs.Parts.{SubsetInArray, AreMet};

    // the array, the subset, and how many parts there are
    ghost Value = { SubsetInArray };

    ghost view = { λ parts. record { array = parts.grid.now; subset = parts.subset.now; count = parts.len } };

    ghost invariant = { λ parts. AreMet parts.grid.now parts.subset.now parts.touched parts.len };
}

impl ShardGrid {
    // The part of a subset of the array in one of the shards that it meets, which are a subset of the grid.
    pub(crate) fn part_at(
        &self,
        alloc: Global,
        subset: &ArraySubset,
        touched: &ArraySubset,
        position: u64,
    ) -> Result<ShardPart, CodecError>
        requires inside { LiesIn subset.now self.now.shape }
        requires well_formed { IsSubset subset.now.start subset.now.shape }
        requires touched { IsTouchedSubset subset.now self.now.shard touched.now }
        requires position { position < count_of touched.now.shape }
        ensures part { IfOk result (IsPartAt self.now subset.now (count_of touched.now.shape) position) }
        ensures refused { IfErr result (λ e. e ≡ OutOfMemory) }
    {
        let shard = touched.number_at(position, self.grid.as_slice());
        let Some(coordinates) = self.coordinates(alloc, shard)? else {
            unreachable!()
        };
        let overlap = subchunk_overlap(alloc, shard, subset, &self.grid, &self.whole, &self.shard)?;
        let SubchunkOverlap {
            in_subchunk,
            in_subset,
        } = overlap;
        Ok(ShardPart {
            shard,
            coordinates,
            in_shard: in_subchunk,
            in_subset,
        })
    }

    /// The parts that a subset of the array is made of; none for an empty subset. Refused, in this order, as `IncompatibleDimensionality`
    /// where the subset has another number of axes, and as `OutOfBounds` where it leaves the array's shape; or as `OutOfMemory`.
    pub fn parts<'a>(
        &'a self,
        alloc: Global,
        subset: &'a ArraySubset,
    ) -> Result<ShardParts<'a>, CodecError>
        ensures same_array { IfOk result (λ parts. parts.array ≡ self.now) }
        ensures same_subset { IfOk result (λ parts. parts.subset ≡ subset.now) }
        ensures counted { IfOk result (λ parts. MeetsShards self.now subset.now parts.count) }
        ensures served { OnOk result (LiesIn subset.now self.now.shape) }
        ensures refused { IfErr result (RefusedBy (SubsetRefusals subset.now self.now.shape)) }
    {
        if subset.start().len() != self.shape.len() {
            return Err(CodecError::IncompatibleDimensionality);
        }
        if !subset.lies_in(&self.shape) {
            return Err(CodecError::OutOfBounds);
        }
        let touched = self.touched(alloc, subset)?;
        let len = self.count_touched(subset, &touched);
        Ok(ShardParts {
            grid: self,
            subset,
            touched,
            len,
        })
    }
}

impl ShardParts<'_> {
    /// How many parts there are: as many as shards in which a cell of the subset lies.
    pub fn len(&self) -> u64
        ensures { result ≡ self.now.count }
    {
        self.len
    }

    /// The part at a place, `None` past the last one. Refused only as `OutOfMemory`.
    pub fn part(&self, alloc: Global, position: u64) -> Result<Option<ShardPart>, CodecError>
        ensures part { IfOk result (λ part. MatchOption part (self.now.count ≤ position) (IsPartAt self.now.array self.now.subset self.now.count position)) }
        ensures refused { IfErr result (λ e. e ≡ OutOfMemory) }
    {
        if position >= self.len {
            return Ok(None);
        }
        let part = self
            .grid
            .part_at(alloc, self.subset, &self.touched, position)?;
        Ok(Some(part))
    }
}
