// Shapes of chunks, none of whose axes is 0.
ghost use Rattle.std.specs.Prelude.{◌≡◌, ◌^◌, ◌<◌, SomeIff, IfOk};
ghost use Rattle.parts_row_major.specs.Numbering.{count_of, AllPositive};

use crate::axes::Axes;
use parts_row_major::count;
use std::alloc::{AllocError, Global};
use std::marker::Model;

/// A shape whose axes are all at least 1: of a shard, of a subchunk, or of the grid of subchunks.
#[derive(Debug)]
pub struct ChunkShape {
    axes: Axes,
    // their product, if it fits
    count: Option<u64>,
}

impl Drop for ChunkShape {
    fn drop(self) {
        let ChunkShape { axes: _, count: _ } = self;
    }
}

impl Model for ChunkShape {
    ghost use Rattle.std.specs.Prelude.{ℕ, ◌^◌, ◌<◌, List, SomeIff};
    ghost use Rattle.parts_row_major.specs.Numbering.{AllPositive, count_of};

    ghost Value = { List ℕ };

    ghost view = { λ shape. shape.axes.items };

    ghost invariant = { λ shape. AllPositive shape.axes.items × SomeIff shape.count (count_of shape.axes.items < 2 ^ 64) (count_of shape.axes.items) };
}

impl PartialEq for ChunkShape {
    ghost use Rattle.std.specs.Prelude.{nat_eq};
    ghost use Rattle.std.specs.Cmp.{partial_equiv_from_equiv};
    ghost use Rattle.std.specs.Cmp.Lexicographic.{pointwise, nat_list_eq_equiv};

    ghost eq = { pointwise nat_eq };

    ghost laws = { partial_equiv_from_equiv nat_list_eq_equiv };

    /// Whether both shapes have the same axes.
    fn eq(&self, other: &Self) -> bool {
        self.axes.as_slice() == other.axes.as_slice()
    }
}

impl Eq for ChunkShape {
    ghost use Rattle.std.specs.Cmp.Lexicographic.{nat_list_eq_equiv};

    ghost laws = { nat_list_eq_equiv };
}

impl ChunkShape {
    /// The shape with these axes. `None` where an axis is 0; refused only as out of memory.
    pub fn new(alloc: Global, axes: &[u64]) -> Result<Option<Self>, AllocError>
        ensures { IfOk result (λ made. SomeIff made (AllPositive axes.now) axes.now) }
    {
        if !axes.iter().all(|axis| *axis > 0) {
            return Ok(None);
        }
        let axes = Axes::from_slice(alloc, axes)?;
        Ok(Some(ChunkShape::from_positive(axes)))
    }

    /// The shape with these axes, which are known to be positive.
    pub fn from_positive(axes: Axes) -> Self
        requires { AllPositive axes.items }
        ensures { result ≡ axes.items }
    {
        let count = count(&axes);
        ChunkShape { axes, count }
    }

    /// The axes.
    pub fn as_slice(&self) -> &[u64]
        ensures value { result.now ≡ self.now }
        ensures positive { AllPositive self.now }
    {
        &self.axes
    }

    /// The product of the axes, 1 for no axes. `None` past `u64::MAX`.
    pub fn num_elements(&self) -> Option<u64>
        ensures value { SomeIff result (count_of self.now < 2 ^ 64) (count_of self.now) }
        ensures positive { AllPositive self.now }
    {
        self.count
    }

    /// An equal shape. Refused only as out of memory.
    pub fn try_clone(&self, alloc: Global) -> Result<Self, AllocError>
        ensures { IfOk result (λ copy. copy ≡ self.now) }
    {
        Ok(ChunkShape {
            axes: Axes::from_slice(alloc, &self.axes)?,
            count: self.count,
        })
    }
}
