// The subchunks of a shard in the order in which they are written.
ghost use Rattle.std.specs.Prelude.{◌≡◌, ◌<◌, IfOk, IsTrue, length, slice_index};
ghost use Rattle.std.specs.List.{range_with_len};
ghost use Rattle.parts_row_major.specs.Numbering.{count_of, AllPositive};
ghost use Rattle.sharding_format.specs.declared.order.SubchunkWriteOrder.TheVariants.{Morton};
ghost use Rattle.sharding_format.specs.WriteOrder.{numbers_in_order};

use crate::morton::morton_numbers;
use parts_subsets::ChunkShape;
use sharding_format::SubchunkWriteOrder;
use std::alloc::{AllocError, Global};
use std::marker::Model;

/// The row-major numbers of the subchunks of a grid, each once, in the order in which a shard has their encodings. The ascending
/// order takes no memory.
pub struct SubchunkSequence {
    count: u64,
    is_ascending: bool,
    listed: Vec<u64>,
}

impl Drop for SubchunkSequence {
    fn drop(self) {
        let SubchunkSequence {
            count: _,
            is_ascending: _,
            listed: _,
        } = self;
    }
}

impl Model for SubchunkSequence {
    ghost use Rattle.std.specs.Prelude.{ℕ, List, IsPermutation};
    ghost use Rattle.std.specs.List.{range_with_len};
    ghost use Rattle.sharding_layout.specs.steps.Sequences.{numbers_of};

    ghost Value = { List ℕ };

    ghost view = { λ s. numbers_of s.is_ascending s.count s.listed.items };

    ghost invariant = { λ s. IsPermutation (range_with_len 0 s.count) (numbers_of s.is_ascending s.count s.listed.items) };
}

impl SubchunkSequence {
    /// So many subchunks in ascending order.
    pub fn ascending(alloc: Global, count: u64) -> Self
        ensures { result ≡ range_with_len 0 count }
    {
        SubchunkSequence {
            count,
            is_ascending: true,
            listed: Vec::new(alloc),
        }
    }

    // The subchunks of a grid along the Z-curve, which ascends where the grid has one axis or one subchunk.
    fn morton(alloc: Global, grid: &[u64], count: u64) -> Result<Self, AllocError>
        requires positive { AllPositive grid.now }
        requires count { count ≡ count_of grid.now }
        ensures { IfOk result (λ sequence. sequence ≡ numbers_in_order Morton grid.now) }
    {
        if grid.len() < 2 || count < 2 {
            return Ok(SubchunkSequence::ascending(alloc, count));
        }
        let listed = morton_numbers(alloc, grid, count)?;
        Ok(SubchunkSequence {
            count,
            is_ascending: false,
            listed,
        })
    }

    /// The subchunks of a grid in an order. Refused only as out of memory, and only where they are listed: in `Morton`, where the
    /// grid has more than one axis and more than one subchunk.
    pub fn new(
        alloc: Global,
        order: SubchunkWriteOrder,
        grid: &ChunkShape,
        count: u64,
    ) -> Result<Self, AllocError>
        requires count { count ≡ count_of grid.now }
        ensures { IfOk result (λ sequence. sequence ≡ numbers_in_order order grid.now) }
    {
        match order {
            SubchunkWriteOrder::C => Ok(SubchunkSequence::ascending(alloc, count)),
            SubchunkWriteOrder::Unordered => Ok(SubchunkSequence::ascending(alloc, count)),
            SubchunkWriteOrder::Morton => SubchunkSequence::morton(alloc, grid.as_slice(), count),
        }
    }

    /// How many subchunks there are.
    pub fn len(&self) -> u64
        ensures { result ≡ length self.now }
    {
        self.count
    }

    /// Whether the subchunks are in ascending order because no list of them was made.
    pub fn is_ascending(&self) -> bool
        ensures { IsTrue result → self.now ≡ range_with_len 0 (length self.now) }
    {
        self.is_ascending
    }

    /// The number of the subchunk at a place of the order.
    pub fn number_at(&self, position: u64) -> u64
        requires { position < length self.now }
        ensures { result ≡ slice_index self.now position }
    {
        if self.is_ascending {
            return position;
        }
        self.listed[position as usize]
    }
}
