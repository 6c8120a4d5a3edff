// The points of a transposed array, in the order of the array's elements.
ghost use Rattle.std.specs.Prelude.{◌≡◌, ◌<◌, ℕ, List, length, map, slice_index};
ghost use Rattle.std.specs.List.{range_with_len};
ghost use Rattle.parts_row_major.specs.Numbering.{count_of, point_of};
ghost use Rattle.array_codecs.specs.AxisOrders.{permuted};

use parts_row_major::number_along;
use parts_subsets::{ArraySubset, Indexer};

// Where the elements of an array of a shape stand in the array that is transposed by an order of axes, in row-major order of the first.
#[derive(Drop)]
pub struct MovedPoints<'a> {
    pub shape: &'a [u64],
    pub order: &'a [u64],
    pub count: u64,
    ghost axes: { length shape.now ≡ length order.now },
    ghost within: { (i : ℕ) → i < length order.now → slice_index order.now i < length order.now },
    ghost counted: { count ≡ count_of shape.now },
}

impl Indexer for MovedPoints<'_> {
    ghost use Rattle.std.specs.Prelude.{None};
    ghost use Rattle.array_codecs.specs.MovedPoints.{moved_selection};

    ghost selection = { λ points. moved_selection points.order.now points.shape.now };

    ghost matches_subset = { λ points. tt };

    fn dimensionality(&self) -> usize {
        self.order.len()
    }

    fn len(&self) -> Option<u64> {
        Some(self.count)
    }

    fn index_at(&self, i: u64, axis: usize) -> u64 {
        number_along(i, self.shape, self.order[axis] as usize)
    }

    fn as_array_subset(&self) -> Option<&ArraySubset> {
        None
    }
}
