// Coordinates that are asked of an array, given one number at a time.
ghost use Rattle.std.specs.Prelude.{◌≡◌, ℕ, ◌+◌, ◌*◌, ◌^◌, ◌<◌, ◌≤◌, [], SomeIff, IfSome, IfNone, IfOk, IsSome, length, slice_index, slice_index_or};
ghost use Rattle.parts_row_major.specs.Numbering.{count_of, point_of, zip_with};
ghost use Rattle.parts_row_major.specs.Subsets.{IsSubset};
ghost use Rattle.parts_row_major.specs.Pieces.{piece};
ghost use Rattle.parts_subsets.specs.Selections.{Selection, subset_selection, MatchesSubset, points_from};

use crate::subset::ArraySubset;
use parts_row_major::number_along;
use std::alloc::{AllocError, Global};
use std::marker::Model;

/// Coordinates in an order, duplicates kept: what a read asks of an array.
pub trait Indexer {
    // what is asked
    ghost selection: { Self → Selection };

    /// How many numbers each coordinate has.
    fn dimensionality(&self) -> usize
        ensures value { result ≡ (selection self.now).axes }
        ensures each { (i : ℕ) → i < length (selection self.now).points → length (slice_index_or (selection self.now).points i []) ≡ (selection self.now).axes };

    /// How many coordinates there are, duplicates counted. `None` past `u64::MAX`, which only a subset may answer.
    fn len(&self) -> Option<u64>
        ensures value { SomeIff result (length (selection self.now).points < 2 ^ 64) (length (selection self.now).points) }
        ensures listed { IfNone result (IsSome (selection self.now).subset) };

    /// The number along an axis of the coordinate at a place, which is below `len`; the axis is below `dimensionality`.
    fn index_at(&self, i: u64, axis: usize) -> u64
        requires position { i < length (selection self.now).points }
        requires axis { axis < (selection self.now).axes }
        ensures { result ≡ slice_index (slice_index_or (selection self.now).points i []) axis };

    /// The subset whose coordinates, in row-major order, these are, where they are given as one.
    fn as_array_subset(&self) -> Option<&ArraySubset>
        ensures some { IfSome result (λ subset. selection self.now ≡ subset_selection subset.now) }
        ensures none { IfNone result ((selection self.now).subset ≡ None) };

    // where it is given as a subset, what is asked is that subset's points
    ghost matches_subset: { (indexer : Self) → MatchesSubset (selection indexer) };
}

/// Listed coordinates, each with as many numbers; one may come more than once.
#[derive(Debug)]
pub struct Coordinates {
    dimensionality: usize,
    count: u64,
    flat: Vec<u64>,
}

impl Drop for Coordinates {
    fn drop(self) {
        let Coordinates {
            dimensionality: _,
            count: _,
            flat: _,
        } = self;
    }
}

impl Model for Coordinates {
    ghost use Rattle.std.specs.Prelude.{◌≡◌, ◌*◌, ◌^◌, ◌<◌, length};
    ghost use Rattle.parts_subsets.specs.Selections.{Points, points_from};

    ghost Value = { Points };

    ghost view = { λ list. points_from list.dimensionality list.count list.flat.items };

    ghost invariant = { λ list. (list.count < 2 ^ 64) × (length list.flat.items ≡ list.dimensionality * list.count) };
}

impl PartialEq for Coordinates {
    ghost use Rattle.std.specs.Cmp.{on_equiv, and_equiv, nat_eq_equiv, partial_equiv_from_equiv};
    ghost use Rattle.std.specs.Cmp.Lexicographic.{lists_equiv, nat_list_eq_equiv};
    ghost use Rattle.parts_subsets.specs.Selections.{same_points};

    ghost eq = { same_points };

    ghost laws = { partial_equiv_from_equiv (and_equiv (on_equiv (λ list. list.axes) nat_eq_equiv) (on_equiv (λ list. list.points) (lists_equiv nat_list_eq_equiv))) };

    /// Whether both lists have as many numbers in each coordinate, and the same coordinates in the same order.
    fn eq(&self, other: &Self) -> bool {
        self.dimensionality == other.dimensionality
            && self.count == other.count
            && self.flat == other.flat
    }
}

impl Eq for Coordinates {
    ghost use Rattle.std.specs.Cmp.{on_equiv, and_equiv, nat_eq_equiv};
    ghost use Rattle.std.specs.Cmp.Lexicographic.{lists_equiv, nat_list_eq_equiv};

    ghost laws = { and_equiv (on_equiv (λ list. list.axes) nat_eq_equiv) (on_equiv (λ list. list.points) (lists_equiv nat_list_eq_equiv)) };
}

impl Coordinates {
    /// `count` coordinates of `dimensionality` numbers each, one after the other. `None` unless there are as many
    /// numbers. Takes no memory.
    pub fn new(dimensionality: usize, count: u64, flat: Vec<u64>) -> Option<Self>
        ensures { SomeIff result (length flat.items ≡ dimensionality * count) (points_from dimensionality count flat.items) }
    {
        let wanted = (dimensionality as u64).checked_mul(count)?;
        if flat.len() as u64 != wanted {
            return None;
        }
        Some(Coordinates {
            dimensionality,
            count,
            flat,
        })
    }

    /// An equal list. Refused only as out of memory.
    pub fn try_clone(&self, alloc: Global) -> Result<Self, AllocError>
        ensures { IfOk result (λ copy. copy ≡ self.now) }
    {
        Ok(Coordinates {
            dimensionality: self.dimensionality,
            count: self.count,
            flat: self.flat.as_slice().to_vec(alloc)?,
        })
    }
}

// The number along an axis of one of the coordinates that stand one after the other.
fn number_along_list(flat: &[u64], dimensionality: usize, i: u64, axis: usize) -> u64
    requires whole { i * dimensionality + dimensionality ≤ length flat.now }
    requires on_axis { axis < dimensionality }
    ensures { result ≡ slice_index (piece dimensionality flat.now i) axis }
{
    flat[i as usize * dimensionality + axis]
}

impl Indexer for Coordinates {
    ghost use Rattle.parts_subsets.specs.Selections.{listed_selection};

    ghost selection = { listed_selection };

    ghost matches_subset = { λ list. tt };

    fn dimensionality(&self) -> usize {
        self.dimensionality
    }

    fn len(&self) -> Option<u64> {
        Some(self.count)
    }

    fn index_at(&self, i: u64, axis: usize) -> u64 {
        number_along_list(&self.flat, self.dimensionality, i, axis)
    }

    fn as_array_subset(&self) -> Option<&ArraySubset> {
        None
    }
}

// The number along an axis of one of the points of a subset.
fn number_along_subset(start: &[u64], len: &[u64], i: u64, axis: usize) -> u64
    requires well_formed { IsSubset start.now len.now }
    requires at_point { i < count_of len.now }
    requires on_axis { axis < length len.now }
    ensures { result ≡ slice_index (zip_with ◌+◌ start.now (point_of i len.now)) axis }
{
    start[axis] + number_along(i, len, axis)
}

impl Indexer for ArraySubset {
    ghost use Rattle.std.specs.Prelude.{refl};
    ghost use Rattle.parts_subsets.specs.Selections.{subset_selection};

    ghost selection = { subset_selection };

    ghost matches_subset = { λ subset. refl };

    fn dimensionality(&self) -> usize {
        self.start().len()
    }

    fn len(&self) -> Option<u64> {
        self.num_elements()
    }

    fn index_at(&self, i: u64, axis: usize) -> u64 {
        number_along_subset(self.start(), self.shape(), i, axis)
    }

    fn as_array_subset(&self) -> Option<&ArraySubset> {
        Some(self)
    }
}
