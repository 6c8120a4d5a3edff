// Subsets of coordinates: what they are made of, and where their points lie in an array.
ghost use Rattle.std.specs.Prelude.{◌≡◌, ℕ, ◌+◌, ◌*◌, ◌^◌, ◌<◌, ◌≤◌, List, SomeIff, IfOk, IfErr, OnOk, OnErr, IsTrue, ◌↔◌, length, replicate, All};
ghost use Rattle.parts_errors.specs.Order.{◌or◌then◌, done, RefusedBy};
ghost use Rattle.parts_errors.specs.declared.error.CodecError.TheVariants.{OutOfBounds};
ghost use Rattle.parts_row_major.specs.Numbering.{count_of};
ghost use Rattle.parts_row_major.specs.Subsets.{Subset, subset_of_ranges, IsSubset, end_of, LiesIn, number_in, IsServed};
ghost use Rattle.parts_subsets.specs.SubsetRefusals.{SubsetRefusals};

mod overlap;
mod touched;

use crate::axes::Axes;
use parts_errors::CodecError;
use parts_row_major::{count, number_of_point};
use std::alloc::{AllocError, Global};
use std::marker::Model;
use std::ops::Range;
pub use touched::touched_subset;

/// A subset of coordinates: a start and a length along each axis, whose sum fits 64 bits.
#[derive(Debug)]
pub struct ArraySubset {
    start: Axes,
    shape: Axes,
}

impl Drop for ArraySubset {
    fn drop(self) {
        let ArraySubset { start: _, shape: _ } = self;
    }
}

impl Model for ArraySubset {
    ghost use Rattle.parts_row_major.specs.Subsets.{Subset, IsSubset};

    ghost Value = { Subset };

    ghost view = { λ subset. record { start = subset.start.items; shape = subset.shape.items } };

    ghost invariant = { λ subset. IsSubset subset.start.items subset.shape.items };
}

impl PartialEq for ArraySubset {
    ghost use Rattle.std.specs.Prelude.{nat_eq};
    ghost use Rattle.std.specs.Ordering.{on, eq_of_both};
    ghost use Rattle.std.specs.Cmp.{on_equiv, and_equiv, partial_equiv_from_equiv};
    ghost use Rattle.std.specs.Cmp.Lexicographic.{pointwise, nat_list_eq_equiv};

    ghost eq = { eq_of_both (on (λ subset. subset.start) (pointwise nat_eq)) (on (λ subset. subset.shape) (pointwise nat_eq)) };

    ghost laws = { partial_equiv_from_equiv (and_equiv (on_equiv (λ subset. subset.start) nat_list_eq_equiv) (on_equiv (λ subset. subset.shape) nat_list_eq_equiv)) };

    /// Whether both subsets have the same start and the same shape.
    fn eq(&self, other: &Self) -> bool {
        self.start.as_slice() == other.start.as_slice()
            && self.shape.as_slice() == other.shape.as_slice()
    }
}

impl Eq for ArraySubset {
    ghost use Rattle.std.specs.Cmp.{on_equiv, and_equiv};
    ghost use Rattle.std.specs.Cmp.Lexicographic.{nat_list_eq_equiv};

    ghost laws = { and_equiv (on_equiv (λ subset. subset.start) nat_list_eq_equiv) (on_equiv (λ subset. subset.shape) nat_list_eq_equiv) };
}

// Whether a start and a length stand for each axis, whose sum fits 64 bits.
fn is_subset(start: &[u64], shape: &[u64]) -> bool
    ensures { IsTrue result ↔ IsSubset start.now shape.now }
{
    if start.len() != shape.len() {
        return false;
    }
    for axis in 0..start.len() {
        if start[axis].checked_add(shape[axis]).is_none() {
            return false;
        }
    }
    true
}

// Where a subset ends along each axis.
fn ends(alloc: Global, start: &[u64], shape: &[u64]) -> Result<Vec<u64>, AllocError>
    requires { IsSubset start.now shape.now }
    ensures { IfOk result (λ end. end.items ≡ end_of (record { start = start.now; shape = shape.now })) }
{
    let mut end = Vec::new(alloc);
    for axis in 0..start.len() {
        end.push(start[axis] + shape[axis])?;
    }
    Ok(end)
}

impl ArraySubset {
    /// The subset of one range of coordinates along each axis. `None` where a start passes its end; refused only as
    /// out of memory.
    pub fn new_with_ranges(alloc: Global, ranges: &[Range<u64>]) -> Result<Option<Self>, AllocError>
        ensures { IfOk result (λ made. SomeIff made (All (λ range. range.start ≤ range.end) ranges.now) (subset_of_ranges ranges.now)) }
    {
        let mut start = Axes::new(alloc);
        let mut shape = Axes::new(alloc);
        for range in ranges {
            let Some(len) = range.end.checked_sub(range.start) else {
                return Ok(None);
            };
            start.push(range.start)?;
            shape.push(len)?;
        }
        Ok(Some(ArraySubset { start, shape }))
    }

    /// The subset of one range of coordinates along each axis, in one step. Refused as `OutOfBounds` where a start passes its end,
    /// or as `OutOfMemory`.
    pub fn from_ranges(alloc: Global, ranges: &[Range<u64>]) -> Result<Self, CodecError>
        ensures ordered { OnOk result (All (λ range. range.start ≤ range.end) ranges.now) }
        ensures subset { IfOk result (λ made. made ≡ subset_of_ranges ranges.now) }
        ensures refused { IfErr result (RefusedBy (All (λ range. range.start ≤ range.end) ranges.now or OutOfBounds then done)) }
    {
        ArraySubset::new_with_ranges(alloc, ranges)?.ok_or(CodecError::OutOfBounds)
    }

    /// The subset with this start and this length along each axis. `None` where their numbers of axes differ, or an
    /// end passes `u64::MAX`. Takes no memory.
    pub fn new_with_start_shape(start: Vec<u64>, shape: Vec<u64>) -> Option<Self>
        ensures { SomeIff result (IsSubset start.items shape.items) (record { start = start.items; shape = shape.items }) }
    {
        ArraySubset::new_with_axes(Axes::from_vec(start), Axes::from_vec(shape))
    }

    /// As `new_with_start_shape`, where few axes take no memory of their own.
    pub fn new_with_axes(start: Axes, shape: Axes) -> Option<Self>
        ensures { SomeIff result (IsSubset start.items shape.items) (record { start = start.items; shape = shape.items }) }
    {
        if is_subset(&start, &shape) {
            Some(ArraySubset { start, shape })
        } else {
            None
        }
    }

    /// The subset of all coordinates of a shape, which starts at 0 on every axis. Refused only as out of memory.
    pub fn new_with_shape(alloc: Global, shape: Vec<u64>) -> Result<Self, AllocError>
        ensures { IfOk result (λ made. made ≡ record { start = replicate (length shape.items) 0; shape = shape.items }) }
    {
        let start = Axes::from_elem(alloc, 0, shape.len())?;
        let shape = Axes::from_vec(shape);
        Ok(ArraySubset { start, shape })
    }

    /// The first coordinate of the subset along each axis.
    pub fn start(&self) -> &[u64]
        ensures value { result.now ≡ self.now.start }
        ensures well_formed { IsSubset self.now.start self.now.shape }
    {
        &self.start
    }

    /// How many coordinates the subset has along each axis.
    pub fn shape(&self) -> &[u64]
        ensures value { result.now ≡ self.now.shape }
        ensures well_formed { IsSubset self.now.start self.now.shape }
    {
        &self.shape
    }

    /// Where the subset ends along each axis, the end excluded. Refused only as out of memory.
    pub fn end_exc(&self, alloc: Global) -> Result<Vec<u64>, AllocError>
        ensures { IfOk result (λ end. end.items ≡ end_of self.now) }
    {
        ends(alloc, &self.start, &self.shape)
    }

    /// How many points the subset has: the product of its shape, 1 for no axes. `None` past `u64::MAX`.
    pub fn num_elements(&self) -> Option<u64>
        ensures value { SomeIff result (count_of self.now.shape < 2 ^ 64) (count_of self.now.shape) }
        ensures well_formed { IsSubset self.now.start self.now.shape }
    {
        count(&self.shape)
    }

    /// An equal subset. Refused only as out of memory.
    pub fn try_clone(&self, alloc: Global) -> Result<Self, AllocError>
        ensures { IfOk result (λ copy. copy ≡ self.now) }
    {
        Ok(ArraySubset {
            start: Axes::from_slice(alloc, &self.start)?,
            shape: Axes::from_slice(alloc, &self.shape)?,
        })
    }
}

// Whether a subset ends within a shape on every axis.
fn ends_within(start: &[u64], len: &[u64], shape: &[u64]) -> bool
    requires { IsSubset start.now len.now }
    ensures { IsTrue result ↔ LiesIn (record { start = start.now; shape = len.now }) shape.now }
{
    if start.len() != shape.len() {
        return false;
    }
    for axis in 0..shape.len() {
        if start[axis] + len[axis] > shape[axis] {
            return false;
        }
    }
    true
}

impl ArraySubset {
    /// Whether the subset ends within a shape on every axis.
    pub fn lies_in(&self, shape: &[u64]) -> bool
        ensures { IsTrue result ↔ LiesIn self.now shape.now }
    {
        ends_within(&self.start, &self.shape, shape)
    }

    /// The number in an array of a shape of one of the subset's points.
    pub fn number_at(&self, i: u64, shape: &[u64]) -> u64
        requires inside { LiesIn self.now shape.now }
        requires below { i < count_of self.now.shape }
        requires fits { count_of shape.now < 2 ^ 64 }
        ensures value { result ≡ number_in self.now shape.now i }
        ensures below { result < count_of shape.now }
        ensures well_formed { IsSubset self.now.start self.now.shape }
    {
        number_of_point(&self.start, &self.shape, i, shape)
    }
}

/// The count of a shape that a subset lies in, or the first reason to refuse the subset.
pub fn check_subset(subset: &ArraySubset, shape: &[u64]) -> Result<u64, CodecError>
    ensures served { OnOk result (IsServed subset.now shape.now) }
    ensures total { IfOk result (λ total. total ≡ count_of shape.now) }
    ensures unserved { OnErr result (¬ IsServed subset.now shape.now) }
    ensures refused { IfErr result (SubsetRefusals subset.now shape.now done) }
{
    if subset.start().len() != shape.len() {
        return Err(CodecError::IncompatibleDimensionality);
    }
    if !subset.lies_in(shape) {
        return Err(CodecError::OutOfBounds);
    }
    count(shape).ok_or(CodecError::TooLarge)
}

// How many points a subset has that lies in a shape whose count fits.
pub fn points_in(subset: &ArraySubset, shape: &[u64]) -> u64
    requires { IsServed subset.now shape.now }
    ensures value { result ≡ count_of subset.now.shape }
    ensures well_formed { IsSubset subset.now.start subset.now.shape }
{
    parts_row_major::points_in(subset.start(), subset.shape(), shape)
}
