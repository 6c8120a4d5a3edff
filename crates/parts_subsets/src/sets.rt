// Where the sets of a subset's elements begin, found by steps.
ghost use Rattle.std.specs.Prelude.{◌≡◌, ℕ, ◌+◌, ◌*◌, ◌^◌, ◌<◌};
ghost use Rattle.parts_row_major.specs.Numbering.{count_of};
ghost use Rattle.parts_row_major.specs.Subsets.{number_in, IsSubset, IsServed};
ghost use Rattle.parts_row_major.specs.Runs.{AreRows};

use crate::subset::ArraySubset;
use std::marker::Model;

/// A walk over the sets of a subset's elements, each of as many that follow one another in row-major order of the subset.
#[derive(Drop)]
pub struct SetStarts<'a> {
    subset: &'a ArraySubset,
    shape: &'a [u64],
    each: u64,
    sets: u64,
    group: u64,
    stride: u64,
    passed: u64,
    turn: u64,
    start: u64,
}

impl<'a> Model for SetStarts<'a> {
    ghost use Rattle.std.specs.Prelude.{ℕ, ◌*◌};
    ghost use Rattle.parts_row_major.specs.Subsets.{number_in};
    ghost use Rattle.parts_row_major.specs.Runs.{SetWalk, AreSets, IsAtSet};

    ghost Value = { SetWalk };

    ghost view = { λ s. record { subset = s.subset.now; around = s.shape.now; each = s.each; sets = s.sets; passed = s.passed } };

    ghost invariant = { λ s. AreSets s.subset.now s.shape.now s.each s.sets × IsAtSet (λ q. number_in s.subset.now s.shape.now (q * s.each)) s.group s.stride s.passed s.turn s.sets s.start };
}

impl SetStarts<'_> {
    /// The number in the array of the first element of the next set. Takes no memory.
    #[inline(always)]
    pub fn next_start(&mut self) -> u64
        requires { self.old.passed < self.old.sets }
        ensures value { result ≡ number_in self.old.subset self.old.around (self.old.passed * self.old.each) }
        ensures one_more { self.new ≡ record { subset = self.old.subset; around = self.old.around; each = self.old.each; sets = self.old.sets; passed = self.old.passed + 1 } }
    {
        let start = self.start;
        self.passed += 1;
        if self.passed < self.turn {
            self.start += self.stride;
        } else if self.passed < self.sets {
            self.start = self.subset.number_at(self.passed * self.each, self.shape);
            self.turn += self.group;
        }
        start
    }
}

// The sets that lie along one axis of a subset, a stride apart.
#[derive(Clone, Copy)]
struct SetGroup {
    sets: u64,
    stride: u64,
}

// The sets of so many elements along the axis before those that a set covers: one, where a set covers no whole axes, or is alone.
fn set_group(subset: &ArraySubset, shape: &[u64], each: u64, sets: u64) -> SetGroup
    requires served { IsServed subset.now shape.now }
    requires some { 0 < each }
    requires whole { sets * each ≡ count_of subset.now.shape }
    ensures group { AreRows (λ q. number_in subset.now shape.now (q * each)) result.sets result.stride sets }
    ensures well_formed { IsSubset subset.now.start subset.now.shape }
{
    let len = subset.shape();
    let one = SetGroup { sets: 1, stride: 0 };
    if sets <= 1 {
        return one;
    }
    let mut covered = 1;
    let mut stride = 1;
    for axis in (0..shape.len()).rev() {
        if covered == each && len[axis] != 1 {
            return SetGroup {
                sets: len[axis],
                stride,
            };
        }
        covered *= len[axis];
        stride *= shape[axis];
    }
    one
}

/// The number in an array of a shape of the first point of a subset that lies in it. Takes no memory.
pub fn first_number(subset: &ArraySubset, shape: &[u64]) -> u64
    requires served { IsServed subset.now shape.now }
    requires some { 0 < count_of subset.now.shape }
    ensures { result ≡ number_in subset.now shape.now 0 }
{
    let start = subset.start();
    let mut stride = 1;
    let mut number = 0;
    for axis in (0..shape.len()).rev() {
        number += start[axis] * stride;
        stride *= shape[axis];
    }
    number
}

impl ArraySubset {
    /// Where sets of so many of the subset's elements begin in an array of a shape that it lies in, which are so many: found by steps,
    /// and anew only where an axis further out goes on. Takes no memory.
    pub fn set_starts<'a>(&'a self, shape: &'a [u64], each: u64, sets: u64) -> SetStarts<'a>
        requires served { IsServed self.now shape.now }
        requires some { 0 < each }
        requires whole { sets * each ≡ count_of self.now.shape }
        ensures { result ≡ record { subset = self.now; around = shape.now; each = each; sets = sets; passed = 0 } }
    {
        let group = set_group(self, shape, each, sets);
        let start = if sets == 0 {
            0
        } else {
            first_number(self, shape)
        };
        SetStarts {
            subset: self,
            shape,
            each,
            sets,
            group: group.sets,
            stride: group.stride,
            passed: 0,
            turn: group.sets,
            start,
        }
    }
}
