// Runs of neighbouring elements in a subset.
ghost use Rattle.std.specs.Prelude.{◌≡◌, ℕ, ◌+◌, ◌-◌, ◌*◌, ◌^◌, ◌<◌, ◌≤◌, List, length, All, []};
ghost use Rattle.parts_row_major.specs.Numbering.{count_of};
ghost use Rattle.parts_row_major.specs.Runs.{IsRunLength, IsRowSet, runs_end_to_end};

/// The runs along one axis of a subset: the length of each, how many there are, and how far apart they begin.
#[derive(Clone, Copy)]
pub struct RowSet {
    /// How many elements a run has.
    pub run: u64,
    /// How many runs there are.
    pub rows: u64,
    /// How far apart the runs begin.
    pub stride: u64,
}

/// The runs along the axis before that of a run, of a subset that isn't empty. Takes no memory.
pub fn row_set(len: &[u64], shape: &[u64]) -> RowSet
    requires same_axes { length len.now ≡ length shape.now }
    requires some { 0 < count_of len.now }
    requires fits { count_of len.now < 2 ^ 64 }
    requires some_around { 0 < count_of shape.now }
    requires fits_around { count_of shape.now < 2 ^ 64 }
    ensures { IsRowSet len.now shape.now result.run result.rows result.stride }
{
    let mut run = 1;
    for axis in (0..len.len()).rev() {
        if len[axis] != shape[axis] {
            return RowSet {
                run: run * len[axis],
                rows: if axis == 0 { 1 } else { len[axis - 1] },
                stride: run * shape[axis],
            };
        }
        run *= len[axis];
    }
    RowSet {
        run,
        rows: 1,
        stride: run,
    }
}

ghost use Rattle.std.specs.Iterator.{item_count, YieldsFirst};
ghost use Rattle.parts_row_major.specs.Subsets.{IsSubset, IsServed, numbers_in};

use crate::points::{number_of_point, points_in};
use std::marker::Model;

/// The runs of a subset: the number of the first element and how many there are.
#[derive(Drop)]
pub struct ContiguousRuns<'a> {
    start: &'a [u64],
    len: &'a [u64],
    shape: &'a [u64],
    run: u64,
    rows: u64,
    stride: u64,
    next: u64,
    turn: u64,
    many: u64,
    last: u64,
}

impl<'a> Model for ContiguousRuns<'a> {
    ghost use Rattle.std.specs.Prelude.{ℕ, List, ◌≡◌, ◌≤◌, ◌*◌};
    ghost use Rattle.parts_row_major.specs.Subsets.{number_in};
    ghost use Rattle.parts_row_major.specs.Runs.{runs_from, IsRunning, IsStepping};

    ghost Value = { List (ℕ × ℕ) };

    ghost view = { λ runs. runs_from (record { start = runs.start.now; shape = runs.len.now }) runs.shape.now runs.run runs.next runs.many };

    ghost invariant = { λ runs. IsRunning (record { start = runs.start.now; shape = runs.len.now }) runs.shape.now runs.run runs.next runs.many × IsStepping (λ i. number_in (record { start = runs.start.now; shape = runs.len.now }) runs.shape.now (i * runs.run)) runs.rows runs.stride runs.next runs.turn runs.many runs.last };
}

impl<'a> Iterator for ContiguousRuns<'a> {
    type Item = (u64, u64);

    ghost next_gives = { YieldsFirst (λ runs. runs) };

    ghost remaining = { item_count (λ runs. runs) };

    fn next(&mut self) -> Option<(u64, u64)> {
        if self.next < self.turn {
            self.last += self.stride;
            self.next += 1;
            return Some((self.last, self.run));
        }
        if self.next == self.many {
            return None;
        }
        self.last = number_of_point(self.start, self.len, self.next * self.run, self.shape);
        self.turn += self.rows;
        self.next += 1;
        Some((self.last, self.run))
    }
}

impl<'a> ContiguousRuns<'a> {
    /// The runs of the subset with this start and this length along each axis, in an array of a shape that it lies in. Each run is as
    /// long as the product of the subset's axes from the first behind which it spans the shape on every axis; an empty subset has none.
    /// Takes no memory.
    pub fn of_subset(start: &'a [u64], len: &'a [u64], shape: &'a [u64]) -> Self
        requires well_formed { IsSubset start.now len.now }
        requires served { IsServed (record { start = start.now; shape = len.now }) shape.now }
        ensures runs { runs_end_to_end result ≡ numbers_in (record { start = start.now; shape = len.now }) shape.now }
        ensures long { All (λ run. IsRunLength len.now shape.now run.1) result }
        ensures within { All (λ run. run.0 + run.1 ≤ count_of shape.now) result }
        ensures none { count_of len.now ≡ 0 → result ≡ [] }
        ensures fits { count_of len.now < 2 ^ 64 }
    {
        let total = points_in(start, len, shape);
        if total == 0 {
            return ContiguousRuns {
                start,
                len,
                shape,
                run: 1,
                rows: 1,
                stride: 0,
                next: 0,
                turn: 0,
                many: 0,
                last: 0,
            };
        }
        let RowSet { run, rows, stride } = row_set(len, shape);
        ContiguousRuns {
            start,
            len,
            shape,
            run,
            rows,
            stride,
            next: 0,
            turn: 0,
            many: total / run,
            last: 0,
        }
    }
}
