// The elements of a subset of an array, copied row by row.
ghost use Rattle.std.specs.Prelude.{◌≡◌, ◌≢◌, ℕ, ◌+◌, ◌*◌, ◌<◌, ◌≤◌, length};
ghost use Rattle.parts_row_major.specs.Numbering.{count_of};
ghost use Rattle.parts_row_major.specs.Subsets.{number_in, IsServed};
ghost use Rattle.parts_row_major.specs.Pieces.{piece, IsUpdated};
ghost use Rattle.parts_row_major.specs.Runs.{AreSubsetRows};

use crate::rows::{Rows, by_length, copy_rows, copy_rows_of};
use parts_subsets::{ArraySubset, SubsetRows, first_number};
use std::marker::Model;

/// A subset of an array that it lies in, with the rows in which its elements lie there.
#[derive(Drop)]
pub struct StridedSubset<'a> {
    subset: &'a ArraySubset,
    shape: &'a [u64],
    rows: SubsetRows,
    first: u64,
}

impl<'a> Model for StridedSubset<'a> {
    ghost use Rattle.std.specs.Prelude.{◌≡◌, ◌<◌};
    ghost use Rattle.parts_row_major.specs.Subsets.{IsSubset, IsServed, number_in};
    ghost use Rattle.parts_row_major.specs.Runs.{AreSubsetRows};
    ghost use Rattle.parts_strided_copy.specs.steps.Strided.{SubsetIn};

    ghost Value = { SubsetIn };

    ghost view = { λ s. record { subset = s.subset.now; around = s.shape.now } };

    ghost invariant = { λ s. IsServed s.subset.now s.shape.now × IsSubset s.subset.now.start s.subset.now.shape × AreSubsetRows s.subset.now s.shape.now s.rows.run s.rows.rows s.rows.stride s.rows.sets
        × (0 < s.rows.sets → s.first ≡ number_in s.subset.now s.shape.now 0) };
}

impl<'a> StridedSubset<'a> {
    /// The rows of a subset of an array of a shape that it lies in. Takes no memory.
    pub fn new(subset: &'a ArraySubset, shape: &'a [u64]) -> StridedSubset<'a>
        requires { IsServed subset.now shape.now }
        ensures { result ≡ record { subset = subset.now; around = shape.now } }
    {
        let rows = subset.rows_in(shape);
        let first = if rows.sets == 0 {
            0
        } else {
            first_number(subset, shape)
        };
        StridedSubset {
            subset,
            shape,
            rows,
            first,
        }
    }
}

impl StridedSubset<'_> {
    // As `scatter`, set by set, of rows whose length is known as `copy_rows_of` has it.
    fn scatter_sets<const N: usize, const M: usize>(
        &self,
        set: SubsetRows,
        output: &mut [u8],
        size: usize,
        moved: usize,
        update: &[u8],
    )
        requires rows { AreSubsetRows self.now.subset self.now.around set.run set.rows set.stride set.sets }
        requires some { 0 < size }
        requires inside { (k : ℕ) → k < count_of self.now.subset.shape → (moved + number_in self.now.subset self.now.around k) * size + size ≤ length output.old }
        requires whole { length update.now ≡ count_of self.now.subset.shape * size }
        requires known { N ≢ 0 → set.run * size ≡ N }
        requires least { M ≤ set.run * size }
        requires most { M ≢ 0 → set.run * size ≤ 2 * M }
        ensures { IsUpdated (count_of self.now.subset.shape) (λ k. moved + number_in self.now.subset self.now.around k) (piece size output.old) (piece size update.now) (piece size output.new) }
    {
        let each = set.rows * set.run;
        let mut starts = self.subset.set_starts(self.shape, each, set.sets);
        for q in 0..set.sets {
            let done = q * each;
            let to = Rows {
                first: moved + starts.next_start() as usize,
                stride: set.stride as usize,
            };
            let from = Rows {
                first: done as usize,
                stride: set.run as usize,
            };
            let (rows, run) = (set.rows as usize, set.run as usize);
            copy_rows_of::<N, M>(output, size, to, update, from, rows, run);
        }
    }

    /// Writes elements that come one after the other at the subset's points, in row-major order of the subset, each `moved` positions
    /// further on in the array. Takes no memory.
    pub fn scatter(&self, output: &mut [u8], size: usize, moved: usize, update: &[u8])
        requires some { 0 < size }
        requires inside { (k : ℕ) → k < count_of self.now.subset.shape → (moved + number_in self.now.subset self.now.around k) * size + size ≤ length output.old }
        requires whole { length update.now ≡ count_of self.now.subset.shape * size }
        ensures { IsUpdated (count_of self.now.subset.shape) (λ k. moved + number_in self.now.subset self.now.around k) (piece size output.old) (piece size update.now) (piece size output.new) }
    {
        let set = self.rows;
        if set.sets != 1 {
            let bytes = (set.run as usize).saturating_mul(size);
            by_length!(bytes, self.scatter_sets, (set, output, size, moved, update));
            return;
        }
        let to = Rows {
            first: moved + self.first as usize,
            stride: set.stride as usize,
        };
        let from = Rows {
            first: 0,
            stride: set.run as usize,
        };
        copy_rows(
            output,
            size,
            to,
            update,
            from,
            set.rows as usize,
            set.run as usize,
        );
    }

    // As `gather`, set by set, of rows whose length is known as `copy_rows_of` has it.
    fn gather_sets<const N: usize, const M: usize>(
        &self,
        set: SubsetRows,
        part: &mut [u8],
        bytes: &[u8],
        size: usize,
        moved: usize,
    )
        requires rows { AreSubsetRows self.now.subset self.now.around set.run set.rows set.stride set.sets }
        requires some { 0 < size }
        requires inside { (k : ℕ) → k < count_of self.now.subset.shape → (moved + number_in self.now.subset self.now.around k) * size + size ≤ length bytes.now }
        requires whole { length part.old ≡ count_of self.now.subset.shape * size }
        requires known { N ≢ 0 → set.run * size ≡ N }
        requires least { M ≤ set.run * size }
        requires most { M ≢ 0 → set.run * size ≤ 2 * M }
        ensures { (k : ℕ) → k < count_of self.now.subset.shape → piece size part.new k ≡ piece size bytes.now (moved + number_in self.now.subset self.now.around k) }
    {
        let each = set.rows * set.run;
        let mut starts = self.subset.set_starts(self.shape, each, set.sets);
        for q in 0..set.sets {
            let done = q * each;
            let to = Rows {
                first: done as usize,
                stride: set.run as usize,
            };
            let from = Rows {
                first: moved + starts.next_start() as usize,
                stride: set.stride as usize,
            };
            let (rows, run) = (set.rows as usize, set.run as usize);
            copy_rows_of::<N, M>(part, size, to, bytes, from, rows, run);
        }
    }

    /// Writes the elements at the subset's points, each taken `moved` positions further on in the array, one after the other, in row-major
    /// order of the subset. Takes no memory.
    pub fn gather(&self, part: &mut [u8], bytes: &[u8], size: usize, moved: usize)
        requires some { 0 < size }
        requires inside { (k : ℕ) → k < count_of self.now.subset.shape → (moved + number_in self.now.subset self.now.around k) * size + size ≤ length bytes.now }
        requires whole { length part.old ≡ count_of self.now.subset.shape * size }
        ensures { (k : ℕ) → k < count_of self.now.subset.shape → piece size part.new k ≡ piece size bytes.now (moved + number_in self.now.subset self.now.around k) }
    {
        let set = self.rows;
        if set.sets != 1 {
            let row = (set.run as usize).saturating_mul(size);
            by_length!(row, self.gather_sets, (set, part, bytes, size, moved));
            return;
        }
        let to = Rows {
            first: 0,
            stride: set.run as usize,
        };
        let from = Rows {
            first: moved + self.first as usize,
            stride: set.stride as usize,
        };
        copy_rows(
            part,
            size,
            to,
            bytes,
            from,
            set.rows as usize,
            set.run as usize,
        );
    }
}
