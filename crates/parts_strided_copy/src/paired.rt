// Elements that lie in as many rows of two arrays, copied from one to the other.
ghost use Rattle.std.specs.Prelude.{◌≡◌, ◌≢◌, ℕ, ◌+◌, ◌*◌, ◌^◌, ◌<◌, ◌≤◌, [], ◌∷◌, ◌++◌, OnOk, length};
ghost use Rattle.parts_row_major.specs.Pieces.{piece, IsUpdated};
ghost use Rattle.parts_strided_copy.specs.Paired.{rows_along, steps_to, steps_of, elements_in_rows, into_at, from_at, ArePairedRows, AreWidened};

use crate::rows::{Rows, by_length, copy_rows_of, fill_rows};
use std::alloc::{AllocError, Global};

/// Rows along an axis: how many there are, and how far apart they begin in either array.
#[derive(Clone, Copy)]
pub struct RowStep {
    pub rows: u64,
    pub into: u64,
    pub from: u64,
}

/// Where a subset begins along an axis of an array, and how far apart neighbours along this axis lie.
#[derive(Clone, Copy)]
pub struct AxisStart {
    pub start: u64,
    pub stride: u64,
}

/// Elements that lie in as many rows of two arrays: how long a row is, where the first begins in either, and the steps from row to row,
/// along one axis after the other, the innermost first.
#[derive(Drop)]
pub struct PairedRows {
    run: u64,
    into: u64,
    from: u64,
    // along the innermost axis that has more than one row
    first: RowStep,
    others: Vec<RowStep>,
    // how many rows the others make
    sets: u64,
}

// How far a row begins behind the first, in either array.
#[derive(Clone, Copy)]
struct Behind {
    into: u64,
    from: u64,
}

// How far the row with a number begins behind the first.
fn row_behind(steps: &[RowStep], number: u64) -> Behind
    requires some { 0 < rows_along steps.now }
    requires into_fits { steps_to (λ step. step.into) steps.now number < 2 ^ 64 }
    requires from_fits { steps_to (λ step. step.from) steps.now number < 2 ^ 64 }
    ensures into { result.into ≡ steps_to (λ step. step.into) steps.now number }
    ensures from { result.from ≡ steps_to (λ step. step.from) steps.now number }
{
    let mut rest = number;
    let mut into = 0;
    let mut from = 0;
    for i in 0..steps.len() {
        let step = steps[i];
        let digit = rest % step.rows;
        into += digit * step.into;
        from += digit * step.from;
        rest /= step.rows;
    }
    Behind { into, from }
}

impl PairedRows {
    /// One element, the first of both arrays. Takes no memory.
    pub fn new(alloc: Global) -> Self
        ensures are_rows { ArePairedRows result }
        ensures one { elements_in_rows result ≡ 1 }
        ensures into { result.into ≡ 0 }
        ensures from { result.from ≡ 0 }
    {
        PairedRows {
            run: 1,
            into: 0,
            from: 0,
            first: RowStep {
                rows: 1,
                into: 0,
                from: 0,
            },
            others: Vec::new(alloc),
            sets: 1,
        }
    }

    /// One element again, the first of both arrays.
    pub fn clear(&mut self)
        ensures are_rows { ArePairedRows self.new }
        ensures one { elements_in_rows self.new ≡ 1 }
        ensures into { self.new.into ≡ 0 }
        ensures from { self.new.from ≡ 0 }
    {
        self.run = 1;
        self.into = 0;
        self.from = 0;
        self.first = RowStep {
            rows: 1,
            into: 0,
            from: 0,
        };
        self.others.truncate(0);
        self.sets = 1;
    }

    // Adds steps along one more axis, outside of the others. Refused only as out of memory.
    fn add_step(&mut self, step: RowStep) -> Result<(), AllocError>
        requires are_rows { ArePairedRows self.old }
        requires fits { step.rows * elements_in_rows self.old < 2 ^ 64 }
        requires more { 1 < step.rows }
        ensures are_rows { OnOk result (ArePairedRows self.new) }
        ensures first { OnOk result (self.new.into ≡ self.old.into × (self.new.from ≡ self.old.from) × (self.new.run ≡ self.old.run)) }
        ensures counted { OnOk result (elements_in_rows self.new ≡ step.rows * elements_in_rows self.old) }
        ensures steps { OnOk result ((stride : _ → ℕ) (row : ℕ) → steps_to stride (steps_of self.new) row ≡ steps_to stride (steps_of self.old ++ step ∷ []) row) }
    {
        if self.first.rows == 1 {
            self.first = step;
            return Ok(());
        }
        self.others.push(step)?;
        self.sets *= step.rows;
        Ok(())
    }

    /// All elements as many times as an axis outside of theirs is long, in either array from where the subset begins along this axis.
    /// Refused only as out of memory.
    pub fn add_axis(&mut self, len: u64, into: AxisStart, from: AxisStart) -> Result<(), AllocError>
        requires are_rows { ArePairedRows self.old }
        requires some { 0 < len }
        requires fits { len * elements_in_rows self.old < 2 ^ 64 }
        requires into_fits { self.old.into + into.start * into.stride < 2 ^ 64 }
        requires from_fits { self.old.from + from.start * from.stride < 2 ^ 64 }
        ensures { OnOk result (AreWidened self.old self.new len into from) }
    {
        self.into += into.start * into.stride;
        self.from += from.start * from.stride;
        if len == 1 {
            return Ok(());
        }
        if self.first.rows == 1 && self.run == into.stride && self.run == from.stride {
            self.run *= len;
            return Ok(());
        }
        self.add_step(RowStep {
            rows: len,
            into: into.stride,
            from: from.stride,
        })?;
        Ok(())
    }

    // As `copy`, of rows whose length is known as `copy_rows_of` has it.
    fn copy_sets<const N: usize, const M: usize>(
        &self,
        output: &mut [u8],
        size: usize,
        update: &[u8],
    )
        requires are_rows { ArePairedRows self.now }
        requires some { 0 < size }
        requires inside { (k : ℕ) → k < elements_in_rows self.now → into_at self.now k * size + size ≤ length output.old }
        requires inside_update { (k : ℕ) → k < elements_in_rows self.now → from_at self.now k * size + size ≤ length update.now }
        requires apart { (i k : ℕ) → i < elements_in_rows self.now → k < elements_in_rows self.now → into_at self.now i ≡ into_at self.now k → i ≡ k }
        requires known { N ≢ 0 → self.now.run * size ≡ N }
        requires least { M ≤ self.now.run * size }
        requires most { M ≢ 0 → self.now.run * size ≤ 2 * M }
        ensures { IsUpdated (elements_in_rows self.now) (into_at self.now) (piece size output.old) (λ k. piece size update.now (from_at self.now k)) (piece size output.new) }
    {
        let first = self.first;
        for q in 0..self.sets {
            let behind = row_behind(&self.others, q);
            let to = Rows {
                first: (self.into + behind.into) as usize,
                stride: first.into as usize,
            };
            let taken = Rows {
                first: (self.from + behind.from) as usize,
                stride: first.from as usize,
            };
            let (rows, run) = (first.rows as usize, self.run as usize);
            copy_rows_of::<N, M>(output, size, to, update, taken, rows, run);
        }
    }

    /// Copies the elements from the one array to the other. Takes no memory.
    pub fn copy(&self, output: &mut [u8], size: usize, update: &[u8])
        requires are_rows { ArePairedRows self.now }
        requires some { 0 < size }
        requires inside { (k : ℕ) → k < elements_in_rows self.now → into_at self.now k * size + size ≤ length output.old }
        requires inside_update { (k : ℕ) → k < elements_in_rows self.now → from_at self.now k * size + size ≤ length update.now }
        requires apart { (i k : ℕ) → i < elements_in_rows self.now → k < elements_in_rows self.now → into_at self.now i ≡ into_at self.now k → i ≡ k }
        ensures { IsUpdated (elements_in_rows self.now) (into_at self.now) (piece size output.old) (λ k. piece size update.now (from_at self.now k)) (piece size output.new) }
    {
        let bytes = self.run as usize * size;
        by_length!(bytes, self.copy_sets, (output, size, update))
    }

    /// Writes one element over each of those in the one array. Takes no memory.
    pub fn fill(&self, output: &mut [u8], size: usize, element: &[u8])
        requires are_rows { ArePairedRows self.now }
        requires some { 0 < size }
        requires inside { (k : ℕ) → k < elements_in_rows self.now → into_at self.now k * size + size ≤ length output.old }
        requires from_fits { (k : ℕ) → k < elements_in_rows self.now → from_at self.now k < 2 ^ 64 }
        requires apart { (i k : ℕ) → i < elements_in_rows self.now → k < elements_in_rows self.now → into_at self.now i ≡ into_at self.now k → i ≡ k }
        requires whole { length element.now ≡ size }
        ensures { IsUpdated (elements_in_rows self.now) (into_at self.now) (piece size output.old) (λ k. element.now) (piece size output.new) }
    {
        let first = self.first;
        for q in 0..self.sets {
            let behind = row_behind(&self.others, q);
            let to = Rows {
                first: (self.into + behind.into) as usize,
                stride: first.into as usize,
            };
            let (rows, run) = (first.rows as usize, self.run as usize);
            fill_rows(output, size, to, rows, run, element);
        }
    }
}
